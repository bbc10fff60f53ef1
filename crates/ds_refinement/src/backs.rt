//! The services of a double miss and of a store that waits for a copy, which let the unit go on:
//! each law is the contract of a function with an empty body.
ghost use Rattle.std.specs.Prelude.{◌≡◌, ◌≢◌, ◌-◌, ◌<◌, ◌≤◌, ℕ, true, false, List, [], ◌∷◌, Some};
ghost use Rattle.ds_word.specs.Word.{bits};
ghost use Rattle.ds_isa.specs.declared.instr.Size.TheVariants.{Byte};
ghost use Rattle.ds_isa.specs.declared.instr.Kind.TheVariants.{Store};
ghost use Rattle.ds_policy.specs.declared.grant.Grant.{Grant};
ghost use Rattle.ds_policy.specs.declared.grant.Right.TheVariants.{Write};
ghost use Rattle.ds_policy.specs.Grants.{PageState};
ghost use Rattle.ds_policy.specs.Pages.{entry_at, page_address};
ghost use Rattle.ds_cp0.specs.System.{System};
ghost use Rattle.ds_grants.specs.State.{GrantsState};
ghost use Rattle.ds_refinement.specs.declared.cause.Cause.TheVariants as cause;
ghost use Rattle.ds_refinement.specs.declared.step.Step.TheVariants.{Inside};
ghost use Rattle.ds_refinement.specs.Held.{Held};
ghost use Rattle.ds_refinement.specs.Units.{has_left_user, is_served};
ghost use Rattle.ds_refinement.specs.Inner.Stands.{IsSound};
ghost use Rattle.ds_refinement.specs.Steps.{Follows};
ghost use Rattle.ds_refinement.specs.Told.{told};
ghost use Rattle.ds_refinement.specs.Copying.{AwaitsCopy};
ghost use Rattle.ds_refinement.specs.Inner.Services.{IsCopied, with_table_page};
ghost use Rattle.ds_refinement.specs.Real.{GoesBack};

/// After a double miss EntryHi names a page of a process's page table. Its entry is put into the
/// buffer, where nothing answered for that page, and the unit begins again.
pub fn a_double_miss_goes_back()
    ensures page { (h : Held) → IsSound h → h.kept.state.ready ≢ [] → is_served h.core ≡ true
        → has_left_user h.core ≡ false → 0xC0000 ≤ bits h.core.system.entry_hi 12 20 }
    ensures few { (h : Held) → IsSound h → h.kept.state.ready ≢ [] → is_served h.core ≡ true
        → has_left_user h.core ≡ false → bits h.core.system.entry_hi 12 20 - 0xC0000 < 512 }
    ensures follows { (h : Held) (p : ℕ) (rest : List ℕ) → h.kept.state.ready ≡ p ∷ rest
        → is_served h.core ≡ true → has_left_user h.core ≡ false
        → Follows Inside h (with_table_page h p) }
    ensures back { (h : Held) (p : ℕ) (rest : List ℕ) → IsSound h
        → h.kept.state.ready ≡ p ∷ rest → is_served h.core ≡ true
        → has_left_user h.core ≡ false → GoesBack h (with_table_page h p) }
{}

/// A store that waits for a copy is told as a store, and the process has an entry with write at its
/// page. There is room to count the copy. Once its page has a frame of its own the unit begins
/// again: the machine's process is touched.
pub fn a_late_copy_goes_back()
    ensures told { (s : System) (g : GrantsState) (pages : PageState) (p : ℕ) → AwaitsCopy s g p
        → told s pages p ≡ cause.Access (record { kind = Store; size = Byte }) }
    ensures granted { (s : System) (g : GrantsState) (p : ℕ) → AwaitsCopy s g p
        → (grant : Grant) × (entry_at g.table p (page_address s.bad_vaddr) ≡ Some grant)
        × (grant.right ≡ Write) }
    ensures room { (h : Held) (p : ℕ) (rest : List ℕ) → IsSound h
        → h.kept.state.ready ≡ p ∷ rest → is_served h.core ≡ true → has_left_user h.core ≡ true
        → AwaitsCopy h.core.system h.kept.grants p → h.own.services ≤ 5 }
    ensures follows { (h new : Held) (p : ℕ) (rest : List ℕ) → h.kept.state.ready ≡ p ∷ rest
        → is_served h.core ≡ true → has_left_user h.core ≡ true
        → AwaitsCopy h.core.system h.kept.grants p → IsCopied p h new → Follows Inside h new }
    ensures back { (h new : Held) (p : ℕ) → has_left_user h.core ≡ true → IsCopied p h new
        → GoesBack h new }
{}
