//! Page tables and the buffer together.
ghost use Rattle.std.specs.Prelude.{◌≡◌, ℕ, ◌*◌, ◌<◌, ◌≤◌, ◌%◌, ◌^◌, List, length, nat_lt, slice_index, if◌then◌else◌, Some, IfSome};
ghost use Rattle.ds_word.specs.Bytes.{with_word};
ghost use Rattle.ds_tlb.specs.declared.entry.Entry.{Entry};
ghost use Rattle.ds_tlb.specs.Entries.{empty_entries};
ghost use Rattle.ds_policy.specs.declared.grant.Grant.{Grant};
ghost use Rattle.ds_policy.specs.Pages.{Table};
ghost use Rattle.ds_grants.specs.State.{GrantsState};
ghost use Rattle.ds_grants.specs.Inner.State.{with_grant, erased_grant};
ghost use Rattle.ds_tables.specs.Places.{Places, ArePlaces, region_of};
ghost use Rattle.ds_tables.specs.Inner.Places.{opened};
ghost use Rattle.ds_tables.specs.Inner.Tables.{with_entry};
ghost use Rattle.ds_asid.specs.Spaces.{Spaces};
ghost use Rattle.ds_asid.specs.Inner.Spaces.{number_held, after_take};
ghost use Rattle.ds_grants.specs.Words.{word_of_grant};
ghost use Rattle.ds_grants.specs.Inner.Changes.{both_forgotten, memory_without, places_without};
ghost use Rattle.ds_grants.specs.Inner.Parents.{AreAlike};
ghost use Rattle.ds_grants.specs.Represented.{IsRepresented};
ghost use Rattle.ds_grants.specs.Inner.Represented.{Keeps, IsLow, IsHigh, HasPlace};

/// What is granted stays represented when an entry of a process is put with its word, or removed, and
/// the buffer forgets in the process's address space, be it on the processor or not.
pub fn a_change_keeps_what_is_represented()
    ensures put { (entries : List Entry) (memory : List ℕ) (t : Places) (s : Spaces)
        (g : GrantsState) (p a : ℕ) (grant : Grant)
        → 2 ^ 23 ≤ length memory → 0 < p → p ≤ length g.table
        → a % 2 ^ 12 ≡ 0 → IfSome grant.page (λ page. slice_index g.lies page < 1024)
        → HasPlace g p a
        → Keeps entries memory t s g
        (both_forgotten entries a (number_held s p))
        (with_entry memory t p a (word_of_grant g (Some grant)))
        (opened t p (region_of a)) s (with_grant g p a grant) }
    ensures removed { (entries : List Entry) (memory : List ℕ) (t : Places) (s : Spaces)
        (g : GrantsState) (p a : ℕ)
        → 2 ^ 23 ≤ length memory → 0 < p → p ≤ length g.table
        → a % 2 ^ 12 ≡ 0
        → Keeps entries memory t s g
        (both_forgotten entries a (number_held s p))
        (memory_without memory t g p a) (places_without t g p a) s (erased_grant g p a) }
{}

/// A word that is put into a page table, and one that is taken out, change no page.
pub fn tables_leave_pages_as_they_are()
    ensures put { (memory : List ℕ) (t : Places) (p a w : ℕ) → ArePlaces t
        → 2 ^ 23 ≤ length memory → IsLow memory (with_entry memory t p a w) }
    ensures removed { (memory : List ℕ) (t : Places) (g : GrantsState) (p a : ℕ) → ArePlaces t
        → 2 ^ 23 ≤ length memory → IsLow memory (memory_without memory t g p a) }
{}

/// A word that is stored into a page changes no page table, and leaves what is represented.
pub fn pages_leave_tables_as_they_are()
    ensures stored { (memory : List ℕ) (place w : ℕ) → length memory ≡ 2 ^ 23
        → 402 * 4096 ≤ place → place < 2 ^ 23 → IsHigh memory (with_word memory place w) }
    ensures kept { (entries : List Entry) (old new : List ℕ) (t : Places) (s : Spaces)
        (g : GrantsState) → IsHigh old new → IsRepresented entries old t s g
        → IsRepresented entries new t s g }
{}

/// What is granted stays represented when a process that has no address space takes the next number;
/// where all are used up, every process has lost its own first, and the buffer was flushed.
pub fn a_number_is_handed_out()
    ensures { (slots : ℕ) (entries : List Entry) (memory : List ℕ) (t : Places) (s : Spaces)
        (g : GrantsState) (p : ℕ) → slots ≤ 64 → p ≤ 100
        → IsRepresented entries memory t s g
        → IsRepresented (if nat_lt s.next 64 then entries else empty_entries slots) memory t
        (after_take s p) g }
{}

/// What is granted stays represented where entries have other parents.
pub fn parents_leave_what_is_represented()
    ensures { (entries : List Entry) (memory : List ℕ) (t : Places) (s : Spaces)
        (g : GrantsState) (table : Table) → AreAlike table g.table
        → IsRepresented entries memory t s g
        → IsRepresented entries memory t s (record g { table = table }) }
{}
