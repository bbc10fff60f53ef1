//! What a unit does to the log, the time and the pages.
ghost use Rattle.std.specs.Prelude.{◌≡◌, ◌-◌, ◌+◌, ◌%◌, ◌<◌, ◌≤◌, ℕ, length, ◌∷◌, List};
ghost use Rattle.ds_isa.specs.declared.instr.Kind.{Kind};
ghost use Rattle.ds_isa.specs.declared.instr.Kind.TheVariants as kind;
ghost use Rattle.ds_policy.specs.declared.access.Rule.{Rule};
ghost use Rattle.ds_policy.specs.declared.access.Verdict.TheVariants.{Allowed, Denied};
ghost use Rattle.ds_isa.specs.declared.instr.Size.{Size};
ghost use Rattle.ds_word.specs.Word.{word};
ghost use Rattle.ds_word.specs.Bytes.{word_at};
ghost use Rattle.ds_policy.specs.Pages.{decide, bytes_of};
ghost use Rattle.ds_pagemap.specs.Machine.{State, process_of};
ghost use Rattle.ds_pagemap.specs.Unit.{Outcome, Branched, Stopped, Stop, access, denied_as, instruction, stored, unit};
ghost use Rattle.ds_pagemap.specs.Laws.{GrowsByALineAtMost, IsOneOrTwoLater, StoresOnly};

/// A unit takes one tick or two.
#[tactic(auto, using(crate::proofs::Units::unit_time))]
pub fn a_unit_takes_a_tick_or_two()
    ensures { (m : State) → IsOneOrTwoLater m.time (unit m).time }
{}

/// A unit adds at most one line to the log.
#[tactic(auto, using(crate::proofs::Units::unit_log))]
pub fn a_unit_adds_at_most_a_line()
    ensures { (m : State) → GrowsByALineAtMost m.log (unit m).log }
{}

/// An access that the table denies stops its instruction, with the table's rule and code.
pub fn a_denied_access_stops()
    ensures { (m : State) (p : ℕ) (kind : Kind) (size : Size) (address code : ℕ) (rule : Rule)
        (done : ℕ → ℕ → Outcome) →
        decide m.memory.table p kind size address ≡ Denied rule code →
        access m p kind size address done
        ≡ Stopped (record { kind = denied_as kind; address = address; rule = rule; code = code }) }
{}

/// A unit that is stopped changes no page and no entry.
#[tactic(auto, using(crate::proofs::Units::unit_stopped))]
pub fn a_stopped_unit_leaves_the_pages()
    ensures { (m : State) (p : ℕ) (rest : List ℕ) (stop : Stop) → m.ready ≡ p ∷ rest →
        instruction m p (process_of m p).pc ≡ Stopped stop → (unit m).memory ≡ m.memory }
{}

/// Nor does one that is stopped after its branch.
#[tactic(auto, using(crate::proofs::Units::unit_stopped_in_slot))]
pub fn a_unit_stopped_in_its_slot_leaves_the_pages()
    ensures { (m t : State) (p target : ℕ) (rest : List ℕ) (stop : Stop) → m.ready ≡ p ∷ rest →
        instruction m p (process_of m p).pc ≡ Branched t target →
        instruction t p (word ((process_of m p).pc + 4)) ≡ Stopped stop →
        (unit m).memory ≡ m.memory }
{}

/// An access that the table allows is done, on the page and at the offset that the table names.
pub fn an_allowed_access_is_done()
    ensures { (m : State) (p : ℕ) (kind : Kind) (size : Size) (address page offset : ℕ)
        (done : ℕ → ℕ → Outcome) →
        decide m.memory.table p kind size address ≡ Allowed page offset →
        access m p kind size address done ≡ done page offset }
{}

/// A store changes one aligned word of one page.
pub fn a_store_changes_one_word_of_one_page()
    ensures { (m : State) (page offset : ℕ) (after : ℕ → ℕ) →
        page < length m.memory.pages →
        offset - offset % 4 + 4 ≤ length (bytes_of m.memory.pages page) →
        StoresOnly m.memory.pages (stored m page offset after).memory.pages page offset
        (after (word_at (bytes_of m.memory.pages page) offset)) }
{}
