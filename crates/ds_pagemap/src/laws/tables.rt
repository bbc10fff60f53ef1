//! Who may change the entries of a process.
ghost use Rattle.std.specs.Prelude.{◌≡◌, ◌≢◌, ◌<◌, ℕ, List, [], ◌∷◌, Some, None, true, false};
ghost use Rattle.ds_policy.specs.declared.grant.Grant.{Grant};
ghost use Rattle.ds_policy.specs.declared.grant.Entry.{Entry};
ghost use Rattle.ds_policy.specs.Pages.{entry_at};
ghost use Rattle.ds_policy.specs.Grants.{forbidden_by};
ghost use Rattle.ds_policy.specs.Ends.{has_expired};
ghost use Rattle.ds_pagemap.specs.declared.turn.Turn.{Turn};
ghost use Rattle.ds_pagemap.specs.Machine.{State, process_of};
ghost use Rattle.ds_pagemap.specs.Unit.{Called, instruction, unit};
ghost use Rattle.ds_pagemap.specs.Boundary.{boundary};
ghost use Rattle.ds_pagemap.specs.Laws.{KeepsAllButParent, is_held_by, IsOfOthers, due, NoneNames, NoneRevokesAbove, NoneRemovesParent};

/// In a unit only a call changes the table.
#[tactic(auto, using(crate::proofs::Units::unit_no_call))]
pub fn a_unit_that_is_no_call_leaves_the_table()
    ensures { (m : State) (p : ℕ) (rest : List ℕ) → m.ready ≡ p ∷ rest
        → instruction m p (process_of m p).pc ≢ Called →
        (unit m).memory.table ≡ m.memory.table }
{}

/// A process keeps each entry through the units of the others, calls included, but for its parent,
/// unless the caller gave it, or gave one from which it descends.
#[tactic(auto, using(crate::proofs::Isolation::unit_keeps_entry))]
pub fn a_process_keeps_what_the_caller_did_not_give()
    ensures { (m : State) (p : ℕ) (rest : List ℕ) (q : ℕ) (e : Entry) → m.ready ≡ p ∷ rest
        → 0 < p → 0 < q → q ≢ p → IsOfOthers m.memory.table p e →
        entry_at m.memory.table q e.address ≡ Some e.grant →
        KeepsAllButParent (Some e.grant) (entry_at (unit m).memory.table q e.address) }
{}

/// Its parent stays too, where the caller doesn't have that one.
#[tactic(auto, using(crate::proofs::Isolation::unit_keeps_parent))]
pub fn an_entry_keeps_a_parent_that_the_caller_does_not_have()
    ensures { (m : State) (p : ℕ) (rest : List ℕ) (q : ℕ) (e : Entry) → m.ready ≡ p ∷ rest
        → 0 < p → 0 < q → q ≢ p → IsOfOthers m.memory.table p e →
        is_held_by p e.grant.parent ≡ false →
        entry_at m.memory.table q e.address ≡ Some e.grant →
        entry_at (unit m).memory.table q e.address ≡ Some e.grant }
{}

/// At a boundary a process that no command names keeps each entry but for its parent, unless the
/// entry's right has ended, or a command takes away the right of one from which it descends.
#[tactic(auto, using(crate::proofs::Boundaries::boundary_entry))]
pub fn a_process_keeps_its_entries_where_no_command_names_it()
    ensures { (m : State) (q : ℕ) (e : Entry) → 0 < q → NoneNames q (due m) →
        NoneRevokesAbove m.memory.table e (due m) → has_expired m.time e ≡ false →
        entry_at m.memory.table q e.address ≡ Some e.grant →
        KeepsAllButParent (Some e.grant) (entry_at (boundary m).memory.table q e.address) }
{}

/// Its parent stays too, where no command removes that one.
#[tactic(auto, using(crate::proofs::Boundaries::boundary_parent))]
pub fn an_entry_keeps_a_parent_that_no_command_removes()
    ensures { (m : State) (q : ℕ) (e : Entry) → 0 < q → NoneNames q (due m) →
        NoneRevokesAbove m.memory.table e (due m) → NoneRemovesParent e.grant.parent (due m) →
        has_expired m.time e ≡ false →
        entry_at m.memory.table q e.address ≡ Some e.grant →
        entry_at (boundary m).memory.table q e.address ≡ Some e.grant }
{}

/// And it gets no entry.
#[tactic(auto, using(crate::proofs::Boundaries::boundary_none))]
pub fn a_process_gets_no_entry_where_no_command_names_it()
    ensures { (m : State) (q address : ℕ) → 0 < q → NoneNames q (due m) →
        entry_at m.memory.table q address ≡ None →
        entry_at (boundary m).memory.table q address ≡ None }
{}

/// A right ends at the first boundary at its time or later: where no command is due there, its entry is
/// left with its rule alone.
#[tactic(auto, using(crate::proofs::Boundaries::boundary_ends))]
pub fn a_right_ends_at_its_time()
    ensures { (m : State) (turn : Turn) (q address : ℕ) (g : Grant) → m.owed ≡ Some turn → due m ≡ [] →
        entry_at m.memory.table q address ≡ Some g →
        has_expired m.time (record { address = address; grant = g }) ≡ true →
        entry_at (boundary m).memory.table q address ≡ Some (forbidden_by g.rule) }
{}
