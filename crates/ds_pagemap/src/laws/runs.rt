//! Runs, a step at a time.
ghost use Rattle.std.specs.Prelude.{◌≡◌, ◌+◌, ◌≤◌, ℕ, [], Bool, true};
ghost use Rattle.ds_pagemap.specs.Machine.{State, touched};
ghost use Rattle.ds_pagemap.specs.Run.{after, goes_on, half_turn, Reaches, ReachesInTime};
ghost use Rattle.ds_pagemap.specs.Laws.{Extends};

/// A run that has made no choice has gone nowhere.
#[tactic(auto, unfolding(crate::specs::Run::after))]
pub fn a_run_begins_where_it_begins()
    ensures { (n : ℕ) (m : State) → after n [] m ≡ m }
{}

/// A run that goes on takes half a turn, with a touch before it or none.
#[tactic(auto, using(crate::proofs::Runs::reaches_half))]
pub fn a_run_goes_on_by_half_turns()
    ensures { (n : ℕ) (m t : State) (touch : Bool) → Reaches n m t → goes_on n t ≡ true
        → Reaches n m (half_turn touch t) }
{}

/// The process that runs next may be touched already.
#[tactic(auto, using(crate::proofs::Runs::reaches_touch))]
pub fn a_run_may_be_touched_anywhere()
    ensures { (n : ℕ) (m t : State) (b : Bool) → Reaches n m t → Reaches n m (touched b t) }
{}

/// A run for n ends at n, or a tick later where its last unit took two.
pub fn a_run_is_at_most_a_tick_late()
    ensures { (n : ℕ) (m t : State) → Reaches n m t → m.time ≤ n + 1 → t.time ≤ n + 1 }
{}

/// What was logged stays.
pub fn a_log_only_grows()
    ensures { (n : ℕ) (m t : State) → Reaches n m t → Extends m.log t.log }
{}

/// A run for n takes no more turns than there are ticks left until n: each has a unit and the boundary
/// after it, and the boundary that was owed comes first.
pub fn a_run_takes_a_turn_a_tick_at_most()
    ensures { (n : ℕ) (m t : State) → Reaches n m t → ReachesInTime n m t }
{}
