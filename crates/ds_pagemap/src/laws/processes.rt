//! One process of a state, changed and read.
ghost use Rattle.std.specs.Prelude.{◌≡◌, ◌≢◌, ◌<◌, ◌≤◌, ℕ, length};
ghost use Rattle.ds_pagemap.specs.Machine.{State, Process, process_of, with_process};

/// What was put is read.
pub fn a_process_that_was_put_is_read()
    ensures { (m : State) (p : ℕ) (q : Process) → 0 < p → p ≤ length m.processes
        → process_of (with_process m p q) p ≡ q }
{}

/// The others stay.
pub fn the_other_processes_stay()
    ensures { (m : State) (p r : ℕ) (q : Process) → 0 < p → 0 < r → r ≢ p
        → process_of (with_process m p q) r ≡ process_of m r }
{}

/// A process put where it stands changes nothing.
pub fn a_process_put_where_it_stands_changes_nothing()
    ensures { (m : State) (p : ℕ) → with_process m p (process_of m p) ≡ m }
{}

/// Of two processes put at one place the last stays.
#[tactic(auto, using(crate::proofs::Processes::with_process_again))]
pub fn the_last_process_that_was_put_stays()
    ensures { (m : State) (p : ℕ) (q r : Process)
        → with_process (with_process m p q) p r ≡ with_process m p r }
{}
