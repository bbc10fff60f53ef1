//! What is found of a policy and an input is what is asked of the state that a run of them begins with.
ghost use Rattle.std.specs.Prelude.{◌≡◌, ◌≤◌, ◌<◌, ◌&&◌, ℕ, Bool, List, is_none, length};
ghost use Rattle.ds_policy.specs.FirstTable.{table_of};
ghost use Rattle.ds_policy.specs.Value.{InputValue, PolicyValue};
ghost use Rattle.ds_pagemap.specs.First.{first_state};
ghost use Rattle.ds_alone.specs.Tests.{hears_nothing, is_alone, nobody_may_give};
ghost use Rattle.ds_ties.specs.Ties.{tie_of};

/// Nothing ties a process to the others exactly where it is alone at the start and nobody may give; where
/// it may ask for characters, none may come to its line.
pub fn nothing_ties_who_is_alone()
    ensures { (listens : Bool) (policy : PolicyValue) (images : List (List ℕ)) (input : InputValue)
        (p : ℕ) → 0 < p → p ≤ length policy.processes →
        (is_none (tie_of (table_of policy) input.commands p)
        && hears_nothing listens p (first_state policy images input))
        ≡ (is_alone listens p (first_state policy images input)
        && nobody_may_give (first_state policy images input)) }
{}
