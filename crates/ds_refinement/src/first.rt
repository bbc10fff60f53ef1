//! The beginning of a run.
ghost use Rattle.std.specs.Prelude.{◌≡◌, ℕ, ◌<◌, ◌≤◌, List, length};
ghost use Rattle.ds_policy.specs.Value.{PolicyValue, InputValue};
ghost use Rattle.ds_grants.specs.Sound.{NamesPages};
ghost use Rattle.ds_grants.specs.First.{first_grants};
ghost use Rattle.ds_pagemap.specs.First.{first_state};
ghost use Rattle.ds_refinement.specs.Held.{Held};
ghost use Rattle.ds_refinement.specs.Stands.{Stands};
ghost use Rattle.ds_refinement.specs.First.{IsFirst};

/// At the beginning of a run the station stands for the first state, so what is said of all
/// states that a station stands for is not said of none.
pub fn a_new_station_stands_for_the_first_state()
    ensures { (policy : PolicyValue) (images : List (List ℕ)) (input : InputValue) (start : ℕ)
        (h : Held) → 0 < length policy.processes → NamesPages (first_grants policy)
        → 8 ≤ start → start < 64
        → IsFirst policy images input start h → Stands h (first_state policy images input) }
{}
