//! What a touch changes.
ghost use Rattle.std.specs.Prelude.{◌≡◌, ℕ, Bool, true};
ghost use Rattle.ds_pagemap.specs.Machine.{State, touched};
ghost use Rattle.ds_pagemap.specs.Run.{goes_on};

/// To touch twice is to touch once.
#[tactic(auto, using(crate::proofs::Touches::touched_again))]
pub fn a_second_touch_changes_nothing()
    ensures { (b : Bool) (m : State) → touched b (touched true m) ≡ touched true m }
{}

/// A touch ends no run and prolongs none.
#[tactic(auto, using(crate::proofs::Touches::goes_on_touched))]
pub fn a_touch_leaves_how_far_a_run_goes()
    ensures { (n : ℕ) (b : Bool) (m : State) → goes_on n (touched b m) ≡ goes_on n m }
{}
