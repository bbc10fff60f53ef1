//! Boundaries with nothing to do, turns in which no process runs, and the mark of a failure.
ghost use Rattle.std.specs.Prelude.{◌≡◌, ◌≤◌, true, false, [], None, IsSome};
ghost use Rattle.ds_pagemap.specs.Boundary.{boundary};
ghost use Rattle.ds_pagemap.specs.Run.{is_over};
ghost use Rattle.ds_refinement.specs.declared.step.Step.{Step};
ghost use Rattle.ds_refinement.specs.declared.step.Step.TheVariants.{Boundary, Over};
ghost use Rattle.ds_refinement.specs.Held.{Held};
ghost use Rattle.ds_refinement.specs.Inner.Stands.{IsSound};
ghost use Rattle.ds_refinement.specs.Counts.{HasNone};
ghost use Rattle.ds_refinement.specs.Steps.{Follows};
ghost use Rattle.ds_refinement.specs.Inner.Steps.{Stays};
ghost use Rattle.ds_refinement.specs.Inner.Services.{EndsUnitBy, with_boundary, with_idle_turn, with_failure};
ghost use Rattle.ds_refinement.specs.Inner.Quiet.{IsUndisturbed};

/// A boundary that is owed and has nothing to do takes away only what is owed.
pub fn a_quiet_boundary()
    ensures { (h : Held) → IsSome h.kept.state.owed → HasNone h.own
        → h.kept.ticked ≤ h.kept.state.time → IsUndisturbed h.kept
        → Follows Boundary h (with_boundary h) }
{}

/// Any boundary that is owed is served: who runs leaves for its seat, the boundary is done to what
/// is kept, and the first ready process comes in.
pub fn a_boundary_is_served()
    ensures { (h new : Held) → IsSome h.kept.state.owed → EndsUnitBy boundary h new
        → Follows Boundary h new }
{}

/// Where nobody is ready and somebody has not ended, a tick passes with its boundary, if that has
/// nothing to do.
pub fn an_idle_turn()
    ensures { (h : Held) → h.kept.state.owed ≡ None → h.kept.state.ready ≡ []
        → is_over h.kept.state ≡ false → IsUndisturbed (with_idle_turn h).kept
        → Follows Boundary h (with_boundary (with_idle_turn h)) }
{}

/// Any boundary after an idle turn is served.
pub fn an_idle_turn_is_served()
    ensures { (h new : Held) → h.kept.state.owed ≡ None → h.kept.state.ready ≡ []
        → is_over h.kept.state ≡ false → EndsUnitBy boundary (with_idle_turn h) new
        → Follows Boundary h new }
{}

/// Where all processes have ended and no boundary is owed, the machine's run is over.
pub fn nothing_is_left_to_do()
    ensures { (h : Held) → h.kept.state.owed ≡ None → is_over h.kept.state ≡ true
        → Follows Over h h }
{}

/// The machine doesn't see that the station fails.
pub fn a_failure_is_not_seen()
    ensures { (h : Held) → Stays h (with_failure h) }
{}

/// A station that stands for some state stands for some state after each step; and before a step
/// may come what the machine doesn't see.
pub fn steps_join()
    ensures sound { (step : Step) (old new : Held) → IsSound old → Follows step old new
        → IsSound new }
    ensures stays { (old new : Held) → IsSound old → Stays old new → IsSound new }
    ensures follows { (step : Step) (old between new : Held) → Stays old between
        → Follows step between new → Follows step old new }
{}
