//! How the counts and the clock move in a step.
ghost use Rattle.std.specs.Prelude.{◌≡◌, ℕ, ◌+◌, ◌≤◌, true, false, None, IsSome};
ghost use Rattle.ds_core.specs.declared.event.Event.{Event};
ghost use Rattle.ds_core.specs.Core.{Step as CoreStep};
ghost use Rattle.ds_pagemap.specs.Unit.{Stop};
ghost use Rattle.ds_pagemap.specs.Boundary.{boundary};
ghost use Rattle.ds_refinement.specs.declared.step.Step.TheVariants.{Inside, Unit, Boundary};
ghost use Rattle.ds_cp0.specs.System.{is_user};
ghost use Rattle.ds_refinement.specs.Held.{Held};
ghost use Rattle.ds_refinement.specs.Units.{has_left_user, is_served};
ghost use Rattle.ds_refinement.specs.Counts.{HasNone, counts_of, one_served};
ghost use Rattle.ds_refinement.specs.Steps.{Moves};
ghost use Rattle.ds_refinement.specs.Inner.Services.{EndsUnitBy, after_event, step_of, with_boundary, with_idle_turn, after_word, with_none_spent};
ghost use Rattle.ds_refinement.specs.Inner.Ends.{EndsInStop, EndsInCall};

/// An instruction of the program counts, up to 64 in a unit.
pub fn an_instruction_is_counted()
    ensures { (e : Event) (h : Held) (s : CoreStep) → h.kept.state.owed ≡ None
        → is_user h.core.system ≡ true → h.own.spent + 1 ≤ 64
        → Moves (step_of e) h (after_event e h s) }
{}

/// So does a word of the handler, which ends no unit; the seventh writes a slot.
pub fn a_word_is_counted()
    ensures { (h : Held) (s : CoreStep) → h.kept.state.owed ≡ None
        → is_user h.core.system ≡ false → is_served h.core ≡ false → h.own.spent + 1 ≤ 64
        → Moves Inside h (after_word h s) }
{}

/// The service of a double miss or of a late copy counts no instruction, and leaves the kernel.
pub fn a_way_back_is_counted()
    ensures { (h new : Held) → h.kept.state.owed ≡ None → is_served h.core ≡ true
        → h.own.spent ≤ 64 → new.kept.state ≡ h.kept.state → is_user new.core.system ≡ true
        → counts_of new.own ≡ one_served (has_left_user h.core) (counts_of h.own)
        → new.own.failed ≡ h.own.failed → Moves Inside h new }
{}

/// A service that ends its unit takes one tick, and the count begins again.
pub fn an_ended_unit_is_counted()
    ensures stop { (p : ℕ) (stop : Stop) (h new : Held) → h.kept.state.owed ≡ None
        → h.core.slot ≡ false → new.own ≡ with_none_spent h.own → EndsInStop p stop h new
        → Moves Unit h new }
    ensures call { (p : ℕ) (h new : Held) → h.kept.state.owed ≡ None
        → h.core.slot ≡ false → new.own ≡ with_none_spent h.own → EndsInCall p h new
        → Moves Unit h new }
{}

/// A boundary takes no time, and an idle turn with its boundary takes a tick.
pub fn a_boundary_is_counted()
    ensures boundary { (h : Held) → IsSome h.kept.state.owed → HasNone h.own
        → Moves Boundary h (with_boundary h) }
    ensures idle { (h : Held) → h.kept.state.owed ≡ None → HasNone h.own
        → Moves Boundary h (with_boundary (with_idle_turn h)) }
{}

/// The same holds where they are served, and the count begins again.
pub fn a_served_boundary_is_counted()
    ensures boundary { (h new : Held) → IsSome h.kept.state.owed → new.own ≡ with_none_spent h.own
        → EndsUnitBy boundary h new → Moves Boundary h new }
    ensures idle { (h new : Held) → h.kept.state.owed ≡ None → new.own ≡ with_none_spent h.own
        → EndsUnitBy boundary (with_idle_turn h) new → Moves Boundary h new }
{}
