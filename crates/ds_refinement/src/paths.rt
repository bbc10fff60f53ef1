//! Paths of steps that are real.
ghost use Rattle.std.specs.Prelude.{◌≡◌, ◌⊎◌, ℕ, ◌∷◌, ◌++◌, true, false, List, [], IsSome};
ghost use Rattle.ds_core.specs.declared.event.Event.{Event};
ghost use Rattle.ds_core.specs.Core.{Step as CoreStep};
ghost use Rattle.ds_core.specs.Effect.{step as core_step};
ghost use Rattle.ds_policy.specs.Grants.{PageState};
ghost use Rattle.ds_grants.specs.State.{page_state};
ghost use Rattle.ds_refinement.specs.declared.cause.Cause.{Cause};
ghost use Rattle.ds_refinement.specs.declared.step.Step.{Step};
ghost use Rattle.ds_refinement.specs.Held.{Held};
ghost use Rattle.ds_refinement.specs.Inner.Stands.{IsSound};
ghost use Rattle.ds_refinement.specs.Steps.{Follows, Moves};
ghost use Rattle.ds_refinement.specs.Inner.Services.{after_event, after_word};
ghost use Rattle.ds_refinement.specs.Told.{told};
ghost use Rattle.ds_refinement.specs.Copying.{AwaitsCopy};
ghost use Rattle.ds_refinement.specs.Pairs.{HasNoNewPairs};
ghost use Rattle.ds_refinement.specs.Units.{EndsUnit, has_left_user, is_served};
ghost use Rattle.ds_refinement.specs.Real.{GoesBack, HasUnit, IsReal, MayGoBack, RealPath, Through};

/// No step, one step, and one path after another are paths; and the later path comes first in
/// the list.
pub fn paths_join()
    ensures none { (h : Held) → RealPath h h }
    ensures one { (kind : Step) (old new : Held) → Follows kind old new → Moves kind old new
        → IsReal old new → RealPath old new }
    ensures through { (old between new : Held) (before afterwards : List Held)
        → Through old before between → Through between afterwards new
        → Through old (afterwards ++ before) new }
    ensures join { (old between new : Held) → RealPath old between → RealPath between new
        → RealPath old new }
{}

/// A station that stands for some state stands for some state at the end of each path.
pub fn paths_stay_sound()
    ensures { (old new : Held) → IsSound old → RealPath old new → IsSound new }
{}

/// An instruction of a unit is a step of the processor, and so is a word of the handler.
pub fn an_instruction_is_real()
    ensures user { (e : Event) (h : Held) (s : CoreStep) → HasUnit h → is_served h.core ≡ false
        → core_step h.core h.bus ≡ (record { event = e; core = s.core; bus = s.bus })
        → IsReal h (after_event e h s) }
    ensures word { (h : Held) → HasUnit h → is_served h.core ≡ false
        → IsReal h (after_word h (core_step h.core h.bus)) }
{}

/// A service that ends its unit is real where the exception came from user mode and what was told
/// ends it.
pub fn an_end_is_real()
    ensures { (h new : Held) (p : ℕ) (rest : List ℕ) (why : Cause) → h.kept.state.ready ≡ p ∷ rest
        → is_served h.core ≡ true → has_left_user h.core ≡ true
        → told h.core.system (page_state h.kept.grants h.bus.memory) p ≡ why
        → EndsUnit (page_state h.kept.grants h.bus.memory) p h.core.system.bad_vaddr why
        → IsSome new.kept.state.owed → new.core.random ≡ h.core.random
        → HasNoNewPairs h.core.entries new.core.entries → IsReal h new }
{}

/// A service that goes back to its unit is real after a double miss, and where a store waits for a
/// copy.
pub fn a_way_back_is_real()
    ensures copy { (h new : Held) (p : ℕ) (rest : List ℕ) → h.kept.state.ready ≡ p ∷ rest
        → is_served h.core ≡ true → AwaitsCopy h.core.system h.kept.grants p
        → GoesBack h new → new.core.random ≡ h.core.random
        → HasNoNewPairs h.core.entries new.core.entries → IsReal h new }
    ensures double { (h new : Held) → is_served h.core ≡ true → has_left_user h.core ≡ false
        → GoesBack h new → new.core.random ≡ h.core.random
        → HasNoNewPairs h.core.entries new.core.entries → IsReal h new }
{}

/// What was told ends a unit or may let it go on, and never both.
pub fn what_was_told_decides()
    ensures either { (s : PageState) (p bad : ℕ) (why : Cause)
        → EndsUnit s p bad why ⊎ MayGoBack s p bad why }
    ensures never_both { (s : PageState) (p bad : ℕ) (why : Cause) → EndsUnit s p bad why
        → MayGoBack s p bad why → ⊥ }
{}

/// Where a boundary is owed, or nobody is ready, the processor takes no step.
pub fn a_boundary_is_real()
    ensures owed { (h new : Held) → IsSome h.kept.state.owed → new.core.random ≡ h.core.random
        → HasNoNewPairs h.core.entries new.core.entries → IsReal h new }
    ensures idle { (h new : Held) → h.kept.state.ready ≡ [] → new.core.random ≡ h.core.random
        → HasNoNewPairs h.core.entries new.core.entries → IsReal h new }
{}
