//! Runs of the station for a number of ticks, by single steps and by many instructions at once.
ghost use Rattle.std.specs.Prelude.{◌≡◌, ◌≤◌, ◌<◌, ◌+◌, ℕ, true, false, Some};
ghost use Rattle.ds_cp0.specs.declared.exception.ExceptionCode.{ExceptionCode};
ghost use Rattle.ds_ahead.specs.Inner.Ahead.{Hardware, hardware_of, Advances, AdvancesTo, ComesByWords, owed_tick};
ghost use Rattle.ds_refinement.specs.declared.step.Step.{Step};
ghost use Rattle.ds_refinement.specs.Held.{Held};
ghost use Rattle.ds_refinement.specs.Handling.{IsWhole};
ghost use Rattle.ds_refinement.specs.Inner.Stands.{IsSound};
ghost use Rattle.ds_refinement.specs.Steps.{Follows};
ghost use Rattle.ds_refinement.specs.Inner.Steps.{Stays};
ghost use Rattle.ds_refinement.specs.Inner.Blocks.{MayRunAhead, with_block, with_exception};
ghost use Rattle.ds_refinement.specs.Runs.{RunsTo, held_goes_on};
ghost use Rattle.ds_refinement.specs.Inner.Runs.{RunsWithin};

/// A run of the station goes by steps that the machine follows, as long as it goes on, and by what
/// the machine doesn't see; where it doesn't go on, it has ended.
pub fn a_run_goes_on()
    ensures start { (n : ℕ) (h : Held) → RunsWithin n h h }
    ensures step { (step : Step) (n : ℕ) (old between new : Held) → RunsWithin n old between
        → held_goes_on n between ≡ true → Follows step between new → RunsWithin n old new }
    ensures stays { (n : ℕ) (old between new : Held) → RunsWithin n old between
        → Stays between new → RunsWithin n old new }
    ensures over { (n : ℕ) (old new : Held) → RunsWithin n old new
        → held_goes_on n new ≡ false → RunsTo n old new }
    ensures sound { (n : ℕ) (old new : Held) → RunsWithin n old new → IsSound old → IsSound new }
{}

/// Many instructions at once are within a run if each of their units begins before its end, also
/// where one more enters an exception.
pub fn a_block_is_within_a_run()
    ensures calm { (n limit end : ℕ) (old h : Held) (hw : Hardware) → n ≤ limit
        → MayRunAhead limit h → h.kept.state.time + n + owed_tick h.core.slot ≤ end
        → Advances n (hardware_of h.core h.bus) hw → ComesByWords n (hardware_of h.core h.bus)
        → RunsWithin end old h → RunsWithin end old (with_block n h hw) }
    ensures raised { (n limit end : ℕ) (old h : Held) (hw : Hardware) (code : ExceptionCode)
        → n ≤ limit → MayRunAhead limit h → h.kept.state.time + n + owed_tick h.core.slot < end
        → AdvancesTo n (Some code) (hardware_of h.core h.bus) hw
        → ComesByWords n (hardware_of h.core h.bus) → IsWhole hw.core
        → RunsWithin end old h → RunsWithin end old (with_exception n h hw) }
{}
