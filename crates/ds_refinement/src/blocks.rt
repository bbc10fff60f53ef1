//! Many instructions at once are a path of real steps: each law is the contract of a function with
//! an empty body.
ghost use Rattle.std.specs.Prelude.{◌≡◌, ◌≤◌, ◌<◌, ◌+◌, ℕ, Bool, List, true, None, Some};
ghost use Rattle.ds_cp0.specs.System.{is_user};
ghost use Rattle.ds_cp0.specs.declared.exception.ExceptionCode.{ExceptionCode};
ghost use Rattle.ds_ahead.specs.Inner.Ahead.{Hardware, hardware_of, Advances, AdvancesTo, ComesByWords, ticks, owed_tick};
ghost use Rattle.ds_ahead.specs.Inner.Stops.{ComesClear};
ghost use Rattle.ds_refinement.specs.declared.step.Step.{Step};
ghost use Rattle.ds_refinement.specs.Told.{is_delayed};
ghost use Rattle.ds_refinement.specs.Held.{Held, Kept};
ghost use Rattle.ds_refinement.specs.Units.{user_status};
ghost use Rattle.ds_refinement.specs.Inner.Stands.{IsSound};
ghost use Rattle.ds_refinement.specs.Handling.{IsWhole};
ghost use Rattle.ds_refinement.specs.Real.{IsReal, RealPath};
ghost use Rattle.ds_refinement.specs.Steps.{Follows, Moves};
ghost use Rattle.ds_refinement.specs.Inner.Clear.{ClearPath, IsMet};
ghost use Rattle.ds_refinement.specs.Inner.Quiet.{IsUndisturbed};
ghost use Rattle.ds_refinement.specs.Inner.Blocks.{IsQuietUntil, MayRunAhead, at_time, with_block, with_exception};

/// Many instructions of a process, each unit with the boundary after it, are a path of real steps.
pub fn a_block_is_a_path()
    ensures { (n limit : ℕ) (h : Held) (hw : Hardware) → n ≤ limit → MayRunAhead limit h
        → Advances n (hardware_of h.core h.bus) hw
        → ComesByWords n (hardware_of h.core h.bus) → RealPath h (with_block n h hw) }
{}

/// So they are where one more enters an exception: its slot, and so the ticks, are told by Cause.
pub fn an_exception_ends_a_block()
    ensures path { (n limit : ℕ) (h : Held) (hw : Hardware) (code : ExceptionCode)
        → n ≤ limit → MayRunAhead limit h
        → AdvancesTo n (Some code) (hardware_of h.core h.bus) hw
        → ComesByWords n (hardware_of h.core h.bus) → IsWhole hw.core
        → RealPath h (with_exception n h hw) }
    ensures ticks { (n : ℕ) (code : ExceptionCode) (old new : Hardware)
        → AdvancesTo n (Some code) old new
        → ticks n old + owed_tick (is_delayed new.core.system) ≡ n + owed_tick old.core.slot }
{}

/// They are a clear path where the program stands in a slot, or at no address that may be marked, at
/// each of them but the first. So are a step, one clear path after another, and a path in a unit that
/// has begun on which no time passes.
pub fn a_block_is_a_clear_path()
    ensures calm { (marks : List Bool) (n limit : ℕ) (h : Held) (hw : Hardware)
        → n ≤ limit → MayRunAhead limit h → Advances n (hardware_of h.core h.bus) hw
        → ComesByWords n (hardware_of h.core h.bus)
        → ComesClear marks n (hardware_of h.core h.bus) → ClearPath marks h (with_block n h hw) }
    ensures raised { (marks : List Bool) (n limit : ℕ) (h : Held) (hw : Hardware)
        (code : ExceptionCode) → n ≤ limit → MayRunAhead limit h
        → AdvancesTo n (Some code) (hardware_of h.core h.bus) hw
        → ComesByWords n (hardware_of h.core h.bus) → IsWhole hw.core
        → ComesClear marks (n + 1) (hardware_of h.core h.bus)
        → ClearPath marks h (with_exception n h hw) }
    ensures step { (marks : List Bool) (kind : Step) (old new : Held) → Follows kind old new
        → Moves kind old new → IsReal old new → ClearPath marks old new }
    ensures join { (marks : List Bool) (old between new : Held) → ClearPath marks old between
        → IsMet marks old between → ClearPath marks between new → ClearPath marks old new }
    ensures inside { (marks : List Bool) (old new : Held) → old.kept.state.owed ≡ None
        → 0 < old.own.spent → new.kept.state.time ≤ old.kept.state.time → RealPath old new
        → ClearPath marks old new }
{}

/// Where a boundary at a later time has nothing to do, none before it has.
pub fn the_last_boundary_decides()
    ensures { (last : ℕ) (k : Kept) → k.ticked ≤ k.state.time → IsUndisturbed (at_time last k)
        → IsQuietUntil last k }
{}

/// A station that stands for some state has a user's Status in user mode, and where no boundary is
/// owed its clock was ticked no later than now.
pub fn a_sound_station_is_ready()
    ensures status { (h : Held) → IsSound h → is_user h.core.system ≡ true
        → h.core.system.status ≡ user_status }
    ensures ticked { (h : Held) → IsSound h → h.kept.state.owed ≡ None
        → h.kept.ticked ≤ h.kept.state.time }
{}
