//! An instruction of the program, where the station agrees with a state of the page-map machine.
ghost use Rattle.std.specs.Prelude.{◌≡◌, ◌≢◌, ℕ, ◌<◌, ◌≤◌, Bool, true, List, ◌∷◌, length};
ghost use Rattle.ds_cp0.specs.declared.exception.ExceptionCode.{ExceptionCode};
ghost use Rattle.ds_cp0.specs.declared.exception.ExceptionCode.TheVariants.{Modification};
ghost use Rattle.ds_cp0.specs.System.{is_user, asid_of};
ghost use Rattle.ds_core.specs.declared.event.Event.TheVariants.{Raised, Retired};
ghost use Rattle.ds_core.specs.Core as core;
ghost use Rattle.ds_core.specs.Effect.{step};
ghost use Rattle.ds_pagemap.specs.Machine.{State, touched};
ghost use Rattle.ds_refinement.specs.Held.{Held};
ghost use Rattle.ds_refinement.specs.Stands.{Agrees};
ghost use Rattle.ds_refinement.specs.Inner.Course.{after_touch};
ghost use Rattle.ds_refinement.specs.Inner.CourseSteps.{Next};
ghost use Rattle.ds_refinement.specs.Needs.{pages_of_unit};
ghost use Rattle.ds_refinement.specs.Inner.Asks.{IsMissed, IsModified, TellsClean};
ghost use Rattle.ds_refinement.specs.Counts.{Counts, course_of, one_more};

/// Where an instruction misses, it misses a page that its unit asks for. Where a store finds an
/// entry that may not be written, it stores to the page of its unit's data.
pub fn an_exception_is_asked_for()
    ensures miss { (h : Held) (m : State) (p : ℕ) (rest : List ℕ) (s : core.Step) (code : ExceptionCode)
        → Agrees h m → h.kept.state.ready ≡ p ∷ rest → is_user h.core.system ≡ true
        → s ≡ step h.core h.bus → s.event ≡ Raised code → s.core.pc ≡ 0x80000000
        → IsMissed h.core.slot (pages_of_unit m p) h.core.entries (asid_of h.core.system) s.core.system }
    ensures store { (h : Held) (m : State) (p : ℕ) (rest : List ℕ) (s : core.Step)
        → Agrees h m → h.kept.state.ready ≡ p ∷ rest → is_user h.core.system ≡ true
        → s ≡ step h.core h.bus → s.event ≡ Raised Modification
        → IsModified (pages_of_unit m p) h.core.entries (asid_of h.core.system) s.core.system }
{}

/// A touch changes of what a unit asks for only the page of its data, and a second touch nothing.
pub fn a_touch_leaves_what_is_asked_for()
    ensures { (m : State) (p : ℕ) (rest : List ℕ) → m.ready ≡ p ∷ rest
        → (0 < p) × (p ≤ length m.processes) → pages_of_unit (touched true m) p ≡ after_touch (pages_of_unit m p) }
{}

/// An instruction after which its unit has not ended is a step of the unit's course, whatever was
/// counted before, where an entry without D is of a page that may not be written.
pub fn an_instruction_goes_on()
    ensures { (h : Held) (m : State) (p : ℕ) (rest : List ℕ) (s : core.Step) (n : Counts) (dirty : ℕ → Bool)
        → Agrees h m → h.kept.state.ready ≡ p ∷ rest → is_user h.core.system ≡ true
        → s ≡ step h.core h.bus → s.event ≢ Retired
        → TellsClean h.core.entries (pages_of_unit m p).access (asid_of h.core.system) dirty
        → Next (course_of h.core n dirty (pages_of_unit m p)) (course_of s.core (one_more n) dirty (pages_of_unit m p)) }
{}
