//! The tally of a unit, from the processor and counts.
ghost use Rattle.std.specs.Prelude.{◌≡◌, ◌≢◌, ℕ, ◌+◌, ◌<◌, ◌≤◌, Bool, true, false, List, [], ◌∷◌, length};
ghost use Rattle.ds_refill.specs.Handler.{handler_address};
ghost use Rattle.ds_refinement.specs.Units.{is_served, has_left_user};
ghost use Rattle.ds_cp0.specs.System.{is_user, asid_of};
ghost use Rattle.ds_core.specs.Core as core;
ghost use Rattle.ds_core.specs.Core.{CoreState};
ghost use Rattle.ds_core.specs.Effect.{step};
ghost use Rattle.ds_pagemap.specs.Machine.{State, touched};
ghost use Rattle.ds_refinement.specs.Held.{Held};
ghost use Rattle.ds_refinement.specs.Stands.{Agrees, IsUnbegun, Stands};
ghost use Rattle.ds_refinement.specs.Inner.Stands.{IsSound};
ghost use Rattle.ds_refinement.specs.Course.{UnitPages};
ghost use Rattle.ds_refinement.specs.Inner.Course.{after_touch};
ghost use Rattle.ds_refinement.specs.Inner.CourseSteps.{Next};
ghost use Rattle.ds_refinement.specs.Tally.{IsTallied};
ghost use Rattle.ds_refinement.specs.Needs.{pages_of_unit};
ghost use Rattle.ds_refinement.specs.Inner.Asks.{TellsClean};
ghost use Rattle.ds_refinement.specs.Counts.{Counts, course_of, counts_of, fresh_counts, may_write, HasRanges};
ghost use Rattle.ds_refinement.specs.Inner.Counts.{CountedAfter, IsFew};

/// A unit that begins is tallied. It stays so after a step that touches its process, and after an
/// instruction, unless that ends it. What is tallied has its ranges.
pub fn the_counts_hold()
    ensures begins { (c : CoreState) (wired : ℕ) (dirty : ℕ → Bool) (pages : UnitPages) → is_user c.system ≡ true → c.slot ≡ false
        → HasRanges c (fresh_counts wired) → IsTallied (course_of c (fresh_counts wired) dirty pages) }
    ensures touches { (m : State) (p : ℕ) (rest : List ℕ) (c d : CoreState) (n k : Counts) (dirty after : ℕ → Bool)
        → m.ready ≡ p ∷ rest → (0 < p) × (p ≤ length m.processes)
        → IsTallied (course_of c n dirty (pages_of_unit m p))
        → Next (course_of c n dirty (pages_of_unit m p)) (course_of d k after (after_touch (pages_of_unit m p)))
        → IsTallied (course_of d k after (pages_of_unit (touched true m) p)) }
    ensures instruction { (h : Held) (m : State) (p : ℕ) (rest : List ℕ) (s : core.Step) (n : Counts) (dirty : ℕ → Bool)
        → Agrees h m → h.kept.state.ready ≡ p ∷ rest → is_user h.core.system ≡ true
        → s ≡ step h.core h.bus
        → TellsClean h.core.entries (pages_of_unit m p).access (asid_of h.core.system) dirty
        → IsTallied (course_of h.core n dirty (pages_of_unit m p))
        → CountedAfter s.event s.core n dirty (pages_of_unit m p) }
    ensures ranges { (c : CoreState) (n : Counts) (dirty : ℕ → Bool) (pages : UnitPages)
        → IsTallied (course_of c n dirty pages) → HasRanges c n }
{}

/// The counts of a station that stands for some state are few, its buffer has its ranges, and its
/// unit is tallied, if there is one. While no instruction of it is counted, the processor is in user
/// mode and has the registers of the process as they are. Before each of the handler's first seven
/// words there is room for a refill; a double miss comes after three of them at least.
pub fn the_counts_are_few()
    ensures few { (h : Held) → IsSound h → IsFew h.own }
    ensures ranges { (h : Held) → IsSound h → HasRanges h.core (counts_of h.own) }
    ensures tallied { (h : Held) (m : State) (p : ℕ) (rest : List ℕ) → Stands h m
        → h.kept.state.ready ≡ p ∷ rest
        → IsTallied (course_of h.core (counts_of h.own) (may_write h.kept p) (pages_of_unit m p)) }
    ensures unbegun { (h : Held) (m : State) (p : ℕ) (rest : List ℕ) → Stands h m
        → h.kept.state.ready ≡ p ∷ rest → h.own.spent ≡ 0 → IsUnbegun h.core p m }
    ensures user { (h : Held) → IsSound h → h.own.spent ≡ 0 → is_user h.core.system ≡ true }
    ensures room { (h : Held) → IsSound h → h.kept.state.ready ≢ [] → (word : ℕ) → word ≤ 6
        → is_user h.core.system ≡ false → h.core.pc ≡ handler_address word
        → (length h.own.written ≤ 3) × (word + 1 ≤ h.own.spent) }
    ensures double { (h : Held) → IsSound h → h.kept.state.ready ≢ [] → is_served h.core ≡ true
        → has_left_user h.core ≡ false → 4 ≤ h.own.spent }
{}
