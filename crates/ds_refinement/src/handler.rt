//! The refill handler in the unit: each law is the contract of a function with an empty body. A
//! station agrees with a state of the machine; the laws say with which it agrees after an exception
//! or a word of the handler, and that a whole refill at once is a path.
ghost use Rattle.std.specs.Prelude.{◌≡◌, ◌≢◌, ◌⊎◌, ◌+◌, ◌≤◌, ℕ, true, false, None, List, [], ◌∷◌};
ghost use Rattle.ds_isa.specs.Registers.{settled};
ghost use Rattle.ds_cp0.specs.declared.exception.Exception.{Exception};
ghost use Rattle.ds_cp0.specs.System.{is_user, epc_of, entered, vector};
ghost use Rattle.ds_refill.specs.Handler.{HasWords};
ghost use Rattle.ds_refill.specs.Inner.Refill.{IsKernel, handler_events};
ghost use Rattle.ds_refill.specs.Inner.Refills.{RunsInside, is_general};
ghost use Rattle.ds_core.specs.Core.{CoreState, core_at_vector};
ghost use Rattle.ds_core.specs.Effect.{step};
ghost use Rattle.ds_pagemap.specs.Machine.{State, process_of, touched};
ghost use Rattle.ds_pagemap.specs.Unit.{with_registers};
ghost use Rattle.ds_refinement.specs.declared.step.Step.TheVariants.{Inside};
ghost use Rattle.ds_refinement.specs.Told.{told, is_delayed};
ghost use Rattle.ds_refinement.specs.Units.{EndsUnit, Promise, is_served};
ghost use Rattle.ds_refinement.specs.Held.{Held};
ghost use Rattle.ds_refinement.specs.Copying.{AwaitsCopy};
ghost use Rattle.ds_refinement.specs.Handling.{AreUnits, IsWhole, touches};
ghost use Rattle.ds_refinement.specs.Inner.Handling.{IsMiss};
ghost use Rattle.ds_refinement.specs.Stands.{Agrees};
ghost use Rattle.ds_refinement.specs.Inner.Stands.{IsSound};
ghost use Rattle.ds_refinement.specs.Steps.{Follows};
ghost use Rattle.ds_refinement.specs.Inner.Services.{after_word, with_refill, with_step};
ghost use Rattle.ds_refinement.specs.Real.{RealPath};
ghost use Rattle.ds_refinement.specs.Runs.{held_goes_on};
ghost use Rattle.ds_refinement.specs.Inner.Runs.{RunsWithin};

/// Where a page of the user is missed in a unit, the processor comes to the handler's first word,
/// and the station agrees with the same state.
pub fn a_miss_enters_the_handler()
    ensures { (h : Held) (m : State) (p : ℕ) (rest : List ℕ) (e : Exception) → Agrees h m
        → h.kept.state.ready ≡ p ∷ rest → h.kept.state.owed ≡ None
        → is_user h.core.system ≡ true → epc_of e ≡ (process_of m p).pc
        → AreUnits (settled h.core.registers) p m → IsMiss h.core e
        → IsWhole (core_at_vector h.core e)
        → Agrees (record h { core = core_at_vector h.core e }) m }
{}

/// After a word of the handler the station agrees with the same state, or after the seventh word,
/// which writes the TLB, for that state with the process touched. The third word may miss the page
/// of a table, and the ninth goes back to the unit.
pub fn a_word_of_the_handler_is_a_part_of_the_unit()
    ensures { (h : Held) (m : State) (p : ℕ) (rest : List ℕ) → Agrees h m
        → h.kept.state.ready ≡ p ∷ rest
        → is_user h.core.system ≡ false → is_general h.core ≡ false
        → Agrees (with_step h (step h.core h.bus)) (touched (touches h.core) m) }
{}

/// While the handler runs only the counts tell whether the process was touched: the station agrees
/// with the state with the process touched, too.
pub fn a_handler_does_not_see_a_touch()
    ensures { (h : Held) (m : State) (p : ℕ) (rest : List ℕ) → Agrees h m
        → h.kept.state.ready ≡ p ∷ rest
        → is_user h.core.system ≡ false → is_general h.core ≡ false
        → Agrees h (touched true m) }
{}

/// An exception in a unit comes to the handler's first word, or it waits at the general vector for
/// the service, which is told what the machine does there, and that its unit ends; or it is a store
/// that waits there for a copy. The station agrees with the same state.
pub fn an_exception_enters()
    ensures { (h : Held) (m : State) (p : ℕ) (rest : List ℕ) (e : Exception) → Agrees h m
        → h.kept.state.ready ≡ p ∷ rest → h.kept.state.owed ≡ None
        → is_user h.core.system ≡ true → epc_of e ≡ (process_of m p).pc
        → AreUnits (settled h.core.registers) p m
        → Promise (told (entered h.core.system e) m.memory p) (entered h.core.system e).bad_vaddr
        (is_delayed (entered h.core.system e)) (process_of m p).pc p m
        (with_registers m p (settled h.core.registers))
        → (vector e ≡ 0x80000000 → IsMiss h.core e)
        → (vector e ≡ 0x80000080 → EndsUnit m.memory p (entered h.core.system e).bad_vaddr
        (told (entered h.core.system e) m.memory p)
        ⊎ AwaitsCopy (entered h.core.system e) h.kept.grants p)
        → IsWhole (core_at_vector h.core e)
        → Agrees (record h { core = core_at_vector h.core e }) m }
{}

/// Each word of the handler is a part of the unit.
pub fn a_word_follows()
    ensures { (h : Held) → h.kept.state.ready ≢ [] → is_user h.core.system ≡ false
        → is_served h.core ≡ false
        → Follows Inside h (after_word h (step h.core h.bus)) }
{}

/// In kernel mode at the vector of misses the processor is before the handler's first word, which
/// stands there in memory, and no load is late.
pub fn the_handler_begins()
    ensures kernel { (h : Held) → IsSound h → h.kept.state.ready ≢ []
        → is_user h.core.system ≡ false → h.core.pc ≡ 0x80000000 → IsKernel h.core.system }
    ensures next { (h : Held) → IsSound h → h.kept.state.ready ≢ []
        → is_user h.core.system ≡ false → h.core.pc ≡ 0x80000000 → h.core.next ≡ 0x80000004 }
    ensures slot { (h : Held) → IsSound h → h.kept.state.ready ≢ []
        → is_user h.core.system ≡ false → h.core.pc ≡ 0x80000000 → h.core.slot ≡ false }
    ensures late { (h : Held) → IsSound h → h.kept.state.ready ≢ []
        → is_user h.core.system ≡ false → h.core.pc ≡ 0x80000000
        → h.core.registers.late ≡ None }
    ensures words { (h : Held) → IsSound h → HasWords h.bus.memory }
{}

/// A whole refill at once is a path of nine steps, each an instruction of the processor that counts
/// and ends no unit, and each followed by the machine: it is touched with the seventh. In user mode,
/// and in no slot, the unit begins again.
pub fn a_refill_is_a_path()
    ensures path { (h : Held) (c : CoreState) → IsSound h → h.kept.state.ready ≢ []
        → h.kept.state.owed ≡ None → RunsInside 0 handler_events h.core h.bus c
        → RealPath h (with_refill h c) }
    ensures within { (n : ℕ) (old h : Held) (c : CoreState) → h.kept.state.ready ≢ []
        → held_goes_on n h ≡ true → RunsInside 0 handler_events h.core h.bus c
        → RunsWithin n old h → RunsWithin n old (with_refill h c) }
    ensures user { (h : Held) (t : CoreState) → IsSound h → h.kept.state.ready ≢ []
        → is_user h.core.system ≡ false → h.core.pc ≡ 0x80000000
        → RunsInside 0 handler_events h.core h.bus t → is_user t.system ≡ true }
    ensures outside { (h : Held) (t : CoreState) → IsSound h → h.kept.state.ready ≢ []
        → is_user h.core.system ≡ false → h.core.pc ≡ 0x80000000
        → RunsInside 0 handler_events h.core h.bus t → t.slot ≡ false }
{}
