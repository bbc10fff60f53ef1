//! One step of the processor in user mode is one instruction of the machine: each law is the
//! contract of a function with an empty body.
ghost use Rattle.std.specs.Prelude.{◌≡◌, ◌≢◌, ℕ, ◌<◌, ◌^◌, true, List, [], ◌∷◌, None};
ghost use Rattle.ds_cp0.specs.declared.exception.ExceptionCode.{ExceptionCode};
ghost use Rattle.ds_cp0.specs.System.{is_user};
ghost use Rattle.ds_core.specs.declared.event.Event.TheVariants.{Raised};
ghost use Rattle.ds_core.specs.Core as core;
ghost use Rattle.ds_core.specs.Effect.{step};
ghost use Rattle.ds_core.specs.Inner.Core.{is_raised};
ghost use Rattle.ds_refinement.specs.Handling.{IsWhole};
ghost use Rattle.ds_pagemap.specs.Machine.{State};
ghost use Rattle.ds_pagemap.specs.Unit.{instruction, with_registers};
ghost use Rattle.ds_refinement.specs.Told.{told};
ghost use Rattle.ds_refinement.specs.Held.{Held};
ghost use Rattle.ds_refinement.specs.Stands.{Stands};
ghost use Rattle.ds_refinement.specs.Inner.Stands.{IsSound};
ghost use Rattle.ds_refinement.specs.Inner.Real.{IsNoBusError};
ghost use Rattle.ds_refinement.specs.Inner.Leaves.{Leaves};
ghost use Rattle.ds_refinement.specs.Inner.Services.{after_event, step_of};
ghost use Rattle.ds_refinement.specs.Steps.{Follows};

/// What the coprocessor tells of an exception of a user is the outcome of the machine's instruction
/// in its place: the access that the table denies, the fault, or the call.
pub fn an_exception_tells_what_was_refused()
    ensures { (h : Held) (m : State) (p : ℕ) (rest : List ℕ) (s : core.Step) (code : ExceptionCode)
        → Stands h m → h.kept.state.ready ≡ p ∷ rest → h.kept.state.owed ≡ None
        → is_user h.core.system ≡ true → h.core.pc < 2 ^ 32
        → s ≡ step h.core h.bus → s.event ≡ Raised code
        → Leaves (told s.core.system m.memory p) s.core.system.bad_vaddr h.core.slot h.core.pc p
        m.memory (instruction (with_registers m p h.core.registers) p h.core.pc) }
{}

/// One step of the processor in user mode is one instruction of the machine: whatever state the
/// station stood for, after it it stands for a state that follows. After an exception the processor
/// is asked to have all its registers and slots, which every processor has.
pub fn an_instruction_is_one_of_the_machine()
    ensures { (h : Held) (s : core.Step) → s ≡ step h.core h.bus → h.kept.state.owed ≡ None
        → h.kept.state.ready ≢ [] → is_user h.core.system ≡ true → h.core.pc < 2 ^ 32
        → (is_raised s.event ≡ true → IsWhole s.core)
        → Follows (step_of s.event) h (after_event s.event h s) }
{}

/// No instruction of a user meets a bus error.
pub fn a_user_meets_no_bus_error()
    ensures { (h : Held) → IsSound h → h.kept.state.owed ≡ None → h.kept.state.ready ≢ []
        → is_user h.core.system ≡ true → h.core.pc < 2 ^ 32
        → IsNoBusError (step h.core h.bus).event }
{}
