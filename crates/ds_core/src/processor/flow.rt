//! Where the processor goes on: after an instruction, in a delay slot, or out of the program.
ghost use Rattle.std.specs.Prelude.{◌≡◌};
ghost use Rattle.ds_isa.specs.Registers.{settled, written, loaded};
ghost use Rattle.ds_isa.specs.Meaning.{past_slot, branch_target, jump_target, written_or_trap};
ghost use Rattle.ds_dev.specs.Bus.{BusState};
ghost use Rattle.ds_core.specs.Core.{exception, core_at_vector, core_at_next, branched};
ghost use Rattle.ds_core.specs.Inner.Core.{with_link};
ghost use Rattle.ds_core.specs.Effect.{effect};

use super::Core;
use crate::event::Event;
use ds_cp0::{Exception, ExceptionCode};
use ds_isa::Instr;
use ds_tlb::Lookaside;
use ds_word::{sign16, wrapping_sum};

/// The address after a branch and its slot.
#[inline(always)]
pub fn after_slot(pc: u32) -> u32
    ensures { result ≡ past_slot pc }
{
    wrapping_sum(pc, 8)
}

/// The target of a taken branch, else the place after its slot.
#[inline(always)]
pub(super) fn branch_target(taken: bool, pc: u32, immediate: u16) -> u32
    ensures { result ≡ branch_target taken pc immediate }
{
    if taken {
        let distance = sign16(immediate).wrapping_mul(4);
        wrapping_sum(wrapping_sum(pc, 4), distance)
    } else {
        after_slot(pc)
    }
}

/// The target of a jump, in the region of 2^28 bytes of its slot.
#[inline(always)]
pub(super) fn jump_target(pc: u32, target: u32) -> u32
    ensures { result ≡ jump_target pc target }
{
    let region = wrapping_sum(pc, 4) / 0x1000_0000;
    region * 0x1000_0000 + 4 * (target % 0x400_0000)
}

impl<L: Lookaside> Core<L> {
    /// Enters an exception; a late load is finished.
    #[inline(always)]
    pub fn raise(&mut self, exception: Exception) -> Event
        ensures event { result ≡ Event.Raised exception.code }
        ensures core { self.new ≡ core_at_vector self.old exception }
    {
        self.pc = self.cp0.enter(exception);
        self.next = wrapping_sum(self.pc, 4);
        self.slot = false;
        self.late = None;
        Event::Raised(exception.code)
    }

    /// Enters an exception that names neither an address nor a coprocessor.
    #[cold]
    #[inline(never)]
    pub(super) fn trap(&mut self, code: ExceptionCode) -> Event
        ensures event { result ≡ Event.Raised code }
        ensures core { self.new ≡ core_at_vector self.old (exception self.old code) }
    {
        self.raise(Exception {
            code,
            pc: self.pc,
            slot: self.slot,
            unit: 0,
            addr: None,
            miss: false,
        })
    }

    /// Goes on after the instruction, which is done.
    #[inline(always)]
    fn go(&mut self) -> Event
        ensures event { result ≡ Event.Retired }
        ensures core { self.new ≡ core_at_next self.old self.old.registers }
    {
        self.pc = self.next;
        self.next = wrapping_sum(self.next, 4);
        self.slot = false;
        Event::Retired
    }

    /// The instruction is done, and a register written.
    #[inline(always)]
    pub(super) fn retire(&mut self, register: u8, value: u32) -> Event
        ensures event { result ≡ Event.Retired }
        ensures core { self.new
            ≡ core_at_next self.old (written self.old.registers register value) }
    {
        self.write(register, value);
        self.go()
    }

    /// The instruction is done, and a register loaded.
    #[inline(always)]
    pub(super) fn retire_load(&mut self, register: u8, value: u32) -> Event
        ensures event { result ≡ Event.Retired }
        ensures core { self.new ≡ core_at_next self.old (loaded self.old.registers register value) }
    {
        self.write_late(register, value);
        self.go()
    }

    /// The instruction is done, and no general register changed: register 0 takes no write.
    #[inline(always)]
    pub(super) fn retire_settled(&mut self) -> Event
        ensures event { result ≡ Event.Retired }
        ensures core { self.new ≡ core_at_next self.old (settled self.old.registers) }
    {
        self.retire(0, 0)
    }

    /// The instruction is done, and HI and LO written.
    #[inline(always)]
    pub(super) fn retire_hi_lo(&mut self, hi: u32, lo: u32) -> Event
        ensures event { result ≡ Event.Retired }
        ensures core { self.new
            ≡ core_at_next self.old (record self.old.registers { hi = hi; lo = lo; late = None }) }
    {
        self.hi = hi;
        self.lo = lo;
        self.retire_settled()
    }

    /// The instruction is done with its result in a register, or it overflowed and traps.
    #[inline(always)]
    pub(super) fn retire_or_trap(&mut self, register: u8, value: Option<u32>) -> Event
        ensures { (bus : BusState) (instr : Instr)
            → (record { event = result; core = self.new; bus = bus })
            ≡ effect self.old bus instr (written_or_trap self.old.registers register value) }
    {
        match value {
            Some(value) => self.retire(register, value),
            None => self.trap(ExceptionCode::Overflow),
        }
    }

    /// Goes on in the slot of a branch or jump, and after that at the target; a register that
    /// links gets the address after the slot. In a slot it is reserved.
    #[inline(always)]
    pub(super) fn branch_to(&mut self, link: Option<u8>, target: u32) -> Event
        ensures { (bus : BusState) → (record { event = result; core = self.new; bus = bus })
            ≡ branched self.old.slot self.old bus
            (with_link link self.old.pc self.old.registers) target }
    {
        if self.slot {
            return self.trap(ExceptionCode::ReservedInstruction);
        }
        match link {
            Some(register) => self.write(register, after_slot(self.pc)),
            None => self.late = None,
        }
        self.pc = self.next;
        self.next = target;
        self.slot = true;
        Event::Branched
    }

    /// A branch that may be taken.
    #[inline(always)]
    pub(super) fn branch(&mut self, taken: bool, immediate: u16) -> Event
        ensures { (bus : BusState) → (record { event = result; core = self.new; bus = bus })
            ≡ branched self.old.slot self.old bus (settled self.old.registers)
            (branch_target taken self.old.pc immediate) }
    {
        self.branch_to(None, branch_target(taken, self.pc, immediate))
    }

    /// A branch that may be taken, and links in register 31 whether it is or not.
    #[inline(always)]
    pub(super) fn link_and_branch(&mut self, taken: bool, immediate: u16) -> Event
        ensures { (bus : BusState) → (record { event = result; core = self.new; bus = bus })
            ≡ branched self.old.slot self.old bus
            (written self.old.registers 31 (past_slot self.old.pc))
            (branch_target taken self.old.pc immediate) }
    {
        self.branch_to(Some(31), branch_target(taken, self.pc, immediate))
    }
}
