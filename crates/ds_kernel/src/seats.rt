//! How a process leaves the processor for its seat, and how the next one comes on the processor.
ghost use Rattle.std.specs.Prelude.{◌≡◌, ℕ, ◌+◌, ◌*◌, ◌^◌, ◌<◌, ◌≤◌, length, slice_index, Some, All};
ghost use Rattle.ds_pagemap.specs.Machine.{State, Process, process_of, first};
ghost use Rattle.ds_pagemap_laws.specs.Lawful.{AreRegisters, IsReady};
ghost use Rattle.ds_grants.specs.Represented.{IsRepresented};
ghost use Rattle.ds_asid.specs.Spaces.{space_number};
ghost use Rattle.ds_refinement.specs.Handling.{IsWhole};
ghost use Rattle.ds_refinement.specs.Pairs.{HasNoNewPairs};
ghost use Rattle.ds_refinement.specs.Inner.Services.{resume_address, seated, EntersBy, with_none_spent};
ghost use Rattle.ds_kernel.specs.Inner.Parts.{own_of, with_counts_of};
ghost use Rattle.ds_monitor.specs.Inner.Kept.{kept_of};
ghost use Rattle.ds_monitor.specs.Inner.Orderly as monitor;
ghost use Rattle.ds_kernel.specs.Inner.Seats.{begun_at, past_call, in_space, on_processor, AreAnswered};

use crate::parts::Parts;
use ds_cp0::register;
use ds_tlb::Lookaside;
use ds_word::wrapping_sum;

/// Status while a user runs: user mode and interrupts on, and of these the clock's and the lines'.
pub(crate) const USER_STATUS: u32 = 0xc03;

/// EntryHi of page 0 in an address space.
#[inline(always)]
pub(crate) fn entry_hi_of(number: u8) -> u32
    requires { number < 64 }
    ensures { result ≡ number * 2 ^ 6 }
{
    u32::from(number) << 6
}

/// There are 32 registers.
fn show_32_registers(registers: &[u32; 32])
    ensures { length registers.now ≡ 32 }
{
    let _last = registers[31];
}

impl<L: Lookaside> Parts<L> {
    /// Where the process that runs goes on: in a service at EPC.
    pub(crate) fn resume_address(&self) -> u32
        ensures { result ≡ resume_address self.now.core }
    {
        if self.core.cp0.user() {
            self.core.pc
        } else {
            self.core.cp0.read(register::EPC)
        }
    }

    /// The processor has 32 registers, of which register 0 is 0.
    pub(crate) fn show_register_zero(&self)
        ensures size { length self.now.core.registers.general ≡ 32 }
        ensures nought { slice_index self.now.core.registers.general 0 ≡ 0 }
    {
        show_32_registers(&self.core.registers);
    }

    /// Every processor has 32 registers, of which the first is 0, and 64 slots of its buffer, of
    /// which Random spares 8.
    #[inline(always)]
    pub(crate) fn show_whole_processor(&self)
        requires slots { L.SLOTS ≡ 64 }
        requires wired { L.WIRED ≡ 8 }
        ensures whole { IsWhole self.now.core }
    {
        self.show_register_zero();
        let _random = self.core.tlb.random();
    }

    /// The process that runs leaves the processor for its seat, where it goes on at an address. A
    /// late load is finished.
    #[inline(always)]
    pub fn leave(&mut self, process: u32, pc: u32)
        requires place { pc ≡ resume_address self.old.core }
        requires above { 0 < process }
        requires within { process ≤ length self.old.monitor.seats.items }
        requires first { first self.old.monitor.ready ≡ Some process }
        ensures kept { kept_of self.new.monitor ≡ seated self.old.core (kept_of self.old.monitor) }
        ensures as_many { length self.new.monitor.seats.items
            ≡ length self.old.monitor.seats.items }
        ensures orderly { monitor.IsOrderly (kept_of self.old.monitor)
            → monitor.IsOrderly (kept_of self.new.monitor) }
        ensures rest { self.new ≡ record self.old {
          monitor = record self.old.monitor { seats = self.new.monitor.seats };
        } }
    {
        self.show_register_zero();
        self.monitor.keep(
            process,
            &self.core.registers,
            self.core.hi,
            self.core.lo,
            pc,
        );
    }

    /// The number of the process's address space: the one that it has, or else the next. Where all
    /// are used up, every process loses its own first, and the buffer is flushed.
    #[inline(always)]
    fn claim_space(&mut self, process: u32) -> u8
        requires few { process ≤ 100 }
        ensures number { result ≡ space_number self.new.monitor.spaces process }
        ensures range { (0 < result) × (result < 64) }
        ensures represented { IsRepresented self.old.core.entries self.old.bus.memory
            self.old.monitor.tables self.old.monitor.spaces self.old.monitor.grants
            → IsRepresented self.new.core.entries self.new.bus.memory
            self.new.monitor.tables self.new.monitor.spaces
            self.new.monitor.grants }
        ensures pairs { HasNoNewPairs self.old.core.entries self.new.core.entries }
        ensures rest { self.new ≡ record self.old {
          core = record self.old.core { entries = self.new.core.entries };
          monitor = record self.old.monitor { spaces = self.new.monitor.spaces };
        } }
    {
        match self.monitor.spaces.of(process) {
            Some(number) => number,
            None => self.monitor.spaces.take(process, &mut self.core.tlb),
        }
    }

    /// The processor has the registers of the process as its seat has them. Where the process ran
    /// until its call, which answers in register 2, it has the others already.
    #[inline(always)]
    fn take_registers(&mut self, process: u32, caller: Option<u32>)
        requires above { 0 < process }
        requires within { process ≤ length self.old.monitor.seats.items }
        requires nought { slice_index
            (process_of (kept_of self.old.monitor).state process).registers.general 0 ≡ 0 }
        requires answered { caller ≡ Some process → AreAnswered self.old.core.registers
            (process_of (kept_of self.old.monitor).state process).registers }
        ensures { self.new ≡ record self.old {
          core = record self.old.core {
            registers = record (process_of (kept_of self.old.monitor).state process).registers {
              late = self.old.core.registers.late;
            };
          };
        } }
    {
        let seat = &self.monitor.seats[process as usize - 1];
        if caller == Some(process) {
            self.core.registers[2] = seat.general()[2];
        } else {
            self.core.hi = seat.hi();
            self.core.lo = seat.lo();
            self.core.registers = *seat.general();
        }
    }

    /// The process whose registers the processor has is touched, and stands at the beginning of its
    /// unit, at an address.
    #[inline(always)]
    fn begin_at(&mut self, pc: u32)
        ensures { self.new ≡ record self.old { core = begun_at self.old.core pc } }
    {
        self.core.late = None;
        self.core.registers[26] = 0;
        self.core.registers[27] = pc;
        self.core.pc = pc;
        self.core.next = wrapping_sum(pc, 4);
        self.core.slot = false;
        self.core.cp0.write(register::STATUS, USER_STATUS);
    }

    /// The process that runs goes on after its call, with an answer: it stays on the processor, and
    /// its next unit begins a tick later.
    #[inline(always)]
    pub(crate) fn go_on_after_call(&mut self, answer: u32)
        requires early { self.old.monitor.time ≤ 1000000000 }
        ensures own { own_of self.new ≡ with_none_spent (own_of self.old) }
        ensures rest { (q : Process) → self.new ≡ record (with_counts_of self.new self.old) {
          core = on_processor self.old.core (past_call self.old.core answer q);
          monitor = record self.old.monitor { time = self.old.monitor.time + 1 };
        } }
    {
        let afterwards = wrapping_sum(self.unit_address(), 4);
        self.core.registers[2] = answer;
        self.begin_at(afterwards);
        self.count_none();
        self.pass(1);
    }

    /// The process comes on the processor in its address space, touched, at the beginning of its unit.
    #[inline(always)]
    fn put_on(&mut self, process: u32, number: u8, caller: Option<u32>)
        requires number { number < 64 }
        requires above { 0 < process }
        requires within { process ≤ length self.old.monitor.seats.items }
        requires nought { slice_index
            (process_of (kept_of self.old.monitor).state process).registers.general 0 ≡ 0 }
        requires answered { caller ≡ Some process → AreAnswered self.old.core.registers
            (process_of (kept_of self.old.monitor).state process).registers }
        ensures { self.new ≡ record self.old {
          core = on_processor (in_space self.old.core number)
              (process_of (kept_of self.old.monitor).state process);
        } }
    {
        let pc = self.monitor.seats[process as usize - 1].pc();
        self.core.cp0.write(register::ENTRY_HI, entry_hi_of(number));
        self.take_registers(process, caller);
        self.begin_at(pc);
    }

    /// The first of those that are ready comes on the processor; where nobody is ready, it rests. Of
    /// a caller that left for its call nothing but register 2 differs.
    #[inline(always)]
    pub fn enter(&mut self, caller: Option<u32>)
        requires ready { All (IsReady (kept_of self.old.monitor).state) self.old.monitor.ready }
        requires few { length self.old.monitor.seats.items ≤ 100 }
        requires registers { (p : ℕ)
            → AreRegisters (process_of (kept_of self.old.monitor).state p).registers }
        requires answered { (p : ℕ) → caller ≡ Some p → AreAnswered self.old.core.registers
            (process_of (kept_of self.old.monitor).state p).registers }
        ensures enters { EntersBy self.new.monitor.ready self.new.core (kept_of self.new.monitor) }
        ensures represented { IsRepresented self.old.core.entries self.old.bus.memory
            self.old.monitor.tables self.old.monitor.spaces self.old.monitor.grants
            → IsRepresented self.new.core.entries self.new.bus.memory
            self.new.monitor.tables self.new.monitor.spaces
            self.new.monitor.grants }
        ensures pairs { HasNoNewPairs self.old.core.entries self.new.core.entries }
        ensures context { self.new.core.system.context ≡ self.old.core.system.context }
        ensures random { self.new.core.random ≡ self.old.core.random }
        ensures rest { self.new ≡ record self.old {
          core = self.new.core;
          monitor = record self.old.monitor { spaces = self.new.monitor.spaces };
        } }
    {
        match self.monitor.first_ready() {
            Some(process) => {
                let number = self.claim_space(process);
                self.put_on(process, number, caller);
            }
            None => self.core.cp0.write(register::STATUS, USER_STATUS),
        }
    }
}
