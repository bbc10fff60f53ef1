//! The instructions of the system coprocessor, the translation buffer's among them.
ghost use Rattle.std.specs.Prelude.{◌≡◌, ◌<◌};
ghost use Rattle.ds_tlb.specs.Words.{entry_of};
ghost use Rattle.ds_core.specs.Core.{core_at_vector};
ghost use Rattle.ds_core.specs.Coprocessor.{is_coprocessor_usable, unusable, unusable_exception, requests, system_reads, index_slot, usable, unit_of, privileged};

use super::Core;
use crate::event::Event;
use ds_cp0::{Cp0, Exception, ExceptionCode, register};
use ds_dev::Bus;
use ds_isa::Instr;
use ds_tlb::{Entry, Lookaside};
use ds_word::bit;

/// The requests of the devices, as Cause shows them: bit 10 and bit 11.
fn requests(bus: &Bus) -> u32
    ensures { result ≡ requests bus.now }
{
    let (system, clock) = bus.lines();
    bit(10, system) + bit(11, clock)
}

/// The entry that EntryHi and EntryLo have.
fn entry_of(cp0: &Cp0) -> Entry
    ensures { result ≡ entry_of cp0.now.entry_hi cp0.now.entry_lo }
{
    let hi = cp0.read(register::ENTRY_HI);
    let lo = cp0.read(register::ENTRY_LO);
    Entry::of_words(hi, lo)
}

/// The slot that Index names.
fn index_slot(cp0: &Cp0) -> usize
    ensures value { result ≡ index_slot cp0.now }
    ensures range { result < 64 }
{
    ((cp0.read(register::INDEX) >> 8) & 0x3f) as usize
}

/// The coprocessor of an instruction.
fn unit_of(instr: Instr) -> u8
    ensures { result ≡ unit_of instr }
{
    match instr {
        Instr::Cop { unit, .. } => unit,
        _ => 0,
    }
}

impl<L: Lookaside> Core<L> {
    /// Whether a coprocessor may be used: coprocessor 0 in kernel mode, else each by its bit in
    /// Status.
    pub fn is_coprocessor_usable(&self, unit: u8) -> bool
        ensures { result ≡ is_coprocessor_usable self.now unit }
    {
        let enabled = (self.cp0.read(register::STATUS) >> (28 + unit % 4)) & 1 == 1;
        unit % 4 == 0 && !self.cp0.user() || enabled
    }

    /// Enters the exception of a coprocessor that can't be used.
    fn unusable(&mut self, unit: u8) -> Event
        ensures event { result ≡ Event.Raised ExceptionCode.CoprocessorUnusable }
        ensures core { self.new ≡ core_at_vector self.old (unusable_exception self.old unit) }
    {
        self.raise(Exception {
            code: ExceptionCode::CoprocessorUnusable,
            pc: self.pc,
            slot: self.slot,
            unit,
            addr: None,
            miss: false,
        })
    }

    /// What a register of the coprocessor reads, Random and the requests of the devices included.
    fn system_reads(&self, number: u8, bus: &Bus) -> u32
        requires { L.SLOTS ≡ 64 }
        ensures { result ≡ system_reads self.now bus.now number }
    {
        match number {
            register::RANDOM => self.tlb.random() as u32 * 256,
            register::CAUSE => self.cp0.read(register::CAUSE) | requests(bus),
            _ => self.cp0.read(number),
        }
    }

    /// Carries out an instruction of a coprocessor that may be used.
    fn use_coprocessor(&mut self, instr: Instr, bus: &Bus) -> Event
        requires { L.SLOTS ≡ 64 }
        ensures { (record { event = result; core = self.new; bus = bus.now })
            ≡ usable self.old bus.now instr }
    {
        match instr {
            Instr::Mfc0 { rt, rd } => {
                let value = self.system_reads(rd, bus);
                self.retire_load(rt, value)
            }
            Instr::Mtc0 { rt, rd } => {
                let value = self.read(rt);
                self.cp0.write(rd, value);
                self.retire_settled()
            }
            Instr::Tlbr => {
                let entry = self.tlb.read(index_slot(&self.cp0));
                self.cp0.write(register::ENTRY_HI, entry.hi_word());
                self.cp0.write(register::ENTRY_LO, entry.lo_word());
                self.retire_settled()
            }
            Instr::Tlbwi => {
                self.tlb.write(index_slot(&self.cp0), entry_of(&self.cp0));
                self.retire_settled()
            }
            Instr::Tlbwr => {
                self.tlb.write_random(entry_of(&self.cp0));
                self.retire_settled()
            }
            Instr::Tlbp => {
                let vpn = (self.cp0.read(register::ENTRY_HI) >> 12) & 0xf_ffff;
                let index = self.tlb.probe(vpn, self.cp0.asid());
                self.cp0.write(register::INDEX, index);
                self.retire_settled()
            }
            Instr::Rfe => {
                self.cp0.rfe();
                self.retire_settled()
            }
            _ => self.trap(ExceptionCode::ReservedInstruction),
        }
    }

    /// Carries out an instruction of a coprocessor. The calls below are taken in its place: an
    /// instruction that is passed to a call goes through memory, and costs each other instruction.
    fn privileged(&mut self, instr: Instr, bus: &Bus) -> Event
        requires { L.SLOTS ≡ 64 }
        ensures { (record { event = result; core = self.new; bus = bus.now })
            ≡ privileged self.old bus.now instr }
    {
        let unit = unit_of(instr);
        if self.is_coprocessor_usable(unit) {
            self.use_coprocessor(instr, bus)
        } else {
            self.unusable(unit)
        }
    }

    /// Move from coprocessor 0.
    #[cold]
    #[inline(never)]
    pub(super) fn mfc0(&mut self, rt: u8, rd: u8, bus: &Bus) -> Event
        requires { L.SLOTS ≡ 64 }
        ensures { (record { event = result; core = self.new; bus = bus.now })
            ≡ privileged self.old bus.now (Instr.Mfc0 rt rd) }
    {
        self.privileged(Instr::Mfc0 { rt, rd }, bus)
    }

    /// Move to coprocessor 0.
    #[cold]
    #[inline(never)]
    pub(super) fn mtc0(&mut self, rt: u8, rd: u8, bus: &Bus) -> Event
        requires { L.SLOTS ≡ 64 }
        ensures { (record { event = result; core = self.new; bus = bus.now })
            ≡ privileged self.old bus.now (Instr.Mtc0 rt rd) }
    {
        self.privileged(Instr::Mtc0 { rt, rd }, bus)
    }

    /// Read the entry that Index names.
    #[cold]
    #[inline(never)]
    pub(super) fn tlbr(&mut self, bus: &Bus) -> Event
        requires { L.SLOTS ≡ 64 }
        ensures { (record { event = result; core = self.new; bus = bus.now })
            ≡ privileged self.old bus.now (Instr.Tlbr) }
    {
        self.privileged(Instr::Tlbr, bus)
    }

    /// Write the entry that Index names.
    #[cold]
    #[inline(never)]
    pub(super) fn tlbwi(&mut self, bus: &Bus) -> Event
        requires { L.SLOTS ≡ 64 }
        ensures { (record { event = result; core = self.new; bus = bus.now })
            ≡ privileged self.old bus.now (Instr.Tlbwi) }
    {
        self.privileged(Instr::Tlbwi, bus)
    }

    /// Write the entry that Random names.
    #[cold]
    #[inline(never)]
    pub(super) fn tlbwr(&mut self, bus: &Bus) -> Event
        requires { L.SLOTS ≡ 64 }
        ensures { (record { event = result; core = self.new; bus = bus.now })
            ≡ privileged self.old bus.now (Instr.Tlbwr) }
    {
        self.privileged(Instr::Tlbwr, bus)
    }

    /// Probe for the page that EntryHi names.
    #[cold]
    #[inline(never)]
    pub(super) fn tlbp(&mut self, bus: &Bus) -> Event
        requires { L.SLOTS ≡ 64 }
        ensures { (record { event = result; core = self.new; bus = bus.now })
            ≡ privileged self.old bus.now (Instr.Tlbp) }
    {
        self.privileged(Instr::Tlbp, bus)
    }

    /// Return from an exception.
    #[cold]
    #[inline(never)]
    pub(super) fn rfe(&mut self, bus: &Bus) -> Event
        requires { L.SLOTS ≡ 64 }
        ensures { (record { event = result; core = self.new; bus = bus.now })
            ≡ privileged self.old bus.now (Instr.Rfe) }
    {
        self.privileged(Instr::Rfe, bus)
    }

    /// A word of a coprocessor that names no instruction.
    #[cold]
    #[inline(never)]
    pub(super) fn cop(&mut self, unit: u8, word: u32, bus: &Bus) -> Event
        requires { L.SLOTS ≡ 64 }
        ensures { (record { event = result; core = self.new; bus = bus.now })
            ≡ privileged self.old bus.now (Instr.Cop unit word) }
    {
        self.privileged(Instr::Cop { unit, word }, bus)
    }
}
