//! The general registers, and the load that is late (Kane and Heinrich, chapter 1, load delay).
ghost use Rattle.std.specs.Prelude.{◌≡◌};
ghost use Rattle.ds_isa.specs.Registers.{read, written, loaded};
ghost use Rattle.ds_isa.specs.Meaning.{newest, access_address};

use super::Core;
use ds_isa::Late;
use ds_tlb::Lookaside;
use ds_word::{sign16, wrapping_sum};

impl<L: Lookaside> Core<L> {
    /// A register, as an operand reads it: after a load its old value.
    #[inline(always)]
    pub(super) fn read(&self, register: u8) -> u32
        ensures { result ≡ read self.now.registers register }
    {
        let number = register % 32;
        match self.late {
            Some(late) if late.register == number => late.old,
            _ => self.registers[number as usize],
        }
    }

    /// A register with the value that was loaded last, be it late or not.
    #[inline(always)]
    pub(super) fn newest(&self, register: u8) -> u32
        ensures { result ≡ newest self.now.registers register }
    {
        self.registers[(register % 32) as usize]
    }

    /// The address of a load or a store.
    #[inline(always)]
    pub(super) fn access_address(&self, base: u8, immediate: u16) -> u32
        ensures { result ≡ access_address self.now.registers base immediate }
    {
        wrapping_sum(self.read(base), sign16(immediate))
    }

    /// Writes a register; register 0 keeps 0.
    #[inline(always)]
    pub(super) fn write(&mut self, register: u8, value: u32)
        ensures { self.new
            ≡ record self.old { registers = written self.old.registers register value } }
    {
        let number = (register % 32) as usize;
        if number != 0 {
            self.registers[number] = value;
        }
        self.late = None;
    }

    /// Loads a register, whose old value the next instruction still reads.
    #[inline(always)]
    pub(super) fn write_late(&mut self, register: u8, value: u32)
        ensures { self.new
            ≡ record self.old { registers = loaded self.old.registers register value } }
    {
        let number = register % 32;
        if number == 0 {
            self.late = None;
            return;
        }
        self.late = Some(Late {
            register: number,
            old: self.registers[number as usize],
        });
        self.registers[number as usize] = value;
    }
}
