//! The registers of a process, as gdb is told of them.
ghost use Rattle.std.specs.Prelude.{◌≡◌, ◌<◌, ◌≤◌, ◌++◌, OnOk, length};
ghost use Rattle.ds_pagemap.specs.Machine.{State};
ghost use Rattle.ds_refinement.specs.Stands.{Stands};
ghost use Rattle.ds_debug.specs.Registers.{gdb_register, register_text, registers_held, registers_text};
ghost use Rattle.ds_debug.specs.Inner.Registers.{registers_in};

use ds_gdb::push_word_or_none;
use ds_station::Station;
use ds_tlb::Lookaside;
use std::alloc::AllocError;

/// How many registers gdb asks for at once: those of the processor and of its system coprocessor.
const COUNT: u32 = 38;

/// The registers of a process that can be told.
#[derive(Clone, Copy, Debug, PartialEq, Eq)]
pub struct Registers {
    /// The general registers.
    pub general: [u32; 32],
    pub hi: u32,
    pub lo: u32,
    /// Where the process goes on.
    pub pc: u32,
}

impl Registers {
    /// The registers of a process: between two turns they are those that it has.
    pub fn of<L: Lookaside>(station: &Station<L>, process: u32) -> Registers
        requires above { 0 < process }
        requires within { process ≤ length station.now.held.kept.state.processes }
        ensures held { result ≡ registers_held station.now.held process }
        ensures stands { station.now.held.own.spent ≡ 0 → (m : State) → Stands station.now.held m
            → result ≡ registers_in m process }
    {
        Registers {
            general: station.general(process),
            hi: station.hi(process),
            lo: station.lo(process),
            pc: station.address(process),
        }
    }

    /// A register by gdb's number, if it can be told.
    fn register(&self, number: u32) -> Option<u32>
        ensures { result ≡ gdb_register self.now number }
    {
        if number == 26 || number == 27 {
            None
        } else if number < 32 {
            Some(self.general[number as usize])
        } else if number == 33 {
            Some(self.lo)
        } else if number == 34 {
            Some(self.hi)
        } else if number == 37 {
            Some(self.pc)
        } else {
            None
        }
    }
}

/// Adds a register by its number.
pub(crate) fn push_register(
    text: &mut Vec<u8>,
    registers: &Registers,
    number: u32,
) -> Result<(), AllocError>
    ensures { OnOk result (text.new.items ≡ text.old.items
        ++ register_text registers.now number) }
{
    push_word_or_none(text, registers.register(number))
}

/// Adds those that gdb asks for at once.
pub(crate) fn push_registers(text: &mut Vec<u8>, registers: &Registers) -> Result<(), AllocError>
    ensures { OnOk result (text.new.items ≡ text.old.items ++ registers_text registers.now) }
{
    for number in 0..COUNT {
        push_register(text, registers, number)?;
    }
    Ok(())
}
