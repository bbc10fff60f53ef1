//! What the processor's registers hold.
ghost use Rattle.std.specs.Prelude.{◌≡◌};
ghost use Rattle.ds_isa.specs.Registers.{read};
ghost use Rattle.ds_core.specs.Coprocessor.{system_reads};
ghost use Rattle.ds_bare.specs.Steps.{others, general_seen};

use crate::ending::Processor;
use ds_cp0::register;
use ds_dev::Bus;
use ds_word::bit;

/// The general registers, as the next instruction reads them.
pub(crate) fn general_seen(core: &Processor) -> [u32; 32]
    ensures { result ≡ general_seen core.now.registers }
{
    let mut registers = core.registers;
    if let Some(late) = core.late {
        registers[late.register as usize] = late.old;
    }
    registers
}

/// A register, as the next instruction reads it.
pub(crate) fn read(core: &Processor, register: u8) -> u32
    ensures { result ≡ read core.now.registers register }
{
    let number = register % 32;
    match core.late {
        Some(late) if late.register == number => late.old,
        _ => core.registers[number as usize],
    }
}

/// Cause with the requests of the devices: IP2 in bit 10, IP3 in bit 11.
pub(crate) fn cause(core: &Processor, bus: &Bus) -> u32
    ensures { result ≡ system_reads core.now bus.now 13 }
{
    let (system, clock) = bus.lines();
    core.cp0.read(register::CAUSE) | (bit(10, system) + bit(11, clock))
}

/// HI, LO, and the coprocessor's registers as `mfc0` reads them.
#[tactic(auto, unfolding(crate::specs::Steps::others))]
pub(crate) fn others(core: &Processor, bus: &Bus) -> [u32; 10]
    ensures { result ≡ others core.now bus.now }
{
    [
        core.hi,
        core.lo,
        core.cp0.read(register::INDEX),
        core.cp0.read(register::ENTRY_LO),
        core.cp0.read(register::CONTEXT),
        core.cp0.read(register::BAD_VADDR),
        core.cp0.read(register::ENTRY_HI),
        core.cp0.read(register::STATUS),
        cause(core, bus),
        core.cp0.read(register::EPC),
    ]
}
