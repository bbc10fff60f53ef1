//! What of the machine before an instruction its line tells.
ghost use Rattle.std.specs.Prelude.{◌≡◌, ◌<◌, IfSome, Some};
ghost use Rattle.ds_isa.specs.Instruction.{instruction_of};
ghost use Rattle.ds_isa.specs.Meaning.{access_address};
ghost use Rattle.ds_bare.specs.Steps.{before_word, held_at, load_of, loads_device, slot_written, store_of, stored_by, stores_device};

use crate::ending::{Processor, mode_of};
use crate::registers::{general_seen, read};
use ds_amap::{Kind, Physical, translate};
use ds_cp0::register;
use ds_isa::{Instr, decode};
use ds_mem::SIZE;
use ds_tlb::{Entry, Lookaside};
use ds_word::{sign16, wrapping_sum};

/// A store: its physical place, and the register that is stored.
#[derive(Clone, Copy)]
pub(crate) struct Stored {
    pub place: u32,
    pub value: u32,
}

/// What is looked at before an instruction.
#[derive(Clone, Copy)]
pub(crate) struct Before {
    pub pc: u32,
    /// The instruction's word, where it lies in memory.
    pub word: Option<u32>,
    /// The general registers, as the instruction reads them.
    pub registers: [u32; 32],
    /// HI, LO, and the coprocessor's registers, before characters came in.
    pub others: [u32; 10],
    /// The slot of the buffer that it writes if it is done.
    pub slot: Option<usize>,
    /// What that slot holds.
    pub held: Option<Entry>,
    /// Where it stores if it is done.
    pub stored: Option<Stored>,
    /// Whether it reaches a device if it is done.
    pub device: bool,
}

impl Before {
    /// What is looked at before the instruction with this word.
    pub fn of(core: &Processor, others: [u32; 10], word: Option<u32>) -> Before
        ensures { result ≡ before_word core.now others word }
    {
        match word {
            Some(read) => {
                let instr = decode(read);
                let slot = slot_written(core, instr);
                let stored = stored_by(core, store_of(core, instr));
                Before {
                    pc: core.pc,
                    word,
                    registers: general_seen(core),
                    others,
                    slot,
                    held: held_at(core, slot),
                    stored,
                    device: loads_device(core, load_of(core, instr)) || stores_device(stored),
                }
            }
            None => Before {
                pc: core.pc,
                word,
                registers: general_seen(core),
                others,
                slot: None,
                held: None,
                stored: None,
                device: false,
            },
        }
    }
}

/// The slot that an instruction writes, if it does.
fn slot_written(core: &Processor, instr: Instr) -> Option<usize>
    ensures { result ≡ slot_written core.now instr }
{
    match instr {
        Instr::Tlbwi => Some(((core.cp0.read(register::INDEX) >> 8) & 0x3f) as usize),
        Instr::Tlbwr => Some(core.tlb.random()),
        _ => None,
    }
}

/// What a slot of the buffer holds, where one is named.
fn held_at(core: &Processor, slot: Option<usize>) -> Option<Entry>
    ensures { result ≡ held_at core.now slot }
{
    match slot {
        Some(slot) if slot < 64 => Some(core.tlb.read(slot)),
        _ => None,
    }
}

/// The address of a load, if the instruction is one.
fn load_of(core: &Processor, instr: Instr) -> Option<u32>
    ensures { result ≡ load_of core.now.registers instr }
{
    match instr {
        Instr::Lb { rs, immediate, .. } => Some(access_address(core, rs, immediate)),
        Instr::Lh { rs, immediate, .. } => Some(access_address(core, rs, immediate)),
        Instr::Lwl { rs, immediate, .. } => Some(access_address(core, rs, immediate)),
        Instr::Lw { rs, immediate, .. } => Some(access_address(core, rs, immediate)),
        Instr::Lbu { rs, immediate, .. } => Some(access_address(core, rs, immediate)),
        Instr::Lhu { rs, immediate, .. } => Some(access_address(core, rs, immediate)),
        Instr::Lwr { rs, immediate, .. } => Some(access_address(core, rs, immediate)),
        _ => None,
    }
}

/// Whether a load from this address reaches a device, where there is a load.
fn loads_device(core: &Processor, address: Option<u32>) -> bool
    ensures { result ≡ loads_device core.now address }
{
    let Some(address) = address else {
        return false;
    };
    match translate(
        address,
        Kind::Load,
        mode_of(core),
        &core.tlb,
        core.cp0.asid(),
    ) {
        Ok(Physical(place)) => place as usize >= SIZE,
        Err(_) => false,
    }
}

/// Whether a store reaches a device, where there is one.
fn stores_device(stored: Option<Stored>) -> bool
    ensures { result ≡ stores_device stored }
{
    match stored {
        Some(stored) => stored.place as usize >= SIZE,
        None => false,
    }
}

/// The address of a load or a store.
fn access_address(core: &Processor, base: u8, immediate: u16) -> u32
    ensures { result ≡ access_address core.now.registers base immediate }
{
    wrapping_sum(read(core, base), sign16(immediate))
}

/// The address of a store and the register that is stored, if the instruction is one.
fn store_of(core: &Processor, instr: Instr) -> Option<(u32, u32)>
    ensures { result ≡ store_of core.now.registers instr }
{
    match instr {
        Instr::Sb { rt, rs, immediate } => Some((
            access_address(core, rs, immediate),
            read(core, rt),
        )),
        Instr::Sh { rt, rs, immediate } => Some((
            access_address(core, rs, immediate),
            read(core, rt),
        )),
        Instr::Swl { rt, rs, immediate } => Some((
            access_address(core, rs, immediate),
            read(core, rt),
        )),
        Instr::Sw { rt, rs, immediate } => Some((
            access_address(core, rs, immediate),
            read(core, rt),
        )),
        Instr::Swr { rt, rs, immediate } => Some((
            access_address(core, rs, immediate),
            read(core, rt),
        )),
        _ => None,
    }
}

/// The physical place of a store.
fn stored_by(core: &Processor, store: Option<(u32, u32)>) -> Option<Stored>
    ensures { result ≡ stored_by core.now store }
{
    let (address, value) = store?;
    match translate(
        address,
        Kind::Store,
        mode_of(core),
        &core.tlb,
        core.cp0.asid(),
    ) {
        Ok(Physical(place)) => Some(Stored { place, value }),
        Err(_) => None,
    }
}
