//! The word that a store leaves.
ghost use Rattle.std.specs.Prelude.{◌≡◌, ◌++◌, OnOk, length, slice_index};
ghost use Rattle.std.specs.String.{string_bytes};
ghost use Rattle.ds_station.specs.Reads.{memory_held};
ghost use Rattle.ds_trace.specs.Stores.{is_lost, reach_of, stored_at, stored_text, word_seen, stored_word_text};

use ds_isa::Instr;
use ds_station::Station;
use ds_text::string::push_hex;
use ds_tlb::Lookaside;
use ds_word::{sign16, wrapping_sum};
use std::alloc::AllocError;

/// The base and the offset of a store.
#[derive(Clone, Copy)]
pub(crate) struct Reach {
    pub base: u8,
    pub offset: u16,
}

/// Whether a touch may change a register.
pub(crate) fn is_lost(register: u8) -> bool
    ensures { result ≡ is_lost register }
{
    register == 26 || register == 27
}

/// The base and the offset of an instruction that stores.
pub(crate) fn reach_of(instr: &Instr) -> Option<Reach>
    ensures { result ≡ reach_of instr.now }
{
    match *instr {
        Instr::Sb { rs, immediate, .. }
        | Instr::Sh { rs, immediate, .. }
        | Instr::Swl { rs, immediate, .. }
        | Instr::Sw { rs, immediate, .. }
        | Instr::Swr { rs, immediate, .. } => Some(Reach {
            base: rs,
            offset: immediate,
        }),
        _ => None,
    }
}

/// What a register holds.
pub(crate) fn held_in(general: &[u32; 32], register: u8) -> u32
    ensures { result ≡ slice_index general.now register }
{
    match general.get(register as usize) {
        Some(value) => *value,
        None => 0,
    }
}

/// The address of the word to which a store goes, by what the registers hold; none where a touch may
/// change its base.
pub(crate) fn stored_at(general: &[u32; 32], reach: Option<Reach>) -> Option<u32>
    ensures { result ≡ stored_at general.now reach }
{
    match reach {
        Some(reach) => {
            if is_lost(reach.base) {
                return None;
            }
            let address = wrapping_sum(held_in(general, reach.base), sign16(reach.offset));
            Some(address / 4 * 4)
        }
        None => None,
    }
}

/// Adds a word with its address.
fn push_stored_word(line: &mut String, address: u32, word: Option<u32>) -> Result<(), AllocError>
    ensures { OnOk result
        (string_bytes line.new ≡ string_bytes line.old ++ stored_word_text address word) }
{
    match word {
        Some(word) => {
            line.push_str("  ")?;
            push_hex(line, address)?;
            line.push_str("=")?;
            push_hex(line, word)
        }
        None => Ok(()),
    }
}

/// The word at an address, where there is such a process, and it may fetch it.
fn word_seen<L: Lookaside>(station: &Station<L>, process: u32, address: u32) -> Option<u32>
    ensures { result ≡ word_seen (memory_held station.now.held)
        (length station.now.held.kept.state.processes) process address }
{
    if process == 0 || process > station.processes() {
        None
    } else {
        station.word_at(process, address)
    }
}

/// Adds the word at the address of a store, where the process may fetch it.
pub(crate) fn push_stored<L: Lookaside>(
    line: &mut String,
    station: &Station<L>,
    process: u32,
    address: Option<u32>,
) -> Result<(), AllocError>
    ensures { OnOk result (string_bytes line.new ≡ string_bytes line.old
        ++ stored_text (memory_held station.now.held) (length station.now.held.kept.state.processes)
        process address) }
{
    match address {
        Some(address) => push_stored_word(line, address, word_seen(station, process, address)),
        None => Ok(()),
    }
}
