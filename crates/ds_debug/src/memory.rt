//! Memory as a process may load it.
ghost use Rattle.std.specs.Prelude.{◌≡◌, ◌<◌, ◌≤◌, ◌++◌, IfOk, OnOk, length};
ghost use Rattle.ds_station.specs.Reads.{memory_held};
ghost use Rattle.ds_debug.specs.Memory.{byte_read, bytes_readable_from, memory_text};

use ds_gdb::{few, push_bytes};
use ds_station::Station;
use ds_tlb::Lookaside;
use ds_word::byte_unsigned;
use std::alloc::{AllocError, Global};

/// The byte at an address, where the process may load it.
#[tactic(auto, using(crate::proofs::Bytes::byte_by_word))]
pub(crate) fn byte_read<L: Lookaside>(
    station: &Station<L>,
    process: u32,
    address: u32,
) -> Option<u8>
    requires above { 0 < process }
    requires within { process ≤ length station.now.held.kept.state.processes }
    ensures { result ≡ byte_read (memory_held station.now.held) process address }
{
    let word = station.word_read(process, address - address % 4)?;
    Some(byte_unsigned(word, address % 4) as u8)
}

/// The bytes from an address on, up to the first that the process may not load, and so many at most.
fn bytes_readable_from<L: Lookaside>(
    alloc: Global,
    station: &Station<L>,
    process: u32,
    address: u32,
    count: u32,
) -> Result<Vec<u8>, AllocError>
    requires above { 0 < process }
    requires within { process ≤ length station.now.held.kept.state.processes }
    ensures { IfOk result (λ bytes. bytes.items
        ≡ bytes_readable_from (memory_held station.now.held) process address count) }
{
    let mut bytes = Vec::new(alloc);
    for index in 0..count {
        if u32::MAX - address < index {
            return Ok(bytes);
        }
        let place = address + index;
        match byte_read(station, process, place) {
            Some(byte) => bytes.push(byte)?,
            None => return Ok(bytes),
        }
    }
    Ok(bytes)
}

/// Adds the bytes from an address on, up to the first that the process may not load, so many at most,
/// and 2,048 at most; and the error `E14` where there is none.
pub(crate) fn push_memory<L: Lookaside>(
    alloc: Global,
    text: &mut Vec<u8>,
    station: &Station<L>,
    process: u32,
    address: u32,
    count: u32,
) -> Result<(), AllocError>
    requires above { 0 < process }
    requires within { process ≤ length station.now.held.kept.state.processes }
    ensures { OnOk result (text.new.items ≡ text.old.items
        ++ memory_text (memory_held station.now.held) process address count) }
{
    let bytes = bytes_readable_from(alloc, station, process, address, few(count))?;
    push_bytes(text, bytes.as_slice())
}
