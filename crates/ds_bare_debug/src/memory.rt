//! Memory as a load would read it now.
ghost use Rattle.std.specs.Prelude.{◌≡◌, ◌++◌, IfOk, OnOk};
ghost use Rattle.ds_bare_debug.specs.Looks.{bytes_seen, memory_text};

use ds_bare::Machine;
use ds_gdb::{few, push_bytes};
use ds_word::wrapping_sum;
use std::alloc::{AllocError, Global};

/// The bytes from an address on, up to the first that is not seen, and so many at most.
fn bytes_seen<'a>(
    alloc: Global,
    machine: &Machine<'a>,
    address: u32,
    count: u32,
) -> Result<Vec<u8>, AllocError>
    ensures { IfOk result (λ bytes. bytes.items ≡ bytes_seen machine.now address count) }
{
    let mut bytes = Vec::new(alloc);
    let mut place = address;
    for _ in 0..count {
        match machine.byte_seen(place) {
            Some(byte) => bytes.push(byte)?,
            None => return Ok(bytes),
        }
        place = wrapping_sum(place, 1);
    }
    Ok(bytes)
}

/// Adds the bytes from an address on, up to the first that a load would not read from memory, so many at
/// most, and 2,048 at most; and the error `E14` where there is none.
pub(crate) fn push_memory<'a>(
    alloc: Global,
    text: &mut Vec<u8>,
    machine: &Machine<'a>,
    address: u32,
    count: u32,
) -> Result<(), AllocError>
    ensures { OnOk result (text.new.items
        ≡ text.old.items ++ memory_text machine.now address count) }
{
    let bytes = bytes_seen(alloc, machine, address, few(count))?;
    push_bytes(text, bytes.as_slice())
}
