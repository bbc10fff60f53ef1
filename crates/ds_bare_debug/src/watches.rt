//! Bytes of memory that are watched.
ghost use Rattle.std.specs.Prelude.{◌≡◌, ◌++◌, IfOk, OnOk};
ghost use Rattle.ds_bare_debug.specs.Watches.{watched_now, differ, first_differing, differs_from, watched_at, watched_of};

use ds_bare::Machine;
use ds_gdb::{Reason, Watchpoint};
use ds_word::wrapping_sum;
use std::alloc::{AllocError, Global};

/// A byte of a watch, as it was seen.
#[derive(Clone, Copy, Debug, PartialEq, Eq)]
pub struct Seen {
    /// Where the watch begins.
    pub first: u32,
    /// The byte's address.
    pub place: u32,
    /// Its value, where a load would read it.
    pub value: Option<u8>,
}

/// A byte of the watch that begins at this address, after so many others, as it is seen now.
fn watched_at<'a>(machine: &Machine<'a>, first: u32, index: u32) -> Seen
    ensures { result ≡ watched_at machine.now first index }
{
    let place = wrapping_sum(first, index);
    Seen {
        first,
        place,
        value: machine.byte_seen(place),
    }
}

/// Adds the bytes of a watch.
fn push_seen<'a>(
    seen: &mut Vec<Seen>,
    machine: &Machine<'a>,
    watchpoint: Watchpoint,
) -> Result<(), AllocError>
    ensures { OnOk result (seen.new.items ≡ seen.old.items ++ watched_of machine.now watchpoint) }
{
    for index in 0..watchpoint.length {
        seen.push(watched_at(machine, watchpoint.address, index))?;
    }
    Ok(())
}

/// The bytes of all watches.
pub(crate) fn watched_now<'a>(
    alloc: Global,
    machine: &Machine<'a>,
    watchpoints: &[Watchpoint],
) -> Result<Vec<Seen>, AllocError>
    ensures { IfOk result (λ seen. seen.items ≡ watched_now machine.now watchpoints.now) }
{
    let mut seen = Vec::new(alloc);
    for watchpoint in watchpoints {
        push_seen(&mut seen, machine, *watchpoint)?;
    }
    Ok(seen)
}

/// Whether two values differ; what is not seen, before or now, has none.
fn differ(before: Option<u8>, now: Option<u8>) -> bool
    ensures { result ≡ differ before now }
{
    match before {
        Some(before) => match now {
            Some(now) => before != now,
            None => false,
        },
        None => false,
    }
}

/// Whether a byte is not as it was seen.
fn differs_from<'a>(machine: &Machine<'a>, seen: Seen) -> bool
    ensures { result ≡ differs_from machine.now seen }
{
    differ(seen.value, machine.byte_seen(seen.place))
}

/// What stops by the first byte that is not as it was seen.
pub(crate) fn first_differing<'a>(machine: &Machine<'a>, seen: &[Seen]) -> Option<Reason>
    ensures { result ≡ first_differing machine.now seen.now }
{
    for byte in seen {
        if differs_from(machine, *byte) {
            return Some(Reason::Watch(byte.first));
        }
    }
    None
}
