//! Bytes of memory that are watched.
ghost use Rattle.std.specs.Prelude.{◌≡◌, ◌++◌, IfOk, OnOk};
ghost use Rattle.ds_debug.specs.Watches.{all_seen, is_new, seen_at, seen_of, value_at};

use crate::look::is_there;
use crate::memory::byte_read;
use ds_gdb::Watchpoint;
use ds_station::Station;
use ds_tlb::Lookaside;
use std::alloc::{AllocError, Global};

/// A byte of a watch, as it was seen.
#[derive(Clone, Copy, Debug, PartialEq, Eq)]
pub struct Seen {
    pub watchpoint: Watchpoint,
    /// How many bytes of the watch come before it.
    pub index: u32,
    /// Its value, where the process may load it.
    pub value: Option<u8>,
}

/// The byte of a watch after so many others, where its process may load it.
#[tactic(auto, using(crate::proofs::Bytes::byte_past))]
pub(crate) fn value_at<L: Lookaside>(
    station: &Station<L>,
    watchpoint: Watchpoint,
    index: u32,
) -> Option<u8>
    ensures { result ≡ value_at station.now.held watchpoint index }
{
    if !is_there(station, watchpoint.process) {
        return None;
    }
    if u32::MAX - watchpoint.address < index {
        return None;
    }
    byte_read(station, watchpoint.process, watchpoint.address + index)
}

/// It, as it is seen now.
fn seen_at<L: Lookaside>(station: &Station<L>, watchpoint: Watchpoint, index: u32) -> Seen
    ensures { result ≡ seen_at station.now.held watchpoint index }
{
    let value = value_at(station, watchpoint, index);
    Seen {
        watchpoint,
        index,
        value,
    }
}

/// Adds the bytes of a watch.
fn push_seen<L: Lookaside>(
    seen: &mut Vec<Seen>,
    station: &Station<L>,
    watchpoint: Watchpoint,
) -> Result<(), AllocError>
    ensures { OnOk result (seen.new.items
        ≡ seen.old.items ++ seen_of station.now.held watchpoint) }
{
    for index in 0..watchpoint.length {
        seen.push(seen_at(station, watchpoint, index))?;
    }
    Ok(())
}

/// The bytes of all watches.
pub(crate) fn all_seen<L: Lookaside>(
    alloc: Global,
    station: &Station<L>,
    watchpoints: &[Watchpoint],
) -> Result<Vec<Seen>, AllocError>
    ensures { IfOk result (λ seen. seen.items ≡ all_seen station.now.held watchpoints.now) }
{
    let mut seen = Vec::new(alloc);
    for watchpoint in watchpoints {
        push_seen(&mut seen, station, *watchpoint)?;
    }
    Ok(seen)
}

/// Whether a value is not what it was before. A byte that may not be loaded any more is none.
pub(crate) fn is_new(before: Option<u8>, now: Option<u8>) -> bool
    ensures { result ≡ is_new before now }
{
    match now {
        Some(now) => match before {
            Some(before) => before != now,
            None => true,
        },
        None => false,
    }
}
