//! What the entries of a process grant, and which of them is nearest.
ghost use Rattle.std.specs.Prelude.{◌≡◌, ◌-◌, nat_lt, if◌then◌else◌};
ghost use Rattle.ds_policy.specs.Pages.{found};
ghost use Rattle.ds_log_reasons.specs.Nearest.{distance, nearer, nearest};

use ds_policy::{Entry, Grant};

/// What is granted at an address.
pub(crate) fn grant_at(entries: &[Entry], address: u32) -> Option<Grant>
    ensures { result ≡ found entries.now address }
{
    for entry in entries {
        if entry.address == address {
            return Some(entry.grant);
        }
    }
    None
}

/// How far two addresses are from each other.
fn distance(first: u32, second: u32) -> u32
    ensures { result ≡ distance first second }
{
    if first < second {
        second - first
    } else {
        first - second
    }
}

/// The nearer of two entries to an address; where both are as near, the first.
fn nearer(address: u32, best: Option<Entry>, entry: Entry) -> Option<Entry>
    ensures { result ≡ nearer address best entry }
{
    match best {
        None => Some(entry),
        Some(before) => {
            if distance(address, entry.address) < distance(address, before.address) {
                Some(entry)
            } else {
                Some(before)
            }
        }
    }
}

/// The nearest entry to an address; of those that are as near, the first.
pub(crate) fn nearest(entries: &[Entry], address: u32) -> Option<Entry>
    ensures { result ≡ nearest address entries.now }
{
    let mut best = None;
    for entry in entries {
        best = nearer(address, best, *entry);
    }
    best
}
