//! Where two slots begin to match each other.
ghost use Rattle.std.specs.Prelude.{◌≡◌, ◌≤◌, ◌++◌, OnOk, length, slice_get};
ghost use Rattle.std.specs.String.{string_bytes};
ghost use Rattle.ds_bare.specs.Begun.{begins, begun_line, begun_lines, begun_text, begun_with, ordered_text, pair_text};

use crate::ending::Processor;
use crate::matches::{entries_of, match_each_other};
use ds_text::string::push_decimal;
use ds_tlb::{Entry, Lookaside};
use std::alloc::{AllocError, Global};

/// Whether an entry matches another which the one before it did not match.
fn begins(old: &Entry, new: &Entry, other: &Entry) -> bool
    ensures { result ≡ begins old.now new.now other.now }
{
    match_each_other(new, other) && !match_each_other(old, other)
}

/// Adds that two slots match each other.
fn push_pair(text: &mut String, low: usize, high: usize) -> Result<(), AllocError>
    ensures { OnOk result
        (string_bytes text.new ≡ string_bytes text.old ++ pair_text low high) }
{
    text.push_str("slots ")?;
    push_decimal(text, low as u64)?;
    text.push_str(" and ")?;
    push_decimal(text, high as u64)?;
    text.push_str(" match each other, which the architecture forbids\n")
}

/// Adds that two slots match each other, the lower one first.
fn push_ordered(text: &mut String, one: usize, other: usize) -> Result<(), AllocError>
    ensures { OnOk result
        (string_bytes text.new ≡ string_bytes text.old ++ ordered_text one other) }
{
    if one < other {
        push_pair(text, one, other)
    } else {
        push_pair(text, other, one)
    }
}

/// Adds the line of a slot with this entry, where another slot was written.
fn push_begun_line(
    text: &mut String,
    written: usize,
    old: &Entry,
    new: &Entry,
    slot: usize,
    entry: &Entry,
) -> Result<(), AllocError>
    ensures { OnOk result (string_bytes text.new ≡ string_bytes text.old
        ++ begun_line written old.now new.now slot entry.now) }
{
    if written != slot && begins(old, new, entry) {
        push_ordered(text, written, slot)
    } else {
        Ok(())
    }
}

/// Adds the lines of slots with these entries, where one slot was written.
fn push_begun_lines(
    text: &mut String,
    written: usize,
    old: &Entry,
    new: &Entry,
    entries: &[Entry],
) -> Result<(), AllocError>
    requires { length entries.now ≤ 64 }
    ensures { OnOk result (string_bytes text.new ≡ string_bytes text.old
        ++ begun_lines written old.now new.now 0 entries.now) }
{
    let mut slot = 0;
    let mut left = entries;
    while let [first, rest @ ..] = left {
        push_begun_line(text, written, old, new, slot, first)?;
        slot += 1;
        left = rest;
    }
    Ok(())
}

/// Adds the lines of all slots, by what the slot that was written holds now.
fn push_begun_with(
    text: &mut String,
    written: usize,
    old: &Entry,
    entries: &[Entry],
) -> Result<(), AllocError>
    requires { length entries.now ≤ 64 }
    ensures { OnOk result (string_bytes text.new ≡ string_bytes text.old
        ++ begun_with written old.now (slice_get entries.now written) entries.now) }
{
    match entries.get(written) {
        Some(new) => push_begun_lines(text, written, old, new, entries),
        None => Ok(()),
    }
}

/// Adds the lines of all slots, where one was written, by what that held before.
fn push_begun_in(
    alloc: Global,
    text: &mut String,
    written: usize,
    old: &Entry,
    core: &Processor,
) -> Result<(), AllocError>
    ensures { OnOk result (string_bytes text.new ≡ string_bytes text.old
        ++ begun_with written old.now (slice_get core.now.entries written) core.now.entries) }
{
    let entries = entries_of(alloc, core)?;
    push_begun_with(text, written, old, &entries)
}

/// Adds where slots begin to match each other, by the slot that an instruction wrote and what that
/// held before.
pub(crate) fn push_begun(
    alloc: Global,
    text: &mut String,
    slot: Option<usize>,
    held: Option<Entry>,
    core: &Processor,
) -> Result<(), AllocError>
    ensures { OnOk result (string_bytes text.new ≡ string_bytes text.old
        ++ begun_text slot held core.now.entries) }
{
    match (slot, held) {
        (Some(written), Some(old)) => push_begun_in(alloc, text, written, &old, core),
        _ => Ok(()),
    }
}
