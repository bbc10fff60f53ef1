//! Entries that match each other.
ghost use Rattle.std.specs.Prelude.{◌≡◌, position, IfSome, ◌<◌, length, OnOk, ◌++◌, ◌≤◌, ◌+◌, IfOk};
ghost use Rattle.std.specs.String.{string_bytes};
ghost use Rattle.ds_tlb.specs.Singles.{match_each_other};
ghost use Rattle.ds_bare.specs.Ends.{slots_text, match_text, matches_text, valid_text};

use crate::ending::Processor;
use crate::entries::push_entry;
use ds_text::string::push_decimal;
use ds_tlb::{Entry, Lookaside};
use std::alloc::{AllocError, Global};

/// The entries of the buffer, slot by slot.
#[tactic(auto, using(crate::proofs::Taken::taken_more))]
pub(crate) fn entries_of(alloc: Global, core: &Processor) -> Result<Vec<Entry>, AllocError>
    ensures value { IfOk result (λ entries. entries.items ≡ core.now.entries) }
    ensures few { IfOk result (λ entries. length entries.items ≤ 64) }
{
    let mut entries = Vec::new(alloc);
    for slot in 0..64 {
        entries.push(core.tlb.read(slot))?;
    }
    Ok(entries)
}

/// Whether some page of some address space has both entries.
pub(crate) fn match_each_other(one: &Entry, other: &Entry) -> bool
    ensures { result ≡ match_each_other one.now other.now }
{
    one.vpn == other.vpn && (one.g || other.g || one.asid == other.asid)
}

/// How many entries stand before the first that matches this one.
fn first_match(one: &Entry, others: &[Entry]) -> Option<usize>
    ensures place { result ≡ position (match_each_other one.now) others.now }
    ensures within { IfSome result (λ place. place < length others.now) }
{
    others.iter().position(|other| match_each_other(one, other))
}

/// Adds two slots that match each other, if the one has another.
fn push_match(text: &mut String, slot: usize, further: Option<usize>) -> Result<(), AllocError>
    requires slot { slot ≤ 64 }
    requires further { IfSome further (λ n. n ≤ 64) }
    ensures { OnOk result
        (string_bytes text.new ≡ string_bytes text.old ++ match_text slot further) }
{
    match further {
        Some(further) => {
            text.push_str("slots ")?;
            push_decimal(text, slot as u64)?;
            text.push_str(" and ")?;
            push_decimal(text, (slot + 1 + further) as u64)?;
            text.push_str(" match each other, which the architecture forbids\n")
        }
        None => Ok(()),
    }
}

/// Adds the slots that match a later one.
pub(crate) fn push_matches(text: &mut String, entries: &[Entry]) -> Result<(), AllocError>
    requires { length entries.now ≤ 64 }
    ensures { OnOk result
        (string_bytes text.new ≡ string_bytes text.old ++ matches_text 0 entries.now) }
{
    let mut slot = 0;
    let mut left = entries;
    while let [first, rest @ ..] = left {
        push_match(text, slot, first_match(first, rest))?;
        slot += 1;
        left = rest;
    }
    Ok(())
}

/// Adds the line of a slot whose entry is valid.
fn push_valid(text: &mut String, slot: usize, entry: &Entry) -> Result<(), AllocError>
    ensures { OnOk result
        (string_bytes text.new ≡ string_bytes text.old ++ valid_text slot entry.now) }
{
    if !entry.v {
        return Ok(());
    }
    text.push_str("slot ")?;
    push_decimal(text, slot as u64)?;
    text.push_str(" ")?;
    push_entry(text, entry)?;
    text.push_str("\n")
}

/// Adds the slots whose entries are valid.
pub(crate) fn push_entries(text: &mut String, entries: &[Entry]) -> Result<(), AllocError>
    requires { length entries.now ≤ 64 }
    ensures { OnOk result
        (string_bytes text.new ≡ string_bytes text.old ++ slots_text 0 entries.now) }
{
    let mut slot = 0;
    let mut left = entries;
    while let [first, rest @ ..] = left {
        push_valid(text, slot, first)?;
        slot += 1;
        left = rest;
    }
    Ok(())
}
