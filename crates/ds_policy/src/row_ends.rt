//! Rights that end by themselves, within the entries of one process.
ghost use Rattle.std.specs.Prelude.{◌≡◌, ◌||◌, ℕ, map};
ghost use Rattle.std.specs.List.{list_any};
ghost use Rattle.ds_policy.specs.Grants.{is_some_right};
ghost use Rattle.ds_policy.specs.Ends.{is_reached, has_expired, expired_entry};
ghost use Rattle.ds_policy.specs.Inner.Ends.{first_expired};

use crate::grant::{Entry, Right, forbidden_by};
use crate::row::Row;

impl Row {
    /// Takes all right from each entry whose right has ended by a time, by the entry's own rule.
    pub(crate) fn expire(&mut self, now: u64)
        ensures { self.new ≡ map (expired_entry now) self.old }
    {
        expire(self.entries.as_mut_slice(), now);
    }

    /// When the first of the rights ends, if one does by itself.
    pub(crate) fn next_end(&self) -> Option<u32>
        ensures { (now : ℕ) → is_reached now result ≡ list_any (has_expired now) self.now }
    {
        next_end(self.entries.as_slice())
    }

    /// The first entry whose right has ended by a time.
    pub(crate) fn first_expired(&self, now: u64) -> Option<Entry>
        ensures { result ≡ first_expired now self.now }
    {
        first_expired(self.entries.as_slice(), now)
    }
}

/// The earlier of two ends.
pub(crate) fn earlier(a: Option<u32>, b: Option<u32>) -> Option<u32>
    ensures { (now : ℕ) → is_reached now result ≡ is_reached now a || is_reached now b }
{
    match (a, b) {
        (Some(a), Some(b)) => Some(a.min(b)),
        (None, end) | (end, None) => end,
    }
}

/// Whether a right is one to read or to write.
fn is_some_right(right: Right) -> bool
    ensures { result ≡ is_some_right right }
{
    match right {
        Right::Nothing => false,
        Right::Read | Right::Write => true,
    }
}

/// When the right of an entry ends, if it has one that does.
fn end_of(entry: Entry) -> Option<u32>
    ensures { (now : ℕ) → is_reached now result ≡ has_expired now entry }
{
    if is_some_right(entry.grant.right) {
        entry.grant.until
    } else {
        None
    }
}

/// Whether the right of an entry has ended by a time.
fn has_expired(entry: Entry, now: u64) -> bool
    ensures { result ≡ has_expired now entry }
{
    match end_of(entry) {
        Some(end) => u64::from(end) <= now,
        None => false,
    }
}

/// An entry; where its right has ended by a time, its rule alone is left.
fn expired_entry(entry: Entry, now: u64) -> Entry
    ensures { result ≡ expired_entry now entry }
{
    if has_expired(entry, now) {
        Entry {
            grant: forbidden_by(entry.grant.rule),
            ..entry
        }
    } else {
        entry
    }
}

fn expire(entries: &mut [Entry], now: u64)
    ensures { entries.new ≡ map (expired_entry now) entries.old }
{
    for i in 0..entries.len() {
        entries[i] = expired_entry(entries[i], now);
    }
}

fn next_end(entries: &[Entry]) -> Option<u32>
    ensures { (now : ℕ) → is_reached now result ≡ list_any (has_expired now) entries.now }
{
    let mut end = None;
    for entry in entries {
        end = earlier(end, end_of(*entry));
    }
    end
}

fn first_expired(entries: &[Entry], now: u64) -> Option<Entry>
    ensures { result ≡ first_expired now entries.now }
{
    for entry in entries {
        if has_expired(*entry, now) {
            return Some(*entry);
        }
    }
    None
}
