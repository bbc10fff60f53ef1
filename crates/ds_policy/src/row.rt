//! The entries of one process.
ghost use Rattle.std.specs.Prelude.{◌≡◌, ◌==◌, ◌<◌, ◌≤◌, position, [], IsNone, length, filter, not, remove, MatchOption, None, Some, slice_index_or};
ghost use Rattle.ds_policy.specs.Pages.{found, put};
ghost use Rattle.ds_policy.specs.Grants.{no_grant};
ghost use Rattle.ds_policy.specs.Inner.Marks.{no_entry_there};

use crate::grant::{Entry, Grant, Right};
use arrayvec::ArrayVec;
use std::alloc::AllocError;
use std::marker::Model;

/// How many entries a process can have.
pub(crate) const MOST: usize = 256;

/// Nothing at address 0.
impl Default for Entry {
    ghost is_default = { λ e. e ≡ record { address = 0; grant = no_grant } };

    fn default() -> Entry {
        Entry {
            address: 0,
            grant: Grant {
                right: Right::Nothing,
                page: None,
                rule: 0,
                give: false,
                giver: 0,
                parent: None,
                until: None,
            },
        }
    }
}

/// The entries of a process in the order in which they came, no more than 256.
#[derive(Drop)]
pub(crate) struct Row {
    pub(crate) entries: ArrayVec<Entry, MOST>,
}

impl Model for Row {
    ghost use Rattle.std.specs.Prelude.{List};
    ghost use Rattle.ds_policy.specs.declared.grant.Entry.{Entry};

    ghost Value = { List Entry };

    ghost view = { λ r. r.entries.items };
}

impl Clone for Row {
    ghost is_clone = { λ x y. y ≡ x };

    fn clone(&self) -> Result<Self, AllocError> {
        let mut entries = ArrayVec::new();
        entries
            .try_extend_from_slice(self.entries.as_slice())
            .unwrap();
        Ok(Row { entries })
    }
}

impl Row {
    /// No entries.
    pub(crate) fn new() -> Row
        ensures { result ≡ [] }
    {
        Row {
            entries: ArrayVec::new(),
        }
    }

    /// How many entries there are.
    pub(crate) fn len(&self) -> usize
        ensures exact { result ≡ length self.now }
        ensures fits { length self.now ≤ 256 }
    {
        self.entries.len()
    }

    /// The entries.
    pub(crate) fn entries(&self) -> &[Entry]
        ensures all { result.now ≡ self.now }
        ensures few { length result.now ≤ 256 }
    {
        self.entries.as_slice()
    }

    /// What is granted at an address.
    pub(crate) fn get(&self, address: u32) -> Option<Grant>
        ensures { result ≡ found self.now address }
    {
        grant_at(self.entries.as_slice(), address)
    }

    /// Where the entry of an address stands.
    pub(crate) fn find(&self, address: u32) -> Option<usize>
        ensures { MatchOption result (found self.now address ≡ None)
            (λ i. (found self.now address ≡ Some (slice_index_or self.now i no_entry_there).grant)
            × (i < length self.now) × (i < 256)) }
    {
        place(self.entries.as_slice(), address)
    }

    /// Puts an entry in the place of the one at its address, or else at the end.
    pub(crate) fn set(&mut self, address: u32, grant: Grant)
        requires { IsNone (found self.old address) → length self.old < 256 }
        ensures { self.new ≡ put self.old address grant }
    {
        match place(self.entries.as_slice(), address) {
            Some(place) => self.set_at(place, address, grant),
            None => self.append(address, grant),
        }
    }

    /// Puts an entry in the place of the one at its address, which stands at this place, the first at 0.
    pub(crate) fn set_at(&mut self, place: usize, address: u32, grant: Grant)
        requires { position (λ e. e.address == address) self.old ≡ Some place }
        ensures { self.new ≡ put self.old address grant }
    {
        self.entries[place] = Entry { address, grant };
    }

    /// Puts an entry at the end, where none is at its address.
    pub(crate) fn append(&mut self, address: u32, grant: Grant)
        requires new { IsNone (found self.old address) }
        requires room { length self.old < 256 }
        ensures { self.new ≡ put self.old address grant }
    {
        self.entries.push(Entry { address, grant });
    }

    /// Removes the entry at a place, the first at 0.
    pub(crate) fn remove_at(&mut self, place: usize)
        requires { place < length self.old }
        ensures { self.new ≡ remove self.old place }
    {
        self.entries.remove(place);
    }

    /// Removes the entry at an address.
    pub(crate) fn remove(&mut self, address: u32)
        ensures { self.new ≡ filter (λ e. not (e.address == address)) self.old }
    {
        self.entries.retain(|e| e.address != address);
    }
}

/// Where the entry of an address is.
fn place(entries: &[Entry], address: u32) -> Option<usize>
    ensures { result ≡ position (λ e. e.address == address) entries.now }
{
    entries.iter().position(|e| e.address == address)
}

fn grant_at(entries: &[Entry], address: u32) -> Option<Grant>
    ensures { result ≡ found entries.now address }
{
    for entry in entries {
        if entry.address == address {
            return Some(entry.grant);
        }
    }
    None
}
