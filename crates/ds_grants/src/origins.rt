//! From which addresses of a process something may have been shared, and which processes may have it.
ghost use Rattle.std.specs.Prelude.{◌≡◌, ◌≢◌, ◌==◌, ◌<◌, ℕ, true, false, [], length, position, slice_index_or, Some, None};
ghost use Rattle.ds_grants.specs.Inner.Origins.{Has, of_others, receivers_of, slot_of, AreSeen, AreApart};

use arrayvec::ArrayVec;
use std::alloc::AllocError;
use std::marker::Model;

/// How many addresses of a process are told apart: twice as many as it can have entries.
const MOST: usize = 512;

/// How many slots there are for addresses.
const SLOTS: usize = 512;

/// The set of all processes.
pub(crate) const EVERYONE: u128 = u128::MAX;

/// An address from which something may have been shared, and the processes that may have it, process
/// q by bit q.
#[derive(Clone, Copy)]
pub(crate) struct Origin {
    pub(crate) address: u32,
    pub(crate) receivers: u128,
}

/// Nothing at address 0.
impl Default for Origin {
    ghost is_default = { λ o. o ≡ record { address = 0; receivers = 0 } };

    fn default() -> Origin {
        Origin {
            address: 0,
            receivers: 0,
        }
    }
}

/// The addresses of a process from which something may have been shared, no two of them alike. Where
/// there was no room for one, something may have been shared from any other.
#[derive(Drop)]
pub(crate) struct Origins {
    known: ArrayVec<Origin, MOST>,
    /// For each slot one more than the place at which an address that has it came last, or 0 where none
    /// ever did: it stands there, unless it has gone or another that has the slot came since.
    places: [u16; SLOTS],
    overflowed: bool,
}

impl Model for Origins {
    ghost use Rattle.ds_grants.specs.Inner.Origins.{OriginsState, AreSeen, AreApart};

    ghost Value = { OriginsState };

    ghost view = { λ o. record { known = o.known.items; overflowed = o.overflowed } };

    ghost invariant = { λ o. AreSeen o.places o.known.items × AreApart o.known.items };
}

impl Clone for Origins {
    ghost is_clone = { λ x y. y ≡ x };

    fn clone(&self) -> Result<Self, AllocError> {
        let mut known = ArrayVec::new();
        known.try_extend_from_slice(self.known.as_slice()).unwrap();
        Ok(Origins {
            known,
            places: self.places,
            overflowed: self.overflowed,
        })
    }
}

impl Origins {
    /// None.
    pub(crate) fn none() -> Origins
        ensures { result ≡ record { known = []; overflowed = false } }
    {
        Origins {
            known: ArrayVec::new(),
            places: [0; SLOTS],
            overflowed: false,
        }
    }

    /// The processes that may have what was shared from an address.
    pub(crate) fn receivers(&self, addr: u32) -> u128
        ensures { result ≡ receivers_of self.now addr }
    {
        match find(self.known.as_slice(), &self.places, addr) {
            Some(i) => self.known[i].receivers,
            None => of_others(self.overflowed),
        }
    }

    /// Whether something may have been shared from any address.
    pub(crate) fn are_any(&self) -> bool
        ensures { result ≡ false → (a : ℕ) → receivers_of self.now a ≡ 0 }
    {
        if self.overflowed {
            return true;
        }
        !self.known.is_empty()
    }

    /// Whether there was no room for an address.
    pub(crate) fn has_overflowed(&self) -> bool
        ensures { result ≡ self.now.overflowed }
    {
        self.overflowed
    }

    /// From now on these processes may have what was shared from an address too.
    pub(crate) fn add(&mut self, addr: u32, receivers: u128)
        ensures added { (q : ℕ) → Has receivers q → Has (receivers_of self.new addr) q }
        ensures kept { (a q : ℕ) → Has (receivers_of self.old a) q
            → Has (receivers_of self.new a) q }
    {
        match find(self.known.as_slice(), &self.places, addr) {
            Some(i) => self.known[i].receivers |= receivers,
            None => self.append(addr, receivers),
        }
    }

    /// The processes that may have what was shared from an address. From now on nothing is known to have
    /// been shared from it.
    pub(crate) fn take(&mut self, addr: u32) -> u128
        ensures receivers { result ≡ receivers_of self.old addr }
        ensures others { (a q : ℕ) → a ≢ addr → Has (receivers_of self.old a) q
            → Has (receivers_of self.new a) q }
    {
        match find(self.known.as_slice(), &self.places, addr) {
            Some(i) => self.remove_at(addr, i),
            None => of_others(self.overflowed),
        }
    }

    /// Removes the address that stands at this place, into which the last one comes. The processes that may
    /// have what was shared from it are returned.
    fn remove_at(&mut self, addr: u32, place: usize) -> u128
        requires { position (λ o. o.address == addr) self.old.known ≡ Some place }
        ensures receivers { result ≡ receivers_of self.old addr }
        ensures others { (a q : ℕ) → a ≢ addr → Has (receivers_of self.old a) q
            → Has (receivers_of self.new a) q }
    {
        let last = self.known[self.known.len() - 1].address;
        self.places[slot_of(last)] = place as u16 + 1;
        self.known.swap_remove(place).receivers
    }

    /// Adds an address that isn't known yet.
    fn append(&mut self, addr: u32, receivers: u128)
        requires unknown { position (λ o. o.address == addr) self.old.known ≡ None }
        ensures added { (q : ℕ) → Has receivers q → Has (receivers_of self.new addr) q }
        ensures kept { (a q : ℕ) → Has (receivers_of self.old a) q
            → Has (receivers_of self.new a) q }
    {
        if self.overflowed {
            return;
        }
        if self.known.is_full() {
            self.overflowed = true;
        } else {
            self.places[slot_of(addr)] = self.known.len() as u16 + 1;
            self.known.push(Origin {
                address: addr,
                receivers,
            });
        }
    }
}

/// The slot of an address, by the number of its page.
fn slot_of(addr: u32) -> usize
    ensures value { result ≡ slot_of addr }
    ensures within { result < 512 }
{
    (addr / 4096) as usize % SLOTS
}

/// One more than the place at which an address that has the slot of this one came last, or 0.
fn place_after(places: &[u16], addr: u32) -> usize
    ensures { result ≡ slice_index_or places.now (slot_of addr) 1 }
{
    match places.get(slot_of(addr)) {
        Some(place) => *place as usize,
        None => 1,
    }
}

/// Whether an address is known at a place.
fn is_known_at(known: &[Origin], place: usize, addr: u32) -> bool
    ensures within { result ≡ true → place < length known.now }
    ensures same { result ≡ true
        → (slice_index_or known.now place (record { address = 0; receivers = 0 })).address ≡ addr }
{
    place < known.len() && known[place].address == addr
}

/// Where an address is known.
fn find(known: &[Origin], places: &[u16], addr: u32) -> Option<usize>
    requires seen { AreSeen places.now known.now }
    requires apart { AreApart known.now }
    ensures { result ≡ position (λ o. o.address == addr) known.now }
{
    let after = place_after(places, addr);
    if after == 0 {
        return None;
    }
    let place = after - 1;
    if is_known_at(known, place, addr) {
        return Some(place);
    }
    known.iter().position(|origin| origin.address == addr)
}

/// The processes that may have what was shared from an address that isn't known.
fn of_others(overflowed: bool) -> u128
    ensures { result ≡ of_others overflowed }
{
    if overflowed { EVERYONE } else { 0 }
}
