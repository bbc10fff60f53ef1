//! Addresses at which a run ahead ends early.
ghost use Rattle.std.specs.Prelude.{◌≡◌, ◌&&◌, not, replicate, false, true};
ghost use Rattle.ds_ahead.specs.Inner.Stops.{mark_of, may_hold, marked};

use std::marker::Model;

/// The number of words of a page.
const PAGE_WORDS: usize = 1024;

/// A set of addresses of instructions. Those of words with the same place in a page share a mark,
/// so that one may seem to be in it that was not added.
#[derive(Drop)]
pub struct Stops {
    marks: [bool; PAGE_WORDS],
}

impl Model for Stops {
    ghost use Rattle.std.specs.Prelude.{Bool, List};

    ghost Value = { List Bool };

    ghost view = { λ stops. stops.marks };
}

/// The mark of an address.
#[inline(always)]
fn mark_of(address: u32) -> usize
    ensures value { result ≡ mark_of address }
{
    address as usize / 4 % PAGE_WORDS
}

impl Stops {
    /// No address is in it.
    pub fn new() -> Stops
        ensures { result ≡ replicate 1024 false }
    {
        Stops {
            marks: [false; PAGE_WORDS],
        }
    }

    /// An address more is in it.
    pub fn add(&mut self, address: u32)
        ensures { self.new ≡ marked self.old address }
    {
        self.marks[mark_of(address)] = true;
    }

    /// Whether an address may be in it.
    #[inline(always)]
    pub fn may_hold(&self, address: u32) -> bool
        ensures { result ≡ may_hold self.now address }
    {
        self.marks[mark_of(address)]
    }

    /// Whether a run is to end in front of an instruction at an address, in a slot or in none: where
    /// the address may be in it, and in no slot.
    #[inline(always)]
    pub(crate) fn end(&self, address: u32, slot: bool) -> bool
        ensures { result ≡ may_hold self.now address && not slot }
    {
        self.may_hold(address) && !slot
    }
}
