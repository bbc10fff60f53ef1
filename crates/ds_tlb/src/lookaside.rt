//! What every translation lookaside buffer does, whichever way it is searched.
ghost use Rattle.std.specs.Prelude.{◌≡◌, ℕ, ◌-◌, ◌/◌, ◌%◌, ◌^◌, ◌<◌, ◌≤◌, ◌↔◌, true, All, List, length, slice_get, slice_set, IsTrue, IsOk, IfOk, IsNone, IfSome, not};
ghost use Rattle.ds_isa.specs.Access.{is_store, is_aligned};
ghost use Rattle.ds_tlb.specs.Entries.{matches, find, empty_entries, random_after, index_word};
ghost use Rattle.ds_tlb.specs.Inner.Entries.{passed};
ghost use Rattle.ds_tlb.specs.Inner.Frames.{base_of};
ghost use Rattle.ds_tlb.specs.Singles.{IsSingle};
ghost use Rattle.ds_tlb.specs.Inner.Singles.{IsOnlyMatch, MatchesAt};

use crate::entry::Entry;
use ds_isa::{Kind, Size};
use thiserror::Error;

/// Random can't start at a wired slot, nor past the last slot.
#[derive(Clone, Copy, Debug, PartialEq, Eq, Error)]
#[error("Random starts outside the slots that it may name")]
pub struct BadRandom;

impl BadRandom {
    /// The number of this refusal.
    pub fn number(self) -> u32
        ensures { result ≡ 1 }
    {
        1
    }
}

/// A buffer of `SLOTS` entries. Random names one of its slots from `WIRED` on.
pub trait Lookaside: Drop {
    ghost use Rattle.ds_tlb.specs.declared.entry.Entry.{Entry};

    ghost SLOTS: { ℕ };

    ghost WIRED: { ℕ };

    ghost entries: { Self → List Entry };

    ghost random_place: { Self → ℕ };

    /// The number of slots.
    const SLOTS: usize;

    /// The number of the first slots, which Random never names.
    const WIRED: usize;

    /// A buffer whose slot i holds page 80000 + i (hexadecimal), and whose Random is `start`;
    /// refused exactly where Random may not be `start`.
    fn new(start: usize) -> Result<Self, BadRandom>
    where
        Self: Sized,
        requires some_wired { 1 ≤ WIRED }
        requires some_free { WIRED < SLOTS }
        requires few { SLOTS ≤ 64 }
        ensures made { IsOk result ↔ (WIRED ≤ start) × (start < SLOTS) }
        ensures empty { IfOk result (λ buffer. entries buffer ≡ empty_entries SLOTS) }
        ensures single { IfOk result (λ buffer. IsSingle (entries buffer)) }
        ensures random { IfOk result (λ buffer. random_place buffer ≡ start) };

    /// The lowest slot whose entry matches.
    fn find(&self, vpn: u32, asid: u8) -> Option<usize>
        ensures lowest { result ≡ find (entries self.now) vpn asid }
        ensures in_range { IfSome result (λ slot. slot < SLOTS) }
        ensures found { IfSome result (λ slot. MatchesAt vpn asid (entries self.now) slot) }
        ensures only { IsSingle (entries self.now)
            → IfSome result (λ slot. IsOnlyMatch vpn asid (entries self.now) slot) }
        ensures missed { IsNone result
            ↔ All (λ e. IsTrue (not (matches vpn asid e))) (entries self.now) };

    /// The entry of the slot.
    fn read(&self, slot: usize) -> Entry
        requires { slot < SLOTS }
        ensures { slice_get (entries self.now) slot ≡ Some result };

    /// Replaces the entry of the slot.
    fn write(&mut self, slot: usize, entry: Entry)
        requires { slot < SLOTS }
        ensures written { entries self.new ≡ slice_set (entries self.old) slot entry }
        ensures random { random_place self.new ≡ random_place self.old };

    /// Replaces the entry of the slot that Random names, and answers that slot.
    fn write_random(&mut self, entry: Entry) -> usize
        ensures place { result ≡ random_place self.old }
        ensures low { WIRED ≤ result }
        ensures high { result < SLOTS }
        ensures written { entries self.new ≡ slice_set (entries self.old) result entry }
        ensures random { random_place self.new ≡ random_place self.old };

    /// The slot that Random names.
    fn random(&self) -> usize
        ensures place { result ≡ random_place self.now }
        ensures low { WIRED ≤ result }
        ensures high { result < SLOTS };

    /// Counts Random down by one; from the first slot that isn't wired it goes to the last slot.
    fn tick(&mut self)
        ensures same { entries self.new ≡ entries self.old }
        ensures random { random_place self.new ≡ random_after SLOTS WIRED (random_place self.old) };

    /// Counts Random down so many times.
    fn pass(&mut self, count: u32)
        ensures same { entries self.new ≡ entries self.old }
        ensures random { random_place self.new ≡ passed SLOTS WIRED count (random_place self.old) }
    {
        for _ in 0..count {
            self.tick();
        }
    }

    /// The Index word of a probe: the lowest matching slot in bits 13 to 8, or 80000000
    /// (hexadecimal) where no entry matches.
    fn probe(&self, vpn: u32, asid: u8) -> u32
        ensures { result ≡ index_word (find (entries self.now) vpn asid) };

    /// The place in memory of an access of this kind and size in an address space, where the buffer
    /// remembers its page and the address suits its size. What is remembered is a page of the lower
    /// half of the addresses, and its frame lies in memory, the first 8 MiB, and never in a device.
    #[inline(always)]
    fn place(&self, kind: Kind, size: Size, address: u32, asid: u8) -> Option<u32>
        ensures aligned { IfSome result (λ place. is_aligned size address ≡ true) }
        ensures lower { IfSome result (λ place. address < 2 ^ 31) }
        ensures base { IfSome result (λ place.
            base_of (entries self.now) (is_store kind) (address / 2 ^ 12) asid
            ≡ Some (place - address % 2 ^ 12)) }
        ensures offset { IfSome result (λ place. place % 2 ^ 12 ≡ address % 2 ^ 12) }
        ensures inside { IfSome result (λ place. place < 2 ^ 23) }
    {
        None
    }

    /// The first physical address of the frame that a page of an address space has, where its entry
    /// is valid and, for a store, dirty. The buffer may remember what it finds.
    fn base(&mut self, kind: Kind, vpn: u32, asid: u8) -> Option<u32>
        ensures base { result ≡ base_of (entries self.old) (is_store kind) vpn asid }
        ensures whole { IfSome result (λ base. base % 4096 ≡ 0) }
        ensures same { entries self.new ≡ entries self.old }
        ensures random { random_place self.new ≡ random_place self.old }
    {
        match self.find(vpn, asid) {
            Some(slot) => self.read(slot).base_for(kind),
            None => None,
        }
    }

    /// The number of entries.
    ghost size: { (x : Self) → length (entries x) ≡ SLOTS };

    /// Random names no wired slot.
    ghost low: { (x : Self) → WIRED ≤ random_place x };

    /// Random names a slot.
    ghost high: { (x : Self) → random_place x < SLOTS };

    /// Some slot is wired.
    ghost some_wired: { (x : Self) → 1 ≤ WIRED };

    /// A slot's number has six bits.
    ghost few: { (x : Self) → SLOTS ≤ 64 };
}

/// The Index word for what a search found.
#[inline(always)]
pub(crate) fn index_word_of(found: Option<usize>) -> u32
    requires { IfSome found (λ slot. slot < 64) }
    ensures { result ≡ index_word found }
{
    match found {
        Some(slot) => (slot as u32) << 8,
        None => 0x8000_0000,
    }
}
