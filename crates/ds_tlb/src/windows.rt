//! Translations that are remembered.
ghost use Rattle.std.specs.Prelude.{◌≡◌, ◌+◌, ◌/◌, ◌%◌, ◌<◌, ◌^◌, Bool, List, All, IfSome, Some};
ghost use Rattle.ds_word.specs.Word.{word};
ghost use Rattle.ds_tlb.specs.declared.entry.Entry.{Entry};
ghost use Rattle.ds_tlb.specs.Inner.Frames.{base_of};
ghost use Rattle.ds_tlb.specs.Inner.Windows.{window_place, tag_of, rest_of, IsFound, Forgets, ForgetsBoth, AreRight};

use crate::entry::Entry;
use ds_isa::Size;
use ds_word::{PAGE_SIZE, wrapping_difference, wrapping_sum};

/// The number of windows.
const PLACES: usize = 64;

/// The first physical address beyond memory. Devices lie from there on.
const MEMORY_END: u32 = 0x80_0000;

/// The first page of the upper half of the addresses, of which no page is remembered.
const UPPER_HALF: u32 = 0x8_0000;

/// The tag of a window that remembers nothing: no page of an address space has it.
const NO_TAG: u32 = 0x400;

/// Windows, each of which remembers a page of an address space and how far its frame, which lies in
/// memory, is beyond it. The page is one of the lower half of the addresses. Its window is at the
/// place of the sum of its number and the address space's, so that address spaces with the same
/// pages don't take each other's windows, and it is known there by a tag, which begins with this
/// sum. The two lowest bits of a tag are clear, so that one comparison tells the page, the address
/// space, and that an address suits the size of its access.
#[derive(Debug, Drop)]
pub(crate) struct Windows {
    pub tags: [u32; PLACES],
    pub distances: [u32; PLACES],
    ghost whole: { All (λ tag. tag % 4 ≡ 0) tags },
}

impl Windows {
    /// Windows that remember nothing.
    pub fn none() -> Windows
        ensures { (store : Bool) → (entries : List Entry)
            → AreRight result.tags result.distances store entries }
    {
        Windows {
            tags: [NO_TAG; PLACES],
            distances: [0; PLACES],
        }
    }

    /// The place of an access of an address of an address space, if its page is remembered and the
    /// address suits its size.
    #[inline(always)]
    #[tactic(auto, using(crate::proofs::Frames::is_found))]
    pub fn place(&self, size: Size, address: u32, asid: u8) -> Option<u32>
        ensures { IfSome result
            (λ place. IsFound self.now.tags self.now.distances size address asid place) }
    {
        let key = key_of(size, address, asid);
        let window = place_by(key);
        if self.tags[window] == key {
            Some(wrapping_sum(address, self.distances[window]))
        } else {
            None
        }
    }

    /// Remembers the frame of a page of the lower half of the addresses where it lies in memory, in
    /// place of what its window had.
    pub fn remember(&mut self, vpn: u32, asid: u8, base: u32)
        ensures { (store : Bool) → (entries : List Entry)
            → base_of entries store vpn asid ≡ Some base
            → AreRight self.old.tags self.old.distances store entries
            → AreRight self.new.tags self.new.distances store entries }
    {
        if vpn < UPPER_HALF && base <= MEMORY_END - PAGE_SIZE as u32 {
            let place = window_place(vpn, asid);
            self.tags[place] = tag_of(vpn, asid);
            self.distances[place] = wrapping_difference(base, vpn * PAGE_SIZE as u32);
        }
    }

    /// Forgets what two entries answer for.
    #[inline(always)]
    pub fn forget(&mut self, was: &Entry, now: &Entry)
        ensures { ForgetsBoth was.now now.now
            self.old.tags self.old.distances self.new.tags self.new.distances }
    {
        self.forget_entry(was);
        self.forget_entry(now);
    }

    /// Forgets what an entry answers for: its page in its address space, or in every one.
    #[inline(always)]
    #[tactic(auto, using(crate::proofs::Frames::upper_forgets, crate::proofs::Frames::one_forgets))]
    fn forget_entry(&mut self, entry: &Entry)
        ensures { Forgets entry.now self.old.tags self.old.distances self.new.tags self.new.distances }
    {
        if entry.vpn >= UPPER_HALF {
            return;
        }
        if entry.g {
            self.forget_all();
        } else {
            self.tags[window_place(entry.vpn, entry.asid)] = NO_TAG;
        }
    }

    /// Forgets every page. It stays a call, so that it is not the common way.
    #[cold]
    #[inline(never)]
    fn forget_all(&mut self)
        ensures { (entry : Entry)
            → Forgets entry self.old.tags self.old.distances self.new.tags self.new.distances }
    {
        self.tags = [NO_TAG; PLACES];
    }
}

/// The place of the window of a page of an address space.
#[inline(always)]
fn window_place(vpn: u32, asid: u8) -> usize
    ensures value { result ≡ window_place vpn asid }
    ensures inside { result < 64 }
{
    (vpn as usize + asid as usize) % PLACES
}

/// What a page of an address space is known by.
#[inline(always)]
fn tag_of(vpn: u32, asid: u8) -> u32
    requires { vpn < 2 ^ 19 }
    ensures { result ≡ tag_of vpn asid }
{
    vpn * 0x1000 + u32::from(asid) * 0x1004
}

/// What an access is looked for by: the tag of its page, and the low bits of its address, which are
/// clear where it suits its size.
#[inline(always)]
fn key_of(size: Size, address: u32, asid: u8) -> u32
    ensures { result ≡ word (tag_of (address / 2 ^ 12) asid + rest_of size address) }
{
    let rest = match size {
        Size::Byte | Size::Part => 0,
        Size::Half => address % 2,
        Size::Word => address % 4,
    };
    wrapping_sum(address / 0x1000 * 0x1000 + rest, u32::from(asid) * 0x1004)
}

/// The place of the window that a key names.
#[inline(always)]
fn place_by(key: u32) -> usize
    ensures value { result ≡ key / 2 ^ 12 % 64 }
    ensures inside { result < 64 }
{
    (key >> 12) as usize % PLACES
}
