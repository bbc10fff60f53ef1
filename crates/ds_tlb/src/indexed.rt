//! A buffer that is searched by an index from virtual pages to slots.
ghost use Rattle.std.specs.Prelude.{◌≡◌, ◌+◌, ◌-◌, ◌<◌, ◌≤◌, ◌%◌, length, IfSome, true, false};
ghost use Rattle.std.proofs.Math.Nat.{le-add_right};
ghost use Rattle.ds_isa.specs.Access.{is_store};
ghost use Rattle.ds_tlb.specs.Inner.Frames.{base_of, entry_in};
ghost use Rattle.ds_tlb.specs.Entries.{find, empty_entries};
ghost use Rattle.ds_tlb.specs.Inner.Buckets.{bucket_of, IsBucketOf, IsIndexOf};
ghost use Rattle.ds_tlb.specs.Inner.Windows.{AreRight};

use crate::entry::{Entry, empty_entries};
use crate::lookaside::{BadRandom, Lookaside, index_word_of};
use crate::windows::Windows;
use ds_isa::{Kind, Size};

/// The number of buckets, which the low six bits of a virtual page number tell apart, and whether
/// it lies in the upper half of the addresses.
const BUCKETS: usize = 128;

/// A buffer of `N` slots, the first `WIRED` of them wired, that is searched by an index: for each
/// bucket of virtual pages the set of its slots, slot i as bit i.
#[derive(Debug, Drop)]
pub struct Indexed<const N: usize, const WIRED: usize> {
    entries: [Entry; N],
    buckets: [u64; BUCKETS],
    // How far Random is above the first slot that isn't wired.
    above: usize,
    // Pages that a search found, for each kind of access. A write forgets what its entries answer for.
    code: Windows,
    loads: Windows,
    stores: Windows,
    ghost size: { length entries ≡ N },
    ghost high: { WIRED + above < N },
    ghost some_wired: { 1 ≤ WIRED },
    ghost few: { N ≤ 64 },
    ghost indexed: { IsIndexOf buckets entries },
    ghost code_right: { AreRight code.tags code.distances false entries },
    ghost loads_right: { AreRight loads.tags loads.distances false entries },
    ghost stores_right: { AreRight stores.tags stores.distances true entries },
}

impl<const N: usize, const WIRED: usize> Lookaside for Indexed<N, WIRED> {
    ghost SLOTS = { N };

    ghost WIRED = { WIRED };

    ghost entries = { λ t. t.entries };

    ghost random_place = { λ t. WIRED + t.above };

    ghost size = { λ t. t.size };

    ghost low = { λ t. le-add_right WIRED t.above };

    ghost high = { λ t. t.high };

    ghost some_wired = { λ t. t.some_wired };

    ghost few = { λ t. t.few };

    const SLOTS: usize = N;

    const WIRED: usize = WIRED;

    #[tactic(auto, using(crate::proofs::Matches::empty_entries_are_single))]
    fn new(start: usize) -> Result<Self, BadRandom> {
        if start < WIRED || start >= N {
            return Err(BadRandom);
        }
        Ok(Indexed {
            entries: empty_entries(),
            buckets: empty_buckets(N),
            above: start - WIRED,
            code: Windows::none(),
            loads: Windows::none(),
            stores: Windows::none(),
        })
    }

    #[inline(always)]
    fn find(&self, vpn: u32, asid: u8) -> Option<usize> {
        first_match(&self.entries, self.buckets[bucket_of(vpn)], vpn, asid)
    }

    #[inline(always)]
    fn read(&self, slot: usize) -> Entry {
        self.entries[slot]
    }

    #[inline(always)]
    fn write(&mut self, slot: usize, entry: Entry) {
        let was = self.entries[slot];
        self.buckets[bucket_of(was.vpn)] &= !(1 << slot);
        self.buckets[bucket_of(entry.vpn)] |= 1 << slot;
        self.code.forget(&was, &entry);
        self.loads.forget(&was, &entry);
        self.stores.forget(&was, &entry);
        self.entries[slot] = entry;
    }

    fn write_random(&mut self, entry: Entry) -> usize {
        let slot = self.random();
        self.write(slot, entry);
        self.remember_for_all(entry.vpn, entry.asid);
        slot
    }

    #[inline(always)]
    fn random(&self) -> usize {
        WIRED + self.above
    }

    #[inline(always)]
    fn tick(&mut self) {
        // Counted down first, and mended where it was the last: two instructions, as a rule.
        let (above, passed) = self.above.overflowing_sub(1);
        self.above = above;
        if passed {
            start_over(&mut self.above, N - 1 - WIRED);
        }
    }

    #[inline(always)]
    #[tactic(auto, using(crate::proofs::Passed::passed_above, crate::proofs::Passed::passed_round))]
    fn pass(&mut self, count: u32) {
        match self.above.checked_sub(count as usize) {
            Some(above) => self.above = above,
            None => self.above = gone_round(self.above, count, N - WIRED),
        }
    }

    fn probe(&self, vpn: u32, asid: u8) -> u32 {
        index_word_of(self.find(vpn, asid))
    }

    #[inline(always)]
    #[tactic(auto, using(crate::proofs::Frames::found_lower, crate::proofs::Frames::found_base, crate::proofs::Frames::found_offset, crate::proofs::Frames::found_inside))]
    fn place(&self, kind: Kind, size: Size, address: u32, asid: u8) -> Option<u32> {
        match kind {
            Kind::Fetch => self.code.place(size, address, asid),
            Kind::Load => self.loads.place(size, address, asid),
            Kind::Store => self.stores.place(size, address, asid),
        }
    }

    fn base(&mut self, kind: Kind, vpn: u32, asid: u8) -> Option<u32> {
        let base = self.searched(kind, vpn, asid)?;
        match kind {
            Kind::Fetch => self.code.remember(vpn, asid, base),
            Kind::Load => self.loads.remember(vpn, asid, base),
            Kind::Store => self.stores.remember(vpn, asid, base),
        }
        Some(base)
    }
}

impl<const N: usize, const WIRED: usize> Indexed<N, WIRED> {
    /// After a refill fills its page's windows for the next access: loads, and stores where it may be
    /// stored to, else fetches.
    #[inline(always)]
    fn remember_for_all(&mut self, vpn: u32, asid: u8)
        ensures same { self.new.entries ≡ self.old.entries }
        ensures random { self.new.above ≡ self.old.above }
    {
        let Some(entry) = self.entry(vpn, asid) else {
            return;
        };
        if let Some(base) = entry.base_for(Kind::Store) {
            self.stores.remember(vpn, asid, base);
            self.loads.remember(vpn, asid, base);
        } else if let Some(base) = entry.base_for(Kind::Load) {
            self.code.remember(vpn, asid, base);
            self.loads.remember(vpn, asid, base);
        }
    }

    /// The entry that answers for a page.
    #[inline(always)]
    fn entry(&self, vpn: u32, asid: u8) -> Option<Entry>
        ensures { result ≡ entry_in self.now.entries (find self.now.entries vpn asid) }
    {
        match first_match(&self.entries, self.buckets[bucket_of(vpn)], vpn, asid) {
            Some(slot) => Some(self.entries[slot]),
            None => None,
        }
    }

    /// Searches for a page.
    fn searched(&self, kind: Kind, vpn: u32, asid: u8) -> Option<u32>
        ensures base { result ≡ base_of self.now.entries (is_store kind) vpn asid }
        ensures whole { IfSome result (λ base. base % 4096 ≡ 0) }
    {
        match self.entry(vpn, asid) {
            Some(entry) => entry.base_for(kind),
            None => None,
        }
    }
}

/// A count begins anew. It stays a call, so that it is not the common way.
#[cold]
#[inline(never)]
fn start_over(count: &mut usize, top: usize)
    ensures { count.new ≡ top }
{
    *count = top;
}

/// How far a count that began at `above` is above the first of so many places, after so many
/// ticks, which took it round at least once. It stays a call, so that it is not the common way.
#[cold]
#[inline(never)]
fn gone_round(above: usize, ticks: u32, places: usize) -> usize
    requires few { above < places }
    requires past { above < ticks }
    ensures { result ≡ places - 1 - (ticks - above - 1) % places }
{
    places - 1 - (ticks as usize - above - 1) % places
}

/// The bucket that a virtual page falls into.
#[inline(always)]
#[tactic(auto, unfolding(crate::specs::Inner::Buckets::bucket_of))]
fn bucket_of(vpn: u32) -> usize
    ensures value { result ≡ bucket_of vpn }
    ensures range { result < 128 }
{
    let low = (vpn % 64) as usize;
    if vpn < 0x8_0000 { low + 64 } else { low }
}

/// The index of the entries that a buffer of so many slots starts with.
fn empty_buckets(slots: usize) -> [u64; BUCKETS]
    requires { slots ≤ 64 }
    ensures { IsIndexOf result (empty_entries slots) }
{
    let mut buckets = [0; BUCKETS];
    for slot in 0..slots {
        buckets[slot] = 1 << slot;
    }
    buckets
}

/// The lowest match among the slots of the page's bucket.
#[inline(always)]
fn first_match(entries: &[Entry], bucket: u64, vpn: u32, asid: u8) -> Option<usize>
    requires few { length entries.now ≤ 64 }
    requires bucket { IsBucketOf bucket (bucket_of vpn) entries.now }
    ensures { result ≡ find entries.now vpn asid }
{
    let mut rest = bucket;
    while rest != 0 {
        let slot = rest.trailing_zeros() as usize;
        if entries[slot].matches(vpn, asid) {
            return Some(slot);
        }
        rest &= !(1 << slot);
    }
    None
}
