//! A buffer that is searched from its first slot on.
ghost use Rattle.std.specs.Prelude.{◌≡◌, ◌<◌, ◌≤◌, length};
ghost use Rattle.ds_tlb.specs.Entries.{find};

use crate::entry::{Entry, empty_entries};
use crate::lookaside::{BadRandom, Lookaside, index_word_of};

/// A buffer of `N` slots, the first `WIRED` of them wired, that is searched from its first slot on.
#[derive(Debug, Drop)]
pub struct Tlb<const N: usize, const WIRED: usize> {
    entries: [Entry; N],
    random: usize,
    ghost size: { length entries ≡ N },
    ghost low: { WIRED ≤ random },
    ghost high: { random < N },
    ghost some_wired: { 1 ≤ WIRED },
    ghost few: { N ≤ 64 },
}

impl<const N: usize, const WIRED: usize> Lookaside for Tlb<N, WIRED> {
    ghost SLOTS = { N };

    ghost WIRED = { WIRED };

    ghost entries = { λ t. t.entries };

    ghost random_place = { λ t. t.random };

    ghost size = { λ t. t.size };

    ghost low = { λ t. t.low };

    ghost high = { λ t. t.high };

    ghost some_wired = { λ t. t.some_wired };

    ghost few = { λ t. t.few };

    const SLOTS: usize = N;

    const WIRED: usize = WIRED;

    #[tactic(auto, using(crate::proofs::Matches::empty_entries_are_single))]
    fn new(start: usize) -> Result<Self, BadRandom> {
        if start < WIRED || start >= N {
            return Err(BadRandom);
        }
        Ok(Tlb {
            entries: empty_entries(),
            random: start,
        })
    }

    #[inline(always)]
    fn find(&self, vpn: u32, asid: u8) -> Option<usize> {
        first_match(&self.entries, vpn, asid)
    }

    #[inline(always)]
    fn read(&self, slot: usize) -> Entry {
        self.entries[slot]
    }

    #[inline(always)]
    fn write(&mut self, slot: usize, entry: Entry) {
        self.entries[slot] = entry;
    }

    fn write_random(&mut self, entry: Entry) -> usize {
        self.entries[self.random] = entry;
        self.random
    }

    #[inline(always)]
    fn random(&self) -> usize {
        self.random
    }

    #[inline(always)]
    fn tick(&mut self) {
        self.random = if self.random == WIRED {
            N - 1
        } else {
            self.random - 1
        };
    }

    fn probe(&self, vpn: u32, asid: u8) -> u32 {
        index_word_of(self.find(vpn, asid))
    }
}

/// The first of the entries that matches.
#[inline(always)]
fn first_match(entries: &[Entry], vpn: u32, asid: u8) -> Option<usize>
    ensures { result ≡ find entries.now vpn asid }
{
    entries.iter().position(|entry| entry.matches(vpn, asid))
}
