//! The numbers that processes have, and the next one to be handed out.
ghost use Rattle.std.specs.Prelude.{◌≡◌, ℕ, ◌<◌, ◌≤◌, ◌≢◌, nat_lt, if◌then◌else◌, None};
ghost use Rattle.ds_tlb.specs.Entries.{empty_entries};
ghost use Rattle.ds_asid.specs.Spaces.{AreApart, at_start, space_number, space_taken};
ghost use Rattle.ds_asid.specs.Inner.Spaces.{number_held, after_take, given_up};

use ds_tlb::{Entry, Lookaside};
use std::marker::Model;

/// The places for numbers: that of process p is p, and no process has the first.
const PLACES: usize = 101;

/// The address spaces that EntryHi can name. Number 0 is no process's.
const SPACES: u8 = 64;

/// The address space number of each process. Numbers are handed out from 1 to 63 in order; when all
/// are used up, every process loses its number and the whole buffer is flushed.
#[derive(Clone, Drop)]
pub struct Asids {
    numbers: [u8; PLACES],
    next: u8,
}

impl Model for Asids {
    ghost use Rattle.ds_asid.specs.Spaces.{Spaces, AreApart};

    ghost Value = { Spaces };

    ghost view = { λ a. record { numbers = a.numbers; next = a.next } };

    ghost invariant = { λ a. AreApart (record { numbers = a.numbers; next = a.next }) };
}

impl Asids {
    /// No process has a number.
    #[tactic(auto, using(crate::proofs::Apart::start_apart))]
    pub fn new() -> Asids
        ensures { result ≡ at_start }
    {
        Asids {
            numbers: [0; PLACES],
            next: 1,
        }
    }

    /// The number of a process, if it has one.
    pub fn of(&self, process: u32) -> Option<u8>
        ensures value { result ≡ number_held self.now process }
        ensures apart { AreApart self.now }
    {
        match self.numbers.get(process as usize) {
            Some(&0) | None => None,
            Some(&number) => Some(number),
        }
    }

    /// Every process loses its number, and the whole buffer is flushed: slot i then holds page
    /// 80000 + i (hexadecimal), and all else of it is zero. Random stays where it is.
    pub fn flush<L: Lookaside>(&mut self, tlb: &mut L)
        ensures value { self.new ≡ at_start }
        ensures entries { L.entries tlb.new ≡ empty_entries L.SLOTS }
        ensures random { L.random_place tlb.new ≡ L.random_place tlb.old }
    {
        *self = Asids::new();
        empty(tlb);
    }

    /// Hands out the next number to a process that has none. Where all are used up, every process
    /// loses its number first, and the buffer is flushed: slot i then holds page 80000 + i
    /// (hexadecimal), and all else of it is zero.
    #[tactic(auto, using(crate::proofs::Apart::start_apart, crate::proofs::Apart::none_at_start))]
    pub fn take<L: Lookaside>(&mut self, process: u32, tlb: &mut L) -> u8
        requires process { process ≤ 100 }
        requires none { number_held self.old process ≡ None }
        ensures value { self.new ≡ after_take self.old process }
        ensures number { result ≡ space_number self.new process }
        ensures range { (1 ≤ result) × (result < 64) }
        ensures buffer { L.entries tlb.new
            ≡ (if nat_lt self.old.next 64 then L.entries tlb.old else empty_entries L.SLOTS) }
        ensures random { L.random_place tlb.new ≡ L.random_place tlb.old }
        ensures apart { AreApart self.new }
        ensures fresh { self.old.next < 64 → (q : ℕ) → space_number self.old q ≢ result }
    {
        if self.next == SPACES {
            self.flush(tlb);
        }
        self.hand_out(process)
    }

    /// Hands out the next number, where one is left.
    fn hand_out(&mut self, process: u32) -> u8
        requires process { process ≤ 100 }
        requires left { self.old.next < 64 }
        ensures value { self.new ≡ space_taken self.old process }
        ensures number { result ≡ self.old.next }
        ensures held { result ≡ space_number self.new process }
        ensures range { 1 ≤ result }
        ensures apart { AreApart self.new }
        ensures fresh { (q : ℕ) → space_number self.old q < result }
    {
        let number = self.next;
        self.numbers[process as usize] = number;
        self.next += 1;
        number
    }

    /// Takes its number from a process, where it has one. That number isn't handed out again before
    /// the next flush.
    #[tactic(auto, using(crate::proofs::Apart::given_up_apart, crate::proofs::Apart::given_up_none, crate::proofs::Apart::held_within))]
    pub fn give_up(&mut self, process: u32)
        ensures value { self.new ≡ given_up self.old process }
        ensures apart { AreApart self.new }
    {
        let Some(_) = self.of(process) else {
            return;
        };
        self.numbers[process as usize] = 0;
    }
}

/// Makes the whole buffer what it is at the start.
#[inline(never)]
fn empty<L: Lookaside>(tlb: &mut L)
    ensures entries { L.entries tlb.new ≡ empty_entries L.SLOTS }
    ensures random { L.random_place tlb.new ≡ L.random_place tlb.old }
{
    for slot in 0..L::SLOTS {
        tlb.write(slot, Entry::empty(slot));
    }
}
