//! What is known of each place of a page.
ghost use Rattle.std.specs.Prelude.{◌≡◌, ◌≢◌, ℕ, ◌+◌, ◌/◌, ◌<◌, ◌≤◌, true, false};
ghost use Rattle.ds_pages.specs.Inner.Does.{steps, is_known, is_branch, has_slot};
ghost use Rattle.ds_pages.specs.Inner.Turn.{first_of, second_of};
ghost use Rattle.ds_pages.specs.Inner.Places.{does_at, turn_at, fields_at, fields_in, fields_of, length_at, target_at, done_at, is_left, stays, offset_of, known_at, FitsAt, SameAt};

use crate::does::Does;
use crate::operation::{Operation, OperationKind};
use crate::place::{NOWHERE, Place};
use crate::turn::Stride;
use ds_word::wrapping_sum;

/// The number of places of a page.
pub(crate) const PLACES: usize = 1024;

/// What is known of each place: its operation, what is done there, and in one turn, the steps from there
/// to the end of its block, and where a branch leads. Nothing is known of the place after the last one.
#[derive(Drop)]
pub(crate) struct Places {
    places: [Place; 1025],
    turns: [Stride; 1025],
    kinds: [OperationKind; 1025],
    lengths: [u16; 1025],
    targets: [u16; PLACES],
}

/// Whether a branch at this place with this distance leads to a word of its page.
fn stays(i: usize, immediate: u32) -> bool
    requires { i < 1024 }
    ensures { result ≡ stays i immediate }
{
    let offset = wrapping_sum(4 * i as u32, immediate);
    offset % 4 == 0 && offset < 4096
}

impl Places {
    /// Nothing is known of any place.
    pub fn new() -> Places
        ensures unknown { (k : ℕ) → known_at result k ≡ false }
        ensures other { (k : ℕ) → (fields_at result k).kind ≡ OperationKind.Other }
        ensures fits { (k : ℕ) → k ≤ 1024 → FitsAt result k }
    {
        Places {
            places: [NOWHERE; 1025],
            turns: [Stride::Unknown; 1025],
            kinds: [OperationKind::Other; 1025],
            lengths: [0; 1025],
            targets: [0; PLACES],
        }
    }

    /// What is done at a place.
    #[inline(always)]
    pub fn does(&self, i: usize) -> Does
        requires { i ≤ 1024 }
        ensures { result ≡ does_at self.now i }
    {
        self.places[i].does
    }

    /// What is done at a place in one turn.
    #[inline(always)]
    pub fn turn(&self, i: usize) -> Stride
        requires { i ≤ 1024 }
        ensures { result ≡ turn_at self.now i }
    {
        self.turns[i]
    }

    /// Whether the word at a place was decoded since it came there.
    #[inline(always)]
    pub fn is_known(&self, i: usize) -> bool
        requires { i ≤ 1024 }
        ensures { result ≡ known_at self.now i }
    {
        self.does(i).is_known()
    }

    /// The steps from a place to the end of its block.
    #[inline(always)]
    pub fn length(&self, i: usize) -> u16
        requires { i ≤ 1024 }
        ensures { result ≡ length_at self.now i }
    {
        self.lengths[i]
    }

    /// The place that a branch at a place leads to.
    #[inline(always)]
    pub fn target(&self, i: usize) -> u16
        requires { i < 1024 }
        ensures { result ≡ target_at self.now i }
    {
        self.targets[i]
    }

    /// The kind of the operation at a place.
    #[inline(always)]
    pub fn kind(&self, i: usize) -> OperationKind
        requires { i < 1024 }
        ensures { result ≡ (fields_at self.now i).kind }
    {
        self.kinds[i]
    }

    /// What the operation at a place has, with this kind.
    #[inline(always)]
    pub fn operation(&self, i: usize, kind: OperationKind) -> Operation
        requires { i < 1024 }
        ensures { fields_of result ≡ record (fields_at self.now i) { kind = kind } }
    {
        let place = &self.places[i];
        Operation {
            kind,
            to: place.to,
            first: place.first,
            second: place.second,
            immediate: place.immediate,
        }
    }

    /// Whether the operation at a place, which is `does` alone, is left.
    fn is_left(&self, i: usize, does: Does) -> bool
        requires { i < 1024 }
        ensures { result ≡ is_left does i (fields_at self.now i) (fields_at self.now (i + 1)) }
    {
        let place = &self.places[i];
        let next = &self.places[i + 1];
        let to = place.to.number();
        let late = does.is_load() && (to == next.first.number() || to == next.second.number());
        let last = does.has_slot() && i >= 1023;
        late || last || (does.is_branch() && !stays(i, place.immediate))
    }

    /// What is done at a place.
    fn done(&self, i: usize) -> Does
        requires { i < 1024 }
        ensures value { result ≡ done_at self.now i }
        ensures known { is_known result ≡ true }
        ensures slot { has_slot result ≡ true → i < 1023 }
        ensures stays { is_branch result ≡ true → stays i (fields_at self.now i).immediate ≡ true }
    {
        let does = Does::of(self.kind(i));
        if self.is_left(i, does) {
            Does::Left
        } else {
            does
        }
    }

    /// The place that a branch at this place leads to.
    fn target_of(&self, i: usize, does: Does) -> u16
        requires inside { i < 1024 }
        requires stays { is_branch does ≡ true → stays i (fields_at self.now i).immediate ≡ true }
        ensures { is_branch does ≡ true
            → result ≡ offset_of i (fields_at self.now i).immediate / 4 }
    {
        if does.is_branch() {
            (wrapping_sum(4 * i as u32, self.places[i].immediate) / 4) as u16
        } else {
            0
        }
    }

    /// Writes what follows from the operations at a place: what is done there, the steps to the end
    /// of the block, and where a branch leads; and so what is done in one turn.
    fn write(&mut self, i: usize, does: Does, length: u16, target: u16)
        requires { i < 1024 }
        ensures first { first_of (turn_at self.new i) ≡ does }
        ensures second { second_of (turn_at self.new i) (does_at self.old (i + 1)) ≡ does_at self.old (i + 1) }
        ensures fields { (k : ℕ) → fields_at self.new k ≡ fields_at self.old k }
        ensures others { (k : ℕ) → k ≢ i → SameAt self.old self.new k }
        ensures done { does_at self.new i ≡ does }
        ensures length { length_at self.new i ≡ length }
        ensures target { target_at self.new i ≡ target }
    {
        self.turns[i] = Stride::of(does, self.does(i + 1));
        let place = &mut self.places[i];
        place.does = does;
        self.lengths[i] = length;
        self.targets[i] = target;
    }

    /// What is done at a place by its operation, if it is known.
    fn renewed(&self, i: usize) -> Does
        requires { i < 1024 }
        ensures done { is_known result ≡ true → result ≡ done_at self.now i }
        ensures known { is_known result ≡ known_at self.now i }
        ensures slot { has_slot result ≡ true → i < 1023 }
        ensures stays { is_branch result ≡ true → stays i (fields_at self.now i).immediate ≡ true }
    {
        if self.is_known(i) {
            self.done(i)
        } else {
            Does::Unknown
        }
    }

    /// Whether this is done at a place, and so many steps from there to the end of its block.
    fn is_as(&self, i: usize, does: Does, length: u16) -> bool
        requires { i ≤ 1024 }
        ensures done { result ≡ true → does ≡ does_at self.now i }
        ensures length { result ≡ true → length ≡ length_at self.now i }
        ensures both { does ≡ does_at self.now i → length ≡ length_at self.now i → result ≡ true }
    {
        self.does(i) == does && self.length(i) == length
    }

    /// Finds again what follows from the operations at a place; whether what is done there or its length
    /// has changed.
    fn refresh(&mut self, i: usize) -> bool
        requires inside { i < 1024 }
        requires next { FitsAt self.old (i + 1) }
        ensures fields { (k : ℕ) → fields_at self.new k ≡ fields_at self.old k }
        ensures others { (k : ℕ) → k ≢ i → SameAt self.old self.new k }
        ensures fits { FitsAt self.new i }
        ensures known { known_at self.new i ≡ known_at self.old i }
        ensures calm { result ≡ false → length_at self.new i ≡ length_at self.old i }
        ensures same { result ≡ false → does_at self.new i ≡ does_at self.old i }
        ensures changed { does_at self.new i ≡ does_at self.old i
            → length_at self.new i ≡ length_at self.old i → result ≡ false }
    {
        let does = self.renewed(i);
        let length = does.steps(self.length(i + 1));
        let target = self.target_of(i, does);
        let same = self.is_as(i, does, length);
        self.write(i, does, length, target);
        !same
    }

    /// Puts an operation, or nothing, at a place, and finds again what follows from it there and at
    /// the places before, as far back as a block comes to it.
    pub fn put(&mut self, i: usize, kind: OperationKind, place: Place)
        requires inside { i < 1024 }
        requires fits { (k : ℕ) → k ≤ 1024 → FitsAt self.old k }
        ensures fits { (k : ℕ) → k ≤ 1024 → FitsAt self.new k }
        ensures fields { (k : ℕ) → k ≢ i → fields_at self.new k ≡ fields_at self.old k }
        ensures put { fields_at self.new i ≡ fields_in kind (Some place) }
        ensures others { (k : ℕ) → k ≢ i → known_at self.new k ≡ known_at self.old k }
        ensures known { known_at self.new i ≡ is_known place.does }
    {
        self.set(i, kind, place);
        self.refresh(i);
        self.refresh_before(i);
    }

    /// Puts an operation, or nothing, at a place.
    fn set(&mut self, i: usize, kind: OperationKind, place: Place)
        requires { i < 1024 }
        ensures fields { (k : ℕ) → k ≢ i → fields_at self.new k ≡ fields_at self.old k }
        ensures put { fields_at self.new i ≡ fields_in kind (Some place) }
        ensures others { (k : ℕ) → k ≢ i → SameAt self.old self.new k }
        ensures done { does_at self.new i ≡ place.does }
    {
        self.kinds[i] = kind;
        self.places[i] = place;
    }

    /// Finds again what follows from the operations before a place, as far back as that changes.
    fn refresh_before(&mut self, i: usize)
        requires inside { i < 1024 }
        requires others { (k : ℕ) → k ≤ 1024 → k + 1 ≢ i → FitsAt self.old k }
        ensures fits { (k : ℕ) → k ≤ 1024 → FitsAt self.new k }
        ensures fields { (k : ℕ) → fields_at self.new k ≡ fields_at self.old k }
        ensures known { (k : ℕ) → known_at self.new k ≡ known_at self.old k }
    {
        let mut at = i;
        while at > 0 {
            at -= 1;
            if !self.refresh(at) {
                return;
            }
        }
    }
}
