//! A page of code: its words, and what is known of each.
ghost use Rattle.std.specs.Prelude.{◌≡◌, ◌≢◌, ℕ, ◌+◌, ◌*◌, ◌<◌, ◌≤◌, true, false, not, ◌&&◌, slice_set};
ghost use Rattle.ds_isa.specs.Instruction.{instruction_of};
ghost use Rattle.ds_pages.specs.Inner.Operations.{MeansAs};
ghost use Rattle.ds_pages.specs.Inner.Does.{single, steps, is_known, is_branch, has_slot, is_load};
ghost use Rattle.ds_pages.specs.Inner.Turn.{first_of, second_of};
ghost use Rattle.ds_pages.specs.Inner.Places.{does_at, fields_at, length_at, target_at, done_at, offset_of, fields_of, IsFreeAt};
ghost use Rattle.ds_pages.specs.Inner.Page.{word_at, knows};

use crate::does::Does;
use crate::operation::{Operation, OperationKind};
use crate::place::{NOWHERE, Place};
use crate::places::{PLACES, Places};
use crate::turn::Stride;
use ds_isa::decode;
use std::marker::Model;

/// The words of a page of memory, with what is known of each: its operation, what is done there,
/// the steps from there to the end of its block, and where a branch leads. It knows no memory: it
/// has to be told of each word that changes there.
#[derive(Drop)]
pub struct Page {
    places: Places,
    words: [u32; PLACES],
}

impl Model for Page {
    ghost use Rattle.ds_pages.specs.Inner.Page.{KnownPageState, IsPage};

    ghost Value = { KnownPageState };

    ghost view = { λ p. record { words = p.words; places = p.places } };

    ghost invariant = { λ p. IsPage (record { words = p.words; places = p.places }) };
}

impl Page {
    /// A page of zeros, of which nothing is known.
    pub fn new() -> Page
        ensures words { (k : ℕ) → word_at result k ≡ 0 }
        ensures unknown { (k : ℕ) → knows result k ≡ false }
    {
        Page {
            places: Places::new(),
            words: [0; PLACES],
        }
    }

    /// The word at a place.
    #[inline(always)]
    pub fn word(&self, i: usize) -> u32
        requires { i < 1024 }
        ensures { result ≡ word_at self.now i }
    {
        let words = &self.words;
        words[i]
    }

    /// What is done at a place, or at the one after the last, where nothing is known.
    #[inline(always)]
    pub fn does(&self, i: usize) -> Does
        requires { i ≤ 1024 }
        ensures value { result ≡ does_at self.now.places i }
        ensures done { is_known result ≡ true → result ≡ done_at self.now.places i }
        ensures inside { is_known result ≡ true → i < 1024 }
        ensures slot { has_slot result ≡ true → i < 1023 }
        ensures free { is_load result ≡ true → IsFreeAt self.now.places i }
    {
        self.places.does(i)
    }

    /// What is done in one turn of a run that stands at a place, or at the one after the last: the
    /// operation there, or that and the next one.
    #[inline(always)]
    pub fn turn(&self, i: usize) -> Stride
        requires { i ≤ 1024 }
        ensures first { first_of result ≡ does_at self.now.places i }
        ensures second { second_of result (does_at self.now.places (i + 1))
            ≡ does_at self.now.places (i + 1) }
    {
        self.places.turn(i)
    }

    /// The number of steps from a place to the end of its block: no step where that is not known,
    /// left or a call; two at a branch or jump, with its slot; else one more than from the next.
    #[inline(always)]
    pub fn length(&self, i: usize) -> u32
        requires { i ≤ 1024 }
        ensures value { result ≡ length_at self.now.places i }
        ensures steps { result
            ≡ steps (does_at self.now.places i) (length_at self.now.places (i + 1)) }
        ensures within { result + i ≤ 1024 }
    {
        u32::from(self.places.length(i))
    }

    /// The place that a branch leads to where it is taken.
    #[inline(always)]
    pub fn target(&self, i: usize) -> usize
        requires inside { i < 1024 }
        requires branch { is_branch (does_at self.now.places i) ≡ true }
        ensures inside { result < 1024 }
        ensures place { 4 * result ≡ offset_of i (fields_at self.now.places i).immediate }
    {
        usize::from(self.places.target(i))
    }

    /// The operation at a place where an operation of this kind is done.
    #[inline(always)]
    pub fn operation(&self, i: usize, kind: OperationKind) -> Operation
        requires inside { i < 1024 }
        requires done { does_at self.now.places i ≡ single kind }
        requires some { kind ≢ OperationKind.Other }
        ensures kind { result.kind ≡ kind }
        ensures fields { fields_of result ≡ fields_at self.now.places i }
        ensures means { MeansAs result (instruction_of (word_at self.now i)) }
    {
        self.places.operation(i, kind)
    }

    /// The kind of the operation at a place, whatever is done there, as in a slot.
    #[inline(always)]
    pub fn kind(&self, i: usize) -> OperationKind
        requires { i < 1024 }
        ensures { result ≡ (fields_at self.now.places i).kind }
    {
        self.places.kind(i)
    }

    /// The operation at a place, which is of this kind, whatever is done there.
    #[inline(always)]
    pub fn slot(&self, i: usize, kind: OperationKind) -> Operation
        requires inside { i < 1024 }
        requires kind { (fields_at self.now.places i).kind ≡ kind }
        ensures kind { result.kind ≡ kind }
        ensures fields { fields_of result ≡ fields_at self.now.places i }
        ensures means { MeansAs result (instruction_of (word_at self.now i)) }
    {
        self.places.operation(i, kind)
    }

    /// Sees to it that the operation at a place is known.
    fn know(&mut self, i: usize)
        requires { i < 1024 }
        ensures words { self.new.words ≡ self.old.words }
        ensures known { knows self.new i ≡ true }
        ensures others { (k : ℕ) → k ≢ i → knows self.new k ≡ knows self.old k }
        ensures fields { (k : ℕ) → knows self.old k ≡ true
            → fields_at self.new.places k ≡ fields_at self.old.places k }
    {
        if !self.places.is_known(i) {
            let operation = Operation::of(decode(self.words[i]));
            self.places.put(i, operation.kind, Place::of(&operation));
        }
    }

    /// The last place that is learned from this one on: of the branch's slot, or of what ends the
    /// block, or of the page.
    fn end_from(&self, start: usize) -> usize
        requires { start < 1024 }
        ensures from { start ≤ result }
        ensures inside { result < 1024 }
    {
        for i in start..1023 {
            let word = self.words[i];
            let does = Does::of(Operation::of(decode(word)).kind);
            if does.has_slot() {
                return i + 1;
            }
            if does.is_end() {
                return i;
            }
        }
        1023
    }

    /// Decodes the words from a place to the end of its block, with the slot of its branch.
    #[cold]
    #[inline(never)]
    pub fn learn(&mut self, start: usize)
        requires { start < 1024 }
        ensures words { self.new.words ≡ self.old.words }
        ensures known { knows self.new start ≡ true }
        ensures kept { (k : ℕ) → knows self.old k ≡ true → knows self.new k ≡ true }
        ensures fields { (k : ℕ) → knows self.old k ≡ true
            → fields_at self.new.places k ≡ fields_at self.old.places k }
        ensures before { (k : ℕ) → k < start → knows self.new k ≡ knows self.old k }
    {
        let mut at = self.end_from(start) + 1;
        while at > start {
            at -= 1;
            self.know(at);
        }
    }

    /// Forgets the operation at a place.
    fn forget_operation(&mut self, i: usize)
        requires { i < 1024 }
        ensures words { self.new.words ≡ self.old.words }
        ensures unknown { knows self.new i ≡ false }
        ensures others { (k : ℕ) → k ≢ i → knows self.new k ≡ knows self.old k }
        ensures fields { (k : ℕ) → k ≢ i → fields_at self.new.places k ≡ fields_at self.old.places k }
    {
        if self.places.is_known(i) {
            self.places.put(i, OperationKind::Other, NOWHERE);
        }
    }

    /// Forgets the operation at a place, and the branch whose slot it is.
    fn forget_with_branch(&mut self, i: usize)
        requires { i < 1024 }
        ensures words { self.new.words ≡ self.old.words }
        ensures unknown { knows self.new i ≡ false }
        ensures branch { (k : ℕ) → k + 1 ≡ i
            → knows self.new k ≡ (knows self.old k && not (has_slot (does_at self.old.places k))) }
        ensures others { (k : ℕ) → k ≢ i → k + 1 ≢ i → knows self.new k ≡ knows self.old k }
        ensures fields { (k : ℕ) → knows self.new k ≡ true
            → fields_at self.new.places k ≡ fields_at self.old.places k }
    {
        if i > 0 && self.places.does(i - 1).has_slot() {
            self.forget_operation(i - 1);
        }
        self.forget_operation(i);
    }

    /// Writes the word at a place whose operation is not known.
    fn write(&mut self, i: usize, word: u32)
        requires inside { i < 1024 }
        requires unknown { knows self.old i ≡ false }
        ensures words { self.new.words ≡ slice_set self.old.words i word }
        ensures word { word_at self.new i ≡ word }
        ensures places { self.new.places ≡ self.old.places }
    {
        self.words[i] = word;
    }

    /// The word at a place is now this one. Where it was another, its operation is not known any
    /// more, nor is that of the branch whose slot it is.
    #[cold]
    #[inline(never)]
    pub fn forget(&mut self, i: usize, word: u32)
        requires { i < 1024 }
        ensures words { self.new.words ≡ slice_set self.old.words i word }
        ensures word { word_at self.new i ≡ word }
        ensures same { word ≡ word_at self.old i → self.new ≡ self.old }
        ensures forgotten { word ≢ word_at self.old i → knows self.new i ≡ false }
        ensures branch { word ≢ word_at self.old i → (k : ℕ) → k + 1 ≡ i
            → knows self.new k ≡ (knows self.old k && not (has_slot (does_at self.old.places k))) }
        ensures others { (k : ℕ) → k ≢ i → k + 1 ≢ i → knows self.new k ≡ knows self.old k }
        ensures fields { (k : ℕ) → knows self.new k ≡ true
            → fields_at self.new.places k ≡ fields_at self.old.places k }
    {
        if self.words[i] == word {
            return;
        }
        self.forget_with_branch(i);
        self.write(i, word);
    }
}
