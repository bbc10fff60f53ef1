//! Words that were decoded before.
ghost use Rattle.std.specs.Prelude.{◌≡◌, ◌<◌, slice_get, IfSome};
ghost use Rattle.ds_isa.specs.Instruction.{instruction_of};
ghost use Rattle.ds_pages.specs.Inner.Operations.{MeansAs};

use ds_isa::{Instr, decode};
use ds_pages::Operation;

/// The number of words of a page.
pub(crate) const PAGE_WORDS: usize = 1024;

/// A word, its instruction, and the operation that does the same.
#[derive(Clone, Copy)]
struct Known {
    word: u32,
    instr: Instr,
    operation: Operation,
    ghost decoded: { instr ≡ instruction_of word },
    ghost means: { MeansAs operation (instruction_of word) },
}

/// Words with their instructions, by the place in a page where each was fetched last. Pages share
/// the places: an entry is taken only for the word that it holds, wherever that word lies.
#[derive(Drop)]
pub(crate) struct Memo {
    entries: [Known; PAGE_WORDS],
}

impl Memo {
    /// Nothing was decoded yet but the word 0.
    pub fn new() -> Memo {
        let instr = decode(0);
        let zero = Known {
            word: 0,
            instr,
            operation: Operation::of(instr),
        };
        Memo {
            entries: [zero; PAGE_WORDS],
        }
    }

    /// The instruction of a word that was fetched at this place of a page.
    #[inline(always)]
    pub fn decoded(&mut self, place: usize, word: u32) -> Instr
        requires { place < 1024 }
        ensures { result ≡ instruction_of word }
    {
        self.look_up(place, word);
        self.entries[place].instr
    }

    /// The operation of a word that was fetched at this place of a page. It is copied field by field,
    /// so that each field is loaded by itself.
    #[inline(always)]
    pub fn operation(&mut self, place: usize, word: u32) -> Operation
        requires { place < 1024 }
        ensures { MeansAs result (instruction_of word) }
    {
        self.look_up(place, word);
        let known = &self.entries[place];
        Operation {
            kind: known.operation.kind,
            to: known.operation.to,
            first: known.operation.first,
            second: known.operation.second,
            immediate: known.operation.immediate,
        }
    }

    /// Sees to it that the entry at this place is that of the word.
    #[inline(always)]
    fn look_up(&mut self, place: usize, word: u32)
        requires { place < 1024 }
        ensures { IfSome (slice_get self.new.entries place) (λ known. known.word ≡ word) }
    {
        if self.entries[place].word != word {
            self.learn(place, word);
        }
    }

    /// Decodes a word, and keeps it. It answers nothing: an instruction that is answered goes through
    /// memory, and costs each other one.
    #[cold]
    #[inline(never)]
    fn learn(&mut self, place: usize, word: u32)
        requires { place < 1024 }
        ensures { IfSome (slice_get self.new.entries place) (λ known. known.word ≡ word) }
    {
        let instr = decode(word);
        self.entries[place] = Known {
            word,
            instr,
            operation: Operation::of(instr),
        };
    }
}
