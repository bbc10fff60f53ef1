//! What the lines of files ask for.

use crate::parts::grants::verbs::{Call, Step};
use crate::parts::machine::arithmetic::Function;
use crate::parts::machine::{buffer, bus, memory, programs, spaces, state, system, words};
use crate::parts::numbers::Numbers;

/// What a line asks for by its first word.
#[derive(Clone, Copy)]
pub enum Verb {
    /// A new machine.
    New,
    /// A new machine that keeps pages of known operations.
    Paged,
    Arithmetic(Function),
    Words(words::Question),
    Program(programs::Question),
    System(system::Step),
    Bus(bus::Step),
    Memory(memory::Step),
    Buffer(buffer::Step),
    State(state::Step),
    Space(spaces::Step),
    /// New grants, with no entries.
    Start,
    /// New grants, with the entries of a policy.
    Begin,
    /// A step on grants that is no call.
    Step(Step),
    Call(Call),
}

/// The part of the workstation that a file is about.
#[derive(Clone, Copy)]
pub enum Part {
    Machine,
    Grants,
}

/// A word by which a line may begin, how many numbers have to stand after it at least and at most, and
/// what it asks for.
pub type Row<V> = (&'static str, usize, usize, V);

/// What a line asks for: its verb, and what stands after it, with its numbers.
#[derive(Clone, Copy)]
pub struct Asked<'a> {
    pub verb: Verb,
    pub operands: &'a str,
    pub numbers: Numbers,
}

/// What the row of a word has after it, if the word has one.
pub fn row_of<V: Copy>(rows: &[Row<V>], word: &str) -> Option<(usize, usize, V)> {
    for (name, least, most, verb) in rows {
        if *name == word {
            return Some((*least, *most, *verb));
        }
    }
    None
}
