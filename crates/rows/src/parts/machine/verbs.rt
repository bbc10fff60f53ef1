//! What lines about the machine's parts ask for. The heads of the files say what the words mean.

use crate::parts::machine::arithmetic::function_of;
use crate::parts::machine::{buffer, bus, memory, programs, spaces, state, system, words};
use crate::parts::verbs::{Verb, row_of};

/// What a word asks for, and how many numbers stand after it at least and at most.
pub fn machine_verb(word: &str) -> Option<(usize, usize, Verb)> {
    match word {
        "new" => return Some((0, 0, Verb::New)),
        "paged" => return Some((0, 0, Verb::Paged)),
        _ => {}
    }
    if let Some((least, most, function)) = function_of(word) {
        return Some((least, most, Verb::Arithmetic(function)));
    }
    if let Some((least, most, question)) = row_of(&words::WORDS, word) {
        return Some((least, most, Verb::Words(question)));
    }
    if let Some((least, most, question)) = row_of(&programs::WORDS, word) {
        return Some((least, most, Verb::Program(question)));
    }
    if let Some((least, most, step)) = row_of(&system::WORDS, word) {
        return Some((least, most, Verb::System(step)));
    }
    if let Some((least, most, step)) = row_of(&bus::WORDS, word) {
        return Some((least, most, Verb::Bus(step)));
    }
    if let Some((least, most, step)) = row_of(&buffer::WORDS, word) {
        return Some((least, most, Verb::Buffer(step)));
    }
    if let Some((least, most, step)) = row_of(&state::WORDS, word) {
        return Some((least, most, Verb::State(step)));
    }
    if let Some((least, most, step)) = row_of(&spaces::WORDS, word) {
        return Some((least, most, Verb::Space(step)));
    }
    let (least, most, step) = row_of(&memory::WORDS, word)?;
    Some((least, most, Verb::Memory(step)))
}
