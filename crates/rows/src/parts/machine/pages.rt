//! Pages of known operations, and words of memory through the bus.
ghost use Rattle.std.specs.Prelude.{◌≡◌, ◌*◌, ◌%◌};

use crate::parts::told::Answer;
use ds_dev::Bus;
use ds_mem::SIZE;

/// The words of a page.
const PAGE_WORDS: usize = 1024;

/// A step on a page, or on a place of memory.
#[derive(Clone, Copy)]
pub enum Step {
    /// Takes out the page of a frame, for good.
    Take,
    /// The word at a place of a frame's page.
    PageWord,
    Byte,
    Half,
    Word,
    AlignedWord,
    PutByte,
    PutHalf,
    PutWord,
    PutAlignedWord,
}

/// What the bus answers to a step; none where it has no such operands.
pub fn answer(bus: &mut Bus, step: Step, a: u32, b: u32) -> Option<Answer> {
    match step {
        Step::Take => {
            let is_there = bus.take(base_of(a)).is_some();
            Some(Answer::said(if is_there { "taken" } else { "none" }))
        }
        Step::PageWord => page_word(bus, a, b as usize),
        _ if a as usize >= SIZE => None,
        Step::Byte | Step::Half | Step::Word | Step::AlignedWord => read(bus, step, a),
        _ => put(bus, step, a, b),
    }
}

/// Where a frame begins. Of the number the low eleven bits count.
fn base_of(frame: u32) -> u32
    ensures { result ≡ 4096 * (frame % 2048) }
{
    frame % 2048 * 4096
}

/// The word at a place of a frame's page, which is taken and given back.
fn page_word(bus: &mut Bus, frame: u32, place: usize) -> Option<Answer> {
    if place >= PAGE_WORDS {
        return None;
    }
    let base = base_of(frame);
    let Some(page) = bus.take(base) else {
        return Some(Answer::said("none"));
    };
    let word = page.word(place);
    bus.give(base, page);
    Some(Answer::hex(word))
}

/// What is read at a place of memory.
fn read(bus: &Bus, step: Step, place: u32) -> Option<Answer> {
    if place as usize >= SIZE {
        return None;
    }
    Some(Answer::hex(match step {
        Step::Byte => u32::from(bus.byte(place)),
        Step::Word => bus.word(place),
        Step::Half if place % 2 == 0 => u32::from(bus.half(place)),
        Step::AlignedWord if place % 4 == 0 => bus.aligned_word(place),
        _ => return None,
    }))
}

/// Puts a value at a place of memory.
fn put(bus: &mut Bus, step: Step, place: u32, value: u32) -> Option<Answer> {
    if place as usize >= SIZE {
        return None;
    }
    match step {
        Step::PutByte => bus.put_byte(place, value),
        Step::PutWord => bus.put_word(place, value),
        Step::PutHalf if place % 2 == 0 => bus.put_half(place, value),
        Step::PutAlignedWord if place % 4 == 0 => bus.put_aligned_word(place, value),
        _ => return None,
    }
    Some(Answer::said("done"))
}
