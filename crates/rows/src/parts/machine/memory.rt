//! Steps on the memory, and on the page tables in it.

use crate::parts::numbers::Numbers;
use crate::parts::verbs::Row;
use ds_mem::{FRAME_SIZE, FRAMES, Memory, SIZE};
use ds_refill::install;
use ds_tables::{Tables, pte_address};

/// What a frame is told to be filled with where its bytes differ.
const MIXED: u32 = 0x100;

/// A step on the memory or its page tables.
#[derive(Clone, Copy)]
pub enum Step {
    Word,
    Put,
    Install,
    Entry,
    Open,
    Close,
    Tables,
    TableFrame,
    EntryAddress,
    OfFrame(OfFrame),
}

/// A step on a frame.
#[derive(Clone, Copy)]
pub enum OfFrame {
    Byte,
    Set,
    Fill,
    Filled,
    Frames,
    Copy,
}

/// The words of steps, and how many numbers stand after each.
pub static WORDS: [Row<Step>; 15] = [
    ("install", 0, 0, Step::Install),
    ("word_at", 1, 1, Step::Word),
    ("put", 2, 2, Step::Put),
    ("entry", 2, 2, Step::Entry),
    ("open", 3, 3, Step::Open),
    ("close", 2, 2, Step::Close),
    ("tables", 1, 1, Step::Tables),
    ("frame", 2, 2, Step::TableFrame),
    ("pte", 1, 1, Step::EntryAddress),
    ("byte_at", 2, 2, Step::OfFrame(OfFrame::Byte)),
    ("set", 3, 3, Step::OfFrame(OfFrame::Set)),
    ("fill", 2, 2, Step::OfFrame(OfFrame::Fill)),
    ("filled", 1, 1, Step::OfFrame(OfFrame::Filled)),
    ("frames", 1, 1, Step::OfFrame(OfFrame::Frames)),
    ("copy", 2, 2, Step::OfFrame(OfFrame::Copy)),
];

/// What the memory or its page tables answer to a step: a number, which is 0 where something is only
/// done. None where there are no such operands.
pub fn answer(
    memory: &mut Memory,
    tables: &mut Tables,
    step: Step,
    numbers: &Numbers,
) -> Option<u32> {
    let (a, b, c) = (numbers.all[0], numbers.all[1], numbers.all[2]);
    match step {
        Step::Word if a % 4 == 0 && (a as usize) < SIZE => Some(memory.word(a)),
        Step::Put if a % 4 == 0 && (a as usize) < SIZE => {
            memory.put_word(a, b);
            Some(0)
        }
        Step::Install => {
            install(memory);
            Some(0)
        }
        Step::Entry => Some(tables.entry(memory, a, b)),
        Step::Open => Some(open(memory, tables, a, b, c)),
        Step::Close => {
            tables.close(a, b);
            Some(0)
        }
        Step::Tables => {
            *tables = Tables::new(a as usize);
            Some(0)
        }
        Step::TableFrame => u32::try_from(tables.page_of_table(a, b)).ok(),
        Step::EntryAddress => Some(pte_address(a)),
        Step::OfFrame(step) => of_frame(memory, step, a, b, c),
        _ => None,
    }
}

/// Puts a page-table word at a process's address; the number of the refusal, if it is refused.
fn open(memory: &mut Memory, tables: &mut Tables, process: u32, address: u32, word: u32) -> u32 {
    match tables.put_entry(memory, process, address, word) {
        Ok(()) => 0,
        Err(refused) => refused.number(),
    }
}

/// What a frame answers to a step, or all frames about a byte.
fn of_frame(memory: &mut Memory, step: OfFrame, frame: u32, a: u32, b: u32) -> Option<u32> {
    let offset = a as usize;
    match step {
        _ if frame as usize >= FRAMES => None,
        OfFrame::Byte if offset < FRAME_SIZE => Some(u32::from(memory.frame(frame)[offset])),
        OfFrame::Set if offset < FRAME_SIZE && b < 256 => {
            memory.frame_mut(frame)[offset] = b as u8;
            Some(0)
        }
        OfFrame::Fill => fill(memory, frame, a),
        OfFrame::Filled => filled(memory, frame),
        OfFrame::Frames => Some(frames(memory, frame)),
        OfFrame::Copy if offset < FRAMES => {
            memory.copy_frame(frame, a);
            Some(0)
        }
        _ => None,
    }
}

/// Fills a frame with a byte.
pub fn fill(memory: &mut Memory, frame: u32, value: u32) -> Option<u32> {
    if frame as usize >= FRAMES || value > 255 {
        return None;
    }
    memory.frame_mut(frame).fill(value as u8);
    Some(0)
}

/// The byte with which a frame is filled, or 100 (hexadecimal) where its bytes differ.
pub fn filled(memory: &Memory, frame: u32) -> Option<u32> {
    if frame as usize >= FRAMES {
        return None;
    }
    let bytes = memory.frame(frame);
    let first = bytes[0];
    for byte in bytes {
        if *byte != first {
            return Some(MIXED);
        }
    }
    Some(u32::from(first))
}

/// How many frames are filled with a byte.
fn frames(memory: &Memory, value: u32) -> u32 {
    let mut count: u32 = 0;
    for frame in 0..FRAMES as u32 {
        if filled(memory, frame) == Some(value) {
            count = count.saturating_add(1);
        }
    }
    count
}
