//! The notes on the instructions of a source.
ghost use Rattle.std.specs.Prelude.{◌≡◌, ◌≤◌, ◌++◌, IfOk, OnOk, None, length, take, drop};
ghost use Rattle.ds_listing.specs.Listing.{rows_of};
ghost use Rattle.ds_listing.specs.Sources.{word_of_bytes};
ghost use Rattle.ds_check.specs.CodeNotes.{last_done, instruction_in, line_notes, notes_after};

use crate::notes::instruction::{PlacedNote, WordPlace, jumps, push_instruction};
use ds_asm::{Image, first_line, source_line};
use ds_isa::{Instr, decode};
use ds_policy::OutOfMemory;
use std::alloc::{AllocError, Global};

/// What is worth a look about the instructions of a source, line by line. The image is that of the
/// source. A line that puts four bytes into the image is read as an instruction, be it one or not.
pub fn code_notes(alloc: Global, text: &[u8], image: &Image) -> Result<Vec<PlacedNote>, OutOfMemory>
    ensures { IfOk result (λ v. v.items ≡ notes_after None (rows_of text.now image.now)) }
{
    let mut notes = Vec::new(alloc);
    prove!(image.len() <= 65536);
    push_notes(&mut notes, text, image.bytes())?;
    Ok(notes)
}

fn push_notes(notes: &mut Vec<PlacedNote>, text: &[u8], image: &[u8]) -> Result<(), AllocError>
    requires { length image.now ≤ 65536 }
    ensures { OnOk result
        (notes.new.items ≡ notes.old.items ++ notes_after None (rows_of text.now image.now)) }
{
    let mut before = None;
    let mut line_count = 0u64;
    let mut offset = 0u32;
    let mut rest = text;
    let mut left = image;
    while !rest.is_empty() {
        let (line, afterwards) = first_line(rest);
        let (bytes, further) = cut(left, source_line(line).size);
        line_count += 1;
        let at = WordPlace {
            line: line_count,
            offset,
        };
        push_line(notes, at, before, bytes)?;
        before = last_done(before, bytes);
        offset += bytes.len() as u32;
        left = further;
        rest = afterwards;
    }
    Ok(())
}

/// So many bytes, or all where they are fewer, and what stands after them.
fn cut(bytes: &[u8], size: u64) -> (&[u8], &[u8])
    ensures front { result.0.now ≡ take size bytes.now }
    ensures afterwards { result.1.now ≡ drop size bytes.now }
{
    if size < bytes.len() as u64 {
        bytes.split_at(size as usize)
    } else {
        (bytes, &[])
    }
}

/// Adds the notes on a line with these bytes.
fn push_line(
    notes: &mut Vec<PlacedNote>,
    at: WordPlace,
    before: Option<Instr>,
    bytes: &[u8],
) -> Result<(), AllocError>
    ensures { OnOk result (notes.new.items ≡ notes.old.items ++ line_notes at before bytes.now) }
{
    match instruction_in(bytes) {
        Some(instr) => push_instruction(notes, at, before, &instr),
        None => Ok(()),
    }
}

/// The instruction that four bytes are; other bytes are data.
fn instruction_in(bytes: &[u8]) -> Option<Instr>
    ensures { result ≡ instruction_in bytes.now }
{
    match bytes {
        [a, b, c, d] => Some(decode(word_of(*a, *b, *c, *d))),
        _ => None,
    }
}

/// The word of four bytes, of which the first is the lowest.
fn word_of(a: u8, b: u8, c: u8, d: u8) -> u32
    ensures { result ≡ word_of_bytes a b c d }
{
    u32::from_le_bytes([a, b, c, d])
}

/// The instruction that is done right before those of the next line.
fn last_done(before: Option<Instr>, bytes: &[u8]) -> Option<Instr>
    ensures { result ≡ last_done before bytes.now }
{
    if bytes.is_empty() {
        return before;
    }
    if jumps(before) {
        None
    } else {
        instruction_in(bytes)
    }
}
