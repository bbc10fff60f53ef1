//! A caret below a shown line.
ghost use Rattle.std.specs.Prelude.{◌≡◌, ◌≤◌, ◌++◌, ◌-◌, OnOk, flat_map, length, if◌then◌else◌};
ghost use Rattle.ds_check.specs.Carets.{beneath, characters_end, caret_line, first_characters, place_shown};
ghost use Rattle.ds_check.specs.Places.{is_continuation};

use crate::lines::Lines;
use crate::places::{Place, is_continuation};
use std::alloc::AllocError;

/// Adds the line of a text in which a place is, after four blanks, and below it a caret at the place's
/// column.
pub fn push_place(sheet: &mut Vec<u8>, text: &[u8], place: Place) -> Result<(), AllocError>
    ensures { OnOk result (sheet.new.items ≡ sheet.old.items ++ place_shown text.now place) }
{
    let mut lines = Lines::of(text);
    lines.push(sheet, place.line)?;
    let line = lines.line(place.line);
    push_caret(
        sheet,
        first_characters(place.column.saturating_sub(1), line),
    )
}

/// Adds the line below a line that is shown after four blanks: a caret after so much of that line.
pub fn push_caret(sheet: &mut Vec<u8>, front: &[u8]) -> Result<(), AllocError>
    ensures { OnOk result (sheet.new.items ≡ sheet.old.items ++ caret_line front.now) }
{
    sheet.extend_from_slice(b"    ")?;
    push_all_beneath(sheet, front)?;
    sheet.extend_from_slice(b"^\n")
}

fn push_all_beneath(sheet: &mut Vec<u8>, front: &[u8]) -> Result<(), AllocError>
    ensures { OnOk result (sheet.new.items ≡ sheet.old.items ++ flat_map beneath front.now) }
{
    for c in front {
        push_beneath(sheet, *c)?;
    }
    Ok(())
}

/// Adds what stands beneath a byte that stands before a caret.
fn push_beneath(sheet: &mut Vec<u8>, c: u8) -> Result<(), AllocError>
    ensures { OnOk result (sheet.new.items ≡ sheet.old.items ++ beneath c) }
{
    if c == b'\t' {
        sheet.extend_from_slice(b"\t")
    } else if is_continuation(c) {
        Ok(())
    } else {
        sheet.extend_from_slice(b" ")
    }
}

/// So many characters of a line, or all where it has fewer.
fn first_characters(count: u64, line: &[u8]) -> &[u8]
    ensures { result.now ≡ first_characters count line.now }
{
    &line[..bytes_of(count, line)]
}

/// How many bytes so many characters of a line have.
fn bytes_of(count: u64, line: &[u8]) -> usize
    ensures exact { result ≡ characters_end 0 count line.now }
    ensures within { result ≤ length line.now }
{
    let mut place = 0;
    let mut more = count;
    let mut left = line;
    while let [first, rest @ ..] = left {
        if more == 0 {
            return place;
        }
        more = characters_after(more, *first);
        place += 1;
        left = rest;
    }
    place
}

/// How many characters are to come after this byte.
fn characters_after(more: u64, byte: u8) -> u64
    ensures { result ≡ (if is_continuation byte then more else more - 1) }
{
    if is_continuation(byte) {
        more
    } else {
        more.saturating_sub(1)
    }
}
