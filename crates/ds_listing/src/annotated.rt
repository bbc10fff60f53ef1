//! The listing of a source.
ghost use Rattle.std.specs.Prelude.{◌≡◌, ◌≤◌, ◌++◌, ℕ, List, IfOk, Ok, length, take, drop};
ghost use Rattle.std.specs.List.{flat_map};
ghost use Rattle.ds_asm.specs.Inner.Assembling.{Assembles};
ghost use Rattle.ds_asm.specs.Assembly.{Layout, assembled, empty_layout, lines_of, laid_lines};
ghost use Rattle.ds_listing.specs.Inner.Came.{ComesOf, EndsSo};
ghost use Rattle.ds_listing.specs.Listing.{listing_of, rows_of, rows_text};
ghost use Rattle.ds_listing.specs.Inner.Listing.{EndsWithLabels, Shows};

use crate::sheet::Row;
use ds_asm::{
    AsmFault, Assembled, SourceFault, assemble, assemble_or_faults, first_line, source_line,
};
use ds_text::Buffer;
use std::alloc::{AllocError, Global};

/// The listing of a source, or its first fault: each line with its number, and, where it has bytes,
/// their address and the bytes; after the lines each label with the value that the assembler gives
/// it, in the order of the source.
pub fn listing(alloc: Global, text: &[u8]) -> Result<Vec<u8>, AsmFault>
    ensures text { Assembles (λ v. v.items) result (listing_of text.now) }
    ensures image { (image : List ℕ) → assembled text.now ≡ Ok image
        → Shows (rows_of text.now image) image }
    ensures labels { (layout : Layout) → laid_lines 1 empty_layout (lines_of text.now) ≡ Ok layout
        → IfOk result (λ v. EndsWithLabels layout.labels v.items) }
{
    let image = assemble(alloc, text)?;
    let sheet = sheet_of(alloc, text, image.bytes())?;
    Ok(sheet)
}

/// What comes of a source that is to be listed: its listing, or all its faults.
#[derive(Drop)]
pub enum Listed {
    Sheet(Vec<u8>),
    /// At most one for each line, in the order of the lines; there is one at least.
    Faults(Vec<SourceFault>),
}

/// The listing of a source, as `listing` answers it, or all faults that the source has.
pub fn listing_or_faults(alloc: Global, text: &[u8]) -> Result<Listed, AllocError>
    ensures text { IfOk result (λ came. ComesOf text.now came) }
    ensures image { (image : List ℕ) → assembled text.now ≡ Ok image
        → Shows (rows_of text.now image) image }
    ensures labels { (layout : Layout) → laid_lines 1 empty_layout (lines_of text.now) ≡ Ok layout
        → IfOk result (λ came. EndsSo layout.labels came) }
{
    match assemble_or_faults(alloc, text)? {
        Assembled::Image(image) => {
            let sheet = sheet_of(alloc, text, image.bytes())?;
            Ok(Listed::Sheet(sheet))
        }
        Assembled::Faults(faults) => Ok(Listed::Faults(faults)),
    }
}

/// The listing of a source that has this image.
#[inline(never)]
fn sheet_of(alloc: Global, text: &[u8], image: &[u8]) -> Result<Vec<u8>, AllocError>
    requires { length image.now ≤ 65536 }
    ensures { IfOk result (λ v. v.items ≡ rows_text (rows_of text.now image.now)) }
{
    let mut lines = Vec::new(alloc);
    let mut labels = Vec::new(alloc);
    let mut buffer = Buffer::new();
    let mut number = 0u64;
    let mut place = 0u32;
    let mut rest = text;
    let mut left = image;
    while !rest.is_empty() {
        let (line, afterwards) = first_line(rest);
        let said = source_line(line);
        let (bytes, further) = cut(left, said.size);
        number += 1;
        let row = Row {
            number,
            place,
            bytes,
            label: said.label,
            text: line,
        };
        row.push(&mut lines, &mut buffer)?;
        row.push_label(&mut labels)?;
        place += bytes.len() as u32;
        left = further;
        rest = afterwards;
    }
    lines.extend_from_slice(b"labels\n")?;
    lines.extend_from_slice(&labels)?;
    Ok(lines)
}

/// So many bytes, or all where they are fewer, and what stands after them.
fn cut(bytes: &[u8], size: u64) -> (&[u8], &[u8])
    ensures front { result.0.now ≡ take size bytes.now }
    ensures afterwards { result.1.now ≡ drop size bytes.now }
{
    if size < bytes.len() as u64 {
        bytes.split_at(size as usize)
    } else {
        (bytes, &[])
    }
}
