//! Where the bytes of an image stand in its source.
ghost use Rattle.std.specs.Prelude.{◌≡◌, ◌≤◌, ◌<◌, ◌++◌, ◌==◌, ◌-◌, None, IfOk, OnOk, drop, length, map, option_map, take};
ghost use Rattle.ds_listing.specs.Listing.{rows_of};
ghost use Rattle.ds_listing.specs.Places.{label_past, label_over, label_text, line_of_byte, offset_text, place_text, line_places_of, plain_label, plain_line_place};

use ds_asm::{Image, first_line, source_line};
use ds_text::sheet::push_decimal;
use std::alloc::{AllocError, Global};

/// A label of a source.
#[derive(Clone, Copy, Debug, PartialEq, Eq)]
pub struct Label<'a> {
    pub name: &'a [u8],
    /// Where it stands in the image.
    pub place: u32,
}

/// A line of a source.
#[derive(Clone, Copy, Debug, PartialEq, Eq)]
pub struct LinePlace<'a> {
    /// Its number, from 1.
    pub number: u64,
    /// Where it ends in the image.
    pub end: u32,
    /// The last label that stands on it or before it; of labels at one place the first.
    pub label: Option<Label<'a>>,
}

/// The label after a line with a label of this name, where `before` comes last before it.
fn label_over<'a>(before: Option<Label<'a>>, place: u32, name: &'a [u8]) -> Option<Label<'a>>
    ensures { option_map plain_label result
        ≡ label_over (option_map plain_label before.entry) place name.entry.now }
{
    match before {
        Some(before) => {
            if before.place == place {
                Some(before)
            } else {
                Some(Label { name, place })
            }
        }
        None => Some(Label { name, place }),
    }
}

/// The last label after a line at a place, which has a label or none.
fn label_past<'a>(
    before: Option<Label<'a>>,
    place: u32,
    label: Option<&'a [u8]>,
) -> Option<Label<'a>>
    ensures { option_map plain_label result ≡ label_past (option_map plain_label before.entry)
        place (option_map (λ t. t.now) label.entry) }
{
    match label {
        Some(name) => label_over(before, place, name),
        None => before,
    }
}

/// The lines of a source that has this image: where each ends in the image, and the last label that
/// stands on it or before it.
pub fn line_places<'a>(
    alloc: Global,
    text: &'a [u8],
    image: &Image,
) -> Result<Vec<LinePlace<'a>>, AllocError>
    ensures { IfOk result (λ v. map plain_line_place v.items
        ≡ line_places_of (rows_of text.entry.now image.now)) }
{
    prove!(image.len() <= 65536);
    places_between(alloc, text, image.bytes())
}

fn places_between<'a>(
    alloc: Global,
    text: &'a [u8],
    image: &[u8],
) -> Result<Vec<LinePlace<'a>>, AllocError>
    requires { length image.now ≤ 65536 }
    ensures { IfOk result (λ v. map plain_line_place v.items
        ≡ line_places_of (rows_of text.entry.now image.now)) }
{
    let mut places = Vec::new(alloc);
    let mut label = None;
    let mut number = 0u64;
    let mut place = 0u32;
    let mut rest = text;
    let mut left = image;
    while !rest.is_empty() {
        let (line, afterwards) = first_line(rest);
        let said = source_line(line);
        let (bytes, further) = cut(left, said.size);
        number += 1;
        label = label_past(label, place, said.label);
        place += bytes.len() as u32;
        places.push(LinePlace {
            number,
            end: place,
            label,
        })?;
        left = further;
        rest = afterwards;
    }
    Ok(places)
}

/// So many bytes, or all where they are fewer, and what stands after them.
fn cut(bytes: &[u8], size: u64) -> (&[u8], &[u8])
    ensures front { result.0.now ≡ take size bytes.now }
    ensures afterwards { result.1.now ≡ drop size bytes.now }
{
    if size < bytes.len() as u64 {
        bytes.split_at(size as usize)
    } else {
        (bytes, &[])
    }
}

/// The line of a byte of the image: the first that ends past it.
pub fn line_of_byte<'a>(lines: &[LinePlace<'a>], byte: u32) -> Option<LinePlace<'a>>
    ensures { option_map plain_line_place result ≡ line_of_byte byte (map plain_line_place lines.now) }
{
    for line in lines {
        if byte < line.end {
            return Some(*line);
        }
    }
    None
}

/// Adds how far a byte lies past a label, where it lies past it.
fn push_offset(text: &mut Vec<u8>, offset: u32) -> Result<(), AllocError>
    ensures { OnOk result (text.new.items ≡ text.old.items ++ offset_text offset) }
{
    if offset == 0 {
        return Ok(());
    }
    text.extend_from_slice(b"+")?;
    push_decimal(text, u64::from(offset))
}

/// Adds a label with the offset of a byte, where there is one.
fn push_label<'a>(text: &mut Vec<u8>, byte: u32, label: Option<Label<'a>>) -> Result<(), AllocError>
    ensures { OnOk result (text.new.items
        ≡ text.old.items ++ label_text byte (option_map plain_label label.entry)) }
{
    match label {
        Some(label) => {
            text.extend_from_slice(b" ")?;
            text.extend_from_slice(label.name)?;
            push_offset(text, byte.saturating_sub(label.place))
        }
        None => Ok(()),
    }
}

/// Adds where a byte of the image of a source of this name stands: the name with the number of the
/// line, and the last label with how far the byte lies past it. Where it is on no line, nothing.
pub fn push_place<'a>(
    text: &mut Vec<u8>,
    source: &str,
    byte: u32,
    line: Option<LinePlace<'a>>,
) -> Result<(), AllocError>
    ensures { OnOk result (text.new.items ≡ text.old.items
        ++ place_text source.now byte (option_map plain_line_place line.entry)) }
{
    match line {
        Some(line) => {
            text.extend_from_slice(source.as_bytes())?;
            text.extend_from_slice(b":")?;
            push_decimal(text, line.number)?;
            push_label(text, byte, line.label)
        }
        None => Ok(()),
    }
}
