//! Where a byte of an image stands in its source.
ghost use Rattle.std.specs.Prelude.{◌≡◌, ◌≤◌, ◌<◌, ◌==◌, None, length, option_map, take, drop};
ghost use Rattle.ds_listing.specs.Listing.{rows_of};
ghost use Rattle.ds_check.specs.Spots.{label_after, spot_after};
ghost use Rattle.ds_check.specs.Inner.Spots.{seen};

use ds_asm::{Image, first_line, source_line};

/// A place of a source.
#[derive(Clone, Copy, Debug, PartialEq, Eq)]
pub(crate) struct Spot<'a> {
    /// The number of its line, from 1.
    pub(crate) line: u64,
    /// The first label there.
    pub(crate) label: Option<&'a [u8]>,
}

/// The line of a source in which a byte of its image lies, and the first label at that byte.
pub(crate) fn spot_of<'a>(text: &'a [u8], image: &Image, byte: u32) -> Option<Spot<'a>>
    ensures { option_map seen result ≡ spot_after byte None (rows_of text.entry.now image.now) }
{
    prove!(image.len() <= 65536);
    spot_between(text, image.bytes(), byte)
}

fn spot_between<'a>(text: &'a [u8], image: &[u8], byte: u32) -> Option<Spot<'a>>
    requires { length image.now ≤ 65536 }
    ensures { option_map seen result ≡ spot_after byte None (rows_of text.entry.now image.now) }
{
    let mut label = None;
    let mut line = 0u64;
    let mut place = 0u32;
    let mut rest = text;
    let mut left = image;
    while !rest.is_empty() {
        let (front, afterwards) = first_line(rest);
        let said = source_line(front);
        let (bytes, further) = cut(left, said.size);
        line += 1;
        label = label_after(label, place == byte, said.label);
        place += bytes.len() as u32;
        if byte < place {
            return Some(Spot { line, label });
        }
        left = further;
        rest = afterwards;
    }
    None
}

/// The label that was found before, or else that of this line, where the line stands at the byte.
fn label_after<'a>(
    before: Option<&'a [u8]>,
    is_here: bool,
    label: Option<&'a [u8]>,
) -> Option<&'a [u8]>
    ensures { option_map (λ t. t.now) result ≡ label_after
        (option_map (λ t. t.now) before.entry) is_here (option_map (λ t. t.now) label.entry) }
{
    if before.is_none() && is_here {
        label
    } else {
        before
    }
}

/// So many bytes, or all where they are fewer, and what stands after them.
fn cut(bytes: &[u8], size: u64) -> (&[u8], &[u8])
    ensures front { result.0.now ≡ take size bytes.now }
    ensures afterwards { result.1.now ≡ drop size bytes.now }
{
    if size < bytes.len() as u64 {
        bytes.split_at(size as usize)
    } else {
        (bytes, &[])
    }
}
