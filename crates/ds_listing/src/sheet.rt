//! Parts of a listing, as bytes.
ghost use Rattle.std.specs.Prelude.{◌≡◌, ◌+◌, ◌<◌, ◌≤◌, ◌++◌, ◌∷◌, [], OnOk, codes, decimal, length, option_map, replicate};
ghost use Rattle.ds_asm.specs.Assembly.{origin};
ghost use Rattle.ds_listing.specs.Listing.{address_text, after_number, bytes_text, label_line_text, blanks_before, row_text, shown_text};
ghost use Rattle.ds_listing.specs.Inner.Plain.{plain_row};
ghost use Rattle.ds_text.specs.Digits.{hex2};

use ds_asm::ORIGIN;
use ds_text::Buffer;
use ds_text::sheet::{push_byte, push_hex};
use std::alloc::AllocError;

/// How wide the number of a line is at least.
const NUMBER_WIDTH: usize = 5;

/// How wide the bytes of a line are at least.
const BYTES_WIDTH: usize = 10;

/// As many blanks as stand together before a number or after bytes at most.
const BLANKS: &[u8] = b"          ";

/// What stands after the number of a line that has no bytes.
const NO_BYTES: &[u8] = b"                        ";

/// A line of a source, with what it has of the image.
#[derive(Clone, Copy)]
pub(crate) struct Row<'a> {
    /// Its number, from 1.
    pub(crate) number: u64,
    /// Where it stands in the image.
    pub(crate) place: u32,
    /// Its bytes there.
    pub(crate) bytes: &'a [u8],
    pub(crate) label: Option<&'a [u8]>,
    /// The line itself.
    pub(crate) text: &'a [u8],
}

impl<'a> Row<'a> {
    /// Adds the line with its number, its place and its bytes.
    pub(crate) fn push(&self, sheet: &mut Vec<u8>, buffer: &mut Buffer) -> Result<(), AllocError>
        requires { self.now.place ≤ 65536 }
        ensures { OnOk result (sheet.new.items ≡ sheet.old.items ++ row_text (plain_row self.now)) }
    {
        push_number(sheet, buffer, self.number)?;
        if !self.text.is_empty() {
            self.push_after_number(sheet)?;
        }
        sheet.push(b'\n')?;
        Ok(())
    }

    fn push_after_number(&self, sheet: &mut Vec<u8>) -> Result<(), AllocError>
        requires within { self.now.place ≤ 65536 }
        requires text { 0 < length self.now.text.now }
        ensures { OnOk result (sheet.new.items
            ≡ sheet.old.items ++ after_number (plain_row self.now) self.now.text.now) }
    {
        push_shown(sheet, self.place, self.bytes)?;
        sheet.extend_from_slice(self.text)
    }

    /// Adds the label with its value, where there is one.
    pub(crate) fn push_label(&self, sheet: &mut Vec<u8>) -> Result<(), AllocError>
        requires { self.now.place ≤ 65536 }
        ensures { OnOk result (sheet.new.items ≡ sheet.old.items
            ++ label_line_text self.now.place (option_map (λ t. t.now) self.now.label)) }
    {
        match self.label {
            Some(name) => {
                push_address(sheet, self.place)?;
                sheet.extend_from_slice(b"  ")?;
                sheet.extend_from_slice(name)?;
                sheet.push(b'\n')?;
                Ok(())
            }
            None => Ok(()),
        }
    }
}

fn push_number(sheet: &mut Vec<u8>, buffer: &mut Buffer, number: u64) -> Result<(), AllocError>
    ensures { OnOk result (sheet.new.items ≡ sheet.old.items ++ blanks_before 5 (decimal number)) }
{
    let digits = buffer.format(number).as_bytes();
    if digits.len() < NUMBER_WIDTH {
        push_blanks(sheet, NUMBER_WIDTH - digits.len())?;
    }
    sheet.extend_from_slice(digits)
}

/// Adds where bytes stand, and the bytes, with two blanks before and after; blanks as wide where
/// there are no bytes.
fn push_shown(sheet: &mut Vec<u8>, place: u32, bytes: &[u8]) -> Result<(), AllocError>
    requires { place ≤ 65536 }
    ensures { OnOk result (sheet.new.items ≡ sheet.old.items
        ++ (codes "  " ++ (shown_text place bytes.now ++ codes "  "))) }
{
    if bytes.is_empty() {
        return sheet.extend_from_slice(NO_BYTES);
    }
    sheet.extend_from_slice(b"  ")?;
    push_address(sheet, place)?;
    sheet.extend_from_slice(b"  ")?;
    let start = sheet.len();
    push_bytes(sheet, bytes)?;
    let width = sheet.len() - start;
    push_blanks(sheet, BYTES_WIDTH.saturating_sub(width))?;
    sheet.extend_from_slice(b"  ")
}

/// Adds four bytes as their word, one byte, or the number of zeros.
fn push_bytes(sheet: &mut Vec<u8>, bytes: &[u8]) -> Result<(), AllocError>
    ensures { OnOk result (sheet.new.items ≡ sheet.old.items ++ bytes_text bytes.now) }
{
    match bytes {
        [a, b, c, d] => {
            push_byte(sheet, *d)?;
            push_byte(sheet, *c)?;
            push_byte(sheet, *b)?;
            push_byte(sheet, *a)
        }
        [byte] => push_byte(sheet, *byte),
        zeros => {
            let mut buffer = Buffer::new();
            sheet.extend_from_slice(b"00 x ")?;
            sheet.extend_from_slice(buffer.format(zeros.len()).as_bytes())
        }
    }
}

/// Adds the address of a place of the image.
fn push_address(sheet: &mut Vec<u8>, place: u32) -> Result<(), AllocError>
    requires { place ≤ 65536 }
    ensures { OnOk result (sheet.new.items ≡ sheet.old.items ++ address_text place) }
{
    push_hex(sheet, ORIGIN + place)
}

#[tactic(auto, using(crate::proofs::Blanks::some_blanks))]
fn push_blanks(sheet: &mut Vec<u8>, count: usize) -> Result<(), AllocError>
    requires { count ≤ 10 }
    ensures { OnOk result (sheet.new.items ≡ sheet.old.items ++ replicate count 32) }
{
    sheet.extend_from_slice(&BLANKS[..count])
}
