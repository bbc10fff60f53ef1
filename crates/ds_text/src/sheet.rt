//! Numbers at the end of a sheet of bytes.
ghost use Rattle.std.specs.Prelude.{◌≡◌, ◌++◌, OnOk, decimal};
ghost use Rattle.ds_text.specs.Digits.{hex2, hex8};

use crate::hexadecimal::{hex_digit, hex8};
use itoa::Buffer;
use std::alloc::AllocError;

/// Adds a number in decimal digits.
pub fn push_decimal(sheet: &mut Vec<u8>, number: u64) -> Result<(), AllocError>
    ensures { OnOk result (sheet.new.items ≡ sheet.old.items ++ decimal number) }
{
    sheet.extend_from_slice(Buffer::new().format(number).as_bytes())
}

/// Adds the two hexadecimal digits of a byte.
pub fn push_byte(sheet: &mut Vec<u8>, byte: u8) -> Result<(), AllocError>
    ensures { OnOk result (sheet.new.items ≡ sheet.old.items ++ hex2 byte) }
{
    sheet.extend_from_slice(&[
        hex_digit(u32::from(byte / 16)),
        hex_digit(u32::from(byte % 16)),
    ])
}

/// Adds the eight hexadecimal digits of a word.
pub fn push_hex(sheet: &mut Vec<u8>, word: u32) -> Result<(), AllocError>
    ensures { OnOk result (sheet.new.items ≡ sheet.old.items ++ hex8 word) }
{
    sheet.extend_from_slice(&hex8(word))
}
