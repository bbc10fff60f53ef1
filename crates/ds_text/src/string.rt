//! Numbers at the end of a string.
ghost use Rattle.std.specs.Prelude.{◌≡◌, ◌<◌, ◌++◌, ◌∷◌, [], OnOk, decimal};
ghost use Rattle.std.specs.String.{string_bytes};
ghost use Rattle.ds_text.specs.Digits.{hex2, hex4, hex8, hex_digit};

use crate::hexadecimal::hex_digit;
use itoa::Buffer;
use std::alloc::AllocError;

/// Adds a number in decimal digits.
pub fn push_decimal(text: &mut String, number: u64) -> Result<(), AllocError>
    ensures { OnOk result (string_bytes text.new ≡ string_bytes text.old ++ decimal number) }
{
    text.push_str(Buffer::new().format(number))
}

fn push_digit(text: &mut String, number: u32) -> Result<(), AllocError>
    requires { number < 16 }
    ensures { OnOk result
        (string_bytes text.new ≡ string_bytes text.old ++ hex_digit number ∷ []) }
{
    text.push(char::from(hex_digit(number)))
}

/// Adds the two hexadecimal digits of a byte.
pub fn push_byte(text: &mut String, byte: u8) -> Result<(), AllocError>
    ensures { OnOk result (string_bytes text.new ≡ string_bytes text.old ++ hex2 byte) }
{
    push_digit(text, u32::from(byte / 16))?;
    push_digit(text, u32::from(byte % 16))
}

/// Adds the four hexadecimal digits of a half.
#[tactic(auto, unfolding(crate::specs::Digits::hex4))]
pub fn push_half(text: &mut String, half: u32) -> Result<(), AllocError>
    ensures { OnOk result (string_bytes text.new ≡ string_bytes text.old ++ hex4 half) }
{
    push_digit(text, half / 0x1000 % 16)?;
    push_digit(text, half / 0x100 % 16)?;
    push_digit(text, half / 0x10 % 16)?;
    push_digit(text, half % 16)
}

/// Adds the eight hexadecimal digits of a word.
#[tactic(auto, unfolding(crate::specs::Digits::hex8))]
pub fn push_hex(text: &mut String, word: u32) -> Result<(), AllocError>
    ensures { OnOk result (string_bytes text.new ≡ string_bytes text.old ++ hex8 word) }
{
    push_half(text, word / 0x1_0000)?;
    push_half(text, word % 0x1_0000)
}
