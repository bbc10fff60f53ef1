//! Numbers in digits.
ghost use Rattle.std.specs.Prelude.{◌≡◌, ◌<◌, ◌++◌, OnOk};
ghost use Rattle.ds_gdb.specs.Digits.{low_first_text, number_text, word_or_none};

use ds_packets::push_hex;
use ds_text::lower_hex_digit;
use std::alloc::AllocError;

/// Adds a word in hexadecimal digits, its lowest byte first.
pub fn push_word(text: &mut Vec<u8>, word: u32) -> Result<(), AllocError>
    ensures { OnOk result (text.new.items ≡ text.old.items ++ low_first_text word) }
{
    push_hex(
        text,
        &[
            (word % 0x100) as u8,
            (word / 0x100 % 0x100) as u8,
            (word / 0x1_0000 % 0x100) as u8,
            (word / 0x100_0000) as u8,
        ],
    )
}

/// Adds a number in hexadecimal digits, with no zero before it.
pub fn push_number(text: &mut Vec<u8>, number: u8) -> Result<(), AllocError>
    ensures { OnOk result (text.new.items ≡ text.old.items ++ number_text number) }
{
    if number < 16 {
        text.extend_from_slice(&[lower_hex_digit(number)])
    } else {
        push_hex(text, &[number])
    }
}

/// Adds a word, or a sign for one that is not told.
pub fn push_word_or_none(text: &mut Vec<u8>, word: Option<u32>) -> Result<(), AllocError>
    ensures { OnOk result (text.new.items ≡ text.old.items ++ word_or_none word) }
{
    match word {
        Some(word) => push_word(text, word),
        None => text.extend_from_slice(b"xxxxxxxx"),
    }
}
