//! Hexadecimal digits.
ghost use Rattle.std.specs.Prelude.{◌≡◌, ◌<◌};
ghost use Rattle.ds_text.specs.Digits.{hex4, hex8, hex_digit, lower_hex_digit};

/// The upper-case hexadecimal digit of a number.
pub fn hex_digit(number: u32) -> u8
    requires { number < 16 }
    ensures value { result ≡ hex_digit number }
    ensures ascii { result < 128 }
{
    let number = number as u8;
    if number < 10 {
        b'0' + number
    } else {
        b'A' - 10 + number
    }
}

/// The lower-case hexadecimal digit of a number.
pub fn lower_hex_digit(value: u8) -> u8
    requires { value < 16 }
    ensures { result ≡ lower_hex_digit value }
{
    if value < 10 {
        b'0' + value
    } else {
        b'a' - 10 + value
    }
}

/// The four digits of a half, the highest first.
#[tactic(auto, unfolding(crate::specs::Digits::hex4))]
pub(crate) fn hex4(half: u32) -> [u8; 4]
    ensures { result ≡ hex4 half }
{
    [
        hex_digit(half / 0x1000 % 16),
        hex_digit(half / 0x100 % 16),
        hex_digit(half / 0x10 % 16),
        hex_digit(half % 16),
    ]
}

/// The eight digits of a word, the highest first.
#[tactic(auto, unfolding(crate::specs::Digits::hex8, crate::specs::Digits::hex4))]
pub fn hex8(word: u32) -> [u8; 8]
    ensures { result ≡ hex8 word }
{
    let [a, b, c, d] = hex4(word / 0x1_0000);
    let [e, f, g, h] = hex4(word % 0x1_0000);
    [a, b, c, d, e, f, g, h]
}
