//! Numbers of a source.
ghost use Rattle.std.specs.Prelude.{◌≡◌};
ghost use Rattle.ds_asm.specs.Numbers.{decimal_of, hexadecimal_of, unsigned_of, written_number, fits_bounds, out_of_range, as_word};

use ds_word::number_of_digits;

/// A number as it is written: a sign and a magnitude.
#[derive(Clone, Copy, Debug, PartialEq, Eq)]
pub struct Number {
    pub negative: bool,
    pub magnitude: u64,
}

/// From where to where a number may be.
#[derive(Clone, Copy, Debug, PartialEq, Eq, Drop)]
pub struct Bounds {
    /// How far below 0 it may be.
    pub least: u32,
    /// The greatest that it may be.
    pub most: u32,
}

/// The most that ten decimal digits say.
const MOST_DECIMAL: u64 = 9_999_999_999;

/// The number of a text: one to ten decimal digits, with or without `-` before them, or `0x` and
/// one to eight hexadecimal digits.
pub fn written_number(text: &[u8]) -> Option<Number>
    ensures { result ≡ written_number text.now }
{
    match text {
        [] => None,
        [b'-', digits @ ..] => {
            let magnitude = decimal_of(digits)?;
            Some(Number {
                negative: true,
                magnitude,
            })
        }
        [_, ..] => {
            let magnitude = unsigned_of(text)?;
            Some(Number {
                negative: false,
                magnitude,
            })
        }
    }
}

fn unsigned_of(text: &[u8]) -> Option<u64>
    ensures { result ≡ unsigned_of text.now }
{
    match text.strip_prefix(b"0x".as_slice()) {
        Some(digits) => hexadecimal_of(digits),
        None => decimal_of(text),
    }
}

fn decimal_of(text: &[u8]) -> Option<u64>
    ensures { result ≡ decimal_of text.now }
{
    if text.len() >= 1 && text.len() <= 10 {
        number_of_digits(10, MOST_DECIMAL, text)
    } else {
        None
    }
}

fn hexadecimal_of(text: &[u8]) -> Option<u64>
    ensures { result ≡ hexadecimal_of text.now }
{
    if text.len() >= 1 && text.len() <= 8 {
        number_of_digits(16, u64::from(u32::MAX), text)
    } else {
        None
    }
}

impl Number {
    /// Whether it is neither below `-least` nor above `most`.
    pub fn fits_bounds(&self, least: u64, most: u64) -> bool
        ensures { result ≡ fits_bounds least most self.now }
    {
        if self.negative {
            self.magnitude <= least
        } else {
            self.magnitude <= most
        }
    }

    /// The bounds, unless it is from `-least` to `most`.
    pub fn out_of_range(&self, least: u32, most: u32) -> Option<Bounds>
        ensures { result ≡ out_of_range least most self.now }
    {
        if self.fits_bounds(u64::from(least), u64::from(most)) {
            None
        } else {
            Some(Bounds { least, most })
        }
    }

    /// The number as a word, in two's complement.
    pub fn as_word(&self) -> u32
        ensures { result ≡ as_word self.now }
    {
        let low = self.magnitude % 0x1_0000_0000;
        if self.negative {
            ((0x1_0000_0000 - low) % 0x1_0000_0000) as u32
        } else {
            low as u32
        }
    }
}
