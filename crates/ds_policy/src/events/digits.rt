//! Numbers and bytes in digits.
ghost use Rattle.std.specs.Prelude.{◌≡◌, ◌≤◌, length};
ghost use Rattle.ds_policy.specs.InputNumbers.{decimal_of, address_of, pair_of, pairs_of, written_bytes};

use crate::events::keys::{Keys, MOST_KEYS};
use ds_word::{digit_of, number_of_digits};

/// The number of one to ten decimal digits, up to a limit.
pub(crate) fn decimal_of(limit: u32, word: &[u8]) -> Option<u32>
    ensures { result ≡ decimal_of limit word.now }
{
    if word.len() >= 1 && word.len() <= 10 {
        Some(number_of_digits(10, u64::from(limit), word)? as u32)
    } else {
        None
    }
}

/// The number of eight hexadecimal digits of either case.
pub fn address_of(word: &[u8]) -> Option<u32>
    ensures { result ≡ address_of word.now }
{
    if word.len() == 8 {
        Some(number_of_digits(16, u64::from(u32::MAX), word)? as u32)
    } else {
        None
    }
}

fn pair_of(a: u8, b: u8) -> Option<u8>
    ensures { result ≡ pair_of a b }
{
    let high = digit_of(16, a)?;
    let low = digit_of(16, b)?;
    Some((high * 16 + low) as u8)
}

fn pairs_of(word: &[u8]) -> Option<Keys>
    requires { length word.now ≤ 512 }
    ensures { result ≡ pairs_of word.now }
{
    let mut keys = Keys::new();
    let mut left = word;
    while let [a, b, rest @ ..] = left {
        match pair_of(*a, *b) {
            Some(byte) => keys.push(byte),
            None => return None,
        }
        left = rest;
    }
    if left.is_empty() { Some(keys) } else { None }
}

/// The bytes of 1 to 256 pairs of hexadecimal digits.
pub(crate) fn written_bytes(word: &[u8]) -> Option<Keys>
    ensures { result ≡ written_bytes word.now }
{
    if word.len() >= 2 && word.len() <= 2 * MOST_KEYS {
        pairs_of(word)
    } else {
        None
    }
}
