//! Loads of a byte and of a half of an aligned word (Kane and Heinrich, appendix A: LB, LBU, LH,
//! LHU). The byte of the word that is addressed, `b`, is from 0 for the lowest to 3.
ghost use Rattle.std.specs.Prelude.{◌≡◌, ◌≤◌, ◌*◌};
ghost use Rattle.ds_word.specs.Word.{bits, sign_extended};

use crate::sign16;

/// The byte, below zeros.
#[inline(always)]
pub fn byte_unsigned(word: u32, b: u32) -> u32
    requires { b ≤ 3 }
    ensures { result ≡ bits word (8 * b) 8 }
{
    (word >> (8 * b)) & 0xff
}

/// The byte with its sign carried to 32 bits.
#[inline(always)]
pub fn byte_signed(word: u32, b: u32) -> u32
    requires { b ≤ 3 }
    ensures { result ≡ sign_extended 8 (bits word (8 * b) 8) }
{
    let byte = byte_unsigned(word, b);
    if byte < 0x80 {
        byte
    } else {
        byte + 0xffff_ff00
    }
}

/// The half from the byte on, below zeros; from byte 3 on it is that byte.
#[inline(always)]
pub fn half_unsigned(word: u32, b: u32) -> u32
    requires { b ≤ 3 }
    ensures { result ≡ bits word (8 * b) 16 }
{
    (word >> (8 * b)) & 0xffff
}

/// The same with the half's sign carried to 32 bits.
#[inline(always)]
pub fn half_signed(word: u32, b: u32) -> u32
    requires { b ≤ 3 }
    ensures { result ≡ sign_extended 16 (bits word (8 * b) 16) }
{
    sign16(half_unsigned(word, b) as u16)
}
