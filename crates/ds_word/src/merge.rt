//! Loads and stores of part of an aligned word (Kane and Heinrich, appendix A: SB, SH, LWL, LWR, SWL,
//! SWR).
//! The byte of the word that is addressed, `b`, is from 0 for the lowest to 3.
ghost use Rattle.std.specs.Prelude.{◌≡◌, ◌≤◌, ◌+◌, ◌-◌, ◌*◌, ◌/◌, ◌%◌, ◌^◌};
ghost use Rattle.ds_word.specs.Word.{word};
ghost use Rattle.ds_word.specs.Merge.{merged_left, merged_right, stored_left, stored_right, with_bits};

/// The register after LWL: the word's bytes up to `b` above the register's low bytes.
#[inline(always)]
pub fn merge_left(word: u32, reg: u32, b: u32) -> u32
    requires { b ≤ 3 }
    ensures { result ≡ merged_left word b reg }
{
    shifted_up(word, reg, 24 - 8 * b)
}

/// The register after LWR: the word's bytes from `b` on below the register's high bytes.
#[inline(always)]
pub fn merge_right(word: u32, reg: u32, b: u32) -> u32
    requires { b ≤ 3 }
    ensures { result ≡ merged_right word b reg }
{
    shifted_down(word, reg, 8 * b)
}

/// The word after SWL: the register's high bytes below the word's bytes beyond `b`.
#[inline(always)]
pub fn store_left(word: u32, reg: u32, b: u32) -> u32
    requires { b ≤ 3 }
    ensures { result ≡ stored_left word b reg }
{
    shifted_down(reg, word, 24 - 8 * b)
}

/// The word after SWR: the register's low bytes above the word's bytes short of `b`.
#[inline(always)]
pub fn store_right(word: u32, reg: u32, b: u32) -> u32
    requires { b ≤ 3 }
    ensures { result ≡ stored_right word b reg }
{
    shifted_up(reg, word, 8 * b)
}

/// The word after SB: the byte is the register's lowest.
#[inline(always)]
pub fn store_byte(word: u32, reg: u32, b: u32) -> u32
    requires { b ≤ 3 }
    ensures { result ≡ with_bits word (8 * b) 8 reg }
{
    shifted_up(shifted_up(word >> (8 * b) >> 8, reg, 8), word, 8 * b)
}

/// The word after SH: the half from the byte on is the register's lower.
#[inline(always)]
pub fn store_half(word: u32, reg: u32, b: u32) -> u32
    requires { b ≤ 2 }
    ensures { result ≡ with_bits word (8 * b) 16 reg }
{
    shifted_up(shifted_up(word >> (8 * b) >> 16, reg, 16), word, 8 * b)
}

/// `upper` moved up by `shift` bits, with the low bits of `lower` below it.
#[inline(always)]
fn shifted_up(upper: u32, lower: u32, shift: u32) -> u32
    requires { shift ≤ 24 }
    ensures { result ≡ word (upper * 2 ^ shift) + lower % 2 ^ shift }
{
    (upper << shift) | (lower & ((1 << shift) - 1))
}

/// `lower` moved down by `shift` bits, with the high bits of `upper` above it.
#[inline(always)]
fn shifted_down(lower: u32, upper: u32, shift: u32) -> u32
    requires { shift ≤ 24 }
    ensures { result ≡ lower / 2 ^ shift + upper / 2 ^ (32 - shift) * 2 ^ (32 - shift) }
{
    (upper & !(0xffff_ffff >> shift)) | (lower >> shift)
}
