//! What arithmetic makes of words. Sums and shifts wrap modulo 2^32.
ghost use Rattle.std.specs.Prelude.{◌≡◌, ◌<◌, ◌+◌, ◌-◌, ◌*◌, ◌/◌, ◌%◌, ◌^◌};
ghost use Rattle.ds_word.specs.Word.{word, minus, sign_extended};
ghost use Rattle.ds_word.specs.Arithmetic.{signed_sum, signed_difference, shifted_arithmetic, wrong_sign};

use crate::is_negative;

/// An immediate with its sign carried to 32 bits.
#[inline(always)]
pub fn sign16(immediate: u16) -> u32
    ensures { result ≡ sign_extended 16 immediate }
{
    u32::from(immediate.wrapping_add(0x8000)).wrapping_sub(0x8000)
}

/// An immediate as the upper half of a word, above zeros.
#[inline(always)]
pub fn upper(immediate: u16) -> u32
    ensures { result ≡ immediate * 2 ^ 16 }
{
    u32::from(immediate) << 16
}

/// The sum, which wraps.
#[inline(always)]
pub fn wrapping_sum(a: u32, b: u32) -> u32
    ensures { result ≡ word (a + b) }
{
    a.wrapping_add(b)
}

/// The difference, which wraps.
#[inline(always)]
pub fn wrapping_difference(a: u32, b: u32) -> u32
    ensures { result ≡ minus a b }
{
    a.wrapping_sub(b)
}

/// The signed sum, `None` where a word does not hold it.
#[inline(always)]
pub fn checked_sum(a: u32, b: u32) -> Option<u32>
    ensures { result ≡ signed_sum a b }
{
    let sum = wrapping_sum(a, b);
    if has_wrong_sign(is_negative(a), is_negative(b), is_negative(sum)) {
        None
    } else {
        Some(sum)
    }
}

/// The signed difference, `None` where a word does not hold it.
#[inline(always)]
pub fn checked_difference(a: u32, b: u32) -> Option<u32>
    ensures { result ≡ signed_difference a b }
{
    let difference = wrapping_difference(a, b);
    if has_wrong_sign(is_negative(a), !is_negative(b), is_negative(difference)) {
        None
    } else {
        Some(difference)
    }
}

/// The value shifted left by the low five bits of an amount.
#[inline(always)]
pub fn shift_left(value: u32, amount: u8) -> u32
    ensures { result ≡ word (value * 2 ^ (amount % 32)) }
{
    value << (amount % 32)
}

/// The value shifted right by the low five bits of an amount, below zeros.
#[inline(always)]
pub fn shift_right_logical(value: u32, amount: u8) -> u32
    ensures { result ≡ value / 2 ^ (amount % 32) }
{
    value >> (amount % 32)
}

/// The value shifted right by the low five bits of an amount, below copies of its sign.
#[inline(always)]
pub fn shift_right_arithmetic(value: u32, amount: u8) -> u32
    ensures { result ≡ shifted_arithmetic value (amount % 32) }
{
    let places = amount % 32;
    if is_negative(value) {
        below_ones(value, places)
    } else {
        value >> places
    }
}

/// Whether a sum's sign is that of neither operand.
#[inline(always)]
fn has_wrong_sign(a: bool, b: bool, sum: bool) -> bool
    ensures { result ≡ wrong_sign a b sum }
{
    a == b && sum != a
}

/// The value moved right by some places, below ones.
#[inline(always)]
fn below_ones(value: u32, places: u8) -> u32
    requires { places < 32 }
    ensures { result ≡ value / 2 ^ places + (2 ^ 32 - 2 ^ (32 - places)) }
{
    (value >> places) | !(0xffff_ffff >> places)
}
