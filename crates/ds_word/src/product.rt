//! Products and quotients of words, each as (HI, LO) (Kane and Heinrich, appendix A: MULT, MULTU,
//! DIV, DIVU).
ghost use Rattle.std.specs.Prelude.{◌≡◌, ◌≤◌, ◌*◌, ◌^◌};
ghost use Rattle.ds_word.specs.Word.{magnitude};
ghost use Rattle.ds_word.specs.Product.{halves, with_sign, product_signed, quotient_signed, quotient_unsigned};

use crate::is_negative;

/// The signed product of 64 bits.
#[inline(always)]
pub fn mul_signed(x: u32, y: u32) -> (u32, u32)
    ensures { result ≡ halves (product_signed x y) }
{
    let product = u64::from(magnitude(x)) * u64::from(magnitude(y));
    if is_negative(x) != is_negative(y) {
        halves(0_u64.wrapping_sub(product))
    } else {
        halves(product)
    }
}

/// The unsigned product of 64 bits.
#[inline(always)]
pub fn mul_unsigned(x: u32, y: u32) -> (u32, u32)
    ensures { result ≡ halves (x * y) }
{
    halves(u64::from(x) * u64::from(y))
}

/// The signed quotient, cut toward zero, in LO, and the remainder, with the dividend's sign, in HI.
/// A division by zero leaves 0 and the dividend.
#[inline(always)]
pub fn div_signed(x: u32, y: u32) -> (u32, u32)
    ensures { result ≡ quotient_signed x y }
{
    if y == 0 {
        return (x, 0);
    }
    let (x_size, y_size) = (magnitude(x), magnitude(y));
    let remainder = with_sign(is_negative(x), x_size % y_size);
    let quotient = with_sign(is_negative(x) != is_negative(y), x_size / y_size);
    (remainder, quotient)
}

/// The unsigned quotient in LO, and the remainder in HI. A division by zero leaves 0 and the
/// dividend.
#[inline(always)]
pub fn div_unsigned(x: u32, y: u32) -> (u32, u32)
    ensures { result ≡ quotient_unsigned x y }
{
    if y == 0 { (x, 0) } else { (x % y, x / y) }
}

/// The upper and the lower word.
#[inline(always)]
fn halves(number: u64) -> (u32, u32)
    ensures { result ≡ halves number }
{
    ((number >> 32) as u32, (number & 0xffff_ffff) as u32)
}

/// The absolute value of a signed word.
#[inline(always)]
fn magnitude(word: u32) -> u32
    ensures value { result ≡ magnitude word }
    ensures small { result ≤ 2 ^ 31 }
{
    if is_negative(word) {
        0_u32.wrapping_sub(word)
    } else {
        word
    }
}

/// A magnitude with its sign, as a word.
#[inline(always)]
fn with_sign(negative: bool, magnitude: u32) -> u32
    ensures { result ≡ with_sign negative magnitude }
{
    if negative {
        0_u32.wrapping_sub(magnitude)
    } else {
        magnitude
    }
}
