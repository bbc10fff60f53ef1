//! Words of 32 bits: the fields of an instruction (Kane and Heinrich, appendix A), what arithmetic
//! makes of words, and the numbers that digits write.
#![tactic(auto)]

mod arithmetic;
mod compare;
mod digits;
mod field;
mod merge;
mod page;
mod part;
mod product;
mod register;

pub use arithmetic::{
    checked_difference, checked_sum, shift_left, shift_right_arithmetic, shift_right_logical,
    sign16, upper, wrapping_difference, wrapping_sum,
};
pub use compare::{is_negative, signed_less};
pub use digits::{digit_of, number_of_digits};
pub use field::{code, funct, imm, op, rd, rs, rt, shamt, target};
pub use merge::{merge_left, merge_right, store_byte, store_half, store_left, store_right};
pub use page::PAGE_SIZE;
pub use part::{byte_signed, byte_unsigned, half_signed, half_unsigned};
pub use product::{div_signed, div_unsigned, mul_signed, mul_unsigned};
pub use register::bit;
