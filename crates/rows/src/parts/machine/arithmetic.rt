//! What arithmetic makes of words, and the fields of an instruction.

use crate::parts::numbers::Numbers;
use crate::parts::told::{Answer, Token};
use crate::parts::verbs::{Row, row_of};
use ds_word::{
    byte_signed, byte_unsigned, checked_difference, checked_sum, code, div_signed, div_unsigned,
    funct, half_signed, half_unsigned, imm, is_negative, merge_left, merge_right, mul_signed,
    mul_unsigned, op, rd, rs, rt, shamt, shift_left, shift_right_arithmetic, shift_right_logical,
    sign16, signed_less, store_byte, store_half, store_left, store_right, target, upper,
    wrapping_difference, wrapping_sum,
};

/// A function of words.
#[derive(Clone, Copy)]
pub enum Function {
    /// The six fields of a word.
    Fields,
    OfOne(OfOne),
    ToOne(ToOne),
    ToTwo(ToTwo),
    OfPlace(OfPlace),
}

/// A function of one word.
#[derive(Clone, Copy)]
pub enum OfOne {
    Imm,
    Target,
    Code,
    Sign16,
    Upper,
    IsNegative,
}

/// A function of two words that makes one, or of a word and a place in it.
#[derive(Clone, Copy)]
pub enum ToOne {
    WrappingSum,
    WrappingDifference,
    SignedLess,
    ShiftLeft,
    ShiftRightLogical,
    ShiftRightArithmetic,
    ByteUnsigned,
    ByteSigned,
    HalfUnsigned,
    HalfSigned,
}

/// A function of two words that makes two, or that may make none.
#[derive(Clone, Copy)]
pub enum ToTwo {
    MulSigned,
    MulUnsigned,
    DivSigned,
    DivUnsigned,
    CheckedSum,
    CheckedDifference,
}

/// A function of a word, a register and a place in the word.
#[derive(Clone, Copy)]
pub enum OfPlace {
    MergeLeft,
    MergeRight,
    StoreLeft,
    StoreRight,
    StoreByte,
    StoreHalf,
}

/// The words of functions of one word.
static OF_ONE: [Row<OfOne>; 6] = [
    ("imm", 1, 1, OfOne::Imm),
    ("target", 1, 1, OfOne::Target),
    ("code", 1, 1, OfOne::Code),
    ("sign16", 1, 1, OfOne::Sign16),
    ("upper", 1, 1, OfOne::Upper),
    ("is_negative", 1, 1, OfOne::IsNegative),
];

/// Those of two words that make one, or of a word and a place in it.
static TO_ONE: [Row<ToOne>; 10] = [
    ("wrapping_sum", 2, 2, ToOne::WrappingSum),
    ("wrapping_difference", 2, 2, ToOne::WrappingDifference),
    ("signed_less", 2, 2, ToOne::SignedLess),
    ("shift_left", 2, 2, ToOne::ShiftLeft),
    ("shift_right_logical", 2, 2, ToOne::ShiftRightLogical),
    ("shift_right_arithmetic", 2, 2, ToOne::ShiftRightArithmetic),
    ("byte_unsigned", 2, 2, ToOne::ByteUnsigned),
    ("byte_signed", 2, 2, ToOne::ByteSigned),
    ("half_unsigned", 2, 2, ToOne::HalfUnsigned),
    ("half_signed", 2, 2, ToOne::HalfSigned),
];

/// Those of two words that make two, or that may make none.
static TO_TWO: [Row<ToTwo>; 6] = [
    ("mul_signed", 2, 2, ToTwo::MulSigned),
    ("mul_unsigned", 2, 2, ToTwo::MulUnsigned),
    ("div_signed", 2, 2, ToTwo::DivSigned),
    ("div_unsigned", 2, 2, ToTwo::DivUnsigned),
    ("checked_sum", 2, 2, ToTwo::CheckedSum),
    ("checked_difference", 2, 2, ToTwo::CheckedDifference),
];

/// Those of a word, a register and a place in the word.
static OF_PLACE: [Row<OfPlace>; 6] = [
    ("merge_left", 3, 3, OfPlace::MergeLeft),
    ("merge_right", 3, 3, OfPlace::MergeRight),
    ("store_left", 3, 3, OfPlace::StoreLeft),
    ("store_right", 3, 3, OfPlace::StoreRight),
    ("store_byte", 3, 3, OfPlace::StoreByte),
    ("store_half", 3, 3, OfPlace::StoreHalf),
];

/// The function of a word, and how many numbers stand after it at least and at most.
pub fn function_of(word: &str) -> Option<(usize, usize, Function)> {
    if word == "fields" {
        return Some((1, 1, Function::Fields));
    }
    if let Some((least, most, function)) = row_of(&OF_ONE, word) {
        return Some((least, most, Function::OfOne(function)));
    }
    if let Some((least, most, function)) = row_of(&TO_ONE, word) {
        return Some((least, most, Function::ToOne(function)));
    }
    if let Some((least, most, function)) = row_of(&TO_TWO, word) {
        return Some((least, most, Function::ToTwo(function)));
    }
    let (least, most, function) = row_of(&OF_PLACE, word)?;
    Some((least, most, Function::OfPlace(function)))
}

/// What a function of words answers; none where it has no such operands.
pub fn answer(function: Function, numbers: &Numbers) -> Option<Answer> {
    let (a, b, c) = (numbers.all[0], numbers.all[1], numbers.all[2]);
    let word = match function {
        Function::Fields => return Some(fields(a)),
        Function::ToTwo(function) => return Some(to_two(function, a, b)),
        Function::OfOne(function) => of_one(function, a)?,
        Function::ToOne(function) => to_one(function, a, b)?,
        Function::OfPlace(function) => of_place(function, a, b, c)?,
    };
    Some(Answer::hex(word))
}

/// The six fields of a word, by their numbers.
fn fields(word: u32) -> Answer {
    Answer::of(&[
        Token::Number(u32::from(op(word))),
        Token::Number(u32::from(rs(word))),
        Token::Number(u32::from(rt(word))),
        Token::Number(u32::from(rd(word))),
        Token::Number(u32::from(shamt(word))),
        Token::Number(u32::from(funct(word))),
    ])
}

/// What a function of one word makes.
fn of_one(function: OfOne, word: u32) -> Option<u32> {
    Some(match function {
        OfOne::Imm => imm(word) as u32,
        OfOne::Target => target(word),
        OfOne::Code => code(word),
        OfOne::IsNegative => is_negative(word) as u32,
        _ if word > 0xffff => return None,
        OfOne::Sign16 => sign16(word as u16),
        OfOne::Upper => upper(word as u16),
    })
}

/// What a function of two words makes, or of a word and a place in it.
fn to_one(function: ToOne, a: u32, b: u32) -> Option<u32> {
    Some(match function {
        ToOne::WrappingSum => wrapping_sum(a, b),
        ToOne::WrappingDifference => wrapping_difference(a, b),
        ToOne::SignedLess => signed_less(a, b) as u32,
        _ if b > 0xff => return None,
        ToOne::ShiftLeft => shift_left(a, b as u8),
        ToOne::ShiftRightLogical => shift_right_logical(a, b as u8),
        ToOne::ShiftRightArithmetic => shift_right_arithmetic(a, b as u8),
        _ if b > 3 => return None,
        ToOne::ByteUnsigned => byte_unsigned(a, b),
        ToOne::ByteSigned => byte_signed(a, b),
        ToOne::HalfUnsigned => half_unsigned(a, b),
        ToOne::HalfSigned => half_signed(a, b),
    })
}

/// What a function of a word, a register and a place in the word makes.
fn of_place(function: OfPlace, word: u32, register: u32, place: u32) -> Option<u32> {
    Some(match function {
        _ if place > 3 => return None,
        OfPlace::MergeLeft => merge_left(word, register, place),
        OfPlace::MergeRight => merge_right(word, register, place),
        OfPlace::StoreLeft => store_left(word, register, place),
        OfPlace::StoreRight => store_right(word, register, place),
        OfPlace::StoreByte => store_byte(word, register, place),
        OfPlace::StoreHalf if place > 2 => return None,
        OfPlace::StoreHalf => store_half(word, register, place),
    })
}

/// What a function of two words makes that makes two, or that may make none.
fn to_two(function: ToTwo, a: u32, b: u32) -> Answer {
    let (high, low) = match function {
        ToTwo::MulSigned => mul_signed(a, b),
        ToTwo::MulUnsigned => mul_unsigned(a, b),
        ToTwo::DivSigned => div_signed(a, b),
        ToTwo::DivUnsigned => div_unsigned(a, b),
        ToTwo::CheckedSum => return told(checked_sum(a, b)),
        ToTwo::CheckedDifference => return told(checked_difference(a, b)),
    };
    Answer::of(&[Token::Hex(high), Token::Hex(low)])
}

/// A word, or - for none.
fn told(word: Option<u32>) -> Answer {
    match word {
        Some(word) => Answer::hex(word),
        None => Answer::said("-"),
    }
}
