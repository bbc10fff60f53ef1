//! The words in which a reason is told.
ghost use Rattle.std.specs.Prelude.{◌≡◌, ◌++◌, OnOk, decimal};
ghost use Rattle.ds_source_reasons.specs.Inner.Plain.{plain_range, plain_reason};
ghost use Rattle.ds_source_reasons.specs.Texts.{after_byte, after_wanted, bound_text, operand_counts_text, least_text, one_number_text, operand_text, operands_text, misplaced_text, is_half, quoted, range_text, reason_text, shown_front, visible};

use crate::elsewhere::mnemonic_instead;
use crate::macros::{directive_instead, macro_instead};
use crate::reason::{RangeReason, SyntaxReason};
use crate::texts::{
    AFTER_NO_REGISTER, AFTER_NOT_A_LABEL, AFTER_NOT_ALIGNED, AFTER_ONE_NUMBER, AFTER_OPERANDS,
    AFTER_RESERVED, AFTER_SPACED_COLON, AFTER_TARGET, AFTER_TEXT, AFTER_UPPER_CASE,
    BYTE_ORDER_MARK, CARRIAGE_RETURN, CHARACTER, COMMENT, EXPRESSION, IN_TWO_STEPS, MACRO, NO_BYTE,
    NO_DIRECTIVE, NO_MNEMONIC, NO_REGISTER, NOT_ALIGNED, ONE_NUMBER, OPERAND, OPERAND_FOUND,
    OPERANDS, OPERANDS_FOUND, OTHER_BYTE, OUT_OF_RANGE, QUOTE, SECOND_COLON, SPACED_COLON, STOP,
    TARGET, TO, WANTED_ADDRESS, WANTED_LABEL, WANTED_NUMBER, WANTED_NUMBER_OR_LABEL,
    WANTED_REGISTER, WANTED_SYSTEM_REGISTER,
};
use ds_asm::{Wanted, front_of};
use ds_text::sheet::push_decimal;
use std::alloc::AllocError;

/// How many characters of a text are shown at most.
pub(crate) const MOST_SHOWN: usize = 40;

/// Adds the words of a reason for which a line can't be read, with what to write in its place.
#[tactic(auto, unfolding(crate::specs::Texts::reason_text))]
pub fn push_syntax_reason(sheet: &mut Vec<u8>, reason: SyntaxReason<'_>) -> Result<(), AllocError>
    ensures { OnOk result (sheet.new.items
        ≡ sheet.old.items ++ reason_text (plain_reason reason.entry)) }
{
    match reason {
        SyntaxReason::ByteOrderMark => push_text(sheet, BYTE_ORDER_MARK),
        SyntaxReason::NoSuchDirective(name) => {
            push_quoted(sheet, NO_DIRECTIVE, name, directive_instead(name))
        }
        SyntaxReason::Macro(name) => push_quoted(sheet, MACRO, name, macro_instead(name)),
        SyntaxReason::NoSuchByte(byte) => push_quoted(sheet, NO_BYTE, &[byte], after_byte(byte)),
        SyntaxReason::CarriageReturn => push_text(sheet, CARRIAGE_RETURN),
        SyntaxReason::SpacedColon(name) => {
            push_quoted(sheet, SPACED_COLON, name, AFTER_SPACED_COLON)
        }
        SyntaxReason::NotALabel(name) => push_quoted(sheet, QUOTE, name, AFTER_NOT_A_LABEL),
        SyntaxReason::SecondColon => push_text(sheet, SECOND_COLON),
        SyntaxReason::UpperCase(name) => push_quoted(sheet, QUOTE, name, AFTER_UPPER_CASE),
        SyntaxReason::NoSuchMnemonic(name) => {
            push_quoted(sheet, NO_MNEMONIC, name, mnemonic_instead(name))
        }
        SyntaxReason::Operands { least, most, found } => push_operands(sheet, least, most, found),
        SyntaxReason::OneNumber(found) => push_one_number(sheet, found),
        SyntaxReason::TextAfter(text) => push_quoted(sheet, QUOTE, text, AFTER_TEXT),
        SyntaxReason::NoSuchRegister(name) => {
            push_quoted(sheet, NO_REGISTER, name, AFTER_NO_REGISTER)
        }
        SyntaxReason::Operand {
            number,
            wanted,
            found,
        } => push_operand(sheet, number, wanted, found),
    }
}

/// Adds the words of a reason for which a statement is out of range, with what to write in its
/// place.
#[tactic(auto, unfolding(crate::specs::Texts::range_text))]
pub fn push_range_reason(sheet: &mut Vec<u8>, reason: RangeReason<'_>) -> Result<(), AllocError>
    ensures { OnOk result (sheet.new.items
        ≡ sheet.old.items ++ range_text (plain_range reason.entry)) }
{
    match reason {
        RangeReason::OutOfRange { found, least, most } => push_bound(sheet, found, least, most),
        RangeReason::NotAligned(place) => push_place(sheet, place),
        RangeReason::Reserved(name) => push_quoted(sheet, QUOTE, name, AFTER_RESERVED),
        RangeReason::Target(label) => push_quoted(sheet, TARGET, label, AFTER_TARGET),
    }
}

fn push_one_number(sheet: &mut Vec<u8>, found: u64) -> Result<(), AllocError>
    ensures { OnOk result (sheet.new.items ≡ sheet.old.items ++ one_number_text found) }
{
    push_text(sheet, ONE_NUMBER)?;
    push_decimal(sheet, found)?;
    push_text(sheet, AFTER_ONE_NUMBER)
}

fn push_operands(sheet: &mut Vec<u8>, least: u64, most: u64, found: u64) -> Result<(), AllocError>
    ensures { OnOk result (sheet.new.items
        ≡ sheet.old.items ++ operands_text least most found) }
{
    push_text(sheet, OPERANDS)?;
    push_counts(sheet, least, most)?;
    push_text(sheet, OPERANDS_FOUND)?;
    push_decimal(sheet, found)?;
    push_text(sheet, AFTER_OPERANDS)
}

fn push_counts(sheet: &mut Vec<u8>, least: u64, most: u64) -> Result<(), AllocError>
    ensures { OnOk result (sheet.new.items ≡ sheet.old.items ++ operand_counts_text least most) }
{
    if least == most {
        return push_decimal(sheet, most);
    }
    push_decimal(sheet, least)?;
    push_text(sheet, TO)?;
    push_decimal(sheet, most)
}

fn push_operand(
    sheet: &mut Vec<u8>,
    number: u64,
    wanted: Wanted,
    found: &[u8],
) -> Result<(), AllocError>
    ensures { OnOk result (sheet.new.items
        ≡ sheet.old.items ++ operand_text number wanted found.now) }
{
    push_text(sheet, OPERAND)?;
    push_decimal(sheet, number)?;
    push_quoted(sheet, OPERAND_FOUND, found, after_wanted(wanted))
}

fn push_bound(sheet: &mut Vec<u8>, found: &[u8], least: u64, most: u64) -> Result<(), AllocError>
    ensures { OnOk result (sheet.new.items ≡ sheet.old.items ++ bound_text found.now least most) }
{
    push_quoted(sheet, QUOTE, found, OUT_OF_RANGE)?;
    push_least(sheet, least)?;
    push_text(sheet, TO)?;
    push_decimal(sheet, most)?;
    push_text(sheet, if is_half(most) { IN_TWO_STEPS } else { STOP })
}

fn push_least(sheet: &mut Vec<u8>, least: u64) -> Result<(), AllocError>
    ensures { OnOk result (sheet.new.items ≡ sheet.old.items ++ least_text least) }
{
    if least > 0 {
        sheet.extend_from_slice(b"-")?;
    }
    push_decimal(sheet, least)
}

fn push_place(sheet: &mut Vec<u8>, place: u64) -> Result<(), AllocError>
    ensures { OnOk result (sheet.new.items ≡ sheet.old.items ++ misplaced_text place) }
{
    push_text(sheet, NOT_ALIGNED)?;
    push_decimal(sheet, 4 - place % 4)?;
    push_text(sheet, AFTER_NOT_ALIGNED)
}

/// Adds a text between two others, as far as it is shown.
pub(crate) fn push_quoted(
    sheet: &mut Vec<u8>,
    front: &str,
    text: &[u8],
    back: &str,
) -> Result<(), AllocError>
    ensures { OnOk result (sheet.new.items
        ≡ sheet.old.items ++ quoted front.now text.now back.now) }
{
    push_text(sheet, front)?;
    push_shown(sheet, text)?;
    push_text(sheet, back)
}

/// Adds the first characters of a text, each that can't be seen as `?`.
fn push_shown(sheet: &mut Vec<u8>, text: &[u8]) -> Result<(), AllocError>
    ensures { OnOk result (sheet.new.items ≡ sheet.old.items ++ shown_front text.now) }
{
    let front = front_of(MOST_SHOWN, text);
    for c in front {
        sheet.push(visible(*c))?;
    }
    Ok(())
}

fn visible(c: u8) -> u8
    ensures { result ≡ visible c }
{
    if 32 <= c && c <= 126 { c } else { b'?' }
}

pub(crate) fn push_text(sheet: &mut Vec<u8>, text: &str) -> Result<(), AllocError>
    ensures { OnOk result (sheet.new.items ≡ sheet.old.items ++ text.now) }
{
    sheet.extend_from_slice(text.as_bytes())
}

/// What is said after a byte that no statement holds.
fn after_byte(byte: u8) -> &'static str
    ensures { result.now ≡ after_byte byte }
{
    match byte {
        b';' | b'/' | b'!' | b'@' => COMMENT,
        b'"' | b'\'' => CHARACTER,
        b'+' | b'*' | b'%' | b'=' | b'<' | b'>' | b'&' | b'|' | b'~' | b'^' => EXPRESSION,
        _ => OTHER_BYTE,
    }
}

/// What is said after an operand that is to be something else.
fn after_wanted(wanted: Wanted) -> &'static str
    ensures { result.now ≡ after_wanted wanted }
{
    match wanted {
        Wanted::Register => WANTED_REGISTER,
        Wanted::SystemRegister => WANTED_SYSTEM_REGISTER,
        Wanted::Number => WANTED_NUMBER,
        Wanted::Label => WANTED_LABEL,
        Wanted::Address => WANTED_ADDRESS,
        Wanted::NumberOrLabel => WANTED_NUMBER_OR_LABEL,
    }
}

/// Whether a number is the greatest of a half, with a sign or without.
fn is_half(most: u64) -> bool
    ensures { result ≡ is_half most }
{
    most == 0x7FFF || most == 0xFFFF
}
