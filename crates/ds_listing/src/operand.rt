//! The operands of an instruction, as a source writes them.
ghost use Rattle.std.specs.Prelude.{◌≡◌, ◌++◌, OnOk, map};
ghost use Rattle.std.specs.List.{list_any};
ghost use Rattle.std.specs.String.{string_bytes};
ghost use Rattle.ds_isa.specs.Fields.{in_word};
ghost use Rattle.ds_asm.specs.Inner.Forms.{field_of, operand_of};
ghost use Rattle.ds_listing.specs.NamedTexts.{register_as};
ghost use Rattle.ds_listing.specs.Texts.{operand_by, operands_by, others_by, is_left_out, is_label, has_label, unsigned_text};

use crate::digits::{push_distance, push_signed};
use crate::names::{RegisterNames, push_numbered, push_register};
use ds_asm::{Operand, Place};
use ds_text::string::{push_decimal, push_half, push_hex};
use std::alloc::AllocError;

/// What a word has in a place.
fn value_at(place: Place, word: u32) -> u32
    ensures { result ≡ in_word word (field_of place) }
{
    match place {
        Place::Rs => u32::from(ds_word::rs(word)),
        Place::Rt => u32::from(ds_word::rt(word)),
        Place::Rd => u32::from(ds_word::rd(word)),
        Place::Shamt => u32::from(ds_word::shamt(word)),
        Place::Immediate => u32::from(ds_word::imm(word)),
        Place::Code => ds_word::code(word),
        Place::Target => ds_word::target(word),
    }
}

/// Adds a number from 0 up, which in a half is hexadecimal.
fn push_unsigned(text: &mut String, place: Place, word: u32) -> Result<(), AllocError>
    ensures { OnOk result (string_bytes text.new ≡ string_bytes text.old
        ++ unsigned_text (field_of place).width (in_word word (field_of place))) }
{
    match place {
        Place::Immediate => {
            text.push_str("0x")?;
            push_half(text, value_at(place, word))
        }
        Place::Rs | Place::Rt | Place::Rd | Place::Shamt | Place::Code | Place::Target => {
            push_decimal(text, u64::from(value_at(place, word)))
        }
    }
}

/// Adds what a word has in an operand's place, with registers called by these names.
fn push_operand(
    text: &mut String,
    operand: Operand,
    word: u32,
    names: RegisterNames,
) -> Result<(), AllocError>
    ensures { OnOk result (string_bytes text.new
        ≡ string_bytes text.old ++ operand_by (register_as names) (in_word word) (operand_of operand)) }
{
    match operand {
        Operand::Register(place) => push_numbered(text, value_at(place, word), names),
        Operand::LinkRegister => push_register(text, ds_word::rd(word), names),
        Operand::SystemRegister => push_register(text, ds_word::rd(word), RegisterNames::Numbers),
        Operand::Number(place) => push_unsigned(text, place, word),
        Operand::Code => push_decimal(text, u64::from(ds_word::code(word))),
        Operand::Signed => push_signed(text, ds_word::imm(word)),
        Operand::Branch => push_distance(text, ds_word::imm(word)),
        Operand::Jump => {
            text.push_str("0x")?;
            push_hex(text, 4 * ds_word::target(word))
        }
        Operand::Indexed => {
            push_signed(text, ds_word::imm(word))?;
            text.push('(')?;
            push_register(text, ds_word::rs(word), names)?;
            text.push(')')
        }
    }
}

/// Whether a label is among operands.
pub(crate) fn has_label(operands: &[Operand]) -> bool
    ensures { result ≡ has_label (map operand_of operands.now) }
{
    any_label(operands)
}

fn any_label(operands: &[Operand]) -> bool
    ensures { result ≡ list_any (λ o. is_label (operand_of o)) operands.now }
{
    operands.iter().any(|o| is_label(*o))
}

#[tactic(auto, unfolding(crate::specs::Texts::is_label))]
fn is_label(operand: Operand) -> bool
    ensures { result ≡ is_label (operand_of operand) }
{
    matches!(operand, Operand::Branch | Operand::Jump)
}

/// Whether the only operand is a code that is 0.
pub(crate) fn is_left_out(operands: &[Operand], word: u32) -> bool
    ensures { result ≡ is_left_out (in_word word) (map operand_of operands.now) }
{
    match operands {
        [Operand::Code] => ds_word::code(word) == 0,
        _ => false,
    }
}

/// Adds operands after a blank, with commas between them.
pub(crate) fn push_operands(
    text: &mut String,
    operands: &[Operand],
    word: u32,
    names: RegisterNames,
) -> Result<(), AllocError>
    ensures { OnOk result (string_bytes text.new ≡ string_bytes text.old
        ++ operands_by (register_as names) (in_word word) (map operand_of operands.now)) }
{
    match operands {
        [] => Ok(()),
        [first, others @ ..] => {
            text.push(' ')?;
            push_operand(text, *first, word, names)?;
            push_others(text, others, word, names)
        }
    }
}

fn push_others(
    text: &mut String,
    operands: &[Operand],
    word: u32,
    names: RegisterNames,
) -> Result<(), AllocError>
    ensures { OnOk result (string_bytes text.new ≡ string_bytes text.old
        ++ others_by (register_as names) (in_word word) (map operand_of operands.now)) }
{
    for operand in operands {
        text.push(',')?;
        push_operand(text, *operand, word, names)?;
    }
    Ok(())
}
