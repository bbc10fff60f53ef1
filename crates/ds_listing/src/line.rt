//! The line of a word.
ghost use Rattle.std.specs.Prelude.{◌≡◌, ◌++◌, OnOk};
ghost use Rattle.std.specs.String.{string_bytes};
ghost use Rattle.ds_isa.specs.Fields.{in_word};
ghost use Rattle.ds_listing.specs.Inner.Laws.{IsLineOf};
ghost use Rattle.ds_listing.specs.NamedTexts.{register_as, text_as};
ghost use Rattle.ds_listing.specs.Inner.Plain.{plain_form};
ghost use Rattle.ds_listing.specs.Texts.{form_by, instruction_by, text_of, word_text};

use crate::form::{Form, form_of};
use crate::law::a_word_is_read_back;
use crate::names::RegisterNames;
use crate::operand::{has_label, is_left_out, push_operands};
use ds_text::string::push_hex;
use std::alloc::AllocError;

/// Adds the text of a word: its instruction as the assembler reads it, or its number after `.word`
/// where it has none. A branch or a jump is its number too, with the instruction in a comment, since
/// the word alone has no label.
#[tactic(auto, using(crate::proofs::NamedTexts::plain_text))]
pub fn push_word(text: &mut String, word: u32) -> Result<(), AllocError>
    ensures text { OnOk result (string_bytes text.new ≡ string_bytes text.old ++ text_of word) }
    ensures read { IsLineOf (text_of word) word }
{
    a_word_is_read_back(word);
    push_word_as(text, word, RegisterNames::Numbers)
}

/// Adds the text of a word as `push_word` does, with registers called by these names. By their numbers
/// it is the same text.
#[tactic(auto, unfolding(crate::specs::NamedTexts::text_as), using(crate::proofs::NamedTexts::plain_text))]
pub fn push_word_as(text: &mut String, word: u32, names: RegisterNames) -> Result<(), AllocError>
    ensures text { OnOk result
        (string_bytes text.new ≡ string_bytes text.old ++ text_as names word) }
    ensures plain { text_as RegisterNames.Numbers word ≡ text_of word }
{
    if word == 0 {
        return text.push_str("nop");
    }
    match form_of(word) {
        Some(form) => push_form(text, &form, word, names),
        None => push_number(text, word),
    }
}

fn push_form(
    text: &mut String,
    form: &Form,
    word: u32,
    names: RegisterNames,
) -> Result<(), AllocError>
    ensures { OnOk result (string_bytes text.new
        ≡ string_bytes text.old ++ form_by (register_as names) word (plain_form form.now)) }
{
    if has_label(form.operands) {
        push_number(text, word)?;
        text.push_str(" # ")?;
    }
    push_instruction(text, form, word, names)
}

fn push_number(text: &mut String, word: u32) -> Result<(), AllocError>
    ensures { OnOk result (string_bytes text.new ≡ string_bytes text.old ++ word_text word) }
{
    text.push_str(".word 0x")?;
    push_hex(text, word)
}

fn push_instruction(
    text: &mut String,
    form: &Form,
    word: u32,
    names: RegisterNames,
) -> Result<(), AllocError>
    ensures { OnOk result (string_bytes text.new
        ≡ string_bytes text.old ++ instruction_by (register_as names) (in_word word) (plain_form form.now)) }
{
    text.push_str(form.name)?;
    if is_left_out(form.operands, word) {
        Ok(())
    } else {
        push_operands(text, form.operands, word, names)
    }
}
