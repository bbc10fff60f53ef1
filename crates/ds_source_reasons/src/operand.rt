//! Operands that can't be read, and how many there are.
ghost use Rattle.std.specs.Prelude.{◌≡◌, ◌≤◌, ◌-◌, option_map, map, length};
ghost use Rattle.ds_asm.specs.Inner.Forms.{operand_of, written_of};
ghost use Rattle.ds_source_reasons.specs.Inner.Plain.{plain_reason};
ghost use Rattle.ds_source_reasons.specs.Reasons.{WrongOperand, reason_or_count, counted_by, is_no_register, least_of, misfit_by, operand_after, operand_count, register_in};

use crate::characters::{begins_with, count_commas};
use crate::reason::SyntaxReason;
use ds_asm::{
    Directive, Form, Operand, Wanted, before_close, register_of, split_at_first, trimmed,
};

/// The operand after so many others of a text, which commas part.
pub(crate) fn operand_after(count: u64, text: &[u8]) -> &[u8]
    ensures { result.now ≡ operand_after count text.now }
{
    let (front, after) = split_at_first(b',', text);
    if count == 0 {
        return trimmed(front);
    }
    operand_after(count - 1, after.unwrap_or(&[]))
}

/// Why a text can't stand in the place of an operand.
pub(crate) fn misfit(number: u64, wanted: Wanted, text: &[u8]) -> SyntaxReason<'_>
    ensures { plain_reason result
        ≡ misfit_by (register_in wanted text.now) (WrongOperand number wanted text.now) }
{
    match register_in(wanted, text) {
        Some(name) if is_no_register(name) => SyntaxReason::NoSuchRegister(name),
        _ => SyntaxReason::Operand {
            number,
            wanted,
            found: text,
        },
    }
}

/// What stands where a general register has to stand.
fn register_in(wanted: Wanted, text: &[u8]) -> Option<&[u8]>
    ensures { option_map (λ t. t.now) result ≡ register_in wanted text.now }
{
    match wanted {
        Wanted::Register => Some(text),
        Wanted::Address => before_close(split_at_first(b'(', text).1?),
        Wanted::SystemRegister | Wanted::Number | Wanted::Label | Wanted::NumberOrLabel => None,
    }
}

fn is_no_register(name: &[u8]) -> bool
    ensures { result ≡ is_no_register name.now }
{
    begins_with(b'$', name) && register_of(name).is_none()
}

/// How many operands a text has, which commas part.
pub(crate) fn operand_count(text: &[u8]) -> u64
    ensures { result ≡ operand_count text.now }
{
    match text {
        [] => 0,
        [_, ..] => count_commas(text) as u64 + 1,
    }
}

/// The reason, unless it is the number of operands of a statement: a directive has one.
pub(crate) fn reason_or_count<'a>(
    directive: Option<Directive>,
    form: Option<&Form>,
    found: u64,
    reason: SyntaxReason<'a>,
) -> SyntaxReason<'a>
    ensures { plain_reason result ≡ reason_or_count directive
        (option_map (λ f. written_of f.now) form.entry) found (plain_reason reason.entry) }
{
    match (directive, form) {
        (Some(_), _) if found != 1 => SyntaxReason::OneNumber(found),
        (None, Some(form)) => counted_by(form.operands, found, reason),
        _ => reason,
    }
}

/// The same of a form that has operands.
fn counted_by<'a>(operands: &[Operand], found: u64, reason: SyntaxReason<'a>) -> SyntaxReason<'a>
    ensures { plain_reason result
        ≡ counted_by (map operand_of operands.now) found (plain_reason reason.entry) }
{
    let least = least_of(operands) as u64;
    let most = operands.len() as u64;
    if operands.is_empty() || (least <= found && found <= most) {
        reason
    } else {
        SyntaxReason::Operands { least, most, found }
    }
}

/// How many operands have to be written.
fn least_of(operands: &[Operand]) -> usize
    ensures exact { result ≡ least_of (map operand_of operands.now) }
    ensures within { result ≤ length operands.now }
{
    operands
        .iter()
        .filter(|o| !(o.is_code() || o.is_link()))
        .count()
}
