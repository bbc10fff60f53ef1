//! The reason of a line.
ghost use Rattle.std.specs.Prelude.{◌≡◌, ◌==◌, ◌∷◌, [], not, bytes_eq, take, option_map};
ghost use Rattle.std.specs.List.{find};
ghost use Rattle.ds_source_reasons.specs.Inner.Plain.{plain_reason};
ghost use Rattle.ds_source_reasons.specs.Reasons.{cause_reason, has_upper_case, is_written, no_label, no_mnemonic, reason_of, said_reason, statement_reason, statement_text};

use crate::characters::{begins_with, has_byte};
use crate::macros::is_macro;
use crate::operand::{misfit, operand_after, operand_count, reason_or_count};
use crate::reason::SyntaxReason;
use ds_asm::{
    SyntaxCause, directive_named, form_named, is_blank, is_digit, is_letter, is_name, line_of,
    split_at_first, split_word, trimmed, until, without_back_blanks,
};

/// Why a line of a source, without its line feed, can't be read. There is none where it can.
#[tactic(auto, unfolding(crate::specs::Reasons::reason_of))]
pub fn syntax_reason(line: &[u8]) -> Option<SyntaxReason<'_>>
    ensures { option_map plain_reason result ≡ reason_of line.now }
{
    match line_of(line) {
        Ok(_) => None,
        Err(cause) => Some(said_reason(trimmed(until(b'#', line)), cause)),
    }
}

/// Why what a line says up to its comment can't be read, by the cause that the assembler answers.
fn said_reason(text: &[u8], cause: SyntaxCause) -> SyntaxReason<'_>
    ensures { plain_reason result ≡ said_reason text.now cause }
{
    let statement = statement_text(text);
    let (name, _) = split_word(statement);
    if has_mark(text) {
        SyntaxReason::ByteOrderMark
    } else if begins_with(b'.', name) && directive_named(name).is_none() {
        SyntaxReason::NoSuchDirective(name)
    } else if is_macro(name) {
        SyntaxReason::Macro(name)
    } else if let Some(byte) = odd_byte(text) {
        SyntaxReason::NoSuchByte(*byte)
    } else if has_byte(b'\r', text) {
        SyntaxReason::CarriageReturn
    } else {
        cause_reason(cause, text, statement)
    }
}

/// Why a label or a statement can't be read.
fn cause_reason<'a>(cause: SyntaxCause, text: &'a [u8], statement: &'a [u8]) -> SyntaxReason<'a>
    ensures { plain_reason result ≡ cause_reason cause text.now statement.now }
{
    match cause {
        SyntaxCause::NotALabel => no_label(until(b':', text)),
        _ if has_byte(b':', statement) => SyntaxReason::SecondColon,
        _ => {
            let (name, operands) = split_word(statement);
            let reason = statement_reason(cause, name, operands);
            reason_or_count(
                directive_named(name),
                form_named(name),
                operand_count(operands),
                reason,
            )
        }
    }
}

/// Why a statement can't be read, by its first word and what stands after it.
#[tactic(auto, unfolding(crate::specs::Reasons::statement_reason))]
fn statement_reason<'a>(cause: SyntaxCause, name: &'a [u8], text: &'a [u8]) -> SyntaxReason<'a>
    ensures { plain_reason result ≡ statement_reason cause name.now text.now }
{
    match cause {
        SyntaxCause::TooMany => SyntaxReason::TextAfter(text),
        SyntaxCause::TextAfter(number) => {
            let (_, after) = split_word(operand_after(number.saturating_sub(1), text));
            SyntaxReason::TextAfter(after)
        }
        SyntaxCause::Operand { number, wanted } => {
            misfit(
                number,
                wanted,
                operand_after(number.saturating_sub(1), text),
            )
        }
        SyntaxCause::NoSuchName | SyntaxCause::NotALabel => no_mnemonic(name),
    }
}

fn no_mnemonic(name: &[u8]) -> SyntaxReason<'_>
    ensures { plain_reason result ≡ no_mnemonic name.now }
{
    if has_upper_case(name) {
        SyntaxReason::UpperCase(name)
    } else {
        SyntaxReason::NoSuchMnemonic(name)
    }
}

fn has_upper_case(text: &[u8]) -> bool
    ensures { result ≡ has_upper_case text.now }
{
    text.iter().any(|c| b'A' <= *c && *c <= b'Z')
}

/// What stands after the label, where there is one.
pub(crate) fn statement_text(text: &[u8]) -> &[u8]
    ensures { result.now ≡ statement_text text.now }
{
    let (name, afterwards) = split_at_first(b':', text);
    match afterwards {
        Some(rest) if is_name(name) => trimmed(rest),
        _ => text,
    }
}

fn no_label(name: &[u8]) -> SyntaxReason<'_>
    ensures { plain_reason result ≡ no_label name.now }
{
    let label = without_back_blanks(name);
    if is_name(label) {
        SyntaxReason::SpacedColon(label)
    } else {
        SyntaxReason::NotALabel(name)
    }
}

fn has_mark(text: &[u8]) -> bool
    ensures { result ≡ bytes_eq (take 3 text.now) (0xEF ∷ 0xBB ∷ 0xBF ∷ []) }
{
    text.starts_with(&[0xEF, 0xBB, 0xBF])
}

/// The first byte that no label and no statement may hold.
fn odd_byte(text: &[u8]) -> Option<&u8>
    ensures { option_map (λ b. b.now) result ≡ find (λ c. not (is_written c)) text.now }
{
    text.iter().find(|c| !is_written(**c))
}

fn is_written(c: u8) -> bool
    ensures { result ≡ is_written c }
{
    is_letter(c)
        || is_digit(c)
        || is_blank(c)
        || c == b'$'
        || c == b'('
        || c == b')'
        || c == b','
        || c == b'-'
        || c == b'.'
        || c == b':'
}
