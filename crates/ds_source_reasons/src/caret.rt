//! Where in a line stands what a reason quotes of it.
ghost use Rattle.std.specs.Prelude.{◌≡◌, ◌<◌, IfSome, length};
ghost use Rattle.ds_source_reasons.specs.Carets.{caret_place, first_place, quote_of, quoted_place, unless_again};
ghost use Rattle.ds_source_reasons.specs.Inner.Told.{plain_fault};

use crate::fault::FaultReason;
use crate::reason::{RangeReason, SyntaxReason};
use crate::told::MOST_SHOWN;
use ds_asm::until;

/// Where what a reason quotes of its line begins, in bytes: a byte that the line may not hold where
/// it first stands, and any other text if it is shown whole and stands in the line once. Nothing of a
/// comment counts.
pub fn caret_place(reason: FaultReason<'_>, line: &[u8]) -> Option<usize>
    ensures { result ≡ caret_place (plain_fault reason.entry) line.now }
{
    let said = until(b'#', line);
    match reason {
        FaultReason::Syntax(SyntaxReason::NoSuchByte(byte)) => first_place(&[byte], said),
        FaultReason::Syntax(_) | FaultReason::Range(_) => quoted_place(quote_of(reason), said),
    }
}

/// What a reason quotes of its line beside a single byte; nothing where it quotes none.
fn quote_of(reason: FaultReason<'_>) -> &[u8]
    ensures { result.now ≡ quote_of (plain_fault reason.entry) }
{
    match reason {
        FaultReason::Syntax(reason) => match reason {
            SyntaxReason::NoSuchDirective(text)
            | SyntaxReason::Macro(text)
            | SyntaxReason::SpacedColon(text)
            | SyntaxReason::NotALabel(text)
            | SyntaxReason::UpperCase(text)
            | SyntaxReason::NoSuchMnemonic(text)
            | SyntaxReason::TextAfter(text)
            | SyntaxReason::NoSuchRegister(text)
            | SyntaxReason::Operand { found: text, .. } => text,
            SyntaxReason::ByteOrderMark
            | SyntaxReason::NoSuchByte(_)
            | SyntaxReason::CarriageReturn
            | SyntaxReason::SecondColon
            | SyntaxReason::Operands { .. }
            | SyntaxReason::OneNumber(_) => &[],
        },
        FaultReason::Range(reason) => match reason {
            RangeReason::OutOfRange { found: text, .. }
            | RangeReason::Reserved(text)
            | RangeReason::Target(text) => text,
            RangeReason::NotAligned(_) => &[],
        },
    }
}

/// Where a text stands that is shown whole, and stands in a line once.
fn quoted_place(text: &[u8], line: &[u8]) -> Option<usize>
    ensures { result ≡ quoted_place text.now line.now }
{
    if text.is_empty() || text.len() > MOST_SHOWN {
        return None;
    }
    unless_again(text, line, first_place(text, line))
}

fn unless_again(text: &[u8], line: &[u8], place: Option<usize>) -> Option<usize>
    requires { IfSome place (λ n. n < length line.now) }
    ensures { result ≡ unless_again text.now line.now place }
{
    let place = place?;
    match first_place(text, &line[place + 1..]) {
        Some(_) => None,
        None => Some(place),
    }
}

/// Where a text first stands in another.
fn first_place(text: &[u8], line: &[u8]) -> Option<usize>
    ensures exact { result ≡ first_place text.now line.now }
    ensures within { IfSome result (λ n. n < length line.now) }
{
    let mut place = 0;
    let mut rest = line;
    while let [_, afterwards @ ..] = rest {
        if rest.starts_with(text) {
            return Some(place);
        }
        place += 1;
        rest = afterwards;
    }
    None
}
