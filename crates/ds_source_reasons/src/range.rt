//! The reason of a statement that may not stand where it stands.
ghost use Rattle.std.specs.Prelude.{◌≡◌, ◌≤◌, ◌==◌, not, length, option_map};
ghost use Rattle.std.specs.List.{suffix_len};
ghost use Rattle.std.specs.Result.{result_map_both};
ghost use Rattle.ds_asm.specs.Inner.Plain.{plain_line};
ghost use Rattle.ds_source_reasons.specs.Inner.Plain.{plain_range};
ghost use Rattle.ds_source_reasons.specs.Inner.Reasons.{range_reason_of};
ghost use Rattle.ds_source_reasons.specs.Ranges.{cause_in, number_text, range_by, range_cause, target_reason_of};

use crate::line::statement_text;
use crate::reason::RangeReason;
use ds_asm::{Cause, Line, Statement, SyntaxCause, Target, line_of, split_word, trimmed, until};

/// Why the statement of a line, without its line feed, may not stand at a place of the image, in
/// bytes from its beginning. There is none where it may, and where the line can't be read.
#[tactic(auto, unfolding(crate::specs::Inner::Reasons::range_reason_of))]
pub fn range_reason(place: u64, line: &[u8]) -> Option<RangeReason<'_>>
    ensures { option_map plain_range result ≡ range_reason_of place line.now }
{
    range_by(place, line, cause_in(place, line_of(line))?)
}

/// The cause for which the assembler refuses the statement of a line at a place.
fn cause_in(place: u64, line: Result<Line<'_>, SyntaxCause>) -> Option<Cause>
    ensures { result ≡ cause_in place (result_map_both plain_line (λ why. why) line.entry) }
{
    line.ok()?.statement?.cause_at(place)
}

/// The cause of a line that is refused as out of range: that against its statement, or else against
/// its target.
pub(crate) fn range_cause(place: u64, line: &[u8]) -> Cause
    ensures { result ≡ range_cause place line.now }
{
    cause_in(place, line_of(line)).unwrap_or(Cause::OutOfReach)
}

/// The reason of a line by the cause for which its statement is refused at a place.
pub(crate) fn range_by(place: u64, line: &[u8], cause: Cause) -> Option<RangeReason<'_>>
    ensures { option_map plain_range result ≡ range_by place line.now cause }
{
    let text = statement_text(trimmed(until(b'#', line)));
    let (name, after) = split_word(text);
    match cause {
        Cause::OutOfRange(bounds) => Some(RangeReason::OutOfRange {
            found: number_text(after),
            least: u64::from(bounds.least),
            most: u64::from(bounds.most),
        }),
        Cause::NotAligned => Some(RangeReason::NotAligned(place)),
        Cause::Reserved => Some(RangeReason::Reserved(name)),
        Cause::OutOfReach => target_reason(line),
        Cause::Syntax(_) | Cause::DoubleLabel | Cause::TooLong | Cause::UnknownLabel => None,
    }
}

/// The number among operands: a form with a number has it as its last operand, before the register
/// of an address.
fn number_text(operands: &[u8]) -> &[u8]
    ensures { result.now ≡ number_text operands.now }
{
    let count = last_len(operands);
    trimmed(until(b'(', &operands[operands.len() - count..]))
}

/// How many characters stand after the last comma of a text.
fn last_len(text: &[u8]) -> usize
    ensures exact { result ≡ suffix_len (λ c. not (c == 44)) text.now }
    ensures within { result ≤ length text.now }
{
    text.iter().rev().take_while(|c| **c != b',').count()
}

/// The reason of a line, without its line feed, of which the assembler told in its second pass that
/// a target is out of range: the label that it goes to, if it goes to one.
pub fn target_reason(line: &[u8]) -> Option<RangeReason<'_>>
    ensures { option_map plain_range result ≡ target_reason_of line.now }
{
    let Statement::Instruction(instruction) = line_of(line).ok()?.statement? else {
        return None;
    };
    match instruction.target {
        Target::Nowhere => None,
        Target::Branch(label) | Target::Jump(label) => Some(RangeReason::Target(label)),
    }
}
