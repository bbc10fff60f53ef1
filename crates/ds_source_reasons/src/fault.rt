//! The reasons of the faults of a source.
ghost use Rattle.std.specs.Prelude.{◌≡◌, ◌++◌, ◌-◌, OnOk, option_map};
ghost use Rattle.ds_asm.specs.Assembling.{source_fault_line};
ghost use Rattle.ds_source_reasons.specs.Told.{after_line, after_lines, fault_text, line_after, offset_after, fault_reason_at, told_reason};
ghost use Rattle.ds_source_reasons.specs.Inner.Told.{plain_fault};

use crate::line::syntax_reason;
use crate::range::{range_by, range_cause};
use crate::reason::{RangeReason, SyntaxReason};
use crate::told::{push_range_reason, push_syntax_reason};
use ds_asm::{SourceFault, first_line, source_line};
use std::alloc::AllocError;

/// The reason of a fault.
#[derive(Clone, Copy, Debug, PartialEq, Eq)]
pub enum FaultReason<'a> {
    /// Why the line can't be read.
    Syntax(SyntaxReason<'a>),
    /// Why its statement is out of range.
    Range(RangeReason<'a>),
}

/// The lines of a source, of which some were passed.
#[derive(Clone, Copy, Debug, PartialEq, Eq)]
pub struct FaultyLines<'a> {
    rest: &'a [u8],
    passed: u64,
}

impl<'a> FaultyLines<'a> {
    /// All lines of a source.
    pub fn of(text: &'a [u8]) -> FaultyLines<'a>
        ensures rest { result.rest.now ≡ text.now }
        ensures passed { result.passed ≡ 0 }
    {
        FaultyLines {
            rest: text,
            passed: 0,
        }
    }

    /// The reason of a fault in a line that was not passed, and passes that line: faults are asked
    /// for in the order of their lines. Bytes of the image are counted from the line passed last, as
    /// the assembler does after a fault. `UnknownLabel`, `DoubleLabel` and `TooLong` have no reason.
    pub fn reason(&mut self, fault: SourceFault) -> Option<FaultReason<'a>>
        ensures reason { option_map plain_fault result
            ≡ fault_reason_at (source_fault_line fault - self.old.passed - 1) fault self.old.rest.now }
        ensures rest { self.new.rest.now ≡ after_line
            (after_lines (source_fault_line fault - self.old.passed - 1) self.old.rest.now) }
        ensures passed { self.new.passed ≡ source_fault_line fault }
    {
        let line = fault.line();
        let count = line.saturating_sub(self.passed).saturating_sub(1);
        let (place, rest) = past(count, self.rest);
        let (text, afterwards) = first_line(rest);
        self.rest = afterwards;
        self.passed = line;
        fault_reason(fault, place, text)
    }
}

/// What stands after so many lines, and how far behind a multiple of four their bytes end.
fn past(count: u64, text: &[u8]) -> (u64, &[u8])
    ensures place { result.0 ≡ offset_after count 0 text.now }
    ensures rest { result.1.now ≡ after_lines count text.now }
{
    let mut place = 0u64;
    let mut rest = text;
    for _ in 0..count {
        let (line, afterwards) = first_line(rest);
        place = place_past(place, line);
        rest = afterwards;
    }
    (place, rest)
}

fn place_past(place: u64, line: &[u8]) -> u64
    ensures { result ≡ line_after place line.now }
{
    (place % 4 + source_line(line).size % 4) % 4
}

/// The reason of a fault that the assembler tells of this line, which begins at a place of the
/// image.
pub fn fault_reason(fault: SourceFault, place: u64, line: &[u8]) -> Option<FaultReason<'_>>
    ensures { option_map plain_fault result ≡ told_reason fault place line.now }
{
    match fault {
        SourceFault::Syntax(_) => Some(FaultReason::Syntax(syntax_reason(line)?)),
        SourceFault::Range(_) => {
            let cause = range_cause(place, line);
            Some(FaultReason::Range(range_by(place, line, cause)?))
        }
        SourceFault::UnknownLabel(_) | SourceFault::DoubleLabel(_) | SourceFault::TooLong(_) => {
            None
        }
    }
}

/// Adds the words of a reason, with what to write in the place of what stands there.
pub fn push_reason(sheet: &mut Vec<u8>, reason: FaultReason<'_>) -> Result<(), AllocError>
    ensures { OnOk result (sheet.new.items
        ≡ sheet.old.items ++ fault_text (plain_fault reason.entry)) }
{
    match reason {
        FaultReason::Syntax(reason) => push_syntax_reason(sheet, reason),
        FaultReason::Range(reason) => push_range_reason(sheet, reason),
    }
}
