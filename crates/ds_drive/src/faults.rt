//! The faults of a source, told a line each.
ghost use Rattle.std.specs.Prelude.{◌≡◌, ◌++◌, IfOk, OnOk, OnErr, option_map};
ghost use Rattle.std.specs.Io.KnownBytes.{Appends};
ghost use Rattle.ds_drive.specs.Told.{at_end, caret_below, fault_head, fault_name, fault_shown_in, label_told, mending_of, pass, plain_place, reason_after, told_below, fault_line, told_lines, wrong_place};
ghost use Rattle.ds_drive.specs.Inner.Told.{passed_in, told_words};
ghost use Rattle.ds_drive.specs.Inner.Listening.{is_unwritten};
ghost use Rattle.ds_drive.specs.declared.faults.Untold.TheVariants as variants;
ghost use Rattle.ds_text.specs.Sent.{AppendsPart, IsAskedOnce};
ghost use Rattle.ds_source_reasons.specs.Inner.Told.{plain_fault};

use crate::why::push_mending;
use ds_asm::{SourceFault, first_line, front_of};
use ds_check::{Lines, push_caret};
use ds_source_reasons::{
    FaultReason, FaultyLines, caret_place, last_word, last_word_place, like_label, push_missing,
    push_reason,
};
use ds_text::sheet::push_decimal;
use ds_text::{Output, WriteFailed, send};
use std::alloc::{AllocError, Global};

/// From how many bytes on a text goes to the writer.
const BYTES_AT_ONCE: usize = 32_768;

/// The words of a line that tells of a fault: what it begins with, and what stands before the number
/// of the source's line; and the text of the source.
#[derive(Clone, Copy)]
pub(crate) struct Wording<'a> {
    pub(crate) front: &'a str,
    pub(crate) place: &'a [u8],
    pub(crate) text: &'a [u8],
}

/// What kept a text from being told.
#[derive(Clone, Copy, Debug, PartialEq, Eq)]
pub(crate) enum Untold {
    /// The writer failed.
    Unwritten,
    /// Memory ran out.
    NoMemory,
}

impl From<AllocError> for Untold {
    ghost from_gives = { λ _ e. e ≡ variants.NoMemory };

    fn from(_e: AllocError) -> Untold {
        Untold::NoMemory
    }
}

impl From<WriteFailed> for Untold {
    ghost from_gives = { λ _ e. e ≡ variants.Unwritten };

    fn from(_e: WriteFailed) -> Untold {
        Untold::Unwritten
    }
}

/// Adds what the line of a fault begins with: its number and name, and where it is.
fn push_head<'a>(
    text: &mut Vec<u8>,
    wording: Wording<'a>,
    fault: &SourceFault,
) -> Result<(), AllocError>
    ensures { OnOk result (text.new.items ≡ text.old.items
        ++ fault_head wording.entry.front.now wording.entry.place.now fault.now) }
{
    text.extend_from_slice(wording.front.as_bytes())?;
    push_name(text, fault)?;
    text.extend_from_slice(wording.place)?;
    text.extend_from_slice(b" ")
}

/// Tells of faults: a line each with the reason at its end, and below it the source's line with a
/// caret, and how the fault is mended. Where the writer fails, or memory runs out, the rest is not
/// told.
#[tactic(auto, using(ds_text::proofs::Sends::asked_both, ds_bare::proofs::CutBetween::asked_none))]
pub(crate) fn tell_lines<'a, 's, E: Output>(
    alloc: Global,
    err: &mut E,
    wording: Wording<'a>,
    reasons: FaultyLines<'s>,
    faults: &[SourceFault],
) -> Result<(), Untold>
    ensures all { OnOk result (Appends (E.contents err.old) (E.contents err.new)
        (told_lines wording.entry.front.now wording.entry.place.now wording.entry.text.now
        (passed_in reasons.entry) faults.now)) }
    ensures front { OnErr result (AppendsPart (E.contents err.old) (E.contents err.new)
        (told_lines wording.entry.front.now wording.entry.place.now wording.entry.text.now
        (passed_in reasons.entry) faults.now)) }
    ensures once { IsAskedOnce (E.answers err.old) (E.answers err.new) (is_unwritten result) }
{
    let mut sheet = Vec::new(alloc);
    let mut words = Vec::new(alloc);
    let mut lines = Lines::of(wording.text);
    let mut reasons = reasons;
    for fault in faults {
        push_told(
            &mut sheet,
            &mut words,
            wording,
            &mut lines,
            &mut reasons,
            fault,
        )?;
        if sheet.len() >= BYTES_AT_ONCE {
            send(err, &sheet)?;
            sheet.clear();
        }
    }
    send(err, &sheet)?;
    Ok(())
}

/// Adds all that is told of a fault: its line with the reason, the source's line with a caret, and
/// how it is mended.
#[inline(never)]
fn push_told<'a, 's>(
    sheet: &mut Vec<u8>,
    words: &mut Vec<u8>,
    wording: Wording<'a>,
    lines: &mut Lines<'a>,
    reasons: &mut FaultyLines<'s>,
    fault: &SourceFault,
) -> Result<(), AllocError>
    requires { lines.old ≡ wording.text.now }
    ensures text { OnOk result (sheet.new.items ≡ sheet.old.items
        ++ fault_line wording.entry.front.now wording.entry.place.now wording.entry.text.now
        (reason_after (passed_in reasons.old) fault.now) fault.now) }
    ensures same { lines.new ≡ lines.old }
    ensures passed { passed_in reasons.new ≡ pass (passed_in reasons.old) fault.now }
{
    let reason = reasons.reason(*fault);
    set_words(words, reason)?;
    push_head(sheet, wording, fault)?;
    push_decimal(sheet, u64::from(fault.line()))?;
    push_reason_line(sheet, words, reason)?;
    sheet.push(b'\n')?;
    push_fault_shown(sheet, wording.text, lines, reason, fault)?;
    push_mending_of(sheet, words, reason, fault)
}

/// Leaves the words of a reason alone; none where there is no reason.
fn set_words<'s>(words: &mut Vec<u8>, reason: Option<FaultReason<'s>>) -> Result<(), AllocError>
    ensures { OnOk result (words.new.items ≡ told_words (option_map plain_fault reason.entry)) }
{
    words.clear();
    match reason {
        Some(reason) => push_reason(words, reason),
        None => Ok(()),
    }
}

/// Adds what stands at the end of a fault's line: the first line of the words of its reason, where
/// it has one.
fn push_reason_line<'s>(
    sheet: &mut Vec<u8>,
    words: &[u8],
    reason: Option<FaultReason<'s>>,
) -> Result<(), AllocError>
    requires { words.now ≡ told_words (option_map plain_fault reason) }
    ensures { OnOk result (sheet.new.items ≡ sheet.old.items
        ++ at_end (option_map plain_fault reason.entry)) }
{
    match reason {
        Some(_) => {
            sheet.extend_from_slice(b": ")?;
            sheet.extend_from_slice(first_line(words).0)
        }
        None => Ok(()),
    }
}

/// Adds how a fault is mended: the words of its reason after their first line, or those of its
/// number.
fn push_mending_of<'s>(
    sheet: &mut Vec<u8>,
    words: &[u8],
    reason: Option<FaultReason<'s>>,
    fault: &SourceFault,
) -> Result<(), AllocError>
    requires { words.now ≡ told_words (option_map plain_fault reason) }
    ensures { OnOk result (sheet.new.items ≡ sheet.old.items
        ++ mending_of (option_map plain_fault reason.entry) fault.now) }
{
    match reason {
        Some(_) => sheet.extend_from_slice(first_line(words).1),
        None => push_mending(sheet, fault.number()),
    }
}

/// Adds the line of the source that is at fault with a caret, and what is said of the label that no
/// line has, where that is the fault.
pub(crate) fn push_fault_shown<'a, 's>(
    sheet: &mut Vec<u8>,
    text: &'a [u8],
    lines: &mut Lines<'a>,
    reason: Option<FaultReason<'s>>,
    fault: &SourceFault,
) -> Result<(), AllocError>
    requires { lines.old ≡ text.now }
    ensures text { OnOk result (sheet.new.items ≡ sheet.old.items
        ++ fault_shown_in text.now (option_map plain_fault reason.entry) fault.now) }
    ensures same { lines.new ≡ lines.old }
{
    lines.push(sheet, fault.line())?;
    push_told_below(sheet, text, lines.line(fault.line()), reason, fault)
}

/// Adds a caret below what is wrong with a line, where that has a place, and what is said of the
/// label that no line has.
fn push_told_below<'s>(
    sheet: &mut Vec<u8>,
    text: &[u8],
    line: &[u8],
    reason: Option<FaultReason<'s>>,
    fault: &SourceFault,
) -> Result<(), AllocError>
    ensures { OnOk result (sheet.new.items ≡ sheet.old.items
        ++ told_below text.now line.now (option_map plain_fault reason.entry) fault.now) }
{
    push_caret_at(sheet, line, wrong_place(line, reason, fault))?;
    push_label_told(sheet, text, line, fault)
}

/// Where what is wrong with a line stands: what its reason quotes, or the label that no line has.
fn wrong_place<'s>(
    line: &[u8],
    reason: Option<FaultReason<'s>>,
    fault: &SourceFault,
) -> Option<usize>
    ensures { result ≡ wrong_place line.now (option_map plain_fault reason.entry) fault.now }
{
    match reason {
        Some(reason) => caret_place(reason, line),
        None => plain_place(line, fault),
    }
}

/// Where what is wrong with a line stands though its fault has no reason: the label that no line
/// has.
fn plain_place(line: &[u8], fault: &SourceFault) -> Option<usize>
    ensures { result ≡ plain_place line.now fault.now }
{
    match fault {
        SourceFault::UnknownLabel(_) => Some(last_word_place(line)),
        SourceFault::Syntax(_)
        | SourceFault::DoubleLabel(_)
        | SourceFault::Range(_)
        | SourceFault::TooLong(_) => None,
    }
}

/// Adds what is said of the label that a line names and no line has, where that is the fault.
fn push_label_told(
    sheet: &mut Vec<u8>,
    text: &[u8],
    line: &[u8],
    fault: &SourceFault,
) -> Result<(), AllocError>
    ensures { OnOk result (sheet.new.items
        ≡ sheet.old.items ++ label_told text.now line.now fault.now) }
{
    match fault {
        SourceFault::UnknownLabel(_) => {
            let name = last_word(line);
            push_missing(sheet, name, like_label(text, name))
        }
        SourceFault::Syntax(_)
        | SourceFault::DoubleLabel(_)
        | SourceFault::Range(_)
        | SourceFault::TooLong(_) => Ok(()),
    }
}

/// Adds a caret below a place of a line, where there is one.
pub(crate) fn push_caret_at(
    sheet: &mut Vec<u8>,
    line: &[u8],
    place: Option<usize>,
) -> Result<(), AllocError>
    ensures { OnOk result (sheet.new.items ≡ sheet.old.items ++ caret_below line.now place) }
{
    match place {
        Some(place) => push_caret(sheet, front_of(place, line)),
        None => Ok(()),
    }
}

/// Adds a fault's number and name.
fn push_name(text: &mut Vec<u8>, fault: &SourceFault) -> Result<(), AllocError>
    ensures { OnOk result (text.new.items ≡ text.old.items ++ fault_name fault.now) }
{
    push_decimal(text, u64::from(fault.number()))?;
    text.extend_from_slice(b" ")?;
    text.extend_from_slice(fault.name().as_bytes())?;
    text.extend_from_slice(b" ")
}
