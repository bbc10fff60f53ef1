//! What standard error is told of a failure, and of a check that is refused.
ghost use Rattle.std.specs.Prelude.{◌≡◌, ◌++◌, OnErr, OnOk, codes, flat_map, is_err};
ghost use Rattle.std.specs.Io.KnownBytes.{Appends};
ghost use Rattle.ds_check.specs.Carets.{place_shown};
ghost use Rattle.ds_drive.specs.Failures.{failure_number};
ghost use Rattle.ds_drive.specs.Listening.{IsToldText, TellsSome, listener};
ghost use Rattle.ds_drive.specs.Inner.Listening.{is_unwritten};
ghost use Rattle.ds_drive.specs.Names.{shown_name};
ghost use Rattle.ds_drive.specs.Statuses.{fault_status};
ghost use Rattle.ds_drive.specs.Told.{below_text, cause_below, cause_shown, failure_line, fault_shown_in, fault_words, input_shown, none_passed, others_shown, others_told, pass, place_line, policy_shown, reason_after, reason_or_mending, source_fault_words, source_shown, why_told};
ghost use Rattle.ds_drive.specs.Inner.Told.{passed_in};
ghost use Rattle.ds_text.specs.Sent.{AppendsPart, IsAskedOnce};

use crate::failure::Failure;
use crate::faults::{Untold, Wording, push_caret_at, push_fault_shown, tell_lines};
use crate::hints::push_policy_hint;
use crate::names::send_name;
use crate::refused::{FaultyInput, FaultyPolicy, FaultySource, Refused};
use crate::status::status_of;
use crate::why::{first_reason, push_mending, push_reason_told};
use ds_asm::SourceFault;
use ds_check::{Lines, Place, push_place};
use ds_policy_reasons::{InputCause, cause_place};
use ds_source_reasons::FaultyLines;
use ds_station::Fault;
use ds_text::sheet::push_decimal;
use ds_text::{Buffer, Output, WriteFailed, send, send_all};
use std::alloc::{AllocError, Global};

/// Tells of a failure in one line, and answers the status. Where the writer fails, the rest is not
/// told.
#[tactic(auto, using(crate::proofs::Heard::told_so))]
pub fn tell<'a, E: Output>(err: &mut E, failure: &Failure<'a>) -> u8
    ensures status { result ≡ fault_status (failure_number failure.now) }
    ensures told { IsToldText (listener (E.contents err.old) (E.contents err.new)
        (E.answers err.old) (E.answers err.new))
        (failure_line failure.now) }
{
    let _ = send_failure(err, failure);
    status_of(failure.number())
}

/// Tells of a refusal as a run does, and below it where it is: the line of the policy, of the source
/// or of the input, with a caret; the reason and how it is mended; and the other faults of the
/// source. Answers the status. Where the writer fails, or memory runs out, the rest is not told.
pub fn tell_refused<'a, E: Output>(alloc: Global, err: &mut E, refused: &Refused<'a>) -> u8
    ensures status { result ≡ fault_status (failure_number refused.now.failure) }
    ensures told { TellsSome (listener (E.contents err.old) (E.contents err.new)
        (E.answers err.old) (E.answers err.new))
        (failure_line refused.now.failure) (below_text refused.now) }
{
    send_refused(alloc, err, refused);
    status_of(refused.failure.number())
}

/// Hands all that is told of a refusal to the writer.
#[tactic(auto, using(crate::proofs::Heard::told_after, crate::proofs::Heard::told_first))]
fn send_refused<'a, E: Output>(alloc: Global, err: &mut E, refused: &Refused<'a>)
    ensures { TellsSome (listener (E.contents err.old) (E.contents err.new)
        (E.answers err.old) (E.answers err.new))
        (failure_line refused.now.failure) (below_text refused.now) }
{
    match send_failure(err, &refused.failure) {
        Ok(()) => {
            let _ = send_below(alloc, err, refused);
        }
        Err(_) => {}
    }
}

/// Hands what is told of a refusal below its first line to the writer.
#[tactic(auto, using(ds_text::proofs::Sends::asked_both))]
fn send_below<'a, E: Output>(
    alloc: Global,
    err: &mut E,
    refused: &Refused<'a>,
) -> Result<(), Untold>
    ensures all { OnOk result (Appends (E.contents err.old) (E.contents err.new)
        (below_text refused.now)) }
    ensures front { OnErr result (AppendsPart (E.contents err.old) (E.contents err.new)
        (below_text refused.now)) }
    ensures once { IsAskedOnce (E.answers err.old) (E.answers err.new) (is_unwritten result) }
{
    send_policy(alloc, err, &refused.policy)?;
    send_source(alloc, err, &refused.source)?;
    send_input(alloc, err, &refused.input)?;
    send_why(alloc, err, refused)?;
    send_others(alloc, err, &refused.source)
}

/// Hands the line of a failure to the writer.
fn send_failure<'a, E: Output>(err: &mut E, failure: &Failure<'a>) -> Result<(), WriteFailed>
    ensures all { OnOk result (Appends (E.contents err.old) (E.contents err.new)
        (failure_line failure.now)) }
    ensures front { OnErr result (AppendsPart (E.contents err.old) (E.contents err.new)
        (failure_line failure.now)) }
    ensures once { IsAskedOnce (E.answers err.old) (E.answers err.new) (is_err result) }
{
    match failure {
        Failure::UnreadableFile(name) => send_unreadable(err, name.as_bytes()),
        Failure::UnreadableSource(name) => {
            send_line(err, &[b"26 Unreadable "], &[name.as_str().as_bytes()])
        }
        Failure::NoProcess(process) => {
            let mut digits = Buffer::new();
            send_line(
                err,
                &[b"12 NoProcess "],
                &[digits.format(*process).as_bytes()],
            )
        }
        Failure::Fault(fault) => send_fault(err, fault),
    }
}

/// Hands the line of a file that can't be read to the writer.
#[tactic(auto, using(ds_text::proofs::Sends::asked_both))]
fn send_unreadable<E: Output>(err: &mut E, name: &[u8]) -> Result<(), WriteFailed>
    ensures all { OnOk result (Appends (E.contents err.old) (E.contents err.new)
        (codes "dsmon: " ++ ((codes "26 Unreadable " ++ shown_name name.now) ++ codes "\n"))) }
    ensures front { OnErr result (AppendsPart (E.contents err.old) (E.contents err.new)
        (codes "dsmon: " ++ ((codes "26 Unreadable " ++ shown_name name.now) ++ codes "\n"))) }
    ensures once { IsAskedOnce (E.answers err.old) (E.answers err.new) (is_err result) }
{
    send(err, b"dsmon: 26 Unreadable ")?;
    send_name(err, name)?;
    send(err, b"\n")?;
    Ok(())
}

/// Hands the line of a fault to the writer.
fn send_fault<E: Output>(err: &mut E, fault: &Fault) -> Result<(), WriteFailed>
    ensures all { OnOk result (Appends (E.contents err.old) (E.contents err.new)
        (codes "dsmon: " ++ (fault_words fault.now ++ codes "\n"))) }
    ensures front { OnErr result (AppendsPart (E.contents err.old) (E.contents err.new)
        (codes "dsmon: " ++ (fault_words fault.now ++ codes "\n"))) }
    ensures once { IsAskedOnce (E.answers err.old) (E.answers err.new) (is_err result) }
{
    let mut digits = Buffer::new();
    match fault {
        Fault::BadRandom => send_line(err, &[b"1 BadRandom"], &[]),
        Fault::InSource { name, fault } => send_source_fault(err, name.as_str(), fault),
        Fault::BadToml => send_line(err, &[b"8 BadToml"], &[]),
        Fault::BadRule(number) => {
            send_line(err, &[b"9 BadRule "], &[digits.format(*number).as_bytes()])
        }
        Fault::Limit(key) => send_line(err, &[b"10 Limit "], &[key.as_bytes()]),
        Fault::InputFault(line) => {
            send_line(
                err,
                &[b"20 InputFault "],
                &[digits.format(*line).as_bytes()],
            )
        }
        Fault::Stuck => send_line(err, &[b"21 Stuck"], &[]),
        Fault::Failed => send_line(err, &[b"22 Failed"], &[]),
        Fault::WriteFault => send_line(err, &[b"23 WriteFault"], &[]),
        Fault::NoSource(name) => { send_line(err, &[b"24 NoSource "], &[name.as_str().as_bytes()]) }
        Fault::Memory => send_line(err, &[b"25 Memory"], &[]),
    }
}

/// Hands the line of a fault of the source of this name to the writer.
fn send_source_fault<E: Output>(
    err: &mut E,
    name: &str,
    fault: &SourceFault,
) -> Result<(), WriteFailed>
    ensures all { OnOk result (Appends (E.contents err.old) (E.contents err.new)
        (codes "dsmon: " ++ (source_fault_words name.now fault.now ++ codes "\n"))) }
    ensures front { OnErr result (AppendsPart (E.contents err.old) (E.contents err.new)
        (codes "dsmon: " ++ (source_fault_words name.now fault.now ++ codes "\n"))) }
    ensures once { IsAskedOnce (E.answers err.old) (E.answers err.new) (is_err result) }
{
    let mut numbers = Buffer::new();
    let mut lines = Buffer::new();
    let head = [
        numbers.format(fault.number()).as_bytes(),
        b" ".as_slice(),
        fault.name().as_bytes(),
        b" ".as_slice(),
    ];
    let carried = [
        name.as_bytes(),
        b" ".as_slice(),
        lines.format(fault.line()).as_bytes(),
    ];
    send_line(err, &head, &carried)
}

/// Hands a line of the program to the writer: some words, and what they carry.
#[tactic(auto, using(ds_text::proofs::Sends::asked_both))]
fn send_line<E: Output>(err: &mut E, words: &[&[u8]], carried: &[&[u8]]) -> Result<(), WriteFailed>
    ensures all { OnOk result (Appends (E.contents err.old) (E.contents err.new)
        (codes "dsmon: " ++ (flat_map (λ word. word.now) words.now
        ++ (flat_map (λ word. word.now) carried.now ++ codes "\n")))) }
    ensures front { OnErr result (AppendsPart (E.contents err.old) (E.contents err.new)
        (codes "dsmon: " ++ (flat_map (λ word. word.now) words.now
        ++ (flat_map (λ word. word.now) carried.now ++ codes "\n")))) }
    ensures once { IsAskedOnce (E.answers err.old) (E.answers err.new) (is_err result) }
{
    send(err, b"dsmon: ")?;
    send_all(err, words)?;
    send_all(err, carried)?;
    send(err, b"\n")?;
    Ok(())
}

/// Tells where a policy is at fault and shows its line with a caret, where it is.
fn send_policy<E: Output>(
    alloc: Global,
    err: &mut E,
    policy: &Option<FaultyPolicy>,
) -> Result<(), Untold>
    ensures all { OnOk result (Appends (E.contents err.old) (E.contents err.new)
        (policy_shown policy.now)) }
    ensures front { OnErr result (AppendsPart (E.contents err.old) (E.contents err.new)
        (policy_shown policy.now)) }
    ensures once { IsAskedOnce (E.answers err.old) (E.answers err.new) (is_unwritten result) }
{
    match policy {
        Some(policy) => show_place(alloc, err, &policy.text, policy.place),
        None => Ok(()),
    }
}

/// Tells a place of a policy's text and shows its line with a caret.
fn show_place<E: Output>(
    alloc: Global,
    err: &mut E,
    text: &[u8],
    place: Place,
) -> Result<(), Untold>
    ensures all { OnOk result (Appends (E.contents err.old) (E.contents err.new)
        (place_line place ++ place_shown text.now place)) }
    ensures front { OnErr result (AppendsPart (E.contents err.old) (E.contents err.new)
        (place_line place ++ place_shown text.now place)) }
    ensures once { IsAskedOnce (E.answers err.old) (E.answers err.new) (is_unwritten result) }
{
    let mut shown = Vec::new(alloc);
    push_place_line(&mut shown, place)?;
    push_place(&mut shown, text, place)?;
    send(err, &shown)?;
    Ok(())
}

/// Adds the line that tells a place of the policy.
fn push_place_line(sheet: &mut Vec<u8>, place: Place) -> Result<(), AllocError>
    ensures { OnOk result (sheet.new.items ≡ sheet.old.items ++ place_line place) }
{
    sheet.extend_from_slice(b"in line ")?;
    push_decimal(sheet, place.line)?;
    sheet.extend_from_slice(b", column ")?;
    push_decimal(sheet, place.column)?;
    sheet.extend_from_slice(b" of the policy\n")
}

/// Shows the line of the first fault of a source that is at fault, with a caret below it, where one
/// is.
fn send_source<E: Output>(
    alloc: Global,
    err: &mut E,
    source: &Option<FaultySource>,
) -> Result<(), Untold>
    ensures all { OnOk result (Appends (E.contents err.old) (E.contents err.new)
        (source_shown source.now)) }
    ensures front { OnErr result (AppendsPart (E.contents err.old) (E.contents err.new)
        (source_shown source.now)) }
    ensures once { IsAskedOnce (E.answers err.old) (E.answers err.new) (is_unwritten result) }
{
    match source {
        Some(source) => match source.faults.first() {
            Some(first) => show_fault(alloc, err, &source.text, first),
            None => Ok(()),
        },
        None => Ok(()),
    }
}

/// Shows the line of the first fault of a source, with a caret below it.
fn show_fault<E: Output>(
    alloc: Global,
    err: &mut E,
    text: &[u8],
    first: &SourceFault,
) -> Result<(), Untold>
    ensures all { OnOk result (Appends (E.contents err.old) (E.contents err.new)
        (fault_shown_in text.now (reason_after (none_passed text.now) first.now) first.now)) }
    ensures front { OnErr result (AppendsPart (E.contents err.old) (E.contents err.new)
        (fault_shown_in text.now (reason_after (none_passed text.now) first.now) first.now)) }
    ensures once { IsAskedOnce (E.answers err.old) (E.answers err.new) (is_unwritten result) }
{
    let mut lines = Lines::of(text);
    let mut shown = Vec::new(alloc);
    let reason = first_reason(text, first);
    push_fault_shown(&mut shown, text, &mut lines, reason, first)?;
    send(err, &shown)?;
    Ok(())
}

/// Tells of the faults after the first of a source that is at fault, where one is.
fn send_others<E: Output>(
    alloc: Global,
    err: &mut E,
    source: &Option<FaultySource>,
) -> Result<(), Untold>
    ensures all { OnOk result (Appends (E.contents err.old) (E.contents err.new)
        (others_shown source.now)) }
    ensures front { OnErr result (AppendsPart (E.contents err.old) (E.contents err.new)
        (others_shown source.now)) }
    ensures once { IsAskedOnce (E.answers err.old) (E.answers err.new) (is_unwritten result) }
{
    match source {
        Some(source) => send_faults(alloc, err, &source.text, &source.faults),
        None => Ok(()),
    }
}

/// Tells of the faults after the first, each with its reason, its line and how it is mended.
fn send_faults<E: Output>(
    alloc: Global,
    err: &mut E,
    text: &[u8],
    faults: &[SourceFault],
) -> Result<(), Untold>
    ensures all { OnOk result (Appends (E.contents err.old) (E.contents err.new)
        (others_told text.now faults.now)) }
    ensures front { OnErr result (AppendsPart (E.contents err.old) (E.contents err.new)
        (others_told text.now faults.now)) }
    ensures once { IsAskedOnce (E.answers err.old) (E.answers err.new) (is_unwritten result) }
{
    let wording = Wording {
        front: "and ",
        place: b"in line",
        text,
    };
    match faults {
        [first, others @ ..] => {
            let reasons = after_first(text, first);
            tell_lines(alloc, err, wording, reasons, others)
        }
        [] => Ok(()),
    }
}

/// The lines of a source after that of its first fault.
#[tactic(auto, using(crate::proofs::Tellings::first_passed))]
fn after_first<'s>(text: &'s [u8], first: &SourceFault) -> FaultyLines<'s>
    ensures { passed_in result ≡ pass (none_passed text.now) first.now }
{
    let mut reasons = FaultyLines::of(text);
    let _ = reasons.reason(*first);
    reasons
}

/// Shows the line of an input that is at fault with a caret below it, where it is.
fn send_input<E: Output>(
    alloc: Global,
    err: &mut E,
    input: &Option<FaultyInput>,
) -> Result<(), Untold>
    ensures all { OnOk result (Appends (E.contents err.old) (E.contents err.new)
        (input_shown input.now)) }
    ensures front { OnErr result (AppendsPart (E.contents err.old) (E.contents err.new)
        (input_shown input.now)) }
    ensures once { IsAskedOnce (E.answers err.old) (E.answers err.new) (is_unwritten result) }
{
    match input {
        Some(input) => show_line(alloc, err, &input.text, input.line, input.cause),
        None => Ok(()),
    }
}

/// Shows the line of this number of an input, with a caret below what is wrong there.
fn show_line<E: Output>(
    alloc: Global,
    err: &mut E,
    text: &[u8],
    number: u64,
    cause: Option<InputCause>,
) -> Result<(), Untold>
    ensures all { OnOk result (Appends (E.contents err.old) (E.contents err.new)
        (cause_shown text.now number cause)) }
    ensures front { OnErr result (AppendsPart (E.contents err.old) (E.contents err.new)
        (cause_shown text.now number cause)) }
    ensures once { IsAskedOnce (E.answers err.old) (E.answers err.new) (is_unwritten result) }
{
    let mut lines = Lines::of(text);
    let mut shown = Vec::new(alloc);
    lines.push(&mut shown, number)?;
    push_cause_below(&mut shown, lines.line(number), cause)?;
    send(err, &shown)?;
    Ok(())
}

/// Adds a caret below what is wrong with a line of an input, where that has a place.
fn push_cause_below(
    sheet: &mut Vec<u8>,
    line: &[u8],
    cause: Option<InputCause>,
) -> Result<(), AllocError>
    ensures { OnOk result (sheet.new.items ≡ sheet.old.items ++ cause_below line.now cause) }
{
    match cause {
        Some(cause) => push_caret_at(sheet, line, cause_place(cause, line)),
        None => Ok(()),
    }
}

/// Tells why a check is refused with what to write, or how it is mended, where no reason is known;
/// and what is told of the policy besides.
fn send_why<'a, E: Output>(alloc: Global, err: &mut E, refused: &Refused<'a>) -> Result<(), Untold>
    ensures all { OnOk result (Appends (E.contents err.old) (E.contents err.new)
        (why_told refused.now)) }
    ensures front { OnErr result (AppendsPart (E.contents err.old) (E.contents err.new)
        (why_told refused.now)) }
    ensures once { IsAskedOnce (E.answers err.old) (E.answers err.new) (is_unwritten result) }
{
    let mut sheet = Vec::new(alloc);
    push_why(&mut sheet, refused)?;
    send(err, &sheet)?;
    Ok(())
}

/// Adds why a check is refused, and what is told of the policy besides.
fn push_why<'a>(sheet: &mut Vec<u8>, refused: &Refused<'a>) -> Result<(), AllocError>
    ensures { OnOk result (sheet.new.items ≡ sheet.old.items ++ why_told refused.now) }
{
    push_reason_or_mending(sheet, refused)?;
    push_policy_hint(sheet, &refused.policy, refused.reason)
}

/// Adds why a check is refused with what to write; where no reason is known, how it is mended.
fn push_reason_or_mending<'a>(sheet: &mut Vec<u8>, refused: &Refused<'a>) -> Result<(), AllocError>
    ensures { OnOk result (sheet.new.items ≡ sheet.old.items ++ reason_or_mending refused.now) }
{
    if push_reason_told(sheet, refused)? {
        Ok(())
    } else {
        push_mending(sheet, refused.failure.number())
    }
}
