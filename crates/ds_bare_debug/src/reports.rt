//! What `monitor` is told.
ghost use Rattle.std.specs.Prelude.{◌≡◌, ◌++◌, OnOk, flat_map, map};
ghost use Rattle.ds_bare_debug.specs.Looks.{byte_of_line, has_more, monitor_words, own_report_text, bare_report_text, sent_after, report_shown, unknown_packet_text};

use crate::runner::Runner;
use ds_bare::Machine;
use ds_gdb::{push_outputs, push_time_words};
use ds_packets::{Report, cut_at, push_frame};
use std::alloc::{AllocError, Global};

/// Adds what was sent after so many characters.
pub(crate) fn push_sent_after<'a>(
    text: &mut Vec<u8>,
    machine: &Machine<'a>,
    count: usize,
) -> Result<(), AllocError>
    ensures { OnOk result (text.new.items ≡ text.old.items ++ sent_after count machine.now) }
{
    let sent = machine.sent();
    if count <= sent.len() {
        push_characters(text, &sent[count..])
    } else {
        Ok(())
    }
}

/// Adds characters without their lines.
fn push_characters(text: &mut Vec<u8>, sent: &[(u8, u8)]) -> Result<(), AllocError>
    ensures { OnOk result (text.new.items ≡ text.old.items ++ map (λ c. c.1) sent.now) }
{
    for character in sent {
        text.push(character.1)?;
    }
    Ok(())
}

/// Adds a character, where this line sent it.
fn push_of_line(text: &mut Vec<u8>, line: u8, character: (u8, u8)) -> Result<(), AllocError>
    ensures { OnOk result (text.new.items ≡ text.old.items ++ byte_of_line line character) }
{
    if character.0 == line {
        text.push(character.1)?;
    }
    Ok(())
}

/// Adds those of characters that a line sent.
fn push_line(text: &mut Vec<u8>, line: u8, sent: &[(u8, u8)]) -> Result<(), AllocError>
    ensures { OnOk result (text.new.items
        ≡ text.old.items ++ flat_map (byte_of_line line) sent.now) }
{
    for character in sent {
        push_of_line(text, line, *character)?;
    }
    Ok(())
}

/// Whether a run of at most so many instructions goes on.
fn has_more<'a>(runner: &Runner<'a>, limit: u32) -> bool
    ensures { result ≡ has_more limit runner.now }
{
    runner.done() < u64::from(limit) && !runner.is_over()
}

/// Adds what `monitor` can be asked for.
#[tactic(auto, unfolding(crate::specs::Looks::monitor_words))]
fn push_monitor_words(text: &mut Vec<u8>) -> Result<(), AllocError>
    ensures { OnOk result (text.new.items ≡ text.old.items ++ monitor_words) }
{
    text.extend_from_slice(b"monitor takes time, tlb, console L (L from 0 to 3) and stop T\n")
}

/// Shows a text, and says that all is well.
fn push_shown(alloc: Global, out: &mut Vec<u8>, text: &[u8]) -> Result<(), AllocError>
    ensures { OnOk result (out.new.items ≡ out.old.items ++ report_shown text.now) }
{
    push_outputs(alloc, out, text)?;
    push_frame(out, b"OK")
}

/// Shows what `monitor` asks for of a run of at most so many instructions.
pub(crate) fn push_report<'a>(
    alloc: Global,
    out: &mut Vec<u8>,
    runner: &Runner<'a>,
    limit: u32,
    report: Report,
) -> Result<(), AllocError>
    ensures { OnOk result (out.new.items
        ≡ out.old.items ++ report_shown (bare_report_text limit runner.now report)) }
{
    let mut text = Vec::new(alloc);
    match report {
        Report::Time => push_time_words(
            &mut text,
            runner.done(),
            u64::from(limit),
            has_more(runner, limit),
        )?,
        Report::Console(line) => push_line(&mut text, line, runner.machine().sent())?,
        Report::Processes | Report::Log | Report::Table | Report::TableOf(_) => {
            push_monitor_words(&mut text)?;
        }
    }
    push_shown(alloc, out, text.as_slice())
}

/// Adds what `monitor` asks for by words that are none of those that each session knows.
fn push_own_report<'a>(
    alloc: Global,
    text: &mut Vec<u8>,
    machine: &Machine<'a>,
    digits: &[u8],
) -> Result<(), AllocError>
    ensures { OnOk result (text.new.items
        ≡ text.old.items ++ own_report_text digits.now machine.now) }
{
    if digits == b"746c62".as_slice() {
        let mut slots = String::new(alloc);
        machine.push_slots(alloc, &mut slots)?;
        text.extend_from_slice(slots.as_bytes())
    } else {
        push_monitor_words(text)
    }
}

/// Answers data that are no packet that each session knows: other words of `monitor`, or nothing.
pub(crate) fn push_unknown<'a>(
    alloc: Global,
    out: &mut Vec<u8>,
    machine: &Machine<'a>,
    words: &[u8],
) -> Result<(), AllocError>
    ensures { OnOk result (out.new.items ≡ out.old.items ++ unknown_packet_text words.now machine.now) }
{
    let (name, digits) = cut_at(words, b',');
    if name == b"qRcmd".as_slice() {
        let mut text = Vec::new(alloc);
        push_own_report(alloc, &mut text, machine, digits)?;
        push_shown(alloc, out, text.as_slice())
    } else {
        push_frame(out, &[])
    }
}
