//! What the end tells where that is wanted: what is counted, and words of memory.
ghost use Rattle.std.specs.Prelude.{◌≡◌, ◌<◌, ◌++◌, OnOk, length};
ghost use Rattle.std.specs.List.{flat_map};
ghost use Rattle.std.specs.String.{string_bytes};
ghost use Rattle.ds_bare.specs.Looks.{back_of_words, count_text, counts_text, devices_counted, exception_text, exceptions_text, front_of_words, looks_text, piece_text, pieces_text, span_text, steps_counted, memory_word_text};

use crate::counts::Counts;
use crate::machine::Machine;
use crate::names::push_code;
use ds_dev::Bus;
use ds_mem::SIZE;
use ds_text::string::{push_decimal, push_hex};
use ds_word::wrapping_sum;
use ds_words::{BareView, Span};
use std::alloc::AllocError;

/// Adds a count with its name.
fn push_count(text: &mut String, name: &str, count: u64) -> Result<(), AllocError>
    ensures { OnOk result
        (string_bytes text.new ≡ string_bytes text.old ++ count_text name.now count) }
{
    text.push_str(name)?;
    push_decimal(text, count)?;
    text.push_str("\n")
}

/// Adds how often the exception with a code was entered, if it was.
fn push_exception(text: &mut String, code: u32, count: u64) -> Result<(), AllocError>
    ensures { OnOk result
        (string_bytes text.new ≡ string_bytes text.old ++ exception_text code count) }
{
    if count == 0 {
        return Ok(());
    }
    text.push_str("exception ")?;
    push_code(text, code)?;
    text.push_str(": ")?;
    push_decimal(text, count)?;
    text.push_str("\n")
}

/// Adds how often exceptions were entered, by their codes.
fn push_exceptions(text: &mut String, counts: &[u64]) -> Result<(), AllocError>
    requires { length counts.now < 64 }
    ensures { OnOk result
        (string_bytes text.new ≡ string_bytes text.old ++ exceptions_text 0 counts.now) }
{
    let mut code = 0;
    let mut left = counts;
    while let [count, rest @ ..] = left {
        push_exception(text, code, *count)?;
        code += 1;
        left = rest;
    }
    Ok(())
}

/// Adds how many instructions, refills and writes of the buffer there were.
#[tactic(auto, unfolding(crate::specs::Looks::steps_counted))]
fn push_steps(text: &mut String, done: u64, counts: &Counts) -> Result<(), AllocError>
    ensures { OnOk result (string_bytes text.new
        ≡ string_bytes text.old ++ steps_counted done counts.now) }
{
    push_count(text, "instructions ", done)?;
    push_count(text, "refills ", counts.refills)?;
    push_count(text, "writes of the buffer ", counts.writes)
}

/// Adds how often the devices interrupted, and how many characters came in.
#[tactic(auto, unfolding(crate::specs::Looks::devices_counted))]
fn push_devices(text: &mut String, counts: &Counts) -> Result<(), AllocError>
    ensures { OnOk result (string_bytes text.new
        ≡ string_bytes text.old ++ devices_counted counts.now) }
{
    push_count(text, "interrupts of the lines ", counts.lines)?;
    push_count(text, "interrupts of the clock ", counts.clock)?;
    push_count(text, "characters in ", counts.came)
}

/// Adds what is counted, after so many instructions, by how many characters were sent.
#[tactic(auto, unfolding(crate::specs::Looks::counts_text))]
fn push_counts(text: &mut String, done: u64, sent: usize, counts: &Counts) -> Result<(), AllocError>
    ensures { OnOk result (string_bytes text.new
        ≡ string_bytes text.old ++ counts_text done sent counts.now) }
{
    push_steps(text, done, counts)?;
    push_devices(text, counts)?;
    push_count(text, "characters out ", sent as u64)?;
    push_exceptions(text, &counts.exceptions)
}

/// Begins a line before each eighth word, with the word's address.
fn push_front(text: &mut String, place: u32, index: u32) -> Result<(), AllocError>
    ensures { OnOk result
        (string_bytes text.new ≡ string_bytes text.old ++ front_of_words place index) }
{
    if index % 8 != 0 {
        return Ok(());
    }
    text.push_str("memory ")?;
    push_hex(text, place)?;
    text.push_str(":")
}

/// Adds the word at a place, or a sign where no memory is.
fn push_word(text: &mut String, bus: &Bus, place: u32) -> Result<(), AllocError>
    ensures { OnOk result
        (string_bytes text.new ≡ string_bytes text.old ++ memory_word_text bus.now place) }
{
    if (place as usize) < SIZE {
        text.push_str(" ")?;
        push_hex(text, bus.word(place))
    } else {
        text.push_str(" -")
    }
}

/// Ends a line after the last word of eight, and after the last of all.
fn push_back(text: &mut String, count: u32, index: u32) -> Result<(), AllocError>
    requires { index < count }
    ensures { OnOk result
        (string_bytes text.new ≡ string_bytes text.old ++ back_of_words count index) }
{
    if index % 8 == 7 || index + 1 == count {
        text.push_str("\n")
    } else {
        Ok(())
    }
}

/// Adds a word by its number among so many, in its line.
fn push_piece(
    text: &mut String,
    bus: &Bus,
    place: u32,
    count: u32,
    index: u32,
) -> Result<(), AllocError>
    requires { index < count }
    ensures { OnOk result (string_bytes text.new
        ≡ string_bytes text.old ++ piece_text bus.now place count index) }
{
    push_front(text, place, index)?;
    push_word(text, bus, place)?;
    push_back(text, count, index)
}

/// Adds the words of a span, eight in a line.
fn push_span(text: &mut String, bus: &Bus, span: &Span) -> Result<(), AllocError>
    ensures { OnOk result
        (string_bytes text.new ≡ string_bytes text.old ++ span_text bus.now span.now) }
{
    let mut place = span.address;
    for index in 0..span.count {
        push_piece(text, bus, place, span.count, index)?;
        place = wrapping_sum(place, 4);
    }
    Ok(())
}

/// Adds the words of spans.
fn push_spans(text: &mut String, bus: &Bus, spans: &[Span]) -> Result<(), AllocError>
    ensures { OnOk result (string_bytes text.new
        ≡ string_bytes text.old ++ flat_map (span_text bus.now) spans.now) }
{
    for span in spans {
        push_span(text, bus, span)?;
    }
    Ok(())
}

/// Adds what is wanted of the end beside how the machine stands, after so many instructions.
#[tactic(auto, unfolding(crate::specs::Looks::looks_text))]
pub(crate) fn push_looks<'a>(
    text: &mut String,
    view: &BareView,
    done: u64,
    machine: &Machine<'a>,
) -> Result<(), AllocError>
    ensures { OnOk result (string_bytes text.new
        ≡ string_bytes text.old ++ looks_text view.now done machine.now) }
{
    if view.counts {
        push_counts(text, done, machine.sent.len(), &machine.counts)?;
    }
    push_spans(text, &machine.bus, view.memory.as_slice())
}
