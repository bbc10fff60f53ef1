//! The text of the end.
ghost use Rattle.std.specs.Prelude.{◌≡◌, ◌≤◌, ◌<◌, ◌+◌, ◌++◌, OnOk, length, IfOk};
ghost use Rattle.std.specs.List.{flat_map};
ghost use Rattle.std.specs.String.{string_bytes};
ghost use Rattle.ds_bare.specs.Ends.{bit_text, cause_text, character_text, core_text, end_text, fields_text, headline, lines_text, random_text, ending_text, register_text, registers_text, sent_text, with_cause};

use crate::ending::{Ending, Processor};
use crate::entries::push_flags;
use crate::looks::push_looks;
use crate::machine::Machine;
use crate::matches::{entries_of, push_entries, push_matches};
use crate::names::{push_code, push_name};
use crate::registers::{general_seen, others};
use ds_cp0::{Cp0, register};
use ds_dev::Bus;
use ds_listing::RegisterNames;
use ds_text::string::{push_byte, push_decimal, push_hex};
use ds_tlb::{Entry, Lookaside};
use ds_words::BareView;
use std::alloc::{AllocError, Global};

/// Adds the text of the end, after so many instructions.
#[tactic(auto, unfolding(crate::specs::Ends::end_text))]
pub(crate) fn push_end<'a>(
    alloc: Global,
    text: &mut String,
    view: &BareView,
    ending: Ending,
    done: u64,
    machine: &Machine<'a>,
) -> Result<(), AllocError>
    ensures { OnOk result
        (string_bytes text.new ≡ string_bytes text.old ++ end_text view.now ending done machine.now) }
{
    push_headline(text, ending, done, &machine.core.cp0)?;
    push_core(alloc, text, view.names, &machine.core, &machine.bus)?;
    push_lines(text, &machine.sent)?;
    push_looks(text, view, done, machine)
}

#[tactic(auto, unfolding(crate::specs::Ends::headline))]
fn push_headline(text: &mut String, ending: Ending, done: u64, cp0: &Cp0) -> Result<(), AllocError>
    ensures { OnOk result
        (string_bytes text.new ≡ string_bytes text.old ++ headline ending done cp0.now) }
{
    text.push_str("end after ")?;
    push_decimal(text, done)?;
    text.push_str(": ")?;
    push_reason(text, ending, cp0)
}

/// Adds why the run ended.
fn push_reason(text: &mut String, ending: Ending, cp0: &Cp0) -> Result<(), AllocError>
    ensures { OnOk result
        (string_bytes text.new ≡ string_bytes text.old ++ ending_text ending cp0.now) }
{
    match ending {
        Ending::Counted => text.push_str("all instructions that were asked for\n"),
        Ending::Finished => push_with_cause(text, "done, by break 1: ", cp0),
        Ending::AtGeneralVector => {
            push_with_cause(text, "at the general vector 80000080: ", cp0)
        }
        Ending::NoHandler => push_with_cause(
            text,
            "at the refill vector 80000000, where 32 words are 0: ",
            cp0,
        ),
    }
}

/// Adds a reason, and the exception.
#[tactic(auto, unfolding(crate::specs::Ends::with_cause))]
fn push_with_cause(text: &mut String, reason: &str, cp0: &Cp0) -> Result<(), AllocError>
    ensures { OnOk result
        (string_bytes text.new ≡ string_bytes text.old ++ with_cause reason.now cp0.now) }
{
    text.push_str(reason)?;
    push_cause(text, cp0)
}

/// Adds the exception that Cause, EPC and BadVAddr tell.
#[tactic(auto, unfolding(crate::specs::Ends::cause_text))]
fn push_cause(text: &mut String, cp0: &Cp0) -> Result<(), AllocError>
    ensures { OnOk result (string_bytes text.new ≡ string_bytes text.old ++ cause_text cp0.now) }
{
    let code = (cp0.read(register::CAUSE) >> 2) & 0x1f;
    text.push_str("exception ")?;
    push_code(text, code)?;
    text.push_str(", EPC ")?;
    push_hex(text, cp0.read(register::EPC))?;
    text.push_str(", BadVAddr ")?;
    push_hex(text, cp0.read(register::BAD_VADDR))?;
    text.push_str("\n")
}

/// Adds the processor, with registers called by these names.
#[tactic(auto, unfolding(crate::specs::Ends::core_text))]
fn push_core(
    alloc: Global,
    text: &mut String,
    names: RegisterNames,
    core: &Processor,
    bus: &Bus,
) -> Result<(), AllocError>
    ensures { OnOk result
        (string_bytes text.new ≡ string_bytes text.old ++ core_text names core.now bus.now) }
{
    push_registers(text, names, 0, &general_seen(core))?;
    push_registers(text, names, 32, &others(core, bus))?;
    push_random(text, core.tlb.random())?;
    let entries = entries_of(alloc, core)?;
    push_entries(text, &entries)?;
    push_matches(text, &entries)
}

fn push_random(text: &mut String, random: usize) -> Result<(), AllocError>
    ensures { OnOk result (string_bytes text.new ≡ string_bytes text.old ++ random_text random) }
{
    text.push_str("Random ")?;
    push_decimal(text, random as u64)?;
    text.push_str("\n")
}

/// Adds the lines of registers, of which the first has this number.
fn push_registers(
    text: &mut String,
    names: RegisterNames,
    first: u32,
    values: &[u32],
) -> Result<(), AllocError>
    requires { first + length values.now ≤ 64 }
    ensures { OnOk result
        (string_bytes text.new ≡ string_bytes text.old ++ registers_text names first values.now) }
{
    let mut number = first;
    let mut left = values;
    while let [value, rest @ ..] = left {
        push_register(text, names, number, *value)?;
        number += 1;
        left = rest;
    }
    Ok(())
}

fn push_register(
    text: &mut String,
    names: RegisterNames,
    number: u32,
    value: u32,
) -> Result<(), AllocError>
    requires { number < 64 }
    ensures { OnOk result
        (string_bytes text.new ≡ string_bytes text.old ++ register_text names number value) }
{
    push_name(text, number, names)?;
    text.push_str(" ")?;
    push_hex(text, value)?;
    push_fields(text, number, value)?;
    text.push_str("\n")
}

/// Adds the fields of a register of the coprocessor; the others have none.
#[tactic(auto, unfolding(crate::specs::Ends::fields_text))]
fn push_fields(text: &mut String, number: u32, value: u32) -> Result<(), AllocError>
    ensures { OnOk result
        (string_bytes text.new ≡ string_bytes text.old ++ fields_text number value) }
{
    match number {
        34 => push_index(text, value),
        35 => push_entry_lo(text, value),
        36 => push_context(text, value),
        38 => push_entry_hi(text, value),
        39 => push_status(text, value),
        40 => push_cause_fields(text, value),
        _ => Ok(()),
    }
}

/// Adds a bit with its name.
fn push_bit(text: &mut String, name: &str, value: u32, at: u32) -> Result<(), AllocError>
    requires { at < 32 }
    ensures { OnOk result
        (string_bytes text.new ≡ string_bytes text.old ++ bit_text name.now value at) }
{
    text.push_str(name)?;
    push_decimal(text, u64::from((value >> at) & 1))
}

#[tactic(auto, unfolding(crate::specs::Ends::fields_text))]
fn push_index(text: &mut String, value: u32) -> Result<(), AllocError>
    ensures { OnOk result (string_bytes text.new ≡ string_bytes text.old ++ fields_text 34 value) }
{
    push_bit(text, " P ", value, 31)?;
    text.push_str(" slot ")?;
    push_decimal(text, u64::from((value >> 8) & 0x3f))
}

#[tactic(auto, unfolding(crate::specs::Ends::fields_text))]
fn push_entry_lo(text: &mut String, value: u32) -> Result<(), AllocError>
    ensures { OnOk result (string_bytes text.new ≡ string_bytes text.old ++ fields_text 35 value) }
{
    text.push_str(" frame ")?;
    push_hex(text, value / 0x1000 * 0x1000)?;
    push_flags(text, &Entry::of_words(0, value))
}

#[tactic(auto, unfolding(crate::specs::Ends::fields_text))]
fn push_context(text: &mut String, value: u32) -> Result<(), AllocError>
    ensures { OnOk result (string_bytes text.new ≡ string_bytes text.old ++ fields_text 36 value) }
{
    text.push_str(" PTEBase ")?;
    push_hex(text, value / 0x20_0000 * 0x20_0000)?;
    text.push_str(" BadVPN ")?;
    push_hex(text, (value >> 2) & 0x7_ffff)
}

#[tactic(auto, unfolding(crate::specs::Ends::fields_text))]
fn push_entry_hi(text: &mut String, value: u32) -> Result<(), AllocError>
    ensures { OnOk result (string_bytes text.new ≡ string_bytes text.old ++ fields_text 38 value) }
{
    text.push_str(" page ")?;
    push_hex(text, value / 0x1000 * 0x1000)?;
    text.push_str(" asid ")?;
    push_decimal(text, u64::from((value >> 6) & 0x3f))
}

#[tactic(auto, unfolding(crate::specs::Ends::fields_text))]
fn push_status(text: &mut String, value: u32) -> Result<(), AllocError>
    ensures { OnOk result (string_bytes text.new ≡ string_bytes text.old ++ fields_text 39 value) }
{
    push_bit(text, " KUo ", value, 5)?;
    push_bit(text, " IEo ", value, 4)?;
    push_bit(text, " KUp ", value, 3)?;
    push_bit(text, " IEp ", value, 2)?;
    push_bit(text, " KUc ", value, 1)?;
    push_bit(text, " IEc ", value, 0)?;
    text.push_str(" IM ")?;
    push_byte(text, ((value >> 8) & 0xff) as u8)
}

#[tactic(auto, unfolding(crate::specs::Ends::fields_text))]
fn push_cause_fields(text: &mut String, value: u32) -> Result<(), AllocError>
    ensures { OnOk result (string_bytes text.new ≡ string_bytes text.old ++ fields_text 40 value) }
{
    let code = (value >> 2) & 0x1f;
    push_bit(text, " BD ", value, 31)?;
    text.push_str(" CE ")?;
    push_decimal(text, u64::from((value >> 28) & 3))?;
    text.push_str(" IP ")?;
    push_byte(text, ((value >> 8) & 0xff) as u8)?;
    text.push_str(" code ")?;
    push_code(text, code)
}

/// Adds what the four lines sent.
#[tactic(auto, unfolding(crate::specs::Ends::lines_text))]
fn push_lines(text: &mut String, sent: &[(u8, u8)]) -> Result<(), AllocError>
    ensures { OnOk result (string_bytes text.new ≡ string_bytes text.old ++ lines_text sent.now) }
{
    push_sent(text, 0, sent)?;
    push_sent(text, 1, sent)?;
    push_sent(text, 2, sent)?;
    push_sent(text, 3, sent)
}

/// Adds what a line sent.
fn push_sent(text: &mut String, line: u8, sent: &[(u8, u8)]) -> Result<(), AllocError>
    ensures { OnOk result
        (string_bytes text.new ≡ string_bytes text.old ++ sent_text line sent.now) }
{
    text.push_str("sent ")?;
    push_decimal(text, u64::from(line))?;
    text.push_str(" ")?;
    push_characters(text, line, sent)?;
    text.push_str("\n")
}

fn push_characters(text: &mut String, line: u8, sent: &[(u8, u8)]) -> Result<(), AllocError>
    ensures { OnOk result (string_bytes text.new
        ≡ string_bytes text.old ++ flat_map (character_text line) sent.now) }
{
    for character in sent {
        push_character(text, line, *character)?;
    }
    Ok(())
}

/// Adds a character that this line sent.
fn push_character(text: &mut String, line: u8, character: (u8, u8)) -> Result<(), AllocError>
    ensures { OnOk result
        (string_bytes text.new ≡ string_bytes text.old ++ character_text line character) }
{
    if character.0 == line {
        push_byte(text, character.1)
    } else {
        Ok(())
    }
}
