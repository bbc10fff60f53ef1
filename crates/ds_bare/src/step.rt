//! The line of a step.
ghost use Rattle.std.specs.Prelude.{◌≡◌, ◌≤◌, ◌<◌, ◌+◌, ◌++◌, OnOk, length};
ghost use Rattle.std.specs.String.{string_bytes};
ghost use Rattle.ds_bare.specs.Steps.{change_text, changes_text, wrote_text, event_text, front_text, instruction_text, late_text, numbered_step_text, raised_text, changed_registers_text, slot_written_text, stored_text, word_stored, written_text};

use crate::before::{Before, Stored};
use crate::ending::Processor;
use crate::entries::push_slot;
use crate::names::{push_code, push_name};
use crate::registers::{general_seen, others};
use ds_core::Event;
use ds_dev::Bus;
use ds_isa::Late;
use ds_listing::{RegisterNames, push_word_as};
use ds_mem::SIZE;
use ds_text::string::{push_decimal, push_hex};
use ds_tlb::Lookaside;
use std::alloc::AllocError;

/// Adds the line of the step with this number, by what was before it and what it left, with registers
/// called by these names.
#[tactic(auto, unfolding(crate::specs::Steps::numbered_step_text))]
pub(crate) fn push_line(
    text: &mut String,
    names: RegisterNames,
    number: u64,
    before: &Before,
    event: Event,
    core: &Processor,
    bus: &Bus,
) -> Result<(), AllocError>
    ensures { OnOk result (string_bytes text.new ≡ string_bytes text.old
        ++ numbered_step_text names number before.now event core.now bus.now) }
{
    push_front(text, names, number, before.pc, before.word)?;
    push_written(text, names, before, event, core, bus)?;
    push_registers(text, names, before, core, bus)?;
    push_event(text, event, core.pc)?;
    text.push_str("\n")
}

/// Adds a step's number, its address and its instruction.
#[tactic(auto, unfolding(crate::specs::Steps::front_text))]
fn push_front(
    text: &mut String,
    names: RegisterNames,
    number: u64,
    pc: u32,
    word: Option<u32>,
) -> Result<(), AllocError>
    ensures { OnOk result
        (string_bytes text.new ≡ string_bytes text.old ++ front_text names number pc word) }
{
    push_decimal(text, number)?;
    text.push_str(" ")?;
    push_hex(text, pc)?;
    text.push_str(" ")?;
    push_instruction(text, names, word)
}

/// Adds the instruction, or that there is none in memory.
fn push_instruction(
    text: &mut String,
    names: RegisterNames,
    word: Option<u32>,
) -> Result<(), AllocError>
    ensures { OnOk result
        (string_bytes text.new ≡ string_bytes text.old ++ instruction_text names word) }
{
    match word {
        Some(word) => push_word_as(text, word, names),
        None => text.push_str("not fetched"),
    }
}

/// Adds what the instruction wrote elsewhere than into a register, if it is done.
fn push_written(
    text: &mut String,
    names: RegisterNames,
    before: &Before,
    event: Event,
    core: &Processor,
    bus: &Bus,
) -> Result<(), AllocError>
    ensures { OnOk result (string_bytes text.new ≡ string_bytes text.old
        ++ written_text names before.now event core.now bus.now) }
{
    match event {
        Event::Retired => push_done(text, names, before, core, bus),
        _ => Ok(()),
    }
}

fn push_done(
    text: &mut String,
    names: RegisterNames,
    before: &Before,
    core: &Processor,
    bus: &Bus,
) -> Result<(), AllocError>
    ensures { OnOk result (string_bytes text.new
        ≡ string_bytes text.old ++ wrote_text names before.now core.now bus.now) }
{
    push_slot_written(text, core, before.slot)?;
    push_stored(text, bus, before.stored)?;
    push_late(text, names, core.late)
}

/// Adds the slot of the buffer that was written, if one was.
fn push_slot_written(
    text: &mut String,
    core: &Processor,
    slot: Option<usize>,
) -> Result<(), AllocError>
    ensures { OnOk result
        (string_bytes text.new ≡ string_bytes text.old ++ slot_written_text core.now.entries slot) }
{
    match slot {
        Some(slot) if slot < 64 => {
            text.push_str("; ")?;
            push_slot(text, slot, &core.tlb.read(slot))
        }
        Some(_) => text.push_str("; "),
        None => Ok(()),
    }
}

/// The word that a place has after a store: in memory its word, else what the device was given.
fn word_stored(bus: &Bus, stored: &Stored) -> u32
    ensures { result ≡ word_stored bus.now stored.now }
{
    if (stored.place as usize) < SIZE {
        bus.word(stored.place)
    } else {
        stored.value
    }
}

/// Adds the word that was stored, if one was.
fn push_stored(text: &mut String, bus: &Bus, stored: Option<Stored>) -> Result<(), AllocError>
    ensures { OnOk result
        (string_bytes text.new ≡ string_bytes text.old ++ stored_text bus.now stored) }
{
    match stored {
        Some(stored) => {
            text.push_str("; ")?;
            push_hex(text, stored.place / 4 * 4)?;
            text.push_str(" holds ")?;
            push_hex(text, word_stored(bus, &stored))
        }
        None => Ok(()),
    }
}

/// Adds the register whose load is late, if one is.
fn push_late(text: &mut String, names: RegisterNames, late: Option<Late>) -> Result<(), AllocError>
    ensures { OnOk result (string_bytes text.new ≡ string_bytes text.old ++ late_text names late) }
{
    match late {
        Some(late) => {
            text.push_str("; ")?;
            push_name(text, u32::from(late.register), names)?;
            text.push_str(" is late")
        }
        None => Ok(()),
    }
}

/// Adds the registers that changed.
#[tactic(auto, unfolding(crate::specs::Steps::changed_registers_text))]
fn push_registers(
    text: &mut String,
    names: RegisterNames,
    before: &Before,
    core: &Processor,
    bus: &Bus,
) -> Result<(), AllocError>
    ensures { OnOk result (string_bytes text.new
        ≡ string_bytes text.old ++ changed_registers_text names before.now core.now bus.now) }
{
    push_changes(text, names, 0, &before.registers, &general_seen(core))?;
    push_changes(text, names, 32, &before.others, &others(core, bus))
}

/// Adds the registers that changed, of which the first has this number.
fn push_changes(
    text: &mut String,
    names: RegisterNames,
    first: u32,
    before: &[u32],
    after: &[u32],
) -> Result<(), AllocError>
    requires { first + length before.now ≤ 64 }
    ensures { OnOk result (string_bytes text.new
        ≡ string_bytes text.old ++ changes_text names first before.now after.now) }
{
    let mut number = first;
    let mut olds = before;
    let mut news = after;
    while let [old, more_olds @ ..] = olds {
        match news {
            [new, more_news @ ..] => {
                push_change(text, names, number, *old, *new)?;
                news = more_news;
            }
            [] => return Ok(()),
        }
        number += 1;
        olds = more_olds;
    }
    Ok(())
}

/// Adds a register where it changed.
fn push_change(
    text: &mut String,
    names: RegisterNames,
    number: u32,
    old: u32,
    new: u32,
) -> Result<(), AllocError>
    requires { number < 64 }
    ensures { OnOk result
        (string_bytes text.new ≡ string_bytes text.old ++ change_text names number old new) }
{
    if old == new {
        return Ok(());
    }
    text.push_str("; ")?;
    push_name(text, number, names)?;
    text.push_str(" ")?;
    push_hex(text, new)
}

/// Adds an exception with its code and its vector, if one was entered.
fn push_event(text: &mut String, event: Event, pc: u32) -> Result<(), AllocError>
    ensures { OnOk result (string_bytes text.new ≡ string_bytes text.old ++ event_text event pc) }
{
    match event {
        Event::Raised(code) => push_raised(text, u32::from(code.number()), pc),
        _ => Ok(()),
    }
}

#[tactic(auto, unfolding(crate::specs::Steps::raised_text))]
fn push_raised(text: &mut String, code: u32, pc: u32) -> Result<(), AllocError>
    ensures { OnOk result (string_bytes text.new ≡ string_bytes text.old ++ raised_text code pc) }
{
    text.push_str("; exception ")?;
    push_code(text, code)?;
    text.push_str(" at ")?;
    push_hex(text, pc)
}
