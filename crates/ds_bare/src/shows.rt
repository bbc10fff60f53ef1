//! Which instructions are told.
ghost use Rattle.std.specs.Prelude.{◌≡◌, ◌++◌, OnOk};
ghost use Rattle.std.specs.String.{string_bytes};
ghost use Rattle.ds_bare.specs.Shows.{asked_in, begun_shown, is_of, is_of_devices, is_of_tlb, is_raised, line_shown, lines_shown, meets_device, names_tlb};

use crate::before::Before;
use crate::begun::push_begun;
use crate::ending::Processor;
use crate::registers::others;
use crate::step::push_line;
use ds_core::Event;
use ds_dev::Bus;
use ds_words::{BareOnly, BareView};
use std::alloc::{AllocError, Global};

/// Where Cause stands among the registers but the general ones.
const CAUSE: usize = 8;

/// Whether an exception was entered.
fn is_raised(event: Event) -> bool
    ensures { result ≡ is_raised event }
{
    matches!(event, Event::Raised(_))
}

/// Whether a word is `tlbr`, `tlbwi`, `tlbwr` or `tlbp`.
fn names_tlb(word: Option<u32>) -> bool
    ensures { result ≡ names_tlb word }
{
    match word {
        Some(word) => {
            word == 0x4200_0001 || word == 0x4200_0002 || word == 0x4200_0006 || word == 0x4200_0008
        }
        None => false,
    }
}

/// Whether it is an instruction of the buffer that is done, or one that the buffer stopped.
fn is_of_tlb(word: Option<u32>, event: Event) -> bool
    ensures { result ≡ is_of_tlb word event }
{
    match event {
        Event::Retired => names_tlb(word),
        Event::Branched => false,
        Event::Raised(code) => code.number() >= 1 && code.number() <= 3,
    }
}

/// Whether a device was reached, by whether the instruction reaches one if it is done, or interrupts.
fn meets_device(device: bool, event: Event) -> bool
    ensures { result ≡ meets_device device event }
{
    match event {
        Event::Retired => device,
        Event::Branched => false,
        Event::Raised(code) => code.number() == 0,
    }
}

/// What the devices ask for, by the registers but the general ones.
fn asked_in(others: &[u32; 10]) -> u32
    ensures { result ≡ asked_in others.now }
{
    (others[CAUSE] >> 10) & 3
}

/// Whether a device was reached, or interrupts, or begins or ceases to ask.
fn is_of_devices(before: &Before, event: Event, core: &Processor, bus: &Bus) -> bool
    ensures { result ≡ is_of_devices before.now event core.now bus.now }
{
    meets_device(before.device, event) || asked_in(&before.others) != asked_in(&others(core, bus))
}

/// Whether an instruction is of a kind; where none is named, each is.
fn is_of(only: Option<BareOnly>, before: &Before, event: Event, core: &Processor, bus: &Bus) -> bool
    ensures { result ≡ is_of only before.now event core.now bus.now }
{
    match only {
        None => true,
        Some(BareOnly::End) => false,
        Some(BareOnly::Exceptions) => is_raised(event),
        Some(BareOnly::Tlb) => is_of_tlb(before.word, event),
        Some(BareOnly::Devices) => is_of_devices(before, event, core, bus),
    }
}

/// Adds the line of an instruction, where it is told.
fn push_line_shown(
    text: &mut String,
    view: &BareView,
    number: u64,
    before: &Before,
    event: Event,
    core: &Processor,
    bus: &Bus,
) -> Result<(), AllocError>
    ensures { OnOk result (string_bytes text.new ≡ string_bytes text.old
        ++ line_shown view.now number before.now event core.now bus.now) }
{
    if is_of(view.only, before, event, core, bus) {
        push_line(text, view.names, number, before, event, core, bus)
    } else {
        Ok(())
    }
}

/// Adds where slots begin to match each other, where that is told.
fn push_begun_shown(
    alloc: Global,
    text: &mut String,
    view: &BareView,
    before: &Before,
    core: &Processor,
) -> Result<(), AllocError>
    ensures { OnOk result (string_bytes text.new ≡ string_bytes text.old
        ++ begun_shown view.now before.now core.now) }
{
    if view.matches {
        push_begun(alloc, text, before.slot, before.held, core)
    } else {
        Ok(())
    }
}

/// Adds what is told of the step with this number, by what was before it and what it left.
#[tactic(auto, unfolding(crate::specs::Shows::lines_shown))]
pub(crate) fn push_lines_shown(
    alloc: Global,
    text: &mut String,
    view: &BareView,
    number: u64,
    before: &Before,
    event: Event,
    core: &Processor,
    bus: &Bus,
) -> Result<(), AllocError>
    ensures { OnOk result (string_bytes text.new ≡ string_bytes text.old
        ++ lines_shown view.now number before.now event core.now bus.now) }
{
    push_line_shown(text, view, number, before, event, core, bus)?;
    push_begun_shown(alloc, text, view, before, core)
}
