//! The lines of a unit.
ghost use Rattle.std.specs.Prelude.{◌≡◌, ◌++◌, ◌==◌, OnOk, codes, if◌then◌else◌, [], length};
ghost use Rattle.std.specs.String.{string_bytes};
ghost use Rattle.ds_isa.specs.Instruction.{instruction_of};
ghost use Rattle.ds_listing.specs.Pages.{place_of_address, plain_pages};
ghost use Rattle.ds_trace.specs.Lines.{before_blanks, first_line, front_text, instruction_text, is_hidden, is_none, loaded_text, shown_register, register_text, result_text, shown, slot_line, source_place_text, told_line, unit_text, was_done};
ghost use Rattle.ds_station.specs.Reads.{general_held, memory_held};
ghost use Rattle.ds_trace.specs.Inner.Shows.{found_held};
ghost use Rattle.ds_trace.specs.Stores.{reach_of, stored_at, stored_text};

use crate::calls::{push_answer, push_told_call};
use crate::start::{Start, is_call};
use crate::stores::{held_in, is_lost, push_stored, reach_of, stored_at};
use ds_isa::{decode, writes};
use ds_listing::{RegisterNames, push_address_place, push_register as push_name, push_word_as};
use ds_procs::Call;
use ds_station::Station;
use ds_text::string::{push_decimal, push_hex};
use ds_tlb::Lookaside;
use ds_word::wrapping_sum;
use ds_words::View;
use std::alloc::AllocError;

/// Whether a register is never shown: 0, and those which a touch may change.
pub(crate) fn is_hidden(register: u8) -> bool
    ensures { result ≡ is_hidden register }
{
    register == 0 || is_lost(register)
}

/// A register that is shown.
fn shown(register: Option<u8>) -> Option<u8>
    ensures { result ≡ shown register }
{
    match register {
        Some(register) => {
            if is_hidden(register) {
                None
            } else {
                Some(register)
            }
        }
        None => None,
    }
}

/// The register that the line of an instruction shows.
#[tactic(auto, unfolding(crate::specs::Lines::shown_register))]
fn shown_register(word: u32) -> Option<u8>
    ensures { result ≡ shown_register word }
{
    let instr = decode(word);
    if is_call(&instr) {
        shown(Some(2))
    } else {
        shown(writes(&instr))
    }
}

/// Adds a register with what it holds, if there is one.
fn push_register(
    line: &mut String,
    names: RegisterNames,
    general: &[u32; 32],
    register: Option<u8>,
) -> Result<(), AllocError>
    ensures { OnOk result (string_bytes line.new
        ≡ string_bytes line.old ++ register_text names general.now register) }
{
    match register {
        Some(register) => {
            line.push_str("  ")?;
            push_name(line, register, names)?;
            line.push_str("=")?;
            push_hex(line, held_in(general, register))
        }
        None => Ok(()),
    }
}

/// What is told of the instruction of a unit, or of that in its slot.
#[derive(Clone, Copy)]
pub(crate) struct Told {
    pub time: u64,
    pub process: u32,
    /// The page that the process's entry at its address names.
    pub page: Option<u32>,
    pub address: u32,
    pub word: u32,
    pub call: Option<Call>,
    /// The number of the call.
    pub number: u32,
    /// The address of the word from which it loads.
    pub loaded: Option<u32>,
    /// Whether its unit was done.
    pub done: bool,
}

/// Adds the time, the process, the address and the instruction's text.
fn push_front(line: &mut String, names: RegisterNames, told: Told) -> Result<(), AllocError>
    ensures { OnOk result
        (string_bytes line.new ≡ string_bytes line.old ++ front_text names told) }
{
    push_decimal(line, told.time)?;
    line.push_str(" ")?;
    push_decimal(line, u64::from(told.process))?;
    line.push_str(" ")?;
    push_hex(line, told.address)?;
    line.push_str(" ")?;
    push_word_as(line, told.word, names)
}

/// Adds the word from which an instruction loads, where units are told by their sources.
fn push_loaded<L: Lookaside>(
    line: &mut String,
    view: &View<'_>,
    station: &Station<L>,
    told: Told,
) -> Result<(), AllocError>
    ensures { OnOk result (string_bytes line.new ≡ string_bytes line.old
        ++ (if view.now.source then stored_text (memory_held station.now.held)
        (length station.now.held.kept.state.processes) told.process told.loaded else [])) }
{
    if view.source {
        push_stored(line, station, told.process, told.loaded)
    } else {
        Ok(())
    }
}

/// Adds a register, or the word of a store, by what the registers hold, and the word of a load.
fn push_effect<L: Lookaside>(
    line: &mut String,
    view: &View<'_>,
    station: &Station<L>,
    told: Told,
    general: &[u32; 32],
) -> Result<(), AllocError>
    ensures { OnOk result (string_bytes line.new ≡ string_bytes line.old
        ++ (register_text view.now.names general.now (shown_register told.word)
        ++ (stored_text (memory_held station.now.held) (length station.now.held.kept.state.processes)
        told.process (stored_at general.now (reach_of (instruction_of told.word)))
        ++ (if view.now.source then stored_text (memory_held station.now.held)
        (length station.now.held.kept.state.processes) told.process told.loaded else [])))) }
{
    push_register(line, view.names, general, shown_register(told.word))?;
    let address = stored_at(general, reach_of(&decode(told.word)));
    push_stored(line, station, told.process, address)?;
    push_loaded(line, view, station, told)
}

/// Adds what an instruction leaves, where its unit was done.
fn push_result<L: Lookaside>(
    line: &mut String,
    view: &View<'_>,
    station: &Station<L>,
    told: Told,
    general: &[u32; 32],
) -> Result<(), AllocError>
    requires general { general.now ≡ general_held station.now.held told.process }
    ensures { OnOk result (string_bytes line.new ≡ string_bytes line.old
        ++ result_text view.now told (found_held told.process station.now.held)) }
{
    if told.done {
        push_effect(line, view, station, told, general)
    } else {
        Ok(())
    }
}

/// Adds an instruction that was fetched, and ends its line.
fn push_instruction<L: Lookaside>(
    line: &mut String,
    view: &View<'_>,
    told: Told,
    station: &Station<L>,
) -> Result<(), AllocError>
    ensures { OnOk result (string_bytes line.new ≡ string_bytes line.old
        ++ instruction_text view.now told (found_held told.process station.now.held)) }
{
    let general = station.general(told.process);
    push_front(line, view.names, told)?;
    push_told_call(line, view.source, told.number, told.call)?;
    push_result(line, view, station, told, &general)?;
    push_answer(line, told.call, held_in(&general, 2))?;
    push_newline(line)
}

/// Adds where an instruction stands in its source, with two blanks after it, where it stands in one.
fn push_place(text: &mut Vec<u8>, view: &View<'_>, told: Told) -> Result<(), AllocError>
    ensures { OnOk result (text.new.items ≡ text.old.items
        ++ before_blanks (place_of_address (plain_pages view.now.pages.now) told.page told.address)) }
{
    let start = text.len();
    push_address_place(text, view.pages, told.page, told.address)?;
    if text.len() == start {
        return Ok(());
    }
    text.extend_from_slice(b"  ")
}

/// Adds where an instruction stands in its source, where units are told by their sources.
fn push_source(text: &mut Vec<u8>, view: &View<'_>, told: Told) -> Result<(), AllocError>
    ensures { OnOk result
        (text.new.items ≡ text.old.items ++ source_place_text view.now told) }
{
    if view.source {
        push_place(text, view, told)
    } else {
        Ok(())
    }
}

/// Adds the line of an instruction that was fetched.
fn push_line<L: Lookaside>(
    text: &mut Vec<u8>,
    line: &mut String,
    view: &View<'_>,
    told: Told,
    station: &Station<L>,
) -> Result<(), AllocError>
    ensures { OnOk result (text.new.items ≡ text.old.items
        ++ told_line view.now told (found_held told.process station.now.held)) }
{
    push_source(text, view, told)?;
    line.clear();
    push_instruction(line, view, told, station)?;
    text.extend_from_slice(line.as_bytes())
}

/// Adds the line of the first instruction of a unit, where it was fetched.
fn push_first<L: Lookaside>(
    text: &mut Vec<u8>,
    line: &mut String,
    view: &View<'_>,
    start: &Start,
    done: bool,
    station: &Station<L>,
) -> Result<(), AllocError>
    ensures { OnOk result (text.new.items ≡ text.old.items
        ++ first_line view.now start.now done
        (found_held start.now.process station.now.held) start.now.word) }
{
    match start.word {
        Some(word) => {
            let told = Told {
                time: start.time,
                process: start.process,
                page: start.page,
                address: start.address,
                word,
                call: start.call,
                number: start.number,
                loaded: start.loaded,
                done,
            };
            push_line(text, line, view, told, station)
        }
        None => Ok(()),
    }
}

/// Adds the line of the slot of its branch, where that was fetched.
fn push_slot<L: Lookaside>(
    text: &mut Vec<u8>,
    line: &mut String,
    view: &View<'_>,
    start: &Start,
    done: bool,
    station: &Station<L>,
) -> Result<(), AllocError>
    ensures { OnOk result (text.new.items ≡ text.old.items
        ++ slot_line view.now start.now done
        (found_held start.now.process station.now.held) start.now.slot) }
{
    match start.slot {
        Some(word) => {
            text.extend_from_slice(b"  ")?;
            let told = Told {
                time: start.time,
                process: start.process,
                page: start.slot_page,
                address: wrapping_sum(start.address, 4),
                word,
                call: None,
                number: start.number,
                loaded: start.slot_loaded,
                done,
            };
            push_line(text, line, view, told, station)
        }
        None => Ok(()),
    }
}

/// Adds the lines of a unit.
pub(crate) fn push_unit<L: Lookaside>(
    text: &mut Vec<u8>,
    line: &mut String,
    view: &View<'_>,
    start: &Start,
    done: bool,
    station: &Station<L>,
) -> Result<(), AllocError>
    ensures { OnOk result (text.new.items ≡ text.old.items
        ++ unit_text view.now start.now done (found_held start.now.process station.now.held)) }
{
    push_first(text, line, view, start, done, station)?;
    push_slot(text, line, view, start, done, station)
}

/// Whether a unit that logged this was done.
pub(crate) fn was_done(start: &Start, logged: &[u8]) -> bool
    ensures { result ≡ was_done start.now logged.now }
{
    logged.is_empty() || start.call.is_some()
}

/// Ends a line.
pub(crate) fn push_newline(text: &mut String) -> Result<(), AllocError>
    ensures { OnOk result (string_bytes text.new ≡ string_bytes text.old ++ codes "\n") }
{
    text.push_str("\n")
}
