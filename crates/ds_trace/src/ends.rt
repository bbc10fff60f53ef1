//! The end of a trace: what is told of the whole run, and how each process stands, with its registers.
ghost use Rattle.std.specs.Prelude.{◌≡◌, ◌++◌, OnOk, codes, decimal, length, map, option_map};
ghost use Rattle.std.specs.String.{string_bytes};
ghost use Rattle.ds_text.specs.Digits.{hex8};
ghost use Rattle.ds_trace.specs.Changes.{standing_text};
ghost use Rattle.ds_trace.specs.Ends.{register_left_text, line_by, parked_text, process_text, registers_text};
ghost use Rattle.ds_trace.specs.Inner.Shows.{end_held, processes_held};

use crate::changes::push_standing;
use crate::counts::Counts;
use crate::lines::{is_hidden, push_newline};
use crate::logs::{last_of, lines_of};
use crate::summaries::push_summary;
use ds_listing::{RegisterNames, push_register};
use ds_procs::Standing;
use ds_station::Station;
use ds_text::string::{push_decimal, push_hex};
use ds_tlb::Lookaside;
use ds_words::View;
use std::alloc::{AllocError, Global};

/// Adds a register of a process at the end: none that a touch may change, and none that holds 0.
fn push_left(
    line: &mut String,
    names: RegisterNames,
    register: u8,
    value: u32,
) -> Result<(), AllocError>
    ensures { OnOk result
        (string_bytes line.new ≡ string_bytes line.old ++ register_left_text names register value) }
{
    if is_hidden(register) || value == 0 {
        return Ok(());
    }
    line.push_str("  ")?;
    push_register(line, register, names)?;
    line.push_str("=")?;
    push_hex(line, value)
}

/// Adds the registers of a process.
fn push_registers(
    line: &mut String,
    names: RegisterNames,
    general: &[u32; 32],
) -> Result<(), AllocError>
    ensures { OnOk result
        (string_bytes line.new ≡ string_bytes line.old ++ registers_text names 0 general.now) }
{
    for (register, value) in general.iter().enumerate() {
        push_left(line, names, register as u8, *value)?;
    }
    Ok(())
}

/// Adds a line of the log, where there is one.
fn push_line(text: &mut Vec<u8>, found: Option<&[u8]>) -> Result<(), AllocError>
    ensures { OnOk result
        (text.new.items ≡ text.old.items ++ line_by (option_map (λ l. l.now) found.entry)) }
{
    match found {
        Some(line) => {
            text.extend_from_slice(b" by ")?;
            text.extend_from_slice(line)
        }
        None => Ok(()),
    }
}

/// Adds a process's number, how it stands, and where it goes on.
pub(crate) fn push_head(
    line: &mut String,
    process: u32,
    standing: Standing,
    address: u32,
) -> Result<(), AllocError>
    ensures { OnOk result (string_bytes line.new ≡ string_bytes line.old
        ++ (codes "process " ++ decimal process ++ codes " " ++ standing_text standing
        ++ codes " " ++ hex8 address)) }
{
    line.push_str("process ")?;
    push_decimal(line, u64::from(process))?;
    line.push_str(" ")?;
    push_standing(line, standing)?;
    line.push_str(" ")?;
    push_hex(line, address)
}

/// Adds by which of these lines of the log a process is parked, where it is.
fn push_parked(
    text: &mut Vec<u8>,
    lines: &[&[u8]],
    process: u32,
    standing: Standing,
) -> Result<(), AllocError>
    ensures { OnOk result (text.new.items ≡ text.old.items
        ++ parked_text (map (λ l. l.now) lines.now) process standing) }
{
    match standing {
        Standing::Parked => push_line(text, last_of(lines, process)),
        Standing::Ready | Standing::Waiting | Standing::Ended => Ok(()),
    }
}

/// Adds the registers of a process, and ends its line.
fn push_rest(line: &mut String, names: RegisterNames, general: &[u32; 32]) -> Result<(), AllocError>
    ensures { OnOk result (string_bytes line.new
        ≡ string_bytes line.old ++ (registers_text names 0 general.now ++ codes "\n")) }
{
    push_registers(line, names, general)?;
    push_newline(line)
}

/// Adds the line of a process, with the line of these by which it is parked.
fn push_process(
    text: &mut Vec<u8>,
    line: &mut String,
    names: RegisterNames,
    lines: &[&[u8]],
    process: u32,
    standing: Standing,
    address: u32,
    general: &[u32; 32],
) -> Result<(), AllocError>
    ensures { OnOk result (text.new.items ≡ text.old.items
        ++ process_text names (map (λ l. l.now) lines.now) process standing address general.now) }
{
    line.clear();
    push_head(line, process, standing, address)?;
    text.extend_from_slice(line.as_bytes())?;
    push_parked(text, lines, process, standing)?;
    line.clear();
    push_rest(line, names, general)?;
    text.extend_from_slice(line.as_bytes())
}

/// Adds the lines of all processes, by these lines of the log.
fn push_processes<L: Lookaside>(
    text: &mut Vec<u8>,
    line: &mut String,
    names: RegisterNames,
    lines: &[&[u8]],
    station: &Station<L>,
) -> Result<(), AllocError>
    ensures { OnOk result (text.new.items ≡ text.old.items
        ++ processes_held names (map (λ l. l.now) lines.now) station.now.held 1
        (length station.now.held.kept.state.processes)) }
{
    for process in 1..station.processes() + 1 {
        let (standing, address) = (station.standing(process), station.address(process));
        let general = station.general(process);
        push_process(
            text, line, names, lines, process, standing, address, &general,
        )?;
    }
    Ok(())
}

/// Adds what is told of the whole run, and the lines of all processes.
pub(crate) fn push_end<L: Lookaside>(
    alloc: Global,
    text: &mut Vec<u8>,
    line: &mut String,
    view: &View<'_>,
    counts: &Counts,
    station: &Station<L>,
) -> Result<(), AllocError>
    ensures { OnOk result (text.new.items
        ≡ text.old.items ++ end_held view.now counts.now station.now.held) }
{
    let lines = lines_of(alloc, station.log())?;
    push_summary(
        alloc,
        text,
        line,
        view,
        counts,
        station.time(),
        lines.as_slice(),
    )?;
    push_processes(text, line, view.names, lines.as_slice(), station)
}
