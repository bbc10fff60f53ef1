//! Answers to packets that only look.
ghost use Rattle.std.specs.Prelude.{◌≡◌, ◌<◌, ◌≤◌, ◌++◌, OnOk, codes, length, true};
ghost use Rattle.ds_packets.specs.Framing.{hex_text};
ghost use Rattle.ds_debug.specs.Answers.{answer_text, are_there, console_text, info_text, is_there, of_process, run_report_text, seen_text, there_text};
ghost use Rattle.ds_debug.specs.Reports.{is_runner, thread_words};
ghost use Rattle.ds_debug.specs.Sights.{sight_held};
ghost use Rattle.ds_gdb.specs.Threads.{thread_text};
ghost use Rattle.ds_gdb.specs.Outputs.{outputs_text};

use crate::memory::push_memory;
use crate::registers::{Registers, push_register, push_registers};
use crate::reports::{push_processes, push_thread_words, push_time};
use crate::tables::{push_table, push_table_of};
use ds_gdb::{push_description, push_features, push_outputs, push_thread, push_threads};
use ds_packets::{Packet, Report, Who, push_hex};
use ds_station::Station;
use ds_tlb::Lookaside;
use std::alloc::{AllocError, Global};

/// Whether there is a process of this number.
pub(crate) fn is_there<L: Lookaside>(station: &Station<L>, process: u32) -> bool
    ensures value { result ≡ is_there (sight_held station.now.held) process }
    ensures there { result ≡ true → (0 < process)
        × (process ≤ length station.now.held.kept.state.processes) × (process ≤ 100) }
{
    0 < process && process <= station.processes()
}

/// Whether the processes are there.
pub(crate) fn are_there<L: Lookaside>(station: &Station<L>, who: Who) -> bool
    ensures { result ≡ are_there (sight_held station.now.held) who }
{
    match who {
        Who::Any | Who::All => true,
        Who::Process(process) => is_there(station, process),
    }
}

/// Adds that the processes are there, or the error where they are not.
fn push_there<L: Lookaside>(
    text: &mut Vec<u8>,
    station: &Station<L>,
    who: Who,
) -> Result<(), AllocError>
    ensures { OnOk result (text.new.items ≡ text.old.items
        ++ there_text (sight_held station.now.held) who) }
{
    if are_there(station, who) {
        text.extend_from_slice(b"OK")
    } else {
        text.extend_from_slice(b"E03")
    }
}

/// Adds the process that is looked at, by its name.
fn push_current(text: &mut Vec<u8>, process: u32) -> Result<(), AllocError>
    requires { process < 256 }
    ensures { OnOk result (text.new.items ≡ text.old.items
        ++ (codes "QC" ++ thread_text process)) }
{
    text.extend_from_slice(b"QC")?;
    push_thread(text, process)
}

/// Adds a process in words, in hexadecimal digits.
fn push_words<L: Lookaside>(
    alloc: Global,
    text: &mut Vec<u8>,
    station: &Station<L>,
    process: u32,
) -> Result<(), AllocError>
    requires above { 0 < process }
    requires within { process ≤ length station.now.held.kept.state.processes }
    ensures { OnOk result (text.new.items ≡ text.old.items ++ hex_text (thread_words process
        ((sight_held station.now.held).standing process)
        (is_runner (sight_held station.now.held) process))) }
{
    let mut words = Vec::new(alloc);
    push_thread_words(&mut words, station, process)?;
    push_hex(text, words.as_slice())
}

/// Adds a process in words, or the error where none is named that is there.
fn push_info<L: Lookaside>(
    alloc: Global,
    text: &mut Vec<u8>,
    station: &Station<L>,
    who: Who,
) -> Result<(), AllocError>
    ensures { OnOk result (text.new.items ≡ text.old.items
        ++ info_text (sight_held station.now.held) who) }
{
    match who {
        Who::Process(process) => {
            if is_there(station, process) {
                push_words(alloc, text, station, process)
            } else {
                text.extend_from_slice(b"E03")
            }
        }
        Who::Any | Who::All => text.extend_from_slice(b"E03"),
    }
}

/// Adds what is asked of a process that is there: its name, its registers, one of them, or its memory.
fn push_seen<L: Lookaside>(
    alloc: Global,
    text: &mut Vec<u8>,
    station: &Station<L>,
    process: u32,
    packet: Packet,
) -> Result<(), AllocError>
    requires above { 0 < process }
    requires within { process ≤ length station.now.held.kept.state.processes }
    ensures { OnOk result (text.new.items ≡ text.old.items
        ++ seen_text (sight_held station.now.held) process packet) }
{
    let _few = station.processes();
    match packet {
        Packet::Current => push_current(text, process),
        Packet::Registers => push_registers(text, &Registers::of(station, process)),
        Packet::Register(number) => {
            push_register(text, &Registers::of(station, process), number)
        }
        Packet::Memory { address, length } => {
            push_memory(alloc, text, station, process, address, length)
        }
        _ => Ok(()),
    }
}

/// Adds what is asked of a process, or the error where it is not there.
fn push_of_process<L: Lookaside>(
    alloc: Global,
    text: &mut Vec<u8>,
    station: &Station<L>,
    process: u32,
    packet: Packet,
) -> Result<(), AllocError>
    ensures { OnOk result (text.new.items ≡ text.old.items
        ++ of_process (sight_held station.now.held) process
        (seen_text (sight_held station.now.held) process packet)) }
{
    if is_there(station, process) {
        push_seen(alloc, text, station, process, packet)
    } else {
        text.extend_from_slice(b"E03")
    }
}

/// Adds what is answered to a packet by a station of which this process is looked at; nothing where
/// the packet is not known, or is one that changes a session.
pub(crate) fn push_answer<L: Lookaside>(
    alloc: Global,
    text: &mut Vec<u8>,
    station: &Station<L>,
    process: u32,
    packet: Packet,
) -> Result<(), AllocError>
    ensures { OnOk result (text.new.items ≡ text.old.items
        ++ answer_text (sight_held station.now.held) process packet) }
{
    match packet {
        Packet::Supported { multiprocess } => push_features(text, multiprocess),
        Packet::Description { offset, length } => push_description(alloc, text, offset, length),
        Packet::FirstThreads => push_threads(text, station.processes()),
        Packet::MoreThreads => text.extend_from_slice(b"l"),
        Packet::ThreadInfo(who) => push_info(alloc, text, station, who),
        Packet::Attached => text.extend_from_slice(b"1"),
        Packet::Alive(who) => push_there(text, station, who),
        Packet::Current | Packet::Registers | Packet::Register(_) | Packet::Memory { .. } => {
            push_of_process(alloc, text, station, process, packet)
        }
        Packet::Write => text.extend_from_slice(b"E01"),
        Packet::Actions => text.extend_from_slice(b"vCont;c;C;s;S;r"),
        Packet::Leave => text.extend_from_slice(b"OK"),
        _ => Ok(()),
    }
}

/// The text of a console line, of four.
pub(crate) fn console_text<L: Lookaside>(station: &Station<L>, line: u8) -> &[u8]
    ensures { result.now ≡ console_text (sight_held station.now.held) line }
{
    if line < 4 {
        station.console(usize::from(line))
    } else {
        &[]
    }
}

/// Adds the packets of what is told of a run for `n`.
pub(crate) fn push_report<L: Lookaside>(
    alloc: Global,
    out: &mut Vec<u8>,
    station: &Station<L>,
    n: u64,
    report: Report,
) -> Result<(), AllocError>
    ensures { OnOk result (out.new.items ≡ out.old.items
        ++ outputs_text (run_report_text n (sight_held station.now.held) report)) }
{
    let mut text = Vec::new(alloc);
    match report {
        Report::Time => push_time(&mut text, station, n)?,
        Report::Processes => push_processes(&mut text, station)?,
        Report::Log => text.extend_from_slice(station.log())?,
        Report::Console(line) => text.extend_from_slice(console_text(station, line))?,
        Report::Table => push_table(&mut text, station)?,
        Report::TableOf(process) => push_table_of(&mut text, station, process)?,
    }
    push_outputs(alloc, out, text.as_slice())
}
