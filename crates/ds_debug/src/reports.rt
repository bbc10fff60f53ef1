//! What is told in words: how far a run has come, and how each process stands.
ghost use Rattle.std.specs.Prelude.{◌≡◌, ◌<◌, ◌≤◌, ◌+◌, ◌++◌, OnOk, length};
ghost use Rattle.ds_debug.specs.Reports.{is_going, is_runner, listed_process, process_line, processes_text, standing_text, thread_words, time_text};
ghost use Rattle.ds_debug.specs.Sights.{sight_held};

use ds_gdb::push_time_words;
use ds_procs::Standing;
use ds_station::Station;
use ds_text::sheet::{push_decimal, push_hex};
use ds_tlb::Lookaside;
use std::alloc::AllocError;

/// How a process stands.
fn standing_text(standing: Standing) -> &'static [u8]
    ensures { result.now ≡ standing_text standing }
{
    match standing {
        Standing::Ready => b"ready",
        Standing::Waiting => b"waiting",
        Standing::Parked => b"parked",
        Standing::Ended => b"ended",
    }
}

/// Whether a process is the one that runs.
pub(crate) fn is_runner<L: Lookaside>(station: &Station<L>, process: u32) -> bool
    ensures { result ≡ is_runner (sight_held station.now.held) process }
{
    match station.runner() {
        Some(runner) => runner == process,
        None => false,
    }
}

/// Adds a process by how it stands and where, and whether it runs.
fn push_line(
    text: &mut Vec<u8>,
    process: u32,
    standing: Standing,
    address: u32,
    runs: bool,
) -> Result<(), AllocError>
    ensures { OnOk result (text.new.items ≡ text.old.items
        ++ process_line process standing address runs) }
{
    push_decimal(text, u64::from(process))?;
    text.extend_from_slice(b" ")?;
    text.extend_from_slice(standing_text(standing))?;
    text.extend_from_slice(b" ")?;
    push_hex(text, address)?;
    let end: &[u8] = if runs { b" runs\n" } else { b"\n" };
    text.extend_from_slice(end)
}

/// Adds the process after so many others.
fn push_listed<L: Lookaside>(
    text: &mut Vec<u8>,
    station: &Station<L>,
    index: u32,
) -> Result<(), AllocError>
    requires { index < length station.now.held.kept.state.processes }
    ensures { OnOk result (text.new.items ≡ text.old.items
        ++ listed_process (sight_held station.now.held) index) }
{
    let _few = station.processes();
    let process = index + 1;
    push_line(
        text,
        process,
        station.standing(process),
        station.address(process),
        is_runner(station, process),
    )
}

/// Adds all processes, a line each.
pub(crate) fn push_processes<L: Lookaside>(
    text: &mut Vec<u8>,
    station: &Station<L>,
) -> Result<(), AllocError>
    ensures { OnOk result (text.new.items ≡ text.old.items
        ++ processes_text (sight_held station.now.held)) }
{
    for index in 0..station.processes() {
        push_listed(text, station, index)?;
    }
    Ok(())
}

/// Adds a process in words.
fn push_words(
    text: &mut Vec<u8>,
    process: u32,
    standing: Standing,
    runs: bool,
) -> Result<(), AllocError>
    ensures { OnOk result (text.new.items ≡ text.old.items
        ++ thread_words process standing runs) }
{
    text.extend_from_slice(b"process ")?;
    push_decimal(text, u64::from(process))?;
    text.extend_from_slice(b" ")?;
    text.extend_from_slice(standing_text(standing))?;
    let end: &[u8] = if runs { b", runs" } else { b"" };
    text.extend_from_slice(end)
}

/// Adds a process in words, as the station has it.
pub(crate) fn push_thread_words<L: Lookaside>(
    text: &mut Vec<u8>,
    station: &Station<L>,
    process: u32,
) -> Result<(), AllocError>
    requires above { 0 < process }
    requires within { process ≤ length station.now.held.kept.state.processes }
    ensures { OnOk result (text.new.items ≡ text.old.items
        ++ thread_words process ((sight_held station.now.held).standing process)
        (is_runner (sight_held station.now.held) process)) }
{
    push_words(
        text,
        process,
        station.standing(process),
        is_runner(station, process),
    )
}

/// Whether time is left of a run for `n`, and a process has not ended.
pub(crate) fn is_going<L: Lookaside>(station: &Station<L>, n: u64) -> bool
    ensures { result ≡ is_going n (sight_held station.now.held) }
{
    station.time() < n && station.first_unended().is_some()
}

/// Adds how far a run for `n` has come.
pub(crate) fn push_time<L: Lookaside>(
    text: &mut Vec<u8>,
    station: &Station<L>,
    n: u64,
) -> Result<(), AllocError>
    ensures { OnOk result (text.new.items ≡ text.old.items
        ++ time_text n (sight_held station.now.held)) }
{
    push_time_words(text, station.time(), n, is_going(station, n))
}
