//! The line that tells of a process that has not ended, where all have to.
ghost use Rattle.std.specs.Prelude.{◌≡◌, ◌<◌, ◌≤◌, ◌++◌, IfOk, OnOk, length};
ghost use Rattle.std.specs.String.{string_bytes};
ghost use Rattle.ds_trace.specs.MustEnd.{ticks_words, unended_line, unended_words, where_text, which_text};

use crate::accounts::push_parked_why;
use crate::logs::lines_of;
use ds_procs::Standing;
use ds_station::{Station, Unended};
use ds_text::sheet::push_decimal;
use ds_text::string::push_hex;
use ds_tlb::Lookaside;
use std::alloc::{AllocError, Global};

/// How a process stands, before the address where it goes on.
fn unended_words(standing: Standing) -> &'static str
    ensures { result.now ≡ unended_words standing }
{
    match standing {
        Standing::Ready => "it is ready at ",
        Standing::Waiting => "it waits for a character at ",
        Standing::Parked => "it is parked at ",
        Standing::Ended => "it has ended at ",
    }
}

/// What stands after the address, of a process that could go on.
fn ticks_words(standing: Standing) -> &'static [u8]
    ensures { result.now ≡ ticks_words standing }
{
    match standing {
        Standing::Ready => b", and the ticks ran out",
        Standing::Waiting | Standing::Parked | Standing::Ended => b"",
    }
}

/// Adds which process has not ended.
fn push_which(text: &mut Vec<u8>, process: u32) -> Result<(), AllocError>
    ensures { OnOk result (text.new.items ≡ text.old.items ++ which_text process) }
{
    text.extend_from_slice(b"dsmon: process ")?;
    push_decimal(text, u64::from(process))?;
    text.extend_from_slice(b" has not ended: ")
}

/// Adds how it stands, and where it goes on.
fn push_where(line: &mut String, standing: Standing, address: u32) -> Result<(), AllocError>
    ensures { OnOk result
        (string_bytes line.new ≡ string_bytes line.old ++ where_text standing address) }
{
    line.push_str(unended_words(standing))?;
    push_hex(line, address)
}

/// The line that tells of a process that has not ended when a run is over: its number, how it stands,
/// where it goes on, and why it does not: the ticks ran out, it waits for a character, or the line of
/// the log by which it is parked, with what that line's rule says.
pub fn unended_line<L: Lookaside>(
    alloc: Global,
    station: &Station<L>,
    unended: Unended,
) -> Result<Vec<u8>, AllocError>
    requires above { 0 < unended.process }
    requires within { unended.process ≤ length station.now.held.kept.state.processes }
    ensures { IfOk result (λ text. text.items ≡ unended_line station.now.held unended) }
{
    let (process, standing) = (unended.process, unended.standing);
    let lines = lines_of(alloc, station.log())?;
    let mut text = Vec::new(alloc);
    let mut line = String::new(alloc);
    push_which(&mut text, process)?;
    push_where(&mut line, standing, station.address(process))?;
    text.extend_from_slice(line.as_bytes())?;
    text.extend_from_slice(ticks_words(standing))?;
    push_parked_why(&mut text, lines.as_slice(), process, standing)?;
    text.extend_from_slice(b"\n")?;
    Ok(text)
}
