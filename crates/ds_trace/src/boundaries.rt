//! The lines of a boundary.
ghost use Rattle.std.specs.Prelude.{◌≡◌, ◌+◌, ◌-◌, ◌++◌, OnOk, drop, length};
ghost use Rattle.std.specs.String.{string_bytes};
ghost use Rattle.ds_policy.specs.Words.{after_blank, command_words};
ghost use Rattle.ds_trace.specs.Boundaries.{command_line, commands_text, count_keys, key_line, keys_text, characters_line_text, lost_text, entry_place_text, taken_by};

use crate::before::LINES;
use ds_policy::{Command, TimedCommand};
use ds_station::Station;
use ds_text::string::{push_byte, push_decimal, push_hex};
use ds_tlb::Lookaside;
use std::alloc::AllocError;

/// Adds a process and an address, each after a blank.
pub(crate) fn push_place(line: &mut String, process: u32, address: u32) -> Result<(), AllocError>
    ensures { OnOk result
        (string_bytes line.new ≡ string_bytes line.old ++ entry_place_text process address) }
{
    line.push_str(" ")?;
    push_decimal(line, u64::from(process))?;
    line.push_str(" ")?;
    push_hex(line, address)
}

/// Adds what a command asks for.
fn push_words(line: &mut String, command: Command) -> Result<(), AllocError>
    ensures { OnOk result
        (string_bytes line.new ≡ string_bytes line.old ++ command_words command) }
{
    line.push_str(command.verb())?;
    line.push_str(" ")?;
    push_decimal(line, u64::from(command.process()))?;
    push_address(line, command.address())
}

/// Adds an address after a blank, where there is one.
fn push_address(line: &mut String, address: Option<u32>) -> Result<(), AllocError>
    ensures { OnOk result
        (string_bytes line.new ≡ string_bytes line.old ++ after_blank address) }
{
    match address {
        Some(address) => {
            line.push_str(" ")?;
            push_hex(line, address)
        }
        None => Ok(()),
    }
}

/// Adds the line of a command that is carried out at a time.
fn push_command(line: &mut String, time: u64, command: TimedCommand) -> Result<(), AllocError>
    ensures { OnOk result
        (string_bytes line.new ≡ string_bytes line.old ++ command_line time command) }
{
    push_decimal(line, time)?;
    line.push_str(" command ")?;
    push_decimal(line, u64::from(command.number))?;
    line.push_str(" ")?;
    push_words(line, command.command)?;
    line.push_str("\n")
}

/// Adds the lines of commands in their order.
pub(crate) fn push_commands(
    line: &mut String,
    time: u64,
    commands: &[TimedCommand],
) -> Result<(), AllocError>
    ensures { OnOk result
        (string_bytes line.new ≡ string_bytes line.old ++ commands_text time commands.now) }
{
    for command in commands {
        push_command(line, time, *command)?;
    }
    Ok(())
}

/// Adds the line of a character that came in.
fn push_key(line: &mut String, time: u64, console: usize, byte: u8) -> Result<(), AllocError>
    ensures { OnOk result
        (string_bytes line.new ≡ string_bytes line.old ++ key_line time console byte) }
{
    push_decimal(line, time)?;
    line.push_str(" key ")?;
    push_decimal(line, console as u64)?;
    line.push_str(" ")?;
    push_byte(line, byte)?;
    line.push_str("\n")
}

/// Adds the lines of characters on a console line.
fn push_line(line: &mut String, time: u64, console: usize, bytes: &[u8]) -> Result<(), AllocError>
    ensures { OnOk result
        (string_bytes line.new ≡ string_bytes line.old ++ characters_line_text time console bytes.now) }
{
    for byte in bytes {
        push_key(line, time, console, *byte)?;
    }
    Ok(())
}

/// The characters after so many.
fn after(queue: &[u8], queued: usize) -> &[u8]
    ensures { result.now ≡ drop queued queue.now }
{
    match queue.get(queued..) {
        Some(bytes) => bytes,
        None => &[],
    }
}

/// Adds the lines of the characters that came to queues of these lengths, line by line.
pub(crate) fn push_keys<L: Lookaside>(
    line: &mut String,
    station: &Station<L>,
    queued: &[usize; LINES],
) -> Result<(), AllocError>
    ensures { OnOk result (string_bytes line.new ≡ string_bytes line.old
        ++ keys_text station.now.held.kept.state.time 0 queued.now
        station.now.held.kept.state.queues) }
{
    let time = station.time();
    push_line(line, time, 0, after(station.queue(0), queued[0]))?;
    push_line(line, time, 1, after(station.queue(1), queued[1]))?;
    push_line(line, time, 2, after(station.queue(2), queued[2]))?;
    push_line(line, time, 3, after(station.queue(3), queued[3]))
}

/// How many characters came to a queue of this length.
fn came_to(queue: &[u8], queued: usize) -> usize
    ensures { result ≡ length queue.now - queued }
{
    queue.len().saturating_sub(queued)
}

/// How many characters came to each of the queues, which had these lengths.
pub(crate) fn taken_from<L: Lookaside>(
    station: &Station<L>,
    queued: &[usize; LINES],
) -> [usize; LINES]
    ensures { result ≡ taken_by queued.now station.now.held.kept.state.queues }
{
    [
        came_to(station.queue(0), queued[0]),
        came_to(station.queue(1), queued[1]),
        came_to(station.queue(2), queued[2]),
        came_to(station.queue(3), queued[3]),
    ]
}

/// How many of so many are left without the characters that came to queues of these lengths.
fn without_keys<L: Lookaside>(station: &Station<L>, came: usize, queued: &[usize; LINES]) -> usize
    ensures { result ≡ came - count_keys queued.now station.now.held.kept.state.queues }
{
    came.saturating_sub(came_to(station.queue(0), queued[0]))
        .saturating_sub(came_to(station.queue(1), queued[1]))
        .saturating_sub(came_to(station.queue(2), queued[2]))
        .saturating_sub(came_to(station.queue(3), queued[3]))
}

/// Adds how many characters were lost.
fn push_count(line: &mut String, time: u64, lost: usize) -> Result<(), AllocError>
    ensures { OnOk result
        (string_bytes line.new ≡ string_bytes line.old ++ lost_text time lost) }
{
    if lost == 0 {
        return Ok(());
    }
    push_decimal(line, time)?;
    line.push_str(" lost ")?;
    push_decimal(line, lost as u64)?;
    line.push_str("\n")
}

/// How many of the characters that were still to come are lost, by how many were to come before and
/// the lengths of the queues then.
pub(crate) fn lost_on<L: Lookaside>(
    station: &Station<L>,
    characters: usize,
    queued: &[usize; LINES],
) -> usize
    ensures { result ≡ characters - length station.now.held.kept.state.characters
        - count_keys queued.now station.now.held.kept.state.queues }
{
    let came = characters.saturating_sub(station.characters_to_come());
    without_keys(station, came, queued)
}

/// Adds how many of the characters that were still to come are lost, by how many were to come before
/// and the lengths of the queues then.
pub(crate) fn push_lost<L: Lookaside>(
    line: &mut String,
    station: &Station<L>,
    characters: usize,
    queued: &[usize; LINES],
) -> Result<(), AllocError>
    ensures { OnOk result (string_bytes line.new ≡ string_bytes line.old
        ++ lost_text station.now.held.kept.state.time
        (characters - length station.now.held.kept.state.characters
        - count_keys queued.now station.now.held.kept.state.queues)) }
{
    push_count(line, station.time(), lost_on(station, characters, queued))
}
