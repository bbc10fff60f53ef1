//! Words of memory at the end of a run, as a process's entries let it read them.
ghost use Rattle.std.specs.Prelude.{◌≡◌, ◌<◌, ◌≤◌, ◌+◌, ◌*◌, ◌^◌, ◌++◌, IfErr, OnErr, OnOk, codes, length};
ghost use Rattle.std.specs.Io.KnownBytes.{Appends};
ghost use Rattle.std.specs.String.{string_bytes};
ghost use Rattle.ds_text.specs.Sent.{AppendsPart, IsAskedOnce};
ghost use Rattle.ds_pagemap.specs.Machine.{State};
ghost use Rattle.ds_refinement.specs.Stands.{Stands};
ghost use Rattle.ds_station.specs.Faults.{is_unwritten};
ghost use Rattle.ds_station.specs.Reads.{memory_held};
ghost use Rattle.ds_trace.specs.Inner.Handed.{IsLate};
ghost use Rattle.ds_trace.specs.Memory.{back_text, line_front_text, memory_text, piece_text, pieces_text, read_word_text};

use ds_station::{Fault, Station};
use ds_text::string::{push_decimal, push_hex};
use ds_text::{Output, send};
use ds_tlb::Lookaside;
use std::alloc::{AllocError, Global};

/// Begins a line before each eighth word: the process, and the word's address.
fn push_front(text: &mut String, process: u32, address: u32, index: u32) -> Result<(), AllocError>
    ensures { OnOk result (string_bytes text.new
        ≡ string_bytes text.old ++ line_front_text process address index) }
{
    if index % 8 != 0 {
        return Ok(());
    }
    text.push_str("memory ")?;
    push_decimal(text, u64::from(process))?;
    text.push_str(" ")?;
    push_hex(text, address)?;
    text.push_str(":")
}

/// Adds a word, or a sign for one that may not be read.
fn push_word(text: &mut String, word: Option<u32>) -> Result<(), AllocError>
    ensures { OnOk result (string_bytes text.new ≡ string_bytes text.old ++ read_word_text word) }
{
    match word {
        Some(word) => {
            text.push_str(" ")?;
            push_hex(text, word)
        }
        None => text.push_str(" -"),
    }
}

/// Ends a line after the last word of eight, and after the last of all.
fn push_back(text: &mut String, count: u32, index: u32) -> Result<(), AllocError>
    requires { index < count }
    ensures { OnOk result
        (string_bytes text.new ≡ string_bytes text.old ++ back_text count index) }
{
    if index % 8 == 7 || index + 1 == count {
        text.push_str("\n")
    } else {
        Ok(())
    }
}

/// Adds a word by its number among so many, in its line.
fn push_piece<L: Lookaside>(
    text: &mut String,
    station: &Station<L>,
    process: u32,
    address: u32,
    count: u32,
    index: u32,
) -> Result<(), AllocError>
    requires above { 0 < process }
    requires within { process ≤ length station.now.held.kept.state.processes }
    requires no_wrap { address + 4 * count ≤ 2 ^ 32 }
    requires among { index < count }
    ensures { OnOk result (string_bytes text.new ≡ string_bytes text.old
        ++ piece_text (memory_held station.now.held) process address count index) }
{
    let place = address + 4 * index;
    push_front(text, process, place, index)?;
    push_word(text, station.word_read(process, place))?;
    push_back(text, count, index)
}

/// Adds so many words of a process from an address on, eight in a line.
fn push_memory<L: Lookaside>(
    text: &mut String,
    station: &Station<L>,
    process: u32,
    address: u32,
    count: u32,
) -> Result<(), AllocError>
    requires above { 0 < process }
    requires within { process ≤ length station.now.held.kept.state.processes }
    requires no_wrap { address + 4 * count ≤ 2 ^ 32 }
    ensures { OnOk result (string_bytes text.new ≡ string_bytes text.old
        ++ memory_text (memory_held station.now.held) process address count) }
{
    for index in 0..count {
        push_piece(text, station, process, address, count, index)?;
    }
    Ok(())
}

/// Writes so many words of a process from an address on, as its entries let it read them: lines of
/// eight words in hexadecimal digits after the process and the address of the first, and `-` for a
/// word that it may not read. An address that is not a multiple of four has no word that may be read.
/// Where memory runs out nothing is written, and it is `Memory`.
#[tactic(auto, using(crate::proofs::Asking::asked_none))]
pub fn send_memory<L: Lookaside, O: Output>(
    alloc: Global,
    station: &Station<L>,
    process: u32,
    address: u32,
    count: u32,
    out: &mut O,
) -> Result<(), Fault>
    requires above { 0 < process }
    requires within { process ≤ length station.now.held.kept.state.processes }
    requires no_wrap { address + 4 * count ≤ 2 ^ 32 }
    ensures ok { OnOk result (Appends (O.contents out.old) (O.contents out.new)
        (memory_text (memory_held station.now.held) process address count)) }
    ensures stands { (m : State) → Stands station.now.held m
        → OnOk result (Appends (O.contents out.old) (O.contents out.new)
        (memory_text m.memory process address count)) }
    ensures err { OnErr result (AppendsPart (O.contents out.old) (O.contents out.new)
        (memory_text (memory_held station.now.held) process address count)) }
    ensures late { IfErr result IsLate }
    ensures once { IsAskedOnce (O.answers out.old) (O.answers out.new) (is_unwritten result) }
{
    let mut text = String::new(alloc);
    push_memory(&mut text, station, process, address, count)?;
    match send(out, text.as_bytes()) {
        Ok(()) => Ok(()),
        Err(_) => Err(Fault::WriteFault),
    }
}
