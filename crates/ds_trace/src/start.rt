//! The unit that is next.
ghost use Rattle.std.specs.Prelude.{◌≡◌, ◌<◌, ◌≤◌, length};
ghost use Rattle.ds_policy.specs.Pages.{found, page_address};
ghost use Rattle.ds_pagemap.specs.Machine.{first};
ghost use Rattle.ds_procs.specs.Calls.{call_of};
ghost use Rattle.ds_station.specs.Reads.{address_held, general_held, memory_held};
ghost use Rattle.ds_trace.specs.Inner.Shows.{start_held};
ghost use Rattle.ds_trace.specs.Starts.{call_at, is_call, page_named_at, slot_of, start_at};

use crate::entries::grant_at;
use crate::loads::{loaded_at, slot_loaded_at};
use crate::stores::held_in;
use ds_isa::{Instr, decode, is_branch};
use ds_procs::{Call, Process};
use ds_station::Station;
use ds_tlb::Lookaside;
use ds_word::wrapping_sum;

/// What is told of a unit before it is done.
#[derive(Clone, Copy)]
pub(crate) struct Start {
    pub time: u64,
    pub process: u32,
    pub address: u32,
    /// The word of its instruction, where the process may fetch it.
    pub word: Option<u32>,
    /// The word in the slot of its branch, where the process may fetch that.
    pub slot: Option<u32>,
    /// The call that it is, with its arguments.
    pub call: Option<Call>,
    /// What register 2 holds, which is the number of a call.
    pub number: u32,
    /// The page that the process's entry at its address names.
    pub page: Option<u32>,
    /// The page that the process's entry at its slot names.
    pub slot_page: Option<u32>,
    /// The address of the word from which its instruction loads.
    pub loaded: Option<u32>,
    /// The address of the word from which the instruction in the slot loads.
    pub slot_loaded: Option<u32>,
}

/// The word in the slot of the instruction at an address, where that is a branch.
fn slot_of<L: Lookaside>(
    station: &Station<L>,
    process: u32,
    address: u32,
    word: Option<u32>,
) -> Option<u32>
    requires above { 0 < process }
    requires within { process ≤ length station.now.held.kept.state.processes }
    ensures { result ≡ slot_of (memory_held station.now.held) process address word }
{
    match word {
        Some(word) => {
            if is_branch(&decode(word)) {
                station.word_at(process, wrapping_sum(address, 4))
            } else {
                None
            }
        }
        None => None,
    }
}

/// Whether an instruction is a call.
pub(crate) fn is_call(instr: &Instr) -> bool
    ensures { result ≡ is_call instr.now }
{
    matches!(instr, Instr::Syscall { .. })
}

/// The call that registers ask for.
fn call_of(general: &[u32; 32]) -> Call
    ensures { result ≡ call_of general.now }
{
    let mut process = Process::new(0);
    process.registers = *general;
    Call::of(&process)
}

/// The call that registers ask for, where the word is one.
fn call_at(general: &[u32; 32], word: Option<u32>) -> Option<Call>
    ensures { result ≡ call_at general.now word }
{
    match word {
        Some(word) => {
            if is_call(&decode(word)) {
                Some(call_of(general))
            } else {
                None
            }
        }
        None => None,
    }
}

/// The page that the entry of a process at an address names, if it names one.
fn page_named_at<L: Lookaside>(station: &Station<L>, process: u32, address: u32) -> Option<u32>
    requires { 0 < process }
    ensures { result ≡ page_named_at (memory_held station.now.held) process address }
{
    let grant = grant_at(station.entries(process), address - address % 4096)?;
    grant.page
}

impl Start {
    /// The unit of a process.
    fn of<L: Lookaside>(station: &Station<L>, process: u32) -> Start
        requires above { 0 < process }
        requires within { process ≤ length station.now.held.kept.state.processes }
        ensures { result ≡ start_at (memory_held station.now.held)
            (general_held station.now.held process)
            station.now.held.kept.state.time process (address_held station.now.held process) }
    {
        let address = station.address(process);
        let word = station.word_at(process, address);
        let slot = slot_of(station, process, address, word);
        let general = station.general(process);
        Start {
            time: station.time(),
            process,
            address,
            word,
            slot,
            call: call_at(&general, word),
            number: held_in(&general, 2),
            page: page_named_at(station, process, address),
            slot_page: page_named_at(station, process, wrapping_sum(address, 4)),
            loaded: loaded_at(&general, word),
            slot_loaded: slot_loaded_at(&general, word, slot),
        }
    }

    /// The unit of the process that runs, if one does.
    pub(crate) fn next<L: Lookaside>(station: &Station<L>) -> Option<Start>
        ensures { result ≡ start_held station.now.held (first station.now.held.kept.state.ready) }
    {
        match station.runner() {
            Some(process) => Some(Start::of(station, process)),
            None => None,
        }
    }
}
