//! Where a run ends for gdb: before the exit of the last process, since one that has ended has no memory
//! to look at.
ghost use Rattle.std.specs.Prelude.{◌≡◌, ◌<◌, ◌≤◌, length};
ghost use Rattle.ds_pagemap.specs.Machine as machine;
ghost use Rattle.ds_debug.specs.Exits.{exits_next, is_out, is_syscall, others_ended, stands_at_exit};

use ds_procs::Standing;
use ds_station::Station;
use ds_tlb::Lookaside;

/// Whether a word is `syscall`, if there is one.
fn is_syscall(word: Option<u32>) -> bool
    ensures { result ≡ is_syscall word }
{
    match word {
        Some(word) => word < 0x400_0000 && word % 64 == 12,
        None => false,
    }
}

/// Whether a process stands at a call of exit, which has 0 in register 2.
fn stands_at_exit<L: Lookaside>(station: &Station<L>, process: u32) -> bool
    requires above { 0 < process }
    requires within { process ≤ length station.now.held.kept.state.processes }
    ensures { result ≡ stands_at_exit station.now.held process }
{
    is_syscall(station.word_at(process, station.address(process)))
        && station.general(process)[2] == 0
}

/// Whether a process has ended that stands so.
fn has_ended(standing: Standing) -> bool
    ensures { result ≡ machine.has_ended standing }
{
    match standing {
        Standing::Ended => true,
        Standing::Ready | Standing::Waiting | Standing::Parked => false,
    }
}

/// Whether the process after so many others is this one, or has ended.
fn is_out<L: Lookaside>(station: &Station<L>, process: u32, index: u32) -> bool
    requires { index < length station.now.held.kept.state.processes }
    ensures { result ≡ is_out station.now.held process index }
{
    let _few = station.processes();
    index + 1 == process || has_ended(station.standing(index + 1))
}

/// Whether all processes but this one have ended.
fn others_ended<L: Lookaside>(station: &Station<L>, process: u32) -> bool
    ensures { result ≡ others_ended station.now.held process }
{
    for index in 0..station.processes() {
        if !is_out(station, process, index) {
            return false;
        }
    }
    true
}

/// Whether the next unit would be the exit of the last process.
pub(crate) fn exits_next<L: Lookaside>(station: &Station<L>) -> bool
    ensures { result ≡ exits_next station.now.held }
{
    match station.runner() {
        Some(process) => stands_at_exit(station, process) && others_ended(station, process),
        None => false,
    }
}
