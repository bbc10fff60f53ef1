//! What stops a run that goes forward.
ghost use Rattle.std.specs.Prelude.{◌≡◌, ◌<◌, ◌≤◌, ◌&&◌, drop, length, true, IfSome, IsSome, None};
ghost use Rattle.ds_station.specs.Reads.{address_held};
ghost use Rattle.ds_pagemap.specs.Machine.{first};
ghost use Rattle.ds_debug.specs.Goals.{wanted_action, break_stop, first_changed, has_changed, stop_after, stop_by, turn_stop, unit_stop, unit_stop_by, watch_stop};

use crate::denials::signal_told;
use crate::look::is_there;
use crate::watches::{Seen, is_new, value_at};
use ds_gdb::{Breakpoint, Reason, Watchpoint, is_break, is_done};
use ds_packets::Action;
use ds_station::Station;
use ds_tlb::Lookaside;

/// A process that has stopped, and why.
#[derive(Clone, Copy, Debug, PartialEq, Eq)]
pub struct Stop {
    pub process: u32,
    pub reason: Reason,
}

/// How far a process is to go, if it is named and there.
fn wanted_action<L: Lookaside>(
    actions: &[Option<Action>],
    station: &Station<L>,
    process: u32,
) -> Option<Action>
    ensures value { result ≡ wanted_action actions.now station.now.held process }
    ensures there { IsSome result → (0 < process)
        × (process ≤ length station.now.held.kept.state.processes) × (process ≤ 100) }
{
    if is_there(station, process) {
        actions.get(process as usize).copied().unwrap_or(None)
    } else {
        None
    }
}

/// Whether a process stops by what it was denied, or where it has gone so far.
fn stop_by(process: u32, signal: Option<u8>, done: bool) -> Option<Stop>
    ensures value { result ≡ stop_by process signal done }
    ensures same { IfSome result (λ stop. stop.process ≡ process) }
{
    let reason = match signal {
        Some(signal) => Reason::Signal(signal),
        None if done => Reason::Rest,
        None => return None,
    };
    Some(Stop { process, reason })
}

/// What came to the log after so many bytes.
pub(crate) fn grown(log: &[u8], logged: usize) -> &[u8]
    ensures { result.now ≡ drop logged log.now }
{
    if logged <= log.len() {
        &log[logged..]
    } else {
        &[]
    }
}

/// What stops the process of a unit, if it is named and there.
fn stop_of<L: Lookaside>(
    station: &Station<L>,
    process: u32,
    action: Action,
    logged: usize,
) -> Option<Stop>
    requires above { 0 < process }
    requires within { process ≤ length station.now.held.kept.state.processes }
    ensures same { IfSome result (λ stop. stop.process ≡ process) }
    ensures value { result ≡ unit_stop_by (Some action) process
        (address_held station.now.held process) (drop logged station.now.held.kept.log) }
{
    let signal = signal_told(grown(station.log(), logged));
    stop_by(process, signal, is_done(action, station.address(process)))
}

/// What stops the process that ran, if one did.
fn unit_stop<L: Lookaside>(
    station: &Station<L>,
    actions: &[Option<Action>],
    breakpoints: &[Breakpoint],
    runner: Option<u32>,
    logged: usize,
) -> Option<Stop>
    ensures small { IfSome result (λ stop. stop.process ≤ 100) }
    ensures value { result ≡ unit_stop
        (record { actions = actions.now; breakpoints = breakpoints.now })
        runner logged station.now.held }
{
    let process = runner?;
    let action = wanted_action(actions, station, process)?;
    stop_of(station, process, action, logged)
}

/// What stops the process that runs next, if one does.
pub(crate) fn break_stop<L: Lookaside>(
    station: &Station<L>,
    actions: &[Option<Action>],
    breakpoints: &[Breakpoint],
) -> Option<Stop>
    ensures small { IfSome result (λ stop. stop.process ≤ 100) }
    ensures value { result ≡ break_stop
        (record { actions = actions.now; breakpoints = breakpoints.now })
        (first station.now.held.kept.state.ready) station.now.held }
{
    let process = station.runner()?;
    if wanted_action(actions, station, process).is_some()
        && is_break(breakpoints, process, station.address(process))
    {
        let reason = Reason::Break;
        Some(Stop { process, reason })
    } else {
        None
    }
}

/// Whether a byte of a process that is named and there is not as it was seen.
fn has_changed<L: Lookaside>(
    station: &Station<L>,
    actions: &[Option<Action>],
    breakpoints: &[Breakpoint],
    seen: Seen,
) -> bool
    ensures small { result ≡ true → seen.watchpoint.process ≤ 100 }
    ensures value { result ≡ has_changed
        (record { actions = actions.now; breakpoints = breakpoints.now })
        station.now.held seen }
{
    wanted_action(actions, station, seen.watchpoint.process).is_some()
        && is_new(seen.value, value_at(station, seen.watchpoint, seen.index))
}

/// The process that watches stops, whoever wrote.
fn watch_stop(watchpoint: Watchpoint) -> Stop
    ensures { result ≡ watch_stop watchpoint }
{
    let process = watchpoint.process;
    let reason = Reason::Watch(watchpoint.address);
    Stop { process, reason }
}

/// What stops by the first byte that has changed since these were seen.
pub(crate) fn first_changed<L: Lookaside>(
    station: &Station<L>,
    actions: &[Option<Action>],
    breakpoints: &[Breakpoint],
    seen: &[Seen],
) -> Option<Stop>
    ensures small { IfSome result (λ stop. stop.process ≤ 100) }
    ensures value { result ≡ first_changed
        (record { actions = actions.now; breakpoints = breakpoints.now })
        station.now.held seen.now }
{
    for byte in seen {
        if has_changed(station, actions, breakpoints, *byte) {
            return Some(watch_stop(byte.watchpoint));
        }
    }
    None
}

/// What stops the process that ran, or else the one that runs next.
fn turn_stop<L: Lookaside>(
    station: &Station<L>,
    actions: &[Option<Action>],
    breakpoints: &[Breakpoint],
    runner: Option<u32>,
    logged: usize,
) -> Option<Stop>
    ensures small { IfSome result (λ stop. stop.process ≤ 100) }
    ensures value { result ≡ turn_stop
        (record { actions = actions.now; breakpoints = breakpoints.now })
        runner logged station.now.held }
{
    match unit_stop(station, actions, breakpoints, runner, logged) {
        Some(stop) => Some(stop),
        None => break_stop(station, actions, breakpoints),
    }
}

/// What stops after a turn in which this process ran, before which the log had so many bytes, and these
/// were seen.
pub(crate) fn stop_after<L: Lookaside>(
    station: &Station<L>,
    actions: &[Option<Action>],
    breakpoints: &[Breakpoint],
    runner: Option<u32>,
    logged: usize,
    seen: &[Seen],
) -> Option<Stop>
    ensures small { IfSome result (λ stop. stop.process ≤ 100) }
    ensures value { result ≡ stop_after
        (record { actions = actions.now; breakpoints = breakpoints.now })
        runner logged seen.now station.now.held }
{
    match first_changed(station, actions, breakpoints, seen) {
        Some(stop) => Some(stop),
        None => turn_stop(station, actions, breakpoints, runner, logged),
    }
}
