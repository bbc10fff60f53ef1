//! Places of a run, of which the last one is sought on the way back.
ghost use Rattle.std.specs.Prelude.{◌≡◌, ◌<◌, ◌≤◌, IfSome};
ghost use Rattle.ds_debug.specs.Places.{began_at, or_else, place_after, sought_by, stop_place, stop_until, turn_place};

use crate::goals::{Stop, first_changed, stop_after};
use crate::times::earlier;
use crate::watches::Seen;
use ds_gdb::{Breakpoint, Reason};
use ds_packets::Action;
use ds_station::Station;
use ds_tlb::Lookaside;

/// What is sought on the way back.
#[derive(Clone, Copy, Debug, PartialEq, Eq)]
pub enum Sought {
    /// The last turn of a process.
    LastTurn(u32),
    /// The last place at which something stops.
    LastStop,
}

/// A place of a run: its time in ticks, and what stops there.
#[derive(Clone, Copy, Debug, PartialEq, Eq)]
pub struct Place {
    pub time: u64,
    pub stop: Stop,
}

/// How a turn begins.
#[derive(Clone, Copy, Debug, PartialEq, Eq)]
pub struct Began {
    /// When, in ticks.
    pub time: u64,
    /// The process that has the turn, if one is ready.
    pub runner: Option<u32>,
    /// How many bytes the log has.
    pub logged: usize,
}

/// What is sought for an action that goes back.
pub(crate) fn sought_by(action: Action, process: u32) -> Sought
    ensures { result ≡ sought_by action process }
{
    match action {
        Action::Step => Sought::LastTurn(process),
        Action::Continue | Action::Range { .. } => Sought::LastStop,
    }
}

/// How the next turn of a station begins.
pub(crate) fn began_at<L: Lookaside>(station: &Station<L>) -> Began
    ensures value { result ≡ began_at station.now.held }
    ensures small { IfSome result.runner (λ p. p ≤ 100) }
{
    let _few = station.processes();
    Began {
        time: station.time(),
        runner: station.runner(),
        logged: station.log().len(),
    }
}

/// Where a turn of this process began, if it is the one that has the turn.
fn turn_place(process: u32, runner: Option<u32>, time: u64) -> Option<Place>
    requires { IfSome runner (λ p. p ≤ 100) }
    ensures value { result ≡ turn_place process runner time }
    ensures small { IfSome result (λ place. place.stop.process ≤ 100) }
    ensures same { IfSome result (λ place. place.time ≡ time) }
{
    match runner {
        Some(runner) if runner == process => {
            let reason = Reason::Rest;
            let stop = Stop { process, reason };
            Some(Place { time, stop })
        }
        _ => None,
    }
}

/// Where something stops, if something does.
fn stop_place(time: u64, stop: Option<Stop>) -> Option<Place>
    requires { IfSome stop (λ stop. stop.process ≤ 100) }
    ensures value { result ≡ stop_place time stop }
    ensures small { IfSome result (λ place. place.stop.process ≤ 100) }
    ensures same { IfSome result (λ place. place.time ≡ time) }
{
    match stop {
        Some(stop) => Some(Place { time, stop }),
        None => None,
    }
}

/// What stops where a turn that began so, and before which these were seen, has come to: before a time
/// all that stops, and then only what is watched.
fn stop_until<L: Lookaside>(
    station: &Station<L>,
    until: u64,
    began: Began,
    actions: &[Option<Action>],
    breakpoints: &[Breakpoint],
    seen: &[Seen],
) -> Option<Stop>
    ensures value { result ≡ stop_until
        (record { actions = actions.now; breakpoints = breakpoints.now })
        until began seen.now station.now.held }
    ensures small { IfSome result (λ stop. stop.process ≤ 100) }
{
    if station.time() < until {
        stop_after(
            station,
            actions,
            breakpoints,
            began.runner,
            began.logged,
            seen,
        )
    } else {
        first_changed(station, actions, breakpoints, seen)
    }
}

/// What is found of such a turn, in a run to a time: where it began, or where it came to.
pub(crate) fn place_after<L: Lookaside>(
    station: &Station<L>,
    sought: Sought,
    until: u64,
    began: Began,
    actions: &[Option<Action>],
    breakpoints: &[Breakpoint],
    seen: &[Seen],
) -> Option<Place>
    requires small { IfSome began.runner (λ p. p ≤ 100) }
    requires early { began.time < until }
    ensures value { result ≡ place_after sought
        (record { actions = actions.now; breakpoints = breakpoints.now })
        until began seen.now station.now.held }
    ensures small { IfSome result (λ place. place.stop.process ≤ 100) }
    ensures early { IfSome result (λ place. place.time ≤ until) }
{
    match sought {
        Sought::LastTurn(process) => turn_place(process, began.runner, began.time),
        Sought::LastStop => {
            let time = earlier(station.time(), until);
            let stop = stop_until(station, until, began, actions, breakpoints, seen);
            stop_place(time, stop)
        }
    }
}

/// The first, or else the second.
pub(crate) fn or_else(first: Option<Place>, second: Option<Place>) -> Option<Place>
    ensures { result ≡ or_else first second }
{
    match first {
        Some(place) => Some(place),
        None => second,
    }
}
