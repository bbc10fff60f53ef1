//! A run that is looked through for the last place of what is sought.
ghost use Rattle.std.specs.Prelude.{◌≡◌, ◌<◌, ◌≤◌, IfErr, IfOk, IfSome, None, false};
ghost use Rattle.ds_station.specs.Inner.Faults.{IsNewFault};
ghost use Rattle.ds_debug.specs.Backward.{back_process, back_reason, back_time, turnless_reason};
ghost use Rattle.ds_debug.specs.Goals.{goal_with};
ghost use Rattle.ds_debug.specs.Inner.Past.{FindsFrom};
ghost use Rattle.ds_debug.specs.Places.{Finds};

use crate::places::{Place, Sought, began_at, or_else, place_after};
use crate::watches::all_seen;
use ds_gdb::{Breakpoint, Reason, Watchpoint};
use ds_packets::Action;
use ds_station::{Fault, Station};
use ds_tlb::Lookaside;
use std::alloc::Global;

/// Runs to a time, turn by turn, and answers the last place that is found on the way. It is cut short
/// only where there is no room for a turn, or for what is watched.
pub(crate) fn find_last<L: Lookaside>(
    alloc: Global,
    station: &mut Station<L>,
    until: u64,
    sought: Sought,
    actions: &[Option<Action>],
    breakpoints: &[Breakpoint],
    watchpoints: &[Watchpoint],
) -> Result<Option<Place>, Fault>
    requires limit { until ≤ 1000000000 }
    requires whole { station.old.held.kept.state.owed ≡ None }
    requires spent { station.old.held.own.spent ≡ 0 }
    requires working { station.old.held.own.failed ≡ false }
    ensures finds { IfOk result (λ place. Finds sought
        (goal_with actions.now breakpoints.now watchpoints.now)
        until place station.old.held station.new.held) }
    ensures small { IfOk result (λ place. IfSome place (λ p. p.stop.process ≤ 100)) }
    ensures early { IfOk result (λ place. IfSome place (λ p. p.time ≤ until)) }
    ensures faults { IfErr result IsNewFault }
{
    let mut place = None;
    while station.time() < until {
        let began = began_at(station);
        let seen = all_seen(alloc, station, watchpoints)?;
        match station.run(began.time + 1) {
            Ok(()) => {}
            Err(fault) => return Err(fault),
        }
        if station.time() <= began.time {
            return Ok(place);
        }
        let found = place_after(
            station,
            sought,
            until,
            began,
            actions,
            breakpoints,
            seen.as_slice(),
        );
        place = or_else(found, place);
    }
    Ok(place)
}

/// The last place that is found on the way from a station to a time, as by `find_last`; the station
/// stays where it is.
pub(crate) fn find_from<L: Lookaside>(
    alloc: Global,
    station: &Station<L>,
    until: u64,
    sought: Sought,
    actions: &[Option<Action>],
    breakpoints: &[Breakpoint],
    watchpoints: &[Watchpoint],
) -> Result<Option<Place>, Fault>
    requires limit { until ≤ 1000000000 }
    requires whole { station.now.held.kept.state.owed ≡ None }
    requires spent { station.now.held.own.spent ≡ 0 }
    requires working { station.now.held.own.failed ≡ false }
    ensures finds { IfOk result (λ place. FindsFrom sought
        (goal_with actions.now breakpoints.now watchpoints.now) until place station.now.held) }
    ensures small { IfOk result (λ place. IfSome place (λ p. p.stop.process ≤ 100)) }
    ensures early { IfOk result (λ place. IfSome place (λ p. p.time ≤ until)) }
    ensures faults { IfErr result IsNewFault }
{
    let mut copy = match station.try_clone() {
        Ok(copy) => copy,
        Err(fault) => return Err(fault),
    };
    find_last(
        alloc,
        &mut copy,
        until,
        sought,
        actions,
        breakpoints,
        watchpoints,
    )
}

/// To which time a session goes back. Without a place it is the beginning where the last stop was
/// sought; a process without a turn stays.
pub(crate) fn back_time(sought: Sought, place: Option<Place>) -> Option<u64>
    ensures { result ≡ back_time sought place }
{
    match place {
        Some(place) => Some(place.time),
        None => match sought {
            Sought::LastStop => Some(0),
            Sought::LastTurn(_) => None,
        },
    }
}

/// Of which process it is told.
pub(crate) fn back_process(process: u32, place: Option<Place>) -> u32
    requires process { process < 256 }
    requires place { IfSome place (λ p. p.stop.process < 256) }
    ensures value { result ≡ back_process process place }
    ensures small { result < 256 }
{
    match place {
        Some(place) => place.stop.process,
        None => process,
    }
}

/// Why a process without a turn stands.
fn turnless_reason(time: u64) -> Reason
    ensures { result ≡ turnless_reason time }
{
    if time == 0 {
        Reason::Begin
    } else {
        Reason::Signal(2)
    }
}

/// Why it stands, where the session was at this time.
pub(crate) fn back_reason(sought: Sought, time: u64, place: Option<Place>) -> Reason
    ensures { result ≡ back_reason sought time place }
{
    match place {
        Some(place) => place.stop.reason,
        None => match sought {
            Sought::LastStop => Reason::Begin,
            Sought::LastTurn(_) => turnless_reason(time),
        },
    }
}
