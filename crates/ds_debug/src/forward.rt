//! A run that goes forward, turn by turn, to where something stops.
ghost use Rattle.std.specs.Prelude.{◌≡◌, ◌≤◌, IfErr, IfOk, IfSome, None, OnOk, false};
ghost use Rattle.ds_refinement.specs.Real.{RealPath};
ghost use Rattle.ds_refinement.specs.Inner.Runs.{RunsWithin};
ghost use Rattle.ds_station.specs.Inner.Faults.{IsNewFault};
ghost use Rattle.ds_debug.specs.Forward.{GoesForward};
ghost use Rattle.ds_debug.specs.Inner.Forward.{IsShort};
ghost use Rattle.ds_debug.specs.Inner.Inputs.{IsReached};
ghost use Rattle.ds_debug.specs.Goals.{goal_with};

use crate::exits::exits_next;
use crate::goals::{Stop, stop_after};
use crate::leaps::{SHORT, leap};
use crate::past::Past;
use crate::watches::all_seen;
use ds_gdb::{Breakpoint, Watchpoint};
use ds_packets::Action;
use ds_station::{Fault, Station};
use ds_tlb::Indexed;
use std::alloc::Global;

/// Goes on with a run for `n`, from between two turns to the first turn after which something stops,
/// by how far each process is to go, by the breakpoints and by what is watched; or to the end of the
/// run, where nothing does: the exit of the last process is not done. It is cut short only where there
/// is no room for a turn, or for what is watched. Stations on the way are kept in the past.
pub(crate) fn go<'a>(
    alloc: Global,
    past: &mut Past<'a>,
    station: &mut Station<Indexed<64, 8>>,
    n: u64,
    actions: &[Option<Action>],
    breakpoints: &[Breakpoint],
    watchpoints: &[Watchpoint],
) -> Result<Option<Stop>, Fault>
    requires limit { n ≤ past.old.limit }
    requires reached { IsReached past.old.inputs past.old.limit station.old.held }
    requires whole { station.old.held.kept.state.owed ≡ None }
    requires spent { station.old.held.own.spent ≡ 0 }
    requires working { station.old.held.own.failed ≡ false }
    ensures past { past.new ≡ past.old }
    ensures goes { IfOk result (λ stop. GoesForward
        (goal_with actions.now breakpoints.now watchpoints.now)
        n stop station.old.held station.new.held) }
    ensures small { IfOk result (λ stop. IfSome stop (λ s. s.process ≤ 100)) }
    ensures within { RunsWithin n station.old.held station.new.held }
    ensures real { OnOk result (RealPath station.old.held station.new.held) }
    ensures faults { IfErr result IsNewFault }
    ensures cut { IfErr result (λ f. IsShort f station.old.held station.new.held) }
    ensures whole { station.new.held.kept.state.owed ≡ None }
    ensures spent { OnOk result (station.new.held.own.spent ≡ 0) }
    ensures working { OnOk result (station.new.held.own.failed ≡ false) }
{
    let _limit = past.limit();
    let mut leap_at = station.time();
    while station.time() < n {
        if leap_at <= station.time() {
            leap_at = station.time().saturating_add(SHORT);
            leap(past, station, n, actions, breakpoints, watchpoints);
            continue;
        }
        if exits_next(station) {
            return Ok(None);
        }
        past.keep(station);
        let began = station.time();
        let runner = station.runner();
        let logged = station.log().len();
        let seen = all_seen(alloc, station, watchpoints)?;
        match station.run(began + 1) {
            Ok(()) => {}
            Err(fault) => return Err(fault),
        }
        if station.time() <= began {
            return Ok(None);
        }
        match stop_after(
            station,
            actions,
            breakpoints,
            runner,
            logged,
            seen.as_slice(),
        ) {
            Some(stop) => return Ok(Some(stop)),
            None => {}
        }
    }
    Ok(None)
}
