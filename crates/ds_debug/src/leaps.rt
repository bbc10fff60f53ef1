//! A run that goes forward by blocks, where nothing but a denial and breakpoints can stop it.
ghost use Rattle.std.specs.Prelude.{◌≡◌, ◌≤◌, ℕ, [], IfSome, None, false, true};
ghost use Rattle.ds_ahead.specs.Inner.Stops.{may_hold};
ghost use Rattle.ds_refinement.specs.Real.{RealPath};
ghost use Rattle.ds_refinement.specs.Inner.Runs.{RunsWithin};
ghost use Rattle.ds_gdb.specs.Points.{is_break};
ghost use Rattle.ds_debug.specs.Forward.{HasPassed};
ghost use Rattle.ds_debug.specs.Goals.{goal_with};
ghost use Rattle.ds_debug.specs.Inner.Inputs.{IsReached};
ghost use Rattle.ds_debug.specs.Inner.Leaps.{HasLeapt, IsFree, IsFurther, IsUnbroken, Leaps, is_calm};

use crate::goals::break_stop;
use crate::past::Past;
use crate::times::earlier;
use ds_ahead::Stops;
use ds_gdb::{Breakpoint, Watchpoint};
use ds_packets::Action;
use ds_station::Station;
use ds_tlb::{Indexed, Lookaside};

/// How many ticks the first of some leaps takes, and how many go by turns before leaps are tried again.
pub(crate) const SHORT: u64 = 1 << 15;

/// How many ticks a leap takes at most.
const LONG: u64 = 1 << 22;

/// A leap that ends early takes as many ticks at least: else turns are as quick.
const FEW: u64 = 1 << 13;

/// Whether a process goes on up to a stop, or stays as it is.
fn is_calm(action: Option<Action>) -> bool
    ensures { result ≡ is_calm action }
{
    match action {
        None | Some(Action::Continue) => true,
        Some(Action::Step) | Some(Action::Range { .. }) => false,
    }
}

/// Whether no process takes steps, and there is no watch.
fn is_free(
    actions: &[Option<Action>],
    breakpoints: &[Breakpoint],
    watchpoints: &[Watchpoint],
) -> bool
    ensures { result ≡ true → IsFree (goal_with actions.now breakpoints.now watchpoints.now) }
{
    watchpoints.is_empty() && actions.iter().all(|action| is_calm(*action))
}

/// Whether there is no breakpoint.
fn are_none(breakpoints: &[Breakpoint]) -> bool
    ensures { result ≡ true → breakpoints.now ≡ [] }
{
    breakpoints.is_empty()
}

/// The addresses of the breakpoints, and maybe others.
fn stops_at(breakpoints: &[Breakpoint]) -> Stops
    ensures { (p pc : ℕ) → is_break breakpoints.now p pc ≡ true → may_hold result pc ≡ true }
{
    let mut stops = Stops::new();
    for breakpoint in breakpoints {
        stops.add(breakpoint.address);
    }
    stops
}

/// Whether a station came further up to a time, with nothing new in the log, and somebody has not ended.
fn is_further<L: Lookaside>(old: &Station<L>, new: &Station<L>, n: u64) -> bool
    ensures { result ≡ true → IsFurther n old.now.held new.now.held }
{
    if new.time() <= old.time() || n < new.time() {
        return false;
    }
    if old.log().len() < new.log().len() {
        return false;
    }
    new.first_unended().is_some()
}

/// Runs until a time, or at most to where whoever runs next is at an address that may be one of a
/// breakpoint. Whether it could.
fn run_to<L: Lookaside>(
    station: &mut Station<L>,
    n: u64,
    actions: &[Option<Action>],
    breakpoints: &[Breakpoint],
) -> bool
    requires limit { n ≤ 1000000000 }
    requires spent { station.old.held.own.spent ≡ 0 }
    ensures { result ≡ true
        → HasLeapt (record { actions = actions.now; breakpoints = breakpoints.now }) n
        station.old.held station.new.held }
{
    if are_none(breakpoints) {
        return match station.run(n) {
            Ok(()) => true,
            Err(_) => false,
        };
    }
    let stops = stops_at(breakpoints);
    match station.run_until(n, &stops) {
        Ok(()) => true,
        Err(_) => false,
    }
}

/// The station where a run to a time comes to, if nothing came to the log, and somebody has not ended
/// then.
fn run_ahead<L: Lookaside>(
    station: &Station<L>,
    n: u64,
    until: u64,
    actions: &[Option<Action>],
    breakpoints: &[Breakpoint],
) -> Option<Station<L>>
    requires limit { n ≤ 1000000000 }
    requires until { until ≤ n }
    requires spent { station.now.held.own.spent ≡ 0 }
    ensures further { IfSome result (λ s. IsFurther n station.now.held s.held) }
    ensures leapt { IfSome result (λ s.
        HasLeapt (record { actions = actions.now; breakpoints = breakpoints.now }) n
        station.now.held s.held) }
{
    if until <= station.time() {
        return None;
    }
    let mut ahead = match station.try_clone() {
        Ok(ahead) => ahead,
        Err(_) => return None,
    };
    if run_to(&mut ahead, until, actions, breakpoints) && is_further(station, &ahead, n) {
        Some(ahead)
    } else {
        None
    }
}

/// Whether whoever runs next is at a breakpoint.
fn is_broken<L: Lookaside>(
    station: &Station<L>,
    actions: &[Option<Action>],
    breakpoints: &[Breakpoint],
) -> bool
    ensures { result ≡ false
        → IsUnbroken (record { actions = actions.now; breakpoints = breakpoints.now })
        station.now.held }
{
    break_stop(station, actions, breakpoints).is_some()
}

/// The station so many ticks later, or shortly before `n`, or before a breakpoint that comes first, if
/// nothing came to the log, and somebody has not ended then. None where that is not far.
fn leaped<L: Lookaside>(
    station: &Station<L>,
    n: u64,
    ticks: u64,
    actions: &[Option<Action>],
    breakpoints: &[Breakpoint],
) -> Option<Station<L>>
    requires limit { n ≤ 1000000000 }
    requires spent { station.now.held.own.spent ≡ 0 }
    ensures { IfSome result (λ s.
        Leaps (record { actions = actions.now; breakpoints = breakpoints.now }) n
        station.now.held s.held) }
{
    let until = earlier(station.time().saturating_add(ticks), n.saturating_sub(2));
    let ahead = match run_ahead(station, n, until, actions, breakpoints) {
        Some(ahead) => ahead,
        None => return None,
    };
    let time = ahead.time();
    if time < until && time < station.time().saturating_add(FEW) {
        return None;
    }
    if !is_broken(&ahead, actions, breakpoints) {
        return Some(ahead);
    }
    let until = earlier(time.saturating_sub(2), n);
    let before = match run_ahead(station, n, until, actions, breakpoints) {
        Some(before) => before,
        None => return None,
    };
    if is_broken(&before, actions, breakpoints) {
        None
    } else {
        Some(before)
    }
}

/// Goes on with a run for `n` by leaps, each twice as long as the one before it, where nothing but a
/// denial and breakpoints can stop it, as long as nothing comes to the log and no breakpoint is near.
/// Stations on the way are kept in the past.
pub(crate) fn leap<'a>(
    past: &mut Past<'a>,
    station: &mut Station<Indexed<64, 8>>,
    n: u64,
    actions: &[Option<Action>],
    breakpoints: &[Breakpoint],
    watchpoints: &[Watchpoint],
)
    requires limit { n ≤ past.old.limit }
    requires reached { IsReached past.old.inputs past.old.limit station.old.held }
    requires whole { station.old.held.kept.state.owed ≡ None }
    requires spent { station.old.held.own.spent ≡ 0 }
    requires working { station.old.held.own.failed ≡ false }
    ensures past { past.new ≡ past.old }
    ensures later { station.old.held.kept.state.time ≤ station.new.held.kept.state.time }
    ensures passed { HasPassed (goal_with actions.now breakpoints.now watchpoints.now) n
        station.old.held station.new.held }
    ensures within { RunsWithin n station.old.held station.new.held }
    ensures path { RealPath station.old.held station.new.held }
    ensures whole { station.new.held.kept.state.owed ≡ None }
    ensures spent { station.new.held.own.spent ≡ 0 }
    ensures working { station.new.held.own.failed ≡ false }
{
    let _limit = past.limit();
    if !is_free(actions, breakpoints, watchpoints) {
        return;
    }
    let mut ticks = SHORT;
    while let Some(ahead) = leaped(station, n, ticks, actions, breakpoints) {
        *station = ahead;
        past.keep(station);
        ticks = earlier(ticks.saturating_add(ticks), LONG);
    }
}
