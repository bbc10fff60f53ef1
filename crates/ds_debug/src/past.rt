//! The past of a session: stations of its run at earlier times.
ghost use Rattle.std.specs.Prelude.{◌≡◌, ◌<◌, ◌≤◌, IfErr, IfOk, IfSome, None, OnOk, false, length, true};
ghost use Rattle.std.specs.List.{All};
ghost use Rattle.ds_station.specs.Inner.Faults.{IsNewFault};
ghost use Rattle.ds_station.specs.Headline.{Refuses};
ghost use Rattle.ds_debug.specs.Backward.{FindsIn};
ghost use Rattle.ds_debug.specs.Goals.{goal_with};
ghost use Rattle.ds_debug.specs.Inputs.{IsAt, IsBeginning, first_state_of};
ghost use Rattle.ds_debug.specs.Inner.Inputs.{IsReached, inputs_seen};
ghost use Rattle.ds_debug.specs.Inner.Past.{IsKept};

use crate::backward::find_from;
use crate::inputs::{Inputs, station_at_start};
use crate::places::{Place, Sought};
use ds_gdb::{Breakpoint, Watchpoint};
use ds_packets::Action;
use ds_station::{Fault, Station};
use ds_tlb::Indexed;
use std::alloc::Global;
use std::marker::Model;

/// How many ticks before the time that is looked back from a station is kept, at most.
const NEAR: u64 = 1 << 10;

/// How many ticks lie between the stations that are kept while a run goes forward, at least.
const APART: u64 = 1 << 20;

/// How many stations are kept on the way to one time, at most.
const MOST: usize = 16;

/// A run that is looked back at: its beginning, and stations of it at later times, the earliest first.
#[derive(Drop)]
pub(crate) struct Past<'a> {
    inputs: Inputs<'a>,
    /// The run goes up to this time, in ticks.
    limit: u64,
    first: Station<Indexed<64, 8>>,
    kept: Vec<Station<Indexed<64, 8>>>,
}

impl<'a> Model for Past<'a> {
    ghost use Rattle.ds_debug.specs.Inner.Inputs.{inputs_seen};
    ghost use Rattle.ds_debug.specs.Inner.Past.{IsPast, PastState};

    ghost Value = { PastState };

    ghost view = { λ p. record { inputs = inputs_seen p.inputs; limit = p.limit } };

    ghost invariant = { λ p. IsPast (inputs_seen p.inputs) p.limit p.first.held p.kept.items };
}

impl<'a> Past<'a> {
    /// The past of a run of these inputs for `limit` ticks, at its beginning. They are refused as by
    /// `prepare`.
    pub(crate) fn new(alloc: Global, inputs: Inputs<'a>, limit: u64) -> Result<Past<'a>, Fault>
        ensures value { IfOk result
            (λ p. p ≡ record { inputs = inputs_seen inputs.entry; limit = limit }) }
        ensures limit { OnOk result (limit ≤ 1000000000) }
        ensures err { IfErr result (λ f. Refuses f (first_state_of (inputs_seen inputs.entry) limit)) }
    {
        let first = match station_at_start(alloc, inputs, limit) {
            Ok(first) => first,
            Err(refused) => return Err(refused),
        };
        Ok(Past {
            inputs,
            limit,
            first,
            kept: Vec::new(alloc),
        })
    }

    /// Up to which time the run goes, in ticks.
    pub(crate) fn limit(&self) -> u64
        ensures value { result ≡ self.now.limit }
        ensures small { result ≤ 1000000000 }
    {
        self.limit
    }

    /// A station at the beginning of the run.
    pub(crate) fn beginning(&self) -> Result<Station<Indexed<64, 8>>, Fault>
        ensures begins { IfOk result (λ s. IsBeginning self.now.inputs self.now.limit s.held) }
        ensures whole { IfOk result (λ s. s.held.kept.state.owed ≡ None) }
        ensures spent { IfOk result (λ s. s.held.own.spent ≡ 0) }
        ensures working { IfOk result (λ s. s.held.own.failed ≡ false) }
        ensures faults { IfErr result IsNewFault }
    {
        self.first.try_clone()
    }

    /// The station of the latest time that is kept up to this one.
    fn latest(&self, time: u64) -> &Station<Indexed<64, 8>>
        ensures kept { IsKept self.now.inputs self.now.limit result.now.held }
        ensures early { result.now.held.kept.state.time ≤ time }
    {
        let mut count = self.kept.len();
        while count > 0 {
            count -= 1;
            let station = &self.kept[count];
            if station.time() <= time {
                return station;
            }
        }
        &self.first
    }

    /// A station of the run at the time at which a run to `time` ends.
    pub(crate) fn at(&self, time: u64) -> Result<Station<Indexed<64, 8>>, Fault>
        requires { time ≤ 1000000000 }
        ensures at { IfOk result (λ s. IsAt self.now.inputs self.now.limit time s.held) }
        ensures whole { IfOk result (λ s. s.held.kept.state.owed ≡ None) }
        ensures spent { IfOk result (λ s. s.held.own.spent ≡ 0) }
        ensures working { IfOk result (λ s. s.held.own.failed ≡ false) }
        ensures faults { IfErr result IsNewFault }
    {
        let mut station = match self.latest(time).try_clone() {
            Ok(station) => station,
            Err(fault) => return Err(fault),
        };
        match station.run(time) {
            Ok(()) => Ok(station),
            Err(fault) => Err(fault),
        }
    }

    /// Looks through the run, up to a time, for the last place of what is sought: first from the station
    /// that is kept last, and then from each before it.
    pub(crate) fn seek(
        &self,
        alloc: Global,
        until: u64,
        sought: Sought,
        actions: &[Option<Action>],
        breakpoints: &[Breakpoint],
        watchpoints: &[Watchpoint],
    ) -> Result<Option<Place>, Fault>
        requires { until ≤ 1000000000 }
        ensures finds { IfOk result (λ place. FindsIn self.now.inputs self.now.limit sought
            (goal_with actions.now breakpoints.now watchpoints.now) until place) }
        ensures small { IfOk result (λ place. IfSome place (λ p. p.stop.process ≤ 100)) }
        ensures early { IfOk result (λ place. IfSome place (λ p. p.time ≤ until)) }
        ensures faults { IfErr result IsNewFault }
    {
        let mut count = self.kept.len();
        while count > 0 {
            count -= 1;
            let station = &self.kept[count];
            if station.time() <= until {
                match find_from(
                    alloc,
                    station,
                    until,
                    sought,
                    actions,
                    breakpoints,
                    watchpoints,
                ) {
                    Ok(Some(place)) => return Ok(Some(place)),
                    Ok(None) => {}
                    Err(fault) => return Err(fault),
                }
            }
        }
        find_from(
            alloc,
            &self.first,
            until,
            sought,
            actions,
            breakpoints,
            watchpoints,
        )
    }

    /// The time of the station that is kept last.
    fn last_time(&self) -> u64 {
        match self.kept.as_slice() {
            [.., last] => last.time(),
            [] => 0,
        }
    }

    /// Keeps a station of the run, if there is room for it.
    fn push(&mut self, station: Station<Indexed<64, 8>>)
        requires { IsKept self.old.inputs self.old.limit station.held }
        ensures { self.new ≡ self.old }
    {
        match self.kept.push(station) {
            Ok(()) => {}
            Err(_) => {}
        }
    }

    /// Gives up the last stations that are not needed to look back from this time.
    fn drop_needless(&mut self, time: u64)
        ensures { self.new ≡ self.old }
    {
        while is_last_needless(self.kept.as_slice(), time) {
            self.kept.pop();
        }
    }

    /// Keeps a station at this time, which the run comes to from the last one, if there is room for it,
    /// and answers whether it does.
    fn keep_at(&mut self, time: u64) -> bool
        requires { time ≤ self.old.limit }
        ensures { self.new ≡ self.old }
    {
        let _limit = self.limit();
        let station = match self.at(time) {
            Ok(station) => station,
            Err(_) => return false,
        };
        if station.time() <= self.last_time() {
            return false;
        }
        self.push(station);
        true
    }

    /// Keeps stations on the way to this time, each some eight times as near as the one before it, as
    /// far as there is room for them.
    pub(crate) fn approach(&mut self, time: u64)
        requires { time ≤ self.old.limit }
        ensures { self.new ≡ self.old }
    {
        self.drop_needless(time);
        for _ in 0..MOST {
            let far = time.saturating_sub(self.last_time());
            if far <= NEAR || !self.keep_at(time - far / 8) {
                return;
            }
        }
    }

    /// Keeps a station of the run that goes forward, if it has come far enough and there is room for it.
    pub(crate) fn keep(&mut self, station: &Station<Indexed<64, 8>>)
        requires { IsKept self.old.inputs self.old.limit station.now.held }
        ensures { self.new ≡ self.old }
    {
        let time = station.time();
        if time.saturating_sub(self.last_time()) < APART {
            return;
        }
        self.drop_needless(time.saturating_add(APART));
        match station.try_clone() {
            Ok(station) => self.push(station),
            Err(_) => {}
        }
    }
}

/// Whether the last of stations is not needed to look back from a time: it is not earlier, or the one
/// before it is less than four times as far back.
fn is_last_needless(kept: &[Station<Indexed<64, 8>>], time: u64) -> bool
    ensures { result ≡ true → 0 < length kept.now }
{
    match kept {
        [] => false,
        [only] => only.time() >= time,
        [.., older, last] => {
            let far = time.saturating_sub(last.time());
            far == 0 || time.saturating_sub(older.time()) / 4 < far
        }
    }
}
