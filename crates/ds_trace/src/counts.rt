//! What is counted of a run.
ghost use Rattle.std.specs.Prelude.{◌≡◌, ◌<◌, ◌++◌, OnOk, is_some, slice_index};
ghost use Rattle.ds_station.specs.Reads.{general_held};
ghost use Rattle.ds_trace.specs.Counts.{done_counted, is_copy, is_counted, is_unbegun, loss_of, lost_of, none_counted, call_number, plus, rest_counted, switch_counted, unit_counted, with_call};
ghost use Rattle.ds_trace.specs.Halves.{process_of_start};
ghost use Rattle.ds_trace.specs.Inner.Shows.{counts_held, found_held};

use crate::before::{Before, LINES};
use crate::boundaries::{lost_on, taken_from};
use crate::changes::same_first;
use crate::sheet::logged_since;
use crate::start::Start;
use crate::stores::held_in;
use ds_procs::Call;
use ds_station::Station;
use ds_tlb::Lookaside;
use ds_words::View;
use std::alloc::{AllocError, Global};
use std::marker::Model;

/// How many numbers of calls there are, with that of all calls that are unknown.
pub(crate) const CALLS: usize = 11;

/// A boundary that lost characters.
#[derive(Clone, Copy)]
pub(crate) struct Lossy {
    /// Its time, in ticks.
    pub time: u64,
    /// How many characters had not come in before it.
    pub before: usize,
    /// How many had not come in after it.
    pub after: usize,
    /// How many came to the queue of each line.
    pub taken: [usize; LINES],
}

/// What is counted of the turns that a view wants.
#[derive(Drop)]
pub(crate) struct Counts {
    pub units: u64,
    /// The ticks in which nobody runs.
    pub idle: u64,
    /// The half turns after which another process is first than before, or nobody.
    pub switches: u64,
    /// The calls.
    pub made: u64,
    /// The calls of each number.
    pub calls: [u64; CALLS],
    /// The gives by copy that were done.
    pub copies: u64,
    /// The characters that were lost.
    pub lost: u64,
    /// The boundaries that lost some.
    pub losses: Vec<Lossy>,
    /// What the units logged.
    pub denied: Vec<u8>,
}

impl Model for Counts {
    ghost use Rattle.ds_trace.specs.Counts.{Counted};

    ghost Value = { Counted };

    ghost view = { λ c. record {
      units = c.units;
      idle = c.idle;
      switches = c.switches;
      made = c.made;
      calls = c.calls;
      copies = c.copies;
      lost = c.lost;
      losses = c.losses.items;
      denied = c.denied.items;
    } };
}

/// A count with so many more. It stops at the greatest number.
pub(crate) fn plus(count: u64, more: u64) -> u64
    ensures { result ≡ plus count more }
{
    count.saturating_add(more)
}

/// The number of a call, and 10 for all others.
fn call_number(call: Call) -> usize
    ensures number { result ≡ call_number call }
    ensures few { result < 11 }
{
    match call {
        Call::Exit => 0,
        Call::Put { .. } => 1,
        Call::Get => 2,
        Call::Yield => 3,
        Call::Time => 4,
        Call::Own => 5,
        Call::Give { .. } => 6,
        Call::Take { .. } => 7,
        Call::Drop { .. } => 8,
        Call::Wait => 9,
        Call::Unknown => 10,
    }
}

/// The calls of each number, with the call of a unit, if it is one.
fn with_call(calls: [u64; CALLS], call: Option<Call>) -> [u64; CALLS]
    ensures { result ≡ with_call calls call }
{
    let mut calls = calls;
    match call {
        Some(call) => {
            let number = call_number(call);
            calls[number] = plus(calls[number], 1);
            calls
        }
        None => calls,
    }
}

/// Whether a unit was a give by copy that was done, by its answer.
fn is_copy(call: Option<Call>, answer: u32) -> bool
    ensures { result ≡ is_copy call answer }
{
    match call {
        Some(Call::Give { mode, .. }) => mode == 3 && answer == 0,
        _ => false,
    }
}

/// Register 2 of a process, which has the answer of its call.
fn answer_of<L: Lookaside>(station: &Station<L>, process: u32) -> u32
    ensures { result ≡ slice_index (general_held station.now.held process) 2 }
{
    held_in(&station.general(process), 2)
}

/// Whether the turns that began at a time are counted.
fn is_counted(view: &View<'_>, began: u64) -> bool
    ensures { result ≡ is_counted view.now began }
{
    view.has_lines() && view.shows_turn(began)
}

impl Counts {
    /// Whether no turn is counted yet.
    pub(crate) fn is_unbegun(&self) -> bool
        ensures { result ≡ is_unbegun self.now }
    {
        self.units == 0 && self.idle == 0
    }

    /// Nothing is counted yet.
    pub(crate) fn new(alloc: Global) -> Counts
        ensures { result ≡ none_counted }
    {
        Counts {
            units: 0,
            idle: 0,
            switches: 0,
            made: 0,
            calls: [0; CALLS],
            copies: 0,
            lost: 0,
            losses: Vec::new(alloc),
            denied: Vec::new(alloc),
        }
    }

    /// Counts a unit that logged this.
    fn count_unit<L: Lookaside>(
        &mut self,
        start: &Start,
        logged: &[u8],
        station: &Station<L>,
    ) -> Result<(), AllocError>
        ensures { OnOk result (self.new ≡ unit_counted self.old start.now logged.now
            (slice_index (general_held station.now.held start.now.process) 2)) }
    {
        self.units = plus(self.units, 1);
        if start.call.is_some() {
            self.made = plus(self.made, 1);
        }
        self.calls = with_call(self.calls, start.call);
        if is_copy(start.call, answer_of(station, start.process)) {
            self.copies = plus(self.copies, 1);
        }
        self.denied.extend_from_slice(logged)
    }

    /// Keeps a boundary that lost so many characters, if it lost any.
    fn keep_loss<L: Lookaside>(
        &mut self,
        before: &Before,
        station: &Station<L>,
        lost: usize,
    ) -> Result<(), AllocError>
        requires { lost ≡ lost_of before.now
            (found_held (process_of_start before.now.start) station.now.held) }
        ensures { OnOk result (self.new ≡ record self.old {
          losses = self.old.losses
              ++ loss_of before.now (found_held (process_of_start before.now.start) station.now.held);
        }) }
    {
        if lost == 0 {
            return Ok(());
        }
        self.losses.push(Lossy {
            time: station.time(),
            before: before.characters,
            after: station.characters_to_come(),
            taken: taken_from(station, &before.queued),
        })?;
        Ok(())
    }

    /// Counts a tick in which nobody runs, and what a boundary lost.
    fn count_rest<L: Lookaside>(
        &mut self,
        before: &Before,
        station: &Station<L>,
        owed: bool,
    ) -> Result<(), AllocError>
        requires owed { owed ≡ is_some station.now.held.kept.state.owed }
        ensures { OnOk result (self.new ≡ rest_counted self.old before.now
            (found_held (process_of_start before.now.start) station.now.held)) }
    {
        if !before.owed {
            self.idle = plus(self.idle, 1);
        }
        if owed {
            return Ok(());
        }
        let lost = lost_on(station, before.characters, &before.queued);
        self.lost = plus(self.lost, lost as u64);
        self.keep_loss(before, station, lost)
    }

    /// Counts what was done: a unit, or what else a half turn is.
    fn count_done<L: Lookaside>(
        &mut self,
        before: &Before,
        station: &Station<L>,
        owed: bool,
    ) -> Result<(), AllocError>
        requires owed { owed ≡ is_some station.now.held.kept.state.owed }
        ensures { OnOk result (self.new ≡ done_counted self.old before.now
            (found_held (process_of_start before.now.start) station.now.held) before.now.start) }
    {
        match before.start {
            Some(start) => {
                self.count_unit(&start, logged_since(station, before.logged), station)
            }
            None => self.count_rest(before, station, owed),
        }
    }

    /// Counts a half turn after which another process is first, or nobody.
    fn count_switch(&mut self, before: Option<u32>, after: Option<u32>)
        ensures { self.new ≡ switch_counted self.old before after }
    {
        if !same_first(before, after) {
            self.switches = plus(self.switches, 1);
        }
    }

    /// Counts a half turn, by what was looked at before it and what the station shows now, and by
    /// whether it owes a boundary now.
    pub(crate) fn add<L: Lookaside>(
        &mut self,
        view: &View<'_>,
        before: &Before,
        station: &Station<L>,
        owed: bool,
    ) -> Result<(), AllocError>
        requires owed { owed ≡ is_some station.now.held.kept.state.owed }
        ensures { OnOk result
            (self.new ≡ counts_held view.now self.old before.now station.now.held) }
    {
        if !is_counted(view, before.began) {
            return Ok(());
        }
        self.count_done(before, station, owed)?;
        self.count_switch(before.runner, station.runner());
        Ok(())
    }
}
