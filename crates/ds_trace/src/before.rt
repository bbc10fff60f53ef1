//! What is looked at before a half turn.
ghost use Rattle.std.specs.Prelude.{◌≡◌, ◌+◌, ◌++◌, OnOk, if◌then◌else◌, length, map, nat_le};
ghost use Rattle.ds_pagemap.specs.Machine.{first};
ghost use Rattle.ds_trace.specs.Boundaries.{due_by};
ghost use Rattle.ds_trace.specs.Inner.Shows.{looked_held, start_held};

use crate::entries::{Row, push_rows};
use crate::start::Start;
use ds_policy::TimedCommand;
use ds_procs::Standing;
use ds_station::Station;
use ds_tlb::Lookaside;
use ds_words::View;
use std::alloc::{AllocError, Global};
use std::marker::Model;

/// How many console lines there are.
pub(crate) const LINES: usize = 4;

/// What of a station the lines of its next half turn tell.
#[derive(Drop)]
pub(crate) struct Before {
    /// Whether a boundary is owed.
    pub owed: bool,
    /// When the turn began, in ticks.
    pub began: u64,
    /// The unit, if that is next.
    pub start: Option<Start>,
    /// How many bytes the log has.
    pub logged: usize,
    pub runner: Option<u32>,
    /// The commands that a boundary carries out next.
    pub due: Vec<TimedCommand>,
    /// How many characters have not come in yet.
    pub characters: usize,
    /// How many characters wait on each line.
    pub queued: [usize; LINES],
    /// How each process stands.
    pub standings: Vec<Standing>,
    /// The entries of each process, where they are told of.
    pub table: Vec<Row>,
    alloc: Global,
}

impl Model for Before {
    ghost use Rattle.ds_trace.specs.Looks.{Looked};

    ghost Value = { Looked };

    ghost view = { λ b. record {
      owed = b.owed;
      began = b.began;
      start = b.start;
      logged = b.logged;
      runner = b.runner;
      due = b.due.items;
      characters = b.characters;
      queued = b.queued;
      standings = b.standings.items;
      table = b.table.items;
    } };
}

/// Whether a command is due at a time, or at the next where no boundary is owed.
fn is_due(command: u64, time: u64, owed: bool) -> bool
    ensures { result ≡ nat_le command (if owed then time else time + 1) }
{
    if owed {
        command <= time
    } else {
        command.saturating_sub(1) <= time
    }
}

/// Adds the first commands, as far as they are due.
fn push_due(
    due: &mut Vec<TimedCommand>,
    commands: &[TimedCommand],
    time: u64,
    owed: bool,
) -> Result<(), AllocError>
    ensures { OnOk result (due.new.items
        ≡ due.old.items ++ due_by (if owed then time else time + 1) commands.now) }
{
    for command in commands {
        if is_due(command.time, time, owed) {
            due.push(*command)?;
        } else {
            return Ok(());
        }
    }
    Ok(())
}

/// Adds how each process stands.
fn push_standings<L: Lookaside>(
    standings: &mut Vec<Standing>,
    station: &Station<L>,
) -> Result<(), AllocError>
    ensures { OnOk result (standings.new.items ≡ standings.old.items
        ++ map (λ q. q.standing) station.now.held.kept.state.processes) }
{
    for process in 1..station.processes() + 1 {
        standings.push(station.standing(process))?;
    }
    Ok(())
}

/// How many characters wait on each line.
fn queued_on<L: Lookaside>(station: &Station<L>) -> [usize; LINES]
    ensures { result ≡ map length station.now.held.kept.state.queues }
{
    [
        station.queue(0).len(),
        station.queue(1).len(),
        station.queue(2).len(),
        station.queue(3).len(),
    ]
}

impl Before {
    /// Nothing is known of any station.
    pub(crate) fn new(alloc: Global) -> Before {
        Before {
            owed: false,
            began: 0,
            start: None,
            logged: 0,
            runner: None,
            due: Vec::new(alloc),
            characters: 0,
            queued: [0; LINES],
            standings: Vec::new(alloc),
            table: Vec::new(alloc),
            alloc,
        }
    }

    /// What a station shows a view, by whether a boundary is owed.
    pub(crate) fn look<L: Lookaside>(
        &mut self,
        view: &View<'_>,
        station: &Station<L>,
        owed: bool,
    ) -> Result<(), AllocError>
        ensures { OnOk result (self.new ≡ looked_held view.now owed station.now.held) }
    {
        self.owed = owed;
        self.began = station.turn_began();
        self.start = if owed { None } else { Start::next(station) };
        self.logged = station.log().len();
        self.runner = station.runner();
        self.characters = station.characters_to_come();
        self.queued = queued_on(station);
        self.due.clear();
        let commands = station.commands_to_come();
        push_due(&mut self.due, commands, station.time(), owed)?;
        self.standings.clear();
        push_standings(&mut self.standings, station)?;
        self.table.clear();
        if view.shows_entries() {
            push_rows(self.alloc, &mut self.table, station)?;
        }
        Ok(())
    }
}
