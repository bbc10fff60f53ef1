//! What the monitor keeps.

ghost use Rattle.std.specs.Prelude.{◌≡◌};

use crate::consoles::Consoles;
use crate::due::Due;
use crate::line_queue::LineQueue;
use crate::seat::Seat;
use ds_asid::Asids;
use ds_grants::Grants;
use ds_pagemap::Turn;
use ds_procs::Queue;
use ds_tables::Tables;
use std::alloc::AllocError;

/// What the monitor keeps beside the processor and its bus. A contract sees it as a `Kept`, which
/// `kept_of` makes of it.
#[derive(Drop)]
pub struct Monitor {
    /// The permission table, which pages live, and which processes have ended.
    pub grants: Grants,
    /// Where the page tables stand in memory, which have the words of what is granted.
    pub tables: Tables,
    /// Which process has which address space, by its number.
    pub spaces: Asids,
    /// The processes, by their numbers from 1. Of the one that runs only its standing and its line
    /// mean something.
    pub seats: Vec<Seat>,
    /// The numbers of those that are ready; the first runs.
    pub ready: Queue,
    /// Of each line, the characters that wait to be read.
    pub queues: Vec<LineQueue>,
    pub consoles: Consoles,
    /// The log's text, and how many lines it has.
    pub log: Vec<u8>,
    pub lines: u64,
    /// In ticks.
    pub time: u64,
    /// The rate of the clock, from 3 to 15, or 0 where it has none.
    pub rate: u32,
    /// The turn whose boundary is owed.
    pub owed: Option<Turn>,
    /// The time to which the clock was brought.
    pub ticked: u64,
    /// A time before which no right ends.
    pub ends: u64,
    /// The characters that have not come in yet.
    pub due: Due,
    /// The time before which no boundary has anything to do.
    pub quiet_until: u64,
}

/// A clone keeps the same, and has room for nothing more yet.
impl Clone for Monitor {
    ghost use Rattle.ds_monitor.specs.Inner.Kept.{kept_of};

    ghost is_clone = { λ x y. (kept_of y ≡ kept_of x) × (y.quiet_until ≡ x.quiet_until) };

    fn clone(&self) -> Result<Self, AllocError> {
        Ok(Monitor {
            grants: self.grants.clone()?,
            tables: self.tables.clone()?,
            spaces: self.spaces.clone()?,
            seats: Vec::from_clones(*self.seats.allocator(), self.seats.as_slice())?,
            ready: self.ready.clone()?,
            queues: Vec::from_clones(*self.queues.allocator(), self.queues.as_slice())?,
            consoles: self.consoles.clone()?,
            log: self.log.clone()?,
            lines: self.lines,
            time: self.time,
            rate: self.rate,
            owed: self.owed,
            ticked: self.ticked,
            ends: self.ends,
            due: self.due.clone()?,
            quiet_until: self.quiet_until,
        })
    }
}
