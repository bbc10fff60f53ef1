//! What a boundary does to the processes and their queues.
ghost use Rattle.std.specs.Prelude.{◌≡◌, ◌<◌, ◌≤◌, ◌^◌, ℕ, List, length, map, nat_lt, IfSome, None};
ghost use Rattle.std.specs.List.{All, list_any};
ghost use Rattle.ds_pagemap.specs.Machine.{State, Process, process_of, first};
ghost use Rattle.ds_pagemap.specs.Boundary.{queued, wakes, woken, rotated};
ghost use Rattle.ds_monitor.specs.Inner.Kept.{kept_of, kept_after};
ghost use Rattle.ds_monitor.specs.Inner.Coming.{period_end, next_due};
ghost use Rattle.ds_monitor.specs.Inner.Orderly.{IsOrderly};

use crate::due::NEVER;
use crate::monitor::Monitor;
use ds_pagemap::Turn;
use ds_procs::Standing;

/// When the period of a rate ends in which a time lies, or never where it has none.
fn period_end(rate: u32, time: u64) -> u64
    requires high { rate ≤ 15 }
    requires early { time < 2 ^ 62 }
    ensures { result ≡ period_end rate time }
{
    if rate == 0 {
        return NEVER;
    }
    let period = 1 << (rate + 2);
    (time / period + 1) * period
}

impl Monitor {
    /// The boundary that is owed is done, or is no longer owed.
    pub fn take_owed(&mut self) -> Option<Turn>
        ensures taken { result ≡ self.old.owed }
        ensures kept { kept_of self.new
            ≡ kept_after (λ (m : State). record m { owed = None }) (kept_of self.old) }
        ensures orderly { IsOrderly (kept_of self.old) → IsOrderly (kept_of self.new) }
        ensures rest { self.new ≡ record self.old { owed = self.new.owed } }
    {
        self.owed.take()
    }

    /// A character goes to the queue of its line. One that finds 256 is dropped.
    pub fn queue_character(&mut self, line: usize, byte: u8)
        requires line { line < length self.old.queues.items }
        ensures kept { (time : ℕ) → kept_of self.new ≡ kept_after (λ (m : State). record m {
          queues = queued m.queues (record { time = time; line = line; byte = byte });
        })
            (kept_of self.old) }
        ensures rest { self.new ≡ record self.old { queues = self.new.queues } }
    {
        self.queues[line].put(byte);
    }

    /// Whether a process waits for a character that is there.
    fn wakes(&self, process: u32) -> bool
        requires above { 0 < process }
        requires within { process ≤ length self.now.seats.items }
        requires line { (process_of (kept_of self.now).state process).line
            < length self.now.queues.items }
        ensures { result ≡ wakes (kept_of self.now).state process }
    {
        match self.seats[process as usize - 1].standing() {
            Standing::Waiting => self.has_character(process),
            Standing::Ready | Standing::Parked | Standing::Ended => false,
        }
    }

    /// A process becomes ready, where it waits for a character that is there.
    fn wake_one(&mut self, process: u32)
        requires above { 0 < process }
        requires within { process ≤ length self.old.seats.items }
        requires few { length self.old.seats.items ≤ 100 }
        requires line { (process_of (kept_of self.old).state process).line
            < length self.old.queues.items }
        ensures kept { kept_of self.new
            ≡ kept_after (λ (m : State). woken m process 1) (kept_of self.old) }
        ensures seats { length self.new.seats.items ≡ length self.old.seats.items }
        ensures lines { map (λ (q : Process). q.line) self.new.seats.items
            ≡ map (λ (q : Process). q.line) self.old.seats.items }
        ensures rest { self.new ≡ record self.old {
          seats = self.new.seats;
          ready = self.new.ready;
        } }
    {
        if self.wakes(process) {
            self.make_ready(process);
        }
    }

    /// Whether a character waits on any line.
    fn has_characters(&self) -> bool
        ensures { result
            ≡ list_any (λ (queue : List ℕ). nat_lt 0 (length queue)) self.now.queues.items }
    {
        self.queues.iter().any(|queue| !queue.is_empty())
    }

    /// Those that wait for a character that is there become ready, the lowest number first. Where
    /// none is there it costs nothing.
    pub fn wake(&mut self)
        requires few { length self.old.seats.items ≤ 100 }
        requires lines { All (λ l. l < 4) (map (λ (q : Process). q.line) self.old.seats.items) }
        requires queues { length self.old.queues.items ≡ 4 }
        ensures kept { kept_of self.new
            ≡ kept_after (λ (m : State). woken m 1 (length m.processes)) (kept_of self.old) }
        ensures rest { self.new ≡ record self.old {
          seats = self.new.seats;
          ready = self.new.ready;
        } }
    {
        if !self.has_characters() {
            return;
        }
        let count = self.seats.len() as u32;
        let mut process = 1;
        while process <= count {
            self.wake_one(process);
            process += 1;
        }
    }

    /// The process that ran goes to the end of the list, if it is first.
    pub fn rotate(&mut self, runner: Option<u32>)
        requires there { IfSome (first self.old.ready)
            (λ p. (0 < p) × (p ≤ length self.old.seats.items)) }
        requires few { length self.old.seats.items ≤ 100 }
        ensures kept { kept_of self.new
            ≡ kept_after (λ (m : State). rotated m runner) (kept_of self.old) }
        ensures rest { self.new ≡ record self.old {
          seats = self.new.seats;
          ready = self.new.ready;
        } }
    {
        if let Some(process) = runner {
            if self.first_ready() == Some(process) {
                self.rotate_first(process);
            }
        }
    }

    /// Looks ahead for the time at which a boundary next has something to do.
    pub fn look_ahead(&mut self)
        requires rate { self.old.rate ≤ 15 }
        requires early { self.old.ticked < 2 ^ 62 }
        ensures { self.new ≡ record self.old { quiet_until = next_due (kept_of self.old) } }
    {
        let comes = self.due.next_due();
        self.quiet_until = comes.min(period_end(self.rate, self.ticked)).min(self.ends);
    }
}
