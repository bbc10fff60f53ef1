//! The boundary after a turn: it has nothing to do, or it is served.
ghost use Rattle.std.specs.Prelude.{◌≡◌, ◌+◌, ◌<◌, ◌≤◌, ◌^◌, length, map, All, IsSome};
ghost use Rattle.ds_grants.specs.Inner.Represented.{IsLow, Keeps};
ghost use Rattle.ds_refinement.specs.Pairs.{HasNoNewPairs};
ghost use Rattle.ds_refinement.specs.Inner.Services.{Serves, seated};
ghost use Rattle.ds_monitor.specs.Inner.Kept.{kept_of, kept_after};
ghost use Rattle.ds_monitor.specs.Inner.Commands.{with_ends, commanded};
ghost use Rattle.ds_monitor.specs.Inner.Orderly as monitor;
ghost use Rattle.ds_monitor.specs.Inner.Room.{HasBoundaryRoom};
ghost use Rattle.ds_kernel.specs.Inner.Parts.{held};
ghost use Rattle.ds_kernel.specs.Inner.Good.{IsGood};
ghost use Rattle.ds_kernel.specs.Inner.Devices.{IsOfLine, TellsReceived, typed, emptied};
ghost use Rattle.ds_dev.specs.Bus.{with_serial};
ghost use Rattle.ds_kernel.specs.Inner.Attended.{runner_of, unowed, heard, shared, ruled, read_out, HasAttended, IsBounded};

use crate::devices::read_clock;
use crate::parts::Parts;
use ds_pagemap::Turn;
use ds_tlb::Lookaside;

/// The process that ran in a turn, if one did.
fn runner_of(owed: Option<Turn>) -> Option<u32>
    ensures { result ≡ runner_of owed }
{
    match owed {
        Some(turn) => turn.runner,
        None => None,
    }
}

impl<L: Lookaside> Parts<L> {
    /// The process that runs leaves the processor for its seat, if one does.
    fn leave_first(&mut self)
        requires orderly { monitor.IsOrderly (kept_of self.old.monitor) }
        ensures kept { kept_of self.new.monitor ≡ seated self.old.core (kept_of self.old.monitor) }
        ensures orderly { monitor.IsOrderly (kept_of self.new.monitor) }
        ensures rest { self.new ≡ record self.old {
          monitor = record self.old.monitor { seats = self.new.monitor.seats };
        } }
    {
        if let Some(process) = self.monitor.first_ready() {
            let pc = self.resume_address();
            self.leave(process, pc);
        }
    }

    /// What was received goes to the queues, and who waits for a character that is there becomes
    /// ready. Where no device asks for the processor, there is nothing.
    #[inline(always)]
    fn hear(&mut self)
        requires lines { All IsOfLine self.old.bus.serial.silo }
        requires tells { TellsReceived self.old.bus }
        requires orderly { monitor.IsOrderly (kept_of self.old.monitor) }
        ensures kept { kept_of self.new.monitor
            ≡ kept_after (heard (map typed self.old.bus.serial.silo)) (kept_of self.old.monitor) }
        ensures orderly { monitor.IsOrderly (kept_of self.new.monitor) }
        ensures bus { self.new.bus ≡ with_serial self.old.bus (emptied self.old.bus.serial) }
        ensures rest { self.new ≡ record self.old {
          bus = self.new.bus;
          monitor = record self.old.monitor {
            seats = self.new.monitor.seats;
            ready = self.new.monitor.ready;
            queues = self.new.monitor.queues;
          };
        } }
    {
        if self.bus.asks() {
            self.drain();
            self.monitor.wake();
        }
    }

    /// What was received goes to the queues, who waits for a character that is there becomes ready,
    /// and where a period has ended the process that ran goes to the end.
    #[inline(always)]
    fn share(&mut self, passed: bool, runner: Option<u32>)
        requires lines { All IsOfLine self.old.bus.serial.silo }
        requires tells { TellsReceived self.old.bus }
        requires orderly { monitor.IsOrderly (kept_of self.old.monitor) }
        ensures kept { kept_of self.new.monitor
            ≡ kept_after (shared (map typed self.old.bus.serial.silo) passed runner)
            (kept_of self.old.monitor) }
        ensures orderly { monitor.IsOrderly (kept_of self.new.monitor) }
        ensures bus { self.new.bus ≡ with_serial self.old.bus (emptied self.old.bus.serial) }
        ensures rest { self.new ≡ record self.old {
          bus = self.new.bus;
          monitor = record self.old.monitor {
            seats = self.new.monitor.seats;
            ready = self.new.monitor.ready;
            queues = self.new.monitor.queues;
          };
        } }
    {
        self.hear();
        if passed {
            self.monitor.rotate(runner);
        }
    }

    /// The rights that have ended by now end.
    fn expire(&mut self)
        requires orderly { monitor.IsOrderly (kept_of self.old.monitor) }
        ensures serves { Serves (with_ends self.old.monitor.time)
            (kept_of self.old.monitor) self.old.bus.memory
            (kept_of self.new.monitor) self.new.bus.memory }
        ensures low { IsLow self.old.bus.memory self.new.bus.memory }
        ensures orderly { monitor.IsOrderly (kept_of self.new.monitor) }
        ensures keeps { Keeps
            self.old.core.entries self.old.bus.memory self.old.monitor.tables
            self.old.monitor.spaces self.old.monitor.grants
            self.new.core.entries self.new.bus.memory self.new.monitor.tables
            self.new.monitor.spaces self.new.monitor.grants }
        ensures pairs { HasNoNewPairs self.old.core.entries self.new.core.entries }
        ensures random { self.new.core.random ≡ self.old.core.random }
        ensures rest { self.new ≡ record self.old {
          core = record self.old.core { entries = self.new.core.entries };
          bus = record self.old.bus { memory = self.new.bus.memory };
          monitor = record self.old.monitor {
            grants = self.new.monitor.grants;
            tables = self.new.monitor.tables;
            ends = self.new.monitor.ends;
          };
        } }
    {
        self.monitor.expire(&mut self.bus, &mut self.core.tlb);
    }

    /// The commands that are due are done.
    fn command(&mut self)
        requires orderly { monitor.IsOrderly (kept_of self.old.monitor) }
        requires early { self.old.monitor.time < 2 ^ 62 }
        requires count { self.old.monitor.lines + length self.old.monitor.due.commands < 2 ^ 63 }
        requires room { HasBoundaryRoom self.old.monitor }
        ensures serves { Serves (commanded self.old.monitor.time)
            (kept_of self.old.monitor) self.old.bus.memory
            (kept_of self.new.monitor) self.new.bus.memory }
        ensures low { IsLow self.old.bus.memory self.new.bus.memory }
        ensures orderly { monitor.IsOrderly (kept_of self.new.monitor) }
        ensures count { self.new.monitor.lines + length self.new.monitor.due.commands
            ≤ self.old.monitor.lines + length self.old.monitor.due.commands }
        ensures keeps { Keeps
            self.old.core.entries self.old.bus.memory self.old.monitor.tables
            self.old.monitor.spaces self.old.monitor.grants
            self.new.core.entries self.new.bus.memory self.new.monitor.tables
            self.new.monitor.spaces self.new.monitor.grants }
        ensures pairs { HasNoNewPairs self.old.core.entries self.new.core.entries }
        ensures random { self.new.core.random ≡ self.old.core.random }
        ensures rest { self.new ≡ record self.old {
          core = record self.old.core { entries = self.new.core.entries };
          bus = record self.old.bus { memory = self.new.bus.memory };
          monitor = record self.old.monitor {
            grants = self.new.monitor.grants;
            tables = self.new.monitor.tables;
            spaces = self.new.monitor.spaces;
            seats = self.new.monitor.seats;
            ready = self.new.monitor.ready;
            log = self.new.monitor.log;
            lines = self.new.monitor.lines;
            due = record self.old.monitor.due {
              commands = self.new.monitor.due.commands;
            };
          };
        } }
    {
        self.monitor.commands(&mut self.bus, &mut self.core.tlb);
    }

    /// The turn whose boundary is owed is over: who ran is in its seat, the rights that have ended by
    /// now end, the commands that are due are done, and what was received and the clock's flags are
    /// read and served.
    fn serve_turn(&mut self)
        requires lines { All IsOfLine self.old.bus.serial.silo }
        requires tells { TellsReceived self.old.bus }
        requires orderly { monitor.IsOrderly (kept_of self.old.monitor) }
        requires early { self.old.monitor.time < 2 ^ 62 }
        requires count { self.old.monitor.lines + length self.old.monitor.due.commands < 2 ^ 63 }
        requires room { HasBoundaryRoom self.old.monitor }
        ensures serves { Serves (ruled self.old.monitor.time
            (map typed self.old.bus.serial.silo) self.old.bus.clock.flagged
            (runner_of self.old.monitor.owed))
            (unowed (seated self.old.core (kept_of self.old.monitor))) self.old.bus.memory
            (kept_of self.new.monitor) self.new.bus.memory }
        ensures orderly { monitor.IsOrderly (kept_of self.new.monitor) }
        ensures count { self.new.monitor.lines + length self.new.monitor.due.commands
            ≤ self.old.monitor.lines + length self.old.monitor.due.commands }
        ensures bus { self.new.bus
            ≡ record (read_out self.old.bus) { memory = self.new.bus.memory } }
        ensures low { IsLow self.old.bus.memory self.new.bus.memory }
        ensures keeps { Keeps
            self.old.core.entries self.old.bus.memory self.old.monitor.tables
            self.old.monitor.spaces self.old.monitor.grants
            self.new.core.entries self.new.bus.memory self.new.monitor.tables
            self.new.monitor.spaces self.new.monitor.grants }
        ensures pairs { HasNoNewPairs self.old.core.entries self.new.core.entries }
        ensures random { self.new.core.random ≡ self.old.core.random }
        ensures rest { self.new ≡ record self.old {
          core = record self.old.core { entries = self.new.core.entries };
          bus = self.new.bus;
          monitor = record self.old.monitor {
            grants = self.new.monitor.grants;
            tables = self.new.monitor.tables;
            spaces = self.new.monitor.spaces;
            seats = self.new.monitor.seats;
            ready = self.new.monitor.ready;
            queues = self.new.monitor.queues;
            log = self.new.monitor.log;
            lines = self.new.monitor.lines;
            owed = self.new.monitor.owed;
            ends = self.new.monitor.ends;
            due = record self.old.monitor.due {
              commands = self.new.monitor.due.commands;
            };
          };
        } }
    {
        self.leave_first();
        let runner = runner_of(self.monitor.take_owed());
        self.expire();
        self.command();
        let passed = read_clock(&mut self.bus);
        self.share(passed, runner);
    }

    /// The boundary that is owed is served, and who is first comes in.
    #[cold]
    #[inline(never)]
    fn attend(&mut self)
        requires slots { L.SLOTS ≡ 64 }
        requires wired { L.WIRED ≡ 8 }
        requires good { IsGood self.old }
        requires owed { IsSome self.old.monitor.owed }
        requires high { self.old.monitor.rate ≤ 15 }
        requires low { 0 < self.old.monitor.rate → 3 ≤ self.old.monitor.rate }
        requires early { self.old.monitor.time < 2 ^ 62 }
        ensures { HasAttended self.old self.new }
    {
        self.monitor.due.show_events_in_order();
        self.arrive();
        self.serve_turn();
        self.monitor.look_ahead();
        self.end_unit(None);
    }

    /// The boundary that is owed is done: it has nothing to do, or it is served.
    #[inline(always)]
    pub(crate) fn close_turn(&mut self)
        requires slots { L.SLOTS ≡ 64 }
        requires wired { L.WIRED ≡ 8 }
        requires good { IsGood self.old }
        requires owed { IsSome self.old.monitor.owed }
        ensures bounded { IsBounded (held self.old) (held self.new) }
        ensures good { IsGood self.new }
    {
        self.monitor.due.show_events_in_order();
        if self.monitor.time < self.monitor.quiet_until {
            self.monitor.owed = None;
        } else {
            self.attend();
        }
    }
}
