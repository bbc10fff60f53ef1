//! How a turn ends, and the log.
ghost use Rattle.std.specs.Prelude.{◌≡◌, ℕ, ◌+◌, ◌<◌, ◌≤◌, ◌^◌, ◌++◌, Some};
ghost use Rattle.ds_log.specs.Text.{line_text};
ghost use Rattle.ds_log.specs.Inner.Length.{IsShort};
ghost use Rattle.ds_pagemap.specs.Machine.{State, first};
ghost use Rattle.ds_refinement.specs.Inner.Services.{with_turn};
ghost use Rattle.ds_monitor.specs.Inner.Kept.{kept_of, kept_after};
ghost use Rattle.ds_monitor.specs.Inner.Orderly.{IsOrderly};
ghost use Rattle.ds_monitor.specs.Inner.Room.{HasLogRoom};

use crate::monitor::Monitor;
use ds_log::{Line, append, line_fits};
use ds_pagemap::Turn;

impl Monitor {
    /// The process whose turn it is, if one is ready.
    #[inline(always)]
    pub fn first_ready(&self) -> Option<u32>
        ensures { result ≡ first (kept_of self.now).state.ready }
    {
        self.ready.first()
    }

    /// A turn of so many ticks is done, and its boundary is owed.
    #[inline(always)]
    pub fn end_turn(&mut self, runner: Option<u32>, ticks: u64)
        requires early { self.old.time < 1000000000 }
        requires few { ticks ≤ 2 }
        ensures kept { kept_of self.new ≡ kept_after (λ (m : State). record m {
          time = m.time + ticks;
          owed = Some (record { began = m.time; runner = runner });
        })
            (kept_of self.old) }
        ensures orderly { IsOrderly (kept_of self.old) → IsOrderly (kept_of self.new) }
        ensures rest { self.new ≡ record self.old { time = self.new.time; owed = self.new.owed } }
    {
        self.owed = Some(Turn {
            began: self.time,
            runner,
        });
        self.time += ticks;
    }

    /// A turn of the first ready process is done, or an idle one where nobody is ready.
    #[inline(always)]
    pub fn end_first_turn(&mut self, ticks: u64)
        requires early { self.old.time < 1000000000 }
        requires few { ticks ≤ 2 }
        ensures kept { kept_of self.new ≡ kept_after (with_turn ticks) (kept_of self.old) }
        ensures orderly { IsOrderly (kept_of self.old) → IsOrderly (kept_of self.new) }
        ensures rest { self.new ≡ record self.old { time = self.new.time; owed = self.new.owed } }
    {
        let runner = self.first_ready();
        self.end_turn(runner, ticks);
    }

    /// A line more in the log, which has room for it.
    pub(crate) fn log_line(&mut self, line: &Line)
        requires room { HasLogRoom 1 self.old }
        requires short { IsShort line.now }
        requires count { self.old.lines < 2 ^ 63 }
        ensures kept { kept_of self.new ≡ record (kept_of self.old) {
          log = (kept_of self.old).log ++ line_text line.now;
          lines = (kept_of self.old).lines + 1;
        } }
        ensures rest { self.new ≡ record self.old { log = self.new.log; lines = self.new.lines } }
        ensures room { (n : ℕ) → HasLogRoom (n + 1) self.old → HasLogRoom n self.new }
    {
        line_fits(line);
        append(&mut self.log, line).unwrap();
        self.lines += 1;
    }
}
