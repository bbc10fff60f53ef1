//! What is read of what is kept.
ghost use Rattle.std.specs.Prelude.{◌≡◌, ◌<◌, ◌≤◌, length};
ghost use Rattle.ds_pagemap.specs.Machine.{process_of};
ghost use Rattle.ds_pagemap.specs.Run as run;
ghost use Rattle.ds_monitor.specs.Inner.Kept.{kept_of};

use crate::monitor::Monitor;
use ds_procs::Standing;

impl Monitor {
    /// The general registers, HI and LO of a process in its seat.
    pub fn registers_of(&self, process: u32) -> ([u32; 32], u32, u32)
        requires above { 0 < process }
        requires within { process ≤ length self.now.seats.items }
        ensures general { result.0
            ≡ (process_of (kept_of self.now).state process).registers.general }
        ensures hi { result.1 ≡ (process_of (kept_of self.now).state process).registers.hi }
        ensures lo { result.2 ≡ (process_of (kept_of self.now).state process).registers.lo }
    {
        self.seats[process as usize - 1].registers()
    }

    /// Where a process in its seat goes on.
    pub fn pc_of(&self, process: u32) -> u32
        requires above { 0 < process }
        requires within { process ≤ length self.now.seats.items }
        ensures { result ≡ (process_of (kept_of self.now).state process).pc }
    {
        self.seats[process as usize - 1].pc()
    }

    /// Whether every process has ended.
    pub fn is_over(&self) -> bool
        ensures { result ≡ run.is_over (kept_of self.now).state }
    {
        self.seats
            .iter()
            .all(|seat| matches!(seat.standing(), Standing::Ended))
    }
}
