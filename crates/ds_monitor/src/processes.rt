//! The processes in their seats, and who is ready.
ghost use Rattle.std.specs.Prelude.{◌≡◌, ◌<◌, ◌≤◌, length, None, Some};
ghost use Rattle.ds_procs.specs.declared.process.Standing.{Standing};
ghost use Rattle.ds_pagemap.specs.Machine.{State, Process, process_of, with_process, made_ready, made_unready, first};
ghost use Rattle.ds_pagemap.specs.Unit.{at_pc};
ghost use Rattle.ds_pagemap.specs.Calls.{answered};
ghost use Rattle.ds_monitor.specs.Inner.Kept.{kept_of, kept_after};

use crate::monitor::Monitor;
use ds_procs::Standing;

impl Monitor {
    /// The process leaves the processor for its seat: these are its registers, and it goes on at
    /// this address.
    #[inline(always)]
    pub fn keep(&mut self, process: u32, general: &[u32; 32], hi: u32, lo: u32, pc: u32)
        requires above { 0 < process }
        requires within { process ≤ length self.old.seats.items }
        ensures kept { kept_of self.new ≡ kept_after (λ (m : State). with_process m process
            (record (process_of m process) {
              registers = record { general = general.now; hi = hi; lo = lo; late = None };
              pc = pc;
            }))
            (kept_of self.old) }
        ensures rest { self.new ≡ record self.old { seats = self.new.seats } }
    {
        self.seats[process as usize - 1].keep(general, hi, lo, pc);
    }

    /// The process goes on at another address.
    #[inline(always)]
    pub fn go_to(&mut self, process: u32, pc: u32)
        requires above { 0 < process }
        requires within { process ≤ length self.old.seats.items }
        ensures kept { kept_of self.new
            ≡ kept_after (λ (m : State). at_pc m process pc) (kept_of self.old) }
        ensures rest { self.new ≡ record self.old { seats = self.new.seats } }
    {
        self.seats[process as usize - 1].go_to(pc);
    }

    /// The answer to a call of the process, in its register 2.
    #[inline(always)]
    pub fn answer(&mut self, process: u32, value: u32)
        requires above { 0 < process }
        requires within { process ≤ length self.old.seats.items }
        ensures kept { kept_of self.new
            ≡ kept_after (λ (m : State). answered m process value) (kept_of self.old) }
        ensures rest { self.new ≡ record self.old { seats = self.new.seats } }
    {
        self.seats[process as usize - 1].answer(value);
    }

    /// The process is ready, at the end of the list.
    pub fn make_ready(&mut self, process: u32)
        requires above { 0 < process }
        requires within { process ≤ length self.old.seats.items }
        requires few { length self.old.seats.items ≤ 100 }
        ensures kept { kept_of self.new
            ≡ kept_after (λ (m : State). made_ready m process) (kept_of self.old) }
        ensures rest { self.new ≡ record self.old {
          seats = self.new.seats;
          ready = self.new.ready;
        } }
    {
        self.seats[process as usize - 1].stand(Standing::Ready);
        self.ready.to_end(process);
    }

    /// The process stands otherwise.
    #[inline(always)]
    fn stand(&mut self, process: u32, standing: Standing)
        requires above { 0 < process }
        requires within { process ≤ length self.old.seats.items }
        ensures kept { kept_of self.new ≡ kept_after (λ (m : State). with_process m process
            (record (process_of m process) { standing = standing }))
            (kept_of self.old) }
        ensures rest { self.new ≡ record self.old { seats = self.new.seats } }
    {
        self.seats[process as usize - 1].stand(standing);
    }

    /// The first of those that are ready goes to the end of the list, and is ready.
    #[inline(always)]
    pub(crate) fn rotate_first(&mut self, process: u32)
        requires above { 0 < process }
        requires within { process ≤ length self.old.seats.items }
        requires first { first self.old.ready ≡ Some process }
        ensures kept { kept_of self.new
            ≡ kept_after (λ (m : State). made_ready m process) (kept_of self.old) }
        ensures rest { self.new ≡ record self.old {
          seats = self.new.seats;
          ready = self.new.ready;
        } }
    {
        // It is a queue, in which nobody is twice.
        let _first = self.ready.first();
        self.stand(process, Standing::Ready);
        self.ready.rotate();
    }

    /// The process stands otherwise, and is not among those that are ready.
    pub fn make_unready(&mut self, process: u32, standing: Standing)
        requires above { 0 < process }
        requires within { process ≤ length self.old.seats.items }
        ensures kept { kept_of self.new
            ≡ kept_after (λ (m : State). made_unready m process standing) (kept_of self.old) }
        ensures rest { self.new ≡ record self.old {
          seats = self.new.seats;
          ready = self.new.ready;
        } }
    {
        self.seats[process as usize - 1].stand(standing);
        self.ready.remove(process);
    }
}
