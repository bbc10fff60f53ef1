//! Calls that touch neither pages nor the log.
ghost use Rattle.std.specs.Prelude.{◌≡◌, ◌<◌, ◌≤◌, length, drop, slice_get, slice_set, nat_lt, ◌^◌, true};
ghost use Rattle.ds_pagemap.specs.Machine.{State, process_of, made_ready};
ghost use Rattle.ds_pagemap.specs.Calls.{answered, queue_of, after_put, after_get, after_wait};
ghost use Rattle.ds_monitor.specs.Inner.Consoles.{HasRoom, texts_of};
ghost use Rattle.ds_monitor.specs.Inner.Sending.{leaving, shown, with_sent};
ghost use Rattle.ds_monitor.specs.Inner.Taking.{got, with_taken};
ghost use Rattle.ds_monitor.specs.Inner.Kept.{kept_of, kept_after};

use crate::monitor::Monitor;
use crate::sending::send;
use ds_dev::Bus;
use ds_procs::Standing;

/// The answer that says no: all ones.
pub(crate) const NOTHING: u32 = 0xffff_ffff;

impl Monitor {
    /// Writes a character on the console of the process: what the serial lines sent, where it is
    /// sent on the line of the process.
    pub fn put(&mut self, process: u32, byte: u8, bus: &mut Bus)
        requires above { 0 < process }
        requires within { process ≤ length self.old.seats.items }
        requires line { (process_of (kept_of self.old).state process).line < 4 }
        requires room { HasRoom self.old.consoles }
        requires on { bus.old.serial.master_scan ≡ true }
        ensures kept { kept_of self.new
            ≡ kept_after (λ (m : State). after_put m process byte) (kept_of self.old) }
        ensures bus { bus.new
            ≡ with_sent bus.old (process_of (kept_of self.old).state process).line }
        ensures shown { texts_of self.new.consoles ≡ shown (texts_of self.old.consoles)
            (leaving bus.old (process_of (kept_of self.old).state process).line byte) }
        ensures rest { self.new ≡ record self.old { consoles = self.new.consoles } }
    {
        let line = self.seats[process as usize - 1].line();
        let _sent = send(bus, line, byte);
        self.consoles.push_reserved(usize::from(line), byte);
    }

    /// Takes the oldest character of the line of the process, if there is one.
    fn take_character(&mut self, process: u32) -> Option<u8>
        requires above { 0 < process }
        requires within { process ≤ length self.old.seats.items }
        requires line { (process_of (kept_of self.old).state process).line
            < length self.old.queues.items }
        ensures value { result ≡ slice_get (queue_of (kept_of self.old).state process) 0 }
        ensures kept { kept_of self.new ≡ kept_after (with_taken process) (kept_of self.old) }
        ensures rest { self.new ≡ record self.old { queues = self.new.queues } }
    {
        let line = self.seats[process as usize - 1].line() as usize;
        self.queues[line].take()
    }

    /// What a call for a character answers: the oldest of the line of the process, which is taken, or
    /// all ones where there is none.
    #[inline(always)]
    pub fn take_answer(&mut self, process: u32) -> u32
        requires above { 0 < process }
        requires within { process ≤ length self.old.seats.items }
        requires line { (process_of (kept_of self.old).state process).line
            < length self.old.queues.items }
        ensures value { result ≡ got (queue_of (kept_of self.old).state process) }
        ensures kept { kept_of self.new ≡ kept_after (with_taken process) (kept_of self.old) }
        ensures rest { self.new ≡ record self.old { queues = self.new.queues } }
    {
        match self.take_character(process) {
            Some(byte) => u32::from(byte),
            None => NOTHING,
        }
    }

    /// The oldest character of the line of the process, or all ones where there is none.
    pub fn get(&mut self, process: u32)
        requires above { 0 < process }
        requires within { process ≤ length self.old.seats.items }
        requires line { (process_of (kept_of self.old).state process).line
            < length self.old.queues.items }
        ensures kept { kept_of self.new
            ≡ kept_after (λ (m : State). after_get m process (queue_of m process))
            (kept_of self.old) }
        ensures rest { self.new ≡ record self.old {
          seats = self.new.seats;
          queues = self.new.queues;
        } }
    {
        let answer = self.take_answer(process);
        self.answer(process, answer);
    }

    /// The process goes to the end of the ready list.
    pub fn yield_turn(&mut self, process: u32)
        requires above { 0 < process }
        requires within { process ≤ length self.old.seats.items }
        requires few { length self.old.seats.items ≤ 100 }
        ensures kept { kept_of self.new
            ≡ kept_after (λ (m : State). made_ready (answered m process 0) process)
            (kept_of self.old) }
        ensures rest { self.new ≡ record self.old {
          seats = self.new.seats;
          ready = self.new.ready;
        } }
    {
        self.answer(process, 0);
        self.make_ready(process);
    }

    /// Whether a character waits for the process.
    pub(crate) fn has_character(&self, process: u32) -> bool
        requires above { 0 < process }
        requires within { process ≤ length self.now.seats.items }
        requires line { (process_of (kept_of self.now).state process).line
            < length self.now.queues.items }
        ensures { result ≡ nat_lt 0 (length (queue_of (kept_of self.now).state process)) }
    {
        let line = self.seats[process as usize - 1].line() as usize;
        !self.queues[line].is_empty()
    }

    /// The process waits for a character, unless one is there.
    pub fn wait(&mut self, process: u32)
        requires above { 0 < process }
        requires within { process ≤ length self.old.seats.items }
        requires line { (process_of (kept_of self.old).state process).line
            < length self.old.queues.items }
        ensures kept { kept_of self.new ≡ kept_after (λ (m : State).
            after_wait (answered m process 0) process (queue_of m process)) (kept_of self.old) }
        ensures rest { self.new ≡ record self.old {
          seats = self.new.seats;
          ready = self.new.ready;
        } }
    {
        let waits = !self.has_character(process);
        self.answer(process, 0);
        if waits {
            self.make_unready(process, Standing::Waiting);
        }
    }

    /// The time, in ticks.
    pub fn tell_time(&mut self, process: u32)
        requires above { 0 < process }
        requires within { process ≤ length self.old.seats.items }
        requires early { self.old.time < 2 ^ 32 }
        ensures kept { kept_of self.new
            ≡ kept_after (λ (m : State). answered m process m.time) (kept_of self.old) }
        ensures rest { self.new ≡ record self.old { seats = self.new.seats } }
    {
        self.answer(process, self.time as u32);
    }

    /// The number of the process itself.
    pub fn tell_number(&mut self, process: u32)
        requires above { 0 < process }
        requires within { process ≤ length self.old.seats.items }
        ensures kept { kept_of self.new
            ≡ kept_after (λ (m : State). answered m process process) (kept_of self.old) }
        ensures rest { self.new ≡ record self.old { seats = self.new.seats } }
    {
        self.answer(process, process);
    }
}
