//! Services that end a unit.
ghost use Rattle.std.specs.Prelude.{◌≡◌, ℕ, ◌+◌, ◌-◌, ◌<◌, ◌≤◌, ◌^◌, true, List, length, slice_set, None};
ghost use Rattle.ds_mem.specs.Memory.{frame_of};
ghost use Rattle.ds_procs.specs.Calls.{call_of};
ghost use Rattle.ds_log.specs.Inner.Length.{IsShortRule};
ghost use Rattle.ds_grants.specs.Inner.State.{IsAsLarge};
ghost use Rattle.ds_grants.specs.Inner.Represented.{Keeps};
ghost use Rattle.ds_pagemap.specs.Machine.{State, process_of};
ghost use Rattle.ds_pagemap.specs.Calls.{ended, served};
ghost use Rattle.ds_refinement.specs.Units.{ends_in_call, ends_in_stop};
ghost use Rattle.ds_refinement.specs.Pairs.{HasNoNewPairs};
ghost use Rattle.ds_refinement.specs.Inner.Services.{Serves};
ghost use Rattle.ds_monitor.specs.Inner.Kept.{kept_of};
ghost use Rattle.ds_monitor.specs.Inner.Room.{HasLogRoom, HasRoom};
ghost use Rattle.ds_monitor.specs.Inner.Ended.{IsAlive, marks_of, ended_after};
ghost use Rattle.ds_monitor.specs.Inner.Orderly.{IsOrderly};
ghost use Rattle.ds_monitor.specs.Inner.Sending.{bus_after};

use crate::calls::NOTHING;
use crate::monitor::Monitor;
use ds_dev::Bus;
use ds_log::{Denied, Line};
use ds_mem::Memory;
use ds_policy::Rule;
use ds_procs::{Call, Standing};
use ds_tlb::Lookaside;
use ds_word::wrapping_sum;

impl Monitor {
    /// No load of a process in its seat is late.
    fn has_no_late_load(&self, process: u32)
        requires above { 0 < process }
        requires within { process ≤ length self.now.seats.items }
        ensures { (process_of (kept_of self.now).state process).registers.late ≡ None }
    {
        self.seats[process as usize - 1].has_no_late_load();
    }

    /// The unit at an address ends in a denial or a fault of the instruction at `pc`: the process
    /// is parked where its unit began, and the log tells why.
    pub fn stop_unit(
        &mut self,
        process: u32,
        unit: u32,
        pc: u32,
        kind: Denied,
        address: u32,
        rule: Rule,
        code: u32,
    )
        requires above { 0 < process }
        requires within { process ≤ length self.old.seats.items }
        requires early { self.old.time < 1000000000 }
        requires count { self.old.lines < 2 ^ 63 }
        requires room { HasLogRoom 1 self.old }
        requires rule { IsShortRule rule }
        requires code { code < 10 ^ 5 }
        ensures serves { (memory : List ℕ) → Serves (ends_in_stop process unit pc
            (record { kind = kind; address = address; rule = rule; code = code }))
            (kept_of self.old) memory (kept_of self.new) memory }
        ensures lines { self.new.lines ≡ self.old.lines + 1 }
        ensures orderly { IsOrderly (kept_of self.old) → IsAlive (kept_of self.old).state process
            → IsOrderly (kept_of self.new) }
        ensures room { (n : ℕ) → HasLogRoom (n + 1) self.old → HasLogRoom n self.new }
        ensures rest { self.new ≡ record self.old {
          seats = self.new.seats;
          ready = self.new.ready;
          log = self.new.log;
          lines = self.new.lines;
          time = self.new.time;
          owed = self.new.owed;
        } }
    {
        self.has_no_late_load(process);
        self.make_unready(process, Standing::Parked);
        self.go_to(process, unit);
        self.log_line(&Line::Denial {
            time: self.time,
            process,
            pc,
            kind,
            addr: address,
            rule,
            code,
        });
        self.end_turn(Some(process), 1);
    }

    /// The process ends: its entries go, and it never runs again.
    pub fn exit<L: Lookaside>(&mut self, process: u32, memory: &mut Memory, tlb: &mut L)
        requires above { 0 < process }
        requires within { process ≤ length self.old.seats.items }
        requires table { length self.old.grants.table ≡ length self.old.seats.items }
        ensures serves { Serves (λ (m : State). ended m process)
            (kept_of self.old) memory.old (kept_of self.new) memory.new }
        ensures memory { memory.new ≡ memory.old }
        ensures keeps { Keeps
            (L.entries tlb.old) memory.old self.old.tables self.old.spaces self.old.grants
            (L.entries tlb.new) memory.new self.new.tables self.new.spaces self.new.grants }
        ensures pairs { HasNoNewPairs (L.entries tlb.old) (L.entries tlb.new) }
        ensures random { L.random_place tlb.new ≡ L.random_place tlb.old }
        ensures ended { self.new.grants.ended
            ≡ slice_set self.old.grants.ended (process - 1) true }
        ensures same { IsAsLarge self.old.grants self.new.grants }
        ensures rest { self.new ≡ record self.old {
          grants = self.new.grants;
          tables = self.new.tables;
          spaces = self.new.spaces;
          seats = self.new.seats;
          ready = self.new.ready;
        } }
    {
        self.make_unready(process, Standing::Ended);
        self.grants
            .end_process(process, memory, &mut self.tables, &mut self.spaces, tlb);
    }

    /// Serves a call of a process that stands after it; it is at `pc`.
    fn serve<L: Lookaside>(&mut self, process: u32, pc: u32, call: Call, bus: &mut Bus, tlb: &mut L)
        requires above { 0 < process }
        requires within { process ≤ length self.old.seats.items }
        requires few { length self.old.seats.items ≤ 100 }
        requires line { (process_of (kept_of self.old).state process).line < 4 }
        requires queues { length self.old.queues.items ≡ 4 }
        requires table { length self.old.grants.table ≡ length self.old.seats.items }
        requires marks { marks_of (kept_of self.old).state ≡ self.old.grants.ended }
        requires early { self.old.time < 1000000000 }
        requires count { self.old.lines < 2 ^ 63 }
        requires room { HasRoom 1 self.old }
        requires on { bus.old.serial.master_scan ≡ true }
        ensures serves { Serves (λ (m : State). served m process pc call)
            (kept_of self.old) bus.old.memory (kept_of self.new) bus.new.memory }
        ensures bus { bus.new ≡ record (bus_after call
            (process_of (kept_of self.old).state process).line bus.old) {
              memory = bus.new.memory;
            } }
        ensures size { length bus.new.memory ≡ length bus.old.memory }
        ensures elsewhere { (f : ℕ) → f < 2
            → frame_of bus.new.memory f ≡ frame_of bus.old.memory f }
        ensures keeps { Keeps
            (L.entries tlb.old) bus.old.memory self.old.tables self.old.spaces self.old.grants
            (L.entries tlb.new) bus.new.memory self.new.tables self.new.spaces self.new.grants }
        ensures pairs { HasNoNewPairs (L.entries tlb.old) (L.entries tlb.new) }
        ensures random { L.random_place tlb.new ≡ L.random_place tlb.old }
        ensures ended { self.new.grants.ended
            ≡ ended_after call process self.old.grants.ended }
        ensures same { IsAsLarge self.old.grants self.new.grants }
        ensures lines { self.new.lines ≤ self.old.lines + 1 }
        ensures room { (n : ℕ) → HasLogRoom (n + 1) self.old → HasLogRoom n self.new }
        ensures rest { self.new ≡ record self.old {
          grants = self.new.grants;
          tables = self.new.tables;
          spaces = self.new.spaces;
          seats = self.new.seats;
          ready = self.new.ready;
          queues = self.new.queues;
          consoles = self.new.consoles;
          log = self.new.log;
          lines = self.new.lines;
        } }
    {
        match call {
            Call::Exit => self.exit(process, bus.memory(), tlb),
            Call::Put { byte } => {
                self.put(process, byte, bus);
                self.answer(process, 0);
            }
            Call::Get => self.get(process),
            Call::Yield => self.yield_turn(process),
            Call::Time => self.tell_time(process),
            Call::Own => self.tell_number(process),
            Call::Give {
                address,
                receiver,
                to,
                mode,
            } => self.give(process, pc, address, receiver, to, mode, bus.memory(), tlb),
            Call::Take {
                process: holder,
                address,
            } => self.take_back(process, holder, address, bus.memory(), tlb),
            Call::Drop { address } => self.drop_own(process, address, bus.memory(), tlb),
            Call::Wait => self.wait(process),
            Call::Unknown => self.answer(process, NOTHING),
        }
    }

    /// The call that a process asks for.
    fn asked(&self, process: u32) -> Call
        requires above { 0 < process }
        requires within { process ≤ length self.now.seats.items }
        ensures value { result
            ≡ call_of (process_of (kept_of self.now).state process).registers.general }
    {
        self.seats[process as usize - 1].call()
    }

    /// The call of a process at an address: the process goes on after it and is served, and its
    /// turn is done. A refused give is written to the log.
    pub fn call<L: Lookaside>(&mut self, process: u32, pc: u32, bus: &mut Bus, tlb: &mut L)
        requires above { 0 < process }
        requires within { process ≤ length self.old.seats.items }
        requires few { length self.old.seats.items ≤ 100 }
        requires line { (process_of (kept_of self.old).state process).line < 4 }
        requires queues { length self.old.queues.items ≡ 4 }
        requires table { length self.old.grants.table ≡ length self.old.seats.items }
        requires marks { marks_of (kept_of self.old).state ≡ self.old.grants.ended }
        requires early { self.old.time < 1000000000 }
        requires count { self.old.lines < 2 ^ 63 }
        requires room { HasRoom 1 self.old }
        requires on { bus.old.serial.master_scan ≡ true }
        ensures serves { Serves (ends_in_call process pc)
            (kept_of self.old) bus.old.memory (kept_of self.new) bus.new.memory }
        ensures orderly { IsOrderly (kept_of self.old) → IsAlive (kept_of self.old).state process
            → IsOrderly (kept_of self.new) }
        ensures bus { bus.new ≡ record (bus_after
            (call_of (process_of (kept_of self.old).state process).registers.general)
            (process_of (kept_of self.old).state process).line bus.old) {
              memory = bus.new.memory;
            } }
        ensures size { length bus.new.memory ≡ length bus.old.memory }
        ensures elsewhere { (f : ℕ) → f < 2
            → frame_of bus.new.memory f ≡ frame_of bus.old.memory f }
        ensures keeps { Keeps
            (L.entries tlb.old) bus.old.memory self.old.tables self.old.spaces self.old.grants
            (L.entries tlb.new) bus.new.memory self.new.tables self.new.spaces self.new.grants }
        ensures pairs { HasNoNewPairs (L.entries tlb.old) (L.entries tlb.new) }
        ensures same { IsAsLarge self.old.grants self.new.grants }
        ensures random { L.random_place tlb.new ≡ L.random_place tlb.old }
        ensures lines { self.new.lines ≤ self.old.lines + 1 }
        ensures room { (n : ℕ) → HasLogRoom (n + 1) self.old → HasLogRoom n self.new }
        ensures rest { self.new ≡ record self.old {
          grants = self.new.grants;
          tables = self.new.tables;
          spaces = self.new.spaces;
          seats = self.new.seats;
          ready = self.new.ready;
          queues = self.new.queues;
          consoles = self.new.consoles;
          log = self.new.log;
          lines = self.new.lines;
          time = self.new.time;
          owed = self.new.owed;
        } }
    {
        self.has_no_late_load(process);
        self.go_to(process, wrapping_sum(pc, 4));
        let call = self.asked(process);
        self.serve(process, pc, call, bus, tlb);
        self.end_turn(Some(process), 1);
    }
}
