//! How a service ends the unit of the process that runs: that leaves for its seat, something is done
//! to what is kept, and who is first comes in.
ghost use Rattle.std.specs.Prelude.{◌≡◌, ℕ, ◌+◌, ◌<◌, ◌≤◌, ◌^◌, length, Some, None, [], true, false};
ghost use Rattle.ds_log.specs.Inner.Length.{IsShortRule};
ghost use Rattle.ds_mem.specs.Memory.{frame_of};
ghost use Rattle.ds_cp0.specs.System.{is_user};
ghost use Rattle.ds_procs.specs.Calls.{call_of};
ghost use Rattle.ds_grants.specs.Represented.{IsRepresented};
ghost use Rattle.ds_grants.specs.Inner.Represented.{Keeps};
ghost use Rattle.ds_grants.specs.Sound.{NamesPages};
ghost use Rattle.ds_pagemap.specs.Machine.{State, process_of, first};
ghost use Rattle.ds_pagemap_laws.specs.Lawful.{IsLawful};
ghost use Rattle.ds_refinement.specs.Inner.Held.{whole};
ghost use Rattle.ds_refinement.specs.Pairs.{HasNoNewPairs};
ghost use Rattle.ds_refinement.specs.Units.{ends_in_stop, ends_in_call};
ghost use Rattle.ds_refinement.specs.Handling.{IsWhole};
ghost use Rattle.ds_refinement.specs.Inner.Services.{EntersBy, Serves, with_none_spent};
ghost use Rattle.ds_kernel.specs.Inner.Parts.{own_of, with_counts_of};
ghost use Rattle.ds_refinement.specs.Told.{own_in};
ghost use Rattle.ds_monitor.specs.Inner.Kept.{kept_of};
ghost use Rattle.ds_monitor.specs.Inner.Ended.{IsAlive};
ghost use Rattle.ds_monitor.specs.Inner.Orderly as monitor;
ghost use Rattle.ds_monitor.specs.Inner.Room.{HasLogRoom, HasRoom};
ghost use Rattle.ds_monitor.specs.Inner.Sending.{bus_after};
ghost use Rattle.ds_kernel.specs.Inner.Good.{IsBusy};
ghost use Rattle.ds_kernel.specs.Inner.Ended.{HasEnded};
ghost use Rattle.ds_kernel.specs.Inner.Seats.{AreAnswered};

use crate::parts::Parts;
use ds_log::Denied;
use ds_policy::Rule;
use ds_refinement::Step;
use ds_tlb::Lookaside;

impl<L: Lookaside> Parts<L> {
    /// While a unit goes on its process is first, no boundary is owed, and there is room for what it
    /// may write.
    pub(crate) fn show_busy_unit(&self, process: u32)
        requires busy { IsBusy process self.now }
        ensures above { 0 < process }
        ensures within { process ≤ length self.now.monitor.seats.items }
        ensures table { process ≤ length self.now.monitor.grants.table }
        ensures memory { length self.now.bus.memory ≡ 2 ^ 23 }
        ensures on { self.now.bus.serial.master_scan ≡ true }
        ensures first { first self.now.monitor.ready ≡ Some process }
        ensures unowed { self.now.monitor.owed ≡ None }
        ensures early { self.now.monitor.time < 1000000000 }
        ensures count { self.now.monitor.lines < 2 ^ 63 }
        ensures room { HasRoom 1 self.now.monitor }
        ensures orderly { monitor.IsOrderly (kept_of self.now.monitor) }
        ensures alive { IsAlive (kept_of self.now.monitor).state process }
    {
        let _spent = self.spent;
    }

    /// The process that runs has one of the four lines.
    pub(crate) fn show_line_below_4(&self, process: u32)
        requires lawful { IsLawful (whole (kept_of self.now.monitor) [] []) }
        ensures { (process_of (kept_of self.now.monitor).state process).line < 4 }
    {
        let _spent = self.spent;
    }

    /// What is kept has the sizes that a call asks for.
    fn show_sizes_for_a_call(&self, process: u32)
        requires lawful { IsLawful (whole (kept_of self.now.monitor) [] []) }
        ensures few { length self.now.monitor.seats.items ≤ 100 }
        ensures line { (process_of (kept_of self.now.monitor).state process).line < 4 }
        ensures queues { length self.now.monitor.queues.items ≡ 4 }
        ensures table { length self.now.monitor.grants.table
            ≡ length self.now.monitor.seats.items }
    {
        let _spent = self.spent;
    }

    /// Who is first comes in, with nothing counted. Of a caller nothing but register 2 differs from what
    /// the processor has.
    #[inline(always)]
    pub(crate) fn end_unit(&mut self, caller: Option<u32>)
        requires slots { L.SLOTS ≡ 64 }
        requires wired { L.WIRED ≡ 8 }
        requires lawful { IsLawful (whole (kept_of self.old.monitor) [] []) }
        requires answered { (p : ℕ) → caller ≡ Some p → AreAnswered self.old.core.registers
            (process_of (kept_of self.old.monitor).state p).registers }
        ensures enters { EntersBy self.new.monitor.ready self.new.core (kept_of self.new.monitor) }
        ensures represented { IsRepresented self.old.core.entries self.old.bus.memory
            self.old.monitor.tables self.old.monitor.spaces self.old.monitor.grants
            → IsRepresented self.new.core.entries self.new.bus.memory
            self.new.monitor.tables self.new.monitor.spaces
            self.new.monitor.grants }
        ensures pairs { HasNoNewPairs self.old.core.entries self.new.core.entries }
        ensures context { self.new.core.system.context ≡ self.old.core.system.context }
        ensures pages { NamesPages self.old.monitor.grants }
        ensures random { self.new.core.random ≡ self.old.core.random }
        ensures own { own_of self.new ≡ with_none_spent (own_of self.old) }
        ensures whole { IsWhole self.new.core }
        ensures rest { self.new ≡ record (with_counts_of self.new self.old) {
          core = self.new.core;
          monitor = record self.old.monitor { spaces = self.new.monitor.spaces };
        } }
    {
        let _table = self.monitor.grants.table();
        self.count_none();
        self.enter(caller);
        self.show_whole_processor();
    }

    /// The unit ends in a denial or a fault of its instruction: the process is parked where its unit
    /// began, and the log tells why.
    #[inline(never)]
    pub fn stop(&mut self, process: u32, kind: Denied, address: u32, rule: Rule, code: u32) -> Step
        requires slots { L.SLOTS ≡ 64 }
        requires wired { L.WIRED ≡ 8 }
        requires busy { IsBusy process self.old }
        requires kernel { is_user self.old.core.system ≡ false }
        requires rule { IsShortRule rule }
        requires code { code < 10 ^ 5 }
        ensures step { result ≡ Step.Unit }
        ensures ends { HasEnded (ends_in_stop process self.old.core.system.epc
            (own_in self.old.core.system)
            (record { kind = kind; address = address; rule = rule; code = code }))
            self.old self.new }
    {
        self.show_busy_unit(process);
        let unit = self.unit_address();
        let pc = self.own_address();
        self.leave(process, unit);
        self.monitor
            .stop_unit(process, unit, pc, kind, address, rule, code);
        self.end_unit(None);
        Step::Unit
    }

    /// Serves the call of the process in its seat, which stood at an address.
    #[inline(always)]
    fn serve_call(&mut self, process: u32, unit: u32)
        requires above { 0 < process }
        requires within { process ≤ length self.old.monitor.seats.items }
        requires early { self.old.monitor.time < 1000000000 }
        requires count { self.old.monitor.lines < 2 ^ 63 }
        requires room { HasRoom 1 self.old.monitor }
        requires orderly { monitor.IsOrderly (kept_of self.old.monitor) }
        requires alive { IsAlive (kept_of self.old.monitor).state process }
        requires on { self.old.bus.serial.master_scan ≡ true }
        ensures serves { Serves (ends_in_call process unit)
            (kept_of self.old.monitor) self.old.bus.memory
            (kept_of self.new.monitor) self.new.bus.memory }
        ensures bus { self.new.bus ≡ record (bus_after
            (call_of (process_of (kept_of self.old.monitor).state process).registers.general)
            (process_of (kept_of self.old.monitor).state process).line self.old.bus) {
              memory = self.new.bus.memory;
            } }
        ensures size { length self.new.bus.memory ≡ length self.old.bus.memory }
        ensures elsewhere { (f : ℕ) → f < 2
            → frame_of self.new.bus.memory f ≡ frame_of self.old.bus.memory f }
        ensures orderly { monitor.IsOrderly (kept_of self.new.monitor) }
        ensures lines { self.new.monitor.lines ≤ self.old.monitor.lines + 1 }
        ensures log { (n : ℕ) → HasLogRoom (n + 1) self.old.monitor
            → HasLogRoom n self.new.monitor }
        ensures keeps { Keeps
            self.old.core.entries self.old.bus.memory self.old.monitor.tables
            self.old.monitor.spaces self.old.monitor.grants
            self.new.core.entries self.new.bus.memory self.new.monitor.tables
            self.new.monitor.spaces self.new.monitor.grants }
        ensures pairs { HasNoNewPairs self.old.core.entries self.new.core.entries }
        ensures random { self.new.core.random ≡ self.old.core.random }
        ensures rest { self.new ≡ record self.old {
          core = record self.old.core { entries = self.new.core.entries };
          bus = self.new.bus;
          monitor = record self.old.monitor {
            grants = self.new.monitor.grants;
            tables = self.new.monitor.tables;
            spaces = self.new.monitor.spaces;
            seats = self.new.monitor.seats;
            ready = self.new.monitor.ready;
            queues = self.new.monitor.queues;
            consoles = self.new.monitor.consoles;
            log = self.new.monitor.log;
            lines = self.new.monitor.lines;
            time = self.new.monitor.time;
            owed = self.new.monitor.owed;
          };
        } }
    {
        self.show_sizes_for_a_call(process);
        self.monitor
            .call(process, unit, &mut self.bus, &mut self.core.tlb);
    }

    /// The unit is a call, and is done: the process goes on after it.
    #[inline(always)]
    pub fn call(&mut self, process: u32) -> Step
        requires slots { L.SLOTS ≡ 64 }
        requires wired { L.WIRED ≡ 8 }
        requires busy { IsBusy process self.old }
        requires kernel { is_user self.old.core.system ≡ false }
        ensures step { result ≡ Step.Unit }
        ensures ends { HasEnded (ends_in_call process self.old.core.system.epc)
            self.old self.new }
    {
        self.show_busy_unit(process);
        self.show_register_zero();
        let unit = self.unit_address();
        self.leave(process, unit);
        self.serve_call(process, unit);
        self.end_unit(Some(process));
        Step::Unit
    }
}
