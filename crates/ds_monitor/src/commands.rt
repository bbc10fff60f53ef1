//! What an operator's commands do, at a boundary.
ghost use Rattle.std.specs.Prelude.{◌≡◌, ℕ, ◌+◌, ◌<◌, ◌≤◌, ◌^◌, List, length};
ghost use Rattle.ds_policy.specs.declared.command.Command.{Command};
ghost use Rattle.ds_grants.specs.Inner.Represented.{IsLow, Keeps};
ghost use Rattle.ds_grants.specs.Inner.State.{IsAsLarge};
ghost use Rattle.ds_pagemap.specs.Machine.{State, lives};
ghost use Rattle.ds_pagemap.specs.Calls.{after_command};
ghost use Rattle.ds_refinement.specs.Pairs.{HasNoNewPairs};
ghost use Rattle.ds_refinement.specs.Inner.Services.{Serves};
ghost use Rattle.ds_monitor.specs.Inner.Kept.{kept_of};
ghost use Rattle.ds_monitor.specs.Inner.Commands.{Obeys, commanded, commands_by, with_refusal};
ghost use Rattle.ds_monitor.specs.Inner.Ended.{marks_of};
ghost use Rattle.ds_policy.specs.InputFacts.{IsGoodCommand};
ghost use Rattle.ds_monitor.specs.Inner.Orderly.{IsOrderly};
ghost use Rattle.ds_monitor.specs.Inner.Room.{HasLogRoom};

use crate::monitor::Monitor;
use ds_dev::Bus;
use ds_grants::GrantFault;
use ds_log::Line;
use ds_mem::Memory;
use ds_policy::{Command, TimedCommand};
use ds_procs::Standing;
use ds_tlb::Lookaside;

/// The rule of an operator's command is its number plus this one.
const COMMAND_RULES: u32 = 1000;

impl Monitor {
    /// Whether there is such a process, and it has not ended.
    fn lives(&self, process: u32) -> bool
        ensures { result ≡ lives (kept_of self.now).state process }
    {
        if process == 0 || process as usize > self.seats.len() {
            return false;
        }
        !matches!(self.seats[process as usize - 1].standing(), Standing::Ended)
    }

    /// A parked process becomes ready.
    fn resume(&mut self, process: u32) -> Result<(), GrantFault>
        requires few { length self.old.seats.items ≤ 100 }
        ensures obeys { (n : ℕ) (memory : List ℕ) → Obeys n (Command.Resume process)
            (kept_of self.old) memory (kept_of self.new) memory result }
        ensures marks { marks_of (kept_of self.new).state ≡ marks_of (kept_of self.old).state }
        ensures rest { self.new ≡ record self.old {
          seats = self.new.seats;
          ready = self.new.ready;
        } }
    {
        if !self.lives(process) {
            return Err(GrantFault::NoProcess);
        }
        match self.seats[process as usize - 1].standing() {
            Standing::Parked => {
                self.make_ready(process);
                Ok(())
            }
            Standing::Ready | Standing::Waiting | Standing::Ended => Err(GrantFault::NotAllowed),
        }
    }

    /// A process is ended.
    fn stop<L: Lookaside>(
        &mut self,
        process: u32,
        memory: &mut Memory,
        tlb: &mut L,
    ) -> Result<(), GrantFault>
        requires table { length self.old.grants.table ≡ length self.old.seats.items }
        requires marks { marks_of (kept_of self.old).state ≡ self.old.grants.ended }
        ensures obeys { (n : ℕ) → Obeys n (Command.Stop process)
            (kept_of self.old) memory.old (kept_of self.new) memory.new result }
        ensures marks { marks_of (kept_of self.new).state ≡ self.new.grants.ended }
        ensures same { IsAsLarge self.old.grants self.new.grants }
        ensures memory { memory.new ≡ memory.old }
        ensures keeps { Keeps
            (L.entries tlb.old) memory.old self.old.tables self.old.spaces self.old.grants
            (L.entries tlb.new) memory.new self.new.tables self.new.spaces self.new.grants }
        ensures pairs { HasNoNewPairs (L.entries tlb.old) (L.entries tlb.new) }
        ensures random { L.random_place tlb.new ≡ L.random_place tlb.old }
        ensures rest { self.new ≡ record self.old {
          grants = self.new.grants;
          tables = self.new.tables;
          spaces = self.new.spaces;
          seats = self.new.seats;
          ready = self.new.ready;
        } }
    {
        if !self.lives(process) {
            return Err(GrantFault::NoProcess);
        }
        self.exit(process, memory, tlb);
        Ok(())
    }

    /// Does a command, or answers why it is to be refused.
    fn obey<L: Lookaside>(
        &mut self,
        number: u32,
        command: Command,
        memory: &mut Memory,
        tlb: &mut L,
    ) -> Result<(), GrantFault>
        requires few { length self.old.seats.items ≤ 100 }
        requires table { length self.old.grants.table ≡ length self.old.seats.items }
        requires marks { marks_of (kept_of self.old).state ≡ self.old.grants.ended }
        requires good { IsGoodCommand self.old.grants.named command }
        requires number { number ≤ 4096 }
        ensures obeys { Obeys number command
            (kept_of self.old) memory.old (kept_of self.new) memory.new result }
        ensures marks { marks_of (kept_of self.new).state ≡ self.new.grants.ended }
        ensures same { IsAsLarge self.old.grants self.new.grants }
        ensures low { IsLow memory.old memory.new }
        ensures keeps { Keeps
            (L.entries tlb.old) memory.old self.old.tables self.old.spaces self.old.grants
            (L.entries tlb.new) memory.new self.new.tables self.new.spaces self.new.grants }
        ensures pairs { HasNoNewPairs (L.entries tlb.old) (L.entries tlb.new) }
        ensures random { L.random_place tlb.new ≡ L.random_place tlb.old }
        ensures rest { self.new ≡ record self.old {
          grants = self.new.grants;
          tables = self.new.tables;
          spaces = self.new.spaces;
          seats = self.new.seats;
          ready = self.new.ready;
        } }
    {
        let rule = COMMAND_RULES + number;
        let grants = &mut self.grants;
        let tables = &mut self.tables;
        let spaces = &mut self.spaces;
        match command {
            Command::Grant {
                process,
                address,
                page,
                right,
                give,
            } => {
                grants.grant(
                    process, address, page, right, give, rule, memory, tables, spaces, tlb,
                )
            }
            Command::Narrow { process, address } => grants.narrow(
                process, address, memory, tables, spaces, tlb,
            ),
            Command::Revoke { process, address } => {
                grants.revoke(process, address, rule, memory, tables, spaces, tlb)
            }
            Command::Drop { process, address } => {
                grants.drop_page(process, address, true, memory, tables, spaces, tlb)
            }
            Command::Resume { process } => self.resume(process),
            Command::Stop { process } => self.stop(process, memory, tlb),
        }
    }

    /// The log tells that a command was refused.
    fn refuse(&mut self, number: u32, fault: GrantFault)
        requires early { self.old.time < 2 ^ 62 }
        requires count { self.old.lines < 2 ^ 63 }
        requires room { HasLogRoom 1 self.old }
        ensures kept { kept_of self.new
            ≡ with_refusal number fault (kept_of self.old) }
        ensures room { (n : ℕ) → HasLogRoom (n + 1) self.old → HasLogRoom n self.new }
        ensures rest { self.new ≡ record self.old { log = self.new.log; lines = self.new.lines } }
    {
        self.log_line(&Line::Refused {
            time: self.time,
            command: number,
            number: fault.number(),
        });
    }

    /// Does one command, or tells in the log why it is refused.
    fn command<L: Lookaside>(&mut self, order: TimedCommand, memory: &mut Memory, tlb: &mut L)
        requires orderly { IsOrderly (kept_of self.old) }
        requires good { IsGoodCommand self.old.grants.named order.command }
        requires number { order.number ≤ 4096 }
        requires early { self.old.time < 2 ^ 62 }
        requires count { self.old.lines < 2 ^ 63 }
        requires room { HasLogRoom 1 self.old }
        ensures serves { Serves (λ (m : State). after_command m order.number order.command)
            (kept_of self.old) memory.old (kept_of self.new) memory.new }
        ensures orderly { IsOrderly (kept_of self.new) }
        ensures named { self.new.grants.named ≡ self.old.grants.named }
        ensures lines { self.new.lines ≤ self.old.lines + 1 }
        ensures room { (n : ℕ) → HasLogRoom (n + 1) self.old → HasLogRoom n self.new }
        ensures low { IsLow memory.old memory.new }
        ensures keeps { Keeps
            (L.entries tlb.old) memory.old self.old.tables self.old.spaces self.old.grants
            (L.entries tlb.new) memory.new self.new.tables self.new.spaces self.new.grants }
        ensures pairs { HasNoNewPairs (L.entries tlb.old) (L.entries tlb.new) }
        ensures random { L.random_place tlb.new ≡ L.random_place tlb.old }
        ensures rest { self.new ≡ record self.old {
          grants = self.new.grants;
          tables = self.new.tables;
          spaces = self.new.spaces;
          seats = self.new.seats;
          ready = self.new.ready;
          log = self.new.log;
          lines = self.new.lines;
        } }
    {
        if let Err(fault) = self.obey(order.number, order.command, memory, tlb) {
            self.refuse(order.number, fault);
        }
    }

    /// Does the commands that are due, in their order. Where none is due, the bus lends no memory.
    pub fn commands<L: Lookaside>(&mut self, bus: &mut Bus, tlb: &mut L)
        requires orderly { IsOrderly (kept_of self.old) }
        requires early { self.old.time < 2 ^ 62 }
        requires count { self.old.lines + length self.old.due.commands < 2 ^ 63 }
        requires room { HasLogRoom (commands_by self.old.time self.old.due.commands) self.old }
        ensures serves { Serves (commanded self.old.time)
            (kept_of self.old) bus.old.memory (kept_of self.new) bus.new.memory }
        ensures orderly { IsOrderly (kept_of self.new) }
        ensures named { self.new.grants.named ≡ self.old.grants.named }
        ensures count { self.new.lines + length self.new.due.commands
            ≤ self.old.lines + length self.old.due.commands }
        ensures low { IsLow bus.old.memory bus.new.memory }
        ensures keeps { Keeps
            (L.entries tlb.old) bus.old.memory self.old.tables self.old.spaces self.old.grants
            (L.entries tlb.new) bus.new.memory self.new.tables self.new.spaces self.new.grants }
        ensures pairs { HasNoNewPairs (L.entries tlb.old) (L.entries tlb.new) }
        ensures random { L.random_place tlb.new ≡ L.random_place tlb.old }
        ensures bus { bus.new ≡ record bus.old { memory = bus.new.memory } }
        ensures rest { self.new ≡ record self.old {
          grants = self.new.grants;
          tables = self.new.tables;
          spaces = self.new.spaces;
          seats = self.new.seats;
          ready = self.new.ready;
          log = self.new.log;
          lines = self.new.lines;
          due = record self.old.due { commands = self.new.due.commands };
        } }
    {
        while let Some(order) = self.due.take_command(self.time) {
            self.command(order, bus.memory(), tlb);
        }
    }
}
