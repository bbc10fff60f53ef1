//! Calls about what is granted to a process: it gives it, takes back what it gave, and drops it.
ghost use Rattle.std.specs.Prelude.{◌≡◌, ℕ, ◌+◌, ◌<◌, ◌≤◌, ◌^◌, List, length, OnOk, IfErr, Err};
ghost use Rattle.ds_policy.specs.Pages.{entry_at, page_address};
ghost use Rattle.ds_procs.specs.declared.call.Call.TheVariants as call;
ghost use Rattle.ds_grants.specs.Inner.State.{IsAsLarge, grant_fault_number};
ghost use Rattle.ds_grants.specs.Inner.Represented.{IsLow, Keeps};
ghost use Rattle.ds_pagemap.specs.Machine.{State};
ghost use Rattle.ds_pagemap.specs.Calls.{rule_number_of, or_denied, served};
ghost use Rattle.ds_refinement.specs.Pairs.{HasNoNewPairs};
ghost use Rattle.ds_refinement.specs.Inner.Services.{Serves};
ghost use Rattle.ds_monitor.specs.Inner.Kept.{kept_of};
ghost use Rattle.ds_monitor.specs.Inner.Ended.{marks_of};
ghost use Rattle.ds_monitor.specs.Inner.Room.{HasLogRoom};

use crate::monitor::Monitor;
use ds_grants::GrantFault;
use ds_log::{Denied, Line};
use ds_mem::Memory;
use ds_policy::Rule;
use ds_tlb::Lookaside;

/// The code of a refused give in the log.
const REFUSED_GIVE: u32 = 8;

/// What a call about grants is answered: 0, or the refusal's number.
fn answer_of(done: Result<(), GrantFault>) -> u32
    ensures done { OnOk done (result ≡ 0) }
    ensures refused { IfErr done (λ fault. result ≡ grant_fault_number fault) }
{
    match done {
        Ok(()) => 0,
        Err(fault) => fault.number(),
    }
}

impl Monitor {
    /// The rule of what is granted to a process on the page of an address, 0 where nothing is.
    fn rule_at(&self, process: u32, address: u32) -> u32
        requires above { 0 < process }
        requires within { process ≤ length self.now.grants.table }
        ensures { result
            ≡ rule_number_of (entry_at self.now.grants.table process (page_address address)) }
    {
        match self.grants.table().entry(process, address - address % 4096) {
            Some(grant) => grant.rule,
            None => 0,
        }
    }

    /// A give of a process at an address is refused by a number, which is its answer, and the log
    /// tells it.
    fn refuse_give(&mut self, process: u32, pc: u32, address: u32, number: u32)
        requires above { 0 < process }
        requires within { process ≤ length self.old.seats.items }
        requires table { length self.old.grants.table ≡ length self.old.seats.items }
        requires early { self.old.time < 1000000000 }
        requires count { self.old.lines < 2 ^ 63 }
        requires room { HasLogRoom 1 self.old }
        ensures serves { (memory : List ℕ)
            → Serves (λ (m : State). or_denied m process pc address (Err number))
            (kept_of self.old) memory (kept_of self.new) memory }
        ensures lines { self.new.lines ≡ self.old.lines + 1 }
        ensures room { (n : ℕ) → HasLogRoom (n + 1) self.old → HasLogRoom n self.new }
        ensures rest { self.new ≡ record self.old {
          seats = self.new.seats;
          log = self.new.log;
          lines = self.new.lines;
        } }
    {
        let rule = self.rule_at(process, address);
        self.answer(process, number);
        self.log_line(&Line::Denial {
            time: self.time,
            process,
            pc,
            kind: Denied::Give,
            addr: address,
            rule: Rule::Number(rule),
            code: REFUSED_GIVE,
        });
    }

    /// The process gives what it has at an address to another: by mode 1 the page for reading, by 2
    /// for writing, by 3 a copy, which lies where its page does until one of them is stored to. It
    /// stands after its call, which is at `pc`. A refused give is logged.
    pub fn give<L: Lookaside>(
        &mut self,
        process: u32,
        pc: u32,
        address: u32,
        receiver: u32,
        to: u32,
        mode: u32,
        memory: &mut Memory,
        tlb: &mut L,
    )
        requires above { 0 < process }
        requires within { process ≤ length self.old.seats.items }
        requires table { length self.old.grants.table ≡ length self.old.seats.items }
        requires marks { marks_of (kept_of self.old).state ≡ self.old.grants.ended }
        requires early { self.old.time < 1000000000 }
        requires count { self.old.lines < 2 ^ 63 }
        requires room { HasLogRoom 1 self.old }
        ensures serves { Serves
            (λ (m : State). served m process pc (call.Give address receiver to mode))
            (kept_of self.old) memory.old (kept_of self.new) memory.new }
        ensures low { IsLow memory.old memory.new }
        ensures same { IsAsLarge self.old.grants self.new.grants }
        ensures keeps { Keeps
            (L.entries tlb.old) memory.old self.old.tables self.old.spaces self.old.grants
            (L.entries tlb.new) memory.new self.new.tables self.new.spaces self.new.grants }
        ensures pairs { HasNoNewPairs (L.entries tlb.old) (L.entries tlb.new) }
        ensures random { L.random_place tlb.new ≡ L.random_place tlb.old }
        ensures ended { self.new.grants.ended ≡ self.old.grants.ended }
        ensures lines { self.new.lines ≤ self.old.lines + 1 }
        ensures room { (n : ℕ) → HasLogRoom (n + 1) self.old → HasLogRoom n self.new }
        ensures rest { self.new ≡ record self.old {
          grants = self.new.grants;
          tables = self.new.tables;
          seats = self.new.seats;
          log = self.new.log;
          lines = self.new.lines;
        } }
    {
        let done = self.grants.give(
            process,
            address,
            receiver,
            to,
            mode,
            memory,
            &mut self.tables,
            &mut self.spaces,
            tlb,
        );
        match done {
            Ok(()) => self.answer(process, 0),
            Err(fault) => self.refuse_give(process, pc, address, fault.number()),
        }
    }

    /// The process takes back what it gave another at an address.
    pub fn take_back<L: Lookaside>(
        &mut self,
        process: u32,
        holder: u32,
        address: u32,
        memory: &mut Memory,
        tlb: &mut L,
    )
        requires above { 0 < process }
        requires within { process ≤ length self.old.seats.items }
        requires marks { marks_of (kept_of self.old).state ≡ self.old.grants.ended }
        ensures serves { (pc : ℕ) → Serves
            (λ (m : State). served m process pc (call.Take holder address))
            (kept_of self.old) memory.old (kept_of self.new) memory.new }
        ensures low { IsLow memory.old memory.new }
        ensures same { IsAsLarge self.old.grants self.new.grants }
        ensures keeps { Keeps
            (L.entries tlb.old) memory.old self.old.tables self.old.spaces self.old.grants
            (L.entries tlb.new) memory.new self.new.tables self.new.spaces self.new.grants }
        ensures pairs { HasNoNewPairs (L.entries tlb.old) (L.entries tlb.new) }
        ensures random { L.random_place tlb.new ≡ L.random_place tlb.old }
        ensures ended { self.new.grants.ended ≡ self.old.grants.ended }
        ensures rest { self.new ≡ record self.old {
          grants = self.new.grants;
          tables = self.new.tables;
          seats = self.new.seats;
        } }
    {
        let done = self.grants.take(
            process,
            holder,
            address,
            memory,
            &mut self.tables,
            &mut self.spaces,
            tlb,
        );
        self.answer(process, answer_of(done));
    }

    /// The process drops what it has at an address.
    pub fn drop_own<L: Lookaside>(
        &mut self,
        process: u32,
        address: u32,
        memory: &mut Memory,
        tlb: &mut L,
    )
        requires above { 0 < process }
        requires within { process ≤ length self.old.seats.items }
        requires table { length self.old.grants.table ≡ length self.old.seats.items }
        ensures serves { (pc : ℕ) → Serves
            (λ (m : State). served m process pc (call.Drop address))
            (kept_of self.old) memory.old (kept_of self.new) memory.new }
        ensures low { IsLow memory.old memory.new }
        ensures same { IsAsLarge self.old.grants self.new.grants }
        ensures keeps { Keeps
            (L.entries tlb.old) memory.old self.old.tables self.old.spaces self.old.grants
            (L.entries tlb.new) memory.new self.new.tables self.new.spaces self.new.grants }
        ensures pairs { HasNoNewPairs (L.entries tlb.old) (L.entries tlb.new) }
        ensures random { L.random_place tlb.new ≡ L.random_place tlb.old }
        ensures ended { self.new.grants.ended ≡ self.old.grants.ended }
        ensures rest { self.new ≡ record self.old {
          grants = self.new.grants;
          tables = self.new.tables;
          seats = self.new.seats;
        } }
    {
        let dropped = self.grants.drop_page(
            process,
            address,
            false,
            memory,
            &mut self.tables,
            &mut self.spaces,
            tlb,
        );
        self.answer(process, answer_of(dropped));
    }
}
