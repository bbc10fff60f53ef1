//! What an operator may do with what is granted, and what an end of a process leaves of it.
ghost use Rattle.std.specs.Prelude.{◌≡◌, ◌<◌, ◌≤◌, ◌-◌, true, length, slice_set, OnErr, OnOk};
ghost use Rattle.ds_policy.specs.Pages.{entries_of};
ghost use Rattle.ds_policy.specs.Grants.{is_some_right, grant, narrow, revoke, end_process};
ghost use Rattle.ds_grants.specs.State.{page_state};
ghost use Rattle.ds_grants.specs.Inner.State.{DoesCall, IsAsLarge, lives_in};
ghost use Rattle.ds_asid.specs.Inner.Spaces.{number_held, given_up};
ghost use Rattle.ds_grants.specs.Inner.Changes.{both_forgotten, family_places, all_forgotten, all_closed};
ghost use Rattle.ds_grants.specs.Inner.Represented.{IsLow, Keeps};

use crate::fault::GrantFault;
use crate::grants::Grants;
use crate::page_tables::close_all;
use ds_asid::Asids;
use ds_mem::Memory;
use ds_policy::{Grant, Right};
use ds_tables::Tables;
use ds_tlb::Lookaside;

impl Grants {
    /// Grants a process a page that the policy names, where the process has no entry or one with no
    /// right. Refused, nothing changes.
    pub fn grant<L: Lookaside>(
        &mut self,
        process: u32,
        addr: u32,
        page: u32,
        right: Right,
        give: bool,
        rule: u32,
        memory: &mut Memory,
        tables: &mut Tables,
        spaces: &mut Asids,
        tlb: &mut L,
    ) -> Result<(), GrantFault>
        requires named { page < self.old.named }
        requires right { is_some_right right ≡ true }
        ensures does { DoesCall (page_state self.old memory.old) (page_state self.new memory.new) result
            (grant (lives_in self.old)
            (page_state self.old memory.old) process addr page right give rule) }
        ensures low { IsLow memory.old memory.new }
        ensures same { IsAsLarge self.old self.new }
        ensures ended { self.new.ended ≡ self.old.ended }
        ensures refused { OnErr result ((self.new ≡ self.old) × (memory.new ≡ memory.old)
            × (tables.new ≡ tables.old) × (L.entries tlb.new ≡ L.entries tlb.old)) }
        ensures spaces { spaces.new ≡ spaces.old }
        ensures entries { OnOk result
            (L.entries tlb.new
            ≡ both_forgotten (L.entries tlb.old) addr (number_held spaces.old process)) }
        ensures keeps { Keeps
            (L.entries tlb.old) memory.old tables.old spaces.old self.old
            (L.entries tlb.new) memory.new tables.new spaces.new self.new }
        ensures random { L.random_place tlb.new ≡ L.random_place tlb.old }
    {
        self.may_be_granted(process, addr)?;
        let grant = Grant {
            right,
            page: Some(page),
            rule,
            give,
            giver: 0,
            parent: None,
            until: None,
        };
        self.put(process, addr, 0, grant, memory, tables, spaces, tlb);
        Ok(())
    }

    /// Leaves a process the right to read what it has at an address. Refused, nothing changes.
    pub fn narrow<L: Lookaside>(
        &mut self,
        process: u32,
        addr: u32,
        memory: &mut Memory,
        tables: &mut Tables,
        spaces: &mut Asids,
        tlb: &mut L,
    ) -> Result<(), GrantFault>
        ensures does { DoesCall (page_state self.old memory.old) (page_state self.new memory.new) result
            (narrow (lives_in self.old) (page_state self.old memory.old) process addr) }
        ensures low { IsLow memory.old memory.new }
        ensures same { IsAsLarge self.old self.new }
        ensures ended { self.new.ended ≡ self.old.ended }
        ensures refused { OnErr result ((self.new ≡ self.old) × (memory.new ≡ memory.old)
            × (tables.new ≡ tables.old) × (L.entries tlb.new ≡ L.entries tlb.old)) }
        ensures spaces { spaces.new ≡ spaces.old }
        ensures entries { OnOk result
            (L.entries tlb.new
            ≡ both_forgotten (L.entries tlb.old) addr (number_held spaces.old process)) }
        ensures keeps { Keeps
            (L.entries tlb.old) memory.old tables.old spaces.old self.old
            (L.entries tlb.new) memory.new tables.new spaces.new self.new }
        ensures random { L.random_place tlb.new ≡ L.random_place tlb.old }
    {
        let place = self.table.likely_place(process, addr);
        let grant = self.granted_to(process, addr, place)?;
        let narrowed = Grant {
            right: Right::Read,
            ..grant
        };
        self.put(process, addr, place, narrowed, memory, tables, spaces, tlb);
        Ok(())
    }

    /// Takes all right from what a process has at an address, and from all that descends from it, by
    /// this rule. Refused, nothing changes.
    pub fn revoke<L: Lookaside>(
        &mut self,
        process: u32,
        addr: u32,
        rule: u32,
        memory: &mut Memory,
        tables: &mut Tables,
        spaces: &mut Asids,
        tlb: &mut L,
    ) -> Result<(), GrantFault>
        ensures does { DoesCall (page_state self.old memory.old) (page_state self.new memory.new) result
            (revoke (lives_in self.old) (page_state self.old memory.old) process addr rule) }
        ensures low { IsLow memory.old memory.new }
        ensures same { IsAsLarge self.old self.new }
        ensures ended { self.new.ended ≡ self.old.ended }
        ensures refused { OnErr result ((self.new ≡ self.old) × (memory.new ≡ memory.old)
            × (tables.new ≡ tables.old) × (L.entries tlb.new ≡ L.entries tlb.old)) }
        ensures spaces { spaces.new ≡ spaces.old }
        ensures entries { OnOk result
            (L.entries tlb.new ≡ all_forgotten (L.entries tlb.old) spaces.old
            (family_places self.old.table process addr)) }
        ensures keeps { Keeps
            (L.entries tlb.old) memory.old tables.old spaces.old self.old
            (L.entries tlb.new) memory.new tables.new spaces.new self.new }
        ensures random { L.random_place tlb.new ≡ L.random_place tlb.old }
    {
        let place = self.table.likely_place(process, addr);
        self.granted_to(process, addr, place)?;
        self.forbid(process, addr, place, rule, memory, tables, spaces, tlb);
        Ok(())
    }

    /// Removes all entries of a process, which has ended from now on. What it gave stays, and what was
    /// shared from its entries has the parents of theirs that stay. It gives its address space number
    /// up, so what the buffer has of it answers to nobody.
    pub fn end_process<L: Lookaside>(
        &mut self,
        process: u32,
        memory: &mut Memory,
        tables: &mut Tables,
        spaces: &mut Asids,
        tlb: &mut L,
    )
        requires low { 0 < process }
        requires high { process ≤ length self.old.table }
        ensures does { page_state self.new memory.new
            ≡ end_process (page_state self.old memory.old) process }
        ensures memory { memory.new ≡ memory.old }
        ensures tables { tables.new
            ≡ all_closed tables.old process (entries_of self.old.table process) }
        ensures spaces { spaces.new ≡ given_up spaces.old process }
        ensures same { IsAsLarge self.old self.new }
        ensures ended { self.new.ended ≡ slice_set self.old.ended (process - 1) true }
        ensures entries { L.entries tlb.new ≡ L.entries tlb.old }
        ensures keeps { Keeps
            (L.entries tlb.old) memory.old tables.old spaces.old self.old
            (L.entries tlb.new) memory.new tables.new spaces.new self.new }
        ensures random { L.random_place tlb.new ≡ L.random_place tlb.old }
    {
        let entries = self.table.entries(process);
        self.holders.release_all(entries);
        close_all(tables, process, entries);
        spaces.give_up(process);
        self.table.clear(process);
        self.ended[process as usize - 1] = true;
    }
}
