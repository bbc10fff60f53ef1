//! What a process may do with what it was granted: give it, take back what it gave, and drop it.
ghost use Rattle.std.specs.Prelude.{◌≡◌, ◌≢◌, ℕ, ◌<◌, ◌≤◌, ◌^◌, List, true, false, length, if◌then◌else◌, Some, None, IsNone, OnErr, OnOk};
ghost use Rattle.ds_tlb.specs.declared.entry.Entry.{Entry};
ghost use Rattle.ds_policy.specs.declared.grant.Right.TheVariants.{Write};
ghost use Rattle.ds_policy.specs.Pages.{entries_of, entry_at, fresh};
ghost use Rattle.ds_policy.specs.Grants.{is_some_right, granted, shared_from, copied, give, take, drop_own, drop_by_command};
ghost use Rattle.ds_grants.specs.State.{page_state, pages_in};
ghost use Rattle.ds_grants.specs.Inner.State.{DoesCall, IsAsLarge, lives_in};
ghost use Rattle.ds_grants.specs.Copies.{AreRewritten};
ghost use Rattle.ds_grants.specs.Inner.Free.{HasPage, IsFirstFree};
ghost use Rattle.ds_grants.specs.Inner.Order.{is_no_page};
ghost use Rattle.ds_asid.specs.Inner.Spaces.{number_held};
ghost use Rattle.ds_grants.specs.Inner.Changes.{both_forgotten, family_places, all_forgotten};
ghost use Rattle.ds_grants.specs.Inner.Represented.{IsLow, HasRegion, Keeps};

use crate::fault::GrantFault;
use crate::grants::Grants;
use crate::rewords::reword_page;
use ds_asid::Asids;
use ds_mem::Memory;
use ds_policy::{EntryPlace, Grant, Right};
use ds_tables::Tables;
use ds_tlb::Lookaside;

impl Grants {
    /// Gives what a process has at an address to another process: by mode 1 the page for reading,
    /// by 2 for writing, by 3 a copy of it, which lies in the page's frame until one of the
    /// two is first stored to. What is shared has the caller's entry as its parent, and a copy has
    /// none. Refused, nothing changes.
    pub fn give<L: Lookaside>(
        &mut self,
        caller: u32,
        addr: u32,
        receiver: u32,
        to: u32,
        mode: u32,
        memory: &mut Memory,
        tables: &mut Tables,
        spaces: &mut Asids,
        tlb: &mut L,
    ) -> Result<(), GrantFault>
        requires low { 0 < caller }
        requires high { caller ≤ length self.old.table }
        ensures does { DoesCall (page_state self.old memory.old) (page_state self.new memory.new) result
            (give (lives_in self.old)
            (page_state self.old memory.old) caller addr receiver to mode) }
        ensures same { IsAsLarge self.old self.new }
        ensures ended { self.new.ended ≡ self.old.ended }
        ensures refused { OnErr result ((self.new ≡ self.old) × (memory.new ≡ memory.old)
            × (tables.new ≡ tables.old) × (L.entries tlb.new ≡ L.entries tlb.old)) }
        ensures spaces { spaces.new ≡ spaces.old }
        ensures low { IsLow memory.old memory.new }
        ensures entries { OnOk result ((between : List Entry)
            × AreRewritten (L.entries tlb.old) between
            × (mode ≢ 3 → between ≡ L.entries tlb.old)
            × (L.entries tlb.new
            ≡ both_forgotten between to (number_held spaces.old receiver))) }
        ensures keeps { Keeps
            (L.entries tlb.old) memory.old tables.old spaces.old self.old
            (L.entries tlb.new) memory.new tables.new spaces.new self.new }
        ensures random { L.random_place tlb.new ≡ L.random_place tlb.old }
    {
        let grant = self.may_give(caller, addr, receiver, to, mode)?;
        match mode {
            1 => self.share(
                grant,
                Right::Read,
                caller,
                addr,
                receiver,
                to,
                memory,
                tables,
                spaces,
                tlb,
            ),
            2 => self.share(
                grant,
                Right::Write,
                caller,
                addr,
                receiver,
                to,
                memory,
                tables,
                spaces,
                tlb,
            ),
            _ => self.give_copy(grant, caller, receiver, to, memory, tables, spaces, tlb),
        }
        Ok(())
    }

    /// Gives a page that a process has at an address, with this right.
    fn share<L: Lookaside>(
        &mut self,
        grant: Grant,
        right: Right,
        caller: u32,
        addr: u32,
        receiver: u32,
        to: u32,
        memory: &mut Memory,
        tables: &mut Tables,
        spaces: &mut Asids,
        tlb: &mut L,
    )
        requires low { 0 < receiver }
        requires high { receiver ≤ length self.old.table }
        requires room { length (entries_of self.old.table receiver) < 256 }
        requires free { IsNone (entry_at self.old.table receiver to) }
        requires page { is_no_page to ≡ false }
        requires region { HasRegion self.old receiver to }
        requires right { is_some_right right ≡ true }
        requires names { HasPage self.old grant }
        ensures state { page_state self.new memory.new
            ≡ granted (page_state self.old memory.old) receiver to
            (shared_from caller addr grant right) }
        ensures low { IsLow memory.old memory.new }
        ensures same { IsAsLarge self.old self.new }
        ensures ended { self.new.ended ≡ self.old.ended }
        ensures entries { L.entries tlb.new
            ≡ both_forgotten (L.entries tlb.old) to (number_held spaces.old receiver) }
        ensures spaces { spaces.new ≡ spaces.old }
        ensures keeps { Keeps
            (L.entries tlb.old) memory.old tables.old spaces.old self.old
            (L.entries tlb.new) memory.new tables.new spaces.new self.new }
        ensures random { L.random_place tlb.new ≡ L.random_place tlb.old }
    {
        let shared = Grant {
            right,
            giver: caller,
            parent: Some(EntryPlace {
                process: caller,
                address: addr,
            }),
            ..grant
        };
        self.put(receiver, to, 0, shared, memory, tables, spaces, tlb);
    }

    /// Gives a copy of a page that a process has. It lies in the page's frame, which nobody may write
    /// from now on, until one of the two gets a frame of its own.
    fn give_copy<L: Lookaside>(
        &mut self,
        grant: Grant,
        caller: u32,
        receiver: u32,
        to: u32,
        memory: &mut Memory,
        tables: &mut Tables,
        spaces: &mut Asids,
        tlb: &mut L,
    )
        requires low { 0 < receiver }
        requires high { receiver ≤ length self.old.table }
        requires room { length (entries_of self.old.table receiver) < 256 }
        requires free { IsNone (entry_at self.old.table receiver to) }
        requires page { is_no_page to ≡ false }
        requires region { HasRegion self.old receiver to }
        requires names { HasPage self.old grant }
        requires frame { (page : ℕ) × IsFirstFree self.old page }
        ensures state { page_state self.new memory.new
            ≡ granted (copied (page_state self.old memory.old) grant.page) receiver to
            (record grant {
              right = Write;
              page = Some
                  (fresh (pages_in self.old memory.old));
              giver = caller;
              parent = None;
              until = None;
            }) }
        ensures same { IsAsLarge self.old self.new }
        ensures ended { self.new.ended ≡ self.old.ended }
        ensures low { IsLow memory.old memory.new }
        ensures entries { (between : List Entry) × AreRewritten (L.entries tlb.old) between
            × (L.entries tlb.new
            ≡ both_forgotten between to (number_held spaces.old receiver)) }
        ensures spaces { spaces.new ≡ spaces.old }
        ensures keeps { Keeps
            (L.entries tlb.old) memory.old tables.old spaces.old self.old
            (L.entries tlb.new) memory.new tables.new spaces.new self.new }
        ensures random { L.random_place tlb.new ≡ L.random_place tlb.old }
    {
        if let (Some(page), Some(free)) = (grant.page, self.free_page()) {
            self.lay_copy(page, free);
            let place = self.place(page);
            reword_page(self.table(), page, place, memory, tables, spaces, tlb);
            let copy = Grant {
                right: Right::Write,
                page: Some(free),
                giver: caller,
                parent: None,
                until: None,
                ..grant
            };
            self.put(receiver, to, 0, copy, memory, tables, spaces, tlb);
        }
    }

    /// Takes back from a process what the caller gave it at an address, with all that descends from
    /// it. Refused, nothing changes.
    pub fn take<L: Lookaside>(
        &mut self,
        caller: u32,
        process: u32,
        addr: u32,
        memory: &mut Memory,
        tables: &mut Tables,
        spaces: &mut Asids,
        tlb: &mut L,
    ) -> Result<(), GrantFault>
        ensures does { DoesCall (page_state self.old memory.old) (page_state self.new memory.new) result
            (take (lives_in self.old) (page_state self.old memory.old) caller process addr) }
        ensures low { IsLow memory.old memory.new }
        ensures same { IsAsLarge self.old self.new }
        ensures ended { self.new.ended ≡ self.old.ended }
        ensures refused { OnErr result ((self.new ≡ self.old) × (memory.new ≡ memory.old)
            × (tables.new ≡ tables.old) × (L.entries tlb.new ≡ L.entries tlb.old)) }
        ensures spaces { spaces.new ≡ spaces.old }
        ensures entries { OnOk result
            (L.entries tlb.new ≡ all_forgotten (L.entries tlb.old) spaces.old
            (family_places self.old.table process addr)) }
        ensures keeps { Keeps
            (L.entries tlb.old) memory.old tables.old spaces.old self.old
            (L.entries tlb.new) memory.new tables.new spaces.new self.new }
        ensures random { L.random_place tlb.new ≡ L.random_place tlb.old }
    {
        let place = self.table.likely_place(process, addr);
        let grant = self.granted_to(process, addr, place)?;
        if grant.giver != caller {
            return Err(GrantFault::NotGiven);
        }
        self.cut(process, addr, place, memory, tables, spaces, tlb);
        Ok(())
    }

    /// Drops an entry of a process: by a command of the operator's also one whose right is none, or
    /// else by the process itself. What was shared from it has its parent from now on. Refused, nothing
    /// changes.
    pub fn drop_page<L: Lookaside>(
        &mut self,
        process: u32,
        addr: u32,
        by_command: bool,
        memory: &mut Memory,
        tables: &mut Tables,
        spaces: &mut Asids,
        tlb: &mut L,
    ) -> Result<(), GrantFault>
        requires process { by_command ≡ false → (0 < process) × (process ≤ length self.old.table) }
        ensures does { DoesCall (page_state self.old memory.old) (page_state self.new memory.new) result
            (if by_command
            then drop_by_command (lives_in self.old) (page_state self.old memory.old) process addr
            else drop_own (page_state self.old memory.old) process addr) }
        ensures low { IsLow memory.old memory.new }
        ensures same { IsAsLarge self.old self.new }
        ensures ended { self.new.ended ≡ self.old.ended }
        ensures refused { OnErr result ((self.new ≡ self.old) × (memory.new ≡ memory.old)
            × (tables.new ≡ tables.old) × (L.entries tlb.new ≡ L.entries tlb.old)) }
        ensures spaces { spaces.new ≡ spaces.old }
        ensures entries { OnOk result
            (L.entries tlb.new
            ≡ both_forgotten (L.entries tlb.old) addr (number_held spaces.old process)) }
        ensures keeps { Keeps
            (L.entries tlb.old) memory.old tables.old spaces.old self.old
            (L.entries tlb.new) memory.new tables.new spaces.new self.new }
        ensures random { L.random_place tlb.new ≡ L.random_place tlb.old }
    {
        let place = self.table.likely_place(process, addr);
        self.may_drop(process, addr, place, by_command)?;
        self.remove(process, addr, place, memory, tables, spaces, tlb);
        Ok(())
    }
}
