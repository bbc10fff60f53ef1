//! Argument checks of calls and commands, in the order of refusals.
ghost use Rattle.std.specs.Prelude.{◌≡◌, ℕ, ◌<◌, ◌≤◌, Bool, true, false, not, if◌then◌else◌, ◌==◌, ◌&&◌, nat_le, List, length, Result, Some, None, Ok, Err, is_some, IfOk, IfErr, OnOk, IsNone};
ghost use Rattle.ds_policy.specs.declared.grant.Right.{Right};
ghost use Rattle.ds_policy.specs.Pages.{entries_of, entry_at, count_live};
ghost use Rattle.ds_policy.specs.Grants.{PageState, ◌or_else◌, refused, has_right, is_some_right, not_page, no_right, table_full, fifth_region, may_not_give, given, granted, removed, give, grant, drop_own, drop_by_command};
ghost use Rattle.ds_grants.specs.State.{is_live, pages_in, page_state};
ghost use Rattle.ds_grants.specs.Inner.State.{grant_fault_number, lives_in};
ghost use Rattle.ds_grants.specs.Inner.Copies.{IsMarked};
ghost use Rattle.ds_grants.specs.Inner.Counts.{page_of};
ghost use Rattle.ds_grants.specs.Inner.Free.{HasPage, IsFirstFree};
ghost use Rattle.ds_grants.specs.Inner.Order.{is_no_page};
ghost use Rattle.ds_grants.specs.Inner.Represented.{HasRegion};

use crate::fault::GrantFault;
use crate::grants::Grants;
use crate::regions::is_in_fifth_region;
use ds_policy::{Grant, Right};

/// The first address that is the kernel's.
const KERNEL: u32 = 0x8000_0000;

/// How many entries a process can have.
const MOST: usize = 256;

/// Whether the address is no address of a user's page.
fn is_no_page(addr: u32) -> bool
    ensures { result ≡ is_no_page addr }
{
    addr % 4096 != 0 || addr >= KERNEL
}

/// Whether there is an entry, and it has a right.
fn has_right(grant: Option<Grant>) -> bool
    ensures { result ≡ has_right grant }
{
    match grant {
        Some(grant) => grant.right != Right::Nothing,
        None => false,
    }
}

/// Whether there is no such mode, or the grant may not be given on, or not for writing.
fn may_not_give(grant: Grant, mode: u32) -> bool
    ensures { result ≡ may_not_give grant mode }
{
    mode == 0 || mode >= 4 || !grant.give || (mode == 2 && grant.right != Right::Write)
}

impl Grants {
    /// What a process is granted at a page's address, with some right, which is looked for at a place
    /// first; whether it has ended isn't asked.
    pub(crate) fn granted_page(
        &self,
        process: u32,
        addr: u32,
        place: usize,
    ) -> Result<Grant, GrantFault>
        requires low { 0 < process }
        requires high { process ≤ length self.now.table }
        ensures err { IfErr result (λ r. (memory : List ℕ) (next : Result PageState ℕ)
            → (not_page addr or_else no_right (page_state self.now memory) process addr
            or_else next) ≡ Err (grant_fault_number r)) }
        ensures ok { OnOk result ((memory : List ℕ) (next : Result PageState ℕ)
            → (not_page addr or_else no_right (page_state self.now memory) process addr
            or_else next) ≡ next) }
        ensures there { IfOk result (λ g. entry_at self.now.table process addr ≡ Some g) }
        ensures right { IfOk result (λ g. is_some_right g.right ≡ true) }
        ensures names { IfOk result (λ g. HasPage self.now g) }
        ensures page { OnOk result (is_no_page addr ≡ false) }
    {
        if is_no_page(addr) {
            return Err(GrantFault::NotPage);
        }
        match self.table.entry_near(process, addr, place) {
            Some(grant) if grant.right != Right::Nothing => Ok(grant),
            _ => Err(GrantFault::NoGrant),
        }
    }

    /// What a process that lives is granted at a page's address, with some right, which is looked for at
    /// a place first.
    pub(crate) fn granted_to(
        &self,
        process: u32,
        addr: u32,
        place: usize,
    ) -> Result<Grant, GrantFault>
        ensures err { IfErr result (λ r. (memory : List ℕ) (next : Result PageState ℕ)
            → (refused 12 (not (lives_in self.now process)) or_else not_page addr
            or_else no_right (page_state self.now memory) process addr or_else next)
            ≡ Err (grant_fault_number r)) }
        ensures ok { OnOk result ((memory : List ℕ) (next : Result PageState ℕ)
            → (refused 12 (not (lives_in self.now process)) or_else not_page addr
            or_else no_right (page_state self.now memory) process addr or_else next) ≡ next) }
        ensures there { IfOk result (λ g. entry_at self.now.table process addr ≡ Some g) }
        ensures right { IfOk result (λ g. is_some_right g.right ≡ true) }
        ensures names { IfOk result (λ g. HasPage self.now g) }
        ensures page { OnOk result (is_no_page addr ≡ false) }
        ensures within { OnOk result ((0 < process) × (process ≤ length self.now.table)) }
    {
        if !self.lives(process) {
            return Err(GrantFault::NoProcess);
        }
        self.granted_page(process, addr, place)
    }

    /// Whether an operator may drop the entry of a process at an address, be its right none. It is looked
    /// for at a place first.
    pub(crate) fn may_be_dropped(
        &self,
        process: u32,
        addr: u32,
        place: usize,
    ) -> Result<(), GrantFault>
        ensures err { IfErr result (λ r. (memory : List ℕ)
            → drop_by_command (lives_in self.now) (page_state self.now memory) process addr
            ≡ Err (grant_fault_number r)) }
        ensures ok { OnOk result ((memory : List ℕ)
            → drop_by_command (lives_in self.now) (page_state self.now memory) process addr
            ≡ Ok (removed (page_state self.now memory) process addr)) }
        ensures there { OnOk result (is_some (entry_at self.now.table process addr) ≡ true) }
        ensures page { OnOk result (is_no_page addr ≡ false) }
        ensures within { OnOk result ((0 < process) × (process ≤ length self.now.table)) }
    {
        if !self.lives(process) {
            return Err(GrantFault::NoProcess);
        }
        if is_no_page(addr) {
            return Err(GrantFault::NotPage);
        }
        match self.table.entry_near(process, addr, place) {
            Some(_) => Ok(()),
            None => Err(GrantFault::NoGrant),
        }
    }

    /// Whether an operator, or else the process itself, may drop the entry of a process at an
    /// address, which is looked for at a place first.
    pub(crate) fn may_drop(
        &self,
        process: u32,
        addr: u32,
        place: usize,
        by_command: bool,
    ) -> Result<(), GrantFault>
        requires process { by_command ≡ false → (0 < process) × (process ≤ length self.now.table) }
        ensures err { IfErr result (λ r. (memory : List ℕ)
            → (if by_command
            then drop_by_command (lives_in self.now) (page_state self.now memory) process addr
            else drop_own (page_state self.now memory) process addr) ≡ Err (grant_fault_number r)) }
        ensures ok { OnOk result ((memory : List ℕ)
            → (if by_command
            then drop_by_command (lives_in self.now) (page_state self.now memory) process addr
            else drop_own (page_state self.now memory) process addr)
            ≡ Ok (removed (page_state self.now memory) process addr)) }
        ensures there { OnOk result (is_some (entry_at self.now.table process addr) ≡ true) }
        ensures page { OnOk result (is_no_page addr ≡ false) }
        ensures within { OnOk result ((0 < process) × (process ≤ length self.now.table)) }
    {
        if by_command {
            return self.may_be_dropped(process, addr, place);
        }
        self.granted_page(process, addr, place)?;
        Ok(())
    }

    /// Whether a process has room for an entry at an address: no more than 256 entries, in no more
    /// than four regions.
    pub(crate) fn has_room(&self, process: u32, addr: u32) -> Result<(), GrantFault>
        requires low { 0 < process }
        requires high { process ≤ length self.now.table }
        ensures err { IfErr result (λ r. (memory : List ℕ) (next : Result PageState ℕ)
            → (table_full (page_state self.now memory) process addr
            or_else fifth_region (page_state self.now memory) process addr or_else next)
            ≡ Err (grant_fault_number r)) }
        ensures ok { OnOk result ((memory : List ℕ) (next : Result PageState ℕ)
            → (table_full (page_state self.now memory) process addr
            or_else fifth_region (page_state self.now memory) process addr or_else next) ≡ next) }
        ensures room { OnOk result (IsNone (entry_at self.now.table process addr)
            → length (entries_of self.now.table process) < 256) }
        ensures region { OnOk result (HasRegion self.now process addr) }
    {
        let entries = self.table.entries(process);
        if entries.len() >= MOST && self.table.entry(process, addr).is_none() {
            return Err(GrantFault::TableFull);
        }
        if is_in_fifth_region(entries, addr) {
            return Err(GrantFault::Regions);
        }
        Ok(())
    }

    /// Whether an operator may grant a process a page at an address.
    pub(crate) fn may_be_granted(&self, process: u32, addr: u32) -> Result<(), GrantFault>
        ensures err { IfErr result
            (λ r. (memory : List ℕ) (page : ℕ) (right : Right) (may_give : Bool) (rule : ℕ)
            → grant (lives_in self.now)
            (page_state self.now memory) process addr page right may_give rule
            ≡ Err (grant_fault_number r)) }
        ensures ok { OnOk result
            ((memory : List ℕ) (page : ℕ) (right : Right) (may_give : Bool) (rule : ℕ)
            → grant (lives_in self.now)
            (page_state self.now memory) process addr page right may_give rule
            ≡ Ok (granted (page_state self.now memory) process addr
            (record {
              right = right;
              page = Some page;
              rule = rule;
              give = may_give;
              giver = 0;
              parent = None;
              until = None;
            }))) }
        ensures free { OnOk result (page_of (entry_at self.now.table process addr) ≡ None) }
        ensures named { OnOk result (self.now.named ≤ self.now.frames) }
        ensures marked { OnOk result ((page : ℕ) → is_live self.now page ≡ true
            → IsMarked self.now page) }
        ensures page { OnOk result (is_no_page addr ≡ false) }
        ensures within { OnOk result ((0 < process) × (process ≤ length self.now.table)) }
        ensures room { OnOk result (IsNone (entry_at self.now.table process addr)
            → length (entries_of self.now.table process) < 256) }
        ensures region { OnOk result (HasRegion self.now process addr) }
    {
        if !self.lives(process) {
            return Err(GrantFault::NoProcess);
        }
        if is_no_page(addr) {
            return Err(GrantFault::NotPage);
        }
        if has_right(self.table.entry(process, addr)) {
            return Err(GrantFault::Taken);
        }
        self.has_room(process, addr)
    }

    /// Whether giving by this mode needs a frame, and none is free.
    fn lacks_frame(&self, mode: u32) -> bool
        ensures value { (memory : List ℕ) → result
            ≡ ((mode == 3) && nat_le (length (pages_in self.now memory))
            (count_live (pages_in self.now memory))) }
        ensures frame { result ≡ false → mode ≡ 3 → (page : ℕ) × IsFirstFree self.now page }
    {
        mode == 3 && self.free_page().is_none()
    }

    /// What a process gives to another at an address there.
    pub(crate) fn may_give(
        &self,
        caller: u32,
        addr: u32,
        receiver: u32,
        to: u32,
        mode: u32,
    ) -> Result<Grant, GrantFault>
        requires low { 0 < caller }
        requires high { caller ≤ length self.now.table }
        ensures err { IfErr result (λ r. (memory : List ℕ)
            → give (lives_in self.now) (page_state self.now memory) caller addr receiver to mode
            ≡ Err (grant_fault_number r)) }
        ensures ok { IfOk result (λ g. (memory : List ℕ)
            → give (lives_in self.now) (page_state self.now memory) caller addr receiver to mode
            ≡ Ok (given (page_state self.now memory) caller addr g receiver to mode)) }
        ensures there { IfOk result (λ g. entry_at self.now.table caller addr ≡ Some g) }
        ensures right { IfOk result (λ g. is_some_right g.right ≡ true) }
        ensures names { IfOk result (λ g. HasPage self.now g) }
        ensures free { OnOk result (IsNone (entry_at self.now.table receiver to)) }
        ensures page { OnOk result (is_no_page to ≡ false) }
        ensures within { OnOk result ((0 < receiver) × (receiver ≤ length self.now.table)) }
        ensures room { OnOk result (length (entries_of self.now.table receiver) < 256) }
        ensures region { OnOk result (HasRegion self.now receiver to) }
        ensures mode { OnOk result ((1 ≤ mode) × (mode ≤ 3)) }
        ensures frame { OnOk result (mode ≡ 3 → (page : ℕ) × IsFirstFree self.now page) }
    {
        if !self.lives(receiver) {
            return Err(GrantFault::NoProcess);
        }
        if is_no_page(addr) || is_no_page(to) {
            return Err(GrantFault::NotPage);
        }
        let place = self.table.likely_place(caller, addr);
        let grant = self.granted_page(caller, addr, place)?;
        if may_not_give(grant, mode) {
            return Err(GrantFault::NotAllowed);
        }
        if self.table.entry(receiver, to).is_some() {
            return Err(GrantFault::Taken);
        }
        self.has_room(receiver, to)?;
        if self.lacks_frame(mode) {
            return Err(GrantFault::NoFrames);
        }
        Ok(grant)
    }
}
