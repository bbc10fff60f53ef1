//! The permission table, where no call on grants shows it.
ghost use Rattle.std.specs.Prelude.{◌≡◌, ◌<◌, ◌≤◌, ◌%◌, ◌^◌, length, not, None};
ghost use Rattle.ds_policy.specs.Pages.{entry_at};
ghost use Rattle.ds_policy.specs.Grants.{has_right};

use ds_policy::{EntryPlace, Grant, Right, Table, forbidden_by};
use std::alloc::Global;

/// Whether a process may do nothing at an address.
pub fn is_free(table: &Table, process: u32, address: u32) -> bool
    requires low { 0 < process }
    requires high { process ≤ length table.now }
    ensures { result ≡ not (has_right (entry_at table.now process address)) }
{
    match table.entry(process, address) {
        Some(grant) => grant.right == Right::Nothing,
        None => true,
    }
}

/// Sets an entry of process 1 that was shared from no other, where it may do nothing: whether that was
/// so, and it was taken.
pub fn is_set(table: &mut Table, address: u32, grant: Grant) -> bool
    requires processes { 1 ≤ length table.old }
    requires page { address % 4096 ≡ 0 }
    requires user { address < 2 ^ 31 }
    requires parent { grant.parent ≡ None }
    ensures { length table.new ≡ length table.old }
{
    is_free(table, 1, address) && table.set(1, address, grant).is_ok()
}

/// Where process 1 has its page.
const TOP: EntryPlace = EntryPlace {
    process: 1,
    address: 0x1000,
};

/// Where process 2 has a share of it.
const SHARE: EntryPlace = EntryPlace {
    process: 2,
    address: 0x2000,
};

/// What is granted for writing page 0 by rule 1.
fn granted(giver: u32, parent: Option<EntryPlace>) -> Grant
    ensures { result.parent ≡ parent }
{
    Grant {
        right: Right::Write,
        page: Some(0),
        rule: 1,
        give: true,
        giver,
        parent,
        until: None,
    }
}

/// Shares what stands at one place with another: whether it could.
fn is_shared(table: &mut Table, from: EntryPlace, to: EntryPlace) -> bool
    requires first { 0 < from.process }
    requires last { from.process ≤ length table.old }
    requires low { 0 < to.process }
    requires high { to.process ≤ length table.old }
    requires page { to.address % 4096 ≡ 0 }
    requires user { to.address < 2 ^ 31 }
    ensures { length table.new ≡ length table.old }
{
    if from == to || is_free(table, from.process, from.address) {
        return false;
    }
    let shared = granted(from.process, Some(from));
    is_free(table, to.process, to.address) && table.set(to.process, to.address, shared).is_ok()
}

/// Forbids an entry with what was shared from it, and then it alone: whether its rule alone changes.
fn is_forbidden_anew(table: &mut Table) -> bool
    requires { length table.old ≡ 2 }
{
    let set = is_set(table, 0x1000, granted(0, None));
    let shared = is_shared(table, TOP, SHARE);
    let forbidden = table.forbid(1, 0x1000, 1001).is_ok();
    let again = table.forbid(1, 0x1000, 1002).is_ok();
    let changed = table.entry(1, 0x1000) == Some(forbidden_by(1002));
    let left = table.entry(2, 0x2000) == Some(forbidden_by(1001));
    set && shared && forbidden && again && changed && left
}

/// Whether an entry of a table is forbidden anew so.
fn forbids_anew(alloc: Global) -> bool {
    match Table::empty(alloc, 2) {
        Ok(mut table) => is_forbidden_anew(&mut table),
        Err(_) => false,
    }
}

#[test]
fn nothing_descends_from_an_entry_that_was_forbidden(rt: HostRuntime) {
    assert!(rt; forbids_anew(rt.alloc()));
}
