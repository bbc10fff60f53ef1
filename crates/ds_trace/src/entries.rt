//! The lines of entries of the permission table.
ghost use Rattle.std.specs.Prelude.{◌≡◌, ◌++◌, [], OnOk, IfOk, codes, decimal};
ghost use Rattle.std.specs.String.{string_bytes};
ghost use Rattle.ds_policy.specs.Pages.{entries_of, found};
ghost use Rattle.ds_trace.specs.Boundaries.{entry_place_text};
ghost use Rattle.ds_trace.specs.Entries.{changed_text, entry_line, give_text, giver_text, gone_line, gone_text, grant_text, is_still, new_line, new_text, page_text, parent_text, right_text, same_grant, same_leave, same_place, same_right, tables_text, until_text};

use crate::boundaries::push_place;
use crate::changes::same_first;
use crate::lines::push_newline;
use ds_policy::{Entry, EntryPlace, Grant, Right};
use ds_station::Station;
use ds_text::string::push_decimal;
use ds_tlb::Lookaside;
use ds_words::View;
use std::alloc::{AllocError, Global};
use std::marker::Model;

/// No process has a number above this one.
const MOST_PROCESSES: u32 = 100;

/// The entries of a process, as they stood.
#[derive(Drop)]
pub(crate) struct Row {
    entries: Vec<Entry>,
}

impl Model for Row {
    ghost use Rattle.std.specs.Prelude.{List};
    ghost use Rattle.ds_policy.specs.declared.grant.Entry.{Entry};

    ghost Value = { List Entry };

    ghost view = { λ r. r.entries.items };
}

impl Row {
    /// A copy of entries.
    fn of(alloc: Global, entries: &[Entry]) -> Result<Row, AllocError>
        ensures { IfOk result (λ r. r ≡ entries.now) }
    {
        let mut copy = Vec::new(alloc);
        copy.extend_from_slice(entries)?;
        Ok(Row { entries: copy })
    }
}

/// Adds the entries of each process of a station.
pub(crate) fn push_rows<L: Lookaside>(
    alloc: Global,
    rows: &mut Vec<Row>,
    station: &Station<L>,
) -> Result<(), AllocError>
    ensures { OnOk result
        (rows.new.items ≡ rows.old.items ++ station.now.held.kept.grants.table) }
{
    for process in 1..station.processes() + 1 {
        rows.push(Row::of(alloc, station.entries(process))?)?;
    }
    Ok(())
}

/// The entries of a process, by its number from 1; of none there are none.
fn row_of(rows: &[Row], process: u32) -> &[Entry]
    ensures { result.now ≡ entries_of rows.now process }
{
    match rows.get(process.saturating_sub(1) as usize) {
        Some(row) => row.entries.as_slice(),
        None => &[],
    }
}

/// What is granted at an address.
pub(crate) fn grant_at(entries: &[Entry], address: u32) -> Option<Grant>
    ensures { result ≡ found entries.now address }
{
    for entry in entries {
        if entry.address == address {
            return Some(entry.grant);
        }
    }
    None
}

/// Adds what may be done, after a blank.
#[tactic(auto, unfolding(crate::specs::Entries::right_text))]
fn push_right(line: &mut String, right: Right) -> Result<(), AllocError>
    ensures { OnOk result (string_bytes line.new ≡ string_bytes line.old ++ right_text right) }
{
    line.push(' ')?;
    line.push_str(right.word())
}

/// Adds a page, by its number from 1.
fn push_page(line: &mut String, page: Option<u32>) -> Result<(), AllocError>
    ensures { OnOk result (string_bytes line.new ≡ string_bytes line.old ++ page_text page) }
{
    match page {
        Some(page) => {
            line.push_str(" page ")?;
            push_decimal(line, u64::from(page) + 1)
        }
        None => Ok(()),
    }
}

/// Adds when a right ends, if it does.
fn push_until(line: &mut String, until: Option<u32>) -> Result<(), AllocError>
    ensures { OnOk result (string_bytes line.new ≡ string_bytes line.old ++ until_text until) }
{
    match until {
        Some(time) => {
            line.push_str(" until ")?;
            push_decimal(line, u64::from(time))
        }
        None => Ok(()),
    }
}

/// Whether the process may give it on.
fn give_text(give: bool) -> &'static str
    ensures { result.now ≡ give_text give }
{
    if give { " give" } else { "" }
}

/// Adds the process that gave an entry, if one did.
fn push_giver(line: &mut String, giver: u32) -> Result<(), AllocError>
    ensures { OnOk result (string_bytes line.new ≡ string_bytes line.old ++ giver_text giver) }
{
    if giver == 0 {
        return Ok(());
    }
    line.push_str(" giver ")?;
    push_decimal(line, u64::from(giver))
}

/// Adds the entry that one was shared from, if it was.
fn push_parent(line: &mut String, parent: Option<EntryPlace>) -> Result<(), AllocError>
    ensures { OnOk result (string_bytes line.new ≡ string_bytes line.old ++ parent_text parent) }
{
    match parent {
        Some(place) => {
            line.push_str(" parent")?;
            push_place(line, place.process, place.address)
        }
        None => Ok(()),
    }
}

/// Adds all that is granted.
fn push_grant(line: &mut String, grant: &Grant) -> Result<(), AllocError>
    ensures { OnOk result
        (string_bytes line.new ≡ string_bytes line.old ++ grant_text grant.now) }
{
    push_right(line, grant.right)?;
    push_page(line, grant.page)?;
    line.push_str(" rule ")?;
    push_decimal(line, u64::from(grant.rule))?;
    push_until(line, grant.until)?;
    line.push_str(give_text(grant.give))?;
    push_giver(line, grant.giver)?;
    push_parent(line, grant.parent)
}

/// Adds from when on an entry is told of, and where it stands.
fn push_front(line: &mut String, time: u64, process: u32, address: u32) -> Result<(), AllocError>
    ensures { OnOk result (string_bytes line.new ≡ string_bytes line.old
        ++ (decimal time ++ codes " entry" ++ entry_place_text process address)) }
{
    push_decimal(line, time)?;
    line.push_str(" entry")?;
    push_place(line, process, address)
}

/// Whether two rights are one.
fn same_right(before: Right, after: Right) -> bool
    ensures { result ≡ same_right before after }
{
    before == after
}

/// Whether both may be given on, or neither.
fn same_leave(before: bool, after: bool) -> bool
    ensures { result ≡ same_leave before after }
{
    if before { after } else { !after }
}

/// Whether two parents are one, or both are none.
fn same_place(before: Option<EntryPlace>, after: Option<EntryPlace>) -> bool
    ensures { result ≡ same_place before after }
{
    match before {
        Some(before) => match after {
            Some(after) => before.process == after.process && before.address == after.address,
            None => false,
        },
        None => match after {
            Some(_) => false,
            None => true,
        },
    }
}

/// Whether the same is granted.
fn same_grant(before: &Grant, after: &Grant) -> bool
    ensures { result ≡ same_grant before.now after.now }
{
    same_right(before.right, after.right)
        && same_first(before.page, after.page)
        && before.rule == after.rule
        && same_leave(before.give, after.give)
        && before.giver == after.giver
        && same_place(before.parent, after.parent)
        && same_first(before.until, after.until)
}

/// Whether what was granted before, if anything was, is granted still.
fn is_still(before: Option<Grant>, after: &Grant) -> bool
    ensures { result ≡ is_still before after.now }
{
    match before {
        Some(before) => same_grant(&before, after),
        None => false,
    }
}

/// Adds the line of an entry that is new or otherwise than before.
fn push_new(
    line: &mut String,
    time: u64,
    process: u32,
    before: Option<Grant>,
    entry: &Entry,
) -> Result<(), AllocError>
    ensures { OnOk result (string_bytes line.new ≡ string_bytes line.old
        ++ new_line time process before entry.now) }
{
    if is_still(before, &entry.grant) {
        return Ok(());
    }
    push_front(line, time, process, entry.address)?;
    push_grant(line, &entry.grant)?;
    push_newline(line)
}

/// Adds the line of an entry that has gone, by what is granted there now.
fn push_gone(
    line: &mut String,
    time: u64,
    process: u32,
    after: Option<Grant>,
    entry: &Entry,
) -> Result<(), AllocError>
    ensures { OnOk result (string_bytes line.new ≡ string_bytes line.old
        ++ gone_line time process after entry.now) }
{
    if after.is_some() {
        return Ok(());
    }
    push_front(line, time, process, entry.address)?;
    line.push_str(" gone\n")
}

/// Adds the lines of entries that have gone, by all that the process has now.
fn push_all_gone(
    line: &mut String,
    time: u64,
    process: u32,
    before: &[Entry],
    after: &[Entry],
) -> Result<(), AllocError>
    ensures { OnOk result (string_bytes line.new ≡ string_bytes line.old
        ++ gone_text time process after.now before.now) }
{
    for entry in before {
        push_gone(line, time, process, grant_at(after, entry.address), entry)?;
    }
    Ok(())
}

/// Adds the lines of entries that are new or otherwise, by all that the process had before.
fn push_all_new(
    line: &mut String,
    time: u64,
    process: u32,
    before: &[Entry],
    after: &[Entry],
) -> Result<(), AllocError>
    ensures { OnOk result (string_bytes line.new ≡ string_bytes line.old
        ++ new_text time process before.now after.now) }
{
    for entry in after {
        push_new(line, time, process, grant_at(before, entry.address), entry)?;
    }
    Ok(())
}

/// Adds what has changed of the entries of a process, if that is told of.
fn push_changed(
    line: &mut String,
    view: &View<'_>,
    time: u64,
    process: u32,
    before: &[Entry],
    after: &[Entry],
) -> Result<(), AllocError>
    ensures { OnOk result (string_bytes line.new ≡ string_bytes line.old
        ++ changed_text view.now time process before.now after.now) }
{
    if !view.shows_process(process) {
        return Ok(());
    }
    push_all_gone(line, time, process, before, after)?;
    push_all_new(line, time, process, before, after)
}

/// Adds the lines of all entries of a table.
#[tactic(auto, unfolding(crate::specs::Entries::tables_text))]
pub(crate) fn push_table(
    line: &mut String,
    view: &View<'_>,
    time: u64,
    rows: &[Row],
) -> Result<(), AllocError>
    ensures { OnOk result (string_bytes line.new ≡ string_bytes line.old
        ++ tables_text view.now time [] rows.now) }
{
    for process in 1..MOST_PROCESSES + 1 {
        push_changed(line, view, time, process, &[], row_of(rows, process))?;
    }
    Ok(())
}

/// Adds what has changed from a table to that of a station.
#[tactic(auto, unfolding(crate::specs::Entries::tables_text))]
pub(crate) fn push_tables<L: Lookaside>(
    line: &mut String,
    view: &View<'_>,
    time: u64,
    rows: &[Row],
    station: &Station<L>,
) -> Result<(), AllocError>
    ensures { OnOk result (string_bytes line.new ≡ string_bytes line.old
        ++ tables_text view.now time rows.now station.now.held.kept.grants.table) }
{
    for process in 1..MOST_PROCESSES + 1 {
        push_changed(
            line,
            view,
            time,
            process,
            row_of(rows, process),
            station.entries(process),
        )?;
    }
    Ok(())
}
