//! The entries of the permission table as text.
ghost use Rattle.std.specs.Prelude.{◌≡◌, ◌<◌, ◌+◌, ◌++◌, OnOk, flat_map, length};
ghost use Rattle.ds_station.specs.Reads.{memory_held};
ghost use Rattle.ds_debug.specs.Sights.{sight_held};
ghost use Rattle.ds_debug.specs.Tables.{entries_text, entry_line, grant_words, page_text, table_text, table_text_of};

use ds_policy::{Entry, Grant};
use ds_station::Station;
use ds_text::sheet::{push_decimal, push_hex};
use ds_tlb::Lookaside;
use std::alloc::AllocError;

/// Adds a page by its number, where there is one.
fn push_page(text: &mut Vec<u8>, page: Option<u32>) -> Result<(), AllocError>
    ensures { OnOk result (text.new.items ≡ text.old.items ++ page_text page) }
{
    match page {
        Some(number) => {
            text.extend_from_slice(b" page ")?;
            push_decimal(text, u64::from(number))
        }
        None => Ok(()),
    }
}

/// Adds what was granted: what may be done, with which page, by which rule, and who gave it.
fn push_grant(text: &mut Vec<u8>, grant: Grant) -> Result<(), AllocError>
    ensures { OnOk result (text.new.items ≡ text.old.items ++ grant_words grant) }
{
    text.extend_from_slice(grant.right.word().as_bytes())?;
    push_page(text, grant.page)?;
    text.extend_from_slice(b" r")?;
    push_decimal(text, u64::from(grant.rule))?;
    text.extend_from_slice(b" by ")?;
    push_decimal(text, u64::from(grant.giver))
}

/// Adds an entry of a process: where it is, and what was granted there.
fn push_entry(text: &mut Vec<u8>, process: u32, entry: Entry) -> Result<(), AllocError>
    ensures { OnOk result (text.new.items ≡ text.old.items ++ entry_line process entry) }
{
    push_decimal(text, u64::from(process))?;
    text.extend_from_slice(b" ")?;
    push_hex(text, entry.address)?;
    text.extend_from_slice(b" ")?;
    push_grant(text, entry.grant)?;
    text.extend_from_slice(b"\n")
}

/// Adds the entries of a process.
fn push_entries(text: &mut Vec<u8>, process: u32, entries: &[Entry]) -> Result<(), AllocError>
    ensures { OnOk result (text.new.items ≡ text.old.items
        ++ flat_map (entry_line process) entries.now) }
{
    for entry in entries {
        push_entry(text, process, *entry)?;
    }
    Ok(())
}

/// Adds the entries of the process after so many others.
fn push_listed<L: Lookaside>(
    text: &mut Vec<u8>,
    station: &Station<L>,
    index: u32,
) -> Result<(), AllocError>
    requires { index < length station.now.held.kept.state.processes }
    ensures { OnOk result (text.new.items ≡ text.old.items
        ++ entries_text (memory_held station.now.held).table index) }
{
    let _few = station.processes();
    push_entries(text, index + 1, station.entries(index + 1))
}

/// Adds those of one process, by its number, or that there is none.
pub(crate) fn push_table_of<L: Lookaside>(
    text: &mut Vec<u8>,
    station: &Station<L>,
    process: u64,
) -> Result<(), AllocError>
    ensures { OnOk result (text.new.items ≡ text.old.items
        ++ table_text_of process (sight_held station.now.held)) }
{
    if process == 0 || process > u64::from(station.processes()) {
        return text.extend_from_slice(b"there is no such process\n");
    }
    push_listed(text, station, process as u32 - 1)
}

/// Adds those of all processes, a line each.
pub(crate) fn push_table<L: Lookaside>(
    text: &mut Vec<u8>,
    station: &Station<L>,
) -> Result<(), AllocError>
    ensures { OnOk result (text.new.items ≡ text.old.items
        ++ table_text (sight_held station.now.held)) }
{
    for index in 0..station.processes() {
        push_listed(text, station, index)?;
    }
    Ok(())
}
