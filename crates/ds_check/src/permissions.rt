//! The permission table at the start, as text.
ghost use Rattle.std.specs.Prelude.{◌≡◌, ◌≤◌, ◌<◌, ◌^◌, ◌++◌, ◌∷◌, [], OnOk, IfOk, length};
ghost use Rattle.std.specs.List.{flat_map};
ghost use Rattle.ds_check.specs.Permissions.{table_text, processes_text, process_text, entry_text, granted_text, page_text, part_text, right_text, blanks_after, give_text, until_text};

use ds_policy::{Entry, OutOfMemory, Policy, PolicyPage, Right, Source, Table};
use ds_text::sheet::{push_decimal, push_hex};
use std::alloc::{AllocError, Global};

/// The permission table that a policy begins with, process by process: for each entry a line with its
/// address, its right, its page with the page's source, the rule's number, when its right ends, and
/// whether the process may give it on.
pub fn table_text(alloc: Global, policy: &Policy) -> Result<Vec<u8>, OutOfMemory>
    ensures { IfOk result (λ v. v.items ≡ table_text policy.now) }
{
    let mut sheet = Vec::new(alloc);
    push_first_table(alloc, &mut sheet, policy)?;
    Ok(sheet)
}

/// Adds the permission table that a policy begins with.
pub(crate) fn push_first_table(
    alloc: Global,
    sheet: &mut Vec<u8>,
    policy: &Policy,
) -> Result<(), OutOfMemory>
    ensures { OnOk result (sheet.new.items ≡ sheet.old.items ++ table_text policy.now) }
{
    let table = Table::new(alloc, policy)?;
    prove!(table.processes() <= policy.processes().len());
    push_table(sheet, policy.pages(), &table)?;
    Ok(())
}

fn push_table(sheet: &mut Vec<u8>, pages: &[PolicyPage], table: &Table) -> Result<(), AllocError>
    requires { length table.now ≤ 100 }
    ensures { OnOk result
        (sheet.new.items ≡ sheet.old.items ++ processes_text pages.now 1 table.now) }
{
    for index in 0..table.processes() {
        let process = index as u32 + 1;
        push_process(sheet, pages, process, table.entries(process))?;
    }
    Ok(())
}

fn push_process(
    sheet: &mut Vec<u8>,
    pages: &[PolicyPage],
    process: u32,
    entries: &[Entry],
) -> Result<(), AllocError>
    ensures { OnOk result
        (sheet.new.items ≡ sheet.old.items ++ process_text pages.now process entries.now) }
{
    sheet.extend_from_slice(b"process ")?;
    push_decimal(sheet, u64::from(process))?;
    sheet.extend_from_slice(b"\n")?;
    push_entries(sheet, pages, entries)
}

fn push_entries(
    sheet: &mut Vec<u8>,
    pages: &[PolicyPage],
    entries: &[Entry],
) -> Result<(), AllocError>
    ensures { OnOk result
        (sheet.new.items ≡ sheet.old.items ++ flat_map (entry_text pages.now) entries.now) }
{
    for entry in entries {
        push_entry(sheet, pages, entry)?;
    }
    Ok(())
}

fn push_entry(sheet: &mut Vec<u8>, pages: &[PolicyPage], entry: &Entry) -> Result<(), AllocError>
    ensures { OnOk result (sheet.new.items ≡ sheet.old.items ++ entry_text pages.now entry.now) }
{
    let grant = entry.grant;
    sheet.extend_from_slice(b"  ")?;
    push_hex(sheet, entry.address)?;
    push_right(sheet, grant.right)?;
    push_granted(sheet, pages, grant.page)?;
    sheet.extend_from_slice(b"rule ")?;
    push_decimal(sheet, u64::from(grant.rule))?;
    push_until(sheet, grant.until)?;
    sheet.extend_from_slice(give_word(grant.give))
}

/// Adds the time at which a right ends, if it does.
fn push_until(sheet: &mut Vec<u8>, until: Option<u32>) -> Result<(), AllocError>
    ensures { OnOk result (sheet.new.items ≡ sheet.old.items ++ until_text until) }
{
    match until {
        Some(time) => {
            sheet.extend_from_slice(b", until ")?;
            push_decimal(sheet, u64::from(time))
        }
        None => Ok(()),
    }
}

/// Adds the page of this number, where there is one.
fn push_granted(
    sheet: &mut Vec<u8>,
    pages: &[PolicyPage],
    page: Option<u32>,
) -> Result<(), AllocError>
    ensures { OnOk result (sheet.new.items ≡ sheet.old.items ++ granted_text pages.now page) }
{
    let Some(number) = page else {
        return Ok(());
    };
    match pages.get(number as usize) {
        Some(page) => push_page(sheet, page),
        None => Ok(()),
    }
}

fn push_page(sheet: &mut Vec<u8>, page: &PolicyPage) -> Result<(), AllocError>
    ensures { OnOk result (sheet.new.items ≡ sheet.old.items ++ page_text page.now) }
{
    sheet.extend_from_slice(page.name.as_str().as_bytes())?;
    match &page.source {
        Some(source) => push_source(sheet, source),
        None => sheet.extend_from_slice(b", zero, "),
    }
}

fn push_source(sheet: &mut Vec<u8>, source: &Source) -> Result<(), AllocError>
    ensures { OnOk result (sheet.new.items ≡ sheet.old.items ++ part_text source.now) }
{
    sheet.extend_from_slice(b", part ")?;
    push_decimal(sheet, u64::from(source.part))?;
    sheet.extend_from_slice(b" of ")?;
    sheet.extend_from_slice(source.name.as_str().as_bytes())?;
    sheet.extend_from_slice(b", ")
}

/// Adds the right, in its column.
#[tactic(auto, unfolding(crate::specs::Permissions::right_text))]
fn push_right(sheet: &mut Vec<u8>, right: Right) -> Result<(), AllocError>
    ensures { OnOk result (sheet.new.items ≡ sheet.old.items ++ right_text right) }
{
    sheet.push(b' ')?;
    sheet.extend_from_slice(right.word().as_bytes())?;
    sheet.extend_from_slice(blanks_after(right))
}

/// What ends the column of rights.
fn blanks_after(right: Right) -> &'static [u8]
    ensures { result.now ≡ blanks_after right }
{
    match right {
        Right::Nothing | Right::Read => b"  ",
        Right::Write => b" ",
    }
}

/// Whether the process may give it on, and the end of the line.
fn give_word(give: bool) -> &'static [u8]
    ensures { result.now ≡ give_text give }
{
    if give {
        b", give (take and revoke reach what is shared on)\n"
    } else {
        b"\n"
    }
}
