//! What ties each process to the others, as text.
ghost use Rattle.std.specs.Prelude.{◌≡◌, ◌≤◌, ◌<◌, ◌++◌, OnOk, IfOk, decimal, length};
ghost use Rattle.ds_ties.specs.Texts.{numbered, process_text, process_texts, tie_text, tied_text, ties_text, why_text};

use crate::ties::{Tie, tie_of};
use ds_policy::{Events, OutOfMemory, Policy, PolicyProcess, Table};
use ds_text::sheet::push_decimal;
use std::alloc::{AllocError, Global};

/// A line for each process of a policy that is run with an input: what ties it to the others, or that
/// nothing does.
pub fn ties_text(alloc: Global, policy: &Policy, events: &Events) -> Result<Vec<u8>, OutOfMemory>
    ensures { IfOk result (λ v. v.items ≡ ties_text policy.now events.now) }
{
    let mut sheet = Vec::new(alloc);
    let table = Table::new(alloc, policy)?;
    push_processes(&mut sheet, &table, events, policy.processes())?;
    Ok(sheet)
}

fn push_processes(
    sheet: &mut Vec<u8>,
    table: &Table,
    events: &Events,
    processes: &[PolicyProcess],
) -> Result<(), AllocError>
    requires few { length processes.now ≤ 100 }
    requires each { length table.now ≡ length processes.now }
    ensures { OnOk result (sheet.new.items
        ≡ sheet.old.items ++ process_texts table.now events.now 1 processes.now) }
{
    for (index, _process) in processes.iter().enumerate() {
        push_process(sheet, table, events, index as u32 + 1)?;
    }
    Ok(())
}

fn push_process(
    sheet: &mut Vec<u8>,
    table: &Table,
    events: &Events,
    process: u32,
) -> Result<(), AllocError>
    requires low { 0 < process }
    requires high { process ≤ length table.now }
    requires few { length table.now ≤ 100 }
    ensures { OnOk result (sheet.new.items
        ≡ sheet.old.items ++ process_text table.now events.now process) }
{
    let tie = tie_of(table, events.commands(), process);
    sheet.extend_from_slice(b"process ")?;
    push_decimal(sheet, u64::from(process))?;
    push_tie(sheet, tie)
}

fn push_tie(sheet: &mut Vec<u8>, tie: Option<Tie>) -> Result<(), AllocError>
    ensures { OnOk result (sheet.new.items ≡ sheet.old.items ++ tie_text tie) }
{
    match tie {
        Some(tie) => push_tied(sheet, tie),
        None => sheet.extend_from_slice(
            b": it can't tell who else is there, unless it calls `time`, `give` or `take`; calls `get` or `wait` where its line gets characters; or reads register 26, 27 or one still being loaded\n",
        ),
    }
}

fn push_tied(sheet: &mut Vec<u8>, tie: Tie) -> Result<(), AllocError>
    ensures { OnOk result (sheet.new.items ≡ sheet.old.items ++ tied_text tie) }
{
    push_after(sheet, b": it may tell who else is there, since ", tie)
}

/// Adds these words, and what a tie is.
fn push_after(sheet: &mut Vec<u8>, words: &[u8], tie: Tie) -> Result<(), AllocError>
    ensures { OnOk result (sheet.new.items ≡ sheet.old.items ++ (words.now ++ why_text tie)) }
{
    sheet.extend_from_slice(words)?;
    push_why(sheet, tie)
}

fn push_why(sheet: &mut Vec<u8>, tie: Tie) -> Result<(), AllocError>
    ensures { OnOk result (sheet.new.items ≡ sheet.old.items ++ why_text tie) }
{
    match tie {
        Tie::Ends(rule) => push_numbered(sheet, b"its right by rule ", rule, b" has an end\n"),
        Tie::Shares(rule) => push_numbered(
            sheet,
            b"rule ",
            rule,
            b" gives a page that it has to another process\n",
        ),
        Tie::Names(command) => push_numbered(sheet, b"command ", command, b" is about it\n"),
        Tie::Grants(command) => {
            push_numbered(sheet, b"command ", command, b" grants a page that it has\n")
        }
        Tie::MayGive(rule) => {
            push_numbered(sheet, b"rule ", rule, b" lets a process give a page on\n")
        }
        Tie::LetsGive(command) => push_numbered(
            sheet,
            b"command ",
            command,
            b" lets a process give a page on\n",
        ),
    }
}

fn push_numbered(
    sheet: &mut Vec<u8>,
    before: &[u8],
    number: u32,
    what: &[u8],
) -> Result<(), AllocError>
    ensures { OnOk result (sheet.new.items
        ≡ sheet.old.items ++ numbered before.now number what.now) }
{
    sheet.extend_from_slice(before)?;
    push_decimal(sheet, u64::from(number))?;
    sheet.extend_from_slice(what)
}
