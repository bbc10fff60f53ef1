//! Notes as text, a line for each.
ghost use Rattle.std.specs.Prelude.{◌≡◌, ◌++◌, IfOk, OnOk, decimal};
ghost use Rattle.std.specs.List.{flat_map};
ghost use Rattle.ds_check.specs.NoteTexts.{loses, code_line, code_notes_text, code_note_text, come_in, crowd_line, crowds_text, comes_at_text, named_line, page_line, policy_line, policy_notes_text, process_note_line, register_text};

use crate::notes::input::Crowd;
use crate::notes::instruction::{CodeNote, PlacedNote};
use crate::notes::policy::PolicyNote;
use ds_policy::{OutOfMemory, PolicyPage};
use ds_text::sheet::push_decimal;
use std::alloc::{AllocError, Global};

/// The notes on a source of this name, each with its line and how it is mended.
pub fn code_notes_text(
    alloc: Global,
    name: &str,
    notes: &[PlacedNote],
) -> Result<Vec<u8>, OutOfMemory>
    ensures { IfOk result (λ v. v.items ≡ code_notes_text name.now notes.now) }
{
    let mut sheet = Vec::new(alloc);
    for note in notes {
        push_code_line(&mut sheet, name, note)?;
    }
    Ok(sheet)
}

fn push_code_line(sheet: &mut Vec<u8>, name: &str, note: &PlacedNote) -> Result<(), AllocError>
    ensures { OnOk result (sheet.new.items ≡ sheet.old.items ++ code_line name.now note.now) }
{
    sheet.extend_from_slice(name.as_bytes())?;
    sheet.extend_from_slice(b" ")?;
    push_decimal(sheet, note.at.line)?;
    push_code_text(sheet, note.note)
}

fn push_code_text(sheet: &mut Vec<u8>, note: CodeNote) -> Result<(), AllocError>
    ensures { OnOk result (sheet.new.items ≡ sheet.old.items ++ code_note_text note) }
{
    match note {
        CodeNote::BranchInSlot => sheet.extend_from_slice(IN_SLOT),
        CodeNote::LoadDelay(register) => push_register(sheet, register, LOADING),
        CodeNote::KernelRegister(register) => push_register(sheet, register, OF_KERNEL),
    }
}

const IN_SLOT: &[u8] =
    b": it is a branch in the slot of another, which is fault 10; put a `nop` between\n";

const LOADING: &[u8] =
    b", which is still being loaded; put a `nop` between, or compile with `-march=r3000`\n";

const OF_KERNEL: &[u8] =
    b", which the kernel may change before any instruction; take another register\n";

fn push_register(sheet: &mut Vec<u8>, register: u8, what: &[u8]) -> Result<(), AllocError>
    ensures { OnOk result
        (sheet.new.items ≡ sheet.old.items ++ register_text register what.now) }
{
    sheet.extend_from_slice(b": it reads register ")?;
    push_decimal(sheet, u64::from(register))?;
    sheet.extend_from_slice(what)
}

/// The notes on a policy with these pages, each with its process or its page.
pub fn policy_notes_text(
    alloc: Global,
    pages: &[PolicyPage],
    notes: &[PolicyNote],
) -> Result<Vec<u8>, OutOfMemory>
    ensures { IfOk result (λ v. v.items ≡ policy_notes_text pages.now notes.now) }
{
    let mut sheet = Vec::new(alloc);
    for note in notes {
        push_policy_line(&mut sheet, pages, *note)?;
    }
    Ok(sheet)
}

fn push_policy_line(
    sheet: &mut Vec<u8>,
    pages: &[PolicyPage],
    note: PolicyNote,
) -> Result<(), AllocError>
    ensures { OnOk result (sheet.new.items ≡ sheet.old.items ++ policy_line pages.now note) }
{
    match note {
        PolicyNote::StartOffFour(process) => push_process(sheet, process, OFF_FOUR),
        PolicyNote::StartNotGranted(process) => push_process(sheet, process, NOT_GRANTED),
        PolicyNote::PartPastEnd(page) => push_page(sheet, pages, page, PAST_END),
        PolicyNote::UnusedPage(page) => push_page(sheet, pages, page, UNUSED),
        PolicyNote::WritableCode(page) => push_page(sheet, pages, page, WRITABLE),
    }
}

const OFF_FOUR: &[u8] = b": its start is no multiple of four, so its first fetch is denied\n";

const NOT_GRANTED: &[u8] =
    b": no rule lets it read the page of its start, so its first fetch is denied\n";

const PAST_END: &[u8] = b": its part begins where its source has no bytes, so it is all zeros\n";

const UNUSED: &[u8] = b": no rule names it\n";

const WRITABLE: &[u8] = b": it has a part of a source, and a rule lets a process write it\n";

fn push_process(sheet: &mut Vec<u8>, process: u32, what: &[u8]) -> Result<(), AllocError>
    ensures { OnOk result (sheet.new.items ≡ sheet.old.items ++ process_note_line process what.now) }
{
    sheet.extend_from_slice(b"process ")?;
    push_decimal(sheet, u64::from(process))?;
    sheet.extend_from_slice(what)
}

/// Adds what is said of the page of this number, where there is one.
fn push_page(
    sheet: &mut Vec<u8>,
    pages: &[PolicyPage],
    number: u32,
    what: &[u8],
) -> Result<(), AllocError>
    ensures { OnOk result
        (sheet.new.items ≡ sheet.old.items ++ page_line pages.now number what.now) }
{
    match pages.get(number as usize) {
        Some(page) => push_named(sheet, page, what),
        None => Ok(()),
    }
}

fn push_named(sheet: &mut Vec<u8>, page: &PolicyPage, what: &[u8]) -> Result<(), AllocError>
    ensures { OnOk result (sheet.new.items ≡ sheet.old.items ++ named_line page.now what.now) }
{
    sheet.extend_from_slice(b"page ")?;
    sheet.extend_from_slice(page.name.as_str().as_bytes())?;
    sheet.extend_from_slice(what)
}

/// The notes on an input, each with its time and how many characters are lost.
pub fn crowds_text(alloc: Global, crowds: &[Crowd]) -> Result<Vec<u8>, OutOfMemory>
    ensures { IfOk result (λ v. v.items ≡ crowds_text crowds.now) }
{
    let mut sheet = Vec::new(alloc);
    for crowd in crowds {
        push_crowd(&mut sheet, crowd)?;
    }
    Ok(sheet)
}

fn push_crowd(sheet: &mut Vec<u8>, crowd: &Crowd) -> Result<(), AllocError>
    ensures { OnOk result (sheet.new.items ≡ sheet.old.items ++ crowd_line crowd.now) }
{
    push_comes_at(sheet, crowd.time)?;
    push_come_in(sheet, crowd.count)?;
    push_loses(sheet, crowd.count)
}

#[tactic(auto, unfolding(crate::specs::NoteTexts::comes_at_text))]
fn push_comes_at(sheet: &mut Vec<u8>, time: u64) -> Result<(), AllocError>
    ensures { OnOk result (sheet.new.items ≡ sheet.old.items ++ comes_at_text time) }
{
    sheet.extend_from_slice(b"input, time ")?;
    push_number(sheet, time, b": ")
}

/// Adds a number and what follows it.
fn push_number(sheet: &mut Vec<u8>, number: u64, what: &[u8]) -> Result<(), AllocError>
    ensures { OnOk result (sheet.new.items ≡ sheet.old.items ++ (decimal number ++ what.now)) }
{
    push_decimal(sheet, number)?;
    sheet.extend_from_slice(what)
}

#[tactic(auto, unfolding(crate::specs::NoteTexts::come_in))]
fn push_come_in(sheet: &mut Vec<u8>, count: usize) -> Result<(), AllocError>
    ensures { OnOk result (sheet.new.items ≡ sheet.old.items ++ come_in count) }
{
    push_number(
        sheet,
        count as u64,
        b" characters come in, and a boundary takes 64, so it loses ",
    )
}

#[tactic(auto, unfolding(crate::specs::NoteTexts::loses))]
fn push_loses(sheet: &mut Vec<u8>, count: usize) -> Result<(), AllocError>
    ensures { OnOk result (sheet.new.items ≡ sheet.old.items ++ loses count) }
{
    push_number(
        sheet,
        count.saturating_sub(64) as u64,
        b": give those after the 64th a later time\n",
    )
}
