//! What comes during a run, as text: ends of rights and commands, and characters between them.
ghost use Rattle.std.specs.Prelude.{◌≡◌, ◌≤◌, ◌++◌, OnOk, IfOk, None, length, take, drop};
ghost use Rattle.std.specs.List.{flat_map};
ghost use Rattle.ds_text.specs.Digits.{hex2};
ghost use Rattle.ds_check.specs.Coming.{command_text, comes_with, count_due, due_text, characters_end_text, events_from, events_text, characters_key_text, loss_text, name_text, page_at, rule_end_text, step_count, step_text};

use crate::due::{Due, RuleEnd, due_of};
use crate::words::{push_name, push_words};
use ds_policy::{Character, Events, OutOfMemory, Policy, PolicyPage, TimedCommand};
use ds_text::sheet::{push_byte, push_decimal, push_hex};
use std::alloc::{AllocError, Global};

/// What comes where a policy is run with an input, in order: a line for each end of a right, for each
/// command, and for the characters that come in together; at one time ends first, then commands. The
/// input was read with this policy.
pub fn events_text(alloc: Global, policy: &Policy, events: Events) -> Result<Vec<u8>, OutOfMemory>
    ensures { IfOk result (λ v. v.items ≡ events_text policy.now events) }
{
    let mut sheet = Vec::new(alloc);
    push_events(alloc, &mut sheet, policy, events)?;
    Ok(sheet)
}

/// Adds what comes where a policy is run with an input.
pub(crate) fn push_events(
    alloc: Global,
    sheet: &mut Vec<u8>,
    policy: &Policy,
    events: Events,
) -> Result<(), AllocError>
    ensures { OnOk result (sheet.new.items ≡ sheet.old.items ++ events_text policy.now events) }
{
    let due = due_of(alloc, policy.rules(), events.commands())?;
    push_coming(sheet, policy.pages(), &due, events)
}

/// Adds the characters of an input in order, with these ends and commands between them.
fn push_coming(
    sheet: &mut Vec<u8>,
    pages: &[PolicyPage],
    due: &[Due],
    mut events: Events,
) -> Result<(), AllocError>
    ensures { OnOk result (sheet.new.items
        ≡ sheet.old.items ++ events_from pages.now None due.now events.characters) }
{
    let mut last = None;
    let mut done = 0;
    while let Some(character) = events.take_character() {
        done += push_character(sheet, pages, last, &due[done..], character)?;
        last = Some(character);
    }
    push_end(sheet, last)?;
    push_each(sheet, pages, &due[done..])
}

/// Adds a character after the last one, or after the ends and commands that come no later; and answers
/// how many these are.
fn push_character(
    sheet: &mut Vec<u8>,
    pages: &[PolicyPage],
    last: Option<Character>,
    due: &[Due],
    character: Character,
) -> Result<usize, AllocError>
    ensures text { OnOk result (sheet.new.items
        ≡ sheet.old.items ++ step_text pages.now last due.now character) }
    ensures count { IfOk result (λ n. n ≡ step_count last due.now character) }
    ensures within { IfOk result (λ n. n ≤ length due.now) }
{
    if comes_with(last, character) {
        push_byte(sheet, character.byte)?;
        return Ok(0);
    }
    push_end(sheet, last)?;
    let count = count_due(due, character.time);
    push_each(sheet, pages, &due[..count])?;
    push_key(sheet, character)?;
    Ok(count)
}

fn comes_with(last: Option<Character>, character: Character) -> bool
    ensures { result ≡ comes_with last character }
{
    match last {
        Some(before) => before.time == character.time && before.line == character.line,
        None => false,
    }
}

fn count_due(due: &[Due], time: u64) -> usize
    ensures exact { result ≡ count_due time due.now }
    ensures within { result ≤ length due.now }
{
    due.iter().take_while(|one| one.time() <= time).count()
}

fn push_each(sheet: &mut Vec<u8>, pages: &[PolicyPage], due: &[Due]) -> Result<(), AllocError>
    ensures { OnOk result (sheet.new.items
        ≡ sheet.old.items ++ flat_map (due_text pages.now) due.now) }
{
    for one in due {
        push_due(sheet, pages, *one)?;
    }
    Ok(())
}

fn push_due(sheet: &mut Vec<u8>, pages: &[PolicyPage], due: Due) -> Result<(), AllocError>
    ensures { OnOk result (sheet.new.items ≡ sheet.old.items ++ due_text pages.now due) }
{
    match due {
        Due::End(end) => push_rule_end(sheet, pages, end),
        Due::Command(command) => push_command(sheet, pages, command),
    }
}

fn push_rule_end(sheet: &mut Vec<u8>, pages: &[PolicyPage], end: RuleEnd) -> Result<(), AllocError>
    ensures { OnOk result (sheet.new.items ≡ sheet.old.items ++ rule_end_text pages.now end) }
{
    push_decimal(sheet, end.time)?;
    sheet.extend_from_slice(b" end, rule ")?;
    push_decimal(sheet, u64::from(end.rule))?;
    push_loss(sheet, pages, end)
}

/// Adds what a process loses, and the end of the line.
fn push_loss(sheet: &mut Vec<u8>, pages: &[PolicyPage], end: RuleEnd) -> Result<(), AllocError>
    ensures { OnOk result (sheet.new.items ≡ sheet.old.items ++ loss_text pages.now end) }
{
    sheet.extend_from_slice(b": process ")?;
    push_decimal(sheet, u64::from(end.process))?;
    sheet.extend_from_slice(b" loses ")?;
    push_hex(sheet, end.address)?;
    sheet.extend_from_slice(b" ")?;
    push_page_name(sheet, pages, end.page)?;
    sheet.extend_from_slice(b"\n")
}

/// Adds the name of the page of this number, if there is one.
fn push_page_name(
    sheet: &mut Vec<u8>,
    pages: &[PolicyPage],
    page: Option<u32>,
) -> Result<(), AllocError>
    ensures { OnOk result (sheet.new.items ≡ sheet.old.items ++ name_text (page_at pages.now page)) }
{
    match page {
        Some(number) => push_name(sheet, pages, number),
        None => Ok(()),
    }
}

fn push_command(
    sheet: &mut Vec<u8>,
    pages: &[PolicyPage],
    command: TimedCommand,
) -> Result<(), AllocError>
    ensures { OnOk result (sheet.new.items ≡ sheet.old.items ++ command_text pages.now command) }
{
    push_decimal(sheet, command.time)?;
    sheet.extend_from_slice(b" command ")?;
    push_decimal(sheet, u64::from(command.number))?;
    sheet.extend_from_slice(b", rule ")?;
    push_decimal(sheet, 1000 + u64::from(command.number))?;
    sheet.extend_from_slice(b": ")?;
    push_words(sheet, pages, command.command)?;
    sheet.extend_from_slice(b"\n")
}

/// Adds the first of the characters that come in together.
fn push_key(sheet: &mut Vec<u8>, character: Character) -> Result<(), AllocError>
    ensures { OnOk result (sheet.new.items ≡ sheet.old.items ++ characters_key_text character) }
{
    push_decimal(sheet, character.time)?;
    sheet.extend_from_slice(b" key ")?;
    push_decimal(sheet, u64::from(character.line))?;
    sheet.extend_from_slice(b" ")?;
    push_byte(sheet, character.byte)
}

/// Ends the line of the last character, where there is one.
fn push_end(sheet: &mut Vec<u8>, last: Option<Character>) -> Result<(), AllocError>
    ensures { OnOk result (sheet.new.items ≡ sheet.old.items ++ characters_end_text last) }
{
    match last {
        Some(_) => sheet.extend_from_slice(b"\n"),
        None => Ok(()),
    }
}
