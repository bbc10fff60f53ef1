//! What was lost of an input's characters, by console line.
ghost use Rattle.std.specs.Prelude.{◌≡◌, ◌<◌, ◌-◌, ◌++◌, IfOk, Ok, OnOk, drop, length, take};
ghost use Rattle.std.specs.String.{string_bytes};
ghost use Rattle.ds_policy.specs.InputText.{input_of};
ghost use Rattle.ds_policy.specs.Value.{InputValue};
ghost use Rattle.ds_trace.specs.Losses.{losses_text, lost_by, lost_line, lost_there, many_lost, none_lost, of_line, one_lost, with_lost};

use crate::before::LINES;
use crate::counts::{Lossy, plus};
use crate::summaries::push_total;
use ds_policy::{Character, Events, Policy};
use ds_text::string::push_decimal;
use std::alloc::{AllocError, Global};

/// What was lost on a console line.
#[derive(Clone, Copy)]
pub(crate) struct Lost {
    pub count: u64,
    /// When the first was, in ticks.
    pub first: u64,
}

/// How many of these characters are for a console line.
fn of_line(characters: &[Character], line: u8) -> usize
    ensures { result ≡ of_line line characters.now }
{
    let mut count = 0;
    for character in characters {
        if character.line == line {
            count += 1;
        }
    }
    count
}

/// The last characters, so many of them.
fn last_ones(all: &[Character], count: usize) -> &[Character]
    ensures { result.now ≡ drop (length all.now - count) all.now }
{
    match all.get(all.len().saturating_sub(count)..) {
        Some(last) => last,
        None => &[],
    }
}

/// The first characters, so many of them.
fn first_ones(all: &[Character], count: usize) -> &[Character]
    ensures { result.now ≡ take count all.now }
{
    match all.get(..count) {
        Some(first) => first,
        None => all,
    }
}

/// How many characters of an input a boundary lost on a console line.
fn lost_there(all: &[Character], lossy: &Lossy, line: u8) -> usize
    requires { line < 4 }
    ensures { result ≡ lost_there all.now line lossy.now }
{
    let coming = last_ones(all, lossy.before);
    let due = first_ones(coming, lossy.before.saturating_sub(lossy.after));
    of_line(due, line).saturating_sub(lossy.taken[line as usize])
}

/// What was lost, with so many more at a time.
fn with_lost(lost: Lost, time: u64, more: usize) -> Lost
    ensures { result ≡ with_lost lost time more }
{
    if more == 0 {
        return lost;
    }
    Lost {
        count: plus(lost.count, more as u64),
        first: if lost.count == 0 { time } else { lost.first },
    }
}

/// What boundaries lost on a console line.
fn lost_by(all: &[Character], line: u8, losses: &[Lossy]) -> Lost
    requires { line < 4 }
    ensures { result ≡ lost_by all.now line none_lost losses.now }
{
    let mut lost = Lost { count: 0, first: 0 };
    for lossy in losses {
        lost = with_lost(lost, lossy.time, lost_there(all, lossy, line));
    }
    lost
}

/// Adds a character that was lost on a console line.
fn push_one(text: &mut String, line: u8, lost: Lost) -> Result<(), AllocError>
    ensures { OnOk result
        (string_bytes text.new ≡ string_bytes text.old ++ one_lost line lost) }
{
    push_total(text, "1 character lost on console ", u64::from(line))?;
    push_total(text, ", at time ", lost.first)?;
    text.push_str("\n")
}

/// Adds how many characters were lost on a console line, and when the first was.
fn push_many(text: &mut String, line: u8, lost: Lost) -> Result<(), AllocError>
    ensures { OnOk result
        (string_bytes text.new ≡ string_bytes text.old ++ many_lost line lost) }
{
    push_decimal(text, lost.count)?;
    push_total(text, " characters lost on console ", u64::from(line))?;
    push_total(text, ", the first at time ", lost.first)?;
    text.push_str("\n")
}

/// Adds what was lost on a console line, where anything was.
fn push_lost_line(text: &mut String, line: u8, lost: Lost) -> Result<(), AllocError>
    ensures { OnOk result
        (string_bytes text.new ≡ string_bytes text.old ++ lost_line line lost) }
{
    match lost.count {
        0 => Ok(()),
        1 => push_one(text, line, lost),
        _ => push_many(text, line, lost),
    }
}

/// Adds what boundaries lost of the characters of an input on a console line, where anything was.
fn push_lost_by(
    text: &mut String,
    all: &[Character],
    line: u8,
    losses: &[Lossy],
) -> Result<(), AllocError>
    requires { line < 4 }
    ensures { OnOk result (string_bytes text.new ≡ string_bytes text.old
        ++ lost_line line (lost_by all.now line none_lost losses.now)) }
{
    push_lost_line(text, line, lost_by(all, line, losses))
}

/// Adds what boundaries lost of the characters of an input, by console line.
fn push_all_lost(text: &mut String, all: &[Character], losses: &[Lossy]) -> Result<(), AllocError>
    ensures { OnOk result
        (string_bytes text.new ≡ string_bytes text.old ++ losses_text all.now losses.now) }
{
    push_lost_by(text, all, 0, losses)?;
    push_lost_by(text, all, 1, losses)?;
    push_lost_by(text, all, 2, losses)?;
    push_lost_by(text, all, 3, losses)
}

/// The characters of what an input says.
fn taken_of(alloc: Global, mut events: Events) -> Result<Vec<Character>, AllocError>
    ensures { IfOk result (λ v. v.items ≡ events.characters) }
{
    let mut characters = Vec::new(alloc);
    while let Some(character) = events.take_character() {
        characters.push(character)?;
    }
    Ok(characters)
}

/// The characters of an input. It is one that was read before: only memory can run out.
fn characters_of(alloc: Global, policy: &Policy, input: &[u8]) -> Result<Vec<Character>, AllocError>
    ensures { IfOk result (λ v. (said : InputValue)
        → input_of policy.now.pages input.now ≡ Ok said → v.items ≡ said.characters) }
{
    match Events::read(alloc, input, policy) {
        Ok(events) => taken_of(alloc, events),
        Err(_) => Err(AllocError),
    }
}

/// Adds what boundaries lost of the characters of an input, by console line. The input is read once
/// more where they lost any.
pub(crate) fn push_losses(
    alloc: Global,
    text: &mut String,
    policy: &Policy,
    input: &[u8],
    losses: &[Lossy],
) -> Result<(), AllocError>
    ensures { OnOk result ((said : InputValue) → input_of policy.now.pages input.now ≡ Ok said
        → string_bytes text.new ≡ string_bytes text.old ++ losses_text said.characters losses.now) }
{
    if losses.is_empty() {
        return Ok(());
    }
    let all = characters_of(alloc, policy, input)?;
    push_all_lost(text, all.as_slice(), losses)
}
