//! The event that a line of an input is.
ghost use Rattle.std.specs.Prelude.{◌≡◌, ◌≤◌, length, map, take, IfOk};
ghost use Rattle.std.specs.List.{slice_split};
ghost use Rattle.ds_policy.specs.PolicyParts.{page_named};
ghost use Rattle.ds_policy.specs.InputLines.{words_of, process_number_of, console_line_of, right_of, entry_place_of, grant_command, grant_with_give, grant_command_of, entry_in, process_in, command_of, keys_of, event_of, event_in, event_at, timed_event_of};

use crate::command::Command;
use crate::events::MOST_TICKS;
use crate::events::cause::InputCause;
use crate::events::digits::{address_of, decimal_of, written_bytes};
use crate::events::event::{Event, TimedEvent};
use crate::grant::{EntryPlace, Right};
use crate::names::NamedPages;
use ds_text::words;
use std::alloc::{AllocError, Global};

/// The latest time at which an event can be due, in ticks.
const LATEST: u32 = MOST_TICKS as u32;

/// The words of a line, with one space between; of more than eight the first eight, which are one more
/// than an event has.
pub(crate) fn words_of<'a>(alloc: Global, line: &'a [u8]) -> Result<Vec<&'a [u8]>, AllocError>
    ensures { IfOk result (λ v. map (λ w. w.now) v.items ≡ take 8 (words_of line.now)) }
{
    line.split(|b| *b == b' ').take(8).collect(alloc)
}

/// The event of a line's words.
#[tactic(auto, unfolding(crate::specs::InputLines::timed_event_of))]
pub(crate) fn timed_event_of(
    pages: &NamedPages<'_>,
    words: &[&[u8]],
) -> Result<TimedEvent, InputCause>
    requires { length pages.now ≤ 1024 }
    ensures { result ≡ timed_event_of pages.now (map (λ w. w.now) words.now) }
{
    match words {
        [t, rest @ ..] => event_at(pages, t, rest),
        [] => Err(InputCause::BadTime),
    }
}

/// The event of a time and the words after it.
fn event_at(pages: &NamedPages<'_>, t: &[u8], words: &[&[u8]]) -> Result<TimedEvent, InputCause>
    requires { length pages.now ≤ 1024 }
    ensures { result ≡ event_at pages.now t.now (map (λ w. w.now) words.now) }
{
    let time = decimal_of(LATEST, t).ok_or(InputCause::BadTime)?;
    let event = event_in(pages, words)?;
    Ok(TimedEvent { time, event })
}

fn event_in(pages: &NamedPages<'_>, words: &[&[u8]]) -> Result<Event, InputCause>
    requires { length pages.now ≤ 1024 }
    ensures { result ≡ event_in pages.now (map (λ w. w.now) words.now) }
{
    match words {
        [verb, rest @ ..] => event_of(pages, verb, rest),
        [] => Err(InputCause::WordCount),
    }
}

fn event_of(pages: &NamedPages<'_>, verb: &[u8], words: &[&[u8]]) -> Result<Event, InputCause>
    requires { length pages.now ≤ 1024 }
    ensures { result ≡ event_of pages.now verb.now (map (λ w. w.now) words.now) }
{
    if verb == b"key".as_slice() {
        return keys_of(words);
    }
    let command = command_of(pages, verb, words)?;
    Ok(Event::Order(command))
}

#[tactic(auto, unfolding(crate::specs::InputLines::keys_of))]
fn keys_of(words: &[&[u8]]) -> Result<Event, InputCause>
    ensures { result ≡ keys_of (map (λ w. w.now) words.now) }
{
    match words {
        [l, digits] => {
            let line = console_line_of(l).ok_or(InputCause::BadLine)?;
            let keys = written_bytes(digits).ok_or(InputCause::BadBytes)?;
            Ok(Event::Input { line, keys })
        }
        [] | [_] | [_, _, _, ..] => Err(InputCause::WordCount),
    }
}

/// The command of a verb and the words after it.
#[tactic(auto, unfolding(crate::specs::InputLines::command_of))]
fn command_of(pages: &NamedPages<'_>, verb: &[u8], words: &[&[u8]]) -> Result<Command, InputCause>
    requires { length pages.now ≤ 1024 }
    ensures { result ≡ command_of pages.now verb.now (map (λ w. w.now) words.now) }
{
    if verb == words::GRANT.as_bytes() {
        grant_command_of(pages, words)
    } else if verb == words::NARROW.as_bytes() {
        let EntryPlace { process, address } = entry_in(words)?;
        Ok(Command::Narrow { process, address })
    } else if verb == words::REVOKE.as_bytes() {
        let EntryPlace { process, address } = entry_in(words)?;
        Ok(Command::Revoke { process, address })
    } else if verb == words::DROP.as_bytes() {
        let EntryPlace { process, address } = entry_in(words)?;
        Ok(Command::Drop { process, address })
    } else if verb == words::RESUME.as_bytes() {
        let process = process_in(words)?;
        Ok(Command::Resume { process })
    } else if verb == words::STOP.as_bytes() {
        let process = process_in(words)?;
        Ok(Command::Stop { process })
    } else {
        Err(InputCause::UnknownEvent)
    }
}

#[tactic(auto, unfolding(crate::specs::InputLines::grant_command_of))]
fn grant_command_of(pages: &NamedPages<'_>, words: &[&[u8]]) -> Result<Command, InputCause>
    requires { length pages.now ≤ 1024 }
    ensures { result ≡ grant_command_of pages.now (map (λ w. w.now) words.now) }
{
    match words {
        [p, a, name, r] => grant_command(pages, p, a, name, r, false),
        [p, a, name, r, word] => grant_with_give(pages, p, a, name, r, word),
        [] | [_] | [_, _] | [_, _, _] | [_, _, _, _, _, _, ..] => Err(InputCause::WordCount),
    }
}

/// A grant with a word after its right.
#[tactic(auto, unfolding(crate::specs::InputLines::grant_with_give))]
fn grant_with_give(
    pages: &NamedPages<'_>,
    p: &[u8],
    a: &[u8],
    name: &[u8],
    r: &[u8],
    word: &[u8],
) -> Result<Command, InputCause>
    requires { length pages.now ≤ 1024 }
    ensures { result ≡ grant_with_give pages.now p.now a.now name.now r.now word.now }
{
    let command = grant_command(pages, p, a, name, r, true)?;
    if word == b"give".as_slice() {
        Ok(command)
    } else {
        Err(InputCause::BadGive)
    }
}

/// A grant of a page, which may be given on.
#[tactic(auto, unfolding(crate::specs::InputLines::grant_command))]
fn grant_command(
    pages: &NamedPages<'_>,
    p: &[u8],
    a: &[u8],
    name: &[u8],
    r: &[u8],
    give: bool,
) -> Result<Command, InputCause>
    requires { length pages.now ≤ 1024 }
    ensures { result ≡ grant_command pages.now p.now a.now name.now r.now give }
{
    let EntryPlace { process, address } = entry_place_of(p, a)?;
    let page = page_named(pages, name).ok_or(InputCause::UnknownPage)?;
    let right = right_of(r).ok_or(InputCause::BadRight)?;
    Ok(Command::Grant {
        process,
        address,
        page,
        right,
        give,
    })
}

fn entry_in(words: &[&[u8]]) -> Result<EntryPlace, InputCause>
    ensures { result ≡ entry_in (map (λ w. w.now) words.now) }
{
    match words {
        [p, a] => entry_place_of(p, a),
        [] | [_] | [_, _, _, ..] => Err(InputCause::WordCount),
    }
}

fn process_in(words: &[&[u8]]) -> Result<u32, InputCause>
    ensures { result ≡ process_in (map (λ w. w.now) words.now) }
{
    match words {
        [p] => process_number_of(p).ok_or(InputCause::BadProcess),
        [] | [_, _, ..] => Err(InputCause::WordCount),
    }
}

fn entry_place_of(p: &[u8], a: &[u8]) -> Result<EntryPlace, InputCause>
    ensures { result ≡ entry_place_of p.now a.now }
{
    let process = process_number_of(p).ok_or(InputCause::BadProcess)?;
    let address = address_of(a).ok_or(InputCause::BadAddress)?;
    Ok(EntryPlace { process, address })
}

fn process_number_of(word: &[u8]) -> Option<u32>
    ensures { result ≡ process_number_of word.now }
{
    decimal_of(u32::MAX, word)
}

fn console_line_of(word: &[u8]) -> Option<u8>
    ensures { result ≡ console_line_of word.now }
{
    match word {
        [c] => match *c {
            b'0'..=b'3' => Some(*c - 48),
            _ => None,
        },
        _ => None,
    }
}

fn right_of(word: &[u8]) -> Option<Right>
    ensures { result ≡ right_of word.now }
{
    if word == words::READ.as_bytes() {
        Some(Right::Read)
    } else if word == words::WRITE.as_bytes() {
        Some(Right::Write)
    } else {
        None
    }
}

/// The number of the page that has this name.
fn page_named(pages: &NamedPages<'_>, name: &[u8]) -> Option<u32>
    requires { length pages.now ≤ 1024 }
    ensures { result ≡ page_named pages.now name.now }
{
    let place = pages.number_named(name)?;
    Some(place as u32)
}
