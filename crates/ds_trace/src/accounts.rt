//! An account of a run in plain words, by the station and its log at the end.
ghost use Rattle.std.specs.Prelude.{◌≡◌, ◌++◌, IfOk, OnOk, codes, decimal, length, map, option_map};
ghost use Rattle.std.specs.String.{string_bytes};
ghost use Rattle.ds_trace.specs.Accounts.{account_text, all_stand, came_text, came_words, denied_words, letter_words, number_words, rule_words, stands_text, why_by, why_parked_text};

use crate::ends::push_head;
use crate::logs::{denied_rules, fourth_word, last_of, lines_of, push_rules, sixth_word};
use ds_procs::Standing;
use ds_station::{Station, Unended};
use ds_text::string::push_decimal;
use ds_tlb::Lookaside;
use std::alloc::{AllocError, Global};

/// What a rule does not let a process do, by what was denied.
fn denied_words(kind: &[u8]) -> &'static [u8]
    ensures { result.now ≡ denied_words kind.now }
{
    if kind == b"store".as_slice() {
        b" does not grant writing here"
    } else {
        b" grants nothing here"
    }
}

/// Adds what a rule of this number does not let a process do.
fn push_number(text: &mut Vec<u8>, digits: &[u8], kind: &[u8]) -> Result<(), AllocError>
    ensures { OnOk result
        (text.new.items ≡ text.old.items ++ number_words digits.now kind.now) }
{
    if digits == b"0".as_slice() {
        return text.extend_from_slice(b"no rule grants anything here");
    }
    text.extend_from_slice(b"rule ")?;
    text.extend_from_slice(digits)?;
    text.extend_from_slice(denied_words(kind))
}

/// What a rule says without a number: that of the upper half of addresses, of alignment, or of
/// instructions.
fn letter_words(letter: u8) -> &'static [u8]
    ensures { result.now ≡ letter_words letter }
{
    if letter == b'K' {
        b"no process may use this address"
    } else if letter == b'A' {
        b"the address is not a multiple of the size"
    } else {
        b"no process may do this instruction"
    }
}

/// Adds what a rule of a denial says in words.
fn push_rule_words(text: &mut Vec<u8>, rule: &[u8], kind: &[u8]) -> Result<(), AllocError>
    ensures { OnOk result (text.new.items ≡ text.old.items ++ rule_words rule.now kind.now) }
{
    match rule {
        [b'r', digits @ ..] => push_number(text, digits, kind),
        [letter, ..] => text.extend_from_slice(letter_words(*letter)),
        [] => Ok(()),
    }
}

/// Adds a line of the log, where there is one, and its rule in words.
pub(crate) fn push_why(text: &mut Vec<u8>, found: Option<&[u8]>) -> Result<(), AllocError>
    ensures { OnOk result
        (text.new.items ≡ text.old.items ++ why_by (option_map (λ l. l.now) found.entry)) }
{
    match found {
        Some(line) => {
            text.extend_from_slice(b" by ")?;
            text.extend_from_slice(line)?;
            text.extend_from_slice(b": ")?;
            push_rule_words(text, sixth_word(line), fourth_word(line))
        }
        None => Ok(()),
    }
}

/// Adds by which of these lines of the log a process is parked, and why, where it is.
pub(crate) fn push_parked_why(
    text: &mut Vec<u8>,
    lines: &[&[u8]],
    process: u32,
    standing: Standing,
) -> Result<(), AllocError>
    ensures { OnOk result (text.new.items ≡ text.old.items
        ++ why_parked_text (map (λ l. l.now) lines.now) process standing) }
{
    match standing {
        Standing::Parked => push_why(text, last_of(lines, process)),
        Standing::Ready | Standing::Waiting | Standing::Ended => Ok(()),
    }
}

/// Adds the line of a process, with the line of these by which it is parked.
fn push_stands(
    text: &mut Vec<u8>,
    line: &mut String,
    lines: &[&[u8]],
    process: u32,
    standing: Standing,
    address: u32,
) -> Result<(), AllocError>
    ensures { OnOk result (text.new.items ≡ text.old.items
        ++ stands_text (map (λ l. l.now) lines.now) process standing address) }
{
    line.clear();
    push_head(line, process, standing, address)?;
    text.extend_from_slice(line.as_bytes())?;
    push_parked_why(text, lines, process, standing)?;
    text.extend_from_slice(b"\n")
}

/// Adds the lines of all processes, by these lines of the log.
fn push_all_stand<L: Lookaside>(
    text: &mut Vec<u8>,
    line: &mut String,
    lines: &[&[u8]],
    station: &Station<L>,
) -> Result<(), AllocError>
    ensures { OnOk result (text.new.items ≡ text.old.items
        ++ all_stand (map (λ l. l.now) lines.now) station.now.held 1
        (length station.now.held.kept.state.processes)) }
{
    for process in 1..station.processes() + 1 {
        let (standing, address) = (station.standing(process), station.address(process));
        push_stands(text, line, lines, process, standing, address)?;
    }
    Ok(())
}

/// Whether all have ended, or the run's time is over, or it was stopped before.
fn came_words(unended: Option<Unended>, n: u64, time: u64) -> &'static str
    ensures { result.now ≡ came_words unended n time }
{
    match unended {
        None => "ended at ",
        Some(_) => {
            if time < n {
                "stopped at "
            } else {
                "out of ticks at "
            }
        }
    }
}

/// Adds whether the run ended, with the time.
fn push_came(
    text: &mut Vec<u8>,
    line: &mut String,
    unended: Option<Unended>,
    n: u64,
    time: u64,
) -> Result<(), AllocError>
    ensures { OnOk result (text.new.items ≡ text.old.items
        ++ (came_words unended n time ++ decimal time ++ codes "\n")) }
{
    line.clear();
    line.push_str(came_words(unended, n, time))?;
    push_decimal(line, time)?;
    line.push_str("\n")?;
    text.extend_from_slice(line.as_bytes())
}

/// Adds how a run for `n` came to where the station is, and the lines of all processes there, by
/// these lines of the log.
pub(crate) fn push_end_of_run<L: Lookaside>(
    text: &mut Vec<u8>,
    line: &mut String,
    lines: &[&[u8]],
    station: &Station<L>,
    n: u64,
) -> Result<(), AllocError>
    ensures { OnOk result (text.new.items ≡ text.old.items
        ++ came_text n (map (λ l. l.now) lines.now) station.now.held) }
{
    push_came(text, line, station.first_unended(), n, station.time())?;
    push_all_stand(text, line, lines, station)
}

/// An account of a run for `n`, which has come to where the station is, a line for each thing: whether
/// all processes ended, the ticks ran out, or it was stopped before, with the time; each process, with
/// how it stands and where it goes on, and, where it is parked, the line of the log by which it is, and
/// what the rule of that line says; and each rule by which something was denied, with how often.
pub fn account<L: Lookaside>(
    alloc: Global,
    station: &Station<L>,
    n: u64,
) -> Result<Vec<u8>, AllocError>
    ensures { IfOk result (λ text. text.items ≡ account_text n station.now.held) }
{
    let lines = lines_of(alloc, station.log())?;
    let rules = denied_rules(alloc, lines.as_slice())?;
    let mut text = Vec::new(alloc);
    let mut line = String::new(alloc);
    push_end_of_run(&mut text, &mut line, lines.as_slice(), station, n)?;
    push_rules(&mut text, rules.as_slice())?;
    Ok(text)
}
