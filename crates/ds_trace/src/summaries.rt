//! What is told of the whole run before how each process stands.
ghost use Rattle.std.specs.Prelude.{◌≡◌, ◌++◌, IfOk, OnOk, codes, decimal, length, map};
ghost use Rattle.std.specs.String.{string_bytes};
ghost use Rattle.ds_trace.specs.Logs.{lines_of, denied_rules, rules_text};
ghost use Rattle.ds_trace.specs.Summaries.{call_line, call_name, calls_text, counts_text, event_counts_text, halves_text, summary_text, end_time_text, totals_text};

use crate::counts::{CALLS, Counts};
use crate::logs::{denied_rules, lines_of, push_rules};
use ds_text::string::push_decimal;
use ds_words::View;
use std::alloc::{AllocError, Global};

/// The name of a call by its number.
fn call_name(number: usize) -> &'static str
    ensures { result.now ≡ call_name number }
{
    match number {
        0 => "exit",
        1 => "put",
        2 => "get",
        3 => "yield",
        4 => "time",
        5 => "self",
        6 => "give",
        7 => "take",
        8 => "drop",
        9 => "wait",
        _ => "unknown",
    }
}

/// Adds how often a call was made, where it was.
fn push_call(line: &mut String, number: usize, count: u64) -> Result<(), AllocError>
    ensures { OnOk result
        (string_bytes line.new ≡ string_bytes line.old ++ call_line number count) }
{
    if count == 0 {
        return Ok(());
    }
    line.push_str("call ")?;
    line.push_str(call_name(number))?;
    line.push_str(" ")?;
    push_decimal(line, count)?;
    line.push_str("\n")
}

/// Adds how often each call was made.
fn push_calls(line: &mut String, calls: &[u64; CALLS]) -> Result<(), AllocError>
    ensures { OnOk result
        (string_bytes line.new ≡ string_bytes line.old ++ calls_text 0 calls.now) }
{
    for (number, count) in calls.iter().enumerate() {
        push_call(line, number, *count)?;
    }
    Ok(())
}

/// Adds a count after its word.
pub(crate) fn push_total(line: &mut String, word: &str, count: u64) -> Result<(), AllocError>
    ensures { OnOk result
        (string_bytes line.new ≡ string_bytes line.old ++ word.now ++ decimal count) }
{
    line.push_str(word)?;
    push_decimal(line, count)
}

/// Adds from when on is counted, and how many half turns were what.
fn push_halves(line: &mut String, from: u64, counts: &Counts) -> Result<(), AllocError>
    ensures { OnOk result
        (string_bytes line.new ≡ string_bytes line.old ++ halves_text from counts.now) }
{
    push_total(line, "from ", from)?;
    push_total(line, " units ", counts.units)?;
    push_total(line, " idle ", counts.idle)?;
    push_total(line, " switches ", counts.switches)
}

/// Adds how many calls, denials, gives by copy and lost characters there were.
fn push_events(line: &mut String, counts: &Counts, denials: usize) -> Result<(), AllocError>
    ensures { OnOk result
        (string_bytes line.new ≡ string_bytes line.old ++ event_counts_text counts.now denials) }
{
    push_total(line, " calls ", counts.made)?;
    push_total(line, " denials ", denials as u64)?;
    push_total(line, " copies ", counts.copies)?;
    push_total(line, " lost ", counts.lost)
}

/// Adds the line of all counts, with this number of denials.
fn push_totals(
    line: &mut String,
    from: u64,
    counts: &Counts,
    denials: usize,
) -> Result<(), AllocError>
    ensures { OnOk result
        (string_bytes line.new ≡ string_bytes line.old ++ totals_text from counts.now denials) }
{
    push_halves(line, from, counts)?;
    push_events(line, counts, denials)?;
    line.push_str("\n")
}

/// Adds the counts of the turns from a time on, with what was denied by each of these rules.
fn push_counts(
    text: &mut Vec<u8>,
    line: &mut String,
    from: u64,
    counts: &Counts,
    rules: &[&[u8]],
) -> Result<(), AllocError>
    ensures { OnOk result (text.new.items ≡ text.old.items
        ++ counts_text from counts.now (map (λ r. r.now) rules.now)) }
{
    line.clear();
    push_totals(line, from, counts, rules.len())?;
    push_calls(line, &counts.calls)?;
    text.extend_from_slice(line.as_bytes())?;
    push_rules(text, rules)
}

/// Adds the time, with what was denied by each of these rules.
fn push_time(
    text: &mut Vec<u8>,
    line: &mut String,
    time: u64,
    rules: &[&[u8]],
) -> Result<(), AllocError>
    ensures { OnOk result (text.new.items ≡ text.old.items
        ++ end_time_text time (map (λ r. r.now) rules.now)) }
{
    line.clear();
    push_total(line, "time ", time)?;
    line.push_str("\n")?;
    text.extend_from_slice(line.as_bytes())?;
    push_rules(text, rules)
}

/// The rules of denials in the lines of a text.
fn rules_in<'a>(alloc: Global, text: &'a [u8]) -> Result<Vec<&'a [u8]>, AllocError>
    ensures { IfOk result (λ v. map (λ r. r.now) v.items ≡ denied_rules (lines_of text.now)) }
{
    let lines = lines_of(alloc, text)?;
    denied_rules(alloc, lines.as_slice())
}

/// Adds what is told of the whole run: its counts, or its last time where the end alone is told.
pub(crate) fn push_summary(
    alloc: Global,
    text: &mut Vec<u8>,
    line: &mut String,
    view: &View<'_>,
    counts: &Counts,
    time: u64,
    lines: &[&[u8]],
) -> Result<(), AllocError>
    ensures { OnOk result (text.new.items ≡ text.old.items
        ++ summary_text view.now counts.now time (map (λ l. l.now) lines.now)) }
{
    if view.has_lines() {
        let rules = rules_in(alloc, counts.denied.as_slice())?;
        push_counts(text, line, view.from, counts, rules.as_slice())
    } else {
        let rules = denied_rules(alloc, lines)?;
        push_time(text, line, time, rules.as_slice())
    }
}
