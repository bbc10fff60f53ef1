//! What the lines of the log say of processes and rules.
ghost use Rattle.std.specs.Prelude.{◌≡◌, ◌≤◌, ◌++◌, ◌∷◌, [], IfOk, OnOk, bytes_eq, codes, decimal, length, map, option_map, suc};
ghost use Rattle.std.specs.List.{list_any};
ghost use Rattle.ds_trace.specs.Logs.{after_word, first_word, fourth_word, is_among, last_of, lines_of, rule_count_text, denied_rules, rules_text, second_word, sixth_word, times_among};

use ds_text::Buffer;
use ds_text::sheet::push_decimal;
use std::alloc::{AllocError, Global};

/// The lines of a text, each without its line feed.
pub(crate) fn lines_of<'a>(alloc: Global, text: &'a [u8]) -> Result<Vec<&'a [u8]>, AllocError>
    ensures { IfOk result (λ v. map (λ line. line.now) v.items ≡ lines_of text.now) }
{
    text.split(|b| *b == b'\n').collect(alloc)
}

/// The first word of a line.
fn first_word(line: &[u8]) -> &[u8]
    ensures { result.now ≡ first_word line.now }
{
    for (index, byte) in line.iter().enumerate() {
        if *byte == b' ' {
            return &line[..index];
        }
    }
    line
}

/// What comes after the first word of a line and its blank.
fn after_word(line: &[u8]) -> &[u8]
    ensures { result.now ≡ after_word line.now }
{
    let mut left = line;
    while let [byte, rest @ ..] = left {
        if *byte == b' ' {
            return rest;
        }
        left = rest;
    }
    left
}

/// The second word of a line.
fn second_word(line: &[u8]) -> &[u8]
    ensures { result.now ≡ second_word line.now }
{
    first_word(after_word(line))
}

/// The fourth word of a line.
pub(crate) fn fourth_word(line: &[u8]) -> &[u8]
    ensures { result.now ≡ fourth_word line.now }
{
    second_word(after_word(after_word(line)))
}

/// The sixth word of a line.
pub(crate) fn sixth_word(line: &[u8]) -> &[u8]
    ensures { result.now ≡ sixth_word line.now }
{
    second_word(after_word(after_word(after_word(after_word(line)))))
}

/// The last line that tells of a process, by its number.
pub(crate) fn last_of<'a>(lines: &[&'a [u8]], process: u32) -> Option<&'a [u8]>
    ensures { option_map (λ line. line.now) result ≡ last_of process (map (λ line. line.now) lines.now) }
{
    let mut buffer = Buffer::new();
    let number = buffer.format(process).as_bytes();
    let mut found = None;
    for line in lines {
        if second_word(line) == number {
            found = Some(*line);
        }
    }
    found
}

/// The rules of denials, one for each line.
pub(crate) fn denied_rules<'a>(
    alloc: Global,
    lines: &[&'a [u8]],
) -> Result<Vec<&'a [u8]>, AllocError>
    ensures { IfOk result (λ v. map (λ rule. rule.now) v.items
        ≡ denied_rules (map (λ line. line.now) lines.now)) }
{
    let mut rules = Vec::new(alloc);
    for line in lines {
        let rule = sixth_word(line);
        if !rule.is_empty() {
            rules.push(rule)?;
        }
    }
    Ok(rules)
}

/// How often a rule is among some.
fn times_among(rule: &[u8], rules: &[&[u8]]) -> usize
    ensures times { result ≡ times_among rule.now (map (λ r. r.now) rules.now) }
    ensures few { result ≤ length rules.now }
{
    let mut times = 0;
    for r in rules {
        if *r == rule {
            times += 1;
        }
    }
    times
}

/// Whether one of these is the rule.
fn any_is(rules: &[&[u8]], rule: &[u8]) -> bool
    ensures { result ≡ list_any (λ r. bytes_eq r.now rule.now) rules.now }
{
    rules.iter().any(|r| *r == rule)
}

/// Whether a rule is among some.
fn is_among(rule: &[u8], rules: &[&[u8]]) -> bool
    ensures { result ≡ is_among rule.now (map (λ r. r.now) rules.now) }
{
    any_is(rules, rule)
}

/// Adds the line of a rule, with how often it is met.
fn push_met(text: &mut Vec<u8>, rule: &[u8], rest: &[&[u8]]) -> Result<(), AllocError>
    ensures { OnOk result (text.new.items ≡ text.old.items ++ (codes "denied " ++ rule.now
        ++ codes " " ++ decimal (suc (times_among rule.now (map (λ r. r.now) rest.now))) ++ codes "\n")) }
{
    text.extend_from_slice(b"denied ")?;
    text.extend_from_slice(rule)?;
    text.extend_from_slice(b" ")?;
    let times = times_among(rule, rest) as u64 + 1;
    push_decimal(text, times)?;
    text.extend_from_slice(b"\n")
}

/// Adds the line of a rule that was not met before.
fn push_rule(
    text: &mut Vec<u8>,
    before: &[&[u8]],
    rule: &[u8],
    rest: &[&[u8]],
) -> Result<(), AllocError>
    ensures { OnOk result (text.new.items ≡ text.old.items
        ++ rule_count_text (map (λ r. r.now) before.now) rule.now (map (λ r. r.now) rest.now)) }
{
    if is_among(rule, before) {
        return Ok(());
    }
    push_met(text, rule, rest)
}

/// Adds a line for each rule, at its first place.
pub(crate) fn push_rules(text: &mut Vec<u8>, rules: &[&[u8]]) -> Result<(), AllocError>
    ensures { OnOk result (text.new.items
        ≡ text.old.items ++ rules_text [] (map (λ r. r.now) rules.now)) }
{
    for (index, rule) in rules.iter().enumerate() {
        push_rule(text, &rules[..index], rule, &rules[index + 1..])?;
    }
    Ok(())
}
