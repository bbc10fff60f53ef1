//! What a line of the log says.
ghost use Rattle.std.specs.Prelude.{◌≡◌, ◌≤◌};
ghost use Rattle.ds_log_reasons.specs.Lines.{denial_of, kind_of, log_line_of, number, refused_of, rule_by, log_rule_of};

use ds_log::{Denied, Line};
use ds_packets::cut_at;
use ds_policy::Rule;
use ds_word::number_of_digits;

/// The number that digits write, where 32 bits hold it.
fn number(base: u64, digits: &[u8]) -> Option<u32>
    requires { base ≤ 16 }
    ensures { result ≡ number base digits.now }
{
    Some(number_of_digits(base, u64::from(u32::MAX), digits)? as u32)
}

/// What was denied, by the log's word for it.
fn kind_of(word: &[u8]) -> Option<Denied>
    ensures { result ≡ kind_of word.now }
{
    if word == b"fetch".as_slice() {
        Some(Denied::Fetch)
    } else if word == b"load".as_slice() {
        Some(Denied::Load)
    } else if word == b"store".as_slice() {
        Some(Denied::Store)
    } else if word == b"exec".as_slice() {
        Some(Denied::Exec)
    } else if word == b"give".as_slice() {
        Some(Denied::Give)
    } else {
        None
    }
}

/// What denied it, by a letter and the digits after it.
fn rule_by(letter: u8, digits: &[u8]) -> Option<Rule>
    ensures { result ≡ rule_by letter digits.now }
{
    if letter == b'r' {
        Some(Rule::Number(number(10, digits)?))
    } else if letter == b'K' {
        Some(Rule::K)
    } else if letter == b'A' {
        Some(Rule::A)
    } else if letter == b'I' {
        Some(Rule::I)
    } else {
        None
    }
}

/// What denied it, by the log's word for it.
fn log_rule_of(word: &[u8]) -> Option<Rule>
    ensures { result ≡ log_rule_of word.now }
{
    match word {
        [letter, digits @ ..] => rule_by(*letter, digits),
        [] => None,
    }
}

/// A denial, by its time, its process, and what comes after these.
fn denial_of(time: u32, process: u32, rest: &[u8]) -> Option<Line>
    ensures { result ≡ denial_of time process rest.now }
{
    let (pc, rest) = cut_at(rest, b' ');
    let (kind, rest) = cut_at(rest, b' ');
    let (addr, rest) = cut_at(rest, b' ');
    let (rule, code) = cut_at(rest, b' ');
    let pc = number(16, pc)?;
    let kind = kind_of(kind)?;
    let addr = number(16, addr)?;
    let rule = log_rule_of(rule)?;
    let code = number(10, code)?;
    Some(Line::Denial {
        time: u64::from(time),
        process,
        pc,
        kind,
        addr,
        rule,
        code,
    })
}

/// A refused command, by its time, and what comes after `command`.
fn refused_of(time: u32, rest: &[u8]) -> Option<Line>
    ensures { result ≡ refused_of time rest.now }
{
    let (command, rest) = cut_at(rest, b' ');
    let (_, digits) = cut_at(rest, b' ');
    let command = number(10, command)?;
    let number = number(10, digits)?;
    Some(Line::Refused {
        time: u64::from(time),
        command,
        number,
    })
}

/// The line of the log that a text without its line feed says.
pub fn log_line_of(text: &[u8]) -> Option<Line>
    ensures { result ≡ log_line_of text.now }
{
    let (time, rest) = cut_at(text, b' ');
    let (second, rest) = cut_at(rest, b' ');
    let time = number(10, time)?;
    if second == b"command".as_slice() {
        refused_of(time, rest)
    } else {
        let process = number(10, second)?;
        denial_of(time, process, rest)
    }
}
