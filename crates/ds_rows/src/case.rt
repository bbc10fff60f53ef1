//! The cases of a table, as its file has them.

use ds_word::digit_of;
use std::alloc::{AllocError, Global};

/// What a case is expected to write, or why it is refused.
#[derive(Debug, Drop)]
pub enum Expected {
    /// Status 0, whatever is written.
    Done,
    /// Status 0, and this text on standard output.
    Writes(Vec<u8>),
    /// Status 2, and these lines on standard error, after `dsmon: `, each with its line feed.
    Refused(Vec<u8>),
}

/// A case of a table: a text that is put in place of a file, and what comes of it.
#[derive(Debug, Drop)]
pub struct Case {
    /// Its name.
    pub name: String,
    /// The text.
    pub text: Vec<u8>,
    /// What is expected; nothing before the line that tells it.
    pub expected: Option<Expected>,
}

/// The cases that a text has, if it is in the form of a table.
pub fn cases_of(alloc: Global, text: &str) -> Result<Option<Vec<Case>>, AllocError> {
    let mut cases: Vec<Case> = Vec::new(alloc);
    for line in text.lines() {
        if let Some(name) = line.strip_prefix("== ") {
            cases.push(Case {
                name: String::from_str(alloc, name)?,
                text: Vec::new(alloc),
                expected: None,
            })?;
        } else {
            let taken = match cases.last_mut() {
                Some(case) => case.take_line(alloc, line)?,
                None => is_skipped(line),
            };
            if !taken {
                return Ok(None);
            }
        }
    }
    Ok(Some(cases))
}

/// Whether a line says nothing: an empty one, or a comment.
fn is_skipped(line: &str) -> bool {
    line.is_empty() || line.starts_with('#')
}

impl Case {
    /// Takes a line after the one of its name, if it may stand there.
    fn take_line(&mut self, alloc: Global, line: &str) -> Result<bool, AllocError> {
        match &mut self.expected {
            Some(Expected::Writes(text)) => push_line(text, line),
            Some(Expected::Refused(refusal)) => match line.strip_prefix("| ") {
                Some(more) => push_line(refusal, more),
                None => Ok(is_skipped(line)),
            },
            Some(Expected::Done) => Ok(is_skipped(line)),
            None if line == "--" => {
                self.expected = Some(Expected::Writes(Vec::new(alloc)));
                Ok(true)
            }
            None => match line.strip_prefix("-- ") {
                Some("ok") => {
                    self.expected = Some(Expected::Done);
                    Ok(true)
                }
                Some(refusal) => {
                    let mut told = Vec::new(alloc);
                    let is_good = push_line(&mut told, refusal)?;
                    self.expected = Some(Expected::Refused(told));
                    Ok(is_good)
                }
                None => push_lines(&mut self.text, line),
            },
        }
    }
}

/// Adds a line to a text, or one behind `\\*N` and a blank N times.
fn push_lines(text: &mut Vec<u8>, line: &str) -> Result<bool, AllocError> {
    let Some(rest) = line.strip_prefix("\\*") else {
        return push_line(text, line);
    };
    let Some((count, line)) = rest.split_once(' ') else {
        return Ok(false);
    };
    let Ok(count) = count.parse::<u32>() else {
        return Ok(false);
    };
    let mut taken = true;
    for _ in 0..count {
        taken = taken && push_line(text, line)?;
    }
    Ok(taken)
}

/// How far the reading of an escape has come.
#[derive(Clone, Copy, PartialEq, Eq)]
enum Escape {
    /// None has begun.
    No,
    /// After the backslash.
    Begun,
    /// After `\x`.
    Byte,
    /// After the first digit of a byte, which is this.
    Digit(u64),
}

/// Adds a line to a text, with its escapes read, if it has no wrong one: `\\` is a backslash, `\r`
/// a carriage return, `\xHH` the byte of these digits; a backslash at the end leaves out the line
/// feed.
fn push_line(text: &mut Vec<u8>, line: &str) -> Result<bool, AllocError> {
    let mut escape = Escape::No;
    for byte in line.as_bytes() {
        escape = match (escape, *byte) {
            (Escape::No, b'\\') => Escape::Begun,
            (Escape::Begun, b'x') => Escape::Byte,
            (Escape::Byte, digit) => match digit_of(16, digit) {
                Some(value) => Escape::Digit(value),
                None => return Ok(false),
            },
            (before, byte) => match meant(before, byte) {
                Some(meant) => {
                    text.push(meant)?;
                    Escape::No
                }
                None => return Ok(false),
            },
        };
    }
    if escape == Escape::No {
        text.push(b'\n')?;
    }
    Ok(escape == Escape::No || escape == Escape::Begun)
}

/// The byte that is meant where this byte ends an escape, or stands alone.
fn meant(escape: Escape, byte: u8) -> Option<u8> {
    match (escape, byte) {
        (Escape::No, byte) => Some(byte),
        (Escape::Begun, b'\\') => Some(b'\\'),
        (Escape::Begun, b'r') => Some(b'\r'),
        (Escape::Digit(first), second) => {
            let second = digit_of(16, second)?;
            Some(((first & 15) * 16 + second) as u8)
        }
        _ => None,
    }
}
