//! The text of the log.

ghost use Rattle.std.specs.Prelude.{◌≡◌, ℕ, ◌+◌, ◌^◌, ◌<◌, ◌≤◌, ◌++◌, length, flat_map, vec_len, vec_capacity, OnOk, OnErr, IsOk};
ghost use Rattle.ds_log.specs.Inner.Length.{IsShort};
ghost use Rattle.ds_log.specs.Text.{line_text, kind_text, rule_text};

use crate::line::{Denied, Line};
use arrayvec::ArrayVec;
use ds_policy::{OutOfMemory, Rule};
use ds_text::{Buffer, hex8};

/// Appends a line's text with its line feed, or nothing where memory runs out.
pub fn append(text: &mut Vec<u8>, line: &Line) -> Result<(), OutOfMemory>
    ensures ok { OnOk result (text.new.items ≡ text.old.items ++ line_text line.now) }
    ensures err { OnErr result (text.new.items ≡ text.old.items) }
    ensures room { vec_len text.old + length (line_text line.now) ≤ vec_capacity text.old
        → IsOk result }
    ensures capacity { vec_capacity text.old ≤ vec_capacity text.new }
{
    match *line {
        Line::Denial {
            time,
            process,
            pc,
            kind,
            addr,
            rule,
            code,
        } => append_pieces(
            text,
            &[
                Buffer::new().format(time).as_bytes(),
                b" ",
                Buffer::new().format(process).as_bytes(),
                b" ",
                &hex8(pc),
                b" ",
                kind_word(kind),
                b" ",
                &hex8(addr),
                b" ",
                rule_word(rule).as_slice(),
                b" ",
                Buffer::new().format(code).as_bytes(),
                b"\n",
            ],
        ),
        Line::Refused {
            time,
            command,
            number,
        } => append_pieces(
            text,
            &[
                Buffer::new().format(time).as_bytes(),
                b" command ",
                Buffer::new().format(command).as_bytes(),
                b" refused ",
                Buffer::new().format(number).as_bytes(),
                b"\n",
            ],
        ),
    }
}

/// Appends pieces in a row, or nothing where memory runs out.
fn append_pieces(text: &mut Vec<u8>, pieces: &[&[u8]]) -> Result<(), OutOfMemory>
    requires { length (flat_map (λ piece. piece.now) pieces.now) < 2 ^ 64 }
    ensures ok { OnOk result
        (text.new.items ≡ text.old.items ++ flat_map (λ piece. piece.now) pieces.now) }
    ensures err { OnErr result (text.new.items ≡ text.old.items) }
    ensures room { vec_len text.old + length (flat_map (λ piece. piece.now) pieces.now)
        ≤ vec_capacity text.old
        → IsOk result }
    ensures capacity { vec_capacity text.old ≤ vec_capacity text.new }
{
    if text.reserve(total_length(pieces)).is_err() {
        return Err(OutOfMemory);
    }
    for piece in pieces {
        text.extend_from_slice(piece).unwrap();
    }
    Ok(())
}

/// How many bytes pieces have together.
fn total_length(pieces: &[&[u8]]) -> usize
    requires { length (flat_map (λ piece. piece.now) pieces.now) < 2 ^ 64 }
    ensures { result ≡ length (flat_map (λ piece. piece.now) pieces.now) }
{
    let mut total = 0;
    for piece in pieces {
        total += piece.len();
    }
    total
}

/// What was denied, as the log names it.
fn kind_word(kind: Denied) -> &'static [u8]
    ensures word { result.now ≡ kind_text kind }
    ensures short { length result.now ≤ 5 }
{
    match kind {
        Denied::Fetch => b"fetch",
        Denied::Load => b"load",
        Denied::Store => b"store",
        Denied::Exec => b"exec",
        Denied::Give => b"give",
    }
}

/// What denied it, as the log names it: a letter and, of a rule or a command, its number.
fn rule_word(rule: Rule) -> ArrayVec<u8, 11>
    ensures { result.items ≡ rule_text rule }
{
    let mut word = ArrayVec::new();
    match rule {
        Rule::Number(number) => {
            let mut digits = Buffer::new();
            word.push(b'r');
            word.try_extend_from_slice(digits.format(number).as_bytes())
                .unwrap();
        }
        Rule::K => word.push(b'K'),
        Rule::A => word.push(b'A'),
        Rule::I => word.push(b'I'),
    }
    word
}

/// The bytes of room that a line of short numbers needs at most.
pub const LINE_ROOM: usize = 64;

/// A line of short numbers has at most `LINE_ROOM` bytes.
pub fn line_fits(line: &Line)
    requires { IsShort line.now }
    ensures { length (line_text line.now) ≤ LINE_ROOM }
{}
