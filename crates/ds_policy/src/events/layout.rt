//! Characters that a line of an input may not have where they stand.
ghost use Rattle.std.specs.Prelude.{◌≡◌};
ghost use Rattle.ds_policy.specs.InputLayout.{has, begins_with_blank, ends_with_blank, two_blanks_from, blank_cause, layout_cause};

use crate::events::cause::InputCause;

/// What is wrong with the blanks of a line, the first that holds.
pub(crate) fn layout_cause(line: &[u8]) -> Option<InputCause>
    ensures { result ≡ layout_cause line.now }
{
    if has(b'\r', line) {
        Some(InputCause::CarriageReturn)
    } else if has(b'\t', line) {
        Some(InputCause::Tab)
    } else {
        blank_cause(line)
    }
}

fn blank_cause(line: &[u8]) -> Option<InputCause>
    ensures { result ≡ blank_cause line.now }
{
    if begins_with_blank(line) {
        Some(InputCause::BlankAtStart)
    } else if ends_with_blank(line) {
        Some(InputCause::BlankAtEnd)
    } else if two_blanks_place(line).is_some() {
        Some(InputCause::TwoBlanks)
    } else {
        None
    }
}

fn has(byte: u8, line: &[u8]) -> bool
    ensures { result ≡ has byte line.now }
{
    line.iter().any(|b| *b == byte)
}

fn begins_with_blank(line: &[u8]) -> bool
    ensures { result ≡ begins_with_blank line.now }
{
    match line {
        [b, ..] => *b == b' ',
        [] => false,
    }
}

fn ends_with_blank(line: &[u8]) -> bool
    ensures { result ≡ ends_with_blank line.now }
{
    match line {
        [.., b] => *b == b' ',
        [] => false,
    }
}

/// Where two blanks first stand together in a line.
pub fn two_blanks_place(line: &[u8]) -> Option<usize>
    ensures { result ≡ two_blanks_from 0 line.now }
{
    let mut place = 0;
    let mut left = line;
    while let [first, rest @ ..] = left {
        if *first == b' ' && begins_with_blank(rest) {
            return Some(place);
        }
        place += 1;
        left = rest;
    }
    None
}
