//! The lines of a source.
ghost use Rattle.std.specs.Prelude.{◌≡◌, ◌==◌, option_map};
ghost use Rattle.std.specs.List.{before_first, after_first};
ghost use Rattle.ds_asm.specs.Faults.{optional_size, size_in, label_in};
ghost use Rattle.ds_asm.specs.Lines.{line_of};
ghost use Rattle.ds_asm.specs.Inner.Plain.{plain_statement};

use crate::characters::byte_place_or_end;
use crate::line::{Statement, line_of};

/// What a line adds to a source.
#[derive(Clone, Copy, Debug, PartialEq, Eq)]
pub struct SourceLine<'a> {
    /// The label that stands on it.
    pub label: Option<&'a [u8]>,
    /// How many bytes its statement has.
    pub size: u64,
}

/// What a line without its line feed adds to a source. A line that can't be read adds nothing.
pub fn source_line(line: &[u8]) -> SourceLine<'_>
    ensures label { option_map (λ t. t.now) result.label ≡ label_in (line_of line.now) }
    ensures size { result.size ≡ size_in (line_of line.now) }
{
    match line_of(line) {
        Ok(line) => SourceLine {
            label: line.label,
            size: optional_size(line.statement),
        },
        Err(_) => SourceLine {
            label: None,
            size: 0,
        },
    }
}

/// How many bytes a statement has, where there is one.
fn optional_size(statement: Option<Statement<'_>>) -> u64
    ensures { result ≡ optional_size (option_map plain_statement statement.entry) }
{
    match statement {
        Some(statement) => statement.size(),
        None => 0,
    }
}

/// A text's first line without its line feed, and what stands after that.
pub fn first_line(text: &[u8]) -> (&[u8], &[u8])
    ensures line { result.0.now ≡ before_first (λ b. b == 10) text.now }
    ensures after { result.1.now ≡ after_first (λ b. b == 10) text.now }
{
    let end = byte_place_or_end(b'\n', text);
    if end < text.len() {
        (&text[..end], &text[end + 1..])
    } else {
        (text, &[])
    }
}
