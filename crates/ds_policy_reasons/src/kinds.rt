//! A source in the place of a policy, and a policy in the place of a source.
ghost use Rattle.std.specs.Prelude.{◌≡◌, is_ok, option_map};
ghost use Rattle.ds_asm.specs.Assembly.{lines_of};
ghost use Rattle.ds_asm.specs.Lines.{line_of};
ghost use Rattle.ds_policy_reasons.specs.Kinds.{first_said, is_key_there, is_silent, reads_as_policy, reads_as_source};

use crate::keys::{is_key, key_in, key_text};
use ds_asm::{first_line, line_of, trimmed, until};

/// Whether a text reads as a source: the assembler reads the first line of it that says something
/// before its comment. No line of a TOML document is read so.
#[tactic(auto, unfolding(crate::specs::Kinds::reads_as_source))]
pub fn reads_as_source(text: &[u8]) -> bool
    ensures { result ≡ reads_as_source text.now }
{
    let line = first_said(text);
    !is_silent(line) && is_read(line)
}

/// Whether a text reads as a policy: the first line of it that says something before its comment
/// begins with a key of a policy, after blanks and brackets and before `=` or a bracket.
#[tactic(auto, unfolding(crate::specs::Kinds::reads_as_policy))]
pub fn reads_as_policy(text: &[u8]) -> bool
    ensures { result ≡ reads_as_policy text.now }
{
    is_key_there(key_in(key_text(first_said(text))))
}

/// Whether a key is there, and a policy has it.
fn is_key_there(key: Option<&[u8]>) -> bool
    ensures { result ≡ is_key_there (option_map (λ t. t.now) key.entry) }
{
    match key {
        None => false,
        Some(name) => is_key(name),
    }
}

/// Whether the assembler reads a line.
fn is_read(line: &[u8]) -> bool
    ensures { result ≡ is_ok (line_of line.now) }
{
    matches!(line_of(line), Ok(_))
}

/// Whether a line says nothing before its comment.
fn is_silent(line: &[u8]) -> bool
    ensures { result ≡ is_silent line.now }
{
    trimmed(until(b'#', line)).is_empty()
}

/// The first line that says something, or an empty one.
fn first_said(text: &[u8]) -> &[u8]
    ensures { result.now ≡ first_said (lines_of text.now) }
{
    let mut rest = text;
    while !rest.is_empty() {
        let (line, after) = first_line(rest);
        if is_silent(line) {
            rest = after;
        } else {
            return line;
        }
    }
    &[]
}
