//! A label that a statement names and no line has, and one that is like it.
ghost use Rattle.std.specs.Prelude.{◌≡◌, ◌≤◌, ◌++◌, OnOk, length, option_map};
ghost use Rattle.std.specs.List.{suffix_len};
ghost use Rattle.ds_asm.specs.Assembly.{lines_of};
ghost use Rattle.ds_asm.specs.Faults.{label_in};
ghost use Rattle.ds_asm.specs.Lines.{line_of};
ghost use Rattle.ds_source_reasons.specs.Missing.{first_like, is_of_word, labelled_text, last_word, last_word_place, like_in, like_label, like_text, missing_text};
ghost use Rattle.ds_source_reasons.specs.Inner.Missing.{plain_labelled};

use crate::likeness::is_like;
use crate::texts::{AFTER_NO_LABEL, IN_LINE, LIKE_LABEL, NO_LABEL, STOP};
use crate::told::{push_quoted, push_text};
use ds_asm::{first_line, front_of, is_digit, is_letter, source_line, until, without_back_blanks};
use ds_text::sheet::push_decimal;
use std::alloc::AllocError;

/// How many bytes of a source are looked through for a label, from its beginning.
const MOST_SEARCHED: usize = 65_536;

/// A label of a source.
#[derive(Clone, Copy, Debug, PartialEq, Eq)]
pub struct Labelled<'a> {
    /// The label.
    pub name: &'a [u8],
    /// The number of its line, from 1.
    pub line: u64,
}

/// The last word of what a line, without its line feed, says up to its comment: where a statement
/// names a label, it is this word.
pub fn last_word(line: &[u8]) -> &[u8]
    ensures { result.now ≡ last_word line.now }
{
    let said = without_back_blanks(until(b'#', line));
    let count = count_back(said);
    &said[said.len() - count..]
}

/// Where the last word of what a line says begins, in bytes.
pub fn last_word_place(line: &[u8]) -> usize
    ensures { result ≡ last_word_place line.now }
{
    let said = without_back_blanks(until(b'#', line));
    said.len() - count_back(said)
}

/// How many bytes at the end of a text a label may hold.
fn count_back(text: &[u8]) -> usize
    ensures exact { result ≡ suffix_len is_of_word text.now }
    ensures within { result ≤ length text.now }
{
    text.iter()
        .rev()
        .take_while(|c| is_letter(**c) || is_digit(**c))
        .count()
}

/// The first label that differs from a name by upper and lower case alone, or by one character. It
/// is looked for in the first 65,536 bytes of a source.
#[tactic(auto, unfolding(crate::specs::Missing::like_label))]
pub fn like_label<'a>(text: &'a [u8], name: &[u8]) -> Option<Labelled<'a>>
    ensures { option_map plain_labelled result ≡ like_label text.now name.now }
{
    first_like(front_of(MOST_SEARCHED, text), name)
}

fn first_like<'a>(text: &'a [u8], name: &[u8]) -> Option<Labelled<'a>>
    ensures { option_map plain_labelled result ≡ first_like name.now 1 (lines_of text.now) }
{
    let mut number = 0u64;
    let mut rest = text;
    while !rest.is_empty() {
        let (line, after) = first_line(rest);
        number += 1;
        match like_in(name, number, source_line(line).label) {
            Some(found) => return Some(found),
            None => rest = after,
        }
    }
    None
}

/// The label of a line, if it has one that is like a name.
fn like_in<'a>(name: &[u8], line: u64, label: Option<&'a [u8]>) -> Option<Labelled<'a>>
    ensures { option_map plain_labelled result
        ≡ like_in name.now line (option_map (λ t. t.now) label.entry) }
{
    let label = label?;
    if is_like(name, label) {
        Some(Labelled { name: label, line })
    } else {
        None
    }
}

/// Adds the words of a label that no line has, with the one that is like it.
#[tactic(auto, unfolding(crate::specs::Missing::missing_text))]
pub fn push_missing(
    sheet: &mut Vec<u8>,
    name: &[u8],
    like: Option<Labelled<'_>>,
) -> Result<(), AllocError>
    ensures { OnOk result (sheet.new.items ≡ sheet.old.items
        ++ missing_text name.now (option_map plain_labelled like.entry)) }
{
    push_quoted(sheet, NO_LABEL, name, AFTER_NO_LABEL)?;
    push_like(sheet, like)
}

/// Adds what is said of a label that is like the one that is missing, if there is one.
fn push_like(sheet: &mut Vec<u8>, like: Option<Labelled<'_>>) -> Result<(), AllocError>
    ensures { OnOk result (sheet.new.items
        ≡ sheet.old.items ++ like_text (option_map plain_labelled like.entry)) }
{
    match like {
        None => Ok(()),
        Some(label) => push_labelled(sheet, label),
    }
}

/// Adds the name and the line of a label that there is.
fn push_labelled(sheet: &mut Vec<u8>, label: Labelled<'_>) -> Result<(), AllocError>
    ensures { OnOk result (sheet.new.items
        ≡ sheet.old.items ++ labelled_text (plain_labelled label.entry)) }
{
    push_quoted(sheet, LIKE_LABEL, label.name, IN_LINE)?;
    push_decimal(sheet, label.line)?;
    push_text(sheet, STOP)
}
