//! A key that no policy has, and the one that is meant by it.
ghost use Rattle.std.specs.Prelude.{◌≡◌, ◌≤◌, ◌==◌, ◌++◌, OnOk, bytes_eq, length, option_map};
ghost use Rattle.std.specs.List.{find, list_any, prefix_len};
ghost use Rattle.ds_asm.specs.Assembly.{lines_of};
ghost use Rattle.ds_policy_reasons.specs.Keys.{ends_key, first_odd, is_key, is_meant, is_of_key, is_plural, key_in, key_text, meant_key, meant_text, odd_key, odd_key_text, odd_one};
ghost use Rattle.ds_policy_reasons.specs.Inner.Keys.{plain_odd};

use ds_asm::{first_line, front_of, is_digit, is_letter, without_front_blanks};
use ds_source_reasons::is_like;
use ds_text::sheet::push_decimal;
use std::alloc::AllocError;

/// How many characters of a key are shown at most.
const MOST_SHOWN: usize = 40;

/// The keys of a policy, of a process, of a page and of a rule.
static KEYS: [&str; 15] = [
    "version", "frames", "rate", "process", "page", "rule", "start", "line", "name", "source",
    "part", "address", "right", "give", "until",
];

const IN_LINE: &str = "` in line ";

const NO_KEY: &str = " is no key of a policy. Leave it out.\n";

const MEANT_KEY: &str = " is no key of a policy. Write `";

const AFTER_MEANT_KEY: &str = "` in its place.\n";

/// A key that no policy has.
#[derive(Clone, Copy, Debug, PartialEq, Eq)]
pub struct OddKey<'a> {
    /// The key.
    pub name: &'a [u8],
    /// The number of its line, from 1.
    pub line: u64,
    /// The place of its first character in that line, from 1.
    pub column: u64,
}

/// The first key of a text that no policy has: a name at the beginning of a line, after blanks and
/// brackets and before `=` or a bracket, which is none of the keys of a policy, of a process, of a
/// page and of a rule.
#[tactic(auto, unfolding(crate::specs::Keys::odd_key))]
pub fn odd_key(text: &[u8]) -> Option<OddKey<'_>>
    ensures { option_map plain_odd result ≡ odd_key text.now }
{
    first_odd(text)
}

fn first_odd(text: &[u8]) -> Option<OddKey<'_>>
    ensures { option_map plain_odd result ≡ first_odd 1 (lines_of text.now) }
{
    let mut number = 0u64;
    let mut rest = text;
    while !rest.is_empty() {
        let (line, after) = first_line(rest);
        number += 1;
        match odd_one(number, line, key_in(key_text(line))) {
            Some(found) => return Some(found),
            None => rest = after,
        }
    }
    None
}

/// The key of a line, if it is none of a policy.
fn odd_one<'a>(number: u64, line: &'a [u8], key: Option<&'a [u8]>) -> Option<OddKey<'a>>
    ensures { option_map plain_odd result
        ≡ odd_one number line.now (option_map (λ t. t.now) key.entry) }
{
    let name = key?;
    if is_key(name) {
        None
    } else {
        Some(OddKey {
            name,
            line: number,
            column: (line.len() - key_text(line).len()) as u64 + 1,
        })
    }
}

/// What a line says after the blanks and the brackets at its front.
pub(crate) fn key_text(line: &[u8]) -> &[u8]
    ensures exact { result.now ≡ key_text line.now }
    ensures within { length result.now ≤ length line.now }
{
    let text = without_front_blanks(line);
    &text[count_brackets(text)..]
}

fn count_brackets(text: &[u8]) -> usize
    ensures exact { result ≡ prefix_len (λ c. c == 91) text.now }
    ensures within { result ≤ length text.now }
{
    text.iter().take_while(|c| **c == b'[').count()
}

fn key_len(text: &[u8]) -> usize
    ensures exact { result ≡ prefix_len is_of_key text.now }
    ensures within { result ≤ length text.now }
{
    text.iter().take_while(|c| is_of_key(**c)).count()
}

/// Whether a key may hold a byte.
fn is_of_key(c: u8) -> bool
    ensures { result ≡ is_of_key c }
{
    is_letter(c) || is_digit(c) || c == b'-'
}

/// The key that a text begins with.
pub(crate) fn key_in(text: &[u8]) -> Option<&[u8]>
    ensures { option_map (λ t. t.now) result ≡ key_in text.now }
{
    let end = key_len(text);
    if end >= 1 && ends_key(without_front_blanks(&text[end..])) {
        Some(&text[..end])
    } else {
        None
    }
}

/// Whether a key ends before this.
fn ends_key(text: &[u8]) -> bool
    ensures { result ≡ ends_key text.now }
{
    match text {
        [] => false,
        [first, ..] => *first == b'=' || *first == b']',
    }
}

/// Whether a policy, a process, a page or a rule has a key of this name.
pub(crate) fn is_key(name: &[u8]) -> bool
    ensures { result ≡ is_key name.now }
{
    is_among(KEYS.as_slice(), name)
}

fn is_among(names: &[&str], name: &[u8]) -> bool
    ensures { result ≡ list_any (λ k. bytes_eq k.now name.now) names.now }
{
    names.iter().any(|k| k.as_bytes() == name)
}

/// The first key that may be meant by a name.
pub fn meant_key(name: &[u8]) -> Option<&'static str>
    ensures { option_map (λ t. t.now) result ≡ meant_key name.now }
{
    first_meant(KEYS.as_slice(), name)
}

fn first_meant(keys: &[&'static str], name: &[u8]) -> Option<&'static str>
    ensures { option_map (λ t. t.now) result
        ≡ option_map (λ t. t.now) (find (λ k. is_meant name.now k.now) keys.now) }
{
    keys.iter().find(|k| is_meant(name, k.as_bytes())).copied()
}

/// Whether a key is meant by a name.
fn is_meant(name: &[u8], key: &[u8]) -> bool
    ensures { result ≡ is_meant name.now key.now }
{
    is_like(name, key) || is_plural(name, key)
}

/// Whether a name is a key with an `es` at its end.
fn is_plural(name: &[u8], key: &[u8]) -> bool
    ensures { result ≡ is_plural name.now key.now }
{
    name.ends_with(b"es") && &name[..name.len() - 2] == key
}

/// Adds the words of a key that no policy has, with the one that may be meant by it.
#[tactic(auto, unfolding(crate::specs::Keys::odd_key_text))]
pub fn push_odd_key(sheet: &mut Vec<u8>, key: OddKey<'_>) -> Result<(), AllocError>
    ensures { OnOk result (sheet.new.items ≡ sheet.old.items ++ odd_key_text (plain_odd key.entry)) }
{
    sheet.extend_from_slice(b"`")?;
    sheet.extend_from_slice(front_of(MOST_SHOWN, key.name))?;
    sheet.extend_from_slice(IN_LINE.as_bytes())?;
    push_decimal(sheet, key.line)?;
    push_meant(sheet, meant_key(key.name))
}

/// Adds what is said of a key that no policy has.
fn push_meant(sheet: &mut Vec<u8>, key: Option<&str>) -> Result<(), AllocError>
    ensures { OnOk result (sheet.new.items
        ≡ sheet.old.items ++ meant_text (option_map (λ t. t.now) key.entry)) }
{
    match key {
        None => sheet.extend_from_slice(NO_KEY.as_bytes()),
        Some(key) => {
            sheet.extend_from_slice(MEANT_KEY.as_bytes())?;
            sheet.extend_from_slice(key.as_bytes())?;
            sheet.extend_from_slice(AFTER_MEANT_KEY.as_bytes())
        }
    }
}
