//! Where in its text a key of a policy stands, or an item of one of its arrays. The library tells no
//! places of values, so they are looked for line by line.
ghost use Rattle.std.specs.Prelude.{◌≡◌, ◌≤◌, ◌==◌, ◌&&◌, ◌-◌, nat_le, length, if◌then◌else◌, option_map, IfSome};
ghost use Rattle.std.specs.List.{prefix_len};
ghost use Rattle.ds_asm.specs.Assembly.{lines_of};
ghost use Rattle.ds_check.specs.Items.{begins_key, begins_with_word, brace_from, ends_key, header_from, header_of, is_blank, item_place, key_from, key_of, root_key_place, said_in, start_in, table_place};

use crate::lines::after_lines;
use crate::places::{Place, next_place};
use ds_asm::first_line;

/// The arrays of a policy.
#[derive(Clone, Copy, Debug, PartialEq, Eq)]
pub enum Items {
    Processes,
    Pages,
    Rules,
}

impl Items {
    /// The key of the array.
    fn key(self) -> &'static [u8]
        ensures { result.now ≡ key_of self }
    {
        match self {
            Items::Processes => b"process",
            Items::Pages => b"page",
            Items::Rules => b"rule",
        }
    }

    /// What the line before an item's keys begins with.
    fn header(self) -> &'static [u8]
        ensures { result.now ≡ header_of self }
    {
        match self {
            Items::Processes => b"[[process]]",
            Items::Pages => b"[[page]]",
            Items::Rules => b"[[rule]]",
        }
    }
}

/// Where a root key stands: at the beginning of its line, after blanks, before any line that begins
/// with a bracket.
pub fn root_key_place(text: &[u8], key: &str) -> Option<Place>
    requires { length text.now ≤ 16777216 }
    ensures { result ≡ root_key_place text.now key.now }
{
    match key_line(key.as_bytes(), 1, text) {
        Some(line) => Some(start_in(text, line)),
        None => None,
    }
}

/// Where an item of an array stands, which count from 1, or a key of that item. An item with a
/// header such as `[[rule]]` stands there, and its key at the beginning of a line below it; an item
/// of `rule = [..]` stands at its brace, with all its keys. An array that is written in another way
/// has no places.
pub fn item_place(text: &[u8], items: Items, number: u32, key: Option<&str>) -> Option<Place>
    requires { length text.now ≤ 16777216 }
    ensures { result ≡ item_place text.now items number (option_map (λ k. k.now) key.entry) }
{
    match key_line(items.key(), 1, text) {
        Some(first) => brace_place(first, number, text),
        None => match header_line(items.header(), number, text) {
            Some(line) => Some(table_place(text, key, line)),
            None => None,
        },
    }
}

/// Where the key stands of an item that has its header in this line, or else the header.
fn table_place(text: &[u8], key: Option<&str>, header: u64) -> Place
    requires length { length text.now ≤ 16777216 }
    requires header { header ≤ 16777216 }
    ensures { result ≡ table_place text.now (option_map (λ k. k.now) key.entry) header }
{
    let below = match key {
        Some(key) => key_line(key.as_bytes(), header + 1, after_lines(text, header)),
        None => None,
    };
    start_in(text, below.unwrap_or(header))
}

/// The number of the first line of a text that begins with a key, where the text begins with line
/// `first`; lines from one on that begins with a bracket are none of them.
fn key_line(key: &[u8], first: u64, text: &[u8]) -> Option<u64>
    requires length { length text.now ≤ 16777216 }
    requires first { first ≤ 16777217 }
    ensures { result ≡ key_from key.now first (lines_of text.now) }
{
    let mut number = first;
    let mut left = text;
    while !left.is_empty() {
        let (line, rest) = first_line(left);
        if begins_with_word(b"[", line) {
            return None;
        }
        if begins_key(key, line) {
            return Some(number);
        }
        number += 1;
        left = rest;
    }
    None
}

/// The number of the line with this header that so many have before it, from 1.
fn header_line(header: &[u8], wanted: u32, text: &[u8]) -> Option<u64>
    requires { length text.now ≤ 16777216 }
    ensures exact { result ≡ header_from header.now 1 wanted (lines_of text.now) }
    ensures within { IfSome result (λ n. n ≤ length text.now) }
{
    let mut number = 1;
    let mut more = wanted;
    let mut left = text;
    while !left.is_empty() {
        let (line, rest) = first_line(left);
        let is_one = begins_with_word(header, line);
        if is_last(is_one, more) {
            return Some(number);
        }
        more = one_less(is_one, more);
        number += 1;
        left = rest;
    }
    None
}

/// Where the brace stands that so many have before it, from 1, in this line of a text or after it.
fn brace_place(line: u64, wanted: u32, text: &[u8]) -> Option<Place>
    requires { length text.now ≤ 16777216 }
    ensures { result ≡ brace_from line (record { line = 1; column = 1 }) wanted text.now }
{
    let mut place = Place { line: 1, column: 1 };
    let mut more = wanted;
    let mut left = text;
    while let [byte, rest @ ..] = left {
        let is_one = *byte == b'{' && line <= place.line;
        if is_last(is_one, more) {
            return Some(place);
        }
        more = one_less(is_one, more);
        place = next_place(place, *byte);
        left = rest;
    }
    None
}

/// Whether one is the last of so many that are wanted.
fn is_last(is_one: bool, count: u32) -> bool
    ensures { result ≡ (is_one && nat_le count 1) }
{
    is_one && count <= 1
}

/// How many are wanted after one, or after none.
fn one_less(is_one: bool, count: u32) -> u32
    ensures { result ≡ (if is_one then count - 1 else count) }
{
    if is_one {
        count.saturating_sub(1)
    } else {
        count
    }
}

/// Where the line of this number begins, after blanks.
#[tactic(auto, using(crate::proofs::LineSteps::first_left))]
fn start_in(text: &[u8], number: u64) -> Place
    requires { length text.now ≤ 16777216 }
    ensures { result ≡ start_in text.now number }
{
    let (line, _) = first_line(after_lines(text, number.saturating_sub(1)));
    Place {
        line: number,
        column: count_blanks(line) as u64 + 1,
    }
}

/// Whether a line begins with a key, after blanks.
fn begins_key(key: &[u8], line: &[u8]) -> bool
    ensures { result ≡ begins_key key.now line.now }
{
    begins_with_word(key, line) && ends_key(said_in(line).get(key.len()))
}

/// Whether this is what may stand directly after a key.
fn ends_key(byte: Option<&u8>) -> bool
    ensures { result ≡ ends_key (option_map (λ b. b.now) byte.entry) }
{
    match byte {
        Some(byte) => matches!(*byte, b' ' | b'\t' | b'='),
        None => false,
    }
}

/// Whether a line begins with a word, after blanks.
fn begins_with_word(word: &[u8], line: &[u8]) -> bool
    ensures { result ≡ begins_with_word word.now line.now }
{
    said_in(line).starts_with(word)
}

/// What a line says after the blanks that it begins with.
fn said_in(line: &[u8]) -> &[u8]
    ensures { result.now ≡ said_in line.now }
{
    &line[count_blanks(line)..]
}

/// How many blanks a line begins with.
fn count_blanks(line: &[u8]) -> usize
    ensures exact { result ≡ prefix_len is_blank line.now }
    ensures within { result ≤ length line.now }
{
    line.iter()
        .take_while(|b| **b == b' ' || **b == b'\t')
        .count()
}
