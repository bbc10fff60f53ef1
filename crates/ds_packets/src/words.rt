//! Words of a packet: parts, numbers, and processes.
ghost use Rattle.std.specs.Prelude.{◌≡◌, ◌<◌, ◌==◌, length, position, IfSome};
ghost use Rattle.std.specs.Option.{option_copied};
ghost use Rattle.ds_packets.specs.Words.{after_mark, before, is_thread, named, hex_number, process_numbered, pair_at, threaded, who_of};
ghost use Rattle.ds_packets.specs.Inner.Words.{later};

use crate::packet::Who;
use ds_word::number_of_digits;

/// The place of the first byte that is this one.
fn byte_place(text: &[u8], mark: u8) -> Option<usize>
    ensures { result ≡ position (λ b. b == mark) text.now }
{
    text.iter().position(|b| *b == mark)
}

/// What stands before the first byte that is this one, or all where none is, and what stands after it.
#[tactic(auto, using(crate::proofs::Cuts::cut_some, crate::proofs::Cuts::cut_none))]
pub fn cut_at(text: &[u8], mark: u8) -> (&[u8], &[u8])
    ensures front { result.0.now ≡ before mark text.now }
    ensures back { result.1.now ≡ after_mark mark text.now }
{
    match byte_place(text, mark) {
        Some(place) => (&text[..place], &text[place + 1..]),
        None => (text, &[]),
    }
}

/// The first word of a list, and the words after it, if there are more.
#[tactic(auto, using(crate::proofs::Parts::later_some, crate::proofs::Parts::later_none))]
pub(crate) fn part_at(text: &[u8]) -> (&[u8], Option<&[u8]>)
    ensures front { result.0.now ≡ before 59 text.now }
    ensures back { option_copied result.1 ≡ later text.now }
    ensures shorter { IfSome result.1 (λ rest. length rest.now < length text.now) }
{
    match byte_place(text, b';') {
        Some(place) => (&text[..place], Some(&text[place + 1..])),
        None => (text, None),
    }
}

/// The number of one to eight hexadecimal digits.
pub(crate) fn hex_number(word: &[u8]) -> Option<u32>
    ensures { result ≡ hex_number word.now }
{
    if word.len() >= 1 && word.len() <= 8 {
        Some(number_of_digits(16, u64::from(u32::MAX), word)? as u32)
    } else {
        None
    }
}

/// The two numbers on both sides of a comma.
pub(crate) fn pair_at(word: &[u8]) -> Option<(u32, u32)>
    ensures { result ≡ pair_at word.now }
{
    let (first, second) = cut_at(word, b',');
    let first = hex_number(first)?;
    let second = hex_number(second)?;
    Some((first, second))
}

/// The process of a number; 0 is any.
fn process_numbered(number: u32) -> Who
    ensures { result ≡ process_numbered number }
{
    if number == 0 {
        Who::Any
    } else {
        Who::Process(number)
    }
}

/// The processes that a word names: -1 is all of them.
fn named(word: &[u8]) -> Option<Who>
    ensures { result ≡ named word.now }
{
    if word == b"-1".as_slice() {
        Some(Who::All)
    } else {
        Some(process_numbered(hex_number(word)?))
    }
}

/// Whether a word names the one thread of a process, or all.
fn is_thread(word: &[u8]) -> bool
    ensures { result ≡ is_thread word.now }
{
    word.is_empty()
        || word == b"1".as_slice()
        || word == b"0".as_slice()
        || word == b"-1".as_slice()
}

/// The processes that a word names, with a point and one thread of theirs, or all.
fn threaded(word: &[u8]) -> Option<Who>
    ensures { result ≡ threaded word.now }
{
    let (process, thread) = cut_at(word, b'.');
    if is_thread(thread) {
        named(process)
    } else {
        None
    }
}

/// The processes of a thread's name, as `p2.1`, `p2.-1`, `2`, `-1` and `0`.
pub(crate) fn who_of(word: &[u8]) -> Option<Who>
    ensures { result ≡ who_of word.now }
{
    match word {
        [first, rest @ ..] if *first == b'p' => threaded(rest),
        _ => named(word),
    }
}
