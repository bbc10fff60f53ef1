//! Where in a line of an input stands what is wrong with it.
ghost use Rattle.std.specs.Prelude.{◌≡◌, ◌==◌, ◌-◌, position, if◌then◌else◌};
ghost use Rattle.ds_policy_reasons.specs.CausePlaces.{cause_place, word_from};

use ds_policy::{InputCause, two_blanks_place};

/// Where in its line begins what a cause is about, in bytes: the byte that may not stand there, or
/// the word that is wrong. A line with too few words or too many, and one event too many, have no
/// such place.
pub fn cause_place(cause: InputCause, line: &[u8]) -> Option<usize>
    ensures { result ≡ cause_place cause line.now }
{
    match cause {
        InputCause::CarriageReturn => byte_place(b'\r', line),
        InputCause::Tab => byte_place(b'\t', line),
        InputCause::BlankAtEnd => Some(line.len().saturating_sub(1)),
        InputCause::TwoBlanks => two_blanks_place(line),
        InputCause::BlankAtStart | InputCause::BadTime | InputCause::EarlierTime => Some(0),
        InputCause::UnknownEvent => word_place(1, line),
        InputCause::BadProcess | InputCause::BadLine => word_place(2, line),
        InputCause::BadAddress | InputCause::BadBytes => word_place(3, line),
        InputCause::UnknownPage => word_place(4, line),
        InputCause::BadRight => word_place(5, line),
        InputCause::BadGive => word_place(6, line),
        InputCause::WordCount | InputCause::TooManyEvents => None,
    }
}

fn byte_place(byte: u8, line: &[u8]) -> Option<usize>
    ensures { result ≡ position (λ b. b == byte) line.now }
{
    line.iter().position(|b| *b == byte)
}

/// Where the word begins that so many blanks stand before.
fn word_place(blanks: usize, line: &[u8]) -> Option<usize>
    ensures { result ≡ word_from 0 blanks line.now }
{
    let mut place = 0;
    let mut more = blanks;
    let mut left = line;
    while let [first, rest @ ..] = left {
        if more == 0 {
            return Some(place);
        }
        more = blanks_after(more, *first);
        place += 1;
        left = rest;
    }
    None
}

/// How many blanks are to come after this byte.
fn blanks_after(blanks: usize, byte: u8) -> usize
    ensures { result ≡ (if byte == 32 then blanks - 1 else blanks) }
{
    if byte == b' ' {
        blanks.saturating_sub(1)
    } else {
        blanks
    }
}
