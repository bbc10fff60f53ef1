//! Characters of a source, and the parts of a line.
ghost use Rattle.std.specs.Prelude.{◌≡◌, ◌≤◌, ◌<◌, ◌==◌, ◌||◌, length, map, option_map, take};
ghost use Rattle.std.specs.List.{list_all, prefix_len, suffix_len, position_or_len, before_first, after_first};
ghost use Rattle.ds_asm.specs.Characters.{is_blank, is_letter, is_digit, is_name, without_front_blanks, without_back_blanks, trimmed, first_word, after_word, until, text_after};

use memchr::memchr;

/// How many characters a name has at most.
const MOST_NAME: usize = 32;

/// Whether a character is a space, a tab or a carriage return.
pub fn is_blank(c: u8) -> bool
    ensures { result ≡ is_blank c }
{
    c == b' ' || c == b'\t' || c == b'\r'
}

/// Whether a character is a letter or the underscore.
pub fn is_letter(c: u8) -> bool
    ensures { result ≡ is_letter c }
{
    (b'a' <= c && c <= b'z') || (b'A' <= c && c <= b'Z') || c == b'_'
}

/// Whether a character is a decimal digit.
pub fn is_digit(c: u8) -> bool
    ensures { result ≡ is_digit c }
{
    b'0' <= c && c <= b'9'
}

/// Whether a text is a letter and then at most 31 letters and digits.
pub fn is_name(text: &[u8]) -> bool
    ensures { result ≡ is_name text.now }
{
    match text {
        [] => false,
        [first, rest @ ..] => is_letter(*first)
            && rest.len() < MOST_NAME
            && has_letters_and_digits(rest),
    }
}

fn has_letters_and_digits(text: &[u8]) -> bool
    ensures { result ≡ list_all (λ c. is_letter c || is_digit c) text.now }
{
    text.iter().all(|c| is_letter(*c) || is_digit(*c))
}

fn count_front_blanks(text: &[u8]) -> usize
    ensures exact { result ≡ prefix_len is_blank text.now }
    ensures within { result ≤ length text.now }
{
    text.iter().take_while(|c| is_blank(**c)).count()
}

/// A text without the blanks at its front.
pub fn without_front_blanks(text: &[u8]) -> &[u8]
    ensures { result.now ≡ without_front_blanks text.now }
{
    let count = count_front_blanks(text);
    &text[count..]
}

fn count_back_blanks(text: &[u8]) -> usize
    ensures exact { result ≡ suffix_len is_blank text.now }
    ensures within { result ≤ length text.now }
{
    text.iter().rev().take_while(|c| is_blank(**c)).count()
}

/// A text without the blanks at its end.
pub fn without_back_blanks(text: &[u8]) -> &[u8]
    ensures { result.now ≡ without_back_blanks text.now }
{
    let count = count_back_blanks(text);
    &text[..text.len() - count]
}

/// A text without the blanks at its ends.
pub fn trimmed(text: &[u8]) -> &[u8]
    ensures { result.now ≡ trimmed text.now }
{
    without_back_blanks(without_front_blanks(text))
}

/// The first word of a text, and what stands after it and its blanks.
pub fn split_word(text: &[u8]) -> (&[u8], &[u8])
    ensures word { result.0.now ≡ first_word text.now }
    ensures after { result.1.now ≡ after_word text.now }
{
    let end = word_len(text);
    (&text[..end], without_front_blanks(&text[end..]))
}

fn word_len(text: &[u8]) -> usize
    ensures exact { result ≡ position_or_len is_blank text.now }
    ensures within { result ≤ length text.now }
{
    text.iter().take_while(|c| !is_blank(**c)).count()
}

/// Where the first character `c` stands, or the text's length.
pub(crate) fn byte_place_or_end(c: u8, text: &[u8]) -> usize
    ensures exact { result ≡ position_or_len (λ b. b == c) text.now }
    ensures within { result ≤ length text.now }
{
    memchr(c, text).unwrap_or(text.len())
}

/// What stands before the first character `c`, or the whole text.
pub fn until(c: u8, text: &[u8]) -> &[u8]
    ensures { result.now ≡ until c text.now }
{
    let place = byte_place_or_end(c, text);
    &text[..place]
}

/// What stands before the first character `c`, and after it if there is one.
pub fn split_at_first(c: u8, text: &[u8]) -> (&[u8], Option<&[u8]>)
    ensures front { result.0.now ≡ until c text.now }
    ensures back { option_map (λ t. t.now) result.1 ≡ text_after c text.now }
{
    let place = byte_place_or_end(c, text);
    if place < text.len() {
        (&text[..place], Some(&text[place + 1..]))
    } else {
        (text, None)
    }
}

/// So many characters of a text, or all where they are fewer.
pub fn front_of(most: usize, text: &[u8]) -> &[u8]
    ensures { result.now ≡ take most text.now }
{
    if most < text.len() {
        &text[..most]
    } else {
        text
    }
}
