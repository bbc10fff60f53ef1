//! What is told of a refusal.

use ds_check::mend_text;

/// The numbers of refusals that are mended, each with the first of the words that tell how.
const MENDED: [(u32, &str); 13] = [
    (1, "R is outside 8 to 63"),
    (3, "The line cannot be read."),
    (4, "A branch, a jump or `.word`"),
    (5, "An earlier line has the label"),
    (6, "One of four things."),
    (7, "The image passes 65,536 bytes"),
    (8, "The text is no TOML document"),
    (9, "Rules count from 1"),
    (10, "The value of the root key"),
    (20, "The line is no event"),
    (24, "`run_files` or `run_policy`"),
    (25, "The host has no memory left."),
    (26, "There is no such file"),
];

/// Whether a number's words begin so, and end their line.
fn is_mended(number: u32, first: &str) -> bool {
    match mend_text(number) {
        Some(words) => words.starts_with(first) && words.ends_with("\n"),
        None => false,
    }
}

/// Whether each number's words begin so.
fn are_mended() -> bool {
    let mut right = true;
    for (number, first) in MENDED {
        right = right && is_mended(number, first);
    }
    right
}

#[test]
fn refusals_are_mended_by_their_numbers(rt: HostRuntime) {
    assert!(rt; are_mended());
}

/// Whether none of the other numbers has words.
fn are_others_left() -> bool {
    let mut none = true;
    for number in [0, 2, 11, 19, 21, 23, 27u32] {
        none = none && mend_text(number).is_none();
    }
    none
}

#[test]
fn other_numbers_are_not_mended(rt: HostRuntime) {
    assert!(rt; are_others_left());
}
