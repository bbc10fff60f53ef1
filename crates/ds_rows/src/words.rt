//! The words of a line.

use std::alloc::{AllocError, Global};

/// The words of a line, with one space between.
pub fn words_of<'a>(alloc: Global, line: &'a str) -> Result<Vec<&'a str>, AllocError> {
    line.split(' ').collect(alloc)
}

/// The first three of some words, and the others.
pub fn first_three<'a, 'b>(
    words: &'b [&'a str],
) -> Option<(&'a str, &'a str, &'a str, &'b [&'a str])> {
    let (first, words) = words.split_first()?;
    let (second, words) = words.split_first()?;
    let (third, words) = words.split_first()?;
    Some((*first, *second, *third, words))
}

/// The words of a command, after the program's name.
pub fn command_of(alloc: Global, words: &[&str]) -> Result<Vec<String>, AllocError> {
    let mut command = Vec::new(alloc);
    command.push(String::from_str(alloc, "dsmon")?)?;
    push_words(alloc, &mut command, words)?;
    Ok(command)
}

/// Adds words to those of a command.
pub fn push_words(
    alloc: Global,
    command: &mut Vec<String>,
    words: &[&str],
) -> Result<(), AllocError> {
    for word in words {
        command.push(String::from_str(alloc, word)?)?;
    }
    Ok(())
}
