//! Policies of the lines of a file.

use ds_policy::Policy;
use std::alloc::{AllocError, Global};

/// The words of a text, each on a line of its own.
fn lines_of(alloc: Global, words: &str) -> Result<String, AllocError> {
    let mut lines = String::new(alloc);
    for word in words.split_whitespace() {
        lines.push_str(word)?;
        lines.push('\n')?;
    }
    Ok(lines)
}

/// A policy whose text has blanks in place of the ends of its lines. None where there is no such policy,
/// or no memory for it.
pub fn policy_of(alloc: Global, words: &str) -> Option<Policy> {
    let text = lines_of(alloc, words).ok()?;
    Policy::read(alloc, text.as_bytes()).ok()
}
