//! Words that run nothing, each with a part of what they are told.

use crate::came::Came;
use crate::index::Lines;
use crate::outcome::Outcome;
use crate::words::{push_words, words_of};
use ds_drive::Files;
use std::alloc::{AllocError, Global};
use std::io;
use std::io::Write;

/// Words, one command a line: all its words with one space between, a bar, and what has to stand in the
/// text on standard error. The status has to be 1, and nothing may go to standard output.
#[derive(Drop)]
pub struct Told<F> {
    /// Where the files of the commands lie.
    pub files: F,
}

impl<F: Files + Copy + Drop> Lines for Told<F> {
    fn run<W: Write, E: Write>(
        &self,
        alloc: Global,
        line: &str,
        _out: &mut W,
        err: &mut E,
    ) -> io::Result<Outcome> {
        let Some((words, wanted)) = line.split_once('|') else {
            return Ok(Outcome::NoForm);
        };
        let words = all_words(alloc, words)?;
        let came = Came::of(alloc, words.as_slice(), self.files);
        let outcome = came.told_what(wanted);
        if outcome != Outcome::AsExpected {
            err.write_all(came.err.as_slice())?;
        }
        Ok(outcome)
    }
}

/// The words of a command; an empty line has none.
fn all_words(alloc: Global, line: &str) -> Result<Vec<String>, AllocError> {
    let mut command = Vec::new(alloc);
    if !line.is_empty() {
        let words = words_of(alloc, line)?;
        push_words(alloc, &mut command, words.as_slice())?;
    }
    Ok(command)
}

impl Came {
    /// The outcome, where status 1, no output, and this among other things on standard error are expected.
    fn told_what(&self, wanted: &str) -> Outcome {
        if self.status != 1 {
            return Outcome::Ended(self.status);
        }
        match std::str::from_utf8(self.err.as_slice()) {
            Ok(text) if self.out.is_empty() && text.contains(wanted) => Outcome::AsExpected,
            _ => Outcome::Untold,
        }
    }
}
