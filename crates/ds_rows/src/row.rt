//! Rows: a command each, with the text that is expected of it.

use crate::came::Came;
use crate::files::FolderFiles;
use crate::index::Lines;
use crate::outcome::Outcome;
use crate::words::{command_of, first_three, words_of};
use ds_drive::Files;
use std::alloc::Global;
use std::io;
use std::io::Write;

/// Rows, one a line: their status and their text are compared with what is expected. At status 0
/// stations that are stepped and run by hand have to write what a row writes, too.
#[derive(Drop)]
pub struct Rows<F> {
    /// Where the folders of the rows lie.
    pub files: F,
}

impl<F: Files + Copy + Drop> Lines for Rows<F> {
    fn run<W: Write, E: Write>(
        &self,
        alloc: Global,
        line: &str,
        _out: &mut W,
        err: &mut E,
    ) -> io::Result<Outcome> {
        let words = words_of(alloc, line)?;
        run_row(alloc, words.as_slice(), self.files, err)
    }
}

/// Runs the row of these words, and compares its outcome with what is expected.
fn run_row<F: Files + Copy + Drop, E: Write>(
    alloc: Global,
    words: &[&str],
    files: F,
    err: &mut E,
) -> io::Result<Outcome> {
    let Some((folder, status, file, words)) = first_three(words) else {
        return Ok(Outcome::NoForm);
    };
    let Ok(text) = FolderFiles::of(files, folder).read(alloc, file) else {
        return Ok(Outcome::NoFile);
    };
    let command = command_of(alloc, words)?;
    let came = Came::of(alloc, command.as_slice(), FolderFiles::of(files, folder));
    let outcome = came.compared(alloc, status, text.as_slice())?;
    let place = FolderFiles::of(files, folder);
    came.checked(alloc, outcome, command.as_slice(), place, err)
}
