//! Indexes: files of lines, each of which is run.

use crate::outcome::Outcome;
use ds_drive::Files;
use std::alloc::Global;
use std::io;
use std::io::{ErrorKind, Write};

/// A way to run the lines of an index.
pub trait Lines {
    /// Runs a line; its outcome. What came that is not as expected is told on `out`, or on `err` where it
    /// is the text of a command.
    fn run<W: Write, E: Write>(
        &self,
        alloc: Global,
        line: &str,
        out: &mut W,
        err: &mut E,
    ) -> io::Result<Outcome>;
}

/// Runs each line of an index, and writes it with its outcome. The status is 0 where there is a line
/// and each is as expected, else 1.
pub fn run_index<F: Files + Drop, L: Lines, W: Write, E: Write>(
    alloc: Global,
    index: &str,
    files: F,
    lines: &L,
    out: &mut W,
    err: &mut E,
) -> io::Result<u8> {
    let mut files = files;
    let Ok(bytes) = files.read(alloc, index) else {
        return Err(io::Error::from(ErrorKind::NotFound));
    };
    let Ok(text) = std::str::from_utf8(bytes.as_slice()) else {
        return Err(io::Error::from(ErrorKind::InvalidData));
    };
    let mut status = if text.is_empty() { 1 } else { 0 };
    for line in text.lines() {
        let outcome = lines.run(alloc, line, out, err)?;
        write!(out, "{line}: {outcome}\n")?;
        if !outcome.is_well() {
            status = 1;
        }
    }
    Ok(status)
}
