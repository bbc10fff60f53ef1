//! Tables: a command each, with many texts of one of its files, and what is expected of each.

use crate::came::Came;
use crate::case::{Case, Expected, cases_of};
use crate::files::{FolderFiles, Put};
use crate::index::Lines;
use crate::outcome::Outcome;
use crate::words::{command_of, first_three, words_of};
use ds_drive::Files;
use std::alloc::{AllocError, Global};
use std::io;
use std::io::Write;

/// Tables, one a line, each with how many of its cases are as expected; each other case is written with its
/// outcome.
#[derive(Drop)]
pub struct Tables<F> {
    /// Where the folders of the tables lie.
    pub files: F,
}

impl<F: Files + Copy + Drop> Lines for Tables<F> {
    fn run<W: Write, E: Write>(
        &self,
        alloc: Global,
        line: &str,
        out: &mut W,
        err: &mut E,
    ) -> io::Result<Outcome> {
        let words = words_of(alloc, line)?;
        run_table(alloc, words.as_slice(), self.files, out, err)
    }
}

/// A table: the folder of its files, the file that differs from case to case, and the command.
#[derive(Clone, Copy)]
struct Table<'a> {
    folder: &'a str,
    file: &'a str,
    command: &'a [String],
}

impl<'a> Table<'a> {
    /// The files of the table's folder, with the text of a case in place of one.
    fn place<'b, F: Files>(&'b self, files: F, case: &'b Case) -> FolderFiles<'b, F> {
        FolderFiles {
            files,
            folder: self.folder,
            put: Some(Put {
                name: self.file,
                text: case.text.as_slice(),
            }),
        }
    }
}

/// Runs the table of these words; how its cases came out.
fn run_table<F: Files + Copy + Drop, W: Write, E: Write>(
    alloc: Global,
    words: &[&str],
    files: F,
    out: &mut W,
    err: &mut E,
) -> io::Result<Outcome> {
    let Some((folder, file, cases, words)) = first_three(words) else {
        return Ok(Outcome::NoForm);
    };
    let command = command_of(alloc, words)?;
    let table = Table {
        folder,
        file,
        command: command.as_slice(),
    };
    match read_cases(alloc, FolderFiles::of(files, folder), cases)? {
        Ok(cases) => run_cases(alloc, files, &table, cases.as_slice(), out, err),
        Err(outcome) => Ok(outcome),
    }
}

/// The cases of a file.
fn read_cases<F: Files + Drop>(
    alloc: Global,
    files: F,
    file: &str,
) -> Result<Result<Vec<Case>, Outcome>, AllocError> {
    let mut files = files;
    let Ok(bytes) = files.read(alloc, file) else {
        return Ok(Err(Outcome::NoFile));
    };
    let Ok(text) = std::str::from_utf8(bytes.as_slice()) else {
        return Ok(Err(Outcome::NoForm));
    };
    match cases_of(alloc, text)? {
        Some(cases) => Ok(Ok(cases)),
        None => Ok(Err(Outcome::NoForm)),
    }
}

/// Runs the cases of a table, and writes the name and outcome of each that is not as expected; how they
/// came out.
fn run_cases<'a, F: Files + Copy + Drop, W: Write, E: Write>(
    alloc: Global,
    files: F,
    table: &Table<'a>,
    cases: &[Case],
    out: &mut W,
    err: &mut E,
) -> io::Result<Outcome> {
    let mut others = 0u64;
    for case in cases {
        let outcome = run_case(alloc, files, table, case, err)?;
        if outcome != Outcome::AsExpected {
            others = others.saturating_add(1);
            write!(out, "{}: {outcome}\n", case.name)?;
        }
    }
    Ok(Outcome::of_cases(cases.len() as u64, others))
}

/// Runs a case of a table, and compares its outcome with what is expected. At status 0
/// stations that are stepped and run by hand have to write the text that is written.
fn run_case<'a, F: Files + Copy + Drop, E: Write>(
    alloc: Global,
    files: F,
    table: &Table<'a>,
    case: &Case,
    err: &mut E,
) -> io::Result<Outcome> {
    let came = Came::of(alloc, table.command, table.place(files, case));
    let outcome = case_outcome(alloc, case, &came)?;
    came.checked(alloc, outcome, table.command, table.place(files, case), err)
}

/// The outcome of a case, compared with what is expected of it.
fn case_outcome(alloc: Global, case: &Case, came: &Came) -> Result<Outcome, AllocError> {
    match &case.expected {
        None => Ok(Outcome::NoForm),
        Some(Expected::Refused(refusal)) => {
            let mut told = Vec::new(alloc);
            told.extend_from_slice(b"dsmon: ")?;
            told.extend_from_slice(refusal)?;
            came.compared(alloc, "2", &told)
        }
        Some(Expected::Done) => {
            let told = came.told(alloc)?;
            came.compared(alloc, "0", told.as_slice())
        }
        Some(Expected::Writes(text)) => came.compared(alloc, "0", text.as_slice()),
    }
}
