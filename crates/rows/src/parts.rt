//! What the workstation's parts answer, from words to grants, and programs on the processor alone.

mod exceptions;
mod grants;
mod lines;
mod machine;
mod numbers;
mod processor;
mod programs;
mod reached;
mod stage;
mod told;
mod verbs;

use ds_drive::Files;
use ds_rows::{Lines, Outcome, words_of};
use ds_tlb::{Indexed, Tlb};
use lines::run_lines;
use programs::run_program;
pub use programs::{run_ahead, run_random};
use std::alloc::Global;
use std::io;
use std::io::Write;
use verbs::Part;

/// Tables of cases on the workstation's parts, and programs, one a line.
#[derive(Drop)]
pub struct Parts<F> {
    /// Where the files of the lines lie.
    pub files: F,
}

impl<F: Files + Copy + Drop> Lines for Parts<F> {
    fn run<W: Write, E: Write>(
        &self,
        alloc: Global,
        line: &str,
        out: &mut W,
        _err: &mut E,
    ) -> io::Result<Outcome> {
        let words = words_of(alloc, line)?;
        match words.as_slice() {
            ["machine", file, buffer] => {
                run_over(alloc, Part::Machine, file, buffer, self.files, out)
            }
            ["grants", file, buffer] => {
                run_over(alloc, Part::Grants, file, buffer, self.files, out)
            }
            ["program", source] => run_program(alloc, source, self.files, out),
            ["random", count] => run_random(alloc, count.parse().unwrap_or(0), out),
            _ => Ok(Outcome::NoForm),
        }
    }
}

/// Runs the lines of a file over the buffer of a name; how they came out.
fn run_over<F: Files + Drop, W: Write>(
    alloc: Global,
    part: Part,
    file: &str,
    buffer: &str,
    files: F,
    out: &mut W,
) -> io::Result<Outcome> {
    let mut files = files;
    let Ok(bytes) = files.read(alloc, file) else {
        return Ok(Outcome::NoFile);
    };
    match (std::str::from_utf8(bytes.as_slice()), buffer) {
        (Ok(text), "searched") => run_lines::<Tlb<64, 8>, W>(alloc, part, file, text, out),
        (Ok(text), "indexed") => run_lines::<Indexed<64, 8>, W>(alloc, part, file, text, out),
        _ => Ok(Outcome::NoForm),
    }
}
