//! The outcome of a command.
ghost use Rattle.std.specs.Prelude.{◌≡◌, ◌++◌, IfOk, decimal};

use crate::outcome::{Outcome, first_difference};
use crate::steps::stations_write;
use ds_drive::{Files, drive};
use std::alloc::{AllocError, Global};
use std::io;
use std::io::Write;

/// The outcome of a command.
#[derive(Drop)]
pub struct Came {
    /// Its status.
    pub status: u8,
    /// What it wrote to standard output.
    pub out: Vec<u8>,
    /// What it wrote to standard error.
    pub err: Vec<u8>,
}

impl Came {
    /// The outcome of these words over these files.
    pub fn of<F: Files + Drop>(alloc: Global, words: &[String], files: F) -> Came {
        let mut files = files;
        let mut out: Vec<u8> = Vec::new(alloc);
        let mut err: Vec<u8> = Vec::new(alloc);
        let status = drive(alloc, words, &mut files, &mut out, &mut err);
        Came { status, out, err }
    }

    /// All that it wrote, to standard output and then to standard error.
    pub fn told(&self, alloc: Global) -> Result<Vec<u8>, AllocError>
        ensures { IfOk result (λ told. told.items ≡ self.now.out.items ++ self.now.err.items) }
    {
        let mut told = Vec::new(alloc);
        told.extend_from_slice(&self.out)?;
        told.extend_from_slice(&self.err)?;
        Ok(told)
    }

    /// The outcome, where this status (in decimal digits) and this text are expected, and no more.
    pub fn compared(&self, alloc: Global, status: &str, text: &[u8]) -> Result<Outcome, AllocError>
        ensures status { IfOk result (λ outcome. outcome ≡ Outcome.AsExpected
            → decimal self.now.status ≡ status.now) }
        ensures text { IfOk result (λ outcome. outcome ≡ Outcome.AsExpected
            → self.now.out.items ++ self.now.err.items ≡ text.now) }
    {
        if self.status.to_string(alloc)?.as_str() != status {
            return Ok(Outcome::Ended(self.status));
        }
        let told = self.told(alloc)?;
        match first_difference(text, told.as_slice()) {
            Some(n) => Ok(Outcome::Differs(n)),
            None => Ok(Outcome::AsExpected),
        }
    }

    /// This outcome, where the words were these. Where it is not as expected, what came is told on
    /// `err`. At status 0 stations that are stepped and run by hand over these files have to write
    /// what the command wrote.
    pub fn checked<F: Files + Drop, E: Write>(
        &self,
        alloc: Global,
        outcome: Outcome,
        words: &[String],
        files: F,
        err: &mut E,
    ) -> io::Result<Outcome> {
        if outcome != Outcome::AsExpected {
            err.write_all(self.out.as_slice())?;
            err.write_all(self.err.as_slice())?;
            return Ok(outcome);
        }
        if self.status == 0 && !stations_write(alloc, words, files, self.out.as_slice()) {
            return Ok(Outcome::StepsDiffer);
        }
        Ok(outcome)
    }
}
