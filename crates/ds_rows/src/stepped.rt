//! Stepped runs: what a station comes to by each of its steps.
ghost use Rattle.std.specs.Prelude.{◌≡◌};

use crate::files::FolderFiles;
use crate::index::Lines;
use crate::outcome::{Outcome, first_difference};
use crate::steps::{MOST_STEPS, Parts};
use crate::words::{command_of, first_three, words_of};
use ds_drive::{Files, Request, Wish, wish_of};
use ds_station::{MOST_TICKS, Station, Step, deliver};
use ds_tlb::{Indexed, Lookaside, Tlb};
use std::alloc::Global;
use std::io;
use std::io::Write;

/// Stepped runs, one a line. The text that is expected has a line for each step, with the time and the
/// instructions of the unit after it, and its kind; and then what the station writes. A station whose
/// boundaries are done by runs has to take the same other steps.
#[derive(Drop)]
pub struct Stepped<F> {
    /// Where the folders of the runs lie.
    pub files: F,
}

impl<F: Files + Copy + Drop> Lines for Stepped<F> {
    fn run<W: Write, E: Write>(
        &self,
        alloc: Global,
        line: &str,
        _out: &mut W,
        err: &mut E,
    ) -> io::Result<Outcome> {
        let words = words_of(alloc, line)?;
        let Some((folder, file, buffer, words)) = first_three(words.as_slice()) else {
            return Ok(Outcome::NoForm);
        };
        let Ok(text) = FolderFiles::of(self.files, folder).read(alloc, file) else {
            return Ok(Outcome::NoFile);
        };
        let command = command_of(alloc, words)?;
        let files = FolderFiles::of(self.files, folder);
        let came = match buffer {
            "searched" => told::<Tlb<64, 8>, _>(alloc, command.as_slice(), files),
            "indexed" => told::<Indexed<64, 8>, _>(alloc, command.as_slice(), files),
            _ => return Ok(Outcome::NoForm),
        };
        let Some(came) = came else {
            return Ok(Outcome::StepsDiffer);
        };
        compared(text.as_slice(), came.as_slice(), err)
    }
}

/// The outcome where this text is expected. What came in place of it is told on `err`.
fn compared<E: Write>(text: &[u8], came: &[u8], err: &mut E) -> io::Result<Outcome> {
    match first_difference(text, came) {
        Some(n) => {
            err.write_all(came)?;
            Ok(Outcome::Differs(n))
        }
        None => Ok(Outcome::AsExpected),
    }
}

/// What is told of the steps of the run that words ask for; none where they ask for no run, where a station
/// can't be made or stops, or where the steps differ once its boundaries are done by runs.
fn told<L: Lookaside, F: Files + Drop>(alloc: Global, words: &[String], files: F) -> Option<Vec<u8>>
    requires slots { L.SLOTS ≡ 64 }
    requires wired { L.WIRED ≡ 8 }
{
    let mut files = files;
    let Ok(Ok(Wish::Run(request))) = wish_of(alloc, words) else {
        return None;
    };
    let parts = Parts::read(alloc, &request.run, &mut files)?;
    let plain = Steps::of::<L>(alloc, &parts, &request.run, false)?;
    let settled = Steps::of::<L>(alloc, &parts, &request.run, true)?;
    if settled.all.as_slice() == plain.others.as_slice() {
        Some(plain.all)
    } else {
        None
    }
}

/// What is told of steps.
#[derive(Drop)]
struct Steps {
    /// Of all, and what the station writes.
    all: Vec<u8>,
    /// The same without the boundaries.
    others: Vec<u8>,
}

impl Steps {
    /// Steps a station to the end of its run. Where it is asked for, each boundary is done by a run.
    fn of<'a, L: Lookaside>(
        alloc: Global,
        parts: &Parts,
        request: &Request<'a>,
        settles: bool,
    ) -> Option<Steps>
        requires slots { L.SLOTS ≡ 64 }
        requires wired { L.WIRED ≡ 8 }
    {
        let mut station = parts.station::<L>(alloc, request.random)?;
        let mut steps = Steps {
            all: Vec::new(alloc),
            others: Vec::new(alloc),
        };
        steps.go(&mut station, request.most_time, settles)?;
        deliver(&station, &mut steps.all).ok()?;
        deliver(&station, &mut steps.others).ok()?;
        Some(steps)
    }

    /// Adds the steps of a station to the end of a run for n, and one more where all processes have ended.
    fn go<L: Lookaside>(&mut self, station: &mut Station<L>, n: u64, settles: bool) -> Option<()> {
        let (mut owed, mut over) = (false, false);
        for _ in 0..MOST_STEPS {
            let time = station.time();
            if time >= MOST_TICKS || time >= n && !owed {
                return Some(());
            }
            let step = station.step().ok()?;
            self.note(station.time(), station.spent(), step).ok()?;
            if settles && step == Step::Unit {
                station.run(station.time().min(MOST_TICKS)).ok()?;
            }
            if over {
                return Some(());
            }
            over = step == Step::Over;
            owed = step == Step::Unit && !settles;
        }
        None
    }

    /// Adds a step: the time and the instructions of the unit after it, and its kind.
    fn note(&mut self, time: u64, spent: u32, step: Step) -> io::Result<()> {
        let kind = match step {
            Step::Inside => "inside",
            Step::Unit => "unit",
            Step::Boundary => "boundary",
            Step::Over => "over",
        };
        write!(self.all, "{time} {spent} {kind}\n")?;
        if step != Step::Boundary {
            write!(self.others, "{time} {spent} {kind}\n")?;
        }
        Ok(())
    }
}
