//! Tables whose cases are lines: what each asks of a stage is compared with what it expects.
ghost use Rattle.std.specs.Prelude.{◌≡◌};

use crate::parts::grants::verbs::GRANTS;
use crate::parts::machine::verbs::machine_verb;
use crate::parts::numbers::{Numbers, numbers_of};
use crate::parts::stage::Stage;
use crate::parts::told::Answer;
use crate::parts::verbs::{Asked, Part, Verb, row_of};
use ds_rows::Outcome;
use ds_tlb::Lookaside;
use std::alloc::Global;
use std::io;
use std::io::{ErrorKind, Write};

/// How many lines of a file that differ are written.
const TOLD: u64 = 100;

/// How the lines of a file came out so far.
#[derive(Clone, Copy)]
struct Tally<'a> {
    part: Part,
    file: &'a str,
    /// All lines, with those on which nothing stands.
    lines: u64,
    cases: u64,
    others: u64,
}

impl<'a> Tally<'a> {
    /// Counts a line of which this came, and writes one of the first that differ.
    fn note<W: Write>(
        &mut self,
        text: &str,
        wanted: &str,
        came: &str,
        out: &mut W,
    ) -> io::Result<()> {
        self.cases = self.cases.saturating_add(1);
        if came == wanted {
            return Ok(());
        }
        self.others = self.others.saturating_add(1);
        if self.others > TOLD {
            return Ok(());
        }
        write!(out, "{}:{}: {text}: came {came}\n", self.file, self.lines)
    }
}

/// What stands before a character and after it; nothing after it where it is missing.
fn cut<'a>(text: &'a str, at: &str) -> (&'a str, &'a str) {
    let (before, afterwards) = text.split_once(at).unwrap_or((text, ""));
    (before.trim(), afterwards.trim())
}

/// What a line asks for; none where its first word is no verb, where another is no number, or where there
/// are too few or too many. What stands after `begin` is no list of numbers.
fn read(part: Part, asked: &str) -> Option<Asked<'_>> {
    let (word, operands) = cut(asked, " ");
    let ((least, most, verb), in_hexadecimal) = match part {
        Part::Machine => (machine_verb(word)?, true),
        Part::Grants => (row_of(&GRANTS, word)?, false),
    };
    let numbers = match verb {
        Verb::Begin => Numbers::new(),
        _ => numbers_of(operands, in_hexadecimal)?,
    };
    if numbers.count < least || numbers.count > most {
        return None;
    }
    Some(Asked {
        verb,
        operands,
        numbers,
    })
}

/// Runs a line, and counts it. A line is what is asked and, after a bar or a `=` with a blank on either side,
/// what has to be answered, which is `ok` where nothing stands there; and a comment, which begins with `#`.
fn run_line<L: Lookaside, W: Write>(
    alloc: Global,
    stage: &mut Stage<L>,
    tally: &mut Tally<'_>,
    line: &str,
    out: &mut W,
) -> io::Result<()>
    requires slots { L.SLOTS ≡ 64 }
    requires wired { L.WIRED ≡ 8 }
{
    let (text, _) = cut(line, "#");
    if text.is_empty() {
        return Ok(());
    }
    let bar = match tally.part {
        Part::Machine => " | ",
        Part::Grants => " = ",
    };
    let (asked, wanted) = cut(text, bar);
    let wanted = if wanted.is_empty() { "ok" } else { wanted };
    let came = stage.answer(alloc, read(tally.part, asked).as_ref());
    let came = came.unwrap_or(Answer::said("nothing, since that can't be run"));
    tally.note(text, wanted, came.to_string(alloc)?.as_str(), out)
}

/// Runs the lines of a text.
fn run_text<L: Lookaside, W: Write>(
    alloc: Global,
    stage: &mut Stage<L>,
    tally: &mut Tally<'_>,
    text: &str,
    out: &mut W,
) -> io::Result<()>
    requires slots { L.SLOTS ≡ 64 }
    requires wired { L.WIRED ≡ 8 }
{
    for line in text.lines() {
        tally.lines = tally.lines.saturating_add(1);
        run_line(alloc, stage, tally, line, out)?;
    }
    Ok(())
}

/// Runs the lines of a file's text from a new stage on, and writes the first of those that differ; how
/// they came out.
pub fn run_lines<L: Lookaside, W: Write>(
    alloc: Global,
    part: Part,
    file: &str,
    text: &str,
    out: &mut W,
) -> io::Result<Outcome>
    requires slots { L.SLOTS ≡ 64 }
    requires wired { L.WIRED ≡ 8 }
{
    let Some(mut stage): Option<Stage<L>> = Stage::new(alloc) else {
        return Err(io::Error::from(ErrorKind::OutOfMemory));
    };
    let mut tally = Tally {
        part,
        file,
        lines: 0,
        cases: 0,
        others: 0,
    };
    run_text(alloc, &mut stage, &mut tally, text, out)?;
    Ok(Outcome::of_cases(tally.cases, tally.others))
}
