//! Which lines of a log are told, and what is said of the others.
ghost use Rattle.std.specs.Prelude.{◌≡◌, ◌-◌, ◌++◌, ◌<◌, ◌≤◌, OnOk, codes, decimal, drop, length};
ghost use Rattle.ds_asm.specs.Assembly.{lines_of};
ghost use Rattle.ds_explain.specs.Chosen.{end_by, chosen_end_text, most_of, others_text, skipped};

use ds_asm::first_line;
use ds_text::sheet::push_decimal;
use std::alloc::AllocError;

/// Which lines of a log are told.
#[derive(Clone, Copy, Debug, PartialEq, Eq)]
pub enum Chosen {
    /// The first 1,000.
    All,
    /// The one of this number, from 1.
    One(u64),
}

/// At most so many lines are told.
const MOST: u64 = 1000;

impl Chosen {
    /// How many lines are passed over.
    fn skipped(self) -> u64
        ensures { result ≡ skipped self }
    {
        match self {
            Chosen::All => 0,
            Chosen::One(number) => number.saturating_sub(1),
        }
    }

    /// How many lines are told at most.
    pub(crate) fn most(self) -> u64
        ensures { result ≡ most_of self }
    {
        match self {
            Chosen::All => MOST,
            Chosen::One(_) => 1,
        }
    }

    /// What is left of a log from the first line on that is told.
    pub(crate) fn part(self, log: &[u8]) -> &[u8]
        ensures { lines_of result.now ≡ drop (skipped self) (lines_of log.now) }
    {
        after_lines(log, self.skipped())
    }

    /// Adds what is said of the lines that are not told, by how many lines there are.
    fn push_end_by(self, sheet: &mut Vec<u8>, count: u64) -> Result<(), AllocError>
        ensures { OnOk result (sheet.new.items ≡ sheet.old.items ++ end_by self count) }
    {
        match self {
            Chosen::All => push_others(sheet, count),
            Chosen::One(_) => {
                if self.skipped() < count {
                    return Ok(());
                }
                push_count(sheet, count)
            }
        }
    }

    /// Adds what is said of the lines of a log that are not told.
    pub(crate) fn push_end(self, sheet: &mut Vec<u8>, log: &[u8]) -> Result<(), AllocError>
        ensures { OnOk result
            (sheet.new.items ≡ sheet.old.items ++ chosen_end_text self (lines_of log.now)) }
    {
        self.push_end_by(sheet, count_of(log))
    }
}

/// Adds how many lines a log has.
fn push_count(sheet: &mut Vec<u8>, count: u64) -> Result<(), AllocError>
    ensures { OnOk result (sheet.new.items
        ≡ sheet.old.items ++ codes "lines of the log: " ++ decimal count ++ codes "\n") }
{
    sheet.extend_from_slice(b"lines of the log: ")?;
    push_decimal(sheet, count)?;
    sheet.extend_from_slice(b"\n")
}

/// Adds how many lines are not told, where there are some, or that there is none at all.
fn push_others(sheet: &mut Vec<u8>, count: u64) -> Result<(), AllocError>
    ensures { OnOk result (sheet.new.items ≡ sheet.old.items ++ others_text count) }
{
    if count == 0 {
        return sheet.extend_from_slice(b"The log is empty.\n");
    }
    if count <= MOST {
        return Ok(());
    }
    sheet.extend_from_slice(b"lines not told: ")?;
    push_decimal(sheet, count - MOST)?;
    sheet.extend_from_slice(b"\n")
}

/// How many lines a text has.
fn count_of(text: &[u8]) -> u64
    ensures { result ≡ length (lines_of text.now) }
{
    let mut count = 0u64;
    let mut rest = text;
    while !rest.is_empty() {
        rest = first_line(rest).1;
        count += 1;
    }
    count
}

/// What stands after so many lines of a text.
fn after_lines(text: &[u8], count: u64) -> &[u8]
    ensures { lines_of result.now ≡ drop count (lines_of text.now) }
{
    let mut rest = text;
    let mut left = count;
    while left > 0 && !rest.is_empty() {
        rest = first_line(rest).1;
        left -= 1;
    }
    rest
}
