//! The lines of a text, shown where something is said of one.
ghost use Rattle.std.specs.Prelude.{◌≡◌, ◌≤◌, ◌-◌, drop, length};
ghost use Rattle.std.specs.List.{before_first};
ghost use Rattle.ds_asm.specs.Assembly.{lines_of};
ghost use Rattle.ds_check.specs.Inner.Lines.{StandAt};

use ds_asm::first_line;
use std::alloc::AllocError;
use std::marker::Model;

/// The lines of a text. Those that are asked for in order are found by one walk.
#[derive(Drop)]
pub struct Lines<'a> {
    text: &'a [u8],
    /// The number of the line with which `rest` begins, from 1.
    number: u64,
    rest: &'a [u8],
}

impl<'a> Model for Lines<'a> {
    ghost use Rattle.std.specs.Prelude.{ℕ, List};
    ghost use Rattle.ds_check.specs.Inner.Lines.{StandAt};

    ghost Value = { List ℕ };

    ghost view = { λ l. l.text.now };

    ghost invariant = { λ l. StandAt l.text.now l.number l.rest.now };
}

impl<'a> Lines<'a> {
    ghost use Rattle.std.specs.Prelude.{◌≡◌, ◌++◌, OnOk};
    ghost use Rattle.ds_check.specs.Lines.{line_at, shown_line};

    /// The lines of this text.
    pub fn of(text: &'a [u8]) -> Lines<'a>
        ensures { result ≡ text.entry.now }
    {
        Lines {
            text,
            number: 1,
            rest: text,
        }
    }

    /// The line of this number, from 1, without its line feed; nothing where there is none.
    #[tactic(auto, using(crate::proofs::LineSteps::first_left))]
    pub fn line(&mut self, number: u64) -> &'a [u8]
        ensures line { result.now ≡ line_at self.old number }
        ensures same { self.new ≡ self.old }
    {
        self.rest = found(self.text, self.number, self.rest, number);
        self.number = number.max(1);
        first_line(self.rest).0
    }

    /// Adds the line of this number, after four blanks.
    pub fn push(&mut self, sheet: &mut Vec<u8>, number: u64) -> Result<(), AllocError>
        ensures text { OnOk result (sheet.new.items ≡ sheet.old.items ++ shown_line self.old number) }
        ensures same { self.new ≡ self.old }
    {
        let line = self.line(number);
        sheet.extend_from_slice(b"    ")?;
        sheet.extend_from_slice(line)?;
        sheet.extend_from_slice(b"\n")
    }
}

/// What is left of a text from the line that is wanted on, where this is left from another line on.
#[tactic(auto, using(crate::proofs::LineSteps::stand_later))]
fn found<'a>(text: &'a [u8], number: u64, rest: &'a [u8], wanted: u64) -> &'a [u8]
    requires { StandAt text.now number rest.now }
    ensures { lines_of result.now ≡ drop (wanted - 1) (lines_of text.now) }
{
    if wanted < number {
        after_lines(text, wanted.saturating_sub(1))
    } else {
        after_lines(rest, wanted - number)
    }
}

/// What stands after so many lines of a text.
pub(crate) fn after_lines(text: &[u8], count: u64) -> &[u8]
    ensures lines { lines_of result.now ≡ drop count (lines_of text.now) }
    ensures within { length result.now ≤ length text.now }
{
    let mut rest = text;
    let mut left = count;
    while left > 0 && !rest.is_empty() {
        rest = first_line(rest).1;
        left -= 1;
    }
    rest
}
