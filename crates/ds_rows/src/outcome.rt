//! The outcome of a line of an index, or of a case.
ghost use Rattle.std.specs.Prelude.{◌≡◌, None};

use std::fmt;

/// The outcome of a line of an index, or of a case.
#[derive(Clone, Copy, Debug, PartialEq, Eq)]
pub enum Outcome {
    /// It is as expected.
    AsExpected,
    /// It has so many cases, and each is as expected.
    AllAsExpected(u64),
    /// So many of its cases are not as expected.
    Others(u64),
    /// It wrote something else: so many bytes are as expected, and the next is not.
    Differs(usize),
    /// Its command ended with this status, which is not the expected one.
    Ended(u8),
    /// What its command was told lacks what is expected.
    Untold,
    /// Stations that are made of its files write another text, or can't be made.
    StepsDiffer,
    /// A file that its line names can't be read.
    NoFile,
    /// Its line has too few words, or a file that it names has no case, or none of the form.
    NoForm,
}

impl Outcome {
    /// The outcome of so many cases, of which so many are not as expected.
    pub fn of_cases(cases: u64, others: u64) -> Outcome {
        match (cases, others) {
            (0, 0) => Outcome::NoForm,
            (_, 0) => Outcome::AllAsExpected(cases),
            _ => Outcome::Others(others),
        }
    }

    /// Whether all is as expected.
    pub fn is_well(self) -> bool {
        matches!(self, Outcome::AsExpected | Outcome::AllAsExpected(_))
    }
}

impl fmt::Display for Outcome {
    fn fmt<W: fmt::Write>(&self, f: &mut fmt::Formatter<W>) -> fmt::Result {
        match self {
            Outcome::AsExpected => write!(f, "as expected"),
            Outcome::AllAsExpected(cases) => write!(f, "{cases} as expected"),
            Outcome::Others(cases) => write!(f, "{cases} not as expected"),
            Outcome::Differs(n) => write!(f, "the first {n} bytes are as expected, and no more"),
            Outcome::Ended(status) => write!(f, "the status is {status}"),
            Outcome::Untold => write!(f, "something else is told"),
            Outcome::StepsDiffer => write!(f, "steps come to something else"),
            Outcome::NoFile => write!(f, "a file can't be read"),
            Outcome::NoForm => write!(f, "words are missing, or the cases have no form"),
        }
    }
}

/// How many bytes two texts begin with together, where they are not the same.
pub fn first_difference(wanted: &[u8], written: &[u8]) -> Option<usize>
    ensures { result ≡ None → written.now ≡ wanted.now }
{
    if written == wanted {
        return None;
    }
    for n in 0..wanted.len() {
        if wanted.get(n) != written.get(n) {
            return Some(n);
        }
    }
    Some(wanted.len())
}
