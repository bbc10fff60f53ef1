//! Why the program could not do what its words ask for.
ghost use Rattle.std.specs.Prelude.{◌≡◌};
ghost use Rattle.ds_drive.specs.Failures.{failure_number, memory_failure};

use ds_policy::{PolicyFault, Text};
use ds_station::Fault;
use std::alloc::{AllocError, AllocFailed};
use std::fmt;
use thiserror::Error;

/// Why the program could not do what its words ask for. Its text is the number and name of the
/// refusal, and the number or name that it carries.
#[derive(Drop, Error)]
pub enum Failure<'a> {
    /// A file that the words name can't be read, or has too many bytes.
    #[error("26 Unreadable {0}")]
    UnreadableFile(&'a str),
    /// The file of a source that the policy names can't be read, or has too many bytes.
    #[error("26 Unreadable {}", .0.as_str())]
    UnreadableSource(Text<64>),
    /// The words want memory of a process of this number, and the policy has none such.
    #[error("12 NoProcess {0}")]
    NoProcess(u32),
    /// The inputs were refused, or the run ended early.
    #[error("{0}")]
    Fault(Fault),
}

impl<'a> fmt::Debug for Failure<'a> {
    fn fmt<W: fmt::Write>(&self, f: &mut fmt::Formatter<W>) -> fmt::Result {
        write!(f, "{self}")
    }
}

impl<'a> Failure<'a> {
    /// The number among the refusals.
    pub fn number(&self) -> u32
        ensures { result ≡ failure_number self.now }
    {
        match self {
            Failure::UnreadableFile(_) | Failure::UnreadableSource(_) => 26,
            Failure::NoProcess(_) => 12,
            Failure::Fault(fault) => fault.number(),
        }
    }
}

impl<'a> From<AllocError> for Failure<'a> {
    ghost from_gives = { λ _ f. f ≡ memory_failure };

    fn from(_e: AllocError) -> Failure<'a> {
        Failure::Fault(Fault::Memory)
    }
}

impl<'a, T: Drop> From<AllocFailed<T>> for Failure<'a> {
    ghost from_gives = { λ _ f. f ≡ memory_failure };

    fn from(_e: AllocFailed<T>) -> Failure<'a> {
        Failure::Fault(Fault::Memory)
    }
}
