//! Why a source has no image.
ghost use Rattle.std.specs.Prelude.{◌≡◌};
ghost use Rattle.ds_asm.specs.Assembly.{fault_at};
ghost use Rattle.ds_asm.specs.Assembling.{source_fault_line, source_fault_name, source_fault_number};
ghost use Rattle.ds_asm.specs.Inner.Assembling.{fault_number};
ghost use Rattle.ds_asm.specs.declared.fault.AsmFault.TheVariants.{Memory, Source};

use crate::cause::Cause;
use std::alloc::{AllocError, AllocFailed};
use std::{error, fmt};
use thiserror::Error;

/// What is wrong in a source's text, with the number of the line, from 1. Its text is the refusal's
/// number and name, and the line.
#[derive(Clone, Copy, Debug, PartialEq, Eq, Drop)]
pub enum SourceFault {
    /// A line that is neither blank nor a label nor a statement.
    Syntax(u64),
    /// A statement names a label that stands nowhere.
    UnknownLabel(u64),
    /// A label that stands on an earlier line too.
    DoubleLabel(u64),
    /// A number, a place, a target or a pair of registers that a statement may not have.
    Range(u64),
    /// The line that passes 65,536 bytes.
    TooLong(u64),
}

impl Cause {
    /// The refusal of a line for it.
    pub fn fault(self, line: u64) -> SourceFault
        ensures { result ≡ fault_at line self }
    {
        match self {
            Cause::Syntax(_) => SourceFault::Syntax(line),
            Cause::DoubleLabel => SourceFault::DoubleLabel(line),
            Cause::OutOfRange(_) | Cause::NotAligned | Cause::Reserved | Cause::OutOfReach => {
                SourceFault::Range(line)
            }
            Cause::TooLong => SourceFault::TooLong(line),
            Cause::UnknownLabel => SourceFault::UnknownLabel(line),
        }
    }
}

impl SourceFault {
    /// The refusal's number: 3 to 7.
    pub fn number(&self) -> u32
        ensures { result ≡ source_fault_number self.now }
    {
        match self {
            SourceFault::Syntax(_) => 3,
            SourceFault::UnknownLabel(_) => 4,
            SourceFault::DoubleLabel(_) => 5,
            SourceFault::Range(_) => 6,
            SourceFault::TooLong(_) => 7,
        }
    }

    /// The refusal's name.
    pub fn name(&self) -> &'static str
        ensures { result.now ≡ source_fault_name self.now }
    {
        match self {
            SourceFault::Syntax(_) => "Syntax",
            SourceFault::UnknownLabel(_) => "UnknownLabel",
            SourceFault::DoubleLabel(_) => "DoubleLabel",
            SourceFault::Range(_) => "Range",
            SourceFault::TooLong(_) => "TooLong",
        }
    }

    /// The number of the line, from 1.
    pub fn line(&self) -> u64
        ensures { result ≡ source_fault_line self.now }
    {
        match self {
            SourceFault::Syntax(line)
            | SourceFault::UnknownLabel(line)
            | SourceFault::DoubleLabel(line)
            | SourceFault::Range(line)
            | SourceFault::TooLong(line) => *line,
        }
    }
}

impl fmt::Display for SourceFault {
    fn fmt<W: fmt::Write>(&self, f: &mut fmt::Formatter<W>) -> fmt::Result {
        write!(f, "{} {} {}", self.number(), self.name(), self.line())
    }
}

impl error::Error for SourceFault {}

/// Why a source has no image: the first fault of its text, or want of memory.
#[derive(Clone, Copy, Debug, PartialEq, Eq, Drop, Error)]
pub enum AsmFault {
    /// What is wrong in the text.
    #[error(transparent)]
    Source(SourceFault),
    /// Memory ran out.
    #[error("25 Memory")]
    Memory,
}

impl AsmFault {
    /// The refusal's number: 3 to 7, or 25.
    pub fn number(&self) -> u32
        ensures { result ≡ fault_number self.now }
    {
        match self {
            AsmFault::Source(fault) => fault.number(),
            AsmFault::Memory => 25,
        }
    }
}

impl From<SourceFault> for AsmFault {
    ghost from_gives = { λ fault e. e ≡ Source fault };

    fn from(fault: SourceFault) -> AsmFault {
        AsmFault::Source(fault)
    }
}

impl From<AllocError> for AsmFault {
    ghost from_gives = { λ _ e. e ≡ Memory };

    fn from(_e: AllocError) -> AsmFault {
        AsmFault::Memory
    }
}

impl<T: Drop> From<AllocFailed<T>> for AsmFault {
    ghost from_gives = { λ _ e. e ≡ Memory };

    fn from(_e: AllocFailed<T>) -> AsmFault {
        AsmFault::Memory
    }
}
