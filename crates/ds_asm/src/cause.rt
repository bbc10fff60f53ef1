//! Why a line of a source is refused.
ghost use Rattle.std.specs.Prelude.{◌≡◌};
ghost use Rattle.ds_asm.specs.Inner.Assembling.{stopped_at};
ghost use Rattle.ds_asm.specs.declared.cause.Stop.TheVariants.{Memory, Refused};

use crate::fault::AsmFault;
use crate::number::Bounds;
use crate::syntax::SyntaxCause;
use std::alloc::{AllocError, AllocFailed};

/// Why a line may not stand where it stands. Where several hold, the first in the order of these is
/// given.
#[derive(Clone, Copy, Debug, PartialEq, Eq, Drop)]
pub enum Cause {
    /// It is neither blank nor a label nor a statement.
    Syntax(SyntaxCause),
    /// Its label stands on an earlier line too.
    DoubleLabel,
    /// A number is not within these bounds.
    OutOfRange(Bounds),
    /// A word would begin at no multiple of four.
    NotAligned,
    /// The instruction has registers that it may not have.
    Reserved,
    /// It passes 65,536 bytes.
    TooLong,
    /// The statement names a label that stands nowhere.
    UnknownLabel,
    /// The instruction does not reach its target, or that stands at no multiple of four.
    OutOfReach,
}

/// Why a pass stops at a line.
#[derive(Clone, Copy, Debug, PartialEq, Eq, Drop)]
pub(crate) enum Stop {
    Refused(Cause),
    /// Memory ran out.
    Memory,
}

impl Stop {
    /// The refusal of the source where it stops at this line.
    pub(crate) fn fault(self, line: u64) -> AsmFault
        ensures { result ≡ stopped_at line self }
    {
        match self {
            Stop::Refused(cause) => AsmFault::Source(cause.fault(line)),
            Stop::Memory => AsmFault::Memory,
        }
    }
}

impl From<Cause> for Stop {
    ghost from_gives = { λ cause e. e ≡ Refused cause };

    fn from(cause: Cause) -> Stop {
        Stop::Refused(cause)
    }
}

impl From<AllocError> for Stop {
    ghost from_gives = { λ _ e. e ≡ Memory };

    fn from(_e: AllocError) -> Stop {
        Stop::Memory
    }
}

impl<T: Drop> From<AllocFailed<T>> for Stop {
    ghost from_gives = { λ _ e. e ≡ Memory };

    fn from(_e: AllocFailed<T>) -> Stop {
        Stop::Memory
    }
}
