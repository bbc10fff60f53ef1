//! Why there is no run, or no whole text of one.
ghost use Rattle.std.specs.Prelude.{◌≡◌};
ghost use Rattle.ds_bare.specs.Inner.Faults.{bare_fault_number};
ghost use Rattle.ds_bare.specs.declared.fault.BareFault.TheVariants as variants;

use ds_mem::OutOfMemory;
use ds_text::WriteFailed;
use ds_tlb::BadRandom;
use std::alloc::{AllocError, AllocFailed};
use thiserror::Error;

/// Why a program is not run, or its run is not told to its end. Its text is the refusal's number and
/// name.
#[derive(Clone, Copy, Debug, PartialEq, Eq, Drop, Error)]
pub enum BareFault {
    /// Random can't start there.
    #[error("1 BadRandom")]
    BadRandom,
    /// A write failed, or took nothing.
    #[error("23 WriteFault")]
    WriteFault,
    /// Memory ran out.
    #[error("25 Memory")]
    Memory,
}

impl BareFault {
    /// The refusal's number.
    pub fn number(&self) -> u32
        ensures { result ≡ bare_fault_number self.now }
    {
        match self {
            BareFault::BadRandom => 1,
            BareFault::WriteFault => 23,
            BareFault::Memory => 25,
        }
    }
}

impl From<BadRandom> for BareFault {
    ghost from_gives = { λ _ e. e ≡ variants.BadRandom };

    fn from(_e: BadRandom) -> BareFault {
        BareFault::BadRandom
    }
}

impl From<WriteFailed> for BareFault {
    ghost from_gives = { λ _ e. e ≡ variants.WriteFault };

    fn from(_e: WriteFailed) -> BareFault {
        BareFault::WriteFault
    }
}

impl From<OutOfMemory> for BareFault {
    ghost from_gives = { λ _ e. e ≡ variants.Memory };

    fn from(_e: OutOfMemory) -> BareFault {
        BareFault::Memory
    }
}

impl From<AllocError> for BareFault {
    ghost from_gives = { λ _ e. e ≡ variants.Memory };

    fn from(_e: AllocError) -> BareFault {
        BareFault::Memory
    }
}

impl<T: Drop> From<AllocFailed<T>> for BareFault {
    ghost from_gives = { λ _ e. e ≡ variants.Memory };

    fn from(_e: AllocFailed<T>) -> BareFault {
        BareFault::Memory
    }
}
