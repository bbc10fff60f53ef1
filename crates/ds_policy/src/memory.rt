//! Want of memory.
ghost use Rattle.std.specs.Prelude.{◌≡◌};

use std::alloc::AllocError;
use thiserror::Error;

/// A table or a text could not be made, or could not grow.
#[derive(Clone, Copy, Debug, Drop, PartialEq, Eq, Error)]
#[error("out of memory")]
pub struct OutOfMemory;

impl OutOfMemory {
    /// The refusal's number.
    pub fn number(self) -> u32
        ensures { result ≡ 25 }
    {
        25
    }
}

impl From<AllocError> for OutOfMemory {
    fn from(_e: AllocError) -> OutOfMemory {
        OutOfMemory
    }
}
