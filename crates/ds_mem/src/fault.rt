//! Want of memory on the host.

ghost use Rattle.std.specs.Prelude.{◌≡◌};

use thiserror::Error;

/// The host refused the memory.
#[derive(Clone, Copy, Debug, Drop, PartialEq, Eq, Error)]
#[error("out of memory")]
pub struct OutOfMemory;

impl OutOfMemory {
    /// The refusal's number.
    pub fn number(self) -> u32
        ensures { result ≡ 25 }
    {
        25
    }
}
