//! What a bus answers where nothing is.

ghost use Rattle.std.specs.Prelude.{◌≡◌};

use thiserror::Error;

/// Neither memory nor a register takes an access of this size at this place.
#[derive(Clone, Copy, Debug, Drop, PartialEq, Eq, Error)]
#[error("bus error")]
pub struct BusError;

impl BusError {
    /// The refusal's number.
    pub fn number(self) -> u32
        ensures { result ≡ 2 }
    {
        2
    }
}
