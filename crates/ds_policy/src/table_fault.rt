//! Why a change of the permission table is refused.
ghost use Rattle.std.specs.Prelude.{◌≡◌};

use thiserror::Error;

/// The process has as many entries as there can be, and none at the address.
#[derive(Clone, Copy, Debug, PartialEq, Eq, Drop, Error)]
#[error("17 TableFull")]
pub struct TableFull;

/// There is no entry at the address.
#[derive(Clone, Copy, Debug, PartialEq, Eq, Drop, Error)]
#[error("14 NoGrant")]
pub struct NoGrant;

impl TableFull {
    /// The refusal's number.
    pub fn number(&self) -> u32
        ensures { result ≡ 17 }
    {
        17
    }
}

impl NoGrant {
    /// The refusal's number.
    pub fn number(&self) -> u32
        ensures { result ≡ 14 }
    {
        14
    }
}
