//! Want of a place for a table.
ghost use Rattle.std.specs.Prelude.{◌≡◌};

use thiserror::Error;

/// The process's entries lie in as many regions as it may have, and this one is in none of them.
#[derive(Clone, Copy, Debug, Drop, PartialEq, Eq, Error)]
#[error("a process may have entries in four regions")]
pub struct Regions;

impl Regions {
    /// The refusal's number.
    pub fn number(self) -> u32
        ensures { result ≡ 11 }
    {
        11
    }
}
