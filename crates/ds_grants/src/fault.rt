//! Why a change of what is granted is refused.
ghost use Rattle.std.specs.Prelude.{◌≡◌};
ghost use Rattle.ds_grants.specs.Inner.State.{grant_fault_number};

use thiserror::Error;

/// Why a call or a command is refused. The refusals are tested in the order in which they stand
/// here.
#[derive(Clone, Copy, Debug, PartialEq, Eq, Drop, Error)]
pub enum GrantFault {
    /// There is no such process, or it has ended.
    #[error("12 NoProcess")]
    NoProcess,
    /// The address is no multiple of 4,096, or it is the kernel's, from 80000000 (hexadecimal) up.
    #[error("13 NotPage")]
    NotPage,
    /// There is no entry at the address, or it has no right.
    #[error("14 NoGrant")]
    NoGrant,
    /// There is no such mode of giving, the entry may not be given on, or writing is more than it
    /// allows.
    #[error("15 NotAllowed")]
    NotAllowed,
    /// There is an entry already.
    #[error("16 Taken")]
    Taken,
    /// The process has 256 entries.
    #[error("17 TableFull")]
    TableFull,
    /// The process's entries lie in four regions of 4 MiB, and the new one would lie in a fifth.
    #[error("11 Regions")]
    Regions,
    /// As many pages live as the policy allows.
    #[error("18 NoFrames")]
    NoFrames,
    /// The entry was given by somebody else.
    #[error("19 NotGiven")]
    NotGiven,
}

impl GrantFault {
    /// The refusal's number, from 11 to 19.
    pub fn number(self) -> u32
        ensures { result ≡ grant_fault_number self }
    {
        match self {
            GrantFault::NoProcess => 12,
            GrantFault::NotPage => 13,
            GrantFault::NoGrant => 14,
            GrantFault::NotAllowed => 15,
            GrantFault::Taken => 16,
            GrantFault::TableFull => 17,
            GrantFault::Regions => 11,
            GrantFault::NoFrames => 18,
            GrantFault::NotGiven => 19,
        }
    }
}
