//! Why a policy is refused.
ghost use Rattle.std.specs.Prelude.{◌≡◌};
ghost use Rattle.ds_policy.specs.Inner.Refusal.{policy_fault_number};
ghost use Rattle.ds_policy.specs.declared.fault.PolicyFault.TheVariants.{Memory};

use std::alloc::{AllocError, AllocFailed};
use thiserror::Error;

#[derive(Debug, Drop, Error)]
pub enum PolicyFault {
    #[error("8 BadToml")]
    BadToml,
    #[error("10 Limit {0}")]
    Limit(&'static str),
    #[error("9 BadRule {0}")]
    BadRule(u32),
    #[error("25 Memory")]
    Memory,
}

impl PolicyFault {
    /// The fault's number among the refusals: 8, 9, 10 or 25.
    pub fn number(&self) -> u32
        ensures { result ≡ policy_fault_number self.now }
    {
        match self {
            PolicyFault::BadToml => 8,
            PolicyFault::BadRule(_) => 9,
            PolicyFault::Limit(_) => 10,
            PolicyFault::Memory => 25,
        }
    }
}

impl From<AllocError> for PolicyFault {
    ghost from_gives = { λ _ e. e ≡ Memory };

    fn from(_e: AllocError) -> PolicyFault {
        PolicyFault::Memory
    }
}

impl<T: Drop> From<AllocFailed<T>> for PolicyFault {
    ghost from_gives = { λ _ e. e ≡ Memory };

    fn from(_e: AllocFailed<T>) -> PolicyFault {
        PolicyFault::Memory
    }
}
