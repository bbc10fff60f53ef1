//! Why an input is refused.
ghost use Rattle.std.specs.Prelude.{◌≡◌};
ghost use Rattle.ds_policy.specs.Inner.InputText.{events_fault_number};
ghost use Rattle.ds_policy.specs.declared.events.fault.EventsFault.TheVariants.{Memory};

use std::alloc::{AllocError, AllocFailed};
use thiserror::Error;

/// Why there are no events.
#[derive(Clone, Copy, Debug, PartialEq, Eq, Drop, Error)]
pub enum EventsFault {
    /// The first line that is wrong, from 1.
    #[error("20 InputFault {0}")]
    InputFault(u64),
    /// Memory ran out.
    #[error("25 Memory")]
    Memory,
}

impl EventsFault {
    /// The refusal's number.
    pub fn number(&self) -> u32
        ensures { result ≡ events_fault_number self.now }
    {
        match self {
            EventsFault::InputFault(_) => 20,
            EventsFault::Memory => 25,
        }
    }
}

impl From<AllocError> for EventsFault {
    ghost from_gives = { λ _ e. e ≡ Memory };

    fn from(_e: AllocError) -> EventsFault {
        EventsFault::Memory
    }
}

impl<T: Drop> From<AllocFailed<T>> for EventsFault {
    ghost from_gives = { λ _ e. e ≡ Memory };

    fn from(_e: AllocFailed<T>) -> EventsFault {
        EventsFault::Memory
    }
}
