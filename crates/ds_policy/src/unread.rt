//! Why a text was not read.
ghost use Rattle.std.specs.Prelude.{◌≡◌};
ghost use Rattle.ds_policy.specs.declared.unread.Unread.TheVariants.{Memory};

use std::alloc::{AllocError, AllocFailed};

/// Why there is nothing that a text says: what is wrong with it, or that memory ran out.
#[derive(Debug, Drop)]
pub enum Unread<R> {
    Reason(R),
    Memory,
}

impl<R> From<AllocError> for Unread<R> {
    ghost from_gives = { λ _ e. e ≡ Memory };

    fn from(_e: AllocError) -> Unread<R> {
        Unread::Memory
    }
}

impl<R, T: Drop> From<AllocFailed<T>> for Unread<R> {
    ghost from_gives = { λ _ e. e ≡ Memory };

    fn from(_e: AllocFailed<T>) -> Unread<R> {
        Unread::Memory
    }
}
