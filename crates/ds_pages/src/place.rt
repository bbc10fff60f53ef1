//! A place of a page: what is done there.

ghost use Rattle.std.specs.Prelude.{◌≡◌, true};
ghost use Rattle.ds_pages.specs.Inner.Does.{is_known};
ghost use Rattle.ds_pages.specs.Inner.Places.{fields_in, fields_of};

use crate::does::Does;
use crate::operation::Operation;
use crate::register::{Register, Target};

/// A place of a page: what is done there, beside what its operation has but for its kind. It is
/// eight bytes, which a run loads one by one.
#[derive(Clone, Copy)]
pub(crate) struct Place {
    pub does: Does,
    pub to: Target,
    pub first: Register,
    pub second: Register,
    pub immediate: u32,
}

impl Place {
    /// The place of an operation that is known, with what is done there yet to be found.
    pub fn of(operation: &Operation) -> Place
        ensures known { is_known result.does ≡ true }
        ensures fields { fields_in operation.now.kind (Some result) ≡ fields_of operation.now }
    {
        Place {
            does: Does::Left,
            to: operation.to,
            first: operation.first,
            second: operation.second,
            immediate: operation.immediate,
        }
    }
}

/// A place of which nothing is known.
pub(crate) const NOWHERE: Place = Place {
    does: Does::Unknown,
    to: Target::ONE,
    first: Register::ZERO,
    second: Register::ZERO,
    immediate: 0,
};
