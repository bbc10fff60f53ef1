//! The monitor on the whole processor: the services that run where an exception has entered it, and
//! the steps of a station between them.
#![tactic(auto)]

mod at_once;
mod backs;
mod blocks;
mod boundary;
mod cause;
mod clone;
mod copies;
mod counts;
mod devices;
mod doubles;
mod first;
mod halt;
mod idle;
mod mode;
mod parts;
mod refill;
mod riding;
mod run;
mod seats;
mod serve;
mod steps;
mod turn;
mod units;
mod until;

pub use halt::Halt;
pub use idle::turns_of_nobody_are_one_step;
pub use parts::Parts;
