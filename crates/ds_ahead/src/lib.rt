//! Many steps of the processor at once: its instructions as operations, a page of known code at a
//! time.
#![tactic(auto)]

mod ahead;
mod branch;
mod code;
mod execute;
mod here;
pub mod laws;
mod next;
mod operate;
mod operations;
mod position;
mod ride;
mod run;
mod stops;
mod stretch;
mod turn;
mod until;

pub use ahead::{Ahead, go_past_ride, run_ahead};
pub use next::Next;
pub use ride::Ride;
pub use stops::Stops;
pub use until::run_ahead_until;
