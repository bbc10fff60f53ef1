//! A debugger's session over the bare machine: what gdb asks, and what it is answered.
#![tactic(auto)]

mod back;
mod debug;
mod forward;
mod goals;
mod looks;
mod memory;
mod registers;
mod reports;
mod runner;
mod session;
mod watches;

pub use back::Place;
pub use debug::debug_bare;
pub use runner::BareRun;
pub use watches::Seen;
