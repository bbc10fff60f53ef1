//! A debugger's session over a station: what gdb asks, and what it is answered.
#![tactic(auto)]

mod actions;
mod backward;
mod denials;
mod exits;
mod forward;
mod goals;
mod grown;
mod inputs;
mod leaps;
mod look;
mod memory;
mod past;
mod places;
mod registers;
mod reports;
mod serving;
mod session;
mod tables;
mod times;
mod watches;

pub use goals::Stop;
pub use inputs::Inputs;
pub use registers::Registers;
pub use serving::debug;
pub use session::Session;
pub use watches::Seen;
