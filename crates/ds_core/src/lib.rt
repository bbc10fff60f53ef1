//! The processor of the R3000: one machine instruction at a time, in user or kernel mode, with
//! its translation buffer, its system coprocessor and every exception (Kane and Heinrich).
#![tactic(auto)]

mod event;
pub mod laws;
mod processor;

pub use event::Event;
pub use processor::{Core, after_slot, is_at_most_zero, places};
