//! Processes and what they call for.
#![tactic(auto)]

mod call;
mod process;
mod queue;

pub use call::Call;
pub use process::{Process, Standing};
pub use queue::Queue;
