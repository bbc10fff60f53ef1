//! The trace of a run: what happened, unit by unit, and how each process stands at the end.
#![tactic(auto)]

mod accounts;
mod before;
mod boundaries;
mod calls;
mod changes;
mod counts;
mod ends;
mod entries;
mod files;
mod laws;
mod lines;
mod loads;
mod logs;
mod losses;
mod memory;
mod processor;
mod progress;
mod sheet;
mod sources;
mod start;
mod stores;
mod summaries;
mod summed;
mod trace;
mod unended;
mod window;

pub use accounts::account;
pub use files::{trace_files, trace_policy, trace_station, trace_summed};
pub use laws::{a_boundary_leaves_registers, a_touch_changes_no_line};
pub use memory::send_memory;
pub use sources::pages_with;
pub use summed::{Summed, run_summed};
pub use unended::unended_line;
