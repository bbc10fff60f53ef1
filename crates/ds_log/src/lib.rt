//! The log: its lines, and their text.
#![tactic(auto)]

mod line;
mod report;
mod text;

pub use ds_policy::OutOfMemory;
pub use line::{Denied, Line};
pub use report::send_report;
pub use text::{LINE_ROOM, append, line_fits};
