//! Why a line of the log came about, and how it is mended: words for each denial and each refused
//! command, by what a process had at that time.
#![tactic(auto)]

mod entries;
mod lines;
mod places;
mod reason;
mod sentences;
mod values;
mod words;

pub use lines::log_line_of;
pub use places::pages_with;
pub use reason::{Reason, denial_reason_of};
pub use sentences::{Denial, Known, Sight, Texts, push_denial, push_refused};
pub use words::{command_mend, command_words, mend_words, reason_words};
