//! gdb over a reader and a writer: what it is told, whatever it debugs, and how its packets come to
//! what answers them.
#![tactic(auto)]

mod description;
mod digits;
mod laws;
mod outputs;
mod points;
mod replies;
mod serving;
mod steps;
mod stops;
mod stream;
mod target;
mod threads;

pub use description::push_description;
pub use digits::{push_number, push_word, push_word_or_none};
pub use laws::what_a_stream_is_answered;
pub use outputs::push_outputs;
pub use points::{Breakpoint, Breakpoints, Watchpoint, Watchpoints, is_break};
pub use replies::{few, push_bytes, push_features, push_refusal, push_time_words};
pub use serving::{Cut, Ending};
pub use steps::is_done;
pub use stops::{Reason, push_stop};
pub use stream::Stream;
pub use target::Target;
pub use threads::{push_thread, push_threads};
