//! What the words that the program was started with ask for, and which lines of a trace and of a run
//! on the bare machine are told.
#![tactic(auto)]

mod bare_debug;
mod bare_view;
mod commands;
mod debug;
mod explain;
mod processes;
mod spans;
mod view;
mod windows;
mod words;

pub use bare_debug::{bare_debug_of, is_bare_debug};
pub use bare_view::{BareOnly, BareView};
pub use processes::Processes;
pub use spans::{Span, Spans};
pub use view::{Only, View};
pub use windows::{Window, Windows};
pub use words::{
    BareRequest, BareStart, CheckRequest, ExplainRequest, Extras, ListRequest, Request, RunRequest,
    TraceRequest, Untaken, Wish, program_words, wish_of,
};
