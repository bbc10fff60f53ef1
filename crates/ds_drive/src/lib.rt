//! The program `dsmon` as a call: what its words ask for is done over files and writers.
#![tactic(auto)]

mod bare;
mod bare_debug;
mod check;
mod debug;
mod demo;
mod explain;
mod failure;
mod faults;
mod files;
mod hints;
mod inside;
mod list;
mod names;
mod notes;
mod outcome;
mod policy_place;
mod program;
mod ran;
mod refused;
mod run;
mod status;
mod told;
mod trace;
mod why;
mod windows;
mod without_input;

pub use bare::bare_file;
pub use bare_debug::{debug_bare_file, drive_bare_debug};
pub use check::{Checking, check_files};
pub use debug::debug_files;
pub use ds_words::{
    BareOnly, BareRequest, BareStart, BareView, CheckRequest, ExplainRequest, Extras, ListRequest,
    Request, RunRequest, Span, Spans, TraceRequest, Window, Windows, Wish, is_bare_debug,
    program_words, wish_of,
};
pub use explain::explain_files;
pub use failure::Failure;
pub use files::{FileFault, Files, MOST_BYTES, SystemFiles};
pub use list::{Listing, list_file, tell_faults};
pub use notes::tell_notes;
pub use program::{drive_with_input, refuse_words};
pub use refused::{FaultyInput, FaultyPolicy, FaultySource, Refused};
pub use told::{tell, tell_refused};
pub use without_input::drive;
