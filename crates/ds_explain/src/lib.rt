//! A run that explains itself: each line of its log in plain words, with the state in which it came
//! about.
#![tactic(auto)]

mod chosen;
mod explain;
mod moments;

pub use chosen::Chosen;
pub use ds_log_reasons::Texts;
pub use explain::explain_log;
