//! What ties a process of a policy to the others, so that it may be able to tell who else is there.
#![tactic(auto)]

mod laws;
mod texts;
mod ties;

pub use laws::nothing_ties_who_is_alone;
pub use texts::ties_text;
pub use ties::{Tie, tie_of};
