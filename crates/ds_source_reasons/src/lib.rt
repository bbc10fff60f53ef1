//! Why a line of an assembly source is refused, and what to write in its place.
#![tactic(auto)]

mod caret;
mod characters;
mod elsewhere;
mod fault;
mod law;
mod likeness;
mod line;
mod macros;
mod missing;
mod operand;
mod range;
mod reason;
mod texts;
mod told;

pub use caret::caret_place;
pub use fault::{FaultReason, FaultyLines, fault_reason, push_reason};
pub use law::{
    a_range_reason_is_a_range_fault, a_reason_is_a_syntax_fault,
    a_target_is_reached_at_multiples_of_four,
};
pub use likeness::is_like;
pub use line::syntax_reason;
pub use missing::{Labelled, last_word, last_word_place, like_label, push_missing};
pub use range::{range_reason, target_reason};
pub use reason::{RangeReason, SyntaxReason};
pub use told::{push_range_reason, push_syntax_reason};
