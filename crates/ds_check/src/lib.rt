//! What a reader of a policy and its input may ask before a run: what stands where, what is near a
//! limit, what comes when, where each process starts, what is worth a look, and how a refusal is
//! mended.
#![tactic(auto)]

mod caret;
mod coming;
mod counts;
mod due;
mod explained;
mod items;
mod limits;
mod lines;
mod mend;
mod notes;
mod permissions;
mod places;
mod refusals;
mod spots;
mod starts;
mod words;

pub use caret::{push_caret, push_place};
pub use coming::events_text;
pub use explained::explain;
pub use items::{Items, item_place, root_key_place};
pub use limits::limits_text;
pub use lines::Lines;
pub use mend::mend_text;
pub use notes::{
    CodeNote, Crowd, PlacedNote, PolicyNote, WordPlace, code_notes, code_notes_text, crowds,
    crowds_text, policy_notes, policy_notes_text,
};
pub use permissions::table_text;
pub use places::{Place, toml_place};
pub use starts::{AssembledSources, starts_text};
