//! Notes about a policy, its sources and an input: what is worth a look, though nothing is
//! refused for it.

mod code;
mod input;
mod instruction;
mod policy;
mod texts;

pub use code::code_notes;
pub use input::{Crowd, crowds};
pub use instruction::{CodeNote, PlacedNote, WordPlace};
pub use policy::{PolicyNote, policy_notes};
pub use texts::{code_notes_text, crowds_text, policy_notes_text};
