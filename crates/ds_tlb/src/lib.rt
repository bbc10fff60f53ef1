//! The translation lookaside buffer of the R3000 (Kane and Heinrich, chapter 4): entries that
//! map virtual pages to frames, and Random, which names the slot that `tlbwr` replaces.
#![tactic(auto)]

mod entry;
mod indexed;
mod lookaside;
mod tlb;
mod windows;

pub use entry::Entry;
pub use indexed::Indexed;
pub use lookaside::{BadRandom, Lookaside};
pub use tlb::Tlb;
