//! The refill handler: nine words of guest code at the beginning of memory, which put the page-table
//! entry of the page that was missed into the translation buffer and go back (Kane and Heinrich,
//! chapters 4 and 6). What they make of the processor, word by word and together, and all nine at
//! once in one function.
#![tactic(auto)]

mod handler;
mod laws;
mod refill;

pub use handler::{WORDS, install, phase};
pub use laws::{a_refill_goes_back, a_table_may_be_missed, each_word_does_its_part};
pub use refill::refill_at_once;
