//! Calls on real grants, with a memory, page tables in it, and a translation buffer.
//! `tools/grants_cases.py` writes the files, from a model of its own.

pub mod answers;
mod frames;
mod page_words;
mod policies;
pub mod replay;
pub mod verbs;
