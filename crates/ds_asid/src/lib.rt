//! Address space numbers: which process has which, so that a switch of processes needs no flush of
//! the translation buffer (Kane and Heinrich, chapter 4).
#![tactic(auto)]

mod numbers;

pub use numbers::Asids;
