//! Page tables in memory: for each process a map from addresses to page-table words, which the
//! refill handler reads through kseg2 (Kane and Heinrich, chapter 4).
#![tactic(auto)]

mod fault;
mod places;
mod tables;

pub use fault::Regions;
pub use tables::{Tables, pte_address};
