//! Laws of the page-map machine.

pub mod boundaries;
pub mod processes;
pub mod runs;
pub mod tables;
pub mod touches;
pub mod units;
