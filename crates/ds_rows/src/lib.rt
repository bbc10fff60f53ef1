//! Runs of `dsmon` as data: rows, tables of cases, and words that run nothing, each with its expected
//! outcome; and stations that are made of a row's files, and run at once and by steps, which may be told.
#![tactic(auto)]

mod came;
mod case;
mod files;
mod index;
mod outcome;
mod row;
mod stepped;
mod steps;
mod table;
mod told;
mod words;

pub use index::{Lines, run_index};
pub use outcome::Outcome;
pub use row::Rows;
pub use stepped::Stepped;
pub use table::Tables;
pub use told::Told;
pub use words::words_of;
