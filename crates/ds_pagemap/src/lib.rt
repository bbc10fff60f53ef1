//! The page-map machine: what a user of dsmon reasons with. Its definitions stand in `specs/`, from
//! `Run` down; here are laws about them, each the contract of a function with an empty body, and
//! the parts of a unit and of a boundary that code does as the definitions say it.
#![tactic(auto)]

pub mod laws;
mod store;
mod touch;
mod turn;

pub use store::store_word_where_allowed;
pub use touch::touch_registers;
pub use turn::Turn;
