//! Steps on the machine's parts, and questions about words and programs.

pub mod arithmetic;
pub mod buffer;
pub mod bus;
mod clock;
pub mod memory;
mod pages;
mod places;
mod processor;
pub mod programs;
pub mod spaces;
pub mod state;
pub mod system;
pub mod verbs;
pub mod words;
