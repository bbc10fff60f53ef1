//! The instruction set of MIPS I: one table, and what each instruction means.
#![tactic(auto)]

mod access;
mod decoding;
mod encoding;
mod instr;
mod table;
mod uses;

pub use access::{access_size, an_instruction_asks_for_its_size, an_instruction_has_its_shape};
pub use decoding::{decode, no_two_rows, round_trip};
pub use encoding::encode;
pub use instr::{Instr, Kind, Late, Size};
pub use uses::{Sources, is_branch, links, reads, writes};
