//! The address map of the R3000: which physical address an access has (Kane and Heinrich,
//! chapter 4).
#![tactic(auto)]

mod map;

pub use ds_isa::Kind;
pub use map::{Fault, Mode, Physical, reach, recalled, recalled_aligned, translate};
