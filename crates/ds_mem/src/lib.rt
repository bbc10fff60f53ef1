//! The workstation's memory: 8 MiB, read and written by aligned words, the lowest byte first, and by
//! frames of 4,096 bytes.
#![tactic(auto)]

mod fault;
mod memory;

pub use fault::OutOfMemory;
pub use memory::{FRAME_SIZE, FRAMES, Memory, SIZE};
