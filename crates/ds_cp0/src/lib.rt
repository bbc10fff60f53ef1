//! The system coprocessor of the R3000: its registers, and how exceptions are entered and left
//! (Kane and Heinrich, chapters 4 and 5).
#![tactic(auto)]

mod cp0;
mod exception;
pub mod register;
mod words;

pub use cp0::Cp0;
pub use exception::{Exception, ExceptionCode};
pub use words::{GENERAL_VECTOR, REFILL_VECTOR};
