//! What all texts of the program share: digits, names, words, and the way of a text to a writer.
#![tactic(auto)]

mod hexadecimal;
mod names;
pub mod sheet;
pub mod string;
pub mod words;
mod writes;

pub use hexadecimal::{hex_digit, hex8, lower_hex_digit};
pub use itoa::Buffer;
pub use names::{place_among, register_name, register_named, text_at};
pub use writes::{Output, WriteFailed, send, send_all};
