//! The assembler turned round: words of memory as a source that says them.
#![tactic(auto)]

mod annotated;
mod bytes;
mod digits;
mod form;
mod law;
mod line;
mod names;
mod operand;
mod pages;
mod places;
mod sheet;
mod source;

pub use annotated::{Listed, listing, listing_or_faults};
pub use bytes::{source_of_file, source_of_file_as};
pub use law::a_word_is_read_back;
pub use line::{push_word, push_word_as};
pub use names::{RegisterNames, push_register};
pub use pages::{PageLines, push_address_place};
pub use places::{Label, LinePlace, line_of_byte, line_places, push_place};
pub use source::source_of_words;
