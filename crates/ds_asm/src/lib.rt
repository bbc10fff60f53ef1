//! An assembler of MIPS I: a source is exactly the bytes that its text says, or its first fault
//! with its line.
#![tactic(auto)]

mod assembler;
mod cause;
mod characters;
mod fault;
mod faults;
mod form;
mod image;
mod instruction;
mod labels;
mod layout;
mod line;
mod number;
mod register;
mod second_pass;
mod source;
mod syntax;

pub use assembler::assemble;
pub use cause::Cause;
pub use characters::{
    front_of, is_blank, is_digit, is_letter, is_name, split_at_first, split_word, trimmed, until,
    without_back_blanks, without_front_blanks,
};
pub use fault::{AsmFault, SourceFault};
pub use faults::{Assembled, all_faults, assemble_or_faults};
pub use form::{Form, Operand, Place, form_named};
pub use image::Image;
pub use instruction::{Instruction, Target, before_close};
pub use layout::ORIGIN;
pub use line::{Directive, Line, Statement, directive_named, line_of};
pub use number::{Bounds, Number, written_number};
pub use register::register_of;
pub use source::{SourceLine, first_line, source_line};
pub use syntax::{SyntaxCause, Wanted};
