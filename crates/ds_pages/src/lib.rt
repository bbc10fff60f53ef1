//! Pages of code: the words of a page with their operations, what is done at each place, and how
//! many steps there are from each to the end of its block.
#![tactic(auto)]

mod decoding;
mod does;
mod operation;
mod page;
mod place;
mod places;
mod register;
mod turn;

pub use does::Does;
pub use operation::{Operation, OperationKind};
pub use page::Page;
pub use register::{Register, Target};
pub use turn::Stride;
