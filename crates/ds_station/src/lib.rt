//! The station: it runs the processes of a page policy, from texts to a text.
#![tactic(auto)]

mod fault;
mod files;
mod outcome;
mod pieces;
mod reads;
mod stage;
mod station;

pub use ds_policy::MOST_TICKS;
pub use ds_refinement::Step;
pub use fault::Fault;
pub use files::{deliver, prepare, run_files, run_policy, run_station};
pub use outcome::Unended;
pub use pieces::{Bounded, Extent, PIECE, run_station_at_most};
pub use stage::Stage;
pub use station::Station;
