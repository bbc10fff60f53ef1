//! A program on the bare machine: the processor in kernel mode with the bus, one instruction at a
//! time, for those who write refill code of their own.
#![tactic(auto)]

mod before;
mod begun;
mod counts;
mod end;
mod ending;
mod entries;
mod fault;
mod keys;
mod looks;
mod machine;
mod matches;
mod names;
mod registers;
mod run;
mod shows;
mod sights;
mod step;

pub use ds_policy::Character;
pub use ending::Ending;
pub use fault::BareFault;
pub use keys::keys_of;
pub use machine::Machine;
pub use run::run_bare;
pub use sights::machine_at_start;
