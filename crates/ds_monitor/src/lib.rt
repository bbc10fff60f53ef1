//! What the monitor keeps beside the processor and its bus: the processes that don't run, the
//! queues of the lines, the consoles, the log, and what is granted. The contract of each function is
//! the page-map machine's own function, on the state that is kept.
#![tactic(auto)]

mod boundary;
mod calls;
mod commands;
mod consoles;
mod due;
mod ends;
mod first;
mod gifts;
mod laws;
mod line_queue;
mod monitor;
mod processes;
mod reads;
mod room;
mod seat;
mod sending;
mod services;
mod turns;

pub use consoles::Consoles;
pub use due::Due;
pub use laws::{
    a_blind_change_serves, a_process_in_its_seat_is_orderly, a_service_follows_another,
};
pub use line_queue::LineQueue;
pub use monitor::Monitor;
pub use seat::Seat;
