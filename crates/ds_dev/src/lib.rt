//! The workstation's bus: memory, the serial lines, the clock and the system register, at their
//! physical addresses.
#![tactic(auto)]

mod access;
mod bus;
mod clock;
mod fault;
mod known;
mod memo;
mod pages;
mod serial;
mod system;

pub use bus::Bus;
pub use fault::BusError;
pub use pages::Pages;
