//! What a line of an input says.

use crate::command::Command;
use crate::events::keys::Keys;

/// What happens: a command of the operator, or characters that come in on a line.
#[derive(Drop)]
pub(crate) enum Event {
    Order(Command),
    Input { line: u8, keys: Keys },
}

/// An event and when it is due, in ticks.
#[derive(Drop)]
pub(crate) struct TimedEvent {
    pub(crate) time: u32,
    pub(crate) event: Event,
}
