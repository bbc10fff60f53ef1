//! The events of an input, one after the other.
ghost use Rattle.std.specs.Prelude.{◌≡◌, ◌≤◌, ◌<◌, ◌+◌, ◌++◌, length, OnOk, OnErr, true};
ghost use Rattle.ds_policy.specs.InputText.{nothing_said, follows, order_cause, with_command, with_characters};

use crate::command::{Command, TimedCommand};
use crate::events::cause::InputCause;
use crate::events::characters::Characters;
use std::alloc::{AllocError, Global};
use std::marker::Model;

/// How many lines of an input can be events.
const MOST_EVENTS: u32 = 4096;

/// The events of an input as far as it was read, in order of time and at most 4096. `Events::read`
/// adds each line's event to one.
#[derive(Drop)]
pub struct EventList {
    /// The time of the last event.
    latest: u32,
    /// How many events there were.
    events: u32,
    pub(crate) commands: Vec<TimedCommand>,
    pub(crate) characters: Characters,
}

impl Model for EventList {
    ghost use Rattle.std.specs.Prelude.{◌≤◌, length};
    ghost use Rattle.ds_policy.specs.InputText.{Said};

    ghost Value = { Said };

    ghost view = { λ r. record {
      latest = r.latest;
      events = r.events;
      commands = r.commands.items;
      characters = r.characters;
    } };

    ghost invariant = { λ r. (length r.commands.items ≤ r.events) × (r.events ≤ 4096) };
}

impl EventList {
    /// No events.
    pub fn new(alloc: Global) -> EventList
        ensures { result ≡ nothing_said }
    {
        EventList {
            latest: 0,
            events: 0,
            commands: Vec::new(alloc),
            characters: Characters::new(alloc),
        }
    }

    /// Whether an event at this time, in ticks, is neither before the last one nor one too many.
    pub fn follows(&self, time: u32) -> bool
        ensures { result ≡ follows self.now time }
    {
        self.latest <= time && self.events < MOST_EVENTS
    }

    /// Why an event at this time may not follow.
    pub(crate) fn order_cause(&self, time: u32) -> InputCause
        ensures { result ≡ order_cause self.now time }
    {
        if time < self.latest {
            InputCause::EarlierTime
        } else {
            InputCause::TooManyEvents
        }
    }

    /// Adds a command that is due at a time, in ticks, with the next number. For want of memory
    /// nothing is added.
    pub fn add_command(&mut self, time: u32, command: Command) -> Result<(), AllocError>
        requires { follows self.old time ≡ true }
        ensures added { OnOk result (self.new ≡ with_command self.old time command) }
        ensures kept { OnErr result (self.new ≡ self.old) }
    {
        let number = self.commands.len() as u32 + 1;
        self.commands.push(TimedCommand {
            time: time as u64,
            number,
            command,
        })?;
        self.latest = time;
        self.events += 1;
        Ok(())
    }

    /// Adds characters that come in on a line at a time, in ticks, as one event. For want of memory
    /// none of them is added.
    pub fn add_characters(&mut self, time: u32, line: u8, bytes: &[u8]) -> Result<(), AllocError>
        requires { follows self.old time ≡ true }
        ensures added { OnOk result (self.new ≡ with_characters self.old time line bytes.now) }
        ensures kept { OnErr result (self.new ≡ self.old) }
    {
        self.characters.push(time, line, bytes)?;
        self.latest = time;
        self.events += 1;
        Ok(())
    }

    /// The commands, each with its time and its number.
    pub fn commands(&self) -> &[TimedCommand]
        ensures { result.now ≡ self.now.commands }
    {
        &self.commands
    }

    /// The characters, each with its time and its line.
    pub fn into_characters(self) -> Characters
        ensures { result ≡ self.characters }
    {
        self.characters
    }
}
