//! What is still to come of the input.
ghost use Rattle.std.specs.Prelude.{◌≡◌, ◌∷◌, ◌<◌, ◌≤◌, IfSome, IsNone, All, length};
ghost use Rattle.std.specs.List.Sorted.{IsNonDecreasingBy};
ghost use Rattle.ds_policy.specs.InputFacts.{has_time, comes_at};
ghost use Rattle.ds_monitor.specs.Inner.Coming.{first_time, first_event, first_due};
ghost use Rattle.ds_monitor.specs.Inner.Commands.{commands_by};

use ds_policy::{Character, Events, TimedCommand};
use std::alloc::AllocError;
use std::marker::Model;

/// A time to which no run comes.
pub(crate) const NEVER: u64 = 1 << 63;

/// What has not come in yet of an input: its commands and its characters, each in their order.
#[derive(Drop)]
pub struct Due {
    events: Events,
    // How many of its commands were taken.
    taken: usize,
}

impl Model for Due {
    ghost use Rattle.std.specs.Prelude.{◌≤◌, drop, length};
    ghost use Rattle.ds_policy.specs.Value.{InputValue};

    ghost Value = { InputValue };

    ghost view = { λ d. record {
      commands = drop d.taken d.events.commands;
      characters = d.events.characters;
    } };

    ghost invariant = { λ d. d.taken ≤ length d.events.commands };
}

impl Clone for Due {
    ghost is_clone = { λ x y. y ≡ x };

    fn clone(&self) -> Result<Self, AllocError> {
        Ok(Due {
            events: self.events.clone()?,
            taken: self.taken,
        })
    }
}

/// How many of these commands are due at a time, from the first on.
fn count_due(commands: &[TimedCommand], now: u64) -> usize
    ensures exact { result ≡ commands_by now commands.now }
    ensures few { result ≤ length commands.now }
{
    commands
        .iter()
        .take_while(|command| command.time <= now)
        .count()
}

impl Due {
    /// All of an input.
    pub fn new(events: Events) -> Due
        ensures { result ≡ events }
    {
        Due { events, taken: 0 }
    }

    /// Commands and characters come in order, each character on one of four lines.
    pub fn show_events_in_order(&self)
        ensures commands { IsNonDecreasingBy has_time self.now.commands }
        ensures order { IsNonDecreasingBy comes_at self.now.characters }
        ensures lines { All (λ c. c.line < 4) self.now.characters }
    {
        let _orders = self.events.commands();
        let _all = self.events.characters();
    }

    /// The commands that are still to come.
    pub fn commands(&self) -> &[TimedCommand]
        ensures { result.now ≡ self.now.commands }
    {
        let commands = self.events.commands();
        &commands[self.taken..]
    }

    /// How many characters are still to come.
    pub fn characters(&self) -> usize
        ensures { result ≡ length self.now.characters }
    {
        self.events.characters().len()
    }

    /// The first command, if it is due at a time, is taken.
    pub fn take_command(&mut self, now: u64) -> Option<TimedCommand>
        ensures some { IfSome result
            (λ c. (self.old.commands ≡ c ∷ self.new.commands) × (c.time ≤ now)) }
        ensures few { IfSome result (λ c. c.number ≤ 4096) }
        ensures none { IsNone result → self.new ≡ self.old }
        ensures later { IsNone result → All (λ c. now < has_time c) self.old.commands }
        ensures rest { self.new ≡ record self.old { commands = self.new.commands } }
    {
        match self.events.commands().get(self.taken) {
            Some(command) if command.time <= now => {
                let command = *command;
                self.taken += 1;
                Some(command)
            }
            _ => None,
        }
    }

    /// The first character, if it is due at a time, comes in.
    pub fn take(&mut self, now: u64) -> Option<Character>
        ensures some { IfSome result
            (λ c. (self.old.characters ≡ c ∷ self.new.characters) × (c.time ≤ now)) }
        ensures none { IsNone result → self.new ≡ self.old }
        ensures later { IsNone result → All (λ c. now < comes_at c) self.old.characters }
        ensures rest { self.new ≡ record self.old { characters = self.new.characters } }
    {
        match self.events.characters().first() {
            Some(character) if character.time <= now => self.events.take_character(),
            _ => None,
        }
    }

    /// When the first command comes, or never.
    #[inline(always)]
    pub fn next_command(&self) -> u64
        ensures { result ≡ first_time has_time self.now.commands }
    {
        match self.events.commands().get(self.taken) {
            Some(command) => command.time,
            None => NEVER,
        }
    }

    /// When the first character comes, or never.
    #[inline(always)]
    fn next_character(&self) -> u64
        ensures { result ≡ first_time comes_at self.now.characters }
    {
        match self.events.characters().first() {
            Some(character) => character.time,
            None => NEVER,
        }
    }

    /// When the first command or character comes, or never.
    #[inline(always)]
    pub fn next_time(&self) -> u64
        ensures { result ≡ first_event self.now }
    {
        self.next_command().min(self.next_character())
    }

    /// When the first character comes, or a tick before the first command does.
    #[inline(always)]
    pub fn next_due(&self) -> u64
        ensures { result ≡ first_due self.now }
    {
        let command = self.next_command().saturating_sub(1);
        command.min(self.next_character())
    }

    /// How many commands are due at a time.
    pub fn commands_by(&self, now: u64) -> usize
        ensures exact { result ≡ commands_by now self.now.commands }
        ensures few { result ≤ 4096 }
    {
        count_due(&self.events.commands()[self.taken..], now)
    }
}
