//! What an input says: commands and characters, each with its time.
ghost use Rattle.std.specs.Prelude.{◌≡◌, ◌==◌, ◌≤◌, length, drop, slice_get, IfOk};
ghost use Rattle.std.specs.List.{position_or_len, before_first, after_first};
ghost use Rattle.ds_policy.specs.Inner.Refusal.{IsRead};
ghost use Rattle.ds_policy.specs.InputText.{input_of, read_input};
ghost use Rattle.ds_policy.specs.Inner.InputText.{Gives};
ghost use Rattle.ds_policy.specs.InputFacts.{AreGoodCommands};

mod cause;
mod characters;
mod digits;
mod event;
mod fault;
mod keys;
mod layout;
mod line;
mod list;
mod reading;

use crate::command::{Character, TimedCommand};
use crate::names::NamedPages;
use crate::policy::{Policy, PolicyPage};
use crate::unread::Unread;
pub use cause::{InputCause, InputReason};
pub use characters::Characters;
pub use digits::address_of;
pub use fault::EventsFault;
pub use layout::two_blanks_place;
pub use list::EventList;
use std::alloc::{AllocError, Global};
use std::marker::Model;

/// The latest time at which an event can be due, in ticks, and the most ticks of a run.
pub const MOST_TICKS: u64 = 1_000_000_000;

/// The commands and characters of an input, in order. Characters can be taken, from the first on.
#[derive(Drop)]
pub struct Events {
    commands: Vec<TimedCommand>,
    characters: Characters,
}

impl Model for Events {
    ghost use Rattle.ds_policy.specs.Value.{InputValue};
    ghost use Rattle.ds_policy.specs.Inner.InputFacts.{IsGoodInput};

    ghost Value = { InputValue };

    ghost view = { λ e. record { commands = e.commands.items; characters = e.characters } };

    ghost invariant = { λ e.
        IsGoodInput (record { commands = e.commands.items; characters = e.characters }) };
}

impl Clone for Events {
    ghost is_clone = { λ x y. y ≡ x };

    fn clone(&self) -> Result<Self, AllocError> {
        Ok(Events {
            commands: Vec::from_slice(*self.commands.allocator(), self.commands.as_slice())?,
            characters: self.characters.clone()?,
        })
    }
}

impl Events {
    ghost use Rattle.std.specs.List.{All};
    ghost use Rattle.std.specs.List.Sorted.{IsNonDecreasingBy};
    ghost use Rattle.ds_policy.specs.InputFacts.{has_time, comes_at};
    ghost use Rattle.ds_policy.specs.Inner.InputFacts.{IsGoodCharacter, AreNumbered};

    /// What a text says, or its first line that is wrong.
    pub fn read(alloc: Global, text: &[u8], policy: &Policy) -> Result<Events, EventsFault>
        ensures exact { Gives result (input_of policy.now.pages text.now) }
        ensures good { IfOk result (λ e. AreGoodCommands (length policy.now.pages) e.commands) }
    {
        match Events::read_or_reason(alloc, text, policy) {
            Ok(events) => Ok(events),
            Err(Unread::Reason(reason)) => Err(EventsFault::InputFault(reason.line)),
            Err(Unread::Memory) => Err(EventsFault::Memory),
        }
    }

    /// What a text says, or why its first line that is wrong is refused.
    pub fn read_or_reason(
        alloc: Global,
        text: &[u8],
        policy: &Policy,
    ) -> Result<Events, Unread<InputReason>>
        ensures exact { IsRead (λ e. e) result (read_input policy.now.pages text.now) }
        ensures good { IfOk result (λ e. AreGoodCommands (length policy.now.pages) e.commands) }
    {
        let pages = policy.pages();
        prove!(pages.len() <= policy.frames() as usize);
        events_of(alloc, text, pages)
    }

    /// The commands, each with its time and its number.
    pub fn commands(&self) -> &[TimedCommand]
        ensures all { result.now ≡ self.now.commands }
        ensures few { length self.now.commands ≤ 4096 }
        ensures due { All (λ c. has_time c ≤ 1000000000) self.now.commands }
        ensures numbers { AreNumbered self.now.commands }
        ensures order { IsNonDecreasingBy has_time self.now.commands }
    {
        &self.commands
    }

    /// The characters that are left, each with its time and its line.
    pub fn characters(&self) -> &Characters
        ensures all { result.now ≡ self.now.characters }
        ensures good { All IsGoodCharacter self.now.characters }
        ensures order { IsNonDecreasingBy comes_at self.now.characters }
    {
        &self.characters
    }

    /// Takes the first character that is left.
    pub fn take_character(&mut self) -> Option<Character>
        ensures value { result ≡ slice_get self.old.characters 0 }
        ensures rest { self.new
            ≡ record self.old { characters = drop 1 self.old.characters } }
    {
        self.characters.take_first()
    }
}

fn events_of(
    alloc: Global,
    text: &[u8],
    pages: &[PolicyPage],
) -> Result<Events, Unread<InputReason>>
    requires { length pages.now ≤ 1024 }
    ensures exact { IsRead (λ e. e) result (read_input pages.now text.now) }
    ensures good { IfOk result (λ e. AreGoodCommands (length pages.now) e.commands) }
{
    let named = NamedPages::of(alloc, pages)?;
    let mut reading = EventList::new(alloc);
    let mut number = 0;
    let mut left = text;
    while !left.is_empty() {
        let (line, rest) = first_line(left);
        number += 1;
        reading.add_line(alloc, &named, number, line)?;
        left = rest;
    }
    Ok(Events {
        commands: reading.commands,
        characters: reading.characters,
    })
}

/// The first line of a text, and what follows the line feed that ends it.
fn first_line(text: &[u8]) -> (&[u8], &[u8])
    ensures line { result.0.now ≡ before_first (λ b. b == 10) text.now }
    ensures rest { result.1.now ≡ after_first (λ b. b == 10) text.now }
{
    let end = line_len(text);
    if end < text.len() {
        (&text[..end], &text[end + 1..])
    } else {
        (text, &text[end..])
    }
}

fn line_len(text: &[u8]) -> usize
    ensures exact { result ≡ position_or_len (λ b. b == 10) text.now }
    ensures within { result ≤ length text.now }
{
    text.iter().take_while(|b| **b != b'\n').count()
}
