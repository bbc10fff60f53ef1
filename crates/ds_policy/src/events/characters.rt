//! The characters of an input that have not been taken, in a byte each.
ghost use Rattle.std.specs.Prelude.{◌≡◌, ◌==◌, ◌++◌, [], length, drop, slice_get, OnOk, OnErr};
ghost use Rattle.ds_policy.specs.InputText.{characters_of};

use crate::command::Character;
use std::alloc::{AllocError, Global};
use std::marker::Model;

/// A `key` line: when and where its characters come in, and where their bytes end.
#[derive(Clone, Copy)]
pub(crate) struct KeyLine {
    pub(crate) time: u32,
    pub(crate) line: u8,
    pub(crate) end: usize,
}

impl KeyLine {
    /// A character of the line.
    fn character(&self, byte: u8) -> Character
        ensures { result ≡ record { time = self.now.time; line = self.now.line; byte = byte } }
    {
        Character {
            time: u64::from(self.time),
            line: self.line,
            byte,
        }
    }
}

/// The characters that are left of an input, in order. Of each only its byte is kept; its time and
/// its line are those of its `key` line.
#[derive(Drop)]
pub struct Characters {
    lines: Vec<KeyLine>,
    bytes: Vec<u8>,
    /// How many of the lines have no character left.
    over: usize,
    /// How many of the characters were taken.
    taken: usize,
}

impl Model for Characters {
    ghost use Rattle.std.specs.Prelude.{List, ◌≤◌, drop, length};
    ghost use Rattle.ds_policy.specs.declared.command.Character.{Character};
    ghost use Rattle.ds_policy.specs.Inner.KeyLines.{characters_from, AreKeyLines};

    ghost Value = { List Character };

    ghost view = { λ c. characters_from c.taken (drop c.over c.lines.items) c.bytes.items };

    ghost invariant = { λ c. (c.over ≤ length c.lines.items)
        × AreKeyLines c.taken (drop c.over c.lines.items) c.bytes.items };
}

impl Clone for Characters {
    ghost is_clone = { λ x y. y ≡ x };

    fn clone(&self) -> Result<Self, AllocError> {
        Ok(Characters {
            lines: Vec::from_slice(*self.lines.allocator(), self.lines.as_slice())?,
            bytes: self.bytes.clone()?,
            over: self.over,
            taken: self.taken,
        })
    }
}

impl Characters {
    /// No characters.
    pub(crate) fn new(alloc: Global) -> Characters
        ensures { result ≡ [] }
    {
        Characters {
            lines: Vec::new(alloc),
            bytes: Vec::new(alloc),
            over: 0,
            taken: 0,
        }
    }

    /// Puts characters that come in on a line at a time, in ticks, at the end; none of them
    /// where memory runs out.
    pub(crate) fn push(&mut self, time: u32, line: u8, bytes: &[u8]) -> Result<(), AllocError>
        ensures added { OnOk result (self.new ≡ self.old ++ characters_of time line bytes.now) }
        ensures kept { OnErr result (self.new ≡ self.old) }
    {
        if bytes.is_empty() {
            return Ok(());
        }
        self.lines.reserve(1)?;
        self.bytes.extend_from_slice(bytes)?;
        let end = self.bytes.len();
        self.lines.push(KeyLine { time, line, end }).unwrap();
        Ok(())
    }

    /// How many are left.
    pub fn len(&self) -> usize
        ensures { result ≡ length self.now }
    {
        self.bytes.len() - self.taken
    }

    /// Whether none is left.
    pub fn is_empty(&self) -> bool
        ensures { result ≡ (length self.now == 0) }
    {
        self.len() == 0
    }

    /// The first that is left.
    pub fn first(&self) -> Option<Character>
        ensures { result ≡ slice_get self.now 0 }
    {
        let line = self.lines.get(self.over)?;
        Some(line.character(self.bytes[self.taken]))
    }

    /// Takes the first that is left.
    pub fn take_first(&mut self) -> Option<Character>
        ensures value { result ≡ slice_get self.old 0 }
        ensures rest { self.new ≡ drop 1 self.old }
    {
        let line = *self.lines.get(self.over)?;
        let byte = self.bytes[self.taken];
        self.taken += 1;
        if self.taken == line.end {
            self.over += 1;
        }
        Some(line.character(byte))
    }
}
