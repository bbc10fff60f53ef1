//! Characters that come in together.
ghost use Rattle.std.specs.Prelude.{◌≡◌, ◌<◌, ◌≤◌, [], ◌∷◌, ◌++◌, length};

use arrayvec::ArrayVec;
use std::marker::Model;

/// How many characters one event can have.
pub(crate) const MOST_KEYS: usize = 256;

/// The characters of an event in order, no more than 256.
#[derive(Drop)]
pub(crate) struct Keys {
    bytes: ArrayVec<u8, MOST_KEYS>,
}

impl Model for Keys {
    ghost use Rattle.std.specs.Prelude.{List, ℕ};

    ghost Value = { List ℕ };

    ghost view = { λ k. k.bytes.items };
}

impl Keys {
    /// No characters.
    pub(crate) fn new() -> Keys
        ensures { result ≡ [] }
    {
        Keys {
            bytes: ArrayVec::new(),
        }
    }

    /// Adds a character, where there is room.
    pub(crate) fn push(&mut self, byte: u8)
        requires { length self.old < 256 }
        ensures { self.new ≡ self.old ++ byte ∷ [] }
    {
        self.bytes.push(byte);
    }

    /// The characters.
    pub(crate) fn as_slice(&self) -> &[u8]
        ensures { result.now ≡ self.now }
    {
        self.bytes.as_slice()
    }
}
