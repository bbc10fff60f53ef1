//! The data of a packet.
ghost use Rattle.std.specs.Prelude.{◌≡◌, ◌<◌, ◌≤◌, [], ◌∷◌, ◌++◌, length};
ghost use Rattle.ds_packets.specs.Framing.{unescaped};

use arrayvec::ArrayVec;
use std::marker::Model;

/// The most bytes that stand between `$` and `#` of a packet.
pub const MOST_DATA: usize = 4096;

/// What a packet has between `$` and `#`, 4,096 bytes at most.
#[derive(Drop)]
pub struct Data {
    bytes: ArrayVec<u8, MOST_DATA>,
}

impl Model for Data {
    ghost use Rattle.std.specs.Prelude.{List, ℕ};

    ghost Value = { List ℕ };

    ghost view = { λ d. d.bytes.items };
}

impl Data {
    /// No bytes.
    pub(crate) fn new() -> Data
        ensures { result ≡ [] }
    {
        Data {
            bytes: ArrayVec::new(),
        }
    }

    /// Adds a byte, where there is room.
    pub(crate) fn push(&mut self, byte: u8)
        requires { length self.old < MOST_DATA }
        ensures { self.new ≡ self.old ++ byte ∷ [] }
    {
        self.bytes.push(byte);
    }

    /// Drops all bytes.
    pub(crate) fn clear(&mut self)
        ensures { self.new ≡ [] }
    {
        self.bytes.clear();
    }

    /// The bytes.
    pub fn as_slice(&self) -> &[u8]
        ensures held { result.now ≡ self.now }
        ensures most { length self.now ≤ MOST_DATA }
    {
        self.bytes.as_slice()
    }
}

/// The data that a text has, where each `}` stands before the byte that it escapes: what it escapes is
/// that byte with bit 5 turned over.
pub(crate) fn unescaped(text: &[u8]) -> Option<Data>
    requires { length text.now ≤ MOST_DATA }
    ensures { result ≡ unescaped text.now }
{
    let mut data = Data::new();
    let mut left = text;
    while let [first, rest @ ..] = left {
        if *first == b'}' {
            match rest {
                [second, after @ ..] => {
                    data.push(*second ^ 0x20);
                    left = after;
                }
                [] => return None,
            }
        } else {
            data.push(*first);
            left = rest;
        }
    }
    Some(data)
}
