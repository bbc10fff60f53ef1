//! The characters that wait on a line.
ghost use Rattle.std.specs.Prelude.{◌≡◌, ◌++◌, ◌∷◌, [], length, drop, slice_get, not, nat_lt, if◌then◌else◌};

use arrayvec::ArrayVec;
use std::alloc::AllocError;
use std::marker::Model;

/// The most characters that wait on a line.
const ROOM: usize = 256;

/// Characters, the oldest first, 256 at most.
#[derive(Drop)]
pub struct LineQueue {
    bytes: ArrayVec<u8, ROOM>,
}

impl Model for LineQueue {
    ghost use Rattle.std.specs.Prelude.{List, ℕ};

    ghost Value = { List ℕ };

    ghost view = { λ q. q.bytes.items };
}

impl Clone for LineQueue {
    ghost is_clone = { λ x y. y ≡ x };

    fn clone(&self) -> Result<Self, AllocError> {
        let mut bytes = ArrayVec::new();
        bytes.try_extend_from_slice(self.bytes.as_slice()).unwrap();
        Ok(LineQueue { bytes })
    }
}

impl LineQueue {
    /// A queue in which nothing waits.
    pub fn new() -> LineQueue
        ensures { result ≡ [] }
    {
        LineQueue {
            bytes: ArrayVec::new(),
        }
    }

    /// Takes the oldest character, if there is one.
    pub fn take(&mut self) -> Option<u8>
        ensures value { result ≡ slice_get self.old 0 }
        ensures rest { self.new ≡ drop 1 self.old }
    {
        self.bytes.pop_at(0)
    }

    /// Puts a character at the end. One that finds 256 is dropped.
    pub fn put(&mut self, byte: u8)
        ensures { self.new
            ≡ (if nat_lt (length self.old) 256 then self.old ++ byte ∷ [] else self.old) }
    {
        if !self.bytes.is_full() {
            self.bytes.push(byte);
        }
    }

    /// The characters, the oldest first.
    pub fn text(&self) -> &[u8]
        ensures { result.now ≡ self.now }
    {
        &self.bytes
    }

    /// Whether nothing waits.
    pub fn is_empty(&self) -> bool
        ensures { result ≡ not (nat_lt 0 (length self.now)) }
    {
        self.bytes.is_empty()
    }
}
