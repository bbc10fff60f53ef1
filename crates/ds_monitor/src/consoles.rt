//! The four console texts.
ghost use Rattle.std.specs.Prelude.{◌≡◌, ◌+◌, ◌<◌, ◌≤◌, ◌++◌, ◌∷◌, [], All, IfOk, map, slice_set, slice_index_or, vec_len, vec_capacity, true, false};

use std::alloc::{AllocError, Global};

/// The bytes for which room is made on each line where there is none.
const BYTES_AHEAD: usize = 256;

/// What was put on each of the four lines.
#[derive(Drop)]
pub struct Consoles {
    texts: [Vec<u8>; 4],
    // So many more bytes need no memory, on whichever lines.
    room: usize,
    ghost roomy: { All (λ v. vec_len v + room ≤ vec_capacity v) texts },
}

/// A clone has the texts, and no room yet.
impl Clone for Consoles {
    ghost use Rattle.ds_monitor.specs.Inner.Consoles.{texts_of};

    ghost is_clone = { λ x y. texts_of y ≡ texts_of x };

    fn clone(&self) -> Result<Self, AllocError> {
        Ok(Consoles {
            texts: [
                copied(&self.texts[0])?,
                copied(&self.texts[1])?,
                copied(&self.texts[2])?,
                copied(&self.texts[3])?,
            ],
            room: 0,
        })
    }
}

impl Consoles {
    ghost use Rattle.ds_monitor.specs.Inner.Consoles.{texts_of, HasRoom};

    /// Four empty texts.
    pub fn new(alloc: Global) -> Consoles
        ensures { texts_of result ≡ [] ∷ [] ∷ [] ∷ [] ∷ [] }
    {
        Consoles {
            texts: [
                Vec::new(alloc),
                Vec::new(alloc),
                Vec::new(alloc),
                Vec::new(alloc),
            ],
            room: 0,
        }
    }

    /// The text of a line.
    pub fn text(&self, line: usize) -> &[u8]
        requires { line < 4 }
        ensures { result.now ≡ slice_index_or (texts_of self.now) line [] }
    {
        &self.texts[line]
    }

    /// Whether one more byte needs no memory, whichever its line.
    #[inline(always)]
    pub fn have_room(&self) -> bool
        ensures { result ≡ true → HasRoom self.now }
    {
        self.room > 0
    }

    /// Makes room for one more byte on each line, if it can.
    pub fn reserve(&mut self) -> bool
        ensures room { result ≡ true → HasRoom self.new }
        ensures full { HasRoom self.old → result ≡ true }
        ensures short { result ≡ false → HasRoom self.new → ⊥ }
        ensures texts { texts_of self.new ≡ texts_of self.old }
    {
        if self.room > 0 {
            return true;
        }
        if !make_room(&mut self.texts) {
            return false;
        }
        self.room = BYTES_AHEAD;
        true
    }

    /// Puts a byte on a line that has room for it.
    #[inline(always)]
    pub fn push_reserved(&mut self, line: usize, byte: u8)
        requires line { line < 4 }
        requires room { HasRoom self.old }
        ensures { texts_of self.new ≡ slice_set (texts_of self.old) line
            (slice_index_or (texts_of self.old) line [] ++ byte ∷ []) }
    {
        self.texts[line].push_reserved(byte);
        self.room -= 1;
    }
}

/// Another text of the same bytes.
fn copied(text: &Vec<u8>) -> Result<Vec<u8>, AllocError>
    ensures { IfOk result (λ copy. copy.items ≡ text.now.items) }
{
    Vec::from_slice(*text.allocator(), text.as_slice())
}

/// Makes room on each line, if it can.
fn make_room(texts: &mut [Vec<u8>; 4]) -> bool
    ensures made { result ≡ true
        → All (λ v. vec_len v + 256 ≤ vec_capacity v) texts.new }
    ensures items { map (λ v. v.items) texts.new ≡ map (λ v. v.items) texts.old }
    ensures valid { All (λ v. vec_len v + 0 ≤ vec_capacity v) texts.new }
{
    for line in 0..4 {
        if texts[line].reserve(BYTES_AHEAD).is_err() {
            return false;
        }
    }
    true
}
