//! The image of a source: its bytes, and the parts of it that fill pages.
ghost use Rattle.std.specs.Prelude.{◌≡◌, ◌≤◌, ◌↔◌, IsTrue, [], length};
ghost use Rattle.ds_asm.specs.Images.{page_of_image};

use ds_word::PAGE_SIZE;
use std::marker::Model;

/// The bytes of a source that was assembled, 65,536 at most.
#[derive(Drop)]
pub struct Image {
    bytes: Vec<u8>,
}

impl Model for Image {
    ghost use Rattle.std.specs.Prelude.{List, ℕ, ◌≤◌, length};

    ghost Value = { List ℕ };

    ghost view = { λ i. i.bytes.items };

    ghost invariant = { λ i. length i.bytes.items ≤ 65536 };
}

impl Image {
    /// The image of these bytes.
    pub(crate) fn of(bytes: Vec<u8>) -> Image
        requires { length bytes.items ≤ 65536 }
        ensures { result ≡ bytes.items }
    {
        Image { bytes }
    }

    /// How many bytes it has.
    pub fn len(&self) -> usize
        ensures exact { result ≡ length self.now }
        ensures fits { length self.now ≤ 65536 }
    {
        self.bytes.len()
    }

    /// Its bytes.
    pub fn bytes(&self) -> &[u8]
        ensures { result.now ≡ self.now }
    {
        self.bytes.as_slice()
    }

    /// Whether it has none.
    pub fn is_empty(&self) -> bool
        ensures { IsTrue result ↔ (self.now ≡ []) }
    {
        self.bytes.is_empty()
    }

    /// Fills a page with the bytes of a part: those from 4,096 times its number on, and zeros past
    /// the image's end.
    pub fn page(&self, part: u8, page: &mut [u8])
        requires { length page.old ≡ 4096 }
        ensures { page.new ≡ page_of_image self.now part }
    {
        let start = (PAGE_SIZE * part as usize).min(self.bytes.len());
        let rest = &self.bytes[start..];
        let count = rest.len().min(PAGE_SIZE);
        page.fill(0);
        page[..count].copy_from_slice(&rest[..count]);
    }
}
