//! Memory with the pages of what is known of it.
ghost use Rattle.std.specs.Prelude.{◌≡◌, ◌%◌, ◌*◌, ◌/◌, ◌<◌, false, slice_set, IfSome, length};
ghost use Rattle.std.specs.Borrow.{sem};
ghost use Rattle.ds_word.specs.Merge.{with_bits};
ghost use Rattle.ds_word.specs.Bytes.{word_at, with_word};
ghost use Rattle.ds_pages.specs.Inner.Page.{HoldsWords};
ghost use Rattle.ds_dev.specs.Bus.{memory_store};
ghost use Rattle.ds_dev.specs.Inner.Bus.{alignment};
ghost use Rattle.ds_dev.specs.Inner.Lending.{LendsBytes};

use crate::access;
use crate::pages::{self, Pages};
use ds_isa::Size;
use ds_mem::{FRAME_SIZE, FRAMES, Memory, SIZE};
use ds_pages::Page;
use std::alloc::AllocError;
use std::marker::Model;

/// The words of a frame.
const FRAME_WORDS: usize = FRAME_SIZE / 4;

/// How often a page may be found spoiled, after which its frame has no page any more: a page that is
/// written again and again costs more than it spares.
const PATIENCE: u8 = 64;

/// Memory, which contracts see as the list of its bytes, with a page of known operations for each of
/// its frames that was asked for. Only pages that nobody has taken lie here. No page is freed before
/// the memory.
#[derive(Drop)]
pub(crate) struct KnownMemory {
    memory: Memory,
    pages: Option<Pages>,
    // Whether memory was lent since the pages were last compared with it: then nothing is sure.
    lent: bool,
    // Whether the page of a frame, if it lies here, surely holds the words of memory.
    sure: [bool; FRAMES],
    // How often the page of a frame was found with other words than memory.
    spoiled: [u8; FRAMES],
}

impl Model for KnownMemory {
    ghost use Rattle.std.specs.Prelude.{◌≡◌, List, ℕ, false};
    ghost use Rattle.ds_dev.specs.Inner.Known.{IsKnown};

    ghost Value = { List ℕ };

    ghost view = { λ m. m.memory };

    ghost invariant = { λ m. m.lent ≡ false → IsKnown m.memory m.pages m.sure };
}

/// A clone has the bytes. Its pages are made anew, as they are asked for.
impl Clone for KnownMemory {
    ghost is_clone = { λ x y. y ≡ x };

    fn clone(&self) -> Result<Self, AllocError> {
        let memory = self.memory.clone()?;
        Ok(KnownMemory::new(memory, pages::emptied(&self.pages)?))
    }
}

impl KnownMemory {
    /// A memory of which nothing is sure.
    pub fn new(memory: Memory, pages: Option<Pages>) -> KnownMemory
        ensures { result ≡ memory }
    {
        KnownMemory {
            memory,
            pages,
            lent: true,
            sure: [false; FRAMES],
            spoiled: [0; FRAMES],
        }
    }

    /// The memory, for reading.
    #[inline(always)]
    pub fn memory(&self) -> &Memory
        ensures { result.now ≡ self.now }
    {
        &self.memory
    }

    /// The memory, for reading and writing.
    #[inline(always)]
    pub fn lend(&mut self) -> &mut Memory
        ensures* writes_back { sem 𝓛 (LendsBytes self.entry result) }
        ensures value { result.now ≡ self.old }
    {
        self.lent = true;
        &mut self.memory
    }

    /// Replaces the byte, half or word at a place, or the word that holds a part of it.
    #[inline(always)]
    pub fn store(&mut self, physical: u32, size: Size, value: u32)
        requires in_range { physical < SIZE }
        requires aligned { physical % alignment size ≡ 0 }
        ensures { self.new ≡ memory_store self.old physical size value }
    {
        access::store(&mut self.memory, physical, size, value);
        make_unsure(&mut self.sure, physical);
    }

    /// Replaces the byte at a place by the lowest of a value.
    #[inline(always)]
    pub fn put_byte(&mut self, physical: u32, value: u32)
        requires { physical < SIZE }
        ensures { self.new ≡ with_word self.old physical
            (with_bits (word_at self.old physical) (8 * (physical % 4)) 8 value) }
    {
        self.memory.put_byte(physical, value);
        make_unsure(&mut self.sure, physical);
    }

    /// Replaces the half at a place by the lower one of a value.
    #[inline(always)]
    pub fn put_half(&mut self, physical: u32, value: u32)
        requires in_range { physical < SIZE }
        requires aligned { physical % 2 ≡ 0 }
        ensures { self.new ≡ with_word self.old physical
            (with_bits (word_at self.old physical) (8 * (physical % 4)) 16 value) }
    {
        self.memory.put_half(physical, value);
        make_unsure(&mut self.sure, physical);
    }

    /// Takes out the page of a frame, which holds its words. There is none where the host has no room
    /// for it, or where it was spoiled too often.
    #[inline(always)]
    pub fn take(&mut self, frame: usize) -> Option<Box<Page>>
        requires { frame < 2048 }
        ensures holds { IfSome result (λ page. HoldsWords page.value self.old (4096 * frame)) }
        ensures same { self.new ≡ self.old }
    {
        if !self.lent && self.sure[frame] {
            return pages::take(&mut self.pages, frame);
        }
        self.renew(frame)
    }

    /// Takes back the page of a frame.
    #[inline(always)]
    pub fn give(&mut self, frame: usize, page: Box<Page>)
        requires inside { frame < 2048 }
        requires holds { HoldsWords page.value self.old (4096 * frame) }
        ensures { self.new ≡ self.old }
    {
        pages::put(&mut self.pages, frame, page);
        self.sure[frame] = true;
    }

    /// Takes out the page of a frame once it is compared with memory, or makes it.
    #[cold]
    #[inline(never)]
    fn renew(&mut self, frame: usize) -> Option<Box<Page>>
        requires { frame < 2048 }
        ensures holds { IfSome result (λ page. HoldsWords page.value self.old (4096 * frame)) }
        ensures same { self.new ≡ self.old }
    {
        if self.spoiled[frame] >= PATIENCE {
            return None;
        }
        let (mut page, was_there) = pages::take_or_make(&mut self.pages, frame)?;
        let changed = learn_words(&mut page, &self.memory, frame);
        count(&mut self.spoiled, frame, changed & was_there);
        if self.lent {
            self.sure = [false; FRAMES];
            self.lent = false;
        }
        Some(page)
    }
}

/// The page of the frame of a place is not sure any more.
#[inline(always)]
fn make_unsure(sure: &mut [bool; FRAMES], physical: u32)
    requires { physical < SIZE }
    ensures { sure.new ≡ slice_set sure.old (physical / 4096) false }
{
    sure[physical as usize / FRAME_SIZE] = false;
}

/// Counts one more time that the page of a frame was spoiled, if it was.
fn count(spoiled: &mut [u8; FRAMES], frame: usize, is_spoiled: bool)
    requires { frame < 2048 }
{
    if is_spoiled {
        spoiled[frame] = spoiled[frame].saturating_add(1);
    }
}

/// Tells a page each word of its frame that is another than its own; whether one was.
fn learn_words(page: &mut Page, memory: &Memory, frame: usize) -> bool
    requires { frame < 2048 }
    ensures holds { HoldsWords page.new memory.now (4096 * frame) }
    ensures size { length memory.now ≡ SIZE }
{
    let mut changed = false;
    for i in 0..FRAME_WORDS {
        let word = memory.word((FRAME_SIZE * frame + 4 * i) as u32);
        if page.word(i) != word {
            page.forget(i, word);
            changed = true;
        }
    }
    changed
}
