//! In which frame each page lies, and whether another page may lie there.
ghost use Rattle.std.specs.Prelude.{◌≡◌, ◌+◌, ◌<◌, ◌≤◌, true, false, length, replicate, slice_index, slice_index_or, slice_set, IfOk};
ghost use Rattle.std.specs.List.{range_with_len};

use ds_mem::OutOfMemory;
use std::alloc::{AllocError, Global};
use std::marker::Model;

/// The first frame of memory that holds a page.
const FIRST_FRAME: u32 = 402;

/// The number in memory of a frame among those for pages.
pub(crate) fn frame_in_memory(frame: u32) -> u32
    requires { frame < 1024 }
    ensures { result ≡ frame + 402 }
{
    frame + FIRST_FRAME
}

/// Where a page lies: in a frame, by its number among those for pages, in which other pages may lie
/// too.
#[derive(Clone, Copy)]
pub(crate) struct Place {
    pub(crate) frame: u32,
    pub(crate) shared: bool,
}

/// The frame in which each page lies, by the page's number, and whether another page may lie there.
#[derive(Drop)]
pub(crate) struct Layout {
    frames: Vec<u32>,
    shared: Vec<bool>,
}

impl Model for Layout {
    ghost use Rattle.ds_grants.specs.Inner.State.{LayoutState};

    ghost Value = { LayoutState };

    ghost view = { λ l. record { lies = l.frames.items; shared = l.shared.items } };
}

impl Clone for Layout {
    ghost is_clone = { λ x y. y ≡ x };

    fn clone(&self) -> Result<Self, AllocError> {
        Ok(Layout {
            frames: self.frames.clone()?,
            shared: Vec::from_slice(*self.shared.allocator(), self.shared.as_slice())?,
        })
    }
}

/// So many numbers from 0 on.
fn numbers(alloc: Global, count: u32) -> Result<Vec<u32>, AllocError>
    ensures { IfOk result (λ numbers. numbers.items ≡ range_with_len 0 count) }
{
    (0..count).collect(alloc)
}

/// So many pages that lie alone.
fn unmarked(alloc: Global, count: u32) -> Result<Vec<bool>, OutOfMemory>
    ensures { IfOk result (λ shared. shared.items ≡ replicate count false) }
{
    match vec![in alloc; false; count as usize] {
        Ok(shared) => Ok(shared),
        Err(_) => Err(OutOfMemory),
    }
}

impl Layout {
    /// So many pages, each in the frame of its number, alone.
    pub(crate) fn first(alloc: Global, pages: u32) -> Result<Layout, OutOfMemory>
        ensures { IfOk result (λ l. l
            ≡ record { lies = range_with_len 0 pages; shared = replicate pages false }) }
    {
        let shared = unmarked(alloc, pages)?;
        match numbers(alloc, pages) {
            Ok(frames) => Ok(Layout { frames, shared }),
            Err(_) => Err(OutOfMemory),
        }
    }

    /// The frame in which a page lies.
    pub(crate) fn frame_of(&self, page: u32) -> u32
        requires { page < length self.now.lies }
        ensures { result ≡ slice_index self.now.lies page }
    {
        self.frames[page as usize]
    }

    /// Whether another page may lie in a page's frame.
    pub(crate) fn is_shared(&self, page: u32) -> bool
        requires { page < length self.now.shared }
        ensures { result ≡ slice_index_or self.now.shared page false }
    {
        self.shared[page as usize]
    }

    /// Has a copy lie in the frame of its page, from where neither is alone.
    pub(crate) fn share(&mut self, page: u32, copy: u32)
        requires page { page < length self.old.lies }
        requires copy { copy < length self.old.lies }
        requires marks { length self.old.shared ≡ length self.old.lies }
        ensures { self.new
            ≡ record {
              lies = slice_set self.old.lies copy (slice_index self.old.lies page);
              shared = slice_set (slice_set self.old.shared page true) copy true;
            } }
    {
        self.frames[copy as usize] = self.frames[page as usize];
        self.shared[page as usize] = true;
        self.shared[copy as usize] = true;
    }

    /// Has a page lie in this frame, alone.
    pub(crate) fn give_own(&mut self, page: u32, frame: u32)
        requires page { page < length self.old.lies }
        requires marks { length self.old.shared ≡ length self.old.lies }
        ensures { self.new
            ≡ record {
              lies = slice_set self.old.lies page frame;
              shared = slice_set self.old.shared page false;
            } }
    {
        self.frames[page as usize] = frame;
        self.shared[page as usize] = false;
    }
}
