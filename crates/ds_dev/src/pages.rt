//! Room for pages of known operations.
ghost use Rattle.std.specs.Prelude.{◌≡◌, ◌<◌, Some, None, IfOk, replicate, slice_index_or, slice_set};
ghost use Rattle.ds_dev.specs.Inner.Known.{room_of, with_room};

use ds_mem::{FRAMES, OutOfMemory};
use ds_pages::Page;
use std::alloc::{AllocError, Global};
use std::marker::Model;

/// Room for pages of known operations, one for each frame of memory. A bus that is given it
/// (`Bus::with_pages`) makes the page of a frame when it is first asked for.
#[derive(Drop)]
pub struct Pages {
    rooms: Vec<Option<Box<Page>>>,
}

impl Model for Pages {
    ghost use Rattle.std.specs.Prelude.{◌≡◌, List, vec_len};
    ghost use Rattle.ds_dev.specs.Inner.Known.{Room};

    ghost Value = { List Room };

    ghost view = { λ p. p.rooms.items };

    ghost invariant = { λ p. vec_len p.rooms ≡ 2048 };
}

impl Pages {
    /// Room for the page of each frame, and no page yet. Refused only where the host has no room
    /// for it.
    pub fn new(alloc: Global) -> Result<Pages, OutOfMemory>
        ensures { IfOk result (λ pages. pages ≡ replicate 2048 None) }
    {
        let Ok(mut rooms) = Vec::with_capacity(alloc, FRAMES) else {
            return Err(OutOfMemory);
        };
        for _ in 0..FRAMES {
            rooms.push_reserved(None);
        }
        Ok(Pages { rooms })
    }

    /// Room for as many pages, and no page yet.
    fn emptied(&self) -> Result<Pages, AllocError> {
        match Pages::new(*self.rooms.allocator()) {
            Ok(pages) => Ok(pages),
            Err(_) => Err(AllocError),
        }
    }

    /// Takes the page of a frame out of its room, if one lies there.
    #[inline(always)]
    fn take(&mut self, frame: usize) -> Option<Box<Page>>
        requires { frame < 2048 }
        ensures value { result ≡ slice_index_or self.old frame None }
        ensures state { self.new ≡ slice_set self.old frame None }
    {
        self.rooms[frame].take()
    }

    /// Lays a page in the room of a frame.
    #[inline(always)]
    fn put(&mut self, frame: usize, page: Box<Page>)
        requires { frame < 2048 }
        ensures { self.new ≡ slice_set self.old frame (Some page) }
    {
        self.rooms[frame] = Some(page);
    }

    /// Takes the page of a frame out of its room, or makes one of zeros; and whether it was there.
    fn take_or_make(&mut self, frame: usize) -> Option<(Box<Page>, bool)>
        requires { frame < 2048 }
        ensures { self.new ≡ slice_set self.old frame None }
    {
        match self.take(frame) {
            Some(page) => Some((page, true)),
            None => match Box::new(*self.rooms.allocator(), Page::new()) {
                Ok(page) => Some((page, false)),
                Err(_) => None,
            },
        }
    }
}

/// As many rooms, and no page in them.
pub(crate) fn emptied(pages: &Option<Pages>) -> Result<Option<Pages>, AllocError> {
    match pages {
        Some(pages) => Ok(Some(pages.emptied()?)),
        None => Ok(None),
    }
}

/// Takes the page of a frame out of its room, if there are rooms and one lies there.
#[inline(always)]
pub(crate) fn take(pages: &mut Option<Pages>, frame: usize) -> Option<Box<Page>>
    requires { frame < 2048 }
    ensures value { result ≡ room_of pages.old frame }
    ensures state { pages.new ≡ with_room pages.old frame None }
{
    match pages {
        Some(pages) => pages.take(frame),
        None => None,
    }
}

/// Lays a page in the room of a frame, if there are rooms.
#[inline(always)]
pub(crate) fn put(pages: &mut Option<Pages>, frame: usize, page: Box<Page>)
    requires { frame < 2048 }
    ensures { pages.new ≡ with_room pages.old frame (Some page) }
{
    if let Some(pages) = pages {
        pages.put(frame, page);
    }
}

/// Takes the page of a frame out of its room, or makes one of zeros; and whether it was there. There
/// is none without rooms, or where the host has no room for it.
pub(crate) fn take_or_make(pages: &mut Option<Pages>, frame: usize) -> Option<(Box<Page>, bool)>
    requires { frame < 2048 }
    ensures { pages.new ≡ with_room pages.old frame None }
{
    match pages {
        Some(pages) => pages.take_or_make(frame),
        None => None,
    }
}
