//! Where pages lie, by a plain rule: a copy lies in the frame of its page, and both are marked, so that
//! neither may be stored to; before the first store to one of them it gets a frame of its own.
ghost use Rattle.std.specs.Prelude.{◌<◌};

use ds_policy::{Entry, Grant, Right};

/// The most pages.
pub const PAGES: usize = 1024;

/// The first frame that holds a page.
pub const FIRST_FRAME: u32 = 402;

/// V of EntryLo: the page may be read.
const VALID: u32 = 0x200;

/// D of EntryLo: the page may be written.
const DIRTY: u32 = 0x400;

/// Of each page the number of its frame among those of pages, and whether another may lie there.
#[derive(Clone, Copy)]
pub struct Frames {
    lies: [u32; PAGES],
    marked: [bool; PAGES],
}

/// A number's place in the lists.
fn list_place(number: u32) -> usize
    ensures { result < 1024 }
{
    number as usize % PAGES
}

/// The pages that have names.
pub fn named_pages(named: u32) -> [bool; PAGES] {
    let mut live = [false; PAGES];
    let mut page: u32 = 0;
    for lives in &mut live {
        *lives = page < named;
        page = page.saturating_add(1);
    }
    live
}

/// Notes which pages entries name.
pub fn note_pages(live: &mut [bool; PAGES], entries: &[Entry]) {
    for entry in entries {
        if let Some(page) = entry.grant.page {
            live[list_place(page)] = true;
        }
    }
}

/// The first frame in which no page lies.
fn first_free(counts: &[u32; PAGES]) -> u32 {
    let mut frame: u32 = 0;
    for count in counts {
        if *count == 0 {
            return frame;
        }
        frame = frame.saturating_add(1);
    }
    0
}

impl Frames {
    /// Each page in the frame of its number.
    pub fn new() -> Frames {
        let mut lies = [0; PAGES];
        let mut page: u32 = 0;
        for frame in &mut lies {
            *frame = page;
            page = page.saturating_add(1);
        }
        Frames {
            lies,
            marked: [false; PAGES],
        }
    }

    /// The frame in which a page lies, if there is such a page.
    pub fn frame(&self, page: u32) -> Option<u32> {
        let frame = self.lies.get(page as usize)?;
        Some(frame.saturating_add(FIRST_FRAME))
    }

    /// The page-table word of a grant.
    pub fn word_of(&self, grant: Grant) -> u32 {
        let Some(page) = grant.page else {
            return 0;
        };
        let dirty = match grant.right {
            Right::Nothing => return 0,
            Right::Read => 0,
            Right::Write if self.marked[list_place(page)] => 0,
            Right::Write => DIRTY,
        };
        match self.frame(page) {
            Some(frame) => frame.wrapping_mul(4096) | dirty | VALID,
            None => 0,
        }
    }

    /// A page has been copied.
    pub fn copy(&mut self, page: u32, copy: u32) {
        self.lies[list_place(copy)] = self.lies[list_place(page)];
        self.marked[list_place(page)] = true;
        self.marked[list_place(copy)] = true;
    }

    /// How many pages that live lie in each frame.
    fn counts(&self, live: &[bool; PAGES]) -> [u32; PAGES] {
        let mut counts: [u32; PAGES] = [0; PAGES];
        for page in 0..PAGES {
            if live[page] {
                let frame = list_place(self.lies[page]);
                counts[frame] = counts[frame].saturating_add(1);
            }
        }
        counts
    }

    /// A page gets a frame of its own: the first in which none lies, where another that lives lies
    /// in its frame.
    pub fn split(&mut self, page: u32, live: &[bool; PAGES]) {
        let counts = self.counts(live);
        if counts[list_place(self.lies[list_place(page)])] > 1 {
            self.lies[list_place(page)] = first_free(&counts);
        }
        self.marked[list_place(page)] = false;
    }
}
