//! Copies that were put off: a page that is stored to gets a frame of its own, where it shares one.
ghost use Rattle.std.specs.Prelude.{◌≡◌, ◌≢◌, ℕ, ◌<◌, ◌≤◌, true, false, List, length, slice_index, slice_set, Some, IfSome, IsNone};
ghost use Rattle.ds_mem.specs.Memory.{frame_of};
ghost use Rattle.ds_policy.specs.declared.grant.Grant.{Grant};
ghost use Rattle.ds_policy.specs.declared.grant.Right.TheVariants.{Write};
ghost use Rattle.ds_policy.specs.Pages.{entry_at};
ghost use Rattle.ds_grants.specs.State.{is_live, page_state};
ghost use Rattle.ds_grants.specs.Inner.State.{IsAsLarge};
ghost use Rattle.ds_grants.specs.Inner.Counts.{page_of};
ghost use Rattle.ds_grants.specs.Copies.{AreRewritten};
ghost use Rattle.ds_grants.specs.Inner.Copies.{with_own_frame};
ghost use Rattle.ds_grants.specs.Inner.Frames.{AreLying, total};
ghost use Rattle.ds_grants.specs.Inner.Represented.{IsHigh, Keeps};

use crate::grants::Grants;
use crate::holders::page_of;
use crate::layout::frame_in_memory;
use crate::rewords::reword_page;
use ds_asid::Asids;
use ds_mem::Memory;
use ds_tables::Tables;
use ds_tlb::Lookaside;

/// The most frames in which pages lie.
const FRAMES: usize = 1024;

/// The first of so many frames in which no page lies, by the counts of the pages in each.
fn free_frame(counts: &[u32], frames: u32) -> Option<u32>
    requires { frames ≤ length counts.now }
    ensures some { IfSome result (λ f. (f < frames) × (slice_index counts.now f ≡ 0)) }
    ensures none { IsNone result → (f : ℕ) → f < frames → 0 < slice_index counts.now f }
{
    for frame in 0..frames {
        if counts[frame as usize] == 0 {
            return Some(frame);
        }
    }
    None
}

/// Where as many pages as there are frames are counted by their frames, and some frame has two of
/// them, another frame has none.
pub fn a_frame_is_free()
    ensures { (counts : List ℕ) (frame : ℕ) → total counts ≤ length counts
        → 2 ≤ slice_index counts frame
        → (other : ℕ) × (other < length counts) × (slice_index counts other ≡ 0) }
{}

impl Grants {
    /// How many of the pages that live lie in each frame.
    fn pages_by_frame(&self) -> [u32; FRAMES]
        ensures { AreLying self.now self.now.frames result }
    {
        let mut counts = [0; FRAMES];
        for page in 0..self.holders.pages() {
            if self.is_live(page) {
                counts[self.layout.frame_of(page) as usize] += 1;
            }
        }
        counts
    }

    /// A frame that a page may have alone: the one in which it lies, or else one that is free.
    fn own_frame(&self, page: u32) -> u32
        requires page { page < self.now.frames }
        requires lives { is_live self.now page ≡ true }
        ensures within { result < self.now.frames }
        ensures alone { (q : ℕ) → is_live self.now q ≡ true → q ≢ page
            → slice_index self.now.lies q ≢ result }
    {
        let frame = self.layout.frame_of(page);
        let counts = self.pages_by_frame();
        if counts[frame as usize] < 2 {
            return frame;
        }
        match free_frame(&counts, self.holders.pages()) {
            Some(free) => free,
            None => frame,
        }
    }

    /// Has a page lie alone: in its frame, or with the same bytes in one that is free.
    fn give_own_frame(&mut self, page: u32, memory: &mut Memory)
        requires page { page < self.old.frames }
        requires lives { is_live self.old page ≡ true }
        ensures frame { (frame : ℕ) × (self.new ≡ with_own_frame self.old page frame) }
        ensures pages { page_state self.new memory.new ≡ page_state self.old memory.old }
        ensures high { IsHigh memory.old memory.new }
    {
        let old = self.layout.frame_of(page);
        let own = self.own_frame(page);
        memory.copy_frame(frame_in_memory(old), frame_in_memory(own));
        self.layout.give_own(page, own);
    }

    /// Gives the page at an address of a process, which may write it, a frame of its own where it
    /// shares one, and lets whoever may write it write it. It can't be refused.
    pub fn break_copy<L: Lookaside>(
        &mut self,
        process: u32,
        addr: u32,
        memory: &mut Memory,
        tables: &mut Tables,
        spaces: &mut Asids,
        tlb: &mut L,
    )
        requires process { 0 < process }
        requires granted { (grant : Grant)
            × (entry_at self.old.table process addr ≡ Some grant) × (grant.right ≡ Write) }
        ensures pages { page_state self.new memory.new ≡ page_state self.old memory.old }
        ensures same { IsAsLarge self.old self.new }
        ensures ended { self.new.ended ≡ self.old.ended }
        ensures marks { IfSome (page_of (entry_at self.old.table process addr))
            (λ page. self.new.shared ≡ slice_set self.old.shared page false) }
        ensures vectors { (f : ℕ) → f < 2 → frame_of memory.new f ≡ frame_of memory.old f }
        ensures size { length memory.new ≡ length memory.old }
        ensures tables { tables.new ≡ tables.old }
        ensures spaces { spaces.new ≡ spaces.old }
        ensures rewritten { AreRewritten (L.entries tlb.old) (L.entries tlb.new) }
        ensures keeps { Keeps
            (L.entries tlb.old) memory.old tables.old spaces.old self.old
            (L.entries tlb.new) memory.new tables.new spaces.new self.new }
        ensures random { L.random_place tlb.new ≡ L.random_place tlb.old }
    {
        let Some(page) = page_of(self.table.entry(process, addr)) else {
            return;
        };
        self.give_own_frame(page, memory);
        let place = self.place(page);
        reword_page(
            self.table.as_table(),
            page,
            place,
            memory,
            tables,
            spaces,
            tlb,
        );
    }
}
