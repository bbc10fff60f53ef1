//! What is counted of the unit that goes on.
ghost use Rattle.std.specs.Prelude.{◌≡◌, ◌<◌, ◌≤◌, ◌∷◌, length};
ghost use Rattle.ds_refinement.specs.Counts.{counts_of, one_more, one_written, one_tabled};
ghost use Rattle.ds_refinement.specs.Inner.Counts.{with_counts, one_refilled};
ghost use Rattle.ds_refinement.specs.Inner.Services.{with_none_spent, with_one_spent};
ghost use Rattle.ds_kernel.specs.Inner.Parts.{own_of, with_counts_of};

use crate::parts::Parts;
use ds_tlb::Lookaside;

/// The instructions of a refill, each of which counts in the unit.
const REFILL_WORDS: u32 = 9;

/// The steps of Random in a refill from the word on that writes the buffer.
const FROM_WRITE: u8 = 3;

/// The steps of Random in a whole refill.
const REFILL_STEPS: u8 = 9;

/// The last of the slots that take the entries of tables' pages in turn.
const LAST_WIRED: u32 = 7;

/// There is a place for each refill of a unit.
fn show_4_places(places: &[u8; 4])
    ensures { length places.now ≡ 4 }
{
    let _last = places[3];
}

impl<L: Lookaside> Parts<L> {
    /// No unit has begun.
    #[inline(always)]
    pub(crate) fn count_none(&mut self)
        ensures own { own_of self.new ≡ with_none_spent (own_of self.old) }
        ensures rest { self.new ≡ with_counts_of self.new self.old }
    {
        self.spent = 0;
        self.refills = 0;
        self.since = 0;
        self.tables = 0;
        self.services = 0;
    }

    /// One instruction more of the program, or one word more of the handler that writes no slot.
    #[inline(always)]
    pub(crate) fn count_one(&mut self)
        requires spent { self.old.spent ≤ 64 }
        requires since { self.old.since ≤ 56 }
        ensures own { own_of self.new ≡ with_one_spent (own_of self.old) }
        ensures rest { self.new ≡ with_counts_of self.new self.old }
    {
        show_4_places(&self.written);
        self.spent += 1;
        if self.refills > 0 {
            self.since += 1;
        }
    }

    /// This slot was written.
    #[inline(always)]
    fn note_slot(&mut self, slot: usize)
        requires slot { slot < 64 }
        requires few { length (own_of self.old).written ≤ 3 }
        ensures own { own_of self.new
            ≡ record (own_of self.old) { written = slot ∷ (own_of self.old).written } }
        ensures rest { self.new
            ≡ record self.old { written = self.new.written; refills = self.new.refills } }
    {
        show_4_places(&self.written);
        let [first, second, third, _] = self.written;
        self.written = [slot as u8, first, second, third];
        self.refills += 1;
    }

    /// The seventh word more of the handler, which writes this slot.
    #[inline(always)]
    pub(crate) fn count_written(&mut self, slot: usize)
        requires spent { self.old.spent ≤ 64 }
        requires since { self.old.since < 56 }
        requires slot { slot < 64 }
        requires few { length (own_of self.old).written ≤ 3 }
        ensures own { own_of self.new
            ≡ with_counts (own_of self.old) (one_written slot (counts_of (own_of self.old))) }
        ensures rest { self.new ≡ with_counts_of self.new self.old }
    {
        self.spent += 1;
        self.since += 1;
        self.note_slot(slot);
    }

    /// A whole refill more, which wrote this slot.
    #[inline(always)]
    pub(crate) fn count_refill(&mut self, slot: usize)
        requires spent { self.old.spent ≤ 64 }
        requires since { self.old.since < 56 }
        requires slot { slot < 64 }
        requires few { length (own_of self.old).written ≤ 3 }
        ensures own { own_of self.new
            ≡ with_counts (own_of self.old) (one_refilled slot (counts_of (own_of self.old))) }
        ensures rest { self.new ≡ with_counts_of self.new self.old }
    {
        show_4_places(&self.written);
        self.spent += REFILL_WORDS;
        self.since += if self.refills > 0 {
            REFILL_STEPS
        } else {
            FROM_WRITE
        };
        self.note_slot(slot);
    }

    /// An entry more of a page of a page table, in the slot whose turn it was.
    #[inline(always)]
    pub(crate) fn count_table(&mut self)
        requires wired { self.old.wired < 8 }
        requires tables { self.old.tables ≤ 4 }
        requires services { self.old.services ≤ 8 }
        ensures own { own_of self.new
            ≡ with_counts (own_of self.old) (one_tabled (counts_of (own_of self.old))) }
        ensures rest { self.new ≡ with_counts_of self.new self.old }
    {
        self.wired = if self.wired == LAST_WIRED {
            0
        } else {
            self.wired + 1
        };
        self.tables += 1;
        self.services += 1;
    }
}
