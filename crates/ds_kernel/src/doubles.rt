//! The service of a double miss: the refill handler's own load missed a page of a page table. That
//! page's entry goes into a wired slot of the buffer, and the unit begins again.
ghost use Rattle.std.specs.Prelude.{◌≡◌, ◌≤◌, true, false, slice_set};
ghost use Rattle.ds_word.specs.Word.{bits};
ghost use Rattle.ds_refinement.specs.Units.{is_served, has_left_user};
ghost use Rattle.ds_refinement.specs.Inner.Services.{table_entry, with_table_page};
ghost use Rattle.ds_refinement.specs.Counts.{counts_of, one_tabled};
ghost use Rattle.ds_refinement.specs.Inner.Counts.{IsFew, with_counts};
ghost use Rattle.ds_kernel.specs.Inner.Parts.{held, own_of, with_counts_of};
ghost use Rattle.ds_kernel.specs.Inner.Good.{IsBusy, IsGood};
ghost use Rattle.ds_kernel.specs.Inner.Ended.{DoesStep};

use crate::parts::Parts;
use ds_cp0::register;
use ds_refinement::Step;
use ds_tlb::{Entry, Lookaside};

/// The number of the page with which the page tables begin, at C0000000 (hexadecimal).
const FIRST_TABLE_PAGE: u32 = 0xc_0000;

/// EntryLo of a page that is valid and is not to be written, but for its frame.
const READ_ONLY: u32 = 0x200;

impl<L: Lookaside> Parts<L> {
    /// The entry of the page that EntryHi names, which is a page of the page table of a process.
    fn table_entry(&self, process: u32) -> Entry
        requires page { 0xC0000 ≤ bits self.now.core.system.entry_hi 12 20 }
        ensures { result ≡ table_entry (held self.now) process }
    {
        let hi = self.core.cp0.read(register::ENTRY_HI);
        let region = (hi >> 12) - FIRST_TABLE_PAGE;
        let frame = self.monitor.tables.page_of_table(process, region) as u32;
        Entry::of_words(hi, frame * 4096 + READ_ONLY)
    }

    /// Puts that entry into the next of the wired slots.
    fn put_table_entry(&mut self, process: u32)
        requires slots { L.SLOTS ≡ 64 }
        requires page { 0xC0000 ≤ bits self.old.core.system.entry_hi 12 20 }
        requires few { IsFew (own_of self.old) }
        ensures own { own_of self.new
            ≡ with_counts (own_of self.old) (one_tabled (counts_of (own_of self.old))) }
        ensures rest { self.new ≡ record (with_counts_of self.new self.old) {
          core = record self.old.core {
            entries = slice_set self.old.core.entries self.old.wired
                (table_entry (held self.old) process);
          };
        } }
    {
        let entry = self.table_entry(process);
        self.core.tlb.write(self.wired as usize, entry);
        self.count_table();
    }

    /// The entry of the table's page that was missed goes into the buffer, and the unit begins again
    /// at the address that the handler has in register 27; register 26 is 0.
    #[inline(never)]
    pub fn double_miss(&mut self, process: u32) -> Step
        requires slots { L.SLOTS ≡ 64 }
        requires busy { IsBusy process self.old }
        requires served { is_served self.old.core ≡ true }
        requires left { has_left_user self.old.core ≡ false }
        ensures held { held self.new ≡ with_table_page (held self.old) process }
        ensures rest { self.new ≡ record (with_counts_of self.new self.old) {
          core = self.new.core;
        } }
        ensures does { DoesStep result (held self.old) (held self.new) }
        ensures good { IsGood self.new }
    {
        self.put_table_entry(process);
        let unit = self.core.registers[27];
        self.core.registers[26] = 0;
        self.return_to(unit);
        Step::Inside
    }
}
