//! The service of a late copy: a process is to store to a page in whose frame another page may lie.
//! The page gets a frame of its own, and the unit begins again.
ghost use Rattle.std.specs.Prelude.{◌≡◌, ℕ, ◌<◌, ◌≤◌, true, false, length, slice_set, Some, IfSome};
ghost use Rattle.ds_mem.specs.Memory.{frame_of};
ghost use Rattle.ds_policy.specs.declared.grant.Grant.{Grant};
ghost use Rattle.ds_policy.specs.declared.grant.Right.TheVariants.{Write};
ghost use Rattle.ds_policy.specs.Pages.{entry_at, page_address};
ghost use Rattle.ds_grants.specs.Inner.Counts.{page_of};
ghost use Rattle.ds_grants.specs.State.{page_state};
ghost use Rattle.ds_grants.specs.Inner.State.{IsAsLarge};
ghost use Rattle.ds_grants.specs.Sound.{NamesPages};
ghost use Rattle.ds_grants.specs.Copies.{AreRewritten};
ghost use Rattle.ds_grants.specs.Inner.Represented.{Keeps};
ghost use Rattle.ds_refinement.specs.Units.{is_served, has_left_user};
ghost use Rattle.ds_refinement.specs.Copying.{AwaitsCopy};
ghost use Rattle.ds_refinement.specs.Counts.{counts_of, one_copied};
ghost use Rattle.ds_refinement.specs.Inner.Counts.{with_counts};
ghost use Rattle.ds_refinement.specs.Inner.Services.{IsCopied};
ghost use Rattle.ds_kernel.specs.Inner.Parts.{held, own_of, with_counts_of};
ghost use Rattle.ds_kernel.specs.Inner.Good.{IsBusy, IsGood};
ghost use Rattle.ds_kernel.specs.Inner.Ended.{DoesStep};

use crate::parts::Parts;
use ds_refinement::Step;
use ds_tlb::Lookaside;

impl<L: Lookaside> Parts<L> {
    /// The address of the page of the address that was refused.
    fn bad_page(&self) -> u32
        ensures { result ≡ page_address self.now.core.system.bad_vaddr }
    {
        let address = self.bad_address();
        address - address % 4096
    }

    /// That page, which the process may write, gets a frame of its own, if it shares one.
    fn give_own_frame(&mut self, process: u32)
        requires above { 0 < process }
        requires granted { (grant : Grant)
            × (entry_at self.old.monitor.grants.table process
            (page_address self.old.core.system.bad_vaddr) ≡ Some grant)
            × (grant.right ≡ Write) }
        ensures pages { page_state self.new.monitor.grants self.new.bus.memory
            ≡ page_state self.old.monitor.grants self.old.bus.memory }
        ensures same { IsAsLarge self.old.monitor.grants self.new.monitor.grants }
        ensures ended { self.new.monitor.grants.ended ≡ self.old.monitor.grants.ended }
        ensures marks { IfSome (page_of (entry_at self.old.monitor.grants.table process
            (page_address self.old.core.system.bad_vaddr)))
            (λ page. self.new.monitor.grants.shared
            ≡ slice_set self.old.monitor.grants.shared page false) }
        ensures vectors { (f : ℕ) → f < 2
            → frame_of self.new.bus.memory f ≡ frame_of self.old.bus.memory f }
        ensures size { length self.new.bus.memory ≡ length self.old.bus.memory }
        ensures rewritten { AreRewritten self.old.core.entries self.new.core.entries }
        ensures keeps { Keeps
            self.old.core.entries self.old.bus.memory self.old.monitor.tables
            self.old.monitor.spaces self.old.monitor.grants
            self.new.core.entries self.new.bus.memory self.new.monitor.tables
            self.new.monitor.spaces self.new.monitor.grants }
        ensures names { NamesPages self.new.monitor.grants }
        ensures rest { self.new ≡ record self.old {
          core = record self.old.core { entries = self.new.core.entries };
          bus = record self.old.bus { memory = self.new.bus.memory };
          monitor = record self.old.monitor { grants = self.new.monitor.grants };
        } }
    {
        let page = self.bad_page();
        self.monitor.grants.break_copy(
            process,
            page,
            self.bus.memory(),
            &mut self.monitor.tables,
            &mut self.monitor.spaces,
            &mut self.core.tlb,
        );
        let _table = self.monitor.grants.table();
    }

    /// A copy more that had been put off.
    fn count_copy(&mut self)
        requires { self.old.services ≤ 8 }
        ensures own { own_of self.new
            ≡ with_counts (own_of self.old) (one_copied (counts_of (own_of self.old))) }
        ensures rest { self.new ≡ with_counts_of self.new self.old }
    {
        self.services += 1;
    }

    /// The page that is to be stored to gets a frame of its own, and the unit begins again. The copy
    /// counts.
    #[inline(never)]
    pub fn late_copy(&mut self, process: u32) -> Step
        requires busy { IsBusy process self.old }
        requires served { is_served self.old.core ≡ true }
        requires left { has_left_user self.old.core ≡ true }
        requires waits { AwaitsCopy self.old.core.system self.old.monitor.grants process }
        ensures copied { IsCopied process (held self.old) (held self.new) }
        ensures rest { self.new ≡ record (with_counts_of self.new self.old) {
          core = self.new.core;
          bus = self.new.bus;
          monitor = record self.old.monitor { grants = self.new.monitor.grants };
        } }
        ensures does { DoesStep result (held self.old) (held self.new) }
        ensures good { IsGood self.new }
    {
        self.show_busy_unit(process);
        self.give_own_frame(process);
        self.count_copy();
        self.go_back();
        Step::Inside
    }
}
