//! A whole refill at once, where a page of the process that runs was missed.
ghost use Rattle.std.specs.Prelude.{◌≡◌, ◌≢◌, ℕ, ◌+◌, ◌<◌, [], true, false};
ghost use Rattle.ds_cp0.specs.System.{is_user};
ghost use Rattle.ds_refill.specs.Inner.Refill.{handler_events};
ghost use Rattle.ds_refill.specs.Inner.Refills.{RunsInside};
ghost use Rattle.ds_refinement.specs.Held.{Held};
ghost use Rattle.ds_kernel.specs.Inner.Parts.{held, with_counts_of};
ghost use Rattle.ds_kernel.specs.Inner.Good.{IsGood};
ghost use Rattle.ds_kernel.specs.Inner.Going.{GoesOn};
ghost use Rattle.ds_kernel.specs.Inner.Refilled.{has_missed};

use crate::parts::Parts;
use ds_refill::refill_at_once;
use ds_tlb::Lookaside;

/// Where the processor goes on after the miss of a user's page: at the handler's first word.
const MISS_VECTOR: u32 = 0x80000000;

impl<L: Lookaside> Parts<L> {
    /// Whether the processor is before the handler's first word: a page of the process that runs
    /// was missed.
    #[inline(always)]
    fn has_missed(&self) -> bool
        ensures { result ≡ has_missed self.now.core }
    {
        !self.core.cp0.user() && self.core.pc == MISS_VECTOR
    }

    /// The handler's nine words at once, after which the process is in its unit again. Whether they
    /// were done: they are left to single steps where the page-table word can't be loaded.
    // It stands apart, so that what a block needs stays in registers.
    #[inline(never)]
    fn refill(&mut self) -> bool
        requires slots { L.SLOTS ≡ 64 }
        requires wired { L.WIRED ≡ 8 }
        requires good { IsGood self.old }
        requires ready { self.old.monitor.ready ≢ [] }
        requires missed { has_missed self.old.core ≡ true }
        ensures good { IsGood self.new }
        ensures words { result ≡ true
            → RunsInside 0 handler_events self.old.core self.old.bus self.new.core }
        ensures nearer { result ≡ true → (n : ℕ) → self.old.monitor.time < n
            → GoesOn n (held self.old) (held self.new) }
        ensures user { result ≡ true → is_user self.new.core.system ≡ true }
        ensures outside { result ≡ true → self.new.core.slot ≡ false }
        ensures still { result ≡ false → self.new ≡ self.old }
        ensures rest { self.new ≡ record (with_counts_of self.new self.old) {
          core = self.new.core;
        } }
    {
        match refill_at_once(&mut self.core, &self.bus) {
            Some(slot) => {
                self.count_refill(slot);
                true
            }
            None => false,
        }
    }

    /// Where a page of the process that runs was missed, the handler's nine words at once. Whether
    /// they were done: then the process is in its unit again, before the instruction that missed.
    #[inline(always)]
    pub(crate) fn refill_missed(&mut self) -> bool
        requires slots { L.SLOTS ≡ 64 }
        requires wired { L.WIRED ≡ 8 }
        requires good { IsGood self.old }
        ensures good { IsGood self.new }
        ensures missed { result ≡ true → has_missed self.old.core ≡ true }
        ensures ready { result ≡ true → self.old.monitor.ready ≢ [] }
        ensures nearer { result ≡ true → (n : ℕ) → self.old.monitor.time < n
            → GoesOn n (held self.old) (held self.new) }
        ensures goes { (n : ℕ) (start : Held) → (0 < self.old.spent → self.old.monitor.time < n)
            → GoesOn n start (held self.old) → GoesOn n start (held self.new) }
        ensures user { result ≡ true → is_user self.new.core.system ≡ true }
        ensures outside { result ≡ true → self.new.core.slot ≡ false }
        ensures still { result ≡ false → self.new ≡ self.old }
        ensures rest { self.new ≡ record (with_counts_of self.new self.old) {
          core = self.new.core;
        } }
    {
        if self.has_missed() && self.monitor.first_ready().is_some() {
            return self.refill();
        }
        false
    }
}
