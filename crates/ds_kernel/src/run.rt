//! Runs of a station, by blocks of instructions where it can and by single steps elsewhere.
ghost use Rattle.std.specs.Prelude.{◌≡◌, ◌⊎◌, ℕ, ◌+◌, ◌<◌, ◌≤◌, true, false, IfErr, OnOk, OnErr, IsOk, IsErrOf};
ghost use Rattle.ds_ahead.specs.Inner.Ahead.{owed_tick};
ghost use Rattle.ds_refinement.specs.Held.{Held};
ghost use Rattle.ds_refinement.specs.Units.{is_served};
ghost use Rattle.ds_refinement.specs.Runs.{held_goes_on};
ghost use Rattle.ds_refinement.specs.Inner.Services.{with_failure};
ghost use Rattle.ds_kernel.specs.Inner.Parts.{held};
ghost use Rattle.ds_kernel.specs.Inner.Good.{IsBusy, IsGood};
ghost use Rattle.ds_kernel.specs.Inner.Going.{GoesOn};
ghost use Rattle.ds_kernel.specs.Inner.Halts.{Halts};
ghost use Rattle.ds_kernel.specs.Inner.AtOnce.{IsCalled, MayGoOn};
ghost use Rattle.ds_monitor.specs.Inner.Room.{HasLogRoom, HasRoom, has_turn_room};
ghost use Rattle.ds_refinement.specs.Inner.Blocks.{MayRunAhead};
ghost use Rattle.ds_kernel.specs.Inner.Ran.{HasRun, WasCut};

use crate::halt::Halt;
use crate::parts::Parts;
use ds_tlb::Lookaside;

impl<L: Lookaside> Parts<L> {
    /// Whether a run for n goes on.
    #[inline(always)]
    pub(crate) fn goes_on(&self, n: u64) -> bool
        requires good { IsGood self.now }
        ensures { result ≡ held_goes_on n (held self.now) }
    {
        if self.monitor.owed.is_some() {
            return true;
        }
        if self.monitor.time >= n {
            return false;
        }
        self.monitor.first_ready().is_some() || !self.monitor.is_over()
    }

    /// The boundary, where one is owed.
    #[inline(always)]
    pub(crate) fn do_owed(&mut self)
        requires slots { L.SLOTS ≡ 64 }
        requires wired { L.WIRED ≡ 8 }
        requires good { IsGood self.old }
        ensures good { IsGood self.new }
        ensures goes { (n : ℕ) (start : Held) → GoesOn n start (held self.old)
            → GoesOn n start (held self.new) }
    {
        if self.monitor.owed.is_some() {
            self.boundary();
        }
    }

    /// The service of the exception that waits, and the boundary after it, where that ended the unit.
    #[inline(always)]
    fn serve_waiting(&mut self, n: u64, process: u32)
        requires slots { L.SLOTS ≡ 64 }
        requires wired { L.WIRED ≡ 8 }
        requires busy { IsBusy process self.old }
        requires served { is_served self.old.core ≡ true }
        requires before { self.old.monitor.time < n }
        ensures good { IsGood self.new }
        ensures goes { (start : Held) → GoesOn n start (held self.old)
            → GoesOn n start (held self.new) }
    {
        self.serve(process);
        self.do_owed();
    }

    /// The service of the exception that waits, where one does, and the boundary after it, where
    /// that ended the unit; or the refill, where a page was missed. Whether another block may begin
    /// at once, as it may after a refill, and after a call that was answered at once; it is to leave
    /// time for a unit before the end.
    #[inline(always)]
    fn serve_raised(&mut self, n: u64, end: u64, called: bool) -> bool
        requires slots { L.SLOTS ≡ 64 }
        requires wired { L.WIRED ≡ 8 }
        requires good { IsGood self.old }
        requires working { self.old.failed ≡ false }
        requires few { n ≤ 1000000000 }
        requires begun { 0 < self.old.spent → self.old.monitor.time < n }
        requires early { called ≡ true → self.old.monitor.time + 1 < self.old.monitor.quiet_until }
        requires quiet { end ≤ self.old.monitor.quiet_until }
        requires log { HasLogRoom 1 self.old.monitor }
        requires called { called ≡ true → IsCalled self.old.core }
        ensures good { IsGood self.new }
        ensures goes { (start : Held) → GoesOn n start (held self.old)
            → GoesOn n start (held self.new) }
        ensures nearer { result ≡ true → GoesOn n (held self.old) (held self.new) }
        ensures on { result ≡ true → MayGoOn end self.new }
        ensures until { result ≡ true
            → self.new.monitor.quiet_until ≡ self.old.monitor.quiet_until }
    {
        match self.monitor.first_ready() {
            Some(process) if called => {
                if self.answer_at_once(process) {
                    return self.may_go_on(end);
                }
                self.serve_waiting(n, process);
                false
            }
            Some(process) if self.is_served() => {
                self.serve_waiting(n, process);
                false
            }
            _ => self.refill_missed() && self.may_go_on(end),
        }
    }

    /// A block of so many instructions, which ends a unit before `end`, with the service of the
    /// exception that ends it. Whether another block may begin at once.
    #[inline(always)]
    fn run_and_serve(&mut self, n: u64, end: u64, limit: u32) -> bool
        requires slots { L.SLOTS ≡ 64 }
        requires wired { L.WIRED ≡ 8 }
        requires good { IsGood self.old }
        requires working { self.old.failed ≡ false }
        requires few { n ≤ 1000000000 }
        requires ahead { MayRunAhead limit (held self.old) }
        requires some { 1 ≤ limit }
        requires end { self.old.monitor.time + limit + 1 ≡ end }
        requires within { end ≤ n }
        requires before { self.old.monitor.time + limit + 1 + owed_tick self.old.core.slot
            ≤ self.old.monitor.quiet_until }
        requires quiet { end ≤ self.old.monitor.quiet_until }
        requires room { HasRoom 1 self.old.monitor }
        ensures good { IsGood self.new }
        ensures goes { GoesOn n (held self.old) (held self.new) }
        ensures on { result ≡ true → MayGoOn end self.new }
        ensures quiet { result ≡ true → end ≤ self.new.monitor.quiet_until }
    {
        let called = self.run_block(n, end, limit);
        self.serve_raised(n, end, called)
    }

    /// Blocks of instructions, the first of so many, each with the service of the exception that ends
    /// it: one after the other as long as that is a miss that is refilled at once, or a call that is
    /// answered at once.
    #[inline(always)]
    fn run_blocks(&mut self, n: u64, limit: u32)
        requires slots { L.SLOTS ≡ 64 }
        requires wired { L.WIRED ≡ 8 }
        requires good { IsGood self.old }
        requires working { self.old.failed ≡ false }
        requires few { n ≤ 1000000000 }
        requires ahead { MayRunAhead limit (held self.old) }
        requires some { 1 ≤ limit }
        requires end { self.old.monitor.time + limit + 1 ≤ n }
        requires before { self.old.monitor.time + limit + 1 + owed_tick self.old.core.slot
            ≤ self.old.monitor.quiet_until }
        requires room { HasRoom 1 self.old.monitor }
        ensures good { IsGood self.new }
        ensures goes { GoesOn n (held self.old) (held self.new) }
    {
        let end = self.monitor.time + u64::from(limit) + 1;
        let mut ahead = limit;
        while self.run_and_serve(n, end, ahead) {
            ahead = (end - self.monitor.time - 1) as u32;
        }
    }

    /// What may be done at once where no block may begin: a refill, or turns in which nobody runs.
    /// Whether there was something.
    #[inline(always)]
    fn go_at_once(&mut self, n: u64) -> bool
        requires slots { L.SLOTS ≡ 64 }
        requires wired { L.WIRED ≡ 8 }
        requires good { IsGood self.old }
        requires working { self.old.failed ≡ false }
        requires few { n ≤ 1000000000 }
        requires going { held_goes_on n (held self.old) ≡ true }
        ensures good { IsGood self.new }
        ensures goes { result ≡ true → GoesOn n (held self.old) (held self.new) }
        ensures still { result ≡ false → self.new ≡ self.old }
    {
        if self.monitor.first_ready().is_some() {
            self.refill_missed()
        } else {
            self.idle_ahead(n)
        }
    }

    /// A block of instructions where one may begin, with the service of the exception that ends it,
    /// or else what may be done at once, or one step and the boundary after it.
    #[inline(always)]
    fn run_blocks_or_step(&mut self, n: u64) -> Result<(), Halt>
        requires slots { L.SLOTS ≡ 64 }
        requires wired { L.WIRED ≡ 8 }
        requires good { IsGood self.old }
        requires working { self.old.failed ≡ false }
        requires few { n ≤ 1000000000 }
        requires going { held_goes_on n (held self.old) ≡ true }
        ensures good { IsGood self.new }
        ensures goes { OnOk result (GoesOn n (held self.old) (held self.new)) }
        ensures short { OnErr result (has_turn_room self.new.monitor ≡ false) }
        ensures halts { IfErr result (λ halt. Halts halt (held self.old)) }
        ensures marked { OnErr result (held self.new ≡ with_failure (held self.old)) }
    {
        match self.may_run_ahead(n) {
            Some(limit) => {
                self.begin_block()?;
                self.run_blocks(n, limit);
            }
            None => {
                if !self.go_at_once(n) {
                    self.step()?;
                    self.do_owed();
                }
            }
        }
        Ok(())
    }

    /// Does the boundary that is owed, if one is, and then runs until the time is n or all
    /// processes have ended. Where that is so already, or after a failure, which it answers, nothing
    /// changes. It is refused only where there is no room for a turn.
    // It stands apart, so that its loop is compiled alike wherever it is called from.
    #[inline(never)]
    pub fn run(&mut self, n: u64) -> Result<(), Halt>
        requires slots { L.SLOTS ≡ 64 }
        requires wired { L.WIRED ≡ 8 }
        requires good { IsGood self.old }
        requires few { n ≤ 1000000000 }
        ensures good { IsGood self.new }
        ensures ran { OnOk result (HasRun n (held self.old) (held self.new)) }
        ensures over { OnOk result (held_goes_on n (held self.new) ≡ false) }
        ensures working { OnOk result (self.new.failed ≡ false) }
        ensures unit { OnOk result (((self.old.spent ≡ 0) ⊎ (self.old.monitor.time < n))
            → self.new.spent ≡ 0) }
        ensures cut { IfErr result (λ halt. WasCut n halt (held self.old) (held self.new)) }
        ensures going { self.old.failed ≡ false
            → OnErr result (held_goes_on n (held self.new) ≡ true) }
        ensures short { self.old.failed ≡ false
            → OnErr result (has_turn_room self.new.monitor ≡ false) }
        ensures again { self.old.failed ≡ true
            → IsErrOf result Halt.Failed × (self.new ≡ self.old) }
        ensures rest { self.old.failed ≡ false → held_goes_on n (held self.old) ≡ false
            → IsOk result × (self.new ≡ self.old) }
    {
        if self.failed {
            return Err(Halt::Failed);
        }
        while self.goes_on(n) {
            self.run_blocks_or_step(n)?;
        }
        Ok(())
    }
}
