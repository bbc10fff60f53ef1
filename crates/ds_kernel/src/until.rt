//! Runs of a station up to where somebody is about to run from one of some addresses.
ghost use Rattle.std.specs.Prelude.{◌≡◌, ◌⊎◌, ℕ, ◌+◌, ◌<◌, ◌≤◌, true, false, IfErr, OnOk, OnErr, IfSome, IsNone};
ghost use Rattle.ds_ahead.specs.Inner.Ahead.{hardware_of, AdvancesTo, ComesByWords, owed_tick};
ghost use Rattle.ds_ahead.specs.Inner.Stops.{ComesClear};
ghost use Rattle.ds_refinement.specs.Runs.{held_goes_on};
ghost use Rattle.ds_refinement.specs.Inner.Blocks.{MayRunAhead};
ghost use Rattle.ds_refinement.specs.Inner.Clear.{ClearPath, IsAtStop, IsClearOf};
ghost use Rattle.ds_refinement.specs.Inner.Services.{with_failure};
ghost use Rattle.ds_monitor.specs.Inner.Room.{HasRoom, has_turn_room};
ghost use Rattle.ds_kernel.specs.Inner.Parts.{held};
ghost use Rattle.ds_kernel.specs.Inner.Good.{IsGood};
ghost use Rattle.ds_kernel.specs.Inner.Going.{GoesOn};
ghost use Rattle.ds_kernel.specs.Inner.Halts.{Halts};
ghost use Rattle.ds_kernel.specs.Inner.Ran.{HasRun, WasCut};

use crate::halt::Halt;
use crate::parts::Parts;
use ds_ahead::{Ahead, Stops, run_ahead_until};
use ds_tlb::Lookaside;

impl<L: Lookaside> Parts<L> {
    /// Whether it stands between two turns, and whoever runs next is at an address that may be among
    /// the stops.
    #[inline(always)]
    fn is_at_stop(&self, stops: &Stops) -> bool
        ensures stop { result ≡ true → IsAtStop stops.now (held self.now) }
        ensures clear { result ≡ false → IsClearOf stops.now (held self.now) }
    {
        if self.monitor.owed.is_some() || self.spent > 0 || self.core.slot {
            return false;
        }
        self.monitor.first_ready().is_some() && stops.may_hold(self.core.pc)
    }

    /// Takes so many instructions, or fewer and then one that raises an exception, or fewer and one
    /// at least, up to a stop.
    #[inline(always)]
    fn go_until(&mut self, stops: &Stops, limit: u32) -> Ahead
        requires slots { L.SLOTS ≡ 64 }
        requires wired { L.WIRED ≡ 8 }
        requires some { 0 < limit }
        ensures within { result.steps ≤ limit }
        ensures on { IsNone result.raised → 0 < result.steps }
        ensures fewer { IfSome result.raised (λ _. result.steps < limit) }
        ensures steps { AdvancesTo result.steps result.raised
            (hardware_of self.old.core self.old.bus)
            (hardware_of self.new.core self.new.bus) }
        ensures words { ComesByWords result.steps (hardware_of self.old.core self.old.bus) }
        ensures clear { ComesClear stops.now result.steps
            (hardware_of self.old.core self.old.bus) }
        ensures raised { IfSome result.raised (λ _. ComesClear stops.now (result.steps + 1)
            (hardware_of self.old.core self.old.bus)) }
        ensures rest { self.new ≡ record self.old { core = self.new.core; bus = self.new.bus } }
    {
        run_ahead_until(&mut self.core, &mut self.bus, stops, limit)
    }

    /// A block of so many instructions at most, up to a stop, or to one that raises an exception. No
    /// boundary between their units has anything to do.
    fn run_block_until(&mut self, n: u64, limit: u32, stops: &Stops)
        requires slots { L.SLOTS ≡ 64 }
        requires wired { L.WIRED ≡ 8 }
        requires good { IsGood self.old }
        requires few { n ≤ 1000000000 }
        requires ahead { MayRunAhead limit (held self.old) }
        requires some { 1 ≤ limit }
        requires end { self.old.monitor.time + limit + 1 ≤ n }
        requires before { self.old.monitor.time + limit + 1 + owed_tick self.old.core.slot
            ≤ self.old.monitor.quiet_until }
        requires room { HasRoom 1 self.old.monitor }
        ensures good { IsGood self.new }
        ensures goes { GoesOn n (held self.old) (held self.new) }
        ensures clear { ClearPath stops.now (held self.old) (held self.new) }
    {
        let before = self.slot_tick();
        let went = self.go_until(stops, limit);
        match went.raised {
            Some(_) => {
                self.show_whole_processor();
                let slot = self.is_delayed();
                self.count_raised(went.steps, before, slot);
            }
            None => {
                let slot = self.is_in_slot();
                self.count_block(went.steps, before, slot);
            }
        }
    }

    /// A block of instructions where one may begin, or else a refill or one step.
    fn run_block_until_or_step(&mut self, n: u64, stops: &Stops) -> Result<(), Halt>
        requires slots { L.SLOTS ≡ 64 }
        requires wired { L.WIRED ≡ 8 }
        requires good { IsGood self.old }
        requires working { self.old.failed ≡ false }
        requires few { n ≤ 1000000000 }
        requires going { held_goes_on n (held self.old) ≡ true }
        ensures good { IsGood self.new }
        ensures goes { OnOk result (GoesOn n (held self.old) (held self.new)) }
        ensures clear { OnOk result (ClearPath stops.now (held self.old) (held self.new)) }
        ensures short { OnErr result (has_turn_room self.new.monitor ≡ false) }
        ensures halts { IfErr result (λ halt. Halts halt (held self.old)) }
        ensures marked { OnErr result (held self.new ≡ with_failure (held self.old)) }
    {
        match self.may_run_ahead(n) {
            Some(limit) => {
                self.begin_block()?;
                self.run_block_until(n, limit, stops);
            }
            None => {
                if !self.refill_missed() {
                    self.step()?;
                }
            }
        }
        Ok(())
    }

    /// Runs until the time is n or all processes have ended, or, once something is done, until it
    /// stands between two turns and whoever runs next is at an address that may be among the stops:
    /// it stands so nowhere before, but where it begins. After a failure, which it answers, nothing
    /// changes.
    #[inline(never)]
    pub fn run_until(&mut self, n: u64, stops: &Stops) -> Result<(), Halt>
        requires slots { L.SLOTS ≡ 64 }
        requires wired { L.WIRED ≡ 8 }
        requires good { IsGood self.old }
        requires few { n ≤ 1000000000 }
        ensures good { IsGood self.new }
        ensures ran { OnOk result (HasRun n (held self.old) (held self.new)) }
        ensures clear { OnOk result (ClearPath stops.now (held self.old) (held self.new)) }
        ensures ends { OnOk result ((held_goes_on n (held self.new) ≡ false)
            ⊎ IsAtStop stops.now (held self.new)) }
        ensures working { OnOk result (self.new.failed ≡ false) }
        ensures unit { OnOk result (((self.old.spent ≡ 0) ⊎ (self.old.monitor.time < n))
            → self.new.spent ≡ 0) }
        ensures cut { IfErr result (λ halt. WasCut n halt (held self.old) (held self.new)) }
        ensures short { self.old.failed ≡ false
            → OnErr result (has_turn_room self.new.monitor ≡ false) }
    {
        if self.failed {
            return Err(Halt::Failed);
        }
        while self.goes_on(n) {
            self.run_block_until_or_step(n, stops)?;
            if self.is_at_stop(stops) {
                return Ok(());
            }
        }
        Ok(())
    }
}
