//! Many instructions of a process at once, with one bookkeeping for all their units.
ghost use Rattle.std.specs.Prelude.{[], ◌≢◌, ◌≡◌, ◌<◌, ◌≤◌, ◌+◌, ◌-◌, ◌^◌, min, ℕ, None, true, false, IfSome, IfErr, OnOk, OnErr, IsNone, IsSome};
ghost use Rattle.ds_cp0.specs.declared.exception.ExceptionCode.TheVariants as exception;
ghost use Rattle.ds_core.specs.Core.{with_tick, trapped};
ghost use Rattle.ds_core.specs.Effect.{step};
ghost use Rattle.ds_ahead.specs.declared.next.Next.TheVariants.{Call, Plain};
ghost use Rattle.ds_ahead.specs.Inner.Ahead.{hardware_of, after_steps, AdvancesTo, owed_tick};
ghost use Rattle.ds_refinement.specs.Inner.Blocks.{MayRunAhead, counts_beyond};
ghost use Rattle.ds_refinement.specs.Counts.{fresh_counts, one_more};
ghost use Rattle.ds_refinement.specs.Inner.Counts.{IsFresh, with_counts};
ghost use Rattle.ds_refinement.specs.Inner.Services.{with_failure};
ghost use Rattle.ds_monitor.specs.Inner.Room.{HasLogRoom, HasRoom, has_turn_room};
ghost use Rattle.ds_kernel.specs.Inner.Parts.{held, own_of, with_counts_of};
ghost use Rattle.ds_kernel.specs.Inner.Good.{IsGood};
ghost use Rattle.ds_kernel.specs.Inner.Going.{GoesOn};
ghost use Rattle.ds_kernel.specs.Inner.AtOnce.{IsCalled};
ghost use Rattle.ds_kernel.specs.Inner.Halts.{Halts};

use crate::halt::Halt;
use crate::parts::Parts;
use ds_ahead::{Ahead, Next, go_past_ride};
use ds_cp0::ExceptionCode;
use ds_tlb::Lookaside;

/// The tick that a branch leaves to its slot.
#[inline(always)]
fn owed_tick(slot: bool) -> u32
    ensures { result ≡ owed_tick slot }
{
    if slot { 1 } else { 0 }
}

/// Whether the code is that of a call.
#[inline(always)]
fn is_call(code: ExceptionCode) -> bool
    ensures { result ≡ true → code ≡ exception.SystemCall }
{
    match code {
        ExceptionCode::SystemCall => true,
        _ => false,
    }
}

impl<L: Lookaside> Parts<L> {
    /// Whether the processor stands in the slot of a branch.
    #[inline(always)]
    pub(crate) fn is_in_slot(&self) -> bool
        ensures { result ≡ self.now.core.slot }
    {
        self.core.slot
    }

    /// The tick that is left to the slot in which the processor stands, if it does.
    #[inline(always)]
    pub(crate) fn slot_tick(&self) -> u32
        ensures { result ≡ owed_tick self.now.core.slot }
    {
        owed_tick(self.is_in_slot())
    }

    /// The most instructions that may run ahead in a run for n, if any may: the process is in user
    /// mode, each unit begins before n, and no boundary after one has anything to do. A slot leaves a
    /// tick less, since its unit takes two.
    #[inline(always)]
    pub(crate) fn may_run_ahead(&self, n: u64) -> Option<u32>
        requires good { IsGood self.now }
        requires few { n ≤ 1000000000 }
        ensures ahead { IfSome result (λ limit. MayRunAhead limit (held self.now)) }
        ensures some { IfSome result (λ limit. 1 ≤ limit) }
        ensures end { IfSome result (λ limit. self.now.monitor.time + limit + 1
            ≡ min n (self.now.monitor.quiet_until - owed_tick self.now.core.slot)) }
        ensures any { self.now.monitor.time + 1 < n
            → self.now.monitor.time + 2 < self.now.monitor.ends
            → MayRunAhead 2 (held self.now) → IsSome result }
    {
        if !self.is_user() {
            return None;
        }
        if self.monitor.time >= n || self.monitor.owed.is_some() {
            return None;
        }
        self.monitor.due.show_events_in_order();
        let before = self.slot_tick();
        let last = self.monitor.quiet_until.saturating_sub(u64::from(before));
        let end = n.min(last);
        if end <= self.monitor.time + 1 {
            return None;
        }
        if self.monitor.first_ready().is_some() {
            Some((end - self.monitor.time - 1) as u32)
        } else {
            None
        }
    }

    /// Where a unit begins there is room for it, or it is made.
    #[inline(always)]
    #[tactic(auto, using(crate::proofs::Running::ready_not_over))]
    pub(crate) fn begin_block(&mut self) -> Result<(), Halt>
        requires good { IsGood self.old }
        requires working { self.old.failed ≡ false }
        requires unowed { self.old.monitor.owed ≡ None }
        requires ready { self.old.monitor.ready ≢ [] }
        ensures good { IsGood self.new }
        ensures room { OnOk result (HasRoom 1 self.new.monitor) }
        ensures short { OnErr result (has_turn_room self.new.monitor ≡ false) }
        ensures until { self.new.monitor.quiet_until ≡ self.old.monitor.quiet_until }
        ensures still { OnOk result (held self.new ≡ held self.old) }
        ensures halts { IfErr result (λ halt. Halts halt (held self.old)) }
        ensures marked { OnErr result (held self.new ≡ with_failure (held self.old)) }
    {
        if self.spent == 0 && !self.make_unit_room() {
            self.failed = true;
            return Err(Halt::Memory);
        }
        Ok(())
    }

    /// So many ticks are over.
    #[inline(always)]
    pub(crate) fn pass(&mut self, ticks: u32)
        requires early { self.old.monitor.time ≤ 1000000000 }
        ensures { self.new ≡ record self.old {
          monitor = record self.old.monitor { time = self.old.monitor.time + ticks };
        } }
    {
        self.monitor.time += u64::from(ticks);
    }

    /// A unit has begun anew, and its branch is done if the next instruction stands in its slot.
    #[inline(always)]
    fn count_anew(&mut self, slot: bool)
        ensures own { own_of self.new ≡ with_counts (own_of self.old)
            (record (fresh_counts (own_of self.old).wired) { spent = owed_tick slot }) }
        ensures rest { self.new ≡ with_counts_of self.new self.old }
    {
        self.count_none();
        self.spent = owed_tick(slot);
    }

    /// So many ticks are over, after so many were left to a slot, and the next instruction stands in
    /// a slot or not: where none is over, a branch was done, or nothing.
    // It stands apart, since most blocks begin where a unit does.
    #[cold]
    #[inline(never)]
    fn count_steps(&mut self, ticks: u32, before: u32, slot: bool)
        requires spent { self.old.spent ≤ 64 }
        requires since { self.old.since < 56 }
        ensures own { own_of self.new ≡ with_counts (own_of self.old)
            (counts_beyond (ticks + owed_tick slot - before) ticks slot (own_of self.old)) }
        ensures rest { self.new ≡ with_counts_of self.new self.old }
    {
        if ticks > 0 {
            self.count_anew(slot);
        } else if owed_tick(slot) > before {
            self.count_one();
        }
    }

    /// So many steps were taken, the first after so many ticks were left to a slot, and the next stands
    /// in a slot or not: their ticks are over, and what is counted of the unit is as they leave it.
    /// Where the block began with its unit, nothing else is counted than that.
    #[inline(always)]
    pub(crate) fn count_block(&mut self, steps: u32, before: u32, slot: bool)
        requires fresh { self.old.spent ≡ before → IsFresh (own_of self.old) }
        requires early { self.old.monitor.time ≤ 1000000000 }
        requires fits { steps + before < 2 ^ 32 }
        requires some { owed_tick slot ≤ steps + before }
        requires spent { self.old.spent ≤ 64 }
        requires since { self.old.since < 56 }
        ensures own { own_of self.new ≡ with_counts (own_of self.old)
            (counts_beyond steps (steps + before - owed_tick slot) slot (own_of self.old)) }
        ensures rest { self.new ≡ record (with_counts_of self.new self.old) {
          monitor = record self.old.monitor {
            time = self.old.monitor.time + (steps + before - owed_tick slot);
          };
        } }
    {
        let ticks = steps + before - owed_tick(slot);
        self.pass(ticks);
        if self.spent == before {
            self.spent = owed_tick(slot);
        } else {
            self.count_steps(ticks, before, slot);
        }
    }

    /// The same, with one instruction more, which raised an exception: it stood in a slot or not.
    #[inline(always)]
    pub(crate) fn count_raised(&mut self, steps: u32, before: u32, slot: bool)
        requires fresh { self.old.spent ≡ before → IsFresh (own_of self.old) }
        requires early { self.old.monitor.time ≤ 1000000000 }
        requires fits { steps + before < 2 ^ 32 }
        requires some { owed_tick slot ≤ steps + before }
        requires spent { self.old.spent ≤ 61 }
        requires since { self.old.since < 56 }
        ensures own { own_of self.new ≡ with_counts (own_of self.old)
            (one_more (counts_beyond steps (steps + before - owed_tick slot) slot (own_of self.old))) }
        ensures rest { self.new ≡ record (with_counts_of self.new self.old) {
          monitor = record self.old.monitor {
            time = self.old.monitor.time + (steps + before - owed_tick slot);
          };
        } }
    {
        let ticks = steps + before - owed_tick(slot);
        self.pass(ticks);
        if self.spent == before {
            self.spent = owed_tick(slot) + 1;
        } else {
            self.count_steps(ticks, before, slot);
            self.count_one();
        }
    }

    /// Takes what comes where a ride ended, or where none was: a plain step at least where none made
    /// way, and `left` at most.
    #[inline(always)]
    fn go_past_ride(&mut self, next: Next, went: bool, left: u32) -> Ahead
        requires slots { L.SLOTS ≡ 64 }
        requires wired { L.WIRED ≡ 8 }
        requires some { next ≡ Call → 0 < left }
        requires plain { next ≡ Plain → 0 < left }
        requires stands { went ≡ false → 0 < left }
        requires calls { next ≡ Call → with_tick (trapped self.old.core self.old.bus exception.SystemCall)
            ≡ step self.old.core self.old.bus }
        ensures within { result.steps ≤ left }
        ensures on { went ≡ false → IsNone result.raised → 0 < result.steps }
        ensures fewer { IfSome result.raised (λ _. result.steps < left) }
        ensures steps { AdvancesTo result.steps result.raised
            (hardware_of self.old.core self.old.bus)
            (hardware_of self.new.core self.new.bus) }
        ensures words { (k : ℕ) → k < result.steps
            → (after_steps k (hardware_of self.old.core self.old.bus)).core.pc < 2 ^ 32 }
        ensures raised { IfSome result.raised (λ _. (after_steps result.steps
            (hardware_of self.old.core self.old.bus)).core.pc < 2 ^ 32) }
        ensures rest { self.new ≡ record self.old { core = self.new.core; bus = self.new.bus } }
    {
        go_past_ride(&mut self.core, &mut self.bus, next, went, left)
    }

    /// Takes so many instructions, or fewer and then one that raises an exception, or fewer and
    /// then a call that is answered, where the block ends with it. No boundary between their units has
    /// anything to do. Whether the last was a call that waits.
    #[inline(always)]
    pub(crate) fn run_block(&mut self, n: u64, end: u64, limit: u32) -> bool
        requires slots { L.SLOTS ≡ 64 }
        requires wired { L.WIRED ≡ 8 }
        requires good { IsGood self.old }
        requires working { self.old.failed ≡ false }
        requires ahead { MayRunAhead limit (held self.old) }
        requires some { 1 ≤ limit }
        requires few { n ≤ 1000000000 }
        requires end { self.old.monitor.time + limit + 1 ≡ end }
        requires within { end ≤ n }
        requires before { end + owed_tick self.old.core.slot ≤ self.old.monitor.quiet_until }
        requires room { HasRoom 1 self.old.monitor }
        ensures good { IsGood self.new }
        ensures goes { GoesOn n (held self.old) (held self.new) }
        ensures called { result ≡ true → IsCalled self.new.core }
        ensures early { result ≡ true → self.new.monitor.time + 1 < self.new.monitor.quiet_until }
        ensures quiet { end ≤ self.new.monitor.quiet_until }
        ensures log { HasLogRoom 1 self.new.monitor }
    {
        let mut before = self.slot_tick();
        let end = end + u64::from(before);
        let mut mark = limit + before;
        let mut left = limit;
        while left > 0 {
            let all = left;
            let Some(next) = self.ride(n, end, &mut left, &mut mark, &mut before) else {
                return false;
            };
            let went = self.go_past_ride(next, left < all, left);
            left -= went.steps;
            if let Some(code) = went.raised {
                self.show_whole_processor();
                let slot = self.is_delayed();
                self.count_raised(mark - before - left, before, slot);
                return is_call(code);
            }
        }
        self.show_pc_has_32_bits();
        let slot = self.is_in_slot();
        self.count_block(mark - before, before, slot);
        false
    }
}
