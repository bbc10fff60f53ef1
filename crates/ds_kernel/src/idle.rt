//! Turns in which no process runs, many at once.
ghost use Rattle.std.specs.Prelude.{◌≡◌, ◌+◌, ◌<◌, ◌≤◌, ℕ, true, false, IfSome};
ghost use Rattle.ds_monitor.specs.Inner.Coming.{next_due};
ghost use Rattle.ds_monitor.specs.Inner.Kept.{kept_of};
ghost use Rattle.ds_kernel.specs.Inner.Parts.{held};
ghost use Rattle.ds_kernel.specs.Inner.Good.{IsGood};
ghost use Rattle.ds_kernel.specs.Inner.Going.{GoesOn};
ghost use Rattle.ds_kernel.specs.Inner.Idling.{idled, MayIdle};
ghost use Rattle.ds_refinement.specs.Held.{Held};
ghost use Rattle.ds_refinement.specs.Runs.{held_goes_on};
ghost use Rattle.ds_refinement.specs.Inner.Stands.{IsSound};

use crate::devices::read_clock;
use crate::parts::Parts;
use ds_tlb::Lookaside;

/// So many turns in which nobody runs, each with its boundary, are steps of a run. They leave what
/// is held as it was but for the time: the clock is brought to it, and its flag is read.
pub fn turns_of_nobody_are_one_step()
    ensures { (k n : ℕ) (h : Held) → IsSound h → h.own.spent ≡ 0
        → MayIdle (h.kept.state.time + (k + 1)) h → h.kept.state.time + (k + 1) ≤ n
        → GoesOn n h (idled (h.kept.state.time + (k + 1)) h) }
{}

impl<L: Lookaside> Parts<L> {
    /// The time to which a run for n may go at once where nobody is ready: n, or before the next
    /// command or character comes or a right may end.
    fn idle_until(&self, n: u64) -> Option<u64>
        requires good { IsGood self.now }
        requires few { n ≤ 1000000000 }
        requires going { held_goes_on n (held self.now) ≡ true }
        ensures may { IfSome result (λ end. MayIdle end (held self.now)) }
        ensures soon { IfSome result (λ end. self.now.monitor.time < end) }
        ensures within { IfSome result (λ end. end ≤ n) }
    {
        if self.monitor.owed.is_some() || self.monitor.first_ready().is_some() {
            return None;
        }
        self.monitor.due.show_events_in_order();
        let comes = self.monitor.due.next_time().min(self.monitor.ends);
        let end = n.min(comes.saturating_sub(1));
        if self.monitor.time < end {
            Some(end)
        } else {
            None
        }
    }

    /// Where nobody is ready: the turns up to the next event, or up to n, at once. Whether there were
    /// some. The end of a period puts nobody behind, since nobody ran.
    #[inline(never)]
    pub(crate) fn idle_ahead(&mut self, n: u64) -> bool
        requires good { IsGood self.old }
        requires few { n ≤ 1000000000 }
        requires going { held_goes_on n (held self.old) ≡ true }
        ensures good { IsGood self.new }
        ensures goes { result ≡ true → GoesOn n (held self.old) (held self.new) }
        ensures still { result ≡ false → self.new ≡ self.old }
    {
        match self.idle_until(n) {
            Some(end) => {
                self.rest_until(end);
                true
            }
            None => false,
        }
    }

    /// The clock is brought to a time, and its flag is read.
    fn rest_until(&mut self, end: u64)
        requires good { IsGood self.old }
        requires may { MayIdle end (held self.old) }
        requires soon { self.old.monitor.time < end }
        requires few { end ≤ 1000000000 }
        ensures held { held self.new ≡ idled end (held self.old) }
        ensures next { self.new.monitor.quiet_until ≡ next_due (kept_of self.new.monitor) }
    {
        self.monitor.time = end;
        self.catch_up();
        read_clock(&mut self.bus);
        self.monitor.look_ahead();
    }
}
