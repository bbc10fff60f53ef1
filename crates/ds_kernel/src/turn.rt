//! One instruction of the process that runs, or one word of the refill handler in its unit.
ghost use Rattle.std.specs.Prelude.{◌≡◌, ◌<◌, ◌≤◌, length, true};
ghost use Rattle.ds_core.specs.Core as core;
ghost use Rattle.ds_core.specs.Effect.{step};
ghost use Rattle.ds_refinement.specs.Inner.Services.{after_event, after_word, step_of, with_turn, with_none_spent};
ghost use Rattle.ds_refinement.specs.Handling.{touches};
ghost use Rattle.ds_monitor.specs.Inner.Kept.{kept_of, kept_after};
ghost use Rattle.ds_kernel.specs.Inner.Parts.{held, own_of, with_counts_of};

use crate::parts::Parts;
use ds_core::Event;
use ds_refinement::Step;
use ds_tlb::Lookaside;

/// Where the handler's seventh word stands, which writes the buffer.
const WRITE_ADDRESS: u32 = 0x80000018;

impl<L: Lookaside> Parts<L> {
    /// One instruction of the process that runs, or the exception that it raises, which counts. Where
    /// it is done its turn ends, after one tick, or two in the slot of a branch.
    #[inline(always)]
    pub fn execute(&mut self) -> Step
        requires slots { L.SLOTS ≡ 64 }
        requires wired { L.WIRED ≡ 8 }
        requires early { self.old.monitor.time < 1000000000 }
        requires spent { self.old.spent ≤ 64 }
        requires since { self.old.since < 56 }
        ensures held { (s : core.Step) → s ≡ step self.old.core self.old.bus
            → (held self.new ≡ after_event s.event (held self.old) s)
            × (result ≡ step_of s.event) }
        ensures rest { self.new ≡ record (with_counts_of self.new self.old) {
          core = self.new.core;
          bus = self.new.bus;
          monitor = record self.old.monitor {
            time = self.new.monitor.time;
            owed = self.new.monitor.owed;
          };
        } }
    {
        let ticks = if self.core.slot { 2 } else { 1 };
        match self.core.step(&mut self.bus) {
            Event::Retired => {
                self.monitor.end_first_turn(ticks);
                self.count_none();
                Step::Unit
            }
            Event::Branched | Event::Raised(_) => {
                self.count_one();
                Step::Inside
            }
        }
    }

    /// One word of the refill handler, or the exception that it raises, which counts. It ends no unit.
    #[inline(always)]
    pub fn word(&mut self) -> Step
        requires slots { L.SLOTS ≡ 64 }
        requires wired { L.WIRED ≡ 8 }
        requires spent { self.old.spent ≤ 64 }
        requires since { self.old.since < 56 }
        requires few { touches self.old.core ≡ true → length (own_of self.old).written ≤ 3 }
        ensures held { held self.new
            ≡ after_word (held self.old) (step self.old.core self.old.bus) }
        ensures inside { result ≡ Step.Inside }
        ensures rest { self.new ≡ record (with_counts_of self.new self.old) {
          core = self.new.core;
          bus = self.new.bus;
        } }
    {
        if self.core.pc == WRITE_ADDRESS {
            let slot = self.core.tlb.random();
            self.count_written(slot);
        } else {
            self.count_one();
        }
        self.core.step(&mut self.bus);
        Step::Inside
    }
}
