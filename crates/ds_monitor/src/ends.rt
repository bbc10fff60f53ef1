//! Rights that end by themselves.
ghost use Rattle.std.specs.Prelude.{◌≡◌, ◌<◌, ℕ};
ghost use Rattle.ds_policy.specs.Pages.{Table};
ghost use Rattle.ds_policy.specs.Ends.{is_reached, has_some_expired, NoneEndsBefore};
ghost use Rattle.ds_grants.specs.Inner.Represented.{IsLow, Keeps};
ghost use Rattle.ds_refinement.specs.Pairs.{HasNoNewPairs};
ghost use Rattle.ds_refinement.specs.Inner.Services.{Serves};
ghost use Rattle.ds_monitor.specs.Inner.Kept.{kept_of};
ghost use Rattle.ds_monitor.specs.Inner.Commands.{with_ends};
ghost use Rattle.ds_monitor.specs.Inner.Orderly.{IsOrderly};

use crate::due::NEVER;
use crate::monitor::Monitor;
use ds_dev::Bus;
use ds_tlb::Lookaside;

/// The time of an end, or never where there is none.
pub(crate) fn end_or_never(end: Option<u32>) -> u64
    ensures { (table : Table) → ((now : ℕ) → has_some_expired now table ≡ is_reached now end)
        → NoneEndsBefore result table }
{
    match end {
        Some(end) => u64::from(end),
        None => NEVER,
    }
}

impl Monitor {
    /// The rights that have ended by now end. Where none has, it costs nothing: a time before which none
    /// ends is kept, and the bus lends no memory.
    pub fn expire<L: Lookaside>(&mut self, bus: &mut Bus, tlb: &mut L)
        requires orderly { IsOrderly (kept_of self.old) }
        ensures serves { Serves (with_ends self.old.time)
            (kept_of self.old) bus.old.memory (kept_of self.new) bus.new.memory }
        ensures orderly { IsOrderly (kept_of self.new) }
        ensures named { self.new.grants.named ≡ self.old.grants.named }
        ensures low { IsLow bus.old.memory bus.new.memory }
        ensures keeps { Keeps
            (L.entries tlb.old) bus.old.memory self.old.tables self.old.spaces self.old.grants
            (L.entries tlb.new) bus.new.memory self.new.tables self.new.spaces self.new.grants }
        ensures pairs { HasNoNewPairs (L.entries tlb.old) (L.entries tlb.new) }
        ensures random { L.random_place tlb.new ≡ L.random_place tlb.old }
        ensures bus { bus.new ≡ record bus.old { memory = bus.new.memory } }
        ensures rest { self.new ≡ record self.old {
          grants = self.new.grants;
          tables = self.new.tables;
          ends = self.new.ends;
        } }
    {
        if self.ends <= self.time {
            self.grants.expire(self.time, bus.memory(), &mut self.tables, &self.spaces, tlb);
            self.ends = end_or_never(self.grants.table().next_end());
        }
    }
}
