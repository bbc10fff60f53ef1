//! Where a stretch stands: what each step changes is kept beside the processor, and put back after the last.
ghost use Rattle.std.specs.Prelude.{◌≡◌, false};
ghost use Rattle.ds_ahead.specs.Inner.Placed.{placed, at_next, at_slot, IsFree};

use crate::operations::Outcome;
use ds_core::Core;
use ds_isa::Late;
use ds_pages::Operation;
use ds_tlb::Lookaside;
use ds_word::wrapping_sum;
use std::marker::Model;

/// Where a stretch stands; a contract sees it as a `Place`. While the stretch goes on, the
/// processor's own fields of these names are those of its beginning.
#[derive(Drop)]
pub(crate) struct Position {
    pub pc: u32,
    pub next: u32,
    pub slot: bool,
    /// The register whose load is late, from 1 to 31.
    pub late: Option<Late>,
}

impl Model for Position {
    ghost use Rattle.std.specs.Prelude.{◌<◌};
    ghost use Rattle.std.specs.Option.{ForSome};
    ghost use Rattle.ds_ahead.specs.Inner.Placed.{Place};

    ghost Value = { Place };

    ghost view = { λ at. record { pc = at.pc; next = at.next; slot = at.slot; late = at.late } };

    ghost invariant = { λ at. ForSome at.late (λ l. (0 < l.register) × (l.register < 32)) };
}

impl Position {
    /// Goes on after the operation, which is done.
    #[inline(always)]
    pub(crate) fn go_to_next(&mut self) -> Outcome
        ensures done { result ≡ Outcome.Done }
        ensures at { self.new ≡ at_next self.old }
    {
        self.pc = self.next;
        self.next = wrapping_sum(self.next, 4);
        self.slot = false;
        self.late = None;
        Outcome::Done
    }

    /// On into the slot, and after it at the target.
    #[inline(always)]
    pub(crate) fn into_slot(&mut self, target: u32) -> Outcome
        ensures branched { result ≡ Outcome.Branched }
        ensures at { self.new ≡ at_slot self.old target }
    {
        self.pc = self.next;
        self.next = target;
        self.slot = true;
        self.late = None;
        Outcome::Branched
    }

    /// Whether an operation reads the register whose load is late.
    #[inline(always)]
    pub(crate) fn is_awaited(&self, operation: &Operation) -> bool
        ensures first { result ≡ false → IsFree self.now.late operation.now.first.number }
        ensures second { result ≡ false → IsFree self.now.late operation.now.second.number }
    {
        match self.late {
            Some(late) => {
                late.register == operation.first.number()
                    || late.register == operation.second.number()
            }
            None => false,
        }
    }
}

/// Where the processor stands.
#[inline(always)]
pub(crate) fn position_of<L: Lookaside>(core: &Core<L>) -> Position
    ensures { placed 0 core.now result ≡ core.now }
{
    Position {
        pc: core.pc,
        next: core.next,
        slot: core.slot,
        late: core.late,
    }
}

/// The processor stands where the stretch came to, so many steps after its beginning.
#[inline(always)]
pub(crate) fn settle<L: Lookaside>(core: &mut Core<L>, at: &Position, steps: u32)
    requires slots { L.SLOTS ≡ 64 }
    requires wired { L.WIRED ≡ 8 }
    ensures { core.new ≡ placed steps core.old at.now }
{
    core.pc = at.pc;
    core.next = at.next;
    core.slot = at.slot;
    core.late = at.late;
    core.tlb.pass(steps);
}
