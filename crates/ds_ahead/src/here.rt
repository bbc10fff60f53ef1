//! Where a run stands in its page, and how it goes on.
ghost use Rattle.std.specs.Prelude.{◌≡◌, ◌≢◌, ◌+◌, ◌≤◌, ◌<◌, ◌^◌, true, false, IfSome};
ghost use Rattle.ds_ahead.specs.Inner.Run.{place_in, position_here, StandsIn};

use crate::position::Position;
use ds_isa::Late;

/// A place that no page has.
pub(crate) const NOWHERE: usize = 2000;

/// A load that is late nowhere.
const NO_LOAD: Late = Late {
    register: 1,
    old: 0,
};

/// Where a run stands.
#[derive(Clone, Copy)]
pub(crate) struct Here {
    /// The place of the next operation, or the one after the last.
    pub place: usize,
    /// The place of the operation before which the last load was late.
    pub late_at: usize,
    /// That load.
    pub late: Late,
}

/// How a run goes on.
#[derive(Clone, Copy)]
pub(crate) enum Way {
    /// With the block where it stands.
    On,
    /// Not here: the block does not fit into what is left.
    Out,
    /// Not here: what comes next is left.
    Leaves,
    /// With a system call, which comes next.
    Calls,
    /// Not in this page, or not in this slot.
    Away,
}

impl Way {
    /// Whether the run goes on.
    #[inline(always)]
    pub(crate) fn is_on(self) -> bool
        ensures on { result ≡ true → self ≡ Way.On }
        ensures off { result ≡ false → self ≢ Way.On }
    {
        matches!(self, Way::On)
    }
}

/// The position at a place of the page that begins at `first`, where no load is late.
#[inline(always)]
pub(crate) fn place(first: u32, i: usize) -> Position
    requires low { first < 2 ^ 31 }
    requires inside { i ≤ 1024 }
    ensures { result ≡ place_in first i }
{
    let pc = first + 4 * i as u32;
    Position {
        pc,
        next: pc + 4,
        slot: false,
        late: None,
    }
}

/// The load that is late, if one is.
#[inline(always)]
fn late_load(at: &Position) -> Late
    ensures late { IfSome at.now.late (λ late. result ≡ late) }
    ensures some { 0 < result.register }
    ensures few { result.register < 32 }
{
    match at.late {
        Some(late) => late,
        None => NO_LOAD,
    }
}

impl Here {
    /// At a place where no load is late.
    #[inline(always)]
    pub(crate) fn at(place: usize) -> Here
        ensures { result ≡ record {
          place = place;
          late_at = 2000;
          late = record { register = 1; old = 0 };
        } }
    {
        Here {
            place,
            late_at: NOWHERE,
            late: NO_LOAD,
        }
    }

    /// On to a place, where no load is late.
    #[inline(always)]
    pub(crate) fn go_to(&mut self, place: usize)
        ensures { self.new ≡ record self.old { place = place; late_at = 2000 } }
    {
        self.place = place;
        self.late_at = NOWHERE;
    }

    /// On to the next place.
    #[inline(always)]
    pub(crate) fn go_to_next(&mut self)
        requires { self.old.place < 1024 }
        ensures { self.new ≡ record self.old { place = self.old.place + 1 } }
    {
        self.place += 1;
    }

    /// On to a place after the load that is late at `at`.
    #[inline(always)]
    pub(crate) fn go_after_load(&mut self, place: usize, at: &Position)
        ensures place { self.new.place ≡ place }
        ensures at { self.new.late_at ≡ place }
        ensures late { IfSome at.now.late (λ late. self.new.late ≡ late) }
        ensures some { 0 < self.new.late.register }
        ensures few { self.new.late.register < 32 }
    {
        self.place = place;
        self.late_at = place;
        self.late = late_load(at);
    }

    /// The position where the run stands.
    #[inline(always)]
    pub(crate) fn position(&self, first: u32) -> Position
        requires low { first < 2 ^ 31 }
        requires stands { StandsIn self.now }
        ensures { result ≡ position_here first self.now }
    {
        let mut at = place(first, self.place);
        if self.late_at == self.place {
            at.late = Some(self.late);
        }
        at
    }
}
