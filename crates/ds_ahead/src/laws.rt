//! Laws of many steps. Each is the contract of a function that does nothing.
ghost use Rattle.std.specs.Prelude.{◌≡◌, ◌+◌, ℕ};
ghost use Rattle.ds_ahead.specs.Inner.Ahead.{Hardware, Advances, ticks, owed_tick};

/// So many calm steps, and so many more, are calm steps.
pub fn advances_join()
    ensures { (a b : ℕ) (x y z : Hardware)
        → Advances a x y → Advances b y z → Advances (a + b) x z }
{}

/// So many calm steps take so many ticks: one more if they begin in a slot, one less if they end in
/// front of one.
#[tactic(auto, using(crate::proofs::Slots::ticks_of_advance))]
pub fn a_step_is_a_tick()
    ensures { (n : ℕ) (old new : Hardware) → Advances n old new
        → ticks n old + owed_tick new.core.slot ≡ n + owed_tick old.core.slot }
{}
