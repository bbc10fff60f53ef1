//! Turns.
ghost use Rattle.std.specs.Prelude.{◌≡◌, ◌≤◌};
ghost use Rattle.ds_pagemap.specs.Boundary.{has_passed};

/// What a boundary that is owed needs to know of the turn before it: when it began, in ticks, and
/// which process ran its unit.
#[derive(Clone, Copy, Debug, PartialEq, Eq)]
pub struct Turn {
    pub began: u64,
    pub runner: Option<u32>,
}

impl Turn {
    /// Whether the time passed or reached a multiple of the rate's period, 2^(rate + 2) ticks,
    /// since the turn began. Rate 0 has no period.
    pub fn ends_a_period(&self, rate: u32, now: u64) -> bool
        requires { rate ≤ 15 }
        ensures { result ≡ has_passed rate self.now.began now }
    {
        let period = 1u64 << (rate + 2);
        rate != 0 && self.began / period < now / period
    }
}
