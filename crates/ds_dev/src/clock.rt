//! The clock, which asks for an interrupt once in a period of its rate.
//!
//! | Address | Register | Bits |
//! |---|---|---|
//! | 1FE80028 | rate | 3 to 0; a rate r from 3 up has a period of 2^(r + 2) ticks, a lower one none |
//! | 1FE8002C | enable | 6 |
//! | 1FE80030 | flags | 7 an interrupt is asked for, 6 a period has ended; reading clears them, a write does nothing |
//! | 1FE80000 to 1FE800FC, else | | reads 0, a write does nothing |
ghost use Rattle.std.specs.Prelude.{◌≡◌, ◌+◌, ◌/◌, ◌^◌, ◌&&◌, ◌<◌, ◌≤◌, nat_le, nat_lt, if◌then◌else◌};
ghost use Rattle.ds_word.specs.Word.{bit};
ghost use Rattle.ds_dev.specs.Bus.{is_clock};
ghost use Rattle.ds_dev.specs.Clock.{clock_at_start, clock_after, clock_requests, read_flags, with_rate, with_enable};

use ds_word::bit;
use std::marker::Model;

/// The address of the clock's first register.
const FIRST: u32 = 0x1fe8_0000;

/// The address after its last register.
const END: u32 = 0x1fe8_0100;

/// The rate's address.
pub(crate) const RATE: u32 = 0x1fe8_0028;

/// The enable's address.
pub(crate) const ENABLE: u32 = 0x1fe8_002c;

/// The flags' address.
pub(crate) const FLAGS: u32 = 0x1fe8_0030;

/// The clock. Its time is kept modulo 2^17 ticks, a period of every rate.
#[derive(Clone, Debug, Drop)]
pub(crate) struct Clock {
    rate: u8,
    enabled: bool,
    flagged: bool,
    time: u32,
}

impl Model for Clock {
    ghost use Rattle.std.specs.Prelude.{◌<◌, ◌^◌};
    ghost use Rattle.ds_dev.specs.Clock.{ClockState};

    ghost Value = { ClockState };

    ghost view = { λ c. record {
      rate = c.rate;
      enabled = c.enabled;
      flagged = c.flagged;
      time = c.time;
    } };

    ghost invariant = { λ c. (c.rate < 16) × (c.time < 2 ^ 17) };
}

impl Clock {
    /// All registers, the flag and the time zero.
    pub(crate) fn new() -> Clock
        ensures { result ≡ clock_at_start }
    {
        Clock {
            rate: 0,
            enabled: false,
            flagged: false,
            time: 0,
        }
    }

    /// Whether it asks for an interrupt.
    #[inline(always)]
    pub(crate) fn request(&self) -> bool
        ensures { result ≡ clock_requests self.now }
    {
        self.flagged && self.enabled
    }

    /// Lets so many ticks pass.
    #[inline(always)]
    pub(crate) fn pass(&mut self, ticks: u64)
        requires { ticks < 2 ^ 63 }
        ensures { self.new ≡ clock_after self.old ticks }
    {
        let before = u64::from(self.time);
        let time = before + ticks;
        if rings(self.rate, before, time) {
            self.flagged = true;
        }
        self.time = (time % 0x2_0000) as u32;
    }

    /// The rate, 0 to 15.
    pub(crate) fn rate(&self) -> u32
        ensures { result ≡ self.now.rate }
    {
        u32::from(self.rate)
    }

    /// What the register of the enable reads.
    pub(crate) fn enable(&self) -> u32
        ensures { result ≡ bit 6 self.now.enabled }
    {
        bit(6, self.enabled)
    }

    /// What the flags read, which clears them.
    pub(crate) fn read_flags(&mut self) -> u32
        ensures value { result ≡ (read_flags self.old).0 }
        ensures state { self.new ≡ (read_flags self.old).1 }
    {
        let flags = bit(7, self.flagged && self.enabled) + bit(6, self.flagged);
        self.flagged = false;
        flags
    }

    /// Writes the rate.
    pub(crate) fn set_rate(&mut self, v: u32)
        ensures { self.new ≡ with_rate self.old v }
    {
        self.rate = (v % 16) as u8;
    }

    /// Writes the enable.
    pub(crate) fn set_enable(&mut self, v: u32)
        ensures { self.new ≡ with_enable self.old v }
    {
        self.enabled = (v >> 6) & 1 == 1;
    }
}

/// Whether a period of the rate ends between the one time and the other.
#[inline(always)]
fn rings(rate: u8, before: u64, after: u64) -> bool
    requires rate { rate < 16 }
    ensures { result
        ≡ (nat_le 3 rate && nat_lt (before / 2 ^ (rate + 2)) (after / 2 ^ (rate + 2))) }
{
    rate >= 3 && before >> (rate + 2) < after >> (rate + 2)
}

/// Whether a place is that of one of the clock's registers.
pub(crate) fn is_register(physical: u32) -> bool
    ensures { result ≡ is_clock physical }
{
    FIRST <= physical && physical < END && physical % 4 == 0
}
