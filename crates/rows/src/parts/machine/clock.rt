//! The clock over many ticks.
ghost use Rattle.std.specs.Prelude.{◌≤◌};

use crate::parts::told::Answer;
use ds_dev::Bus;
use ds_isa::Size;

/// The clock's flags, which a load clears.
const FLAGS: u32 = 0x1fe8_0030;

/// What they are when the clock has rung.
const RUNG: u32 = 0x40;

/// Whether the clock rings exactly after each turn that ends a period, or else the first turn after which it does
/// not, while so many ticks pass in each turn.
pub fn rings(bus: &mut Bus, ticks: u32, turns: u32, period: u32) -> Option<Answer>
    requires { (1 ≤ ticks) × (ticks ≤ 2) }
{
    if period == 0 {
        return None;
    }
    for turn in 1..turns {
        bus.tick(ticks);
        let is_end = ticks.wrapping_mul(turn) % period == 0;
        let wanted = if is_end { RUNG } else { 0 };
        if bus.load(FLAGS, Size::Word) != Ok(wanted) {
            return Some(Answer::hex(turn));
        }
    }
    Some(Answer::said("always"))
}
