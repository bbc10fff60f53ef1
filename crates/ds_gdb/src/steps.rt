//! How far an action goes.
ghost use Rattle.std.specs.Prelude.{◌≡◌};
ghost use Rattle.ds_gdb.specs.Steps.{is_done, is_within};

use ds_packets::Action;
use ds_word::wrapping_difference;

/// Whether an address lies from the first on, and before the second, in 32 bits.
fn is_within(from: u32, to: u32, address: u32) -> bool
    ensures { result ≡ is_within from to address }
{
    wrapping_difference(address, from) < wrapping_difference(to, from)
}

/// Whether who was to go so far has done so, after a step to this address.
pub fn is_done(action: Action, address: u32) -> bool
    ensures { result ≡ is_done action address }
{
    match action {
        Action::Continue => false,
        Action::Step => true,
        Action::Range { from, to } => !is_within(from, to, address),
    }
}
