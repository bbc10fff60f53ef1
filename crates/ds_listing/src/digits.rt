//! Numbers with a sign, as a source writes them.
ghost use Rattle.std.specs.Prelude.{◌≡◌, ◌+◌, ◌%◌, ◌<◌, ◌++◌, ◌∷◌, [], OnOk, decimal};
ghost use Rattle.std.specs.String.{string_bytes};
ghost use Rattle.ds_listing.specs.Texts.{signed_text, distance_text};

use ds_text::string::push_decimal;
use std::alloc::AllocError;

/// Adds a half that is a number in two's complement.
pub(crate) fn push_signed(text: &mut String, half: u16) -> Result<(), AllocError>
    ensures { OnOk result (string_bytes text.new ≡ string_bytes text.old ++ signed_text half) }
{
    let half = u64::from(half);
    if half < 0x8000 {
        push_decimal(text, half)
    } else {
        text.push('-')?;
        push_decimal(text, 0x1_0000 - half)
    }
}

/// Adds how many bytes lie between a branch and its target, of which the word has the number of
/// words from the branch's slot.
pub(crate) fn push_distance(text: &mut String, half: u16) -> Result<(), AllocError>
    ensures { OnOk result
        (string_bytes text.new ≡ string_bytes text.old ++ distance_text ((half + 1) % 65536)) }
{
    let words = (u64::from(half) + 1) % 0x1_0000;
    if words <= 0x8000 {
        text.push_str(".+")?;
        push_decimal(text, 4 * words)
    } else {
        text.push_str(".-")?;
        push_decimal(text, 4 * (0x1_0000 - words))
    }
}
