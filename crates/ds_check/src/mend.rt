//! How a refusal is mended.
ghost use Rattle.std.specs.Prelude.{◌≡◌, option_map};
ghost use Rattle.ds_check.specs.Mending.{mended};

use crate::refusals::{
    BAD_RANDOM, BAD_RULE, BAD_TOML, DOUBLE_LABEL, INPUT_FAULT, LIMIT, MEMORY, NO_SOURCE, RANGE,
    SYNTAX, TOO_LONG, UNKNOWN_LABEL, UNREADABLE,
};

/// What was found where a refusal of this number is told, and how it is mended, if it is one that a
/// policy, a source, an input or the words of a run can meet.
pub fn mend_text(number: u32) -> Option<&'static str>
    ensures { option_map (λ s. s.now) result ≡ mended number }
{
    match number {
        1 => Some(BAD_RANDOM),
        3 => Some(SYNTAX),
        4 => Some(UNKNOWN_LABEL),
        5 => Some(DOUBLE_LABEL),
        6 => Some(RANGE),
        7 => Some(TOO_LONG),
        8 => Some(BAD_TOML),
        9 => Some(BAD_RULE),
        10 => Some(LIMIT),
        20 => Some(INPUT_FAULT),
        24 => Some(NO_SOURCE),
        25 => Some(MEMORY),
        26 => Some(UNREADABLE),
        _ => None,
    }
}
