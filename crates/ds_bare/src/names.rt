//! Names of registers and exceptions.
ghost use Rattle.std.specs.Prelude.{◌≡◌, ◌<◌, ◌++◌, OnOk};
ghost use Rattle.std.specs.String.{string_bytes};
ghost use Rattle.ds_bare.specs.Steps.{code_name, code_text, name_of};

use ds_listing::{RegisterNames, push_register};
use ds_text::string::push_decimal;
use std::alloc::AllocError;

/// Adds the name of a register: 0 to 31 are the general ones, by their numbers or their common names,
/// then HI, LO and the coprocessor's.
#[tactic(auto, unfolding(crate::specs::Steps::name_of))]
pub(crate) fn push_name(
    text: &mut String,
    number: u32,
    names: RegisterNames,
) -> Result<(), AllocError>
    requires { number < 256 }
    ensures { OnOk result
        (string_bytes text.new ≡ string_bytes text.old ++ name_of names number) }
{
    match number {
        32 => text.push_str("HI"),
        33 => text.push_str("LO"),
        34 => text.push_str("Index"),
        35 => text.push_str("EntryLo"),
        36 => text.push_str("Context"),
        37 => text.push_str("BadVAddr"),
        38 => text.push_str("EntryHi"),
        39 => text.push_str("Status"),
        40 => text.push_str("Cause"),
        41 => text.push_str("EPC"),
        _ => push_register(text, number as u8, names),
    }
}

/// The name of an exception, by the number that Cause shows.
fn code_name(number: u32) -> &'static str
    ensures { result.now ≡ code_name number }
{
    match number {
        0 => "Int",
        1 => "Mod",
        2 => "TLBL",
        3 => "TLBS",
        4 => "AdEL",
        5 => "AdES",
        6 => "IBE",
        7 => "DBE",
        8 => "Sys",
        9 => "Bp",
        10 => "RI",
        11 => "CpU",
        12 => "Ov",
        _ => "reserved",
    }
}

/// Adds an exception's code and its name.
#[tactic(auto, unfolding(crate::specs::Steps::code_text))]
pub(crate) fn push_code(text: &mut String, code: u32) -> Result<(), AllocError>
    ensures { OnOk result (string_bytes text.new ≡ string_bytes text.old ++ code_text code) }
{
    push_decimal(text, u64::from(code))?;
    text.push_str(" ")?;
    text.push_str(code_name(code))
}
