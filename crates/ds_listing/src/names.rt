//! How registers are called.
ghost use Rattle.std.specs.Prelude.{◌≡◌, ◌++◌, OnOk};
ghost use Rattle.std.specs.String.{string_bytes};
ghost use Rattle.ds_listing.specs.NamedTexts.{register_as};

use ds_text::register_name;
use ds_text::string::push_decimal;
use std::alloc::AllocError;

/// How registers are called in the text of an instruction.
#[derive(Clone, Copy, Debug, PartialEq, Eq)]
pub enum RegisterNames {
    /// By their numbers, as `$8`.
    Numbers,
    /// By their common names, as `$t0`.
    Common,
}

/// Adds a register by its number or its common name.
pub fn push_register(text: &mut String, number: u8, names: RegisterNames) -> Result<(), AllocError>
    ensures { OnOk result
        (string_bytes text.new ≡ string_bytes text.old ++ register_as names number) }
{
    push_numbered(text, u32::from(number), names)
}

/// Adds the register of a number.
pub(crate) fn push_numbered(
    text: &mut String,
    number: u32,
    names: RegisterNames,
) -> Result<(), AllocError>
    ensures { OnOk result
        (string_bytes text.new ≡ string_bytes text.old ++ register_as names number) }
{
    text.push('$')?;
    match names {
        RegisterNames::Numbers => push_decimal(text, u64::from(number)),
        RegisterNames::Common => text.push_str(register_name(number as usize)),
    }
}
