//! Entries of the translation buffer, as text.
ghost use Rattle.std.specs.Prelude.{◌≡◌, ◌++◌, OnOk, Some};
ghost use Rattle.std.specs.String.{string_bytes};
ghost use Rattle.ds_bare.specs.Steps.{buffer_entry_text, flag_text, flags_text, slot_entry_text};

use ds_text::string::{push_decimal, push_hex};
use ds_tlb::Entry;
use std::alloc::AllocError;

/// Adds a flag's name where it is set.
fn push_flag(text: &mut String, name: &str, set: bool) -> Result<(), AllocError>
    ensures { OnOk result
        (string_bytes text.new ≡ string_bytes text.old ++ flag_text name.now set) }
{
    if set { text.push_str(name) } else { Ok(()) }
}

/// Adds the bits of an entry that are set.
pub(crate) fn push_flags(text: &mut String, entry: &Entry) -> Result<(), AllocError>
    ensures { OnOk result
        (string_bytes text.new ≡ string_bytes text.old ++ flags_text entry.now) }
{
    push_flag(text, " N", entry.n)?;
    push_flag(text, " D", entry.d)?;
    push_flag(text, " V", entry.v)?;
    push_flag(text, " G", entry.g)
}

/// Adds an entry: the page's address, its address space, the frame's address and the bits.
pub(crate) fn push_entry(text: &mut String, entry: &Entry) -> Result<(), AllocError>
    ensures { OnOk result
        (string_bytes text.new ≡ string_bytes text.old ++ buffer_entry_text entry.now) }
{
    push_hex(text, entry.vpn % 0x10_0000 * 0x1000)?;
    text.push_str(" asid ")?;
    push_decimal(text, u64::from(entry.asid))?;
    text.push_str(" frame ")?;
    push_hex(text, entry.pfn % 0x10_0000 * 0x1000)?;
    push_flags(text, entry)
}

/// Adds a slot with its entry.
pub(crate) fn push_slot(text: &mut String, slot: usize, entry: &Entry) -> Result<(), AllocError>
    ensures { OnOk result (string_bytes text.new
        ≡ string_bytes text.old ++ slot_entry_text slot (Some entry.now)) }
{
    text.push_str("slot ")?;
    push_decimal(text, slot as u64)?;
    text.push_str(" ")?;
    push_entry(text, entry)
}
