//! The description of the registers.
ghost use Rattle.std.specs.Prelude.{◌≡◌, ◌<◌, ◌+◌, ◌++◌, ◌∷◌, [], IfOk, OnOk, codes, decimal};
ghost use Rattle.ds_gdb.specs.Each.{each};
ghost use Rattle.ds_gdb.specs.Description.{after_name, before_name, description_text, end_text, floating_text, group_text, rest_text, lettered_line, text_part, processor_text, register_line, system_text, three_text};

use ds_text::sheet::push_decimal;
use std::alloc::{AllocError, Global};

/// Adds what stands before the name of a register.
#[tactic(auto, unfolding(crate::specs::Description::before_name))]
fn push_before(text: &mut Vec<u8>) -> Result<(), AllocError>
    ensures { OnOk result (text.new.items ≡ text.old.items ++ before_name) }
{
    text.extend_from_slice(b"<reg name=\"")
}

/// Adds what stands after it.
#[tactic(auto, unfolding(crate::specs::Description::after_name))]
fn push_after(text: &mut Vec<u8>, number: u32) -> Result<(), AllocError>
    ensures { OnOk result (text.new.items ≡ text.old.items ++ after_name number) }
{
    text.extend_from_slice(b"\" bitsize=\"32\" regnum=\"")?;
    push_decimal(text, u64::from(number))?;
    text.extend_from_slice(b"\"/>")
}

/// Adds a register, by its name and its number.
#[tactic(auto, unfolding(crate::specs::Description::register_line))]
fn push_named(text: &mut Vec<u8>, name: &[u8], number: u32) -> Result<(), AllocError>
    ensures { OnOk result (text.new.items ≡ text.old.items ++ register_line name.now number) }
{
    push_before(text)?;
    text.extend_from_slice(name)?;
    push_after(text, number)
}

/// Adds a letter and a number.
fn push_letter(text: &mut Vec<u8>, letter: u8, index: u32) -> Result<(), AllocError>
    ensures { OnOk result (text.new.items ≡ text.old.items ++ letter ∷ decimal index) }
{
    text.push(letter)?;
    push_decimal(text, u64::from(index))
}

/// Adds the register that a letter and a number name, of those that begin with this one.
#[tactic(auto, unfolding(crate::specs::Description::lettered_line))]
fn push_lettered(text: &mut Vec<u8>, letter: u8, first: u32, index: u32) -> Result<(), AllocError>
    requires few { index < 32 }
    requires low { first < 64 }
    ensures { OnOk result (text.new.items ≡ text.old.items ++ lettered_line letter first index) }
{
    push_before(text)?;
    push_letter(text, letter, index)?;
    push_after(text, first + index)
}

/// Adds the 32 registers that a letter names.
fn push_all(text: &mut Vec<u8>, letter: u8, first: u32) -> Result<(), AllocError>
    requires { first < 64 }
    ensures { OnOk result (text.new.items ≡ text.old.items
        ++ each (lettered_line letter first) 0 32) }
{
    for index in 0..32 {
        push_lettered(text, letter, first, index)?;
    }
    Ok(())
}

/// Begins a group of registers.
#[tactic(auto, unfolding(crate::specs::Description::group_text))]
fn push_group(text: &mut Vec<u8>, name: &[u8]) -> Result<(), AllocError>
    ensures { OnOk result (text.new.items ≡ text.old.items ++ group_text name.now) }
{
    text.extend_from_slice(b"<feature name=\"org.gnu.gdb.mips.")?;
    text.extend_from_slice(name)?;
    text.extend_from_slice(b"\">")
}

/// Ends it.
#[tactic(auto, unfolding(crate::specs::Description::end_text))]
fn push_end(text: &mut Vec<u8>) -> Result<(), AllocError>
    ensures { OnOk result (text.new.items ≡ text.old.items ++ end_text) }
{
    text.extend_from_slice(b"</feature>")
}

/// Adds LO, HI and pc.
fn push_counters(text: &mut Vec<u8>) -> Result<(), AllocError>
    ensures { OnOk result (text.new.items ≡ text.old.items
        ++ three_text (codes "lo") 33 (codes "hi") 34 (codes "pc") 37) }
{
    push_named(text, b"lo", 33)?;
    push_named(text, b"hi", 34)?;
    push_named(text, b"pc", 37)
}

/// Adds the registers of the processor.
fn push_processor(text: &mut Vec<u8>) -> Result<(), AllocError>
    ensures { OnOk result (text.new.items ≡ text.old.items ++ processor_text) }
{
    push_group(text, b"cpu")?;
    push_all(text, b'r', 0)?;
    push_counters(text)?;
    push_end(text)
}

/// Adds Status, BadVAddr and Cause.
fn push_exception(text: &mut Vec<u8>) -> Result<(), AllocError>
    ensures { OnOk result (text.new.items ≡ text.old.items
        ++ three_text (codes "status") 32 (codes "badvaddr") 35 (codes "cause") 36) }
{
    push_named(text, b"status", 32)?;
    push_named(text, b"badvaddr", 35)?;
    push_named(text, b"cause", 36)
}

/// Adds the registers of the system coprocessor.
fn push_system(text: &mut Vec<u8>) -> Result<(), AllocError>
    ensures { OnOk result (text.new.items ≡ text.old.items ++ system_text) }
{
    push_group(text, b"cp0")?;
    push_exception(text)?;
    push_end(text)
}

/// Adds the registers of a floating-point coprocessor.
fn push_floating(text: &mut Vec<u8>) -> Result<(), AllocError>
    ensures { OnOk result (text.new.items ≡ text.old.items ++ floating_text) }
{
    push_group(text, b"fpu")?;
    push_all(text, b'f', 38)?;
    push_named(text, b"fcsr", 70)?;
    push_named(text, b"fir", 71)?;
    push_end(text)
}

/// The whole description.
#[tactic(auto, unfolding(crate::specs::Description::description_text))]
fn description(alloc: Global) -> Result<Vec<u8>, AllocError>
    ensures { IfOk result (λ text. text.items ≡ description_text) }
{
    let mut text = Vec::from_slice(
        alloc,
        b"<?xml version=\"1.0\"?><!DOCTYPE target SYSTEM \"gdb-target.dtd\"><target><architecture>mips:3000</architecture><osabi>none</osabi>",
    )?;
    push_processor(&mut text)?;
    push_system(&mut text)?;
    push_floating(&mut text)?;
    text.extend_from_slice(b"</target>")?;
    Ok(text)
}

/// Adds what is left of a text, or so much of it where there is more.
fn push_left(text: &mut Vec<u8>, left: &[u8], size: u32) -> Result<(), AllocError>
    ensures { OnOk result (text.new.items ≡ text.old.items ++ rest_text left.now size) }
{
    if left.len() <= size as usize {
        text.extend_from_slice(b"l")?;
        text.extend_from_slice(left)
    } else {
        text.extend_from_slice(b"m")?;
        text.extend_from_slice(&left[..size as usize])
    }
}

/// Adds a part of a text, from a place on, of at most so many bytes.
#[tactic(auto, using(std::proofs::lemmas::List::drop_min))]
fn push_part(text: &mut Vec<u8>, whole: &[u8], offset: u32, size: u32) -> Result<(), AllocError>
    ensures { OnOk result (text.new.items ≡ text.old.items ++ text_part whole.now offset size) }
{
    let place = (offset as usize).min(whole.len());
    push_left(text, &whole[place..], size)
}

/// Adds a part of the description, from a place on, of at most so many bytes.
pub fn push_description(
    alloc: Global,
    text: &mut Vec<u8>,
    offset: u32,
    size: u32,
) -> Result<(), AllocError>
    ensures { OnOk result (text.new.items ≡ text.old.items
        ++ text_part description_text offset size) }
{
    let whole = description(alloc)?;
    push_part(text, whole.as_slice(), offset, size)
}
