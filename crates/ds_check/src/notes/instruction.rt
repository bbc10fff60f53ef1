//! What is worth a look about one instruction, after the one that is done right before it.
ghost use Rattle.std.specs.Prelude.{◌≡◌, ◌++◌, ◌∷◌, [], OnOk};
ghost use Rattle.ds_check.specs.CodeNotes.{differing, follows_branch, instruction_notes, is_kernel_register, is_register, jumps, register_loading, merges, operand_notes, other_than_0, late_operand};

use ds_isa::{Instr, access_size, is_branch, reads, writes};
use std::alloc::AllocError;

/// What is worth a look about an instruction.
#[derive(Clone, Copy, Debug, PartialEq, Eq)]
pub enum CodeNote {
    /// It is a branch or a jump in the slot of another.
    BranchInSlot,
    /// It reads this register, which the load before it has not loaded yet.
    LoadDelay(u8),
    /// It reads this register, 26 or 27, which the kernel may change before any instruction.
    KernelRegister(u8),
}

/// Where an instruction stands.
#[derive(Clone, Copy, Debug, PartialEq, Eq)]
pub struct WordPlace {
    /// The line of the source, from 1.
    pub line: u64,
    /// How many bytes of the image stand before its word.
    pub offset: u32,
}

/// A note and the instruction that it is about.
#[derive(Clone, Copy, Debug, PartialEq, Eq)]
pub struct PlacedNote {
    pub at: WordPlace,
    pub note: CodeNote,
}

/// Adds the notes on an instruction, after the one that is done right before it.
pub(crate) fn push_instruction(
    notes: &mut Vec<PlacedNote>,
    at: WordPlace,
    before: Option<Instr>,
    instr: &Instr,
) -> Result<(), AllocError>
    ensures { OnOk result
        (notes.new.items ≡ notes.old.items ++ instruction_notes at before instr.now) }
{
    let sources = reads(instr);
    let loading = register_loading(before);
    if follows_branch(before) && is_branch(instr) {
        push(notes, at, CodeNote::BranchInSlot)?;
    }
    push_operand(notes, at, loading, sources.rs)?;
    let second = differing(sources.rs, sources.rt);
    push_operand(notes, at, late_operand(loading, instr), second)
}

/// Adds the notes on a register that is read, where one is.
fn push_operand(
    notes: &mut Vec<PlacedNote>,
    at: WordPlace,
    loading: Option<u8>,
    register: Option<u8>,
) -> Result<(), AllocError>
    ensures { OnOk result
        (notes.new.items ≡ notes.old.items ++ operand_notes at loading register) }
{
    let Some(number) = register else {
        return Ok(());
    };
    if is_register(loading, number) {
        push(notes, at, CodeNote::LoadDelay(number))?;
    }
    if is_kernel_register(number) {
        push(notes, at, CodeNote::KernelRegister(number))?;
    }
    Ok(())
}

fn push(notes: &mut Vec<PlacedNote>, at: WordPlace, note: CodeNote) -> Result<(), AllocError>
    ensures { OnOk result
        (notes.new.items ≡ notes.old.items ++ (record { at = at; note = note }) ∷ []) }
{
    notes.push(PlacedNote { at, note })?;
    Ok(())
}

/// Whether it is the register of this number.
fn is_register(register: Option<u8>, number: u8) -> bool
    ensures { result ≡ is_register register number }
{
    register == Some(number)
}

fn is_kernel_register(number: u8) -> bool
    ensures { result ≡ is_kernel_register number }
{
    number == 26 || number == 27
}

/// The second register, where it is another than the first.
fn differing(first: Option<u8>, second: Option<u8>) -> Option<u8>
    ensures { result ≡ differing first second }
{
    let number = second?;
    if is_register(first, number) {
        None
    } else {
        Some(number)
    }
}

/// The register that the next instruction must not read, where the one before is a load.
fn register_loading(before: Option<Instr>) -> Option<u8>
    ensures { result ≡ register_loading before }
{
    let load = before?;
    match access_size(&load) {
        Some(_) => other_than_0(writes(&load)),
        None => None,
    }
}

fn other_than_0(register: Option<u8>) -> Option<u8>
    ensures { result ≡ other_than_0 register }
{
    match register {
        Some(0) | None => None,
        Some(number) => Some(number),
    }
}

/// The register that must not be read as the operand rt.
fn late_operand(loading: Option<u8>, instr: &Instr) -> Option<u8>
    ensures { result ≡ late_operand loading instr.now }
{
    if merges(instr) { None } else { loading }
}

fn merges(instr: &Instr) -> bool
    ensures { result ≡ merges instr.now }
{
    matches!(instr, Instr::Lwl { .. } | Instr::Lwr { .. })
}

fn follows_branch(before: Option<Instr>) -> bool
    ensures { result ≡ follows_branch before }
{
    match before {
        Some(instr) => is_branch(&instr),
        None => false,
    }
}

/// Whether the one before is a jump, after whose slot the next line is not done.
pub(crate) fn jumps(before: Option<Instr>) -> bool
    ensures { result ≡ jumps before }
{
    match before {
        Some(Instr::J { .. } | Instr::Jal { .. } | Instr::Jr { .. } | Instr::Jalr { .. }) => true,
        _ => false,
    }
}
