//! The values of the registers that an instruction reads, as far as they tell why it was denied.
ghost use Rattle.std.specs.Prelude.{◌≡◌, ◌++◌, ◌%◌, ◌==◌, OnOk, None, slice_index};
ghost use Rattle.ds_log_reasons.specs.Values.{held, is_late, before_load_text, operands_for, operands_of, read_before, value_text, values_text};

use ds_isa::{Instr, Late};
use ds_log::Denied;
use ds_text::sheet::{push_decimal, push_hex};
use std::alloc::AllocError;

/// What an instruction takes its address from, or what it adds or subtracts.
#[derive(Clone, Copy, Debug, PartialEq, Eq)]
pub(crate) enum Operands {
    /// One register: that of an address, or one to which a half is added.
    One { register: u8 },
    /// Two registers.
    Two { first: u8, second: u8 },
    /// The registers of a call that gives a page.
    Call,
    /// Nothing that tells why.
    Nothing,
}

/// What an instruction takes that was denied so: a call that was refused takes the registers of a give.
pub(crate) fn operands_for(kind: Denied, instr: &Instr) -> Operands
    ensures { result ≡ operands_for kind instr.now }
{
    match kind {
        Denied::Give => Operands::Call,
        Denied::Fetch | Denied::Load | Denied::Store | Denied::Exec => operands_of(instr),
    }
}

/// What an instruction takes.
fn operands_of(instr: &Instr) -> Operands
    ensures { result ≡ operands_of instr.now }
{
    match *instr {
        Instr::Lb { rs, .. } => one(rs),
        Instr::Lh { rs, .. } => one(rs),
        Instr::Lwl { rs, .. } => one(rs),
        Instr::Lw { rs, .. } => one(rs),
        Instr::Lbu { rs, .. } => one(rs),
        Instr::Lhu { rs, .. } => one(rs),
        Instr::Lwr { rs, .. } => one(rs),
        Instr::Sb { rs, .. } => one(rs),
        Instr::Sh { rs, .. } => one(rs),
        Instr::Swl { rs, .. } => one(rs),
        Instr::Sw { rs, .. } => one(rs),
        Instr::Swr { rs, .. } => one(rs),
        Instr::Add { rs, rt, .. } => two(rs, rt),
        Instr::Sub { rs, rt, .. } => two(rs, rt),
        Instr::Addi { rs, .. } => one(rs),
        _ => Operands::Nothing,
    }
}

fn one(register: u8) -> Operands
    ensures { result ≡ Operands.One register }
{
    Operands::One { register }
}

fn two(first: u8, second: u8) -> Operands
    ensures { result ≡ Operands.Two first second }
{
    Operands::Two { first, second }
}

/// What a register holds.
fn held(general: &[u32; 32], register: u8) -> u32
    ensures { result ≡ held general.now register }
{
    general[usize::from(register % 32)]
}

/// What an operand reads: its value from before its load, if that is late.
fn read_before(general: &[u32; 32], late: Option<Late>, register: u8) -> u32
    ensures { result ≡ read_before general.now late register }
{
    match late {
        Some(late) if late.register == register % 32 => late.old,
        _ => held(general, register),
    }
}

/// Whether the load of a register is late.
fn is_late(late: Option<Late>, register: u8) -> bool
    ensures { result ≡ is_late late register }
{
    match late {
        Some(late) => late.register == register % 32,
        None => false,
    }
}

/// Adds that a value is from before a load, where it is.
fn push_late(sheet: &mut Vec<u8>, late: bool) -> Result<(), AllocError>
    ensures { OnOk result (sheet.new.items ≡ sheet.old.items ++ before_load_text late) }
{
    if late {
        sheet.extend_from_slice(b" (from before its load)")
    } else {
        Ok(())
    }
}

/// Adds a register with what it reads, after what comes before it.
#[tactic(auto, unfolding(crate::specs::Values::value_text))]
fn push_value(
    sheet: &mut Vec<u8>,
    before: &[u8],
    general: &[u32; 32],
    late: Option<Late>,
    register: u8,
) -> Result<(), AllocError>
    ensures { OnOk result (sheet.new.items
        ≡ sheet.old.items ++ value_text before.now general.now late register) }
{
    sheet.extend_from_slice(before)?;
    push_decimal(sheet, u64::from(register))?;
    sheet.extend_from_slice(b" ")?;
    push_hex(sheet, read_before(general, late, register))?;
    push_late(sheet, is_late(late, register))
}

/// Adds what an instruction reads of these registers, of which the load of one may be late. A call
/// finishes that load first.
#[tactic(auto, unfolding(crate::specs::Values::values_text))]
pub(crate) fn push_values(
    sheet: &mut Vec<u8>,
    general: &[u32; 32],
    late: Option<Late>,
    operands: Operands,
) -> Result<(), AllocError>
    ensures { OnOk result
        (sheet.new.items ≡ sheet.old.items ++ values_text general.now late operands) }
{
    match operands {
        Operands::One { register } => push_value(sheet, b", with $", general, late, register),
        Operands::Two { first, second } => {
            push_value(sheet, b", with $", general, late, first)?;
            push_value(sheet, b" and $", general, late, second)
        }
        Operands::Call => {
            push_value(sheet, b", with $", general, None, 4)?;
            push_value(sheet, b", $", general, None, 5)?;
            push_value(sheet, b", $", general, None, 6)?;
            push_value(sheet, b" and $", general, None, 7)
        }
        Operands::Nothing => Ok(()),
    }
}
