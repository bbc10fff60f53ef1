//! From an instruction to its operation.
ghost use Rattle.std.specs.Prelude.{◌≡◌, ◌≢◌, ℕ, ◌+◌, ◌*◌};
ghost use Rattle.ds_word.specs.Word.{word, sign_extended};
ghost use Rattle.ds_isa.specs.Registers.{Registers};
ghost use Rattle.ds_pages.specs.declared.operation.OperationKind.TheVariants.{Other};
ghost use Rattle.ds_pages.specs.Inner.Operations.{does, does_by, MeansAs};

use crate::operation::{Operation, OperationKind};
use crate::register::{Register, Target};
use ds_isa::Instr;
use ds_word::{sign16, upper, wrapping_sum};

/// The target of an operation that writes no register.
const NO_TARGET: u8 = 1;

/// The register of an operation that reads none.
const NO_REGISTER: u8 = 0;

/// The operation of a kind with these fields, where its numbers are those of registers.
fn made(kind: OperationKind, to: u8, first: u8, second: u8, immediate: u32) -> Operation
    ensures { result.kind ≢ Other → (pc : ℕ) (r : Registers)
        → does result pc r ≡ does_by kind to first second immediate pc r }
{
    match (Target::new(to), Register::new(first), Register::new(second)) {
        (Some(to), Some(first), Some(second)) => Operation {
            kind,
            to,
            first,
            second,
            immediate,
        },
        _ => none(),
    }
}

/// What stands for an instruction that is no operation.
fn none() -> Operation
    ensures { result.kind ≡ Other }
{
    Operation {
        kind: OperationKind::Other,
        to: Target::ONE,
        first: Register::ZERO,
        second: Register::ZERO,
        immediate: 0,
    }
}

/// What a branch adds to its own address where it is taken.
fn distance(immediate: u16) -> u32
    ensures { (pc : ℕ) → word (pc + result) ≡ word (pc + 4 + 4 * sign_extended 16 immediate) }
{
    wrapping_sum(4, sign16(immediate).wrapping_mul(4))
}

/// A shift.
fn shift(instr: Instr) -> Operation
    ensures { MeansAs result instr }
{
    match instr {
        Instr::Sll { rd, rt, shamt } => {
            if rd == 0 {
                made(
                    OperationKind::Nothing,
                    NO_TARGET,
                    NO_REGISTER,
                    NO_REGISTER,
                    0,
                )
            } else {
                made(OperationKind::Sll, rd, rt, NO_REGISTER, u32::from(shamt))
            }
        }
        Instr::Srl { rd, rt, shamt } => {
            made(OperationKind::Srl, rd, rt, NO_REGISTER, u32::from(shamt))
        }
        Instr::Sra { rd, rt, shamt } => {
            made(OperationKind::Sra, rd, rt, NO_REGISTER, u32::from(shamt))
        }
        Instr::Sllv { rd, rt, rs } => made(OperationKind::Sllv, rd, rt, rs, 0),
        Instr::Srlv { rd, rt, rs } => made(OperationKind::Srlv, rd, rt, rs, 0),
        Instr::Srav { rd, rt, rs } => made(OperationKind::Srav, rd, rt, rs, 0),
        _ => none(),
    }
}

/// A move from or to HI or LO, or a system call.
fn special(instr: Instr) -> Operation
    ensures { MeansAs result instr }
{
    match instr {
        Instr::Mfhi { rd } => made(OperationKind::Mfhi, rd, NO_REGISTER, NO_REGISTER, 0),
        Instr::Mthi { rs } => made(OperationKind::Mthi, NO_TARGET, rs, NO_REGISTER, 0),
        Instr::Mflo { rd } => made(OperationKind::Mflo, rd, NO_REGISTER, NO_REGISTER, 0),
        Instr::Mtlo { rs } => made(OperationKind::Mtlo, NO_TARGET, rs, NO_REGISTER, 0),
        Instr::Syscall { .. } => {
            made(
                OperationKind::Syscall,
                NO_TARGET,
                NO_REGISTER,
                NO_REGISTER,
                0,
            )
        }
        _ => none(),
    }
}

/// A product or a quotient.
fn product(instr: Instr) -> Operation
    ensures { MeansAs result instr }
{
    match instr {
        Instr::Mult { rs, rt } => made(OperationKind::Mult, NO_TARGET, rs, rt, 0),
        Instr::Multu { rs, rt } => made(OperationKind::Multu, NO_TARGET, rs, rt, 0),
        Instr::Div { rs, rt } => made(OperationKind::Div, NO_TARGET, rs, rt, 0),
        Instr::Divu { rs, rt } => made(OperationKind::Divu, NO_TARGET, rs, rt, 0),
        _ => none(),
    }
}

/// A result of two registers.
fn of_two(instr: Instr) -> Operation
    ensures { MeansAs result instr }
{
    match instr {
        Instr::Add { rd, rs, rt } => made(OperationKind::Add, rd, rs, rt, 0),
        Instr::Addu { rd, rs, rt } => made(OperationKind::Addu, rd, rs, rt, 0),
        Instr::Sub { rd, rs, rt } => made(OperationKind::Sub, rd, rs, rt, 0),
        Instr::Subu { rd, rs, rt } => made(OperationKind::Subu, rd, rs, rt, 0),
        Instr::And { rd, rs, rt } => made(OperationKind::And, rd, rs, rt, 0),
        Instr::Or { rd, rs, rt } => made(OperationKind::Or, rd, rs, rt, 0),
        Instr::Xor { rd, rs, rt } => made(OperationKind::Xor, rd, rs, rt, 0),
        Instr::Nor { rd, rs, rt } => made(OperationKind::Nor, rd, rs, rt, 0),
        Instr::Slt { rd, rs, rt } => made(OperationKind::Slt, rd, rs, rt, 0),
        Instr::Sltu { rd, rs, rt } => made(OperationKind::Sltu, rd, rs, rt, 0),
        _ => none(),
    }
}

/// A result of a register and the immediate.
fn immediate(instr: Instr) -> Operation
    ensures { MeansAs result instr }
{
    match instr {
        Instr::Addi { rt, rs, immediate } => {
            made(OperationKind::Addi, rt, rs, NO_REGISTER, sign16(immediate))
        }
        Instr::Addiu { rt, rs, immediate } => {
            made(OperationKind::Addiu, rt, rs, NO_REGISTER, sign16(immediate))
        }
        Instr::Slti { rt, rs, immediate } => {
            made(OperationKind::Slti, rt, rs, NO_REGISTER, sign16(immediate))
        }
        Instr::Sltiu { rt, rs, immediate } => {
            made(OperationKind::Sltiu, rt, rs, NO_REGISTER, sign16(immediate))
        }
        Instr::Andi { rt, rs, immediate } => {
            made(
                OperationKind::Andi,
                rt,
                rs,
                NO_REGISTER,
                u32::from(immediate),
            )
        }
        Instr::Ori { rt, rs, immediate } => {
            made(
                OperationKind::Ori,
                rt,
                rs,
                NO_REGISTER,
                u32::from(immediate),
            )
        }
        Instr::Xori { rt, rs, immediate } => {
            made(
                OperationKind::Xori,
                rt,
                rs,
                NO_REGISTER,
                u32::from(immediate),
            )
        }
        Instr::Lui { rt, immediate } => {
            made(
                OperationKind::Lui,
                rt,
                NO_REGISTER,
                NO_REGISTER,
                upper(immediate),
            )
        }
        _ => none(),
    }
}

/// A branch.
fn branch(instr: Instr) -> Operation
    ensures { MeansAs result instr }
{
    match instr {
        Instr::Bltz { rs, immediate } => {
            made(
                OperationKind::Bltz,
                NO_TARGET,
                rs,
                NO_REGISTER,
                distance(immediate),
            )
        }
        Instr::Bgez { rs, immediate } => {
            made(
                OperationKind::Bgez,
                NO_TARGET,
                rs,
                NO_REGISTER,
                distance(immediate),
            )
        }
        Instr::Bltzal { rs, immediate } => {
            made(
                OperationKind::Bltzal,
                31,
                rs,
                NO_REGISTER,
                distance(immediate),
            )
        }
        Instr::Bgezal { rs, immediate } => {
            made(
                OperationKind::Bgezal,
                31,
                rs,
                NO_REGISTER,
                distance(immediate),
            )
        }
        Instr::Beq { rs, rt, immediate } => {
            made(OperationKind::Beq, NO_TARGET, rs, rt, distance(immediate))
        }
        Instr::Bne { rs, rt, immediate } => {
            made(OperationKind::Bne, NO_TARGET, rs, rt, distance(immediate))
        }
        Instr::Blez { rs, immediate } => {
            made(
                OperationKind::Blez,
                NO_TARGET,
                rs,
                NO_REGISTER,
                distance(immediate),
            )
        }
        Instr::Bgtz { rs, immediate } => {
            made(
                OperationKind::Bgtz,
                NO_TARGET,
                rs,
                NO_REGISTER,
                distance(immediate),
            )
        }
        _ => none(),
    }
}

/// A jump.
fn jump(instr: Instr) -> Operation
    ensures { MeansAs result instr }
{
    match instr {
        Instr::J { target } => {
            let place = 4 * (target % 0x400_0000);
            made(OperationKind::J, NO_TARGET, NO_REGISTER, NO_REGISTER, place)
        }
        Instr::Jal { target } => {
            let place = 4 * (target % 0x400_0000);
            made(OperationKind::Jal, 31, NO_REGISTER, NO_REGISTER, place)
        }
        Instr::Jr { rs } => made(OperationKind::Jr, NO_TARGET, rs, NO_REGISTER, 0),
        Instr::Jalr { rd, rs } => made(OperationKind::Jalr, rd, rs, NO_REGISTER, 0),
        _ => none(),
    }
}

/// A load or a store.
fn transfer(instr: Instr) -> Operation
    ensures { MeansAs result instr }
{
    match instr {
        Instr::Lb { rt, rs, immediate } => {
            made(OperationKind::Lb, rt, rs, NO_REGISTER, sign16(immediate))
        }
        Instr::Lh { rt, rs, immediate } => {
            made(OperationKind::Lh, rt, rs, NO_REGISTER, sign16(immediate))
        }
        Instr::Lw { rt, rs, immediate } => {
            made(OperationKind::Lw, rt, rs, NO_REGISTER, sign16(immediate))
        }
        Instr::Lbu { rt, rs, immediate } => {
            made(OperationKind::Lbu, rt, rs, NO_REGISTER, sign16(immediate))
        }
        Instr::Lhu { rt, rs, immediate } => {
            made(OperationKind::Lhu, rt, rs, NO_REGISTER, sign16(immediate))
        }
        Instr::Sb { rt, rs, immediate } => {
            made(OperationKind::Sb, NO_TARGET, rs, rt, sign16(immediate))
        }
        Instr::Sh { rt, rs, immediate } => {
            made(OperationKind::Sh, NO_TARGET, rs, rt, sign16(immediate))
        }
        Instr::Sw { rt, rs, immediate } => {
            made(OperationKind::Sw, NO_TARGET, rs, rt, sign16(immediate))
        }
        _ => none(),
    }
}

impl Operation {
    /// The operation of an instruction: it does what the instruction means. Unaligned parts of words,
    /// what the system coprocessor does, and instructions that write register 0 are none, but for
    /// `nop`.
    pub fn of(instr: Instr) -> Operation
        ensures { MeansAs result instr }
    {
        match instr {
            Instr::Sll { .. }
            | Instr::Srl { .. }
            | Instr::Sra { .. }
            | Instr::Sllv { .. }
            | Instr::Srlv { .. }
            | Instr::Srav { .. } => shift(instr),
            Instr::Add { .. }
            | Instr::Addu { .. }
            | Instr::Sub { .. }
            | Instr::Subu { .. }
            | Instr::And { .. }
            | Instr::Or { .. }
            | Instr::Xor { .. }
            | Instr::Nor { .. }
            | Instr::Slt { .. }
            | Instr::Sltu { .. } => of_two(instr),
            Instr::Mult { .. } | Instr::Multu { .. } | Instr::Div { .. } | Instr::Divu { .. } => {
                product(instr)
            }
            Instr::Addi { .. }
            | Instr::Addiu { .. }
            | Instr::Slti { .. }
            | Instr::Sltiu { .. }
            | Instr::Andi { .. }
            | Instr::Ori { .. }
            | Instr::Xori { .. }
            | Instr::Lui { .. } => immediate(instr),
            Instr::Bltz { .. }
            | Instr::Bgez { .. }
            | Instr::Bltzal { .. }
            | Instr::Bgezal { .. }
            | Instr::Beq { .. }
            | Instr::Bne { .. }
            | Instr::Blez { .. }
            | Instr::Bgtz { .. } => branch(instr),
            Instr::J { .. } | Instr::Jal { .. } | Instr::Jr { .. } | Instr::Jalr { .. } => {
                jump(instr)
            }
            Instr::Lb { .. }
            | Instr::Lh { .. }
            | Instr::Lw { .. }
            | Instr::Lbu { .. }
            | Instr::Lhu { .. }
            | Instr::Sb { .. }
            | Instr::Sh { .. }
            | Instr::Sw { .. } => transfer(instr),
            _ => special(instr),
        }
    }
}
