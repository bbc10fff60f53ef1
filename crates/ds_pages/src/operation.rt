//! An operation, as what it does, its registers and its immediate.

use crate::register::{Register, Target};

/// What an operation does: that of the instruction of the same name (Kane and Heinrich, appendix A).
#[derive(Clone, Copy, Debug, PartialEq, Eq)]
pub enum OperationKind {
    /// No register is written, as by `nop`.
    Nothing,
    /// Shifts by a number.
    Sll,
    Srl,
    Sra,
    /// Shifts by a register.
    Sllv,
    Srlv,
    Srav,
    /// Moves from and to HI and LO.
    Mfhi,
    Mthi,
    Mflo,
    Mtlo,
    /// Products and quotients of two registers, in HI and LO.
    Mult,
    Multu,
    Div,
    Divu,
    /// Results of two registers.
    Add,
    Addu,
    Sub,
    Subu,
    And,
    Or,
    Xor,
    Nor,
    Slt,
    Sltu,
    /// Results of a register and the immediate.
    Addi,
    Addiu,
    Slti,
    Sltiu,
    Andi,
    Ori,
    Xori,
    /// The immediate itself.
    Lui,
    /// Branches by one register, or by two.
    Bltz,
    Bgez,
    Bltzal,
    Bgezal,
    Beq,
    Bne,
    Blez,
    Bgtz,
    /// Jumps to the immediate in the region of the slot, or to a register.
    J,
    Jal,
    Jr,
    Jalr,
    /// Loads.
    Lb,
    Lh,
    Lw,
    Lbu,
    Lhu,
    /// Stores.
    Sb,
    Sh,
    Sw,
    /// A system call.
    Syscall,
    /// An instruction that is no operation.
    Other,
}

/// An operation: eight bytes, whose fields mean what its kind makes of them.
#[derive(Clone, Copy, Debug, PartialEq, Eq)]
pub struct Operation {
    pub kind: OperationKind,
    /// The register that is written, if one is.
    pub to: Target,
    /// The registers that are read; register 0 where none is.
    pub first: Register,
    pub second: Register,
    /// The immediate, extended to a word; of a branch the distance from its own address.
    pub immediate: u32,
}
