//! Instructions with their operands.

/// An instruction, one variant for each row of the table (Kane and Heinrich, appendix A), with its
/// operands as the fields of its word.
#[derive(Clone, Copy, Debug, PartialEq, Eq)]
pub enum Instr {
    /// Shift left logical.
    Sll { rd: u8, rt: u8, shamt: u8 },
    /// Shift right logical.
    Srl { rd: u8, rt: u8, shamt: u8 },
    /// Shift right arithmetic.
    Sra { rd: u8, rt: u8, shamt: u8 },
    /// Shift left logical variable.
    Sllv { rd: u8, rt: u8, rs: u8 },
    /// Shift right logical variable.
    Srlv { rd: u8, rt: u8, rs: u8 },
    /// Shift right arithmetic variable.
    Srav { rd: u8, rt: u8, rs: u8 },
    /// Jump register.
    Jr { rs: u8 },
    /// Jump and link register, which is not the one with the target.
    Jalr { rd: u8, rs: u8 },
    /// System call, with a code that the processor ignores.
    Syscall { code: u32 },
    /// Breakpoint, with a code that the processor ignores.
    Break { code: u32 },
    /// Move from HI.
    Mfhi { rd: u8 },
    /// Move to HI.
    Mthi { rs: u8 },
    /// Move from LO.
    Mflo { rd: u8 },
    /// Move to LO.
    Mtlo { rs: u8 },
    /// Multiply.
    Mult { rs: u8, rt: u8 },
    /// Multiply unsigned.
    Multu { rs: u8, rt: u8 },
    /// Divide.
    Div { rs: u8, rt: u8 },
    /// Divide unsigned.
    Divu { rs: u8, rt: u8 },
    /// Add, which traps on overflow.
    Add { rd: u8, rs: u8, rt: u8 },
    /// Add unsigned.
    Addu { rd: u8, rs: u8, rt: u8 },
    /// Subtract, which traps on overflow.
    Sub { rd: u8, rs: u8, rt: u8 },
    /// Subtract unsigned.
    Subu { rd: u8, rs: u8, rt: u8 },
    /// And.
    And { rd: u8, rs: u8, rt: u8 },
    /// Or.
    Or { rd: u8, rs: u8, rt: u8 },
    /// Exclusive or.
    Xor { rd: u8, rs: u8, rt: u8 },
    /// Nor.
    Nor { rd: u8, rs: u8, rt: u8 },
    /// Set on less than.
    Slt { rd: u8, rs: u8, rt: u8 },
    /// Set on less than unsigned.
    Sltu { rd: u8, rs: u8, rt: u8 },
    /// Branch on less than zero.
    Bltz { rs: u8, immediate: u16 },
    /// Branch on greater than or equal to zero.
    Bgez { rs: u8, immediate: u16 },
    /// Branch on less than zero and link, with a register other than 31.
    Bltzal { rs: u8, immediate: u16 },
    /// Branch on greater than or equal to zero and link, with a register other than 31.
    Bgezal { rs: u8, immediate: u16 },
    /// Jump.
    J { target: u32 },
    /// Jump and link.
    Jal { target: u32 },
    /// Branch on equal.
    Beq { rs: u8, rt: u8, immediate: u16 },
    /// Branch on not equal.
    Bne { rs: u8, rt: u8, immediate: u16 },
    /// Branch on less than or equal to zero.
    Blez { rs: u8, immediate: u16 },
    /// Branch on greater than zero.
    Bgtz { rs: u8, immediate: u16 },
    /// Add immediate, which traps on overflow.
    Addi { rt: u8, rs: u8, immediate: u16 },
    /// Add immediate unsigned.
    Addiu { rt: u8, rs: u8, immediate: u16 },
    /// Set on less than immediate.
    Slti { rt: u8, rs: u8, immediate: u16 },
    /// Set on less than immediate unsigned.
    Sltiu { rt: u8, rs: u8, immediate: u16 },
    /// And immediate.
    Andi { rt: u8, rs: u8, immediate: u16 },
    /// Or immediate.
    Ori { rt: u8, rs: u8, immediate: u16 },
    /// Exclusive or immediate.
    Xori { rt: u8, rs: u8, immediate: u16 },
    /// Load upper immediate.
    Lui { rt: u8, immediate: u16 },
    /// Load byte.
    Lb { rt: u8, rs: u8, immediate: u16 },
    /// Load halfword.
    Lh { rt: u8, rs: u8, immediate: u16 },
    /// Load word left.
    Lwl { rt: u8, rs: u8, immediate: u16 },
    /// Load word.
    Lw { rt: u8, rs: u8, immediate: u16 },
    /// Load byte unsigned.
    Lbu { rt: u8, rs: u8, immediate: u16 },
    /// Load halfword unsigned.
    Lhu { rt: u8, rs: u8, immediate: u16 },
    /// Load word right.
    Lwr { rt: u8, rs: u8, immediate: u16 },
    /// Store byte.
    Sb { rt: u8, rs: u8, immediate: u16 },
    /// Store halfword.
    Sh { rt: u8, rs: u8, immediate: u16 },
    /// Store word left.
    Swl { rt: u8, rs: u8, immediate: u16 },
    /// Store word.
    Sw { rt: u8, rs: u8, immediate: u16 },
    /// Store word right.
    Swr { rt: u8, rs: u8, immediate: u16 },
    /// Move from the system coprocessor.
    Mfc0 { rt: u8, rd: u8 },
    /// Move to the system coprocessor.
    Mtc0 { rt: u8, rd: u8 },
    /// Read the entry of the translation lookaside buffer at Index.
    Tlbr,
    /// Write the entry at Index.
    Tlbwi,
    /// Write the entry at Random.
    Tlbwr,
    /// Probe the translation lookaside buffer.
    Tlbp,
    /// Restore from exception.
    Rfe,
    /// A word of a coprocessor that is none of the above.
    Cop { unit: u8, word: u32 },
    /// A word that is no instruction.
    Reserved(u32),
}

/// How many bytes an access is about; the unaligned loads and stores are about a part of a word.
#[derive(Clone, Copy, Debug, PartialEq, Eq)]
pub enum Size {
    Byte,
    Half,
    Word,
    Part,
}

/// What an access does.
#[derive(Clone, Copy, Debug, PartialEq, Eq)]
pub enum Kind {
    /// An instruction is fetched.
    Fetch,
    /// Bytes are read.
    Load,
    /// Bytes are written.
    Store,
}

/// A register that was loaded, with the value that the next instruction still reads there
/// (Kane and Heinrich, chapter 1, load delay).
#[derive(Clone, Copy, Debug, PartialEq, Eq)]
pub struct Late {
    pub register: u8,
    pub old: u32,
}
