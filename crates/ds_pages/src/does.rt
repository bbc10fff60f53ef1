//! What is done at a place of a page.
ghost use Rattle.std.specs.Prelude.{◌≡◌, ◌<◌};
ghost use Rattle.ds_pages.specs.Inner.Does.{single, is_known, is_end, is_branch, is_jump, is_load, has_slot, steps};

use crate::operation::OperationKind;

/// What is done at a place of a page: the operation of the kind of this name, or what ends a block.
#[derive(Clone, Copy, Debug, PartialEq, Eq)]
pub enum Does {
    /// The word was not decoded since it came there.
    Unknown,
    /// It is left to whoever looks at everything: an instruction that is no operation, a load whose
    /// register the next operation reads, or a branch that leaves the page.
    Left,
    /// A system call.
    Call,
    /// No register is written.
    Nothing,
    /// Shifts by a number, and by a register.
    Sll,
    Srl,
    Sra,
    Sllv,
    Srlv,
    Srav,
    /// Moves from and to HI and LO.
    Mfhi,
    Mthi,
    Mflo,
    Mtlo,
    /// Products and quotients.
    Mult,
    Multu,
    Div,
    Divu,
    /// Results of two registers.
    Add,
    Addu,
    Sub,
    Subu,
    And,
    Or,
    Xor,
    Nor,
    Slt,
    Sltu,
    /// Results of a register and the immediate, and the immediate itself.
    Addi,
    Addiu,
    Slti,
    Sltiu,
    Andi,
    Ori,
    Xori,
    Lui,
    /// Branches, each with its slot.
    Bltz,
    Bgez,
    Bltzal,
    Bgezal,
    Beq,
    Bne,
    Blez,
    Bgtz,
    /// Jumps, each with its slot.
    J,
    Jal,
    Jr,
    Jalr,
    /// Loads.
    Lb,
    Lh,
    Lw,
    Lbu,
    Lhu,
    /// Stores.
    Sb,
    Sh,
    Sw,
}

impl Does {
    /// What is done by an operation of a kind alone.
    pub fn of(kind: OperationKind) -> Does
        ensures { result ≡ single kind }
    {
        match kind {
            OperationKind::Nothing => Does::Nothing,
            OperationKind::Sll => Does::Sll,
            OperationKind::Srl => Does::Srl,
            OperationKind::Sra => Does::Sra,
            OperationKind::Sllv => Does::Sllv,
            OperationKind::Srlv => Does::Srlv,
            OperationKind::Srav => Does::Srav,
            OperationKind::Mfhi => Does::Mfhi,
            OperationKind::Mthi => Does::Mthi,
            OperationKind::Mflo => Does::Mflo,
            OperationKind::Mtlo => Does::Mtlo,
            OperationKind::Mult => Does::Mult,
            OperationKind::Multu => Does::Multu,
            OperationKind::Div => Does::Div,
            OperationKind::Divu => Does::Divu,
            OperationKind::Add => Does::Add,
            OperationKind::Addu => Does::Addu,
            OperationKind::Sub => Does::Sub,
            OperationKind::Subu => Does::Subu,
            OperationKind::And => Does::And,
            OperationKind::Or => Does::Or,
            OperationKind::Xor => Does::Xor,
            OperationKind::Nor => Does::Nor,
            OperationKind::Slt => Does::Slt,
            OperationKind::Sltu => Does::Sltu,
            OperationKind::Addi => Does::Addi,
            OperationKind::Addiu => Does::Addiu,
            OperationKind::Slti => Does::Slti,
            OperationKind::Sltiu => Does::Sltiu,
            OperationKind::Andi => Does::Andi,
            OperationKind::Ori => Does::Ori,
            OperationKind::Xori => Does::Xori,
            OperationKind::Lui => Does::Lui,
            OperationKind::Bltz => Does::Bltz,
            OperationKind::Bgez => Does::Bgez,
            OperationKind::Bltzal => Does::Bltzal,
            OperationKind::Bgezal => Does::Bgezal,
            OperationKind::Beq => Does::Beq,
            OperationKind::Bne => Does::Bne,
            OperationKind::Blez => Does::Blez,
            OperationKind::Bgtz => Does::Bgtz,
            OperationKind::J => Does::J,
            OperationKind::Jal => Does::Jal,
            OperationKind::Jr => Does::Jr,
            OperationKind::Jalr => Does::Jalr,
            OperationKind::Lb => Does::Lb,
            OperationKind::Lh => Does::Lh,
            OperationKind::Lw => Does::Lw,
            OperationKind::Lbu => Does::Lbu,
            OperationKind::Lhu => Does::Lhu,
            OperationKind::Sb => Does::Sb,
            OperationKind::Sh => Does::Sh,
            OperationKind::Sw => Does::Sw,
            OperationKind::Syscall => Does::Call,
            OperationKind::Other => Does::Left,
        }
    }

    /// Whether the word was decoded since it came there.
    pub fn is_known(self) -> bool
        ensures { result ≡ is_known self }
    {
        !matches!(self, Does::Unknown)
    }

    /// Whether a block ends in front of it.
    pub fn is_end(self) -> bool
        ensures { result ≡ is_end self }
    {
        matches!(self, Does::Unknown | Does::Left | Does::Call)
    }

    /// Whether it is a branch.
    pub fn is_branch(self) -> bool
        ensures { result ≡ is_branch self }
    {
        matches!(
            self,
            Does::Bltz
                | Does::Bgez
                | Does::Bltzal
                | Does::Bgezal
                | Does::Beq
                | Does::Bne
                | Does::Blez
                | Does::Bgtz
        )
    }

    /// Whether it is a jump.
    pub fn is_jump(self) -> bool
        ensures { result ≡ is_jump self }
    {
        matches!(self, Does::J | Does::Jal | Does::Jr | Does::Jalr)
    }

    /// Whether it is a load.
    pub fn is_load(self) -> bool
        ensures { result ≡ is_load self }
    {
        matches!(self, Does::Lb | Does::Lh | Does::Lw | Does::Lbu | Does::Lhu)
    }

    /// Whether the operation after it is its slot.
    pub fn has_slot(self) -> bool
        ensures { result ≡ has_slot self }
    {
        self.is_branch() || self.is_jump()
    }

    /// The steps to the end of the block, where there are so many from the next place on.
    pub(crate) fn steps(self, next: u16) -> u16
        requires { next < 1024 }
        ensures { result ≡ steps self next }
    {
        if self.is_end() {
            0
        } else if self.has_slot() {
            2
        } else {
            1 + next
        }
    }
}
