//! Why nothing is read from a line.

/// What has to stand in the place of an operand.
#[derive(Clone, Copy, Debug, PartialEq, Eq, Drop)]
pub enum Wanted {
    /// A general register: `$` and its number or its name.
    Register,
    /// A register of the system coprocessor: `$` and its number.
    SystemRegister,
    /// A number.
    Number,
    /// A label.
    Label,
    /// A number, and the register of the base in parentheses after it.
    Address,
    /// A number or a label.
    NumberOrLabel,
}

/// Why a line is neither blank nor a label nor a statement. Operands have numbers from 1.
#[derive(Clone, Copy, Debug, PartialEq, Eq, Drop)]
pub enum SyntaxCause {
    /// What stands before its first colon is no label.
    NotALabel,
    /// Its statement begins with no mnemonic and no directive.
    NoSuchName,
    /// Text is left after all operands that the statement may have.
    TooMany,
    /// More text stands after the operand of this number.
    TextAfter(u64),
    /// The operand of this number is missing, or is not what has to stand there.
    Operand { wanted: Wanted, number: u64 },
}
