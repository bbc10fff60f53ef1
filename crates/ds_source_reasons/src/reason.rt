//! The reasons for which a line is refused.

use ds_asm::Wanted;

/// Why a line can't be read. Where several reasons hold, the first in the order of these is given.
/// Each has what stands in the line, in the line's own bytes.
#[derive(Clone, Copy, Debug, PartialEq, Eq)]
pub enum SyntaxReason<'a> {
    /// The line begins with a byte order mark.
    ByteOrderMark,
    /// The statement's first word begins with a dot, and is no directive.
    NoSuchDirective(&'a [u8]),
    /// The statement's first word is a macro of other assemblers.
    Macro(&'a [u8]),
    /// The first byte that no label and no statement may hold.
    NoSuchByte(u8),
    /// A carriage return stands within the line.
    CarriageReturn,
    /// Blanks stand between this label and its colon.
    SpacedColon(&'a [u8]),
    /// What stands before the colon is no label.
    NotALabel(&'a [u8]),
    /// A second colon stands in the line.
    SecondColon,
    /// The statement's first word has letters in upper case.
    UpperCase(&'a [u8]),
    /// The statement's first word is no mnemonic.
    NoSuchMnemonic(&'a [u8]),
    /// The statement has too few operands or too many.
    Operands {
        /// How many it has at least.
        least: u64,
        /// How many it has at most.
        most: u64,
        /// How many stand there.
        found: u64,
    },
    /// A directive has no number, or more than one: how many stand there.
    OneNumber(u64),
    /// More text stands after what is a whole statement.
    TextAfter(&'a [u8]),
    /// An operand begins as a register does, and there is no such register.
    NoSuchRegister(&'a [u8]),
    /// An operand is not what has to stand in its place.
    Operand {
        /// Which operand, from 1.
        number: u64,
        /// What has to stand there.
        wanted: Wanted,
        /// What stands there.
        found: &'a [u8],
    },
}

/// Why a statement that can be read may not stand where it stands. Where several reasons hold, the
/// first in the order of these is given.
#[derive(Clone, Copy, Debug, PartialEq, Eq)]
pub enum RangeReason<'a> {
    /// A number is below `-least` or above `most`.
    OutOfRange {
        /// The number as it is written.
        found: &'a [u8],
        /// How far below 0 it may be.
        least: u64,
        /// The greatest that it may be.
        most: u64,
    },
    /// A word would begin at this many bytes of the image, which is no multiple of four.
    NotAligned(u64),
    /// The instruction of this mnemonic has registers that it may not have.
    Reserved(&'a [u8]),
    /// The instruction goes to this label, which stands at no multiple of four.
    Target(&'a [u8]),
}
