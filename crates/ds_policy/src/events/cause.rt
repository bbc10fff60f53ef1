//! What can be wrong with an input.

/// What is wrong with a line of an input. Where several hold, the first in this order is told.
#[derive(Clone, Copy, Debug, PartialEq, Eq)]
pub enum InputCause {
    /// It has a carriage return.
    CarriageReturn,
    /// It has a tab.
    Tab,
    /// It begins with a blank.
    BlankAtStart,
    /// It ends with a blank.
    BlankAtEnd,
    /// Two blanks stand together.
    TwoBlanks,
    /// Its first word is no time.
    BadTime,
    /// Its second word is no event.
    UnknownEvent,
    /// A word is missing, or there is one too many.
    WordCount,
    /// The word after `grant`, `narrow`, `revoke`, `drop`, `resume` or `stop` is no process number.
    BadProcess,
    /// The address is not eight hexadecimal digits, as where it begins with `0x`.
    BadAddress,
    /// No page of the policy has the name.
    UnknownPage,
    /// The right is neither `read` nor `write`.
    BadRight,
    /// The word after the right is not `give`.
    BadGive,
    /// The console line is not one digit from 0 to 3.
    BadLine,
    /// The bytes are not 1 to 256 pairs of hexadecimal digits.
    BadBytes,
    /// Its time is earlier than that of an event before it.
    EarlierTime,
    /// It is the 4,097th event.
    TooManyEvents,
}

/// The first line of an input that is refused, from 1, and what is wrong with it.
#[derive(Clone, Copy, Debug, PartialEq, Eq)]
pub struct InputReason {
    pub line: u64,
    pub cause: InputCause,
}
