//! An access of a process, and what the permission table answers.

use ds_isa::{Kind, Size};

/// An access, but for its address.
#[derive(Clone, Copy, Debug, PartialEq, Eq)]
pub struct Access {
    pub kind: Kind,
    pub size: Size,
}

/// What denies an access or an instruction: a rule of the policy or a command by its number, a
/// kernel address, an alignment, or the instruction itself.
#[derive(Clone, Copy, Debug, PartialEq, Eq)]
pub enum Rule {
    Number(u32),
    K,
    A,
    I,
}

/// What the permission table answers to an access.
#[derive(Clone, Copy, Debug, PartialEq, Eq)]
pub enum Verdict {
    /// The access is done on this page, at this offset in bytes.
    Allowed { page: u32, offset: u32 },
    /// It is denied by this rule, with this exception code.
    Denied { rule: Rule, code: u32 },
}
