//! Entries of the permission table.
ghost use Rattle.std.specs.Prelude.{◌≡◌};
ghost use Rattle.ds_policy.specs.Grants.{forbidden_by};
ghost use Rattle.ds_policy.specs.Words.{right_word};

use ds_text::words;

/// What an entry allows.
#[derive(Clone, Copy, Debug, PartialEq, Eq)]
pub enum Right {
    Nothing,
    Read,
    Write,
}

impl Right {
    /// The word for it in a policy and an input.
    pub fn word(self) -> &'static str
        ensures { result.now ≡ right_word self }
    {
        match self {
            Right::Nothing => words::NONE,
            Right::Read => words::READ,
            Right::Write => words::WRITE,
        }
    }
}

/// Where an entry stands: the process that has it, and its page address.
#[derive(Clone, Copy, Debug, PartialEq, Eq)]
pub struct EntryPlace {
    pub process: u32,
    pub address: u32,
}

/// What a process was granted at a page address.
#[derive(Clone, Copy, Debug, PartialEq, Eq)]
pub struct Grant {
    pub right: Right,
    /// The page's number; there is one where there is a right.
    pub page: Option<u32>,
    /// The number of the rule that granted it, or of the command that took its right away.
    pub rule: u32,
    /// Whether the process may give it on.
    pub give: bool,
    /// The process that gave it, or 0 for the policy and the operator.
    pub giver: u32,
    /// The entry that it was shared from, or the nearest above that one which stands; none of what the
    /// policy or the operator granted, and of a copy.
    pub parent: Option<EntryPlace>,
    /// The time, in ticks, at which its right ends, if it does by itself.
    pub until: Option<u32>,
}

/// An entry of the table: a page address and what is granted there.
#[derive(Clone, Copy, Debug, PartialEq, Eq)]
pub struct Entry {
    pub address: u32,
    pub grant: Grant,
}

/// What is left of an entry whose right was taken by a rule: the rule alone.
pub fn forbidden_by(rule: u32) -> Grant
    ensures { result ≡ forbidden_by rule }
{
    Grant {
        right: Right::Nothing,
        page: None,
        rule,
        give: false,
        giver: 0,
        parent: None,
        until: None,
    }
}
