//! Why something was denied: the reason, by the rule and the code of a line of the log, and by the
//! entry that was there.
ghost use Rattle.std.specs.Prelude.{◌≡◌, ◌==◌};
ghost use Rattle.ds_log_reasons.specs.Reasons.{access_reason, fault_reason, give_reason, grants, is_givable, grants_writing, number_reason, read_reason, denial_reason_of, right_reason, taken_reason};

use ds_log::Denied;
use ds_policy::{Grant, PolicyRule, Right, Rule};

/// Why an access, an instruction or a give was denied.
#[derive(Clone, Copy, Debug, PartialEq, Eq)]
pub enum Reason {
    /// The process has no entry there.
    NoEntry,
    /// The process has no entry where its next instruction would be.
    NoCode,
    /// The rule of the policy grants nothing.
    Forbidden,
    /// The right has ended by itself.
    Ended,
    /// A command took the right away.
    Revoked,
    /// The rule of the policy grants reading alone.
    ReadAlone,
    /// A command narrowed the right to reading.
    Narrowed,
    /// What a command granted may be read alone.
    GrantedToRead,
    /// What another process gave may be read alone.
    GivenToRead,
    /// The address is not a multiple of the size.
    Unaligned,
    /// No process may use the upper half of the addresses.
    Kernel,
    /// A call in the slot of a branch.
    CallInSlot,
    /// `break`.
    Breakpoint,
    /// The word is no instruction.
    NoInstruction,
    /// A branch in the slot of a branch.
    BranchInSlot,
    /// An instruction of a coprocessor.
    Coprocessor,
    /// A sum or a difference that does not fit.
    Overflow,
    /// A give to a process that there is not, or that has ended.
    NoReceiver,
    /// A give from or to what is no address of a page.
    NoPage,
    /// The giver has nothing there that it could give.
    NothingToGive,
    /// What the giver has may not be given on.
    MayNotGive,
    /// The mode of the give is none, or asks for more than the giver has.
    WrongMode,
    /// The receiver has an entry there.
    IsTaken,
    /// The receiver has as many entries as it can have.
    IsFull,
    /// The receiver has no room for another region.
    FifthRegion,
    /// There is no page for a copy.
    NoCopy,
    /// No line of a log has this.
    Unknown,
}

/// Whether a rule of the policy grants something.
fn grants(said: Option<PolicyRule>) -> bool
    ensures { result ≡ grants said }
{
    match said {
        Some(rule) => match rule.right {
            Right::Nothing => false,
            Right::Read | Right::Write => true,
        },
        None => false,
    }
}

/// Whether a rule of the policy grants writing.
fn grants_writing(said: Option<PolicyRule>) -> bool
    ensures { result ≡ grants_writing said }
{
    match said {
        Some(rule) => match rule.right {
            Right::Write => true,
            Right::Nothing | Right::Read => false,
        },
        None => false,
    }
}

/// Why an entry without a right has none.
fn taken_reason(rule: u32, said: Option<PolicyRule>) -> Reason
    ensures { result ≡ taken_reason rule said }
{
    if rule > 1000 {
        Reason::Revoked
    } else if grants(said) {
        Reason::Ended
    } else {
        Reason::Forbidden
    }
}

/// Why an entry may be read alone.
fn read_reason(rule: u32, giver: u32, said: Option<PolicyRule>) -> Reason
    ensures { result ≡ read_reason rule giver said }
{
    if giver != 0 {
        Reason::GivenToRead
    } else if rule > 1000 {
        Reason::GrantedToRead
    } else if grants_writing(said) {
        Reason::Narrowed
    } else {
        Reason::ReadAlone
    }
}

/// Why an access was denied, by what the policy's rule of the number of the entry there says, if there
/// is an entry; else it is this reason.
fn access_reason(none: Reason, granted: Option<Grant>, said: Option<PolicyRule>) -> Reason
    ensures { result ≡ access_reason none granted said }
{
    match granted {
        None => none,
        Some(grant) => match grant.right {
            Right::Nothing => taken_reason(grant.rule, said),
            Right::Read => read_reason(grant.rule, grant.giver, said),
            Right::Write => Reason::Unknown,
        },
    }
}

/// Whether what is granted may be given on.
fn is_givable(granted: Option<Grant>) -> bool
    ensures { result ≡ is_givable granted }
{
    match granted {
        Some(grant) => grant.give,
        None => false,
    }
}

/// Why a give was refused by this number, by the giver's entry.
fn give_reason(number: u32, granted: Option<Grant>) -> Reason
    ensures { result ≡ give_reason number granted }
{
    if number == 11 {
        Reason::FifthRegion
    } else if number == 12 {
        Reason::NoReceiver
    } else if number == 13 {
        Reason::NoPage
    } else if number == 14 {
        Reason::NothingToGive
    } else if number == 15 {
        if is_givable(granted) {
            Reason::WrongMode
        } else {
            Reason::MayNotGive
        }
    } else if number == 16 {
        Reason::IsTaken
    } else if number == 17 {
        Reason::IsFull
    } else if number == 18 {
        Reason::NoCopy
    } else {
        Reason::Unknown
    }
}

/// Why something was denied by a numbered rule, or by none.
fn number_reason(
    kind: Denied,
    answer: u32,
    granted: Option<Grant>,
    said: Option<PolicyRule>,
) -> Reason
    ensures { result ≡ number_reason kind answer granted said }
{
    match kind {
        Denied::Give => give_reason(answer, granted),
        Denied::Fetch => access_reason(Reason::NoCode, granted, said),
        Denied::Load | Denied::Store | Denied::Exec => {
            access_reason(Reason::NoEntry, granted, said)
        }
    }
}

/// Why an instruction faulted, by the code, and by whether it is a branch.
fn fault_reason(code: u32, branch: bool) -> Reason
    ensures { result ≡ fault_reason code branch }
{
    if code == 8 {
        Reason::CallInSlot
    } else if code == 9 {
        Reason::Breakpoint
    } else if code == 10 {
        if branch {
            Reason::BranchInSlot
        } else {
            Reason::NoInstruction
        }
    } else if code == 11 {
        Reason::Coprocessor
    } else if code == 12 {
        Reason::Overflow
    } else {
        Reason::Unknown
    }
}

/// Why something was denied: by what was denied, the rule and the code of its line, what was answered
/// to a give, the entry that the process had there, what the policy's rule of that entry's number
/// says, and whether the instruction is a branch.
pub fn denial_reason_of(
    kind: Denied,
    rule: Rule,
    code: u32,
    answer: u32,
    granted: Option<Grant>,
    said: Option<PolicyRule>,
    branch: bool,
) -> Reason
    ensures { result ≡ denial_reason_of kind rule code answer granted said branch }
{
    match rule {
        Rule::Number(_) => number_reason(kind, answer, granted, said),
        Rule::K => Reason::Kernel,
        Rule::A => Reason::Unaligned,
        Rule::I => fault_reason(code, branch),
    }
}
