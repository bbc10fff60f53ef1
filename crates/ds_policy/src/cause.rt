//! What can be wrong with a policy.
ghost use Rattle.std.specs.Prelude.{Err};
ghost use Rattle.ds_policy.specs.Refusal.{refusal_of};
ghost use Rattle.ds_policy.specs.Inner.Refusal.{Fails};
ghost use Rattle.ds_policy.specs.Value.{PolicyValue};

use crate::fault::PolicyFault;

/// Why a policy is refused. Processes, pages and rules count from 1.
#[derive(Clone, Copy, Debug, PartialEq, Eq)]
pub enum PolicyReason {
    /// It is no TOML document in UTF-8.
    NotToml,
    /// It has a root key of another name.
    OtherKey,
    /// `version` is missing, or neither 1 nor 2.
    BadVersion,
    /// `frames` is missing, or no integer from 1 to 1024.
    BadFrames,
    /// `rate` is neither 0 nor an integer from 3 to 15.
    BadRate,
    /// `process` is no array of 1 to 100.
    ProcessCount,
    /// The first process with which something is wrong.
    Process { number: u32, cause: ProcessCause },
    /// `page` is no array, or has more items than there are frames.
    PageCount,
    /// The first page with which something is wrong.
    Page { number: u32, cause: PageCause },
    /// `rule` is no array of at most 999.
    RuleCount,
    /// The first rule with which something is wrong.
    Rule { number: u32, cause: RuleCause },
}

/// What is wrong with a process. Where several hold, the first in this order is told.
#[derive(Clone, Copy, Debug, PartialEq, Eq)]
pub enum ProcessCause {
    /// It is no table.
    NotTable,
    /// It has a key besides `start` and `line`.
    OtherKey,
    /// `start` is missing, or no integer from 0 to 4294967295.
    BadStart,
    /// `line` is missing, or no integer from 0 to 3.
    BadLine,
}

/// What is wrong with a page. Where several hold, the first in this order is told.
#[derive(Clone, Copy, Debug, PartialEq, Eq)]
pub enum PageCause {
    /// It is no table.
    NotTable,
    /// It has a key besides `name`, `source` and `part`.
    OtherKey,
    /// `name` is missing, or is not 1 to 16 characters from `a` to `z` and `0` to `9`.
    BadName,
    /// `source` is missing where there is a `part`, or is no name of a source.
    BadSource,
    /// `part` is missing where there is a `source`, or is no integer from 0 to 15.
    BadPart,
    /// An earlier page has the name.
    SameName,
}

/// What is wrong with a rule. Where several hold, the first in this order is told.
#[derive(Clone, Copy, Debug, PartialEq, Eq)]
pub enum RuleCause {
    /// It is no table.
    NotTable,
    /// It has a key besides `process`, `address`, `right`, `page`, `give` and `until`.
    OtherKey,
    /// It has an `until` in a policy of version 1.
    UntilOfVersion1,
    /// `process` is missing, or not the number of a process of the policy.
    BadProcess,
    /// `address` is missing, or no multiple of 4096 below 0x80000000.
    BadAddress,
    /// `right` is missing, or none of `"none"`, `"read"` and `"write"`.
    BadRight,
    /// `right = "none"` stands with a `page` or a `give`.
    PageOfNone,
    /// `right = "none"` stands with an `until`.
    UntilOfNone,
    /// `page` is missing, or not the name of a page of the policy.
    BadPage,
    /// `give` is neither `true` nor `false`.
    BadGive,
    /// `until` is no integer from 1 to 1000000000.
    BadUntil,
    /// An earlier rule has its process and its address.
    SamePlace,
    /// It is the 257th rule of its process.
    TooManyRules,
    /// It is in a fifth region of its process.
    FifthRegion,
}

impl PolicyReason {
    /// The refusal.
    pub fn fault(self) -> PolicyFault
        ensures { Fails {Y = PolicyValue} result (Err (refusal_of self)) }
    {
        match self {
            PolicyReason::NotToml => PolicyFault::BadToml,
            PolicyReason::OtherKey => PolicyFault::Limit("key"),
            PolicyReason::BadVersion => PolicyFault::Limit("version"),
            PolicyReason::BadFrames => PolicyFault::Limit("frames"),
            PolicyReason::BadRate => PolicyFault::Limit("rate"),
            PolicyReason::ProcessCount | PolicyReason::Process { .. } => {
                PolicyFault::Limit("process")
            }
            PolicyReason::PageCount | PolicyReason::Page { .. } => PolicyFault::Limit("page"),
            PolicyReason::RuleCount => PolicyFault::Limit("rule"),
            PolicyReason::Rule { number, .. } => PolicyFault::BadRule(number),
        }
    }
}
