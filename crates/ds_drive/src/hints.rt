//! What is told besides of a policy that is refused: the key that no policy has, or that the text is a
//! source.
ghost use Rattle.std.specs.Prelude.{◌≡◌, ◌++◌, OnOk};
ghost use Rattle.ds_policy_reasons.specs.Keys.{odd_key};
ghost use Rattle.ds_drive.specs.Hints.{hint_if, hint_of, is_no_document, is_other_key, is_other_of_page, is_other_of_process, is_other_of_rule, odd_told, policy_hint, source_hint};

use crate::refused::FaultyPolicy;
use ds_policy_reasons::{
    PageCause, PolicyReason, ProcessCause, RuleCause, odd_key, push_odd_key, reads_as_policy,
    reads_as_source,
};
use std::alloc::AllocError;

/// What is told where a policy is refused that is a source.
const SOURCE_GIVEN: &str = "\
The text reads as a source and not as a policy. `dsmon list` takes a source,
and a policy names it: `source = \"one.s\"` in a `[[page]]`.
";

/// What is told where a source is refused that is a policy.
const POLICY_GIVEN: &str = "\
The text reads as a policy and not as a source. `dsmon check` and `dsmon run`
take a policy.
";

/// Adds what is told of a policy that is at fault in a place that is known, besides this reason.
pub(crate) fn push_policy_hint(
    sheet: &mut Vec<u8>,
    policy: &Option<FaultyPolicy>,
    reason: Option<PolicyReason>,
) -> Result<(), AllocError>
    ensures { OnOk result (sheet.new.items
        ≡ sheet.old.items ++ policy_hint policy.now reason) }
{
    match policy {
        Some(policy) => push_hint_if(sheet, &policy.text, reason),
        None => Ok(()),
    }
}

fn push_hint_if(
    sheet: &mut Vec<u8>,
    text: &[u8],
    reason: Option<PolicyReason>,
) -> Result<(), AllocError>
    ensures { OnOk result (sheet.new.items ≡ sheet.old.items ++ hint_if text.now reason) }
{
    match reason {
        Some(reason) => push_hint(sheet, text, reason),
        None => Ok(()),
    }
}

/// Adds what is told of a text besides the reason for which it is refused.
fn push_hint(sheet: &mut Vec<u8>, text: &[u8], reason: PolicyReason) -> Result<(), AllocError>
    ensures { OnOk result (sheet.new.items ≡ sheet.old.items ++ hint_of text.now reason) }
{
    if is_other_key(reason) {
        push_odd(sheet, text)
    } else if is_no_document(reason) && reads_as_source(text) {
        sheet.extend_from_slice(SOURCE_GIVEN.as_bytes())
    } else {
        Ok(())
    }
}

/// Adds the words of the first key that no policy has, where there is one.
fn push_odd(sheet: &mut Vec<u8>, text: &[u8]) -> Result<(), AllocError>
    ensures { OnOk result (sheet.new.items ≡ sheet.old.items ++ odd_told (odd_key text.now)) }
{
    match odd_key(text) {
        Some(key) => push_odd_key(sheet, key),
        None => Ok(()),
    }
}

/// Whether a policy is refused for a key that does not belong where it stands.
fn is_other_key(reason: PolicyReason) -> bool
    ensures { result ≡ is_other_key reason }
{
    match reason {
        PolicyReason::OtherKey => true,
        PolicyReason::Process { cause, .. } => is_other_of_process(cause),
        PolicyReason::Page { cause, .. } => is_other_of_page(cause),
        PolicyReason::Rule { cause, .. } => is_other_of_rule(cause),
        PolicyReason::NotToml
        | PolicyReason::BadVersion
        | PolicyReason::BadFrames
        | PolicyReason::BadRate
        | PolicyReason::ProcessCount
        | PolicyReason::PageCount
        | PolicyReason::RuleCount => false,
    }
}

fn is_other_of_process(cause: ProcessCause) -> bool
    ensures { result ≡ is_other_of_process cause }
{
    match cause {
        ProcessCause::OtherKey => true,
        ProcessCause::NotTable | ProcessCause::BadStart | ProcessCause::BadLine => false,
    }
}

fn is_other_of_page(cause: PageCause) -> bool
    ensures { result ≡ is_other_of_page cause }
{
    match cause {
        PageCause::OtherKey => true,
        PageCause::NotTable
        | PageCause::BadName
        | PageCause::BadSource
        | PageCause::BadPart
        | PageCause::SameName => false,
    }
}

fn is_other_of_rule(cause: RuleCause) -> bool
    ensures { result ≡ is_other_of_rule cause }
{
    match cause {
        RuleCause::OtherKey => true,
        RuleCause::NotTable
        | RuleCause::UntilOfVersion1
        | RuleCause::BadProcess
        | RuleCause::BadAddress
        | RuleCause::BadRight
        | RuleCause::PageOfNone
        | RuleCause::UntilOfNone
        | RuleCause::BadPage
        | RuleCause::BadGive
        | RuleCause::BadUntil
        | RuleCause::SamePlace
        | RuleCause::TooManyRules
        | RuleCause::FifthRegion => false,
    }
}

/// Whether a policy is refused as no document.
fn is_no_document(reason: PolicyReason) -> bool
    ensures { result ≡ is_no_document reason }
{
    match reason {
        PolicyReason::NotToml => true,
        PolicyReason::OtherKey
        | PolicyReason::BadVersion
        | PolicyReason::BadFrames
        | PolicyReason::BadRate
        | PolicyReason::ProcessCount
        | PolicyReason::Process { .. }
        | PolicyReason::PageCount
        | PolicyReason::Page { .. }
        | PolicyReason::RuleCount
        | PolicyReason::Rule { .. } => false,
    }
}

/// Adds what is told of a source that is refused, and is a policy.
pub(crate) fn push_source_hint(sheet: &mut Vec<u8>, text: &[u8]) -> Result<(), AllocError>
    ensures { OnOk result (sheet.new.items ≡ sheet.old.items ++ source_hint text.now) }
{
    if reads_as_policy(text) {
        sheet.extend_from_slice(POLICY_GIVEN.as_bytes())
    } else {
        Ok(())
    }
}
