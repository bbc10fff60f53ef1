//! Why a check is refused, in words.
ghost use Rattle.std.specs.Prelude.{◌≡◌, ◌++◌, IfOk, OnOk, codes, decimal, is_some, option_map};
ghost use Rattle.ds_check.specs.Mending.{mended};
ghost use Rattle.ds_drive.specs.Told.{none_passed, reason_after, reason_told, text_or_none, why_input, why_policy, why_source};
ghost use Rattle.ds_source_reasons.specs.Told.{fault_text};
ghost use Rattle.ds_source_reasons.specs.Inner.Told.{plain_fault};

use crate::refused::{FaultyInput, FaultySource, Refused};
use ds_asm::SourceFault;
use ds_check::mend_text;
use ds_policy_reasons::{PolicyReason, input_cause_text, policy_reason_text};
use ds_source_reasons::{FaultReason, FaultyLines, push_reason};
use ds_text::sheet::push_decimal;
use std::alloc::AllocError;

/// Adds why a check is refused, and answers whether a reason is known.
pub(crate) fn push_reason_told<'a>(
    sheet: &mut Vec<u8>,
    refused: &Refused<'a>,
) -> Result<bool, AllocError>
    ensures { IfOk result (λ is_known. (is_known ≡ is_some (reason_told refused.now))
        × (sheet.new.items ≡ sheet.old.items ++ text_or_none (reason_told refused.now))) }
{
    if let Some(reason) = source_reason(&refused.source) {
        push_reason(sheet, reason)?;
        return Ok(true);
    }
    if let Some(reason) = refused.reason {
        push_policy_reason(sheet, reason)?;
        return Ok(true);
    }
    match input_text(&refused.input) {
        Some(words) => {
            sheet.extend_from_slice(words.as_bytes())?;
            Ok(true)
        }
        None => Ok(false),
    }
}

/// The reason of the first fault of a source that is at fault, where one is.
fn source_reason(source: &Option<FaultySource>) -> Option<FaultReason<'_>>
    ensures { option_map fault_text (option_map plain_fault result) ≡ why_source source.now }
{
    match source {
        Some(source) => match source.faults.first() {
            Some(first) => first_reason(&source.text, first),
            None => None,
        },
        None => None,
    }
}

/// The reason of the first fault of a source.
pub(crate) fn first_reason<'s>(text: &'s [u8], first: &SourceFault) -> Option<FaultReason<'s>>
    ensures { option_map plain_fault result ≡ reason_after (none_passed text.now) first.now }
{
    FaultyLines::of(text).reason(*first)
}

/// What is wrong with the line of an input that is at fault, where it is known.
fn input_text(input: &Option<FaultyInput>) -> Option<&'static str>
    ensures { option_map (λ s. s.now) result ≡ why_input input.now }
{
    match input {
        Some(input) => match input.cause {
            Some(cause) => Some(input_cause_text(cause)),
            None => None,
        },
        None => None,
    }
}

/// Adds why a policy is refused, after the number of the process or of the page.
fn push_policy_reason(sheet: &mut Vec<u8>, reason: PolicyReason) -> Result<(), AllocError>
    ensures { OnOk result (sheet.new.items ≡ sheet.old.items ++ why_policy reason) }
{
    match reason {
        PolicyReason::Process { number, .. } => push_which(sheet, b"in process ", number)?,
        PolicyReason::Page { number, .. } => push_which(sheet, b"in page ", number)?,
        _ => {}
    }
    sheet.extend_from_slice(policy_reason_text(reason).as_bytes())
}

fn push_which(sheet: &mut Vec<u8>, what: &[u8], number: u32) -> Result<(), AllocError>
    ensures { OnOk result (sheet.new.items
        ≡ sheet.old.items ++ (what.now ++ (decimal number ++ codes " of the policy\n"))) }
{
    sheet.extend_from_slice(what)?;
    push_number(sheet, number)
}

fn push_number(sheet: &mut Vec<u8>, number: u32) -> Result<(), AllocError>
    ensures { OnOk result (sheet.new.items
        ≡ sheet.old.items ++ (decimal number ++ codes " of the policy\n")) }
{
    push_decimal(sheet, u64::from(number))?;
    sheet.extend_from_slice(b" of the policy\n")
}

/// Adds how a refusal of this number is mended, where that is known.
pub(crate) fn push_mending(sheet: &mut Vec<u8>, number: u32) -> Result<(), AllocError>
    ensures { OnOk result (sheet.new.items ≡ sheet.old.items ++ text_or_none (mended number)) }
{
    match mend_text(number) {
        Some(words) => sheet.extend_from_slice(words.as_bytes()),
        None => Ok(()),
    }
}
