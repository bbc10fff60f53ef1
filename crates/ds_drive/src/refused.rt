//! What a check refuses, and what is at fault then.
ghost use Rattle.std.specs.Prelude.{◌≡◌, ◌<◌, ◌≤◌, ℕ, List, length, None, IfOk, IfSome, position, bytes_eq};
ghost use Rattle.ds_policy_reasons.specs.Reasons.{policy_reason};
ghost use Rattle.ds_drive.specs.AtFault.{IsInputAt, IsPlaceAt, IsReasonAt, IsSourceAt, IsSourceOf, place_told, plain};
ghost use Rattle.ds_drive.specs.Inner.AtFault.{IsCauseOf, texts_seen};
ghost use Rattle.ds_drive.specs.Failures.{memory_failure};
ghost use Rattle.ds_drive.specs.declared.failure.Failure.TheVariants as failure;

use crate::failure::Failure;
use crate::policy_place::reason_place;
use crate::run::SourceText;
use ds_asm::{SourceFault, all_faults};
use ds_check::{Place, toml_place};
use ds_policy::{OutOfMemory, Policy};
use ds_policy_reasons::{InputCause, PolicyReason, input_reason};
use ds_station::Fault;
use std::alloc::{AllocError, Global};

/// A source that is at fault.
#[derive(Drop)]
pub struct FaultySource {
    /// Its text.
    pub text: Vec<u8>,
    /// All its faults.
    pub faults: Vec<SourceFault>,
}

/// An input that is at fault.
#[derive(Drop)]
pub struct FaultyInput {
    /// Its text.
    pub text: Vec<u8>,
    /// The number of the line that is at fault, from 1.
    pub line: u64,
    /// What is wrong with that line.
    pub cause: Option<InputCause>,
}

/// A policy that is at fault.
#[derive(Drop)]
pub struct FaultyPolicy {
    /// Its text.
    pub text: Vec<u8>,
    /// Where the fault is.
    pub place: Place,
}

/// What a check refuses.
#[derive(Drop)]
pub struct Refused<'a> {
    /// The refusal as a run tells it.
    pub failure: Failure<'a>,
    /// The source that is at fault, where one is.
    pub source: Option<FaultySource>,
    /// The input that is at fault, where it is.
    pub input: Option<FaultyInput>,
    /// Why the policy is refused, where it is.
    pub reason: Option<PolicyReason>,
    /// The policy that is at fault, where it is and the place in it is known.
    pub policy: Option<FaultyPolicy>,
}

impl<'a> Refused<'a> {
    /// A refusal of which nothing is known besides.
    pub(crate) fn plain(failure: Failure<'a>) -> Refused<'a>
        ensures { result ≡ plain failure.entry }
    {
        Refused {
            failure,
            source: None,
            input: None,
            reason: None,
            policy: None,
        }
    }

    /// A refusal of the policy that has this text, of which this is the reason, if there is memory to
    /// find its place.
    pub(crate) fn of_policy(
        alloc: Global,
        fault: Fault,
        text: Vec<u8>,
        reason: Option<PolicyReason>,
    ) -> Result<Refused<'a>, OutOfMemory>
        requires { length text.items ≤ 16777216 }
        ensures failure { IfOk result (λ r. r.failure ≡ failure.Fault fault) }
        ensures policy { IfOk result (λ r. IfSome r.policy (λ p. p.text.items ≡ text.items)) }
        ensures place { (reason ≡ policy_reason text.items)
            → IfOk result (λ r. IsPlaceAt fault text.items (place_told r.policy)) }
        ensures reason { (reason ≡ policy_reason text.items)
            → IfOk result (λ r. IsReasonAt fault text.items r.reason) }
        ensures others { IfOk result (λ r. (r.source ≡ None) × (r.input ≡ None)) }
    {
        let policy = faulty_policy(alloc, &fault, text, reason)?;
        let reason = reason_for(&fault, reason);
        Ok(Refused {
            failure: Failure::Fault(fault),
            source: None,
            input: None,
            reason,
            policy,
        })
    }

    /// A refusal of what is read after the policy: of one of these sources, or of the input, of
    /// which this is what is wrong with the line, if there is memory for all faults of the source.
    pub(crate) fn of_texts(
        alloc: Global,
        fault: Fault,
        texts: Vec<SourceText>,
        input: Vec<u8>,
        cause: Option<InputCause>,
    ) -> Result<Refused<'a>, OutOfMemory>
        ensures failure { IfOk result (λ r. r.failure ≡ failure.Fault fault) }
        ensures source { IfOk result (λ r. IsSourceAt fault (texts_seen texts.items) r.source) }
        ensures input { IfOk result (λ r. IsInputAt fault input.items r.input) }
        ensures cause { IfOk result (λ r. IfSome r.input (λ i. i.cause ≡ cause)) }
        ensures others { IfOk result (λ r. (r.reason ≡ None) × (r.policy ≡ None)) }
    {
        let source = faulty_source(alloc, &fault, texts)?;
        let input = faulty_input(&fault, input, cause);
        Ok(Refused {
            failure: Failure::Fault(fault),
            source,
            input,
            reason: None,
            policy: None,
        })
    }
}

/// The policy that has this text, if it is at fault in a place that is known.
fn faulty_policy(
    alloc: Global,
    fault: &Fault,
    text: Vec<u8>,
    reason: Option<PolicyReason>,
) -> Result<Option<FaultyPolicy>, OutOfMemory>
    requires { length text.items ≤ 16777216 }
    ensures text { IfOk result (λ told. IfSome told (λ p. p.text.items ≡ text.items)) }
    ensures place { (reason ≡ policy_reason text.items)
        → IfOk result (λ told. IsPlaceAt fault.now text.items (place_told told)) }
{
    match place_in(alloc, fault, &text, reason)? {
        Some(place) => Ok(Some(FaultyPolicy { text, place })),
        None => Ok(None),
    }
}

/// Where in its text a policy is at fault, where that is known.
fn place_in(
    alloc: Global,
    fault: &Fault,
    text: &[u8],
    reason: Option<PolicyReason>,
) -> Result<Option<Place>, OutOfMemory>
    requires { length text.now ≤ 16777216 }
    ensures { (reason ≡ policy_reason text.now)
        → IfOk result (λ place. IsPlaceAt fault.now text.now place) }
{
    match fault {
        Fault::BadToml => {
            let place = toml_place(alloc, text)?;
            Ok(place)
        }
        Fault::BadRule(_) | Fault::Limit(_) => match reason {
            Some(reason) => Ok(reason_place(text, reason)),
            None => Ok(None),
        },
        _ => Ok(None),
    }
}

/// The reason of a fault, if it is the policy's.
fn reason_for(fault: &Fault, reason: Option<PolicyReason>) -> Option<PolicyReason>
    ensures { (text : List ℕ) → (reason ≡ policy_reason text) → IsReasonAt fault.now text result }
{
    match fault {
        Fault::BadToml | Fault::BadRule(_) | Fault::Limit(_) => reason,
        _ => None,
    }
}

/// What is wrong with the line of an input where that is the fault.
pub(crate) fn cause_of(
    alloc: Global,
    policy: &Policy,
    fault: &Fault,
    input: &[u8],
) -> Result<Option<InputCause>, OutOfMemory>
    ensures { IfOk result (λ cause. IsCauseOf fault.now policy.now.pages input.now cause) }
{
    match fault {
        Fault::InputFault(_) => match input_reason(alloc, policy, input)? {
            Some(reason) => Ok(Some(reason.cause)),
            None => Ok(None),
        },
        _ => Ok(None),
    }
}

/// The input with what is wrong in its line, if it is at fault.
fn faulty_input(fault: &Fault, text: Vec<u8>, cause: Option<InputCause>) -> Option<FaultyInput>
    ensures input { IsInputAt fault.now text.items result }
    ensures cause { IfSome result (λ i. i.cause ≡ cause) }
{
    match fault {
        Fault::InputFault(line) => Some(FaultyInput {
            text,
            line: *line,
            cause,
        }),
        _ => None,
    }
}

/// The source that is at fault with all its faults, if one is.
fn faulty_source(
    alloc: Global,
    fault: &Fault,
    texts: Vec<SourceText>,
) -> Result<Option<FaultySource>, OutOfMemory>
    ensures { IfOk result (λ told. IsSourceAt fault.now (texts_seen texts.items) told) }
{
    match fault {
        Fault::InSource { name, .. } => source_named(alloc, name.as_str(), texts),
        _ => Ok(None),
    }
}

/// The first source of this name with all its faults, if there is one.
fn source_named(
    alloc: Global,
    name: &str,
    mut texts: Vec<SourceText>,
) -> Result<Option<FaultySource>, OutOfMemory>
    ensures { IfOk result (λ told. IsSourceOf name.now (texts_seen texts.items) told) }
{
    let Some(index) = place_of_name(&texts, name) else {
        return Ok(None);
    };
    let text = texts.swap_remove(index).text;
    let faults = all_faults(alloc, &text)?;
    Ok(Some(FaultySource { text, faults }))
}

/// The place of the first source of this name.
fn place_of_name(texts: &[SourceText], name: &str) -> Option<usize>
    ensures { result ≡ position (λ s. bytes_eq s.name name.now) texts.now }
{
    texts.iter().position(|source| source.name.as_str() == name)
}

impl<'a> From<Failure<'a>> for Refused<'a> {
    ghost from_gives = { λ e r. r ≡ plain e };

    fn from(failure: Failure<'a>) -> Refused<'a> {
        Refused::plain(failure)
    }
}

impl<'a> From<OutOfMemory> for Refused<'a> {
    ghost from_gives = { λ _ r. r ≡ plain memory_failure };

    fn from(_e: OutOfMemory) -> Refused<'a> {
        Refused::plain(Failure::Fault(Fault::Memory))
    }
}

impl<'a> From<AllocError> for Refused<'a> {
    ghost from_gives = { λ _ r. r ≡ plain memory_failure };

    fn from(_e: AllocError) -> Refused<'a> {
        Refused::plain(Failure::Fault(Fault::Memory))
    }
}
