//! A policy, its sources and an input checked and explained.
ghost use Rattle.std.specs.Prelude.{◌≡◌, ◌⊎◌, ◌<◌, ◌++◌, ℕ, List, IfErr, IfOk, OnOk, OnErr};
ghost use Rattle.std.specs.Io.KnownBytes.{Keeps};
ghost use Rattle.ds_drive.specs.Inner.AtFault.{texts_seen};
ghost use Rattle.ds_drive.specs.Noted.{input_notes};
ghost use Rattle.ds_drive.specs.Checked.{AreGood, ChecksBy, IsInput, RefusesCheck, are_faults, with_notes, with_ties};
ghost use Rattle.ds_drive.specs.Inner.Checked.{Checks, IsUnreadInput};
ghost use Rattle.ds_drive.specs.Reading.{ReadsAll, ReadsRunUntil, ReadsUntil, input_names};
ghost use Rattle.ds_drive.specs.Inner.Reading.{ReadsRun, TellsOf, TellsOfRun};

use crate::failure::Failure;
use crate::files::Files;
use crate::notes::{Findings, findings_of, input_notes};
use crate::refused::{Refused, cause_of};
use crate::run::{SourceText, lent, named_file, source_texts};
use ds_check::explain;
use ds_policy::{Events, Policy};
use ds_policy_reasons::policy_reason;
use ds_station::{Fault, run_policy};
use ds_text::send;
use ds_ties::ties_text;
use ds_words::CheckRequest;
use std::alloc::{AllocError, Global};
use std::io::{Write, sink};

/// What came of a check.
#[derive(Drop)]
pub enum Checking {
    /// What it means was written, with the notes.
    Explained,
    /// There are these notes, which are taken for faults, and nothing was written.
    Noted(Vec<u8>),
}

/// A policy, its sources and an input that are good together.
#[derive(Drop)]
struct Good {
    policy: Policy,
    texts: Vec<SourceText>,
    input: Vec<u8>,
    events: Events,
    /// The notes on the input, as text.
    notes: Vec<u8>,
}

/// The bytes of the input's file; none where no file is named.
#[tactic(auto, using(crate::proofs::Readings::none_read))]
pub(crate) fn input_of<'a, F: Files>(
    alloc: Global,
    files: &mut F,
    name: Option<&'a str>,
) -> Result<Vec<u8>, Failure<'a>>
    ensures found { IfOk result (λ bytes. IsInput (F.holds files.old) name.entry bytes.items) }
    ensures unread { IfErr result (IsUnreadInput (F.lacks files.old) name.entry) }
    ensures reads { OnOk result (ReadsAll (input_names name.entry)
        (F.asked files.old) (F.asked files.new)) }
    ensures reads_until { IfErr result (λ f. ReadsUntil (TellsOf f) (input_names name.entry)
        (F.asked files.old) (F.asked files.new)) }
    ensures kept { (file bytes : List ℕ) → F.holds files.new file bytes
        → F.holds files.old file bytes }
    ensures lacked { (file : List ℕ) → F.lacks files.new file → F.lacks files.old file }
{
    match name {
        Some(name) => named_file(alloc, files, name),
        None => Ok(Vec::new(alloc)),
    }
}

/// Reads the policy, the input and each source, as a run would, and answers what a run would refuse.
/// Once a run of no ticks has taken the input, only want of memory refuses it.
#[tactic(auto, using(crate::proofs::Stops::check_unread, crate::proofs::Stops::check_input_unread, crate::proofs::Stops::check_source_unread, crate::proofs::Stops::memory_refuses, crate::proofs::Readings::policy_unread_until, crate::proofs::Readings::source_unread_until, crate::proofs::Readings::run_read, crate::proofs::Readings::all_read_until))]
fn read_good<'a, F: Files>(
    alloc: Global,
    request: &CheckRequest<'a>,
    files: &mut F,
) -> Result<Good, Refused<'a>>
    ensures good { IfOk result (λ good. AreGood (F.holds files.old) request.now
        good.policy (texts_seen good.texts.items) good.input.items good.events) }
    ensures notes { IfOk result (λ good. good.notes.items ≡ input_notes good.events) }
    ensures refused { IfErr result (λ r. RefusesCheck r (F.holds files.old)
        (F.lacks files.old) request.now) }
    ensures reads { OnOk result (ReadsRun (F.holds files.old) request.now.policy.now
        (input_names request.now.input) (F.asked files.old) (F.asked files.new)) }
    ensures reads_until { IfErr result (λ r. ReadsRunUntil
        (TellsOfRun request.now.inside r.failure) (F.holds files.old) request.now.policy.now (input_names request.now.input)
        (F.asked files.old) (F.asked files.new)) }
    ensures kept { (file bytes : List ℕ) → F.holds files.new file bytes
        → F.holds files.old file bytes }
    ensures lacked { (file : List ℕ) → F.lacks files.new file → F.lacks files.old file }
{
    let text = named_file(alloc, files, request.policy)?;
    let input = input_of(alloc, files, request.input)?;
    let policy = match Policy::read(alloc, &text) {
        Ok(policy) => policy,
        Err(fault) => {
            let reason = policy_reason(alloc, &text)?;
            let refused = Refused::of_policy(alloc, Fault::from(fault), text, reason)?;
            return Err(refused);
        }
    };
    let texts = source_texts(alloc, files, policy.sources(), request.inside)?;
    let sources = lent(alloc, texts.as_slice())?;
    match run_policy(
        alloc,
        &policy,
        sources.as_slice(),
        input.as_slice(),
        0,
        63,
        &mut sink(),
    ) {
        Ok(()) => drop(sources),
        Err(fault) => {
            drop(sources);
            let cause = cause_of(alloc, &policy, &fault, &input)?;
            let refused = Refused::of_texts(alloc, fault, texts, input, cause)?;
            return Err(refused);
        }
    }
    let notes = input_notes(alloc, &policy, &input)?;
    match Events::read(alloc, input.as_slice(), &policy) {
        Ok(events) => Ok(Good {
            policy,
            texts,
            input,
            events,
            notes,
        }),
        Err(_) => Err(Refused::from(Failure::Fault(Fault::Memory))),
    }
}

/// Whether these notes are taken for faults: the words say so, and there is one.
fn are_faults<'a>(request: &CheckRequest<'a>, notes: &[u8]) -> bool
    ensures { result ≡ are_faults request.now notes.now }
{
    request.notes_as_faults && !notes.is_empty()
}

/// Adds what was found, and what ties the processes to each other, with a line before each part that
/// names it.
fn push_findings(text: &mut Vec<u8>, found: &Findings, ties: &[u8]) -> Result<(), AllocError>
    ensures { OnOk result (text.new.items ≡ with_notes
        (text.old.items ++ with_ties found.now.starts.items ties.now) found.now.notes.items) }
{
    text.extend_from_slice(b"starts\n")?;
    text.extend_from_slice(&found.starts)?;
    text.extend_from_slice(b"ties\n")?;
    text.extend_from_slice(ties)?;
    text.extend_from_slice(b"notes\n")?;
    text.extend_from_slice(&found.notes)
}

/// Reads the policy, the input and each source, as a run would, and writes what they mean: the
/// permission table at the start, what is near a limit, what comes when, where each process starts,
/// and what ties it to the others; and then the notes. Where there are notes, and the words take notes
/// for faults, it answers them, and nothing is written.
#[tactic(auto, using(crate::proofs::Readings::run_read_until))]
pub fn check_files<'a, F: Files, W: Write>(
    alloc: Global,
    request: &CheckRequest<'a>,
    files: &mut F,
    out: &mut W,
) -> Result<Checking, Refused<'a>>
    ensures ok { IfOk result (λ came. Checks came (F.holds files.old) request.now
        (W.contents out.old) (W.contents out.new)) }
    ensures err { IfErr result (λ r. ChecksBy r (F.holds files.old) (F.lacks files.old)
        request.now (W.contents out.old) (W.contents out.new)) }
    ensures reads { OnOk result (ReadsRun (F.holds files.old) request.now.policy.now
        (input_names request.now.input) (F.asked files.old) (F.asked files.new)) }
    ensures reads_until { IfErr result (λ r. ReadsRunUntil
        (TellsOfRun request.now.inside r.failure) (F.holds files.old) request.now.policy.now (input_names request.now.input)
        (F.asked files.old) (F.asked files.new)) }
    ensures kept { (file bytes : List ℕ) → F.holds files.new file bytes
        → F.holds files.old file bytes }
    ensures lacked { (file : List ℕ) → F.lacks files.new file → F.lacks files.old file }
{
    let Good {
        policy,
        texts,
        input,
        events,
        notes,
    } = read_good(alloc, request, files)?;
    let found = findings_of(alloc, &policy, &texts, &notes)?;
    if are_faults(request, &found.notes) {
        return Ok(Checking::Noted(found.notes));
    }
    let ties = ties_text(alloc, &policy, &events)?;
    let mut text = explain(alloc, &policy, &input, events)?;
    push_findings(&mut text, &found, &ties)?;
    match send(out, &text) {
        Ok(()) => Ok(Checking::Explained),
        Err(_) => Err(Refused::from(Failure::Fault(Fault::WriteFault))),
    }
}
