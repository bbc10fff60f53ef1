//! A run of files: the policy, the input, and the sources that the policy names.
ghost use Rattle.std.specs.Prelude.{◌≡◌, ◌⊎◌, ◌≤◌, ◌∷◌, ℕ, List, [], IfErr, IfOk, None, OnOk, All, length, map};
ghost use Rattle.ds_station.specs.Headline.{sources_seen};
ghost use Rattle.ds_drive.specs.Inner.AtFault.{texts_seen};
ghost use Rattle.ds_drive.specs.Failures.{HoldsInputs, HoldsTexts, StopsBy};
ghost use Rattle.ds_drive.specs.Inner.Failures.{AreUnread, AreUntaken, IsUnread, IsUnreadRun};
ghost use Rattle.ds_drive.specs.Inside.{outside_of};
ghost use Rattle.ds_drive.specs.Ran.{HasLeftFiles, HasRunFiles};
ghost use Rattle.ds_drive.specs.Reading.{ReadsAll, ReadsRunUntil, ReadsUntil};
ghost use Rattle.ds_drive.specs.Inner.Reading.{ReadsRun, TellsOf, TellsOfRun};
ghost use Rattle.ds_words.specs.Windows.{IsWindow, windows_in};

use crate::failure::Failure;
use crate::files::{FileFault, Files};
use crate::inside::outside_of;
use crate::outcome::Outcome;
use crate::ran::run_inputs;
use crate::windows::lacking_of;
use ds_policy::{Policy, Text};
use ds_station::Fault;
use ds_words::{Request, RunRequest};
use std::alloc::{AllocError, Global};
use std::io::Write;

/// The text of a source's file.
#[derive(Drop)]
pub(crate) struct SourceText {
    pub(crate) name: Text<64>,
    pub(crate) text: Vec<u8>,
}

/// A policy with its text, the texts of the sources that it names, and an input.
#[derive(Drop)]
pub(crate) struct Inputs {
    pub(crate) text: Vec<u8>,
    pub(crate) policy: Policy,
    pub(crate) texts: Vec<SourceText>,
    pub(crate) input: Vec<u8>,
}

/// Reads the policy, then the input, then, where the policy is good, each source by its name, and
/// runs them; after the text of the run it writes the windows that the words want, and answers what the
/// run came to. Nothing is written before all of them are read, nor where a window names a process that
/// the policy lacks.
#[tactic(auto, using(crate::proofs::Stops::run_unread, crate::proofs::Stops::memory_stops, crate::proofs::Stops::process_stops, crate::proofs::Readings::run_read_until))]
pub fn run_request<'a, F: Files, W: Write>(
    alloc: Global,
    request: &RunRequest<'a>,
    files: &mut F,
    out: &mut W,
) -> Result<Outcome, Failure<'a>>
    requires { All IsWindow (windows_in request.now.extras.memory) }
    ensures ok { IfOk result (λ o. HasRunFiles (F.holds files.old) request.now o
        (W.contents out.old) (W.contents out.new)
        ⊎ HasLeftFiles (F.holds files.old) request.now o
        (W.contents out.old) (W.contents out.new)) }
    ensures err { IfErr result
        (λ f. StopsBy f (F.holds files.old) (F.lacks files.old) request.now
        (W.contents out.old) (W.contents out.new)) }
    ensures reads { OnOk result (ReadsRun (F.holds files.old) request.now.run.policy.now
        (request.now.run.input.now ∷ []) (F.asked files.old) (F.asked files.new)) }
    ensures reads_until { IfErr result (λ f. ReadsRunUntil (TellsOfRun request.now.run.inside f)
        (F.holds files.old) request.now.run.policy.now (request.now.run.input.now ∷ [])
        (F.asked files.old) (F.asked files.new)) }
    ensures kept { (file bytes : List ℕ) → F.holds files.new file bytes
        → F.holds files.old file bytes }
    ensures lacked { (file : List ℕ) → F.lacks files.new file → F.lacks files.old file }
{
    let inputs = read_inputs(alloc, &request.run, files)?;
    let windows = request.extras.memory.as_slice();
    if let Some(process) = lacking_of(windows, inputs.policy.processes()) {
        return Err(Failure::NoProcess(process));
    }
    let sources = lent(alloc, inputs.texts.as_slice())?;
    match run_inputs(
        alloc,
        &inputs.policy,
        sources.as_slice(),
        inputs.input.as_slice(),
        request,
        out,
    ) {
        Ok(outcome) => Ok(outcome),
        Err(fault) => Err(Failure::Fault(fault)),
    }
}

/// Reads the policy, then the input, then, where the policy is good, each source by its name.
#[tactic(auto, using(crate::proofs::Stops::policy_unread, crate::proofs::Stops::input_unread, crate::proofs::Stops::policy_unsound, crate::proofs::Readings::policy_unread_until, crate::proofs::Readings::source_unread_until, crate::proofs::Readings::run_read))]
pub(crate) fn read_inputs<'a, F: Files>(
    alloc: Global,
    request: &Request<'a>,
    files: &mut F,
) -> Result<Inputs, Failure<'a>>
    ensures ok { IfOk result (λ inputs. HoldsInputs (F.holds files.old) request.now
        inputs.policy (texts_seen inputs.texts.items) inputs.input.items) }
    ensures texts { IfOk result (λ inputs. HoldsTexts (F.holds files.old) request.now
        inputs.text.items inputs.policy (texts_seen inputs.texts.items) inputs.input.items) }
    ensures err { IfErr result
        (λ f. IsUnreadRun f (F.holds files.old) (F.lacks files.old) request.now) }
    ensures reads { OnOk result (ReadsRun (F.holds files.old) request.now.policy.now
        (request.now.input.now ∷ []) (F.asked files.old) (F.asked files.new)) }
    ensures reads_until { IfErr result (λ f. ReadsRunUntil (TellsOfRun request.now.inside f)
        (F.holds files.old) request.now.policy.now (request.now.input.now ∷ []) (F.asked files.old) (F.asked files.new)) }
    ensures kept { (file bytes : List ℕ) → F.holds files.new file bytes
        → F.holds files.old file bytes }
    ensures lacked { (file : List ℕ) → F.lacks files.new file → F.lacks files.old file }
{
    let text = named_file(alloc, files, request.policy)?;
    let input = named_file(alloc, files, request.input)?;
    let policy = match Policy::read(alloc, text.as_slice()) {
        Ok(policy) => policy,
        Err(fault) => return Err(Failure::Fault(Fault::from(fault))),
    };
    let texts = source_texts(alloc, files, policy.sources(), request.inside)?;
    Ok(Inputs {
        text,
        policy,
        texts,
        input,
    })
}

/// The bytes of a file that the words name.
#[tactic(auto, using(crate::proofs::Readings::one_read, crate::proofs::Readings::unread_next))]
pub(crate) fn named_file<'a, F: Files>(
    alloc: Global,
    files: &mut F,
    name: &'a str,
) -> Result<Vec<u8>, Failure<'a>>
    ensures found { IfOk result (λ bytes. F.holds files.old name.entry.now bytes.items) }
    ensures limit { IfOk result (λ bytes. length bytes.items ≤ 16777216) }
    ensures unread { IfErr result (IsUnread (F.lacks files.old) name.entry.now) }
    ensures reads { OnOk result (ReadsAll (name.entry.now ∷ [])
        (F.asked files.old) (F.asked files.new)) }
    ensures reads_until { IfErr result (λ f. ReadsUntil (TellsOf f) (name.entry.now ∷ [])
        (F.asked files.old) (F.asked files.new)) }
    ensures kept { (file bytes : List ℕ) → F.holds files.new file bytes
        → F.holds files.old file bytes }
    ensures lacked { (file : List ℕ) → F.lacks files.new file → F.lacks files.old file }
{
    match files.read(alloc, name) {
        Ok(bytes) => Ok(bytes),
        Err(FileFault::Unreadable) => Err(Failure::UnreadableFile(name)),
        Err(FileFault::Memory) => Err(Failure::Fault(Fault::Memory)),
    }
}

/// The texts of the files of these sources, in order. Where they have to be inside the folder and the
/// name of one leads out of it, none is asked for.
#[tactic(auto, using(crate::proofs::Outside::outside_untaken, crate::proofs::Outside::untaken))]
pub(crate) fn source_texts<'a, F: Files>(
    alloc: Global,
    files: &mut F,
    names: &[Text<64>],
    inside: bool,
) -> Result<Vec<SourceText>, Failure<'a>>
    ensures names { IfOk result (λ texts. map (λ s. s.name) texts.items ≡ names.now) }
    ensures found { IfOk result
        (λ texts. All (λ s. F.holds files.old s.name s.text.items) texts.items) }
    ensures inside { OnOk result (outside_of inside names.now ≡ None) }
    ensures unread { IfErr result
        (AreUntaken inside (F.holds files.old) (F.lacks files.old) names.now) }
    ensures reads { OnOk result (ReadsAll names.now (F.asked files.old) (F.asked files.new)) }
    ensures reads_until { IfErr result (λ f. ReadsUntil (TellsOfRun inside f) names.now
        (F.asked files.old) (F.asked files.new)) }
    ensures kept { (file bytes : List ℕ) → F.holds files.new file bytes
        → F.holds files.old file bytes }
    ensures lacked { (file : List ℕ) → F.lacks files.new file → F.lacks files.old file }
{
    match outside_of(names, inside) {
        Some(name) => Err(Failure::UnreadableSource(name)),
        None => texts_of(alloc, files, names, inside),
    }
}

/// The texts of the files of these sources, in order.
#[tactic(auto, using(crate::proofs::Readings::none_read, crate::proofs::Readings::one_more_read, crate::proofs::Readings::read_as_far_as, crate::proofs::Readings::read_so_far, crate::proofs::Readings::unread_there))]
fn texts_of<'a, F: Files>(
    alloc: Global,
    files: &mut F,
    names: &[Text<64>],
    inside: bool,
) -> Result<Vec<SourceText>, Failure<'a>>
    ensures names { IfOk result (λ texts. map (λ s. s.name) texts.items ≡ names.now) }
    ensures found { IfOk result
        (λ texts. All (λ s. F.holds files.old s.name s.text.items) texts.items) }
    ensures unread { IfErr result (AreUnread (F.holds files.old) (F.lacks files.old) names.now) }
    ensures reads { OnOk result (ReadsAll names.now (F.asked files.old) (F.asked files.new)) }
    ensures reads_until { IfErr result (λ f. ReadsUntil (TellsOf f) names.now
        (F.asked files.old) (F.asked files.new)) }
    ensures kept { (file bytes : List ℕ) → F.holds files.new file bytes
        → F.holds files.old file bytes }
    ensures lacked { (file : List ℕ) → F.lacks files.new file → F.lacks files.old file }
{
    let mut texts = Vec::new(alloc);
    for name in names {
        let name = Text::of(name.as_str());
        match files.read_source(alloc, name.as_str(), inside) {
            Ok(text) => texts.push(SourceText { name, text })?,
            Err(FileFault::Unreadable) => return Err(Failure::UnreadableSource(name)),
            Err(FileFault::Memory) => return Err(Failure::Fault(Fault::Memory)),
        }
    }
    Ok(texts)
}

/// The names and texts, lent.
pub(crate) fn lent<'a>(
    alloc: Global,
    texts: &'a [SourceText],
) -> Result<Vec<(&'a str, &'a [u8])>, AllocError>
    ensures { IfOk result (λ sources. sources_seen sources.items
        ≡ map (λ s. (s.name, s.text.items)) texts.entry.now) }
{
    let mut sources = Vec::new(alloc);
    for source in texts {
        sources.push((source.name.as_str(), source.text.as_slice()))?;
    }
    Ok(sources)
}
