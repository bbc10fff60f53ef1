//! A run of files whose log is explained.
ghost use Rattle.std.specs.Prelude.{◌≡◌, ◌∷◌, ℕ, List, [], IfErr, IfOk, OnOk};
ghost use Rattle.ds_drive.specs.Inner.AtFault.{texts_seen};
ghost use Rattle.ds_drive.specs.ExplainedLogs.{ExplainStopsBy, HasExplained, chosen_by};
ghost use Rattle.ds_drive.specs.Noted.{image_of, images_of};
ghost use Rattle.ds_drive.specs.Reading.{ReadsRunUntil};
ghost use Rattle.ds_drive.specs.Inner.Reading.{ReadsRun, TellsOfRun};

use crate::failure::Failure;
use crate::files::Files;
use crate::run::{SourceText, lent, read_inputs};
use ds_asm::{AsmFault, Image, assemble};
use ds_check::AssembledSources;
use ds_explain::{Chosen, Texts, explain_log};
use ds_words::ExplainRequest;
use std::alloc::{AllocError, Global};
use std::io::Write;

/// Which lines of a log the words want.
fn chosen_by(line: Option<u64>) -> Chosen
    ensures { result ≡ chosen_by line }
{
    match line {
        Some(number) => Chosen::One(number),
        None => Chosen::All,
    }
}

/// The image of a source; one with a fault, for which its run is refused, has no bytes.
fn image_of(alloc: Global, text: &[u8]) -> Result<Image, AllocError>
    ensures { IfOk result (λ image. image ≡ image_of text.now) }
{
    match assemble(alloc, text) {
        Ok(image) => Ok(image),
        Err(AsmFault::Source(_)) => match assemble(alloc, b"") {
            Ok(image) => Ok(image),
            Err(_) => Err(AllocError),
        },
        Err(AsmFault::Memory) => Err(AllocError),
    }
}

/// The images of sources, in order.
fn images_of(alloc: Global, texts: &[SourceText]) -> Result<Vec<Image>, AllocError>
    ensures { IfOk result (λ images. images.items ≡ images_of (texts_seen texts.now)) }
{
    let mut images = Vec::new(alloc);
    for source in texts {
        let image = image_of(alloc, &source.text)?;
        images.push(image)?;
    }
    Ok(images)
}

/// Reads the files of a run as `run_request` does, runs them, and writes why each line of the log
/// came about, or the one line that the words want. Nothing is written before all of them are read.
#[tactic(auto, using(crate::proofs::ExplainLemmas::explain_unread, crate::proofs::ExplainLemmas::memory_stops, crate::proofs::Readings::run_read_until))]
pub fn explain_files<'a, F: Files, W: Write>(
    alloc: Global,
    request: &ExplainRequest<'a>,
    files: &mut F,
    out: &mut W,
) -> Result<(), Failure<'a>>
    ensures ok { OnOk result (HasExplained (F.holds files.old) request.now
        (W.contents out.old) (W.contents out.new)) }
    ensures err { IfErr result
        (λ f. ExplainStopsBy f (F.holds files.old) (F.lacks files.old) request.now
        (W.contents out.old) (W.contents out.new)) }
    ensures reads { OnOk result (ReadsRun (F.holds files.old) request.now.run.policy.now
        (request.now.run.input.now ∷ []) (F.asked files.old) (F.asked files.new)) }
    ensures reads_until { IfErr result (λ f. ReadsRunUntil (TellsOfRun request.now.run.inside f)
        (F.holds files.old) request.now.run.policy.now (request.now.run.input.now ∷ [])
        (F.asked files.old) (F.asked files.new)) }
    ensures kept { (file bytes : List ℕ) → F.holds files.new file bytes
        → F.holds files.old file bytes }
    ensures lacked { (file : List ℕ) → F.lacks files.new file → F.lacks files.old file }
{
    let run = &request.run;
    let read = read_inputs(alloc, run, files)?;
    let sources = lent(alloc, read.texts.as_slice())?;
    let images = images_of(alloc, read.texts.as_slice())?;
    let texts = Texts {
        text: read.text.as_slice(),
        policy: &read.policy,
        sources: AssembledSources {
            sources: sources.as_slice(),
            images: images.as_slice(),
        },
    };
    match explain_log(
        alloc,
        texts,
        read.input.as_slice(),
        run.most_time,
        run.random,
        chosen_by(request.line),
        out,
    ) {
        Ok(()) => Ok(()),
        Err(fault) => Err(Failure::Fault(fault)),
    }
}
