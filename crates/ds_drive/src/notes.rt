//! What a check finds in the sources of a policy: where its processes start, and the notes.
ghost use Rattle.std.specs.Prelude.{◌≡◌, ◌++◌, ◌∷◌, [], IfOk, OnOk};
ghost use Rattle.std.specs.List.{flat_map};
ghost use Rattle.ds_policy.specs.InputText.{input_of};
ghost use Rattle.ds_policy.specs.Value.{InputValue};
ghost use Rattle.ds_drive.specs.Inner.AtFault.{texts_seen};
ghost use Rattle.ds_drive.specs.Listening.{IsToldText, listener};
ghost use Rattle.ds_drive.specs.Noted.{guest_notes, image_of, images_of, input_notes, source_notes, starts_of};

use crate::run::{SourceText, lent};
use crate::status::INPUT_REFUSED;
use ds_asm::{Image, assemble};
use ds_check::{
    AssembledSources, code_notes, code_notes_text, crowds, crowds_text, policy_notes,
    policy_notes_text, starts_text,
};
use ds_policy::{Events, EventsFault, OutOfMemory, Policy};
use ds_text::{Output, send};
use std::alloc::{AllocError, Global};

/// What a check finds besides what is explained of a policy and an input.
#[derive(Drop)]
pub(crate) struct Findings {
    /// Where the processes start, as text.
    pub(crate) starts: Vec<u8>,
    /// The notes, as text.
    pub(crate) notes: Vec<u8>,
}

/// The notes on an input that was read with this policy, as text.
pub(crate) fn input_notes(
    alloc: Global,
    policy: &Policy,
    input: &[u8],
) -> Result<Vec<u8>, OutOfMemory>
    ensures { IfOk result (λ notes. (read : InputValue)
        → input_of policy.now.pages input.now ≡ Ok read → notes.items ≡ input_notes read) }
{
    match Events::read(alloc, input, policy) {
        Ok(events) => crowds_text(alloc, &crowds(alloc, events)?),
        Err(EventsFault::InputFault(_)) => Ok(Vec::new(alloc)),
        Err(EventsFault::Memory) => Err(OutOfMemory),
    }
}

/// What is found in a policy and in the texts of its sources, which assemble, with the notes on the
/// input behind.
pub(crate) fn findings_of(
    alloc: Global,
    policy: &Policy,
    texts: &[SourceText],
    input_notes: &[u8],
) -> Result<Findings, OutOfMemory>
    ensures starts { IfOk result
        (λ f. f.starts.items ≡ starts_of policy.now (texts_seen texts.now)) }
    ensures notes { IfOk result
        (λ f. f.notes.items ≡ guest_notes policy.now (texts_seen texts.now) ++ input_notes.now) }
{
    let guests = guests_of(alloc, texts)?;
    let sources = lent(alloc, texts)?;
    let assembled = AssembledSources {
        sources: &sources,
        images: &guests.images,
    };
    let starts = starts_text(alloc, policy, assembled)?;
    let noted = policy_notes(alloc, policy, &guests.images)?;
    let mut notes = policy_notes_text(alloc, policy.pages(), &noted)?;
    notes.extend_from_slice(&guests.notes)?;
    notes.extend_from_slice(input_notes)?;
    Ok(Findings { starts, notes })
}

/// The images of sources, and the notes on their instructions as text.
#[derive(Drop)]
struct Guests {
    images: Vec<Image>,
    notes: Vec<u8>,
}

fn guests_of(alloc: Global, texts: &[SourceText]) -> Result<Guests, OutOfMemory>
    ensures images { IfOk result (λ g. g.images.items ≡ images_of (texts_seen texts.now)) }
    ensures notes { IfOk result
        (λ g. g.notes.items ≡ flat_map (λ s. source_notes s.0 s.1) (texts_seen texts.now)) }
{
    let mut images = Vec::new(alloc);
    let mut notes = Vec::new(alloc);
    for source in texts {
        let image = image_by_name(alloc, &source.text)?;
        push_source(alloc, &mut notes, source, &image)?;
        push_image(&mut images, image)?;
    }
    Ok(Guests { images, notes })
}

/// The image of a source. One that has none is taken for want of memory: it was assembled before.
fn image_by_name(alloc: Global, text: &[u8]) -> Result<Image, OutOfMemory>
    ensures { IfOk result (λ image. image ≡ image_of text.now) }
{
    match assemble(alloc, text) {
        Ok(image) => Ok(image),
        Err(_) => Err(OutOfMemory),
    }
}

/// Adds the notes on a source with this image.
fn push_source(
    alloc: Global,
    sheet: &mut Vec<u8>,
    source: &SourceText,
    image: &Image,
) -> Result<(), OutOfMemory>
    requires { image.now ≡ image_of source.now.text.items }
    ensures { OnOk result (sheet.new.items
        ≡ sheet.old.items ++ source_notes source.now.name source.now.text.items) }
{
    let notes = code_notes(alloc, &source.text, image)?;
    let text = code_notes_text(alloc, source.name.as_str(), &notes)?;
    sheet.extend_from_slice(&text)?;
    Ok(())
}

fn push_image(images: &mut Vec<Image>, image: Image) -> Result<(), AllocError>
    ensures { OnOk result (images.new.items ≡ images.old.items ++ image ∷ []) }
{
    images.push(image)?;
    Ok(())
}

/// Tells of notes that are taken for faults, and answers the status. Where the writer fails, the
/// rest is not told.
#[tactic(auto, using(crate::proofs::Heard::told_so))]
pub fn tell_notes<E: Output>(err: &mut E, notes: &[u8]) -> u8
    ensures status { result ≡ 2 }
    ensures told { IsToldText (listener (E.contents err.old) (E.contents err.new)
        (E.answers err.old) (E.answers err.new)) notes.now }
{
    let _ = send(err, notes);
    INPUT_REFUSED
}
