//! A file listed: a source with its bytes, or the words of a file as a source.
ghost use Rattle.std.specs.Io.KnownBytes.{Appends};
ghost use Rattle.std.specs.Prelude.{◌≡◌, ◌∷◌, ◌++◌, ℕ, List, [], IfErr, IfOk, OnErr, OnOk};
ghost use Rattle.ds_drive.specs.Listed.{FailsBy};
ghost use Rattle.ds_drive.specs.Inner.Listed.{IsListed, Lists};
ghost use Rattle.ds_drive.specs.Hints.{source_hint};
ghost use Rattle.ds_drive.specs.Listening.{TellsSome, listener};
ghost use Rattle.ds_drive.specs.Inner.Listening.{is_unwritten};
ghost use Rattle.ds_drive.specs.Reading.{ReadsAll, ReadsUntil};
ghost use Rattle.ds_drive.specs.Inner.Reading.{TellsOf};
ghost use Rattle.ds_drive.specs.Told.{listed_faults, none_passed, told_lines};
ghost use Rattle.ds_drive.specs.Inner.Told.{passed_in};
ghost use Rattle.ds_text.specs.Sent.{AppendsPart, IsAskedOnce};

use crate::failure::Failure;
use crate::faults::{Untold, Wording, tell_lines};
use crate::files::Files;
use crate::hints::push_source_hint;
use crate::names::send_name;
use crate::refused::FaultySource;
use crate::run::named_file;
use crate::status::INPUT_REFUSED;
use ds_asm::SourceFault;
use ds_listing::{Listed, RegisterNames, listing_or_faults, source_of_file_as};
use ds_source_reasons::FaultyLines;
use ds_station::Fault;
use ds_text::{Output, send};
use ds_words::ListRequest;
use std::alloc::{AllocError, Global};
use std::io::Write;

/// What came of a listing.
#[derive(Drop)]
pub enum Listing {
    /// It was written.
    Written,
    /// The source has faults, and nothing was written.
    Faults(FaultySource),
}

/// The source of a file's words, with registers called by these names, or the listing of a source or all its faults.
fn listed(
    alloc: Global,
    names: RegisterNames,
    words: bool,
    bytes: &[u8],
) -> Result<Listed, AllocError>
    ensures { IfOk result (λ came. IsListed names words bytes.now came) }
{
    if words {
        let text = source_of_file_as(alloc, bytes, names)?;
        Ok(Listed::Sheet(text.into_bytes()))
    } else {
        listing_or_faults(alloc, bytes)
    }
}

/// Reads the file, and writes its listing, or answers the faults of the source.
#[tactic(auto, using(crate::proofs::Cuts::unread_keeps, crate::proofs::Readings::read_all))]
pub fn list_file<'a, F: Files, W: Write>(
    alloc: Global,
    request: &ListRequest<'a>,
    files: &mut F,
    out: &mut W,
) -> Result<Listing, Failure<'a>>
    ensures ok { IfOk result (λ came. Lists came (F.holds files.old) request.now
        (W.contents out.old) (W.contents out.new)) }
    ensures err { IfErr result (λ f. FailsBy f (F.holds files.old) (F.lacks files.old) request.now
        (W.contents out.old) (W.contents out.new)) }
    ensures reads { OnOk result (ReadsAll (request.now.file.now ∷ [])
        (F.asked files.old) (F.asked files.new)) }
    ensures reads_until { IfErr result (λ f. ReadsUntil (TellsOf f) (request.now.file.now ∷ [])
        (F.asked files.old) (F.asked files.new)) }
    ensures kept { (file bytes : List ℕ) → F.holds files.new file bytes
        → F.holds files.old file bytes }
    ensures lacked { (file : List ℕ) → F.lacks files.new file → F.lacks files.old file }
{
    let bytes = named_file(alloc, files, request.file)?;
    match listed(alloc, request.names, request.words, &bytes)? {
        Listed::Sheet(text) => match send(out, &text) {
            Ok(()) => Ok(Listing::Written),
            Err(_) => Err(Failure::Fault(Fault::WriteFault)),
        },
        Listed::Faults(faults) => Ok(Listing::Faults(FaultySource {
            text: bytes,
            faults,
        })),
    }
}

/// Tells of the faults of a source, a line for each with the reason at its end, and below it the
/// source's line with a caret and how the fault is mended. Answers the status. Where the writer fails,
/// or memory runs out, the rest is not told.
#[tactic(auto, using(crate::proofs::Heard::told_some, crate::proofs::Heard::told_nothing))]
pub fn tell_faults<E: Output>(alloc: Global, err: &mut E, file: &str, source: &FaultySource) -> u8
    ensures status { result ≡ 2 }
    ensures told { TellsSome (listener (E.contents err.old) (E.contents err.new)
        (E.answers err.old) (E.answers err.new)) []
        (listed_faults file.now source.now.text.items source.now.faults.items) }
{
    let mut place = Vec::new(alloc);
    if send_name(&mut place, file.as_bytes()).is_err() {
        return INPUT_REFUSED;
    }
    let wording = Wording {
        front: "dsmon: ",
        place: &place,
        text: &source.text,
    };
    let _ = send_listed(alloc, err, wording, &source.faults);
    INPUT_REFUSED
}

/// Hands the lines of all faults of a source to the writer, and that it is a policy where it reads as
/// one.
#[tactic(auto, using(ds_text::proofs::Sends::asked_both))]
fn send_listed<'a, E: Output>(
    alloc: Global,
    err: &mut E,
    wording: Wording<'a>,
    faults: &[SourceFault],
) -> Result<(), Untold>
    ensures all { OnOk result (Appends (E.contents err.old) (E.contents err.new)
        (told_lines wording.entry.front.now wording.entry.place.now wording.entry.text.now
        (none_passed wording.entry.text.now) faults.now ++ source_hint wording.entry.text.now)) }
    ensures front { OnErr result (AppendsPart (E.contents err.old) (E.contents err.new)
        (told_lines wording.entry.front.now wording.entry.place.now wording.entry.text.now
        (none_passed wording.entry.text.now) faults.now ++ source_hint wording.entry.text.now)) }
    ensures once { IsAskedOnce (E.answers err.old) (E.answers err.new) (is_unwritten result) }
{
    tell_lines(alloc, err, wording, no_line_passed(wording.text), faults)?;
    send_source_hint(alloc, err, wording.text)
}

/// The lines of a source, of which none was passed.
#[tactic(auto, using(crate::proofs::Tellings::passed_none))]
fn no_line_passed(text: &[u8]) -> FaultyLines<'_>
    ensures { passed_in result ≡ none_passed text.now }
{
    FaultyLines::of(text)
}

/// Tells that a source is a policy, where it reads as one.
fn send_source_hint<E: Output>(alloc: Global, err: &mut E, text: &[u8]) -> Result<(), Untold>
    ensures all { OnOk result (Appends (E.contents err.old) (E.contents err.new)
        (source_hint text.now)) }
    ensures front { OnErr result (AppendsPart (E.contents err.old) (E.contents err.new)
        (source_hint text.now)) }
    ensures once { IsAskedOnce (E.answers err.old) (E.answers err.new) (is_unwritten result) }
{
    let mut hint = Vec::new(alloc);
    push_source_hint(&mut hint, text)?;
    send(err, &hint)?;
    Ok(())
}
