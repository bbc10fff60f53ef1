//! The trace of a run of files.
ghost use Rattle.std.specs.Prelude.{◌≡◌, ◌∷◌, ℕ, List, [], IfErr, IfOk, OnOk, false, if◌then◌else◌, true};
ghost use Rattle.std.specs.List.{All};
ghost use Rattle.ds_drive.specs.Placed.{pages_by_sources};
ghost use Rattle.ds_drive.specs.Inner.Placed.{WithPlaced};
ghost use Rattle.ds_drive.specs.Ran.{HasTracedFiles, IsTraced, first_by};
ghost use Rattle.ds_drive.specs.Inner.Ran.{begun_by};
ghost use Rattle.ds_drive.specs.Reading.{ReadsRunUntil};
ghost use Rattle.ds_drive.specs.Inner.Reading.{ReadsRun, TellsOfRun};
ghost use Rattle.ds_drive.specs.TraceRuns.{TraceEndsThenBy, TraceStopsBy};
ghost use Rattle.ds_drive.specs.Inner.TraceRuns.{PlacedTraceEnds};
ghost use Rattle.ds_listing.specs.Pages.{plain_pages};
ghost use Rattle.ds_station.specs.Headline.{sources_seen};
ghost use Rattle.ds_trace.specs.Sources.{pages_with};
ghost use Rattle.ds_words.specs.Windows.{IsWindow, windows_in};

use crate::failure::Failure;
use crate::files::Files;
use crate::outcome::{Outcome, finish};
use crate::run::{lent, read_inputs};
use crate::windows::lacking_of;
use ds_listing::PageLines;
use ds_policy::Policy;
use ds_station::{Extent, Fault};
use ds_text::Output;
use ds_trace::{Summed, pages_with, trace_station, trace_summed};
use ds_words::{TraceRequest, View};
use std::alloc::{AllocError, Global};
use std::io::Write;

/// Runs what was read with its trace, and does what the words want of its last state, but no summary.
#[tactic(auto, using(crate::proofs::TraceLemmas::ends_then_by))]
fn trace_plain<'a, O: Output>(
    alloc: Global,
    policy: &Policy,
    sources: &[(&str, &[u8])],
    input: &[u8],
    request: &TraceRequest<'a>,
    out: &mut O,
) -> Result<Outcome, Fault>
    requires plain { request.now.extras.summary ≡ false }
    requires windows { All IsWindow (windows_in request.now.extras.memory) }
    ensures ok { IfOk result (λ o. IsTraced request.now o (O.contents out.old) (O.contents out.new)
        (first_by policy.now (sources_seen sources.now) input.now request.now.run)
        (begun_by policy.now (sources_seen sources.now) input.now request.now.run)) }
    ensures err { IfErr result (λ f. TraceEndsThenBy f request.now
        (first_by policy.now (sources_seen sources.now) input.now request.now.run)
        (O.contents out.old) (O.contents out.new)) }
{
    let station = match trace_station(
        alloc,
        policy,
        sources,
        input,
        request.run.most_time,
        request.run.random,
        &request.view,
        out,
    ) {
        Ok(station) => station,
        Err(fault) => return Err(fault),
    };
    let outcome = match finish(
        alloc,
        &station,
        &request.extras,
        Extent::Whole,
        Vec::new(alloc),
        out,
    ) {
        Ok(outcome) => outcome,
        Err(fault) => return Err(fault),
    };
    Ok(outcome)
}

/// As `trace_plain`, where a summary is wanted.
#[tactic(auto, using(crate::proofs::TraceLemmas::ends_then_by))]
fn trace_counted<'a, O: Output>(
    alloc: Global,
    policy: &Policy,
    sources: &[(&str, &[u8])],
    input: &[u8],
    request: &TraceRequest<'a>,
    out: &mut O,
) -> Result<Outcome, Fault>
    requires counted { request.now.extras.summary ≡ true }
    requires windows { All IsWindow (windows_in request.now.extras.memory) }
    ensures ok { IfOk result (λ o. IsTraced request.now o (O.contents out.old) (O.contents out.new)
        (first_by policy.now (sources_seen sources.now) input.now request.now.run)
        (begun_by policy.now (sources_seen sources.now) input.now request.now.run)) }
    ensures err { IfErr result (λ f. TraceEndsThenBy f request.now
        (first_by policy.now (sources_seen sources.now) input.now request.now.run)
        (O.contents out.old) (O.contents out.new)) }
{
    let summed = match trace_summed(
        alloc,
        policy,
        sources,
        input,
        request.run.most_time,
        request.run.random,
        &request.view,
        out,
    ) {
        Ok(summed) => summed,
        Err(fault) => return Err(fault),
    };
    let Summed { station, text } = summed;
    let outcome = match finish(alloc, &station, &request.extras, Extent::Whole, text, out) {
        Ok(outcome) => outcome,
        Err(fault) => return Err(fault),
    };
    Ok(outcome)
}

/// As `trace_plain`, and a summary may be wanted.
fn trace_inputs<'a, O: Output>(
    alloc: Global,
    policy: &Policy,
    sources: &[(&str, &[u8])],
    input: &[u8],
    request: &TraceRequest<'a>,
    out: &mut O,
) -> Result<Outcome, Fault>
    requires { All IsWindow (windows_in request.now.extras.memory) }
    ensures ok { IfOk result (λ o. IsTraced request.now o (O.contents out.old) (O.contents out.new)
        (first_by policy.now (sources_seen sources.now) input.now request.now.run)
        (begun_by policy.now (sources_seen sources.now) input.now request.now.run)) }
    ensures err { IfErr result (λ f. TraceEndsThenBy f request.now
        (first_by policy.now (sources_seen sources.now) input.now request.now.run)
        (O.contents out.old) (O.contents out.new)) }
{
    if request.extras.summary {
        trace_counted(alloc, policy, sources, input, request, out)
    } else {
        trace_plain(alloc, policy, sources, input, request, out)
    }
}

/// The lines that the words want of a trace, with these lines of the pages' sources.
fn with_pages<'a>(view: &View<'_>, pages: &'a [Option<PageLines<'a>>]) -> View<'a>
    ensures { result ≡ record view.now { pages = pages.entry } }
{
    View {
        from: view.from,
        to: view.to,
        processes: view.processes,
        only: view.only,
        processor: view.processor,
        entries: view.entries,
        names: view.names,
        source: view.source,
        pages,
    }
}

/// The lines of the pages' sources, where they are wanted; else none.
fn placed_pages<'a>(
    alloc: Global,
    policy: &'a Policy,
    sources: &'a [(&'a str, &'a [u8])],
    wanted: bool,
) -> Result<Vec<Option<PageLines<'a>>>, AllocError>
    ensures { IfOk result (λ pages. plain_pages pages.items
        ≡ (if wanted then pages_with (sources_seen sources.now) policy.entry.now.pages else [])) }
{
    if wanted {
        pages_with(alloc, sources, policy.pages())
    } else {
        Ok(Vec::new(alloc))
    }
}

/// As `trace_inputs`, with these lines of the pages' sources.
fn trace_with<'a, 's, O: Output>(
    alloc: Global,
    policy: &Policy,
    sources: &[(&str, &[u8])],
    input: &[u8],
    request: &TraceRequest<'a>,
    pages: &[Option<PageLines<'s>>],
    out: &mut O,
) -> Result<Outcome, Fault>
    requires windows { All IsWindow (windows_in request.now.extras.memory) }
    requires placed { plain_pages pages.now
        ≡ pages_by_sources policy.now (sources_seen sources.now) request.now }
    ensures ok { IfOk result (λ o. WithPlaced policy.now (sources_seen sources.now) request.now
        (λ told. IsTraced told o (O.contents out.old) (O.contents out.new)
        (first_by policy.now (sources_seen sources.now) input.now request.now.run)
        (begun_by policy.now (sources_seen sources.now) input.now request.now.run))) }
    ensures err { IfErr result (λ f. WithPlaced policy.now (sources_seen sources.now) request.now
        (λ told. TraceEndsThenBy f told
        (first_by policy.now (sources_seen sources.now) input.now request.now.run)
        (O.contents out.old) (O.contents out.new))) }
{
    let placed = TraceRequest {
        run: request.run,
        extras: request.extras,
        view: with_pages(&request.view, &*pages),
    };
    match trace_inputs(alloc, policy, sources, input, &placed, out) {
        Ok(outcome) => Ok(outcome),
        Err(fault) => Err(fault),
    }
}

/// As `trace_inputs`, with the lines of the sources where the words want these.
fn trace_placed<'a, 's, O: Output>(
    alloc: Global,
    policy: &'s Policy,
    sources: &'s [(&'s str, &'s [u8])],
    input: &[u8],
    request: &TraceRequest<'a>,
    out: &mut O,
) -> Result<Outcome, Fault>
    requires { All IsWindow (windows_in request.now.extras.memory) }
    ensures ok { IfOk result (λ o. WithPlaced policy.entry.now (sources_seen sources.entry.now) request.now
        (λ told. IsTraced told o (O.contents out.old) (O.contents out.new)
        (first_by policy.entry.now (sources_seen sources.entry.now) input.now request.now.run)
        (begun_by policy.entry.now (sources_seen sources.entry.now) input.now request.now.run))) }
    ensures err { IfErr result (λ f. PlacedTraceEnds policy.entry.now
        (sources_seen sources.entry.now) request.now (O.contents out.old) (O.contents out.new) f
        (first_by policy.entry.now (sources_seen sources.entry.now) input.now request.now.run)) }
{
    let pages = match placed_pages(alloc, &*policy, &*sources, request.view.source) {
        Ok(pages) => pages,
        Err(_) => return Err(Fault::Memory),
    };
    match trace_with(
        alloc,
        policy,
        sources,
        input,
        request,
        pages.as_slice(),
        out,
    ) {
        Ok(outcome) => Ok(outcome),
        Err(fault) => Err(fault),
    }
}

/// Reads the files of a run as `run_request` does, runs them, and writes before the text of the run
/// the lines of its trace that are asked for, and after it the windows that the words want. Nothing is
/// written before all of them are read, nor where a window names a process that the policy lacks.
#[tactic(auto, using(crate::proofs::TraceLemmas::trace_unread, crate::proofs::TraceLemmas::memory_stops, crate::proofs::TraceLemmas::process_stops, crate::proofs::Readings::run_read_until))]
pub fn trace_request<'a, F: Files, W: Write>(
    alloc: Global,
    request: &TraceRequest<'a>,
    files: &mut F,
    out: &mut W,
) -> Result<Outcome, Failure<'a>>
    requires { All IsWindow (windows_in request.now.extras.memory) }
    ensures ok { IfOk result (λ o. HasTracedFiles (F.holds files.old) request.now o
        (W.contents out.old) (W.contents out.new)) }
    ensures err { IfErr result
        (λ f. TraceStopsBy f (F.holds files.old) (F.lacks files.old) request.now
        (W.contents out.old) (W.contents out.new)) }
    ensures reads { OnOk result (ReadsRun (F.holds files.old) request.now.run.policy.now
        (request.now.run.input.now ∷ []) (F.asked files.old) (F.asked files.new)) }
    ensures reads_until { IfErr result (λ f. ReadsRunUntil (TellsOfRun request.now.run.inside f)
        (F.holds files.old) request.now.run.policy.now (request.now.run.input.now ∷ [])
        (F.asked files.old) (F.asked files.new)) }
    ensures kept { (file bytes : List ℕ) → F.holds files.new file bytes
        → F.holds files.old file bytes }
    ensures lacked { (file : List ℕ) → F.lacks files.new file → F.lacks files.old file }
{
    let inputs = read_inputs(alloc, &request.run, files)?;
    let windows = request.extras.memory.as_slice();
    if let Some(process) = lacking_of(windows, inputs.policy.processes()) {
        return Err(Failure::NoProcess(process));
    }
    let sources = lent(alloc, inputs.texts.as_slice())?;
    match trace_placed(
        alloc,
        &inputs.policy,
        sources.as_slice(),
        inputs.input.as_slice(),
        request,
        out,
    ) {
        Ok(outcome) => Ok(outcome),
        Err(fault) => Err(Failure::Fault(fault)),
    }
}
