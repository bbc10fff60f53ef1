//! Runs of what was read, to their end or to a bound of their text, and what follows.
ghost use Rattle.std.specs.Prelude.{◌≡◌, ◌⊎◌, IfErr, IfOk, None, Some, false, true};
ghost use Rattle.std.specs.List.{All};
ghost use Rattle.ds_drive.specs.Failures.{EndsThenBy};
ghost use Rattle.ds_drive.specs.Ran.{IsLeft, first_by};
ghost use Rattle.ds_drive.specs.Inner.Ran.{IsEnded, begun_by};
ghost use Rattle.ds_station.specs.Headline.{sources_seen};
ghost use Rattle.ds_words.specs.Windows.{IsWindow, windows_in};

use crate::outcome::{Outcome, finish, summary_of};
use ds_policy::Policy;
use ds_station::{Bounded, Extent, Fault, run_station, run_station_at_most};
use ds_text::Output;
use ds_trace::{Summed, run_summed};
use ds_words::RunRequest;
use std::alloc::Global;

/// Runs what was read to its end, and does what the words want of its last state, but no summary.
#[tactic(auto, using(crate::proofs::Ending::ends_then_by))]
fn run_plain<'a, O: Output>(
    alloc: Global,
    policy: &Policy,
    sources: &[(&str, &[u8])],
    input: &[u8],
    request: &RunRequest<'a>,
    out: &mut O,
) -> Result<Outcome, Fault>
    requires unbound { request.now.most ≡ None }
    requires plain { request.now.extras.summary ≡ false }
    requires windows { All IsWindow (windows_in request.now.extras.memory) }
    ensures ok { IfOk result (λ o. IsEnded request.now o (O.contents out.old) (O.contents out.new)
        (first_by policy.now (sources_seen sources.now) input.now request.now.run)
        (begun_by policy.now (sources_seen sources.now) input.now request.now.run)) }
    ensures err { IfErr result (λ f. EndsThenBy f request.now
        (first_by policy.now (sources_seen sources.now) input.now request.now.run)
        (O.contents out.old) (O.contents out.new)) }
{
    let station = match run_station(
        alloc,
        policy,
        sources,
        input,
        request.run.most_time,
        request.run.random,
        out,
    ) {
        Ok(station) => station,
        Err(fault) => return Err(fault),
    };
    let outcome = match finish(
        alloc,
        &station,
        &request.extras,
        Extent::Whole,
        Vec::new(alloc),
        out,
    ) {
        Ok(outcome) => outcome,
        Err(fault) => return Err(fault),
    };
    Ok(outcome)
}

/// As `run_plain`, turn by turn, where a summary is wanted.
#[tactic(auto, using(crate::proofs::Ending::ends_then_by))]
fn run_counted<'a, O: Output>(
    alloc: Global,
    policy: &Policy,
    sources: &[(&str, &[u8])],
    input: &[u8],
    request: &RunRequest<'a>,
    out: &mut O,
) -> Result<Outcome, Fault>
    requires unbound { request.now.most ≡ None }
    requires counted { request.now.extras.summary ≡ true }
    requires windows { All IsWindow (windows_in request.now.extras.memory) }
    ensures ok { IfOk result (λ o. IsEnded request.now o (O.contents out.old) (O.contents out.new)
        (first_by policy.now (sources_seen sources.now) input.now request.now.run)
        (begun_by policy.now (sources_seen sources.now) input.now request.now.run)) }
    ensures err { IfErr result (λ f. EndsThenBy f request.now
        (first_by policy.now (sources_seen sources.now) input.now request.now.run)
        (O.contents out.old) (O.contents out.new)) }
{
    let summed = match run_summed(
        alloc,
        policy,
        sources,
        input,
        request.run.most_time,
        request.run.random,
        out,
    ) {
        Ok(summed) => summed,
        Err(fault) => return Err(fault),
    };
    let Summed { station, text } = summed;
    let outcome = match finish(alloc, &station, &request.extras, Extent::Whole, text, out) {
        Ok(outcome) => outcome,
        Err(fault) => return Err(fault),
    };
    Ok(outcome)
}

/// As `run_plain`, and a summary may be wanted.
fn run_unbound<'a, O: Output>(
    alloc: Global,
    policy: &Policy,
    sources: &[(&str, &[u8])],
    input: &[u8],
    request: &RunRequest<'a>,
    out: &mut O,
) -> Result<Outcome, Fault>
    requires unbound { request.now.most ≡ None }
    requires windows { All IsWindow (windows_in request.now.extras.memory) }
    ensures ok { IfOk result (λ o. IsEnded request.now o (O.contents out.old) (O.contents out.new)
        (first_by policy.now (sources_seen sources.now) input.now request.now.run)
        (begun_by policy.now (sources_seen sources.now) input.now request.now.run)) }
    ensures err { IfErr result (λ f. EndsThenBy f request.now
        (first_by policy.now (sources_seen sources.now) input.now request.now.run)
        (O.contents out.old) (O.contents out.new)) }
{
    if request.extras.summary {
        run_counted(alloc, policy, sources, input, request, out)
    } else {
        run_plain(alloc, policy, sources, input, request, out)
    }
}

/// As `run_plain`, but the run is left where its text has more bytes than these, and a
/// summary may be wanted.
#[tactic(auto, using(crate::proofs::Ending::ends_then_by))]
fn run_bounded<'a, O: Output>(
    alloc: Global,
    policy: &Policy,
    sources: &[(&str, &[u8])],
    input: &[u8],
    request: &RunRequest<'a>,
    most: u64,
    out: &mut O,
) -> Result<Outcome, Fault>
    requires bound { request.now.most ≡ Some most }
    requires windows { All IsWindow (windows_in request.now.extras.memory) }
    ensures ok { IfOk result (λ o. IsEnded request.now o (O.contents out.old) (O.contents out.new)
        (first_by policy.now (sources_seen sources.now) input.now request.now.run)
        (begun_by policy.now (sources_seen sources.now) input.now request.now.run)
        ⊎ IsLeft request.now o (O.contents out.old) (O.contents out.new)
        (first_by policy.now (sources_seen sources.now) input.now request.now.run)
        (begun_by policy.now (sources_seen sources.now) input.now request.now.run)) }
    ensures err { IfErr result (λ f. EndsThenBy f request.now
        (first_by policy.now (sources_seen sources.now) input.now request.now.run)
        (O.contents out.old) (O.contents out.new)) }
{
    let bounded = match run_station_at_most(
        alloc,
        policy,
        sources,
        input,
        request.run.most_time,
        request.run.random,
        most,
        out,
    ) {
        Ok(bounded) => bounded,
        Err(fault) => return Err(fault),
    };
    let Bounded { station, extent } = bounded;
    let summary = match summary_of(
        alloc,
        &station,
        request.extras.summary,
        request.run.most_time,
    ) {
        Ok(summary) => summary,
        Err(_) => return Err(Fault::Memory),
    };
    let outcome = match finish(alloc, &station, &request.extras, extent, summary, out) {
        Ok(outcome) => outcome,
        Err(fault) => return Err(fault),
    };
    Ok(outcome)
}

/// Runs what was read to its end, or to the bound of its text that the words name, and does what they
/// want of the state where it was left.
pub(crate) fn run_inputs<'a, O: Output>(
    alloc: Global,
    policy: &Policy,
    sources: &[(&str, &[u8])],
    input: &[u8],
    request: &RunRequest<'a>,
    out: &mut O,
) -> Result<Outcome, Fault>
    requires { All IsWindow (windows_in request.now.extras.memory) }
    ensures ok { IfOk result (λ o. IsEnded request.now o (O.contents out.old) (O.contents out.new)
        (first_by policy.now (sources_seen sources.now) input.now request.now.run)
        (begun_by policy.now (sources_seen sources.now) input.now request.now.run)
        ⊎ IsLeft request.now o (O.contents out.old) (O.contents out.new)
        (first_by policy.now (sources_seen sources.now) input.now request.now.run)
        (begun_by policy.now (sources_seen sources.now) input.now request.now.run)) }
    ensures err { IfErr result (λ f. EndsThenBy f request.now
        (first_by policy.now (sources_seen sources.now) input.now request.now.run)
        (O.contents out.old) (O.contents out.new)) }
{
    match request.most {
        None => match run_unbound(alloc, policy, sources, input, request, out) {
            Ok(outcome) => Ok(outcome),
            Err(fault) => Err(fault),
        },
        Some(most) => run_bounded(alloc, policy, sources, input, request, most, out),
    }
}
