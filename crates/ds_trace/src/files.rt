//! The trace of a run, from texts to a text.
ghost use Rattle.std.specs.Prelude.{◌≡◌, IfErr, IfOk, OnOk, Err};
ghost use Rattle.ds_pagemap.specs.Inputs.{Refusal, inputs, inputs_by, inputs_under, inputs_under_by};
ghost use Rattle.ds_text.specs.Sent.{IsAskedOnce};
ghost use Rattle.ds_station.specs.Faults.{is_unwritten};
ghost use Rattle.ds_station.specs.Headline.{Begins, IsRefused, loaded_with, sources_seen};
ghost use Rattle.ds_trace.specs.Inner.Summed.{WritesTraceSummed};
ghost use Rattle.ds_trace.specs.Traces.{TraceEndsBy, TraceEndsReally, WritesTrace, WritesTraceBy, WritesTraceReally};

use crate::summed::Summed;
use crate::trace::tell;
use ds_policy::Policy;
use ds_station::{Fault, Station, prepare};
use ds_text::Output;
use ds_tlb::Indexed;
use ds_words::View;
use std::alloc::Global;

/// As `run_files` of `ds_station`, with the trace of the run before its text: what each unit was,
/// what was logged, what each boundary did, which process runs from when on, and at the end how each
/// process stands, with its registers. Of what happens the lines are told that the view wants.
///
/// Inputs are refused as `run_files` refuses them, and nothing is written. Where memory runs out or a
/// write fails, a prefix of the trace and the text is written.
pub fn trace_files<O: Output>(
    alloc: Global,
    policy: &[u8],
    sources: &[(&str, &[u8])],
    input: &[u8],
    n: u64,
    random: u8,
    view: &View<'_>,
    out: &mut O,
) -> Result<(), Fault>
    ensures ok { OnOk result (Begins
        (inputs policy.now (sources_seen sources.now) input.now n random)
        (WritesTrace view.now (O.contents out.old) (O.contents out.new) n)) }
    ensures real { OnOk result (Begins
        (inputs_by loaded_with policy.now (sources_seen sources.now) input.now n random)
        (WritesTraceReally view.now (O.contents out.old) (O.contents out.new) n random)) }
    ensures err { IfErr result (λ f. TraceEndsBy f view.now
        (inputs policy.now (sources_seen sources.now) input.now n random)
        (O.contents out.old) (O.contents out.new) n) }
    ensures cut { IfErr result (λ f. TraceEndsReally f view.now
        (inputs_by loaded_with policy.now (sources_seen sources.now) input.now n random)
        (O.contents out.old) (O.contents out.new) n random) }
    ensures refused { (refusal : Refusal)
        → inputs policy.now (sources_seen sources.now) input.now n random ≡ Err refusal
        → IsRefused result refusal (O.contents out.old) (O.contents out.new) }
    ensures once { IsAskedOnce (O.answers out.old) (O.answers out.new) (is_unwritten result) }
{
    let policy = match Policy::read(alloc, policy) {
        Ok(policy) => policy,
        Err(fault) => return Err(Fault::from(fault)),
    };
    trace_policy(alloc, &policy, sources, input, n, random, view, out)
}

/// As `trace_files`, under a policy that was read before.
pub fn trace_policy<O: Output>(
    alloc: Global,
    policy: &Policy,
    sources: &[(&str, &[u8])],
    input: &[u8],
    n: u64,
    random: u8,
    view: &View<'_>,
    out: &mut O,
) -> Result<(), Fault>
    ensures ok { OnOk result (Begins
        (inputs_under policy.now (sources_seen sources.now) input.now n random)
        (WritesTrace view.now (O.contents out.old) (O.contents out.new) n)) }
    ensures real { OnOk result (Begins
        (inputs_under_by loaded_with policy.now (sources_seen sources.now) input.now n random)
        (WritesTraceReally view.now (O.contents out.old) (O.contents out.new) n random)) }
    ensures err { IfErr result (λ f. TraceEndsBy f view.now
        (inputs_under policy.now (sources_seen sources.now) input.now n random)
        (O.contents out.old) (O.contents out.new) n) }
    ensures cut { IfErr result (λ f. TraceEndsReally f view.now
        (inputs_under_by loaded_with policy.now (sources_seen sources.now) input.now n random)
        (O.contents out.old) (O.contents out.new) n random) }
    ensures refused { (refusal : Refusal)
        → inputs_under policy.now (sources_seen sources.now) input.now n random ≡ Err refusal
        → IsRefused result refusal (O.contents out.old) (O.contents out.new) }
    ensures once { IsAskedOnce (O.answers out.old) (O.answers out.new) (is_unwritten result) }
{
    match trace_station(alloc, policy, sources, input, n, random, view, out) {
        Ok(_) => {}
        Err(fault) => return Err(fault),
    }
    Ok(())
}

/// As `trace_policy`, and answers the station as it stands at the end.
pub fn trace_station<O: Output>(
    alloc: Global,
    policy: &Policy,
    sources: &[(&str, &[u8])],
    input: &[u8],
    n: u64,
    random: u8,
    view: &View<'_>,
    out: &mut O,
) -> Result<Station<Indexed<64, 8>>, Fault>
    ensures ok { IfOk result (λ s. Begins
        (inputs_under policy.now (sources_seen sources.now) input.now n random)
        (WritesTraceBy view.now s.held (O.contents out.old) (O.contents out.new) n)) }
    ensures real { OnOk result (Begins
        (inputs_under_by loaded_with policy.now (sources_seen sources.now) input.now n random)
        (WritesTraceReally view.now (O.contents out.old) (O.contents out.new) n random)) }
    ensures err { IfErr result (λ f. TraceEndsBy f view.now
        (inputs_under policy.now (sources_seen sources.now) input.now n random)
        (O.contents out.old) (O.contents out.new) n) }
    ensures cut { IfErr result (λ f. TraceEndsReally f view.now
        (inputs_under_by loaded_with policy.now (sources_seen sources.now) input.now n random)
        (O.contents out.old) (O.contents out.new) n random) }
    ensures refused { (refusal : Refusal)
        → inputs_under policy.now (sources_seen sources.now) input.now n random ≡ Err refusal
        → IsRefused result refusal (O.contents out.old) (O.contents out.new) }
    ensures once { IsAskedOnce (O.answers out.old) (O.answers out.new) (is_unwritten result) }
{
    let mut station = match prepare(alloc, policy, sources, input, n, random) {
        Ok(station) => station,
        Err(refused) => return Err(refused),
    };
    match tell(alloc, view, policy, input, &mut station, n, out) {
        Ok(_) => {}
        Err(fault) => return Err(fault),
    }
    Ok(station)
}

/// As `trace_station`, and what is told of the run as `run_summed` tells it. What is counted is of the
/// turns that the view wants; where it wants the end alone, nothing is.
pub fn trace_summed<O: Output>(
    alloc: Global,
    policy: &Policy,
    sources: &[(&str, &[u8])],
    input: &[u8],
    n: u64,
    random: u8,
    view: &View<'_>,
    out: &mut O,
) -> Result<Summed, Fault>
    ensures ok { IfOk result (λ s. Begins
        (inputs_under policy.now (sources_seen sources.now) input.now n random)
        (WritesTraceSummed view.now s.text.items s.station.held (O.contents out.old)
        (O.contents out.new) n)) }
    ensures real { OnOk result (Begins
        (inputs_under_by loaded_with policy.now (sources_seen sources.now) input.now n random)
        (WritesTraceReally view.now (O.contents out.old) (O.contents out.new) n random)) }
    ensures err { IfErr result (λ f. TraceEndsBy f view.now
        (inputs_under policy.now (sources_seen sources.now) input.now n random)
        (O.contents out.old) (O.contents out.new) n) }
    ensures cut { IfErr result (λ f. TraceEndsReally f view.now
        (inputs_under_by loaded_with policy.now (sources_seen sources.now) input.now n random)
        (O.contents out.old) (O.contents out.new) n random) }
    ensures refused { (refusal : Refusal)
        → inputs_under policy.now (sources_seen sources.now) input.now n random ≡ Err refusal
        → IsRefused result refusal (O.contents out.old) (O.contents out.new) }
    ensures once { IsAskedOnce (O.answers out.old) (O.answers out.new) (is_unwritten result) }
{
    let mut traced = match prepare(alloc, policy, sources, input, n, random) {
        Ok(station) => station,
        Err(refused) => return Err(refused),
    };
    let text = match tell(alloc, view, policy, input, &mut traced, n, out) {
        Ok(text) => text,
        Err(fault) => return Err(fault),
    };
    Ok(Summed {
        station: traced,
        text,
    })
}
