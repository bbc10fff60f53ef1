//! A run whose log is explained, from texts to a text.
ghost use Rattle.std.specs.Prelude.{◌≡◌, ◌++◌, Err, IfErr, IfOk, OnOk, take};
ghost use Rattle.std.specs.Io.KnownBytes.{Appends, Keeps};
ghost use Rattle.ds_asm.specs.Assembly.{lines_of};
ghost use Rattle.ds_text.specs.Sent.{AppendsPart, IsAskedOnce};
ghost use Rattle.ds_pagemap.specs.Inputs.{Refusal, inputs_under};
ghost use Rattle.ds_station.specs.Faults.{is_unwritten};
ghost use Rattle.ds_station.specs.Headline.{Begins, IsRefused, Refuses, sources_seen};
ghost use Rattle.ds_explain.specs.Chosen.{chosen_end_text, most_of};
ghost use Rattle.ds_explain.specs.Explained.{Explains, HasLog, Tells, WritesExplained};
ghost use Rattle.ds_explain.specs.Inner.Explained.{ExplainEndsBy};
ghost use Rattle.ds_log_reasons.specs.Sentences.{placed};
ghost use Rattle.ds_log_reasons.specs.Inner.Sentences.{context};

use crate::chosen::Chosen;
use crate::moments::told_lines;
use ds_log_reasons::{Known, Texts, pages_with};
use ds_policy::Policy;
use ds_station::{Fault, prepare};
use ds_text::{Output, send};
use std::alloc::Global;

/// The log of a run for n.
fn log_of(
    alloc: Global,
    policy: &Policy,
    sources: &[(&str, &[u8])],
    input: &[u8],
    n: u64,
    random: u8,
) -> Result<Vec<u8>, Fault>
    ensures ok { IfOk result (λ log. Begins
        (inputs_under policy.now (sources_seen sources.now) input.now n random)
        (HasLog n log.items)) }
    ensures err { IfErr result (λ f. Refuses f
        (inputs_under policy.now (sources_seen sources.now) input.now n random)) }
{
    let mut station = match prepare(alloc, policy, sources, input, n, random) {
        Ok(station) => station,
        Err(refused) => return Err(refused),
    };
    match station.run(n) {
        Ok(()) => {}
        Err(_) => return Err(Fault::Memory),
    }
    let mut log = Vec::new(alloc);
    match log.extend_from_slice(station.log()) {
        Ok(()) => Ok(log),
        Err(_) => Err(Fault::Memory),
    }
}

/// What is told of so many lines of a log, by a run for n.
fn told<'a>(
    alloc: Global,
    texts: Texts<'a>,
    input: &[u8],
    n: u64,
    random: u8,
    most: u64,
    log: &[u8],
) -> Result<Vec<u8>, Fault>
    ensures ok { IfOk result (λ text. Begins
        (inputs_under texts.entry.policy.now (sources_seen texts.entry.sources.sources.now)
        input.now n random)
        (Tells (placed (context texts.entry)) n (take most (lines_of log.now)) text.items)) }
    ensures err { IfErr result (λ f. Refuses f
        (inputs_under texts.entry.policy.now (sources_seen texts.entry.sources.sources.now)
        input.now n random)) }
{
    let pages = match pages_with(alloc, texts.sources, texts.policy.pages()) {
        Ok(pages) => pages,
        Err(_) => return Err(Fault::Memory),
    };
    let known = Known {
        text: texts.text,
        policy: texts.policy,
        pages: pages.as_slice(),
    };
    let mut station = match prepare(alloc, texts.policy, texts.sources.sources, input, n, random) {
        Ok(station) => station,
        Err(refused) => return Err(refused),
    };
    match told_lines(alloc, known, n, most, log, &mut station) {
        Ok(text) => Ok(text),
        Err(_) => Err(Fault::Memory),
    }
}

/// What is told of the chosen lines of a log, and what is said of the others.
fn told_log<'a>(
    alloc: Global,
    texts: Texts<'a>,
    input: &[u8],
    n: u64,
    random: u8,
    chosen: Chosen,
    log: &[u8],
) -> Result<Vec<u8>, Fault>
    ensures ok { IfOk result (λ text. Begins
        (inputs_under texts.entry.policy.now (sources_seen texts.entry.sources.sources.now)
        input.now n random)
        (Explains (context texts.entry) chosen n (lines_of log.now) text.items)) }
    ensures err { IfErr result (λ f. Refuses f
        (inputs_under texts.entry.policy.now (sources_seen texts.entry.sources.sources.now)
        input.now n random)) }
{
    let part = chosen.part(log);
    let mut text = match told(alloc, texts, input, n, random, chosen.most(), part) {
        Ok(text) => text,
        Err(refused) => return Err(refused),
    };
    match chosen.push_end(&mut text, log) {
        Ok(()) => Ok(text),
        Err(_) => Err(Fault::Memory),
    }
}

/// Runs the processes of a policy for `n` ticks, as `run_files` of `ds_station` does, and writes what
/// is told of the lines of the log: each line, and in three lines at most what the process did, which
/// entry decided, and how it is mended. The run is done twice: once for the log, and once to come to
/// the time of each line, where the entries and the registers are looked at.
///
/// Inputs are refused as `run_files` refuses them, and nothing is written. Where memory runs out,
/// nothing is written.
pub fn explain_log<'a, O: Output>(
    alloc: Global,
    texts: Texts<'a>,
    input: &[u8],
    n: u64,
    random: u8,
    chosen: Chosen,
    out: &mut O,
) -> Result<(), Fault>
    ensures ok { OnOk result (Begins
        (inputs_under texts.entry.policy.now (sources_seen texts.entry.sources.sources.now)
        input.now n random)
        (WritesExplained (context texts.entry) chosen (O.contents out.old) (O.contents out.new) n)) }
    ensures err { IfErr result (λ f. ExplainEndsBy f (context texts.entry) chosen
        (inputs_under texts.entry.policy.now (sources_seen texts.entry.sources.sources.now)
        input.now n random)
        (O.contents out.old) (O.contents out.new) n) }
    ensures refused { (refusal : Refusal)
        → inputs_under texts.entry.policy.now (sources_seen texts.entry.sources.sources.now)
        input.now n random ≡ Err refusal
        → IsRefused result refusal (O.contents out.old) (O.contents out.new) }
    ensures once { IsAskedOnce (O.answers out.old) (O.answers out.new) (is_unwritten result) }
{
    let log = match log_of(alloc, texts.policy, texts.sources.sources, input, n, random) {
        Ok(log) => log,
        Err(refused) => return Err(refused),
    };
    let text = match told_log(alloc, texts, input, n, random, chosen, log.as_slice()) {
        Ok(text) => text,
        Err(refused) => return Err(refused),
    };
    match send(out, text.as_slice()) {
        Ok(()) => Ok(()),
        Err(_) => Err(Fault::WriteFault),
    }
}
