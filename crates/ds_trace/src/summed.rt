//! A run that is told in plain words at its end, with what was counted of it.
ghost use Rattle.std.specs.Prelude.{◌≡◌, ◌≤◌, ◌++◌, Bool, Err, IfErr, IfOk, None, Ok, OnOk, false, map, slice_index, true, ℕ};
ghost use Rattle.std.specs.String.{string_bytes};
ghost use Rattle.ds_alone.specs.Deeds.{AsksNothing};
ghost use Rattle.ds_alone.specs.Tests.{is_alone, nobody_may_give};
ghost use Rattle.ds_alone.specs.Touched.{IsQuietAlone};
ghost use Rattle.ds_text.specs.Sent.{IsAskedOnce};
ghost use Rattle.ds_pagemap.specs.Inputs.{Refusal, inputs_under, inputs_under_by};
ghost use Rattle.ds_pagemap.specs.Machine.{State};
ghost use Rattle.ds_policy.specs.InputText.{input_of};
ghost use Rattle.ds_policy.specs.PolicyFacts.{IsGoodPolicy};
ghost use Rattle.ds_policy.specs.Value.{InputValue};
ghost use Rattle.ds_promise.specs.Quiet.{IsQuiet};
ghost use Rattle.ds_refinement.specs.Inner.Stands.{IsSound};
ghost use Rattle.ds_station.specs.Alone.{WritesAlone};
ghost use Rattle.ds_station.specs.Faults.{is_unwritten};
ghost use Rattle.ds_station.specs.Headline.{Along, Begins, EndsBy, EndsReally, Followed, IsRefused, WritesReally, loaded_with, sources_seen};
ghost use Rattle.ds_station.specs.Written.{EndsGuarded, WritesGuarded, WritesUntouched};
ghost use Rattle.ds_trace.specs.Counts.{none_counted};
ghost use Rattle.ds_trace.specs.Summed.{counted_text, unknown_count_text};
ghost use Rattle.ds_trace.specs.Inner.Summed.{CountsAll, SumsUp, SumsUpShort, TellsOf, WritesSummed, counting};

use crate::accounts::push_end_of_run;
use crate::counts::Counts;
use crate::logs::{denied_rules, lines_of, push_rules};
use crate::losses::push_losses;
use crate::processor::ProcessorCounts;
use crate::progress::Progress;
use crate::sheet::Sheet;
use crate::trace::follow;
use crate::window::WindowEnd;
use ds_listing::RegisterNames;
use ds_policy::Policy;
use ds_station::{Fault, Station, deliver, prepare};
use ds_text::Output;
use ds_text::string::push_decimal;
use ds_tlb::{Indexed, Lookaside};
use ds_words::{Only, Processes, View};
use std::alloc::{AllocError, Global};
use std::io::sink;

/// Where the number of calls stands whose numbers are no call.
const UNKNOWN: usize = 10;

/// A run's station at its end, and what is told of the run in plain words.
#[derive(Drop)]
pub struct Summed {
    pub station: Station<Indexed<64, 8>>,
    /// A line for each thing.
    pub text: Vec<u8>,
}

/// Adds how many calls there were of numbers that are no call.
fn push_unknown(line: &mut String, count: u64) -> Result<(), AllocError>
    ensures { OnOk result
        (string_bytes line.new ≡ string_bytes line.old ++ unknown_count_text count) }
{
    if count == 0 {
        return Ok(());
    }
    if count == 1 {
        return line.push_str("1 call of a number that is no call\n");
    }
    push_decimal(line, count)?;
    line.push_str(" calls of numbers that are no call\n")
}

/// Adds what was counted of a run by an input: calls of numbers that are no call, and what was lost.
fn push_counted(
    alloc: Global,
    line: &mut String,
    policy: &Policy,
    input: &[u8],
    counts: &Counts,
) -> Result<(), AllocError>
    ensures { OnOk result ((said : InputValue) → input_of policy.now.pages input.now ≡ Ok said
        → string_bytes line.new
        ≡ string_bytes line.old ++ counted_text said.characters counts.now) }
{
    push_unknown(line, counts.calls[UNKNOWN])?;
    push_losses(alloc, line, policy, input, counts.losses.as_slice())
}

/// What is told of a run for `n` by an input that has come to where the station is, with these counts:
/// as `account`, and before the rules how many calls there were of numbers that are no call, and how
/// many characters were lost, by console line, with the time of the first.
pub(crate) fn summary<L: Lookaside>(
    alloc: Global,
    policy: &Policy,
    input: &[u8],
    n: u64,
    counts: &Counts,
    station: &Station<L>,
) -> Result<Vec<u8>, AllocError>
    ensures { IfOk result (λ text. TellsOf policy.now.pages input.now n counts.now
        station.now.held text.items) }
{
    let lines = lines_of(alloc, station.log())?;
    let rules = denied_rules(alloc, lines.as_slice())?;
    let mut text = Vec::new(alloc);
    let mut line = String::new(alloc);
    push_end_of_run(&mut text, &mut line, lines.as_slice(), station, n)?;
    line.clear();
    push_counted(alloc, &mut line, policy, input, counts)?;
    text.extend_from_slice(line.as_bytes())?;
    push_rules(&mut text, rules.as_slice())?;
    Ok(text)
}

/// A view by which all turns are counted, and none of them is told.
fn counting() -> View<'static>
    ensures { result ≡ record counting { pages = result.pages } }
{
    View {
        from: 0,
        to: None,
        processes: Some(Processes::none()),
        only: Some(Only::Calls),
        processor: false,
        entries: false,
        names: RegisterNames::Numbers,
        source: false,
        pages: &[],
    }
}

/// Runs a station for n, and counts all turns. It answers the fault that cut the run short, if one did.
fn count_all<L: Lookaside>(
    alloc: Global,
    station: &mut Station<L>,
    n: u64,
    progress: &mut Progress,
) -> Result<Option<Fault>, AllocError>
    requires few { n ≤ 1000000000 }
    requires sound { IsSound station.old.held }
    requires working { station.old.held.own.failed ≡ false }
    requires spent { station.old.held.own.spent ≡ 0 }
    requires unowed { station.old.held.kept.state.owed ≡ None }
    requires none { progress.old.counts ≡ none_counted }
    ensures { IfOk result
        (λ cut. CountsAll cut n station.old.held station.new.held progress.new.counts) }
{
    let view = counting();
    let mut sheet = Sheet::new(alloc);
    let mut counts = ProcessorCounts::new();
    let mut window = WindowEnd::new(alloc, &view);
    match follow(
        &view,
        station,
        n,
        progress,
        &mut sheet,
        &mut counts,
        &mut window,
        &mut sink(),
    ) {
        Ok(cut) => Ok(cut),
        Err(_) => Err(AllocError),
    }
}

/// Runs a station for n, turn by turn, and writes the text of the state in which it ended. It answers
/// what is told of the run, which is by this input under this policy. Where memory runs out for that,
/// nothing is written.
#[tactic(auto, using(crate::proofs::Asking::asked_none))]
fn sum_up<L: Lookaside, O: Output>(
    alloc: Global,
    policy: &Policy,
    input: &[u8],
    station: &mut Station<L>,
    n: u64,
    out: &mut O,
) -> Result<Vec<u8>, Fault>
    requires few { n ≤ 1000000000 }
    requires sound { IsSound station.old.held }
    requires working { station.old.held.own.failed ≡ false }
    requires spent { station.old.held.own.spent ≡ 0 }
    requires unowed { station.old.held.kept.state.owed ≡ None }
    ensures ok { IfOk result (λ text. SumsUp policy.now.pages input.now text.items n
        station.old.held station.new.held (O.contents out.old) (O.contents out.new)) }
    ensures err { IfErr result (λ f. SumsUpShort f n station.old.held station.new.held
        (O.contents out.old) (O.contents out.new)) }
    ensures once { IsAskedOnce (O.answers out.old) (O.answers out.new) (is_unwritten result) }
{
    let mut progress = Progress::new(alloc);
    let cut = match count_all(alloc, station, n, &mut progress) {
        Ok(cut) => cut,
        Err(_) => return Err(Fault::Memory),
    };
    let text = match summary(alloc, policy, input, n, &progress.counts, station) {
        Ok(text) => text,
        Err(_) => return Err(Fault::Memory),
    };
    match deliver(station, out) {
        Ok(()) => {}
        Err(_) => return Err(Fault::WriteFault),
    }
    match cut {
        None => Ok(text),
        Some(fault) => Err(fault),
    }
}

/// As `run_station` of `ds_station`, turn by turn, and what is told of the run: whether all processes
/// ended or the ticks ran out, with the time; each process, with how it stands and why; how many calls
/// there were of numbers that are no call; how many characters were lost, by console line; and each
/// rule by which something was denied. Where memory runs out for that, nothing is written.
pub fn run_summed<O: Output>(
    alloc: Global,
    policy: &Policy,
    sources: &[(&str, &[u8])],
    input: &[u8],
    n: u64,
    random: u8,
    out: &mut O,
) -> Result<Summed, Fault>
    ensures ok { IfOk result (λ s. Begins
        (inputs_under policy.now (sources_seen sources.now) input.now n random)
        (WritesSummed s.text.items s.station.held (O.contents out.old) (O.contents out.new) n)) }
    ensures real { OnOk result (Begins
        (inputs_under_by loaded_with policy.now (sources_seen sources.now) input.now n random)
        (WritesReally Along (O.contents out.old) (O.contents out.new) n random)) }
    ensures err { IfErr result (λ f. EndsBy f
        (inputs_under policy.now (sources_seen sources.now) input.now n random)
        (O.contents out.old) (O.contents out.new) n) }
    ensures cut { IfErr result (λ f. EndsReally Along f
        (inputs_under_by loaded_with policy.now (sources_seen sources.now) input.now n random)
        (O.contents out.old) (O.contents out.new) n random) }
    ensures refused { (refusal : Refusal)
        → inputs_under policy.now (sources_seen sources.now) input.now n random ≡ Err refusal
        → IsRefused result refusal (O.contents out.old) (O.contents out.new) }
    ensures guarded { OnOk result (Begins
        (inputs_under policy.now (sources_seen sources.now) input.now n random)
        (WritesGuarded (O.contents out.old) (O.contents out.new) n)) }
    ensures guarded_so_far { IfErr result (λ f. EndsGuarded f
        (inputs_under policy.now (sources_seen sources.now) input.now n random)
        (O.contents out.old) (O.contents out.new) n) }
    ensures quiet { (start : ℕ) (first : State)
        → inputs_under policy.now (sources_seen sources.now) input.now n start ≡ Ok first
        → IsQuiet n first
        → OnOk result (WritesUntouched (O.contents out.old) (O.contents out.new) n first) }
    ensures alone { (listens : Bool) (p start : ℕ) (first : State) → IsGoodPolicy policy.now
        → inputs_under policy.now (sources_seen sources.now) input.now n start ≡ Ok first
        → is_alone listens p first ≡ true → nobody_may_give first ≡ true
        → AsksNothing listens p first → IsQuietAlone p first
        → OnOk result (WritesAlone (O.contents out.old) (O.contents out.new) p first) }
    ensures followed { OnOk result (Begins
        (inputs_under_by loaded_with policy.now (sources_seen sources.now) input.now n random)
        (WritesReally Followed (O.contents out.old) (O.contents out.new) n random)) }
    ensures followed_so_far { IfErr result (λ f. EndsReally Followed f
        (inputs_under_by loaded_with policy.now (sources_seen sources.now) input.now n random)
        (O.contents out.old) (O.contents out.new) n random) }
    ensures once { IsAskedOnce (O.answers out.old) (O.answers out.new) (is_unwritten result) }
{
    let mut station = match prepare(alloc, policy, sources, input, n, random) {
        Ok(station) => station,
        Err(refused) => return Err(refused),
    };
    match sum_up(alloc, policy, input, &mut station, n, out) {
        Ok(text) => Ok(Summed { station, text }),
        Err(fault) => Err(fault),
    }
}
