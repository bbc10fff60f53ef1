//! A run from texts to a text.
ghost use Rattle.std.specs.Prelude.{
  ◌≡◌,
  ℕ,
  ◌≤◌,
  List,
  map,
  length,
  Bool,
  Option,
  OnOk,
  OnErr,
  IfErr,
  IfOk,
  option_map,
  is_err,
  [],
  None,
  false,
  true,
  Ok,
};
ghost use Rattle.std.specs.Io.KnownBytes.{Appends};
ghost use Rattle.ds_policy.specs.PolicyParts.{sources_of};
ghost use Rattle.ds_text.specs.Sent.{AppendsPart, IsAskedOnce};
ghost use Rattle.ds_pagemap.specs.Inputs.{Refusal, inputs, inputs_by, inputs_under, inputs_under_by, text_named, image_read, images_from};
ghost use Rattle.ds_refinement.specs.Stands.{Stands};
ghost use Rattle.ds_refinement.specs.Inner.Stands.{IsSound};
ghost use Rattle.ds_station.specs.Headline.{Writes, WritesReally, Begins, BeginsWith, Refuses, EndsBy, EndsReally, Along, Followed, IsRefused, held_text, loaded_with, sources_seen};
ghost use Rattle.ds_station.specs.Inner.Headline.{Reads};
ghost use Rattle.ds_pagemap.specs.Machine.{State};
ghost use Rattle.ds_policy.specs.PolicyFacts.{IsGoodPolicy};
ghost use Rattle.ds_promise.specs.Quiet.{IsQuiet};
ghost use Rattle.ds_alone.specs.Deeds.{AsksNothing};
ghost use Rattle.ds_alone.specs.Tests.{is_alone, nobody_may_give};
ghost use Rattle.ds_alone.specs.Touched.{IsQuietAlone};
ghost use Rattle.ds_station.specs.Alone.{WritesAlone};
ghost use Rattle.ds_station.specs.Faults.{is_unwritten};
ghost use Rattle.ds_station.specs.Inner.Outcome.{WritesBy};
ghost use Rattle.ds_station.specs.Written.{WritesUntouched, WritesGuarded, WritesWholeGuarded, EndsGuarded};

use crate::fault::Fault;
use crate::station::Station;
use ds_asm::{Image, assemble};
use ds_log::send_report;
use ds_policy::{Events, MOST_TICKS, Policy, Text};
use ds_text::{Output, WriteFailed};
use ds_tlb::{Indexed, Lookaside};
use std::alloc::Global;

/// The text of a source; of two of one name the first counts.
fn text_named<'a>(sources: &[(&str, &'a [u8])], name: &str) -> Option<&'a [u8]>
    ensures { option_map (λ t. t.now) result ≡ text_named (sources_seen sources.now) name.now }
{
    for (source, text) in sources {
        if *source == name {
            return Some(text);
        }
    }
    None
}

/// The image of the source of this name.
fn image_of(alloc: Global, sources: &[(&str, &[u8])], name: &Text<64>) -> Result<Image, Fault>
    ensures { Reads (λ image. image) result
        (image_read name.now (text_named (sources_seen sources.now) name.now)) }
{
    let Some(text) = text_named(sources, name.as_str()) else {
        return Err(Fault::NoSource(Text::of(name.as_str())));
    };
    match assemble(alloc, text) {
        Ok(image) => Ok(image),
        Err(fault) => Err(Fault::in_source(name, fault)),
    }
}

/// The images of the sources of these names, in order.
fn images_of(
    alloc: Global,
    names: &[Text<64>],
    sources: &[(&str, &[u8])],
) -> Result<Vec<Image>, Fault>
    ensures images { Reads (λ images. images.items) result
        (images_from (sources_seen sources.now) [] names.now) }
    ensures size { IfOk result (λ images. length images.items ≡ length names.now) }
{
    let mut images = Vec::new(alloc);
    for name in names {
        match image_of(alloc, sources, name) {
            Ok(image) => images.push(image)?,
            Err(fault) => return Err(fault),
        }
    }
    Ok(images)
}

/// A station at the beginning of the run that the texts ask for under a policy.
pub fn prepare(
    alloc: Global,
    policy: &Policy,
    sources: &[(&str, &[u8])],
    input: &[u8],
    n: u64,
    random: u8,
) -> Result<Station<Indexed<64, 8>>, Fault>
    ensures ok { IfOk result (λ s. Begins
        (inputs_under policy.now (sources_seen sources.now) input.now n random) (Stands s.held)) }
    ensures real { IfOk result (λ s. Begins
        (inputs_under_by loaded_with policy.now (sources_seen sources.now) input.now n random)
        (BeginsWith random s.held)) }
    ensures sound { IfOk result (λ s. IsSound s.held) }
    ensures working { IfOk result (λ s. s.held.own.failed ≡ false) }
    ensures spent { IfOk result (λ s. s.held.own.spent ≡ 0) }
    ensures unowed { IfOk result (λ s. s.held.kept.state.owed ≡ None) }
    ensures few { OnOk result (n ≤ 1000000000) }
    ensures err { IfErr result (λ f. Refuses f
        (inputs_under policy.now (sources_seen sources.now) input.now n random)) }
{
    let images = match images_of(alloc, policy.sources(), sources) {
        Ok(images) => images,
        Err(refused) => return Err(refused),
    };
    let events = match Events::read(alloc, input, policy) {
        Ok(events) => events,
        Err(wrong) => return Err(Fault::from(wrong)),
    };
    if n > MOST_TICKS {
        return Err(Fault::Limit("n"));
    }
    match Station::<Indexed<64, 8>>::new(alloc, policy, &images, events, random as usize) {
        Ok(station) => Ok(station),
        Err(refused) => Err(refused),
    }
}

/// The text of a station's state goes to a place. Where that answers by an error, or takes nothing, it
/// is `WriteFailed`, and the place is not asked again.
pub fn deliver<L: Lookaside, O: Output>(
    station: &Station<L>,
    out: &mut O,
) -> Result<(), WriteFailed>
    ensures ok { OnOk result
        (Appends (O.contents out.old) (O.contents out.new) (held_text station.now.held)) }
    ensures err { OnErr result
        (AppendsPart (O.contents out.old) (O.contents out.new) (held_text station.now.held)) }
    ensures once { IsAskedOnce (O.answers out.old) (O.answers out.new) (is_err result) }
{
    let consoles = [
        station.console(0),
        station.console(1),
        station.console(2),
        station.console(3),
    ];
    send_report(
        &consoles,
        station.log_lines(),
        station.log(),
        station.time(),
        out,
    )
}

/// Runs the processes of a policy from its text, the texts of its sources by their names, and an
/// input's text, for `n` ticks and from a start of Random, and writes the consoles, the log and the
/// time.
///
/// Inputs that are refused are refused in this order, and nothing is written: the policy, each source
/// by the order of its name, the input, `n` above 1,000,000,000, `random` below 8 or above 63. A run
/// that is cut short, for want of memory, writes its text so far and answers that fault. A write that
/// fails, or takes nothing, is `WriteFault`, before any fault of the run, and the writer is not asked
/// again.
pub fn run_files<O: Output>(
    alloc: Global,
    policy: &[u8],
    sources: &[(&str, &[u8])],
    input: &[u8],
    n: u64,
    random: u8,
    out: &mut O,
) -> Result<(), Fault>
    ensures ok { OnOk result (Begins
        (inputs policy.now (sources_seen sources.now) input.now n random)
        (Writes (O.contents out.old) (O.contents out.new) n)) }
    ensures real { OnOk result (Begins
        (inputs_by loaded_with policy.now (sources_seen sources.now) input.now n random)
        (WritesReally Along (O.contents out.old) (O.contents out.new) n random)) }
    ensures err { IfErr result (λ f. EndsBy f
        (inputs policy.now (sources_seen sources.now) input.now n random)
        (O.contents out.old) (O.contents out.new) n) }
    ensures cut { IfErr result (λ f. EndsReally Along f
        (inputs_by loaded_with policy.now (sources_seen sources.now) input.now n random)
        (O.contents out.old) (O.contents out.new) n random) }
    ensures refused { (refusal : Refusal)
        → inputs policy.now (sources_seen sources.now) input.now n random ≡ Err refusal
        → IsRefused result refusal (O.contents out.old) (O.contents out.new) }
    ensures guarded { OnOk result (Begins
        (inputs policy.now (sources_seen sources.now) input.now n random)
        (WritesWholeGuarded (O.contents out.old) (O.contents out.new) n)) }
    ensures guarded_so_far { IfErr result (λ f. EndsGuarded f
        (inputs policy.now (sources_seen sources.now) input.now n random)
        (O.contents out.old) (O.contents out.new) n) }
    ensures quiet { (start : ℕ) (first : State)
        → inputs policy.now (sources_seen sources.now) input.now n start ≡ Ok first
        → IsQuiet n first
        → OnOk result (WritesUntouched (O.contents out.old) (O.contents out.new) n first) }
    ensures alone { (listens : Bool) (p start : ℕ) (first : State)
        → inputs policy.now (sources_seen sources.now) input.now n start ≡ Ok first
        → is_alone listens p first ≡ true → nobody_may_give first ≡ true
        → AsksNothing listens p first → IsQuietAlone p first
        → OnOk result (WritesAlone (O.contents out.old) (O.contents out.new) p first) }
    ensures followed { OnOk result (Begins
        (inputs_by loaded_with policy.now (sources_seen sources.now) input.now n random)
        (WritesReally Followed (O.contents out.old) (O.contents out.new) n random)) }
    ensures followed_so_far { IfErr result (λ f. EndsReally Followed f
        (inputs_by loaded_with policy.now (sources_seen sources.now) input.now n random)
        (O.contents out.old) (O.contents out.new) n random) }
    ensures once { IsAskedOnce (O.answers out.old) (O.answers out.new) (is_unwritten result) }
{
    let policy = match Policy::read(alloc, policy) {
        Ok(policy) => policy,
        Err(fault) => return Err(Fault::from(fault)),
    };
    run_policy(alloc, &policy, sources, input, n, random, out)
}

/// As `run_files`, under a policy that was read before.
pub fn run_policy<O: Output>(
    alloc: Global,
    policy: &Policy,
    sources: &[(&str, &[u8])],
    input: &[u8],
    n: u64,
    random: u8,
    out: &mut O,
) -> Result<(), Fault>
    ensures ok { OnOk result (Begins
        (inputs_under policy.now (sources_seen sources.now) input.now n random)
        (Writes (O.contents out.old) (O.contents out.new) n)) }
    ensures real { OnOk result (Begins
        (inputs_under_by loaded_with policy.now (sources_seen sources.now) input.now n random)
        (WritesReally Along (O.contents out.old) (O.contents out.new) n random)) }
    ensures err { IfErr result (λ f. EndsBy f
        (inputs_under policy.now (sources_seen sources.now) input.now n random)
        (O.contents out.old) (O.contents out.new) n) }
    ensures cut { IfErr result (λ f. EndsReally Along f
        (inputs_under_by loaded_with policy.now (sources_seen sources.now) input.now n random)
        (O.contents out.old) (O.contents out.new) n random) }
    ensures refused { (refusal : Refusal)
        → inputs_under policy.now (sources_seen sources.now) input.now n random ≡ Err refusal
        → IsRefused result refusal (O.contents out.old) (O.contents out.new) }
    ensures guarded { OnOk result (Begins
        (inputs_under policy.now (sources_seen sources.now) input.now n random)
        (WritesGuarded (O.contents out.old) (O.contents out.new) n)) }
    ensures guarded_so_far { IfErr result (λ f. EndsGuarded f
        (inputs_under policy.now (sources_seen sources.now) input.now n random)
        (O.contents out.old) (O.contents out.new) n) }
    ensures quiet { (start : ℕ) (first : State)
        → inputs_under policy.now (sources_seen sources.now) input.now n start ≡ Ok first
        → IsQuiet n first
        → OnOk result (WritesUntouched (O.contents out.old) (O.contents out.new) n first) }
    ensures alone { (listens : Bool) (p start : ℕ) (first : State) → IsGoodPolicy policy.now
        → inputs_under policy.now (sources_seen sources.now) input.now n start ≡ Ok first
        → is_alone listens p first ≡ true → nobody_may_give first ≡ true
        → AsksNothing listens p first → IsQuietAlone p first
        → OnOk result (WritesAlone (O.contents out.old) (O.contents out.new) p first) }
    ensures followed { OnOk result (Begins
        (inputs_under_by loaded_with policy.now (sources_seen sources.now) input.now n random)
        (WritesReally Followed (O.contents out.old) (O.contents out.new) n random)) }
    ensures followed_so_far { IfErr result (λ f. EndsReally Followed f
        (inputs_under_by loaded_with policy.now (sources_seen sources.now) input.now n random)
        (O.contents out.old) (O.contents out.new) n random) }
    ensures once { IsAskedOnce (O.answers out.old) (O.answers out.new) (is_unwritten result) }
{
    match run_station(alloc, policy, sources, input, n, random, out) {
        Ok(_) => {}
        Err(fault) => return Err(fault),
    }
    Ok(())
}

/// As `run_policy`, and answers the station as it stands at the end, in the state whose text is
/// written.
pub fn run_station<O: Output>(
    alloc: Global,
    policy: &Policy,
    sources: &[(&str, &[u8])],
    input: &[u8],
    n: u64,
    random: u8,
    out: &mut O,
) -> Result<Station<Indexed<64, 8>>, Fault>
    ensures ok { IfOk result (λ s. Begins
        (inputs_under policy.now (sources_seen sources.now) input.now n random)
        (WritesBy s.held (O.contents out.old) (O.contents out.new) n)) }
    ensures real { OnOk result (Begins
        (inputs_under_by loaded_with policy.now (sources_seen sources.now) input.now n random)
        (WritesReally Along (O.contents out.old) (O.contents out.new) n random)) }
    ensures err { IfErr result (λ f. EndsBy f
        (inputs_under policy.now (sources_seen sources.now) input.now n random)
        (O.contents out.old) (O.contents out.new) n) }
    ensures cut { IfErr result (λ f. EndsReally Along f
        (inputs_under_by loaded_with policy.now (sources_seen sources.now) input.now n random)
        (O.contents out.old) (O.contents out.new) n random) }
    ensures refused { (refusal : Refusal)
        → inputs_under policy.now (sources_seen sources.now) input.now n random ≡ Err refusal
        → IsRefused result refusal (O.contents out.old) (O.contents out.new) }
    ensures guarded { OnOk result (Begins
        (inputs_under policy.now (sources_seen sources.now) input.now n random)
        (WritesGuarded (O.contents out.old) (O.contents out.new) n)) }
    ensures guarded_so_far { IfErr result (λ f. EndsGuarded f
        (inputs_under policy.now (sources_seen sources.now) input.now n random)
        (O.contents out.old) (O.contents out.new) n) }
    ensures quiet { (start : ℕ) (first : State)
        → inputs_under policy.now (sources_seen sources.now) input.now n start ≡ Ok first
        → IsQuiet n first
        → OnOk result (WritesUntouched (O.contents out.old) (O.contents out.new) n first) }
    ensures alone { (listens : Bool) (p start : ℕ) (first : State) → IsGoodPolicy policy.now
        → inputs_under policy.now (sources_seen sources.now) input.now n start ≡ Ok first
        → is_alone listens p first ≡ true → nobody_may_give first ≡ true
        → AsksNothing listens p first → IsQuietAlone p first
        → OnOk result (WritesAlone (O.contents out.old) (O.contents out.new) p first) }
    ensures followed { OnOk result (Begins
        (inputs_under_by loaded_with policy.now (sources_seen sources.now) input.now n random)
        (WritesReally Followed (O.contents out.old) (O.contents out.new) n random)) }
    ensures followed_so_far { IfErr result (λ f. EndsReally Followed f
        (inputs_under_by loaded_with policy.now (sources_seen sources.now) input.now n random)
        (O.contents out.old) (O.contents out.new) n random) }
    ensures once { IsAskedOnce (O.answers out.old) (O.answers out.new) (is_unwritten result) }
{
    let mut station = match prepare(alloc, policy, sources, input, n, random) {
        Ok(station) => station,
        Err(refused) => return Err(refused),
    };
    let ran = station.run(n);
    match deliver(&station, out) {
        Ok(()) => {}
        Err(_) => return Err(Fault::WriteFault),
    }
    match ran {
        Ok(()) => {}
        Err(fault) => return Err(fault),
    }
    Ok(station)
}
