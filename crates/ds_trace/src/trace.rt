//! A run that is told unit by unit.
ghost use Rattle.std.specs.Prelude.{◌≡◌, ◌<◌, ◌≤◌, ◌^◌, ◌++◌, ◌||◌, if◌then◌else◌, IfErr, IfOk, OnErr, OnOk, None, [], false, is_some, min, nat_lt, true};
ghost use Rattle.std.specs.String.{string_bytes};
ghost use Rattle.std.specs.Io.KnownBytes.{Appends, Keeps};
ghost use Rattle.ds_text.specs.Sent.{AppendsPart, IsAskedOnce};
ghost use Rattle.ds_refinement.specs.Inner.Stands.{IsSound};
ghost use Rattle.ds_station.specs.Faults.{is_unwritten};
ghost use Rattle.ds_station.specs.Headline.{held_text};
ghost use Rattle.ds_station.specs.declared.fault.Fault.TheVariants as fault;
ghost use Rattle.ds_trace.specs.Inner.Advanced.{Adds, Advances, is_last};
ghost use Rattle.ds_trace.specs.Inner.Counted.{CountsStep, HasCounted, WatchesAfter};
ghost use Rattle.ds_trace.specs.Counts.{none_counted};
ghost use Rattle.ds_trace.specs.Inner.Handed.{IsFinished, IsHandedOn, IsLate};
ghost use Rattle.ds_trace.specs.Processors.{none_processed, told_from, window_end};
ghost use Rattle.ds_trace.specs.Inner.Processors.{total};
ghost use Rattle.ds_trace.specs.Inner.Summed.{TracesSummed};
ghost use Rattle.ds_trace.specs.Inner.Shows.{IsCutIf, TellsAll, TracesLines, TracesPart, TracesShort, end_held, half_held, progress_held};
ghost use Rattle.ds_words.specs.Views.{has_lines};

use crate::before::Before;
use crate::counts::Counts;
use crate::processor::ProcessorCounts;
use crate::progress::Progress;
use crate::sheet::Sheet;
use crate::summed::summary;
use crate::window::WindowEnd;
use ds_policy::Policy;
use ds_station::{Fault, Station, Step, deliver};
use ds_text::Output;
use ds_tlb::Lookaside;
use ds_words::View;
use std::alloc::{AllocError, Global};

/// So many bytes are handed to the writer at once, or a few more.
const MOST_BYTES: usize = 65536;

/// Adds the lines of the half turn that is done, counts it, and looks at the station for the next.
fn tell_half<L: Lookaside>(
    view: &View<'_>,
    station: &Station<L>,
    owed: bool,
    sheet: &mut Sheet,
    progress: &mut Progress,
) -> Result<(), AllocError>
    requires owed { owed ≡ is_some station.now.held.kept.state.owed }
    ensures text { OnOk result (sheet.new.text.items
        ≡ sheet.old.text.items
        ++ half_held view.now progress.old.counts progress.old.before station.now.held) }
    ensures next { OnOk result
        (progress.new ≡ progress_held owed view.now progress.old station.now.held) }
{
    sheet.push_half_turn(view, &progress.counts, &progress.before, station, owed)?;
    progress.pass_half_turn(view, station, owed)
}

/// Adds the lines of the half turn that a step has ended, if it has.
fn tell_step<L: Lookaside>(
    view: &View<'_>,
    station: &Station<L>,
    step: Step,
    sheet: &mut Sheet,
    progress: &mut Progress,
) -> Result<(), AllocError>
    requires unit { step ≡ Step.Unit → is_some station.now.held.kept.state.owed ≡ true }
    requires boundary { step ≡ Step.Boundary → is_some station.now.held.kept.state.owed ≡ false }
    ensures { OnOk result (Adds step view.now station.now.held sheet.old.text.items progress.old
        sheet.new.text.items progress.new) }
{
    match step {
        Step::Unit => tell_half(view, station, true, sheet, progress),
        Step::Boundary => tell_half(view, station, false, sheet, progress),
        Step::Inside => Ok(()),
        Step::Over => Ok(()),
    }
}

/// Whether a step found all processes ended.
fn is_last(step: Step) -> bool
    ensures { result ≡ is_last step }
{
    match step {
        Step::Over => true,
        Step::Inside => false,
        Step::Unit => false,
        Step::Boundary => false,
    }
}

/// One step of a station, told of where it ends a half turn, and counted, and a look at whether the
/// window ends there. It answers whether the step found all processes ended, or the fault by which
/// there was none.
fn advance<L: Lookaside>(
    view: &View<'_>,
    station: &mut Station<L>,
    sheet: &mut Sheet,
    progress: &mut Progress,
    counts: &mut ProcessorCounts,
    window: &mut WindowEnd,
) -> Result<Result<bool, Fault>, AllocError>
    requires early { station.old.held.kept.state.owed ≡ None
        → station.old.held.kept.state.time < 1000000000 }
    requires working { station.old.held.own.failed ≡ false }
    requires few { total counts.old < 2 ^ 62 }
    ensures tells { IfOk result (λ r. Advances r view.now station.old.held station.new.held
        sheet.old.text.items progress.old sheet.new.text.items progress.new) }
    ensures counted { IfOk result
        (λ r. CountsStep r station.old.held station.new.held counts.old counts.new) }
    ensures watches { IfOk result (λ r. WatchesAfter r progress.new.before.owed station.new.held
        window.old window.new) }
{
    let stage = station.stage();
    let step = match station.step() {
        Ok(step) => step,
        Err(fault) => return Ok(Err(fault)),
    };
    counts.count(stage);
    tell_step(view, station, step, sheet, progress)?;
    window.watch(station, progress.before.owed)?;
    Ok(Ok(is_last(step)))
}

/// Hands what is to be written to the writer.
fn hand_all<O: Output>(sheet: &mut Sheet, out: &mut O) -> Result<(), Fault>
    ensures ok { OnOk result
        (Appends (O.contents out.old) (O.contents out.new) sheet.old.text.items) }
    ensures sent { OnOk result (sheet.new.text.items ≡ []) }
    ensures err { OnErr result
        (AppendsPart (O.contents out.old) (O.contents out.new) sheet.old.text.items) }
    ensures late { IfErr result IsLate }
    ensures unwritten { IfErr result (λ f. f ≡ fault.WriteFault) }
    ensures once { IsAskedOnce (O.answers out.old) (O.answers out.new) (is_unwritten result) }
{
    match sheet.send(out) {
        Ok(()) => Ok(()),
        Err(_) => Err(Fault::WriteFault),
    }
}

/// Hands what is to be written to the writer, where it is long.
#[tactic(auto, using(ds_text::proofs::Sends::asked_both, crate::proofs::Asking::asked_none))]
fn hand_on<O: Output>(sheet: &mut Sheet, out: &mut O) -> Result<(), Fault>
    ensures ok { OnOk result (IsHandedOn (O.contents out.old) (O.contents out.new)
        sheet.old.text.items sheet.new.text.items) }
    ensures err { OnErr result
        (AppendsPart (O.contents out.old) (O.contents out.new) sheet.old.text.items) }
    ensures late { IfErr result IsLate }
    ensures unwritten { IfErr result (λ f. f ≡ fault.WriteFault) }
    ensures once { IsAskedOnce (O.answers out.old) (O.answers out.new) (is_unwritten result) }
{
    if sheet.text.len() < MOST_BYTES {
        return Ok(());
    }
    hand_all(sheet, out)
}

/// Whether a boundary is owed, or the time of a run for n is not over.
fn is_before<L: Lookaside>(station: &Station<L>, n: u64, before: &Before) -> bool
    ensures { result ≡ (before.now.owed || nat_lt station.now.held.kept.state.time n) }
{
    before.owed || station.time() < n
}

/// The time to which a run for n goes before anything of it can be told.
fn silent_until(view: &View<'_>, n: u64) -> u64
    ensures { result ≡ (if has_lines view.now then min view.now.from n else n) }
{
    if view.has_lines() {
        view.from.min(n)
    } else {
        n
    }
}

/// Follows a station to the end of a run for n, tells of it, and counts what the processor does.
/// What comes before the first turn that is told goes by `run`. It answers the fault that cut the run
/// short, if one did. What is left to be written is in the sheet, what was counted in the counts, and
/// what the buffer held where the window ended in its lines.
#[tactic(auto, using(ds_text::proofs::Sends::asked_both, crate::proofs::Asking::asked_none))]
pub(crate) fn follow<L: Lookaside, O: Output>(
    view: &View<'_>,
    station: &mut Station<L>,
    n: u64,
    progress: &mut Progress,
    sheet: &mut Sheet,
    counts: &mut ProcessorCounts,
    window: &mut WindowEnd,
    out: &mut O,
) -> Result<Option<Fault>, Fault>
    requires few { n ≤ 1000000000 }
    requires sound { IsSound station.old.held }
    requires working { station.old.held.own.failed ≡ false }
    requires spent { station.old.held.own.spent ≡ 0 }
    requires unowed { station.old.held.kept.state.owed ≡ None }
    requires empty { sheet.old.text.items ≡ [] }
    requires none { progress.old.counts ≡ none_counted }
    requires uncounted { counts.old ≡ none_processed }
    requires awaited { window.old.awaited ≡ window_end view.now }
    requires unleft { string_bytes window.old.lines ≡ [] }
    ensures ok { IfOk result (λ cut. TellsAll cut view.now n station.old.held station.new.held
        (O.contents out.old) (O.contents out.new) sheet.new.text.items progress.new.counts) }
    ensures cut { IfOk result (λ cut. IsCutIf cut station.old.held station.new.held) }
    ensures counted { OnOk result
        (HasCounted (window_end view.now) (told_from view.now n) n station.old.held station.new.held
        counts.new (string_bytes window.new.lines)) }
    ensures err { OnErr result
        (TracesPart view.now n station.old.held (O.contents out.old) (O.contents out.new)) }
    ensures late { IfErr result IsLate }
    ensures short { IfErr result (λ f. f ≡ fault.Memory
        → TracesLines view.now n station.old.held (O.contents out.old) (O.contents out.new)) }
    ensures once { IsAskedOnce (O.answers out.old) (O.answers out.new) (is_unwritten result) }
{
    let ran = station.run(silent_until(view, n));
    window.watch(station, false)?;
    match ran {
        Ok(()) => {}
        Err(fault) => return Ok(Some(fault)),
    }
    progress.before.look(view, station, false)?;
    while is_before(station, n, &progress.before) {
        match advance(view, station, sheet, progress, counts, window)? {
            Ok(false) => {}
            Ok(true) => return Ok(None),
            Err(fault) => return Ok(Some(fault)),
        }
        hand_on(sheet, out)?;
    }
    Ok(None)
}

/// Writes what is left of the trace, the end's text with these counts, and the text of the station's
/// state.
#[tactic(auto, using(ds_text::proofs::Sends::asked_both, crate::proofs::Asking::asked_none))]
fn finish<L: Lookaside, O: Output>(
    alloc: Global,
    view: &View<'_>,
    counts: &Counts,
    station: &Station<L>,
    sheet: &mut Sheet,
    out: &mut O,
) -> Result<(), Fault>
    ensures ok { OnOk result (IsFinished view.now counts.now (O.contents out.old)
        (O.contents out.new) sheet.old.text.items station.now.held) }
    ensures err { OnErr result (AppendsPart (O.contents out.old) (O.contents out.new)
        (sheet.old.text.items ++ end_held view.now counts.now station.now.held
        ++ held_text station.now.held)) }
    ensures late { IfErr result IsLate }
    ensures short { IfErr result (λ f. f ≡ fault.Memory
        → Keeps (O.contents out.old) (O.contents out.new)) }
    ensures once { IsAskedOnce (O.answers out.old) (O.answers out.new) (is_unwritten result) }
{
    sheet.push_end(alloc, view, counts, station)?;
    hand_all(sheet, out)?;
    match deliver(station, out) {
        Ok(()) => Ok(()),
        Err(_) => Err(Fault::WriteFault),
    }
}

/// Runs a station for n, and writes the trace of the run; where that is wanted what the buffer held
/// where the window ended, and what the processor did; the end's text; and the text of the state in
/// which it ended. Where memory runs out or a write fails, a prefix of that is written. It answers what
/// is told of the run, which is by this input under this policy.
#[tactic(auto, using(ds_text::proofs::Sends::asked_both, crate::proofs::Asking::asked_none))]
pub(crate) fn tell<L: Lookaside, O: Output>(
    alloc: Global,
    view: &View<'_>,
    policy: &Policy,
    input: &[u8],
    station: &mut Station<L>,
    n: u64,
    out: &mut O,
) -> Result<Vec<u8>, Fault>
    requires few { n ≤ 1000000000 }
    requires sound { IsSound station.old.held }
    requires working { station.old.held.own.failed ≡ false }
    requires spent { station.old.held.own.spent ≡ 0 }
    requires unowed { station.old.held.kept.state.owed ≡ None }
    ensures ok { IfOk result (λ text. TracesSummed view.now policy.now.pages input.now text.items n
        station.old.held station.new.held (O.contents out.old) (O.contents out.new)) }
    ensures err { OnErr result
        (TracesPart view.now n station.old.held (O.contents out.old) (O.contents out.new)) }
    ensures late { IfErr result IsLate }
    ensures short { IfErr result (λ f. f ≡ fault.Memory
        → TracesShort view.now n station.old.held (O.contents out.old) (O.contents out.new)) }
    ensures once { IsAskedOnce (O.answers out.old) (O.answers out.new) (is_unwritten result) }
{
    let mut sheet = Sheet::new(alloc);
    let mut progress = Progress::new(alloc);
    let mut counts = ProcessorCounts::new();
    let mut window = WindowEnd::new(alloc, view);
    let cut = follow(
        view,
        station,
        n,
        &mut progress,
        &mut sheet,
        &mut counts,
        &mut window,
        out,
    )?;
    sheet.push_processor(view, &window, &counts, station)?;
    let text = summary(alloc, policy, input, n, &progress.counts, station)?;
    finish(alloc, view, &progress.counts, station, &mut sheet, out)?;
    match cut {
        None => {}
        Some(fault) => return Err(fault),
    }
    Ok(text)
}
