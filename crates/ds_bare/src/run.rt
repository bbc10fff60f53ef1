//! A run, told to a writer.
ghost use Rattle.std.specs.Prelude.{◌≡◌, ◌≤◌, ◌<◌, ◌+◌, ◌^◌, ◌↔◌, IfOk, IfErr, OnOk, OnErr, Ok, Err, true, false};
ghost use Rattle.std.specs.Io.KnownBytes.{Appends, Keeps};
ghost use Rattle.std.specs.String.{string_bytes};
ghost use Rattle.ds_text.specs.Sent.{AppendsPart, IsAskedOnce};
ghost use Rattle.ds_bare.specs.Faults.{is_cut, is_unwritten, may_start};
ghost use Rattle.ds_bare.specs.declared.fault.BareFault.TheVariants as fault;
ghost use Rattle.ds_bare.specs.Machine.{counted, fed, machine_at_start, next_step};
ghost use Rattle.ds_bare.specs.Endings.{word_at_pc};
ghost use Rattle.ds_bare.specs.Steps.{before_word, others};
ghost use Rattle.ds_bare.specs.Shows.{lines_shown};
ghost use Rattle.ds_bare.specs.Ends.{end_text};
ghost use Rattle.ds_bare.specs.Runs.{IsCutBetween, bare_text, ending_at, ending_from, run_from, step_told, turned};

use crate::before::Before;
use crate::end::push_end;
use crate::ending::{Ending, ending_by, word_at_pc};
use crate::fault::BareFault;
use crate::machine::{Machine, core_at_start};
use crate::registers::others;
use crate::shows::push_lines_shown;
use ds_asm::Image;
use ds_policy::Character;
use ds_text::{Output, send};
use ds_words::BareView;
use std::alloc::Global;

/// Runs an image on the bare machine, from its first word on in kernel mode, for at most so many
/// instructions, and tells of it: a line for each instruction that the view wants, and at the end how
/// the machine stands. It answers why the run ended.
#[tactic(auto, unfolding(crate::specs::Runs::bare_text), using(crate::proofs::UnderWay::part_none, crate::proofs::CutBetween::cut_first, crate::proofs::CutBetween::asked_none, ds_text::proofs::Sends::asked_both))]
pub fn run_bare<O: Output>(
    alloc: Global,
    image: &Image,
    most: u32,
    random: u8,
    keys: &[Character],
    view: &BareView,
    out: &mut O,
) -> Result<Ending, BareFault>
    ensures ok { OnOk result (Appends (O.contents out.old) (O.contents out.new)
        (bare_text view.now image.now random most keys.now)) }
    ensures ending { IfOk result
        (λ e. e ≡ ending_from most 0 (machine_at_start image.now random keys.now)) }
    ensures err { OnErr result (AppendsPart (O.contents out.old) (O.contents out.new)
        (bare_text view.now image.now random most keys.now)) }
    ensures started { OnOk result (may_start random ≡ true) }
    ensures refused { IfErr result (λ f. is_cut f ≡ may_start random) }
    ensures kept { IfErr result (λ f. is_cut f ≡ false
        → Keeps (O.contents out.old) (O.contents out.new)) }
    ensures short { IfErr result (λ f. f ≡ fault.Memory
        → IsCutBetween (O.contents out.old) (O.contents out.new) view.now most
        (machine_at_start image.now random keys.now)) }
    ensures once { IsAskedOnce (O.answers out.old) (O.answers out.new) (is_unwritten result) }
{
    let core = core_at_start(random)?;
    let mut machine = Machine::new(alloc, core, image, keys)?;
    run(alloc, &mut machine, u64::from(most), view, out)
}

/// Runs a machine for at most so many instructions.
#[tactic(auto, using(crate::proofs::CutBetween::told_first, crate::proofs::CutBetween::asked_none, ds_text::proofs::Sends::asked_both))]
fn run<'a, O: Output>(
    alloc: Global,
    machine: &mut Machine<'a>,
    most: u64,
    view: &BareView,
    out: &mut O,
) -> Result<Ending, BareFault>
    requires { most < 2 ^ 32 }
    ensures ok { OnOk result (Appends (O.contents out.old) (O.contents out.new)
        (run_from view.now most 0 machine.old)) }
    ensures ending { IfOk result (λ e. e ≡ ending_from most 0 machine.old) }
    ensures err { OnErr result (AppendsPart (O.contents out.old) (O.contents out.new)
        (run_from view.now most 0 machine.old)) }
    ensures cut { IfErr result (λ f. is_cut f ≡ true) }
    ensures short { IfErr result (λ f. f ≡ fault.Memory
        → IsCutBetween (O.contents out.old) (O.contents out.new) view.now most machine.old) }
    ensures once { IsAskedOnce (O.answers out.old) (O.answers out.new) (is_unwritten result) }
{
    let mut line = String::new(alloc);
    for done in 0..most {
        match turn(alloc, machine, done, view, &mut line, out)? {
            Some(ending) => {
                end(alloc, machine, view, ending, done + 1, out)?;
                return Ok(ending);
            }
            None => {}
        }
    }
    end(alloc, machine, view, Ending::Counted, most, out)?;
    Ok(Ending::Counted)
}

/// Does one instruction, when so many are done, tells of it, and answers why the run ends with it.
#[inline(always)]
#[tactic(auto, unfolding(crate::specs::Runs::step_told, crate::specs::Runs::turn_text, crate::specs::Runs::ending_at, crate::specs::Runs::turned, crate::specs::Endings::ending_of), using(crate::proofs::CutBetween::asked_none))]
fn turn<'a, O: Output>(
    alloc: Global,
    machine: &mut Machine<'a>,
    done: u64,
    view: &BareView,
    line: &mut String,
    out: &mut O,
) -> Result<Option<Ending>, BareFault>
    requires { done < 2 ^ 32 }
    ensures ok { OnOk result (Appends (O.contents out.old) (O.contents out.new)
        (step_told view.now done machine.old)) }
    ensures ending { IfOk result (λ e. e ≡ ending_at done machine.old) }
    ensures state { OnOk result (machine.new ≡ turned done machine.old) }
    ensures err { OnErr result (AppendsPart (O.contents out.old) (O.contents out.new)
        (step_told view.now done machine.old)) }
    ensures cut { IfErr result (λ f. is_cut f ≡ true) }
    ensures short { IfErr result (λ f. f ≡ fault.Memory
        → Keeps (O.contents out.old) (O.contents out.new)) }
    ensures once { IsAskedOnce (O.answers out.old) (O.answers out.new) (is_unwritten result) }
{
    if !view.reaches(done + 1) {
        return Ok(machine.turn(done)?);
    }
    let others = others(&machine.core, &machine.bus);
    machine.feed(done);
    let word = word_at_pc(&machine.core, &machine.bus);
    let before = Before::of(&machine.core, others, word);
    let event = machine.step();
    let ending = ending_by(word, event, &machine.core, &machine.bus);
    machine.count(word, event);
    machine.settle()?;
    line.clear();
    push_lines_shown(
        alloc,
        line,
        view,
        done + 1,
        &before,
        event,
        &machine.core,
        &machine.bus,
    )?;
    send(out, line.as_bytes())?;
    Ok(ending)
}

/// Tells of the end.
#[tactic(auto, using(crate::proofs::UnderWay::part_none, crate::proofs::CutBetween::asked_none))]
fn end<'a, O: Output>(
    alloc: Global,
    machine: &Machine<'a>,
    view: &BareView,
    ending: Ending,
    done: u64,
    out: &mut O,
) -> Result<(), BareFault>
    ensures ok { OnOk result (Appends (O.contents out.old) (O.contents out.new)
        (end_text view.now ending done machine.now)) }
    ensures err { OnErr result (AppendsPart (O.contents out.old) (O.contents out.new)
        (end_text view.now ending done machine.now)) }
    ensures cut { IfErr result (λ f. is_cut f ≡ true) }
    ensures short { IfErr result (λ f. f ≡ fault.Memory
        → Keeps (O.contents out.old) (O.contents out.new)) }
    ensures once { IsAskedOnce (O.answers out.old) (O.answers out.new) (is_unwritten result) }
{
    let mut text = String::new(alloc);
    push_end(alloc, &mut text, view, ending, done, machine)?;
    send(out, text.as_bytes())?;
    Ok(())
}
