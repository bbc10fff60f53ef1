//! The lines of a log, each told with what a station holds that has run to its time.
ghost use Rattle.std.specs.Prelude.{◌≡◌, ◌≤◌, ◌==◌, ◌&&◌, true, not, nat_le, nat_lt, ◌<◌, ◌++◌, ◌∷◌, [], IfOk, OnOk, length, min, take};
ghost use Rattle.ds_asm.specs.Assembly.{lines_of};
ghost use Rattle.ds_log_reasons.specs.Lines.{log_line_of};
ghost use Rattle.ds_explain.specs.Moments.{AreTold, denied_text, is_inside, is_there, line_time};
ghost use Rattle.ds_explain.specs.Inner.Moments.{IsKnown, IsShown, IsStopped, IsTold, found_held};
ghost use Rattle.ds_log_reasons.specs.Inner.Sentences.{known_placed};

use ds_asm::first_line;
use ds_isa::Late;
use ds_log::Line;
use ds_log_reasons::{Denial, Known, Sight, log_line_of, push_denial, push_refused};
use ds_refinement::Step;
use ds_station::{Fault, Station};
use ds_tlb::Lookaside;
use std::alloc::{AllocError, Global};

/// No unit begins at this time, in ticks, or later.
const MOST_TICKS: u64 = 1_000_000_000;

/// The registers of a process, and the one whose load is late.
#[derive(Clone, Copy, Debug, PartialEq, Eq)]
pub(crate) struct Found {
    pub(crate) general: [u32; 32],
    pub(crate) late: Option<Late>,
}

/// The time of a line.
fn line_time(line: Line) -> u64
    ensures { result ≡ line_time line }
{
    match line {
        Line::Denial { time, .. } => time,
        Line::Refused { time, .. } => time,
    }
}

/// Whether there is a process of this number, and time for a unit.
fn is_there<L: Lookaside>(station: &Station<L>, process: u32) -> bool
    ensures there { result ≡ is_there station.now.held process }
    ensures above { result ≡ true → 0 < process }
    ensures within { result ≡ true → process ≤ length station.now.held.kept.state.processes }
    ensures before { result ≡ true → station.now.held.kept.state.time < 1000000000 }
{
    process != 0 && process <= station.processes() && station.time() < MOST_TICKS
}

/// Whether the unit goes on after a step of this kind.
fn is_inside(step: Step) -> bool
    ensures { result ≡ is_inside step }
{
    match step {
        Step::Inside => true,
        Step::Unit | Step::Boundary | Step::Over => false,
    }
}

/// The registers of a process now.
fn found_in<L: Lookaside>(station: &Station<L>, process: u32) -> Found
    ensures { result ≡ found_held station.now.held process }
{
    let general = station.general(process);
    Found {
        general,
        late: station.late(),
    }
}

/// Goes on to the end of the unit. Answers the registers of a process before the last instruction: a
/// unit that was stopped ends by a service, which comes after it.
fn stopped<L: Lookaside>(station: &mut Station<L>, process: u32) -> Result<Found, Fault>
    requires { station.old.held.kept.state.time < 1000000000 }
    ensures { IfOk result (λ found. IsStopped process found station.old.held station.new.held) }
{
    let mut found = found_in(station, process);
    let mut now = found;
    let mut step = station.step()?;
    while is_inside(step) {
        found = now;
        now = found_in(station, process);
        step = station.step()?;
    }
    Ok(found)
}

/// Adds what is told of a denial whose unit begins now, if there is such a process, and goes on to the
/// end of the unit.
fn push_denied<'a, L: Lookaside>(
    sheet: &mut Vec<u8>,
    alloc: Global,
    known: Known<'a>,
    denial: Denial,
    station: &mut Station<L>,
) -> Result<(), Fault>
    ensures { OnOk result (IsShown (known_placed known.entry) denial station.old.held
        station.new.held sheet.old.items sheet.new.items) }
{
    let process = denial.process;
    if !is_there(station, process) {
        return Ok(());
    }
    let unit = station.address(process);
    let word = station.word_at(process, denial.pc);
    let mut entries = Vec::new(alloc);
    entries.extend_from_slice(station.entries(process))?;
    let found = stopped(station, process)?;
    let general = found.general;
    let after = station.general(process);
    let sight = Sight {
        unit,
        word,
        general,
        late: found.late,
        entries: entries.as_slice(),
        answer: after[2],
    };
    push_denial(sheet, alloc, known, denial, sight)?;
    Ok(())
}

/// Adds what is told of a line whose time it is, and goes on to the end of a unit that was stopped.
fn push_known<'a, L: Lookaside>(
    sheet: &mut Vec<u8>,
    alloc: Global,
    known: Known<'a>,
    line: Line,
    station: &mut Station<L>,
) -> Result<(), Fault>
    ensures { OnOk result (IsKnown (known_placed known.entry) line station.old.held
        station.new.held sheet.old.items sheet.new.items) }
{
    match line {
        Line::Denial {
            process,
            pc,
            kind,
            addr,
            rule,
            code,
            ..
        } => {
            let denial = Denial {
                process,
                pc,
                kind,
                addr,
                rule,
                code,
            };
            push_denied(sheet, alloc, known, denial, station)
        }
        Line::Refused {
            command,
            number,
            ..
        } => {
            push_refused(sheet, command, number)?;
            Ok(())
        }
    }
}

/// Adds a text and a line feed.
fn push_itself(sheet: &mut Vec<u8>, line: &[u8]) -> Result<(), AllocError>
    ensures { OnOk result (sheet.new.items ≡ sheet.old.items ++ line.now ++ 10 ∷ []) }
{
    sheet.extend_from_slice(line)?;
    sheet.extend_from_slice(b"\n")
}

/// Adds a line of a log, and what is told of it: the station goes on to its time, or to `n` where that
/// is earlier.
fn push_line<'a, L: Lookaside>(
    sheet: &mut Vec<u8>,
    alloc: Global,
    known: Known<'a>,
    n: u64,
    line: &[u8],
    station: &mut Station<L>,
) -> Result<(), Fault>
    requires { n ≤ 1000000000 }
    ensures { OnOk result (IsTold (known_placed known.entry) n line.now station.old.held
        station.new.held sheet.old.items sheet.new.items) }
{
    push_itself(sheet, line)?;
    match log_line_of(line) {
        Some(said) => {
            station.run(line_time(said).min(n))?;
            push_known(sheet, alloc, known, said, station)
        }
        None => Ok(()),
    }
}

/// Whether a line is left that is to be told.
fn is_left(left: u64, rest: &[u8]) -> bool
    ensures { result ≡ (nat_lt 0 left && not (length rest.now == 0)) }
{
    left > 0 && !rest.is_empty()
}

/// What is told of so many lines of a log, one after the other, while a station goes on from one to
/// the next.
pub(crate) fn told_lines<'a, L: Lookaside>(
    alloc: Global,
    known: Known<'a>,
    n: u64,
    most: u64,
    log: &[u8],
    station: &mut Station<L>,
) -> Result<Vec<u8>, Fault>
    requires { n ≤ 1000000000 }
    ensures { IfOk result (λ text. AreTold (known_placed known.entry) n station.old.held
        (take most (lines_of log.now)) text.items) }
{
    let mut sheet = Vec::new(alloc);
    let mut left = most;
    let mut rest = log;
    while is_left(left, rest) {
        let (line, afterwards) = first_line(rest);
        push_line(&mut sheet, alloc, known, n, line, station)?;
        rest = afterwards;
        left -= 1;
    }
    Ok(sheet)
}
