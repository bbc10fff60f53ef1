//! The lines of who runs, and how each stands.
ghost use Rattle.std.specs.Prelude.{◌≡◌, ◌-◌, ◌++◌, ◌&&◌, OnOk, codes, decimal, map, not, slice_get, Some, ℕ};
ghost use Rattle.std.specs.String.{string_bytes};
ghost use Rattle.ds_pagemap.specs.Boundary.{is_first};
ghost use Rattle.ds_pagemap.specs.Machine.{first};
ghost use Rattle.ds_trace.specs.Changes.{is_ready, is_shown, runner_text, same_first, same_standing, standing_line, standing_text, standings_text, switch_text, way_text};
ghost use Rattle.ds_trace.specs.Inner.Shows.{found_held};
ghost use Rattle.ds_words.specs.Views.{shows_process};

use ds_procs::Standing;
use ds_station::Station;
use ds_text::string::push_decimal;
use ds_tlb::Lookaside;
use ds_words::View;
use std::alloc::AllocError;

/// Adds how a process stands.
pub(crate) fn push_standing(line: &mut String, standing: Standing) -> Result<(), AllocError>
    ensures { OnOk result
        (string_bytes line.new ≡ string_bytes line.old ++ standing_text standing) }
{
    match standing {
        Standing::Ready => line.push_str("ready"),
        Standing::Waiting => line.push_str("waiting"),
        Standing::Parked => line.push_str("parked"),
        Standing::Ended => line.push_str("ended"),
    }
}

/// Whether two stand alike.
fn same_standing(before: Standing, after: Standing) -> bool
    ensures { result ≡ same_standing before after }
{
    before == after
}

/// Adds the time and a process, with a blank after each.
fn push_process(line: &mut String, time: u64, process: u32) -> Result<(), AllocError>
    ensures { OnOk result (string_bytes line.new ≡ string_bytes line.old
        ++ decimal time ++ codes " " ++ decimal process ++ codes " ") }
{
    push_decimal(line, time)?;
    line.push_str(" ")?;
    push_decimal(line, u64::from(process))?;
    line.push_str(" ")
}

/// Adds the line of a process that stands otherwise than before.
fn push_change(
    line: &mut String,
    view: &View<'_>,
    time: u64,
    process: u32,
    before: Option<Standing>,
    after: Standing,
) -> Result<(), AllocError>
    ensures { OnOk result (string_bytes line.new ≡ string_bytes line.old
        ++ standing_line view.now time process before after) }
{
    match before {
        Some(before) => {
            if same_standing(before, after) || !view.shows_process(process) {
                return Ok(());
            }
            push_process(line, time, process)?;
            push_standing(line, after)?;
            line.push_str("\n")
        }
        None => Ok(()),
    }
}

/// How a process stood, by its number from 1.
fn standing_in(before: &[Standing], process: u32) -> Option<Standing>
    ensures { result ≡ slice_get before.now (process - 1) }
{
    match before.get(process.saturating_sub(1) as usize) {
        Some(standing) => Some(*standing),
        None => None,
    }
}

/// Adds the lines of all processes that stand otherwise than before.
pub(crate) fn push_changes<L: Lookaside>(
    line: &mut String,
    view: &View<'_>,
    station: &Station<L>,
    before: &[Standing],
) -> Result<(), AllocError>
    ensures { OnOk result (string_bytes line.new ≡ string_bytes line.old
        ++ standings_text view.now station.now.held.kept.state.time before.now 1
        (map (λ q. q.standing) station.now.held.kept.state.processes)) }
{
    for process in 1..station.processes() + 1 {
        let (old, standing) = (standing_in(before, process), station.standing(process));
        push_change(line, view, station.time(), process, old, standing)?;
    }
    Ok(())
}

/// Whether it is to stand ready.
fn stands_ready(standing: Standing) -> bool
    ensures { result ≡ is_ready (Some standing) }
{
    match standing {
        Standing::Ready => true,
        Standing::Waiting => false,
        Standing::Parked => false,
        Standing::Ended => false,
    }
}

/// Whether a process stands ready, where there is such a process.
fn is_ready<L: Lookaside>(station: &Station<L>, process: u32) -> bool
    ensures { result ≡ is_ready (slice_get
        (map (λ q. q.standing) station.now.held.kept.state.processes) (process - 1)) }
{
    let index = process.saturating_sub(1);
    if index < station.processes() {
        stands_ready(station.standing(index + 1))
    } else {
        false
    }
}

/// Whether a process is the first that is ready.
fn is_first(runner: Option<u32>, process: u32) -> bool
    ensures { result ≡ is_first runner process }
{
    match runner {
        Some(runner) => runner == process,
        None => false,
    }
}

/// Whether a process that ran is still ready while another is before it, and is told of.
fn gives_way<L: Lookaside>(view: &View<'_>, station: &Station<L>, process: u32) -> bool
    ensures { result ≡ (not (is_first (first station.now.held.kept.state.ready) process)
        && (is_ready (slice_get (map (λ q. q.standing) station.now.held.kept.state.processes)
        (process - 1)) && shows_process view.now process)) }
{
    !is_first(station.runner(), process)
        && is_ready(station, process)
        && view.shows_process(process)
}

/// Adds that a process gives way.
fn push_gives_way(line: &mut String, time: u64, process: u32) -> Result<(), AllocError>
    ensures { OnOk result (string_bytes line.new ≡ string_bytes line.old
        ++ decimal time ++ codes " " ++ decimal process ++ codes " gives way\n") }
{
    push_decimal(line, time)?;
    line.push_str(" ")?;
    push_decimal(line, u64::from(process))?;
    line.push_str(" gives way\n")
}

/// Adds the line of the process that ran, where it is still ready and another is before it.
pub(crate) fn push_way<L: Lookaside>(
    line: &mut String,
    view: &View<'_>,
    station: &Station<L>,
    before: Option<u32>,
) -> Result<(), AllocError>
    ensures { (p : ℕ) → OnOk result (string_bytes line.new ≡ string_bytes line.old
        ++ way_text view.now (found_held p station.now.held) before) }
{
    match before {
        Some(process) => {
            if gives_way(view, station, process) {
                push_gives_way(line, station.time(), process)
            } else {
                Ok(())
            }
        }
        None => Ok(()),
    }
}

/// Whether the same process is first, or nobody.
pub(crate) fn same_first(before: Option<u32>, after: Option<u32>) -> bool
    ensures { result ≡ same_first before after }
{
    match before {
        Some(before) => match after {
            Some(after) => before == after,
            None => false,
        },
        None => match after {
            Some(_) => false,
            None => true,
        },
    }
}

/// Adds who runs from a time on.
fn push_runner(line: &mut String, time: u64, runner: Option<u32>) -> Result<(), AllocError>
    ensures { OnOk result
        (string_bytes line.new ≡ string_bytes line.old ++ runner_text time runner) }
{
    push_decimal(line, time)?;
    match runner {
        Some(process) => {
            line.push_str(" ")?;
            push_decimal(line, u64::from(process))?;
            line.push_str(" runs\n")
        }
        None => line.push_str(" nobody runs\n"),
    }
}

/// Whether a process is one that is told of.
fn is_shown(view: &View<'_>, process: Option<u32>) -> bool
    ensures { result ≡ is_shown view.now process }
{
    match process {
        Some(process) => view.shows_process(process),
        None => false,
    }
}

/// Adds a line where another process runs than before, and one of the two is told of.
pub(crate) fn push_switch(
    line: &mut String,
    view: &View<'_>,
    time: u64,
    before: Option<u32>,
    after: Option<u32>,
) -> Result<(), AllocError>
    ensures { OnOk result (string_bytes line.new ≡ string_bytes line.old
        ++ switch_text view.now time before after) }
{
    if same_first(before, after) || !(is_shown(view, before) || is_shown(view, after)) {
        Ok(())
    } else {
        push_runner(line, time, after)
    }
}
