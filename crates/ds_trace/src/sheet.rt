//! The text of a trace on its way to a writer.
ghost use Rattle.std.specs.Prelude.{◌≡◌, ◌++◌, [], OnErr, OnOk, drop, is_err, is_some};
ghost use Rattle.std.specs.String.{string_bytes};
ghost use Rattle.std.specs.Io.KnownBytes.{Appends};
ghost use Rattle.ds_text.specs.Sent.{AppendsPart, IsAskedOnce};
ghost use Rattle.ds_trace.specs.Boundaries.{boundary_text};
ghost use Rattle.ds_trace.specs.Changes.{changes_text};
ghost use Rattle.ds_trace.specs.Halves.{done_text, changed_entries_text, opening_text, process_of_start};
ghost use Rattle.ds_trace.specs.Lines.{logged_text, unit_told};
ghost use Rattle.ds_trace.specs.Inner.Shows.{end_held, found_held, half_held, processor_held};

use crate::before::Before;
use crate::boundaries::{push_commands, push_keys, push_lost};
use crate::changes::{push_changes, push_switch, push_way};
use crate::counts::Counts;
use crate::ends::push_end;
use crate::entries::{push_table, push_tables};
use crate::lines::{push_unit, was_done};
use crate::processor::{ProcessorCounts, push_processor};
use crate::start::Start;
use crate::window::WindowEnd;
use ds_station::Station;
use ds_text::{Output, WriteFailed, send};
use ds_tlb::Lookaside;
use ds_words::View;
use std::alloc::{AllocError, Global};

/// What is to be written, and room for a line.
#[derive(Drop)]
pub(crate) struct Sheet {
    pub(crate) text: Vec<u8>,
    line: String,
}

/// What was logged since the log had so many bytes.
pub(crate) fn logged_since<L: Lookaside>(station: &Station<L>, before: usize) -> &[u8]
    ensures { result.now ≡ drop before station.now.held.kept.log }
{
    match station.log().get(before..) {
        Some(logged) => logged,
        None => &[],
    }
}

impl Sheet {
    /// Nothing is to be written.
    pub(crate) fn new(alloc: Global) -> Sheet
        ensures { result.text.items ≡ [] }
    {
        Sheet {
            text: Vec::new(alloc),
            line: String::new(alloc),
        }
    }

    /// Adds what a unit logged.
    fn push_denied(&mut self, logged: &[u8]) -> Result<(), AllocError>
        ensures { OnOk result
            (self.new.text.items ≡ self.old.text.items ++ logged_text logged.now) }
    {
        if logged.is_empty() {
            return Ok(());
        }
        self.text.extend_from_slice(b"denied ")?;
        self.text.extend_from_slice(logged)
    }

    /// Adds the lines of a unit, and what it logged, as far as they are wanted.
    fn push_unit<L: Lookaside>(
        &mut self,
        view: &View<'_>,
        start: &Start,
        logged: &[u8],
        station: &Station<L>,
    ) -> Result<(), AllocError>
        ensures { OnOk result (self.new.text.items ≡ self.old.text.items
            ++ unit_told view.now start.now logged.now
            (found_held start.now.process station.now.held)) }
    {
        if view.shows_unit(start.process, start.call.is_some()) {
            let done = was_done(start, logged);
            push_unit(&mut self.text, &mut self.line, view, start, done, station)?;
        }
        if view.shows_denials(start.process) {
            self.push_denied(logged)?;
        }
        Ok(())
    }

    /// Adds what a boundary did.
    fn push_boundary<L: Lookaside>(
        &mut self,
        view: &View<'_>,
        before: &Before,
        station: &Station<L>,
    ) -> Result<(), AllocError>
        ensures { OnOk result (self.new.text.items ≡ self.old.text.items
            ++ boundary_text view.now before.now
            (found_held (process_of_start before.now.start) station.now.held)) }
    {
        if !view.shows_rest() {
            return Ok(());
        }
        self.line.clear();
        push_commands(&mut self.line, station.time(), before.due.as_slice())?;
        self.text.extend_from_slice(self.line.as_bytes())?;
        self.text
            .extend_from_slice(logged_since(station, before.logged))?;
        self.line.clear();
        push_keys(&mut self.line, station, &before.queued)?;
        push_lost(&mut self.line, station, before.characters, &before.queued)?;
        self.text.extend_from_slice(self.line.as_bytes())
    }

    /// Adds the lines of the entries that were changed, where they are wanted.
    fn push_entries<L: Lookaside>(
        &mut self,
        view: &View<'_>,
        before: &Before,
        station: &Station<L>,
    ) -> Result<(), AllocError>
        ensures { OnOk result (self.new.text.items ≡ self.old.text.items
            ++ changed_entries_text view.now before.now
            (found_held (process_of_start before.now.start) station.now.held)) }
    {
        if !view.shows_entries() {
            return Ok(());
        }
        self.line.clear();
        push_tables(
            &mut self.line,
            view,
            station.time(),
            before.table.as_slice(),
            station,
        )?;
        self.text.extend_from_slice(self.line.as_bytes())
    }

    /// Adds what was done: a unit, or a boundary, with the entries that it changed.
    fn push_done<L: Lookaside>(
        &mut self,
        view: &View<'_>,
        before: &Before,
        station: &Station<L>,
        owed: bool,
    ) -> Result<(), AllocError>
        requires owed { owed ≡ is_some station.now.held.kept.state.owed }
        ensures { OnOk result (self.new.text.items ≡ self.old.text.items
            ++ done_text view.now before.now
            (found_held (process_of_start before.now.start) station.now.held) before.now.start) }
    {
        match before.start {
            Some(start) => {
                let logged = logged_since(station, before.logged);
                self.push_unit(view, &start, logged, station)?;
                self.push_entries(view, before, station)
            }
            None => {
                if owed {
                    return Ok(());
                }
                self.push_boundary(view, before, station)?;
                self.push_entries(view, before, station)
            }
        }
    }

    /// Adds who stands otherwise, who gives way, and who runs.
    fn push_changes<L: Lookaside>(
        &mut self,
        view: &View<'_>,
        before: &Before,
        station: &Station<L>,
    ) -> Result<(), AllocError>
        ensures { OnOk result (self.new.text.items ≡ self.old.text.items
            ++ changes_text view.now before.now
            (found_held (process_of_start before.now.start) station.now.held)) }
    {
        if !view.shows_switches() {
            return Ok(());
        }
        self.line.clear();
        push_changes(&mut self.line, view, station, before.standings.as_slice())?;
        push_way(&mut self.line, view, station, before.runner)?;
        let (time, runner) = (station.time(), station.runner());
        push_switch(&mut self.line, view, time, before.runner, runner)?;
        self.text.extend_from_slice(self.line.as_bytes())
    }

    /// Adds the lines of all entries before the first half turn that is counted, where they are wanted.
    fn push_opening(
        &mut self,
        view: &View<'_>,
        counts: &Counts,
        before: &Before,
    ) -> Result<(), AllocError>
        ensures { OnOk result (self.new.text.items ≡ self.old.text.items
            ++ opening_text view.now counts.now before.now) }
    {
        if !(view.shows_entries() && counts.is_unbegun()) {
            return Ok(());
        }
        self.line.clear();
        push_table(&mut self.line, view, before.began, before.table.as_slice())?;
        self.text.extend_from_slice(self.line.as_bytes())
    }

    /// Adds the lines of a half turn, by the counts before it, what was looked at before it and what the
    /// station shows now, and by whether it owes a boundary now.
    pub(crate) fn push_half_turn<L: Lookaside>(
        &mut self,
        view: &View<'_>,
        counts: &Counts,
        before: &Before,
        station: &Station<L>,
        owed: bool,
    ) -> Result<(), AllocError>
        requires owed { owed ≡ is_some station.now.held.kept.state.owed }
        ensures { OnOk result (self.new.text.items ≡ self.old.text.items
            ++ half_held view.now counts.now before.now station.now.held) }
    {
        if !view.shows_turn(before.began) {
            return Ok(());
        }
        self.push_opening(view, counts, before)?;
        self.push_done(view, before, station, owed)?;
        self.push_changes(view, before, station)
    }

    /// Adds what is told of where the window ended, and what the processor did, where that is wanted.
    pub(crate) fn push_processor<L: Lookaside>(
        &mut self,
        view: &View<'_>,
        window: &WindowEnd,
        counts: &ProcessorCounts,
        station: &Station<L>,
    ) -> Result<(), AllocError>
        ensures { OnOk result (self.new.text.items ≡ self.old.text.items
            ++ processor_held view.now (string_bytes window.now.lines) counts.now station.now.held) }
    {
        if !view.processor {
            return Ok(());
        }
        self.text.extend_from_slice(window.lines.as_bytes())?;
        self.line.clear();
        push_processor(&mut self.line, counts, station)?;
        self.text.extend_from_slice(self.line.as_bytes())
    }

    /// Adds the end's text, with these counts.
    pub(crate) fn push_end<L: Lookaside>(
        &mut self,
        alloc: Global,
        view: &View<'_>,
        counts: &Counts,
        station: &Station<L>,
    ) -> Result<(), AllocError>
        ensures { OnOk result (self.new.text.items
            ≡ self.old.text.items ++ end_held view.now counts.now station.now.held) }
    {
        push_end(alloc, &mut self.text, &mut self.line, view, counts, station)
    }

    /// Hands what is to be written to the writer.
    pub(crate) fn send<O: Output>(&mut self, out: &mut O) -> Result<(), WriteFailed>
        ensures ok { OnOk result
            (Appends (O.contents out.old) (O.contents out.new) self.old.text.items) }
        ensures sent { OnOk result (self.new.text.items ≡ []) }
        ensures err { OnErr result
            (AppendsPart (O.contents out.old) (O.contents out.new) self.old.text.items) }
        ensures once { IsAskedOnce (O.answers out.old) (O.answers out.new) (is_err result) }
    {
        send(out, self.text.as_slice())?;
        self.text.clear();
        Ok(())
    }
}
