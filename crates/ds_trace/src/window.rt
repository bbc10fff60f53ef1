//! Where the window of a view ends, and what the buffer holds there.
ghost use Rattle.std.specs.Prelude.{◌≡◌, ◌++◌, [], OnOk};
ghost use Rattle.std.specs.String.{string_bytes};
ghost use Rattle.ds_words.specs.Views.{is_before};
ghost use Rattle.ds_trace.specs.Inner.Counted.{WatchesAt};
ghost use Rattle.ds_trace.specs.Processors.{window_left_text, window_end};

use crate::processor::{push_cause, push_entries};
use ds_station::Station;
use ds_text::string::push_decimal;
use ds_tlb::Lookaside;
use ds_words::View;
use std::alloc::{AllocError, Global};

/// The end of a window, and what is told once the run has come there.
#[derive(Drop)]
pub(crate) struct WindowEnd {
    /// Its time, where there is one and the run has not come there.
    awaited: Option<u64>,
    /// The time at which the run left the window, and the entries of the buffer then.
    pub(crate) lines: String,
}

/// The end of a window, where a view has one, and wants lines and what the processor did.
fn window_end(view: &View<'_>) -> Option<u64>
    ensures { result ≡ window_end view.now }
{
    if view.processor && view.has_lines() {
        view.to
    } else {
        None
    }
}

/// Whether a window ends later than at a time; where it has no end, it does.
fn ends_later(end: Option<u64>, time: u64) -> bool
    ensures { result ≡ is_before end time }
{
    match end {
        Some(end) => time < end,
        None => true,
    }
}

/// Adds at which time a run left the window, and the entries of the buffer then.
fn push_window<L: Lookaside>(line: &mut String, station: &Station<L>) -> Result<(), AllocError>
    ensures { OnOk result
        (string_bytes line.new ≡ string_bytes line.old ++ window_left_text station.now.held) }
{
    line.push_str("entries at ")?;
    push_decimal(line, station.time())?;
    push_cause(line)?;
    push_entries(line, station)
}

impl WindowEnd {
    /// The end of a view's window, to which no run has come.
    pub(crate) fn new(alloc: Global, view: &View<'_>) -> WindowEnd
        ensures awaited { result.awaited ≡ window_end view.now }
        ensures empty { string_bytes result.lines ≡ [] }
    {
        WindowEnd {
            awaited: window_end(view),
            lines: String::new(alloc),
        }
    }

    /// Looks at a station, by whether a boundary is owed. Where that is the first that is no longer
    /// within the window, it tells the entries.
    pub(crate) fn watch<L: Lookaside>(
        &mut self,
        station: &Station<L>,
        owed: bool,
    ) -> Result<(), AllocError>
        ensures { OnOk result (WatchesAt owed station.now.held self.old self.new) }
    {
        if owed || ends_later(self.awaited, station.time()) {
            return Ok(());
        }
        self.awaited = None;
        push_window(&mut self.lines, station)
    }
}
