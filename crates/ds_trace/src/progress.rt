//! What is kept of a run while it is followed.
ghost use Rattle.std.specs.Prelude.{◌≡◌, OnOk, is_some};
ghost use Rattle.ds_trace.specs.Counts.{none_counted};
ghost use Rattle.ds_trace.specs.Inner.Shows.{progress_held};

use crate::before::Before;
use crate::counts::Counts;
use ds_station::Station;
use ds_tlb::Lookaside;
use ds_words::View;
use std::alloc::{AllocError, Global};

/// What is looked at before the next half turn, and what was counted so far.
#[derive(Drop)]
pub(crate) struct Progress {
    pub before: Before,
    pub counts: Counts,
}

impl Progress {
    /// Nothing is known of any station, and nothing is counted.
    pub(crate) fn new(alloc: Global) -> Progress
        ensures { result.counts ≡ none_counted }
    {
        Progress {
            before: Before::new(alloc),
            counts: Counts::new(alloc),
        }
    }

    /// Counts the half turn that is done, and looks at the station for the next.
    pub(crate) fn pass_half_turn<L: Lookaside>(
        &mut self,
        view: &View<'_>,
        station: &Station<L>,
        owed: bool,
    ) -> Result<(), AllocError>
        requires owed { owed ≡ is_some station.now.held.kept.state.owed }
        ensures { OnOk result (self.new ≡ progress_held owed view.now self.old station.now.held) }
    {
        self.counts.add(view, &self.before, station, owed)?;
        self.before.look(view, station, owed)
    }
}
