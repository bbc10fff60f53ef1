//! What came to the consoles and to the log while a run went on.
ghost use Rattle.std.specs.Prelude.{◌≡◌, ◌<◌, ◌++◌, OnOk};
ghost use Rattle.ds_debug.specs.Resumes.{grown_by, lengths_of, more_text};

use crate::goals::grown;
use crate::look::console_text;
use ds_gdb::push_outputs;
use ds_station::Station;
use ds_tlb::Lookaside;
use std::alloc::{AllocError, Global};

/// How many bytes the four consoles and the log have.
#[derive(Clone, Copy, Debug, PartialEq, Eq)]
pub struct Lengths {
    pub first: usize,
    pub second: usize,
    pub third: usize,
    pub fourth: usize,
    pub log: usize,
}

/// How many bytes the four consoles and the log have.
pub(crate) fn lengths_of<L: Lookaside>(station: &Station<L>) -> Lengths
    ensures { result ≡ lengths_of station.now.held }
{
    Lengths {
        first: console_text(station, 0).len(),
        second: console_text(station, 1).len(),
        third: console_text(station, 2).len(),
        fourth: console_text(station, 3).len(),
        log: station.log().len(),
    }
}

/// Adds the packets of what came to a text since it had so many bytes.
fn push_more(alloc: Global, out: &mut Vec<u8>, text: &[u8], before: usize) -> Result<(), AllocError>
    ensures { OnOk result (out.new.items ≡ out.old.items ++ more_text before text.now) }
{
    push_outputs(alloc, out, grown(text, before))
}

/// Adds the packets of what came to the consoles and to the log since they had so much.
#[tactic(auto, unfolding(crate::specs::Resumes::grown_by))]
pub(crate) fn push_grown<L: Lookaside>(
    alloc: Global,
    out: &mut Vec<u8>,
    station: &Station<L>,
    before: Lengths,
) -> Result<(), AllocError>
    ensures { OnOk result (out.new.items ≡ out.old.items ++ grown_by before station.now.held) }
{
    push_more(alloc, out, console_text(station, 0), before.first)?;
    push_more(alloc, out, console_text(station, 1), before.second)?;
    push_more(alloc, out, console_text(station, 2), before.third)?;
    push_more(alloc, out, console_text(station, 3), before.fourth)?;
    push_more(alloc, out, station.log(), before.log)
}
