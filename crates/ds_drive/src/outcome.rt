//! What a run came to, and what is told of it.
ghost use Rattle.std.specs.Prelude.{◌≡◌, ◌≢◌, ◌≤◌, ◌++◌, [], IfErr, IfOk, OnErr, OnOk, true};
ghost use Rattle.std.specs.List.{All};
ghost use Rattle.ds_drive.specs.Listening.{IsToldText, listener};
ghost use Rattle.ds_drive.specs.Outcomes.{IsFollowed, came_of, end_told, left, wants_more, where_asked, where_wanted};
ghost use Rattle.ds_drive.specs.Inner.Outcomes.{came_status, is_more};
ghost use Rattle.ds_drive.specs.Windows.{windows_text};
ghost use Rattle.ds_text.specs.Sent.{AppendsPart};
ghost use Rattle.ds_pagemap.specs.Machine.{State};
ghost use Rattle.ds_refinement.specs.Stands.{Stands};
ghost use Rattle.ds_station.specs.Outcome.{first_unended};
ghost use Rattle.ds_trace.specs.Accounts.{account_text};
ghost use Rattle.ds_trace.specs.Inner.Handed.{IsLate};
ghost use Rattle.ds_words.specs.Windows.{IsWindow, windows_in};

use crate::status::{DONE, RUN_FAILED, UNENDED};
use crate::windows::send_windows;
use ds_station::{Extent, Fault, Station, Unended};
use ds_text::{Output, send};
use ds_tlb::Lookaside;
use ds_trace::{account, unended_line};
use ds_words::Extras;
use std::alloc::{AllocError, Global};

/// What a run came to.
#[derive(Clone, Copy, Debug, PartialEq, Eq)]
pub enum Came {
    /// It has ended, and all that the words want of it is so.
    Done,
    /// It has ended, and a process has not, though all have to.
    Unended,
    /// It was left with more bytes than it may write.
    TooMuch,
}

/// What a run came to, and what is told of it on standard error.
#[derive(Drop)]
pub struct Outcome {
    pub came: Came,
    pub told: Vec<u8>,
}

impl Came {
    /// The status.
    fn status(self) -> u8
        ensures { result ≡ came_status self }
    {
        match self {
            Came::Done => DONE,
            Came::Unended => UNENDED,
            Came::TooMuch => RUN_FAILED,
        }
    }
}

/// Tells what a run came to, where there is anything to tell, and answers the status.
#[tactic(auto, using(crate::proofs::Heard::told_so, crate::proofs::Heard::untold, crate::proofs::Coming::few_statuses, crate::proofs::Coming::never_one, crate::proofs::Coming::never_two))]
pub(crate) fn tell_outcome<E: Output>(err: &mut E, outcome: &Outcome) -> u8
    ensures status { result ≡ came_status outcome.now.came }
    ensures few { result ≤ 4 }
    ensures not_words { result ≢ 1 }
    ensures not_input { result ≢ 2 }
    ensures told { IsToldText (listener (E.contents err.old) (E.contents err.new)
        (E.answers err.old) (E.answers err.new))
        outcome.now.told.items }
    ensures silent { outcome.now.told.items ≡ [] → E.contents err.new ≡ E.contents err.old }
{
    if outcome.told.is_empty() {
        return outcome.came.status();
    }
    let _ = send(err, &outcome.told);
    outcome.came.status()
}

/// The account of a run for `n` by the station where it was left, where the words want one.
pub(crate) fn summary_of<L: Lookaside>(
    alloc: Global,
    station: &Station<L>,
    is_wanted: bool,
    n: u64,
) -> Result<Vec<u8>, AllocError>
    ensures ok { IfOk result (λ text. text.items ≡ where_asked is_wanted
        (account_text n station.now.held)) }
    ensures more { OnErr result (is_wanted ≡ true) }
{
    if is_wanted {
        account(alloc, station, n)
    } else {
        Ok(Vec::new(alloc))
    }
}

/// The first process that has not ended, where all have to.
fn unmet<L: Lookaside>(station: &Station<L>, must_end: bool) -> Option<Unended>
    ensures { result ≡ where_wanted must_end (first_unended station.now.held.kept.state) }
{
    if must_end {
        station.first_unended()
    } else {
        None
    }
}

/// Adds the line that tells that a process has not ended, where there is one.
#[tactic(auto, using(crate::proofs::Unmet::unmet_above, crate::proofs::Unmet::unmet_within))]
fn push_unmet<L: Lookaside>(
    alloc: Global,
    told: &mut Vec<u8>,
    station: &Station<L>,
    must_end: bool,
) -> Result<Came, AllocError>
    ensures came { IfOk result (λ came. came
        ≡ came_of Extent.Whole (where_wanted must_end (first_unended station.now.held.kept.state))) }
    ensures told { OnOk result (told.new.items ≡ told.old.items ++ end_told Extent.Whole
        station.now.held (where_wanted must_end (first_unended station.now.held.kept.state))) }
{
    match unmet(station, must_end) {
        Some(unended) => {
            let line = unended_line(alloc, station, unended)?;
            told.extend_from_slice(&line)?;
            Ok(Came::Unended)
        }
        None => Ok(Came::Done),
    }
}

/// Adds the line that tells what a run came to, where it is not done, and answers that.
fn push_end<L: Lookaside>(
    alloc: Global,
    told: &mut Vec<u8>,
    station: &Station<L>,
    must_end: bool,
    extent: Extent,
) -> Result<Came, AllocError>
    ensures came { IfOk result (λ came. came
        ≡ came_of extent (where_wanted must_end (first_unended station.now.held.kept.state))) }
    ensures told { OnOk result (told.new.items ≡ told.old.items ++ end_told extent
        station.now.held (where_wanted must_end (first_unended station.now.held.kept.state))) }
{
    match extent {
        Extent::Whole => push_unmet(alloc, told, station, must_end),
        Extent::TooMuch => {
            told.extend_from_slice(b"dsmon: 27 TooMuch\n")?;
            Ok(Came::TooMuch)
        }
    }
}

/// Writes the windows of a run that came to where the station is, and answers what it came to, and what
/// is told of it after this summary.
pub(crate) fn finish<L: Lookaside, O: Output>(
    alloc: Global,
    station: &Station<L>,
    extras: &Extras,
    extent: Extent,
    summary: Vec<u8>,
    out: &mut O,
) -> Result<Outcome, Fault>
    requires { All IsWindow (windows_in extras.now.memory) }
    ensures ok { IfOk result (λ o. (m : State) → Stands station.now.held m
        → IsFollowed extras.now summary.items o (O.contents out.old) (O.contents out.new)
        (left extent station.now.held m)) }
    ensures err { OnErr result ((m : State) → Stands station.now.held m
        → AppendsPart (O.contents out.old) (O.contents out.new)
        (windows_text m (windows_in extras.now.memory))) }
    ensures late { IfErr result IsLate }
    ensures more { OnErr result (is_more extras.now extent ≡ true) }
{
    if !is_more(extras, extent) {
        return Ok(Outcome {
            came: Came::Done,
            told: summary,
        });
    }
    send_windows(alloc, station, extras.memory.as_slice(), out)?;
    let mut told = summary;
    let came = push_end(alloc, &mut told, station, extras.must_end, extent)?;
    Ok(Outcome { came, told })
}

/// Whether the words want something beside the text of a run that was left so, or it was left with too
/// much.
fn is_more(extras: &Extras, extent: Extent) -> bool
    ensures { result ≡ is_more extras.now extent }
{
    match extent {
        Extent::Whole => wants_more(extras),
        Extent::TooMuch => true,
    }
}

/// Whether the words want something beside the text of a run.
fn wants_more(extras: &Extras) -> bool
    ensures { result ≡ wants_more extras.now }
{
    extras.must_end || extras.summary || !extras.memory.as_slice().is_empty()
}
