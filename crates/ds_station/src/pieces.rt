//! A run in pieces, which stops where its text has grown too long.
ghost use Rattle.std.specs.Prelude.{◌≡◌, ◌≤◌, Err, IfErr, IfOk, None, OnErr, OnOk, false, nat_lt, true};
ghost use Rattle.ds_text.specs.Sent.{IsAskedOnce};
ghost use Rattle.ds_pagemap.specs.Inputs.{Refusal, inputs_under, inputs_under_by};
ghost use Rattle.ds_refinement.specs.Real.{RealPath};
ghost use Rattle.ds_refinement.specs.Runs.{held_goes_on};
ghost use Rattle.ds_refinement.specs.Inner.Runs.{RunsWithin};
ghost use Rattle.ds_refinement.specs.Inner.Stands.{IsSound};
ghost use Rattle.ds_station.specs.Faults.{is_unwritten};
ghost use Rattle.ds_station.specs.Inner.Faults.{IsFaultAfter};
ghost use Rattle.ds_station.specs.Headline.{Begins, EndsBy, IsRefused, loaded_with, sources_seen};
ghost use Rattle.ds_station.specs.Pieces.{ComesReally, PieceComesTo, size_held};
ghost use Rattle.ds_station.specs.Inner.Pieces.{WritesUpTo};
ghost use Rattle.ds_station.specs.Inner.Runs.{IsCut};

use crate::fault::Fault;
use crate::files::{deliver, prepare};
use crate::station::Station;
use ds_policy::Policy;
use ds_text::Output;
use ds_tlb::{Indexed, Lookaside};
use std::alloc::Global;

/// So many ticks are run before what was written is looked at again.
pub const PIECE: u64 = 65536;

/// How far a run went that was to stop where its text had grown too long.
#[derive(Clone, Copy, Debug, PartialEq, Eq)]
pub enum Extent {
    /// To its end.
    Whole,
    /// To the end of the piece in which consoles and log together passed the bound.
    TooMuch,
}

/// A station that ran under a bound of its text, and how far it went.
#[derive(Drop)]
pub struct Bounded {
    pub station: Station<Indexed<64, 8>>,
    pub extent: Extent,
}

impl<L: Lookaside> Station<L> {
    /// Whether the consoles and the log have more bytes together than these.
    fn has_more_than(&self, most: u64) -> bool
        ensures { result ≡ nat_lt most (size_held self.now.held) }
    {
        let consoles = self.console(0).len() as u128
            + self.console(1).len() as u128
            + self.console(2).len() as u128
            + self.console(3).len() as u128;
        u128::from(most) < consoles + self.log().len() as u128
    }

    /// As `run`, in pieces that end at each 65,536th tick. After each piece it stops if the consoles
    /// and the log have more than `most` bytes together, and that is `TooMuch`, also where the run is
    /// over by then: it was left between two turns. Else it is over, and no more bytes were written.
    pub fn run_at_most(&mut self, n: u64, most: u64) -> Result<Extent, Fault>
        requires { n ≤ 1000000000 }
        ensures ok { IfOk result (λ extent. PieceComesTo extent n most self.old.held self.new.held) }
        ensures within { RunsWithin n self.old.held self.new.held }
        ensures real { OnOk result (RealPath self.old.held self.new.held) }
        ensures cut { IfErr result (λ f. IsCut f self.old.held self.new.held) }
        ensures going { self.old.held.own.failed ≡ false
            → OnErr result (held_goes_on n self.new.held ≡ true) }
        ensures whole { self.new.held.kept.state.owed ≡ None }
        ensures faults { IfErr result (IsFaultAfter self.old.held.own.failed) }
        ensures sound { IsSound self.new.held }
    {
        for piece in 1..n / PIECE + 1 {
            match self.run(piece * PIECE) {
                Ok(()) => {}
                Err(fault) => return Err(fault),
            }
            if self.has_more_than(most) {
                return Ok(Extent::TooMuch);
            }
        }
        match self.run(n) {
            Ok(()) => {}
            Err(fault) => return Err(fault),
        }
        if self.has_more_than(most) {
            Ok(Extent::TooMuch)
        } else {
            Ok(Extent::Whole)
        }
    }
}

/// As `run_station`, by `run_at_most`: what is written is the text of the state in which the run was
/// over, or was left with more than `most` bytes of consoles and log.
pub fn run_station_at_most<O: Output>(
    alloc: Global,
    policy: &Policy,
    sources: &[(&str, &[u8])],
    input: &[u8],
    n: u64,
    random: u8,
    most: u64,
    out: &mut O,
) -> Result<Bounded, Fault>
    ensures ok { IfOk result (λ b. Begins
        (inputs_under policy.now (sources_seen sources.now) input.now n random)
        (WritesUpTo b.extent most b.station.held (O.contents out.old) (O.contents out.new) n)) }
    ensures real { IfOk result (λ b. Begins
        (inputs_under_by loaded_with policy.now (sources_seen sources.now) input.now n random)
        (ComesReally b.extent n most random b.station.held)) }
    ensures err { IfErr result (λ f. EndsBy f
        (inputs_under policy.now (sources_seen sources.now) input.now n random)
        (O.contents out.old) (O.contents out.new) n) }
    ensures refused { (refusal : Refusal)
        → inputs_under policy.now (sources_seen sources.now) input.now n random ≡ Err refusal
        → IsRefused result refusal (O.contents out.old) (O.contents out.new) }
    ensures once { IsAskedOnce (O.answers out.old) (O.answers out.new) (is_unwritten result) }
{
    let mut station = match prepare(alloc, policy, sources, input, n, random) {
        Ok(station) => station,
        Err(refused) => return Err(refused),
    };
    let ran = station.run_at_most(n, most);
    match deliver(&station, out) {
        Ok(()) => {}
        Err(_) => return Err(Fault::WriteFault),
    }
    let extent = match ran {
        Ok(extent) => extent,
        Err(fault) => return Err(fault),
    };
    Ok(Bounded { station, extent })
}
