//! What a run begins with, and stations of its runs.
ghost use Rattle.std.specs.Prelude.{◌≡◌, ◌≤◌, IfErr, IfOk, None, OnOk, false};
ghost use Rattle.ds_station.specs.Headline.{Refuses};
ghost use Rattle.ds_debug.specs.Inputs.{IsBeginning, first_state_of};
ghost use Rattle.ds_debug.specs.Inner.Inputs.{inputs_seen};

use ds_policy::Policy;
use ds_station::{Fault, Station, prepare};
use ds_tlb::Indexed;
use std::alloc::Global;

/// What a run begins with.
#[derive(Clone, Copy)]
pub struct Inputs<'a> {
    pub policy: &'a Policy,
    /// The sources by their names and texts.
    pub sources: &'a [(&'a str, &'a [u8])],
    /// The text of the input.
    pub input: &'a [u8],
    /// Where Random begins, from 8 to 63.
    pub random: u8,
}

/// A station at the beginning of a run of these for `limit` ticks. They are refused as by `prepare`.
pub(crate) fn station_at_start<'a>(
    alloc: Global,
    inputs: Inputs<'a>,
    limit: u64,
) -> Result<Station<Indexed<64, 8>>, Fault>
    ensures begins { IfOk result (λ s. IsBeginning (inputs_seen inputs.entry) limit s.held) }
    ensures limit { OnOk result (limit ≤ 1000000000) }
    ensures whole { IfOk result (λ s. s.held.kept.state.owed ≡ None) }
    ensures spent { IfOk result (λ s. s.held.own.spent ≡ 0) }
    ensures working { IfOk result (λ s. s.held.own.failed ≡ false) }
    ensures err { IfErr result (λ f. Refuses f (first_state_of (inputs_seen inputs.entry) limit)) }
{
    prepare(
        alloc,
        inputs.policy,
        inputs.sources,
        inputs.input,
        limit,
        inputs.random,
    )
}
