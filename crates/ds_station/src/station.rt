//! A station: a machine and its monitor.
ghost use Rattle.std.specs.Prelude.{
  ◌≡◌,
  ◌≢◌,
  ◌⊎◌,
  ◌<◌,
  ◌≤◌,
  ◌^◌,
  length,
  [],
  slice_index_or,
  flat_map,
  IfOk,
  IfErr,
  OnOk,
  OnErr,
  IsOk,
  IsErrOf,
  None,
  true,
  false,
};
ghost use Rattle.ds_log.specs.Text.{line_text};
ghost use Rattle.ds_cp0.specs.System.{is_user};
ghost use Rattle.ds_core.specs.Effect.{step};
ghost use Rattle.ds_tlb.specs.Singles.{IsSingle};
ghost use Rattle.ds_policy.specs.PolicyParts.{sources_of};
ghost use Rattle.ds_policy.specs.InputFacts.{AreGoodCommands};
ghost use Rattle.ds_pagemap.specs.Machine.{State};
ghost use Rattle.ds_pagemap.specs.First.{first_state};
ghost use Rattle.ds_refinement.specs.First.{IsFirst};
ghost use Rattle.ds_refinement.specs.Inner.Clear.{ClearPath, IsAtStop};
ghost use Rattle.ds_refinement.specs.Inner.Counts.{IsFew};
ghost use Rattle.ds_refinement.specs.Stands.{Stands};
ghost use Rattle.ds_refinement.specs.Inner.Stands.{IsSound};
ghost use Rattle.ds_refinement.specs.Steps.{Follows, Moves};
ghost use Rattle.ds_refinement.specs.Inner.Steps.{Stays};
ghost use Rattle.ds_refinement.specs.Real.{IsReal, RealPath};
ghost use Rattle.ds_refinement.specs.Inner.Real.{IsNoBusError};
ghost use Rattle.ds_refinement.specs.Inner.Services.{with_failure};
ghost use Rattle.ds_refinement.specs.Inner.Written.{KeepsWritten};
ghost use Rattle.ds_refinement.specs.Runs.{RunsTo, held_goes_on};
ghost use Rattle.ds_refinement.specs.Inner.Runs.{RunsInTime, RunsWithin};
ghost use Rattle.ds_station.specs.Faults.{RefusesStep};
ghost use Rattle.ds_station.specs.Inner.Faults.{IsFaultAfter, IsNewFault, IsStartFault};
ghost use Rattle.ds_station.specs.Inner.Runs.{IsCut};
ghost use Rattle.ds_station.specs.Inner.Alone.{RunsAlone};
ghost use Rattle.ds_promise.specs.Quiet.{IsQuiet};
ghost use Rattle.ds_promise.specs.Twins.{HaveRegisters};
ghost use Rattle.ds_station.specs.Inner.Written.{RunsGuarded, ShowsUntouched};

use crate::fault::Fault;
use ds_ahead::Stops;
use ds_asm::Image;
use ds_kernel::Parts;
use ds_policy::{Events, Policy};
use ds_refinement::Step;
use ds_tlb::Lookaside;
use std::alloc::Global;
use std::marker::Model;

/// A machine and its monitor.
#[derive(Drop)]
pub struct Station<L: Lookaside> {
    pub(crate) parts: Parts<L>,
}

impl<L: Lookaside> Model for Station<L> {
    ghost use Rattle.ds_station.specs.Inner.Station.{IsStation, StationValue, value_of};

    ghost Value = { StationValue };

    ghost view = { λ s. value_of s.parts };

    ghost invariant = { λ s. IsStation L.SLOTS L.WIRED s.parts };
}

impl<L: Lookaside> Station<L> {
    /// A station at the beginning of its run: the processes at their start, the images in their
    /// pages, and Random at `start`. There is one image for each source name of the policy, in
    /// their order, and the events were read for a policy with as many pages.
    pub fn new(
        alloc: Global,
        policy: &Policy,
        images: &[Image],
        events: Events,
        start: usize,
    ) -> Result<Self, Fault>
        requires slots { L.SLOTS ≡ 64 }
        requires wired { L.WIRED ≡ 8 }
        requires images { length images.now ≡ length (sources_of policy.now.pages) }
        requires commands { AreGoodCommands (length policy.now.pages) events.commands }
        ensures begins { IfOk result (λ s. IsFirst policy.now images.now events start s.held) }
        ensures first { IfOk result
            (λ s. Stands s.held (first_state policy.now images.now events)) }
        ensures sound { IfOk result (λ s. IsSound s.held) }
        ensures working { IfOk result (λ s. s.held.own.failed ≡ false) }
        ensures spent { IfOk result (λ s. s.held.own.spent ≡ 0) }
        ensures unowed { IfOk result (λ s. s.held.kept.state.owed ≡ None) }
        ensures refused { ((start < 8) ⊎ (64 ≤ start)) → IsErrOf result Fault.BadRandom }
        ensures faults { IfErr result (λ f. IsStartFault start f) }
    {
        let tlb = L::new(start)?;
        let parts = Parts::new(alloc, policy, images, events, tlb)?;
        Ok(Station { parts })
    }

    /// Another station that holds the same. Refused only where the host has no room for it.
    pub fn try_clone(&self) -> Result<Self, Fault>
        ensures held { IfOk result (λ s. s.held ≡ self.now.held) }
        ensures faults { IfErr result IsNewFault }
    {
        Ok(Station {
            parts: self.parts.try_clone()?,
        })
    }

    /// The program stands at an address of 32 bits.
    #[inline(always)]
    fn show_pc_has_32_bits(&self)
        ensures { self.now.held.core.pc < 2 ^ 32 }
    {
        let _here = self.parts.core.pc;
    }

    /// One machine instruction, one service, an idle turn with its boundary, or the boundary that is
    /// owed. After a failure it answers `Failed`, and nothing changes. It is refused only where there
    /// is no room for a turn. No two entries of the buffer match the same page, and no instruction of
    /// a user meets a bus error.
    /// So far its unit has taken at most 61 instructions, 4 refills, 4 entries of page tables' pages
    /// and 8 services, and Random has come to no slot twice since the first of these refills. What a
    /// refill or a double miss wrote into the buffer stays in its slot while the unit goes on, and
    /// nothing else in the buffer changes; where a page gets a frame of its own, each slot keeps its
    /// page and its address space.
    #[tactic(auto, using(crate::proofs::Runs::sound_single, crate::proofs::Runs::no_error))]
    pub fn step(&mut self) -> Result<Step, Fault>
        requires { self.old.held.kept.state.owed ≡ None
            → self.old.held.kept.state.time < 1000000000 }
        ensures ok { IfOk result (λ step. Follows step self.old.held self.new.held) }
        ensures moves { IfOk result (λ step. Moves step self.old.held self.new.held) }
        ensures real { OnOk result (IsReal self.old.held self.new.held) }
        ensures sound { IsSound self.new.held }
        ensures few { IsFew self.new.held.own }
        ensures keeps { IfOk result (λ step. step ≡ Step.Inside
            → KeepsWritten self.old.held self.new.held) }
        ensures single { IsSingle self.new.held.core.entries }
        ensures bus { self.old.held.kept.state.owed ≡ None → self.old.held.kept.state.ready ≢ []
            → is_user self.old.held.core.system ≡ true
            → IsNoBusError (step self.old.held.core self.old.held.bus).event }
        ensures err { OnErr result (Stays self.old.held self.new.held) }
        ensures still { OnErr result (self.new.held ≡ with_failure self.old.held) }
        ensures refused { IfErr result (λ f. RefusesStep f self.old.held) }
        ensures faults { IfErr result (IsFaultAfter self.old.held.own.failed) }
        ensures whole { OnErr result (self.new.held.kept.state.owed ≡ None) }
        ensures failed { OnErr result (self.new.held.own.failed ≡ true) }
        ensures again { self.old.held.own.failed ≡ true
            → IsErrOf result Fault.Failed × (self.new ≡ self.old) }
        ensures full { self.old.room ≡ true → self.old.held.own.failed ≡ false → IsOk result }
        ensures short { self.old.held.own.failed ≡ false → OnErr result (self.new.room ≡ false) }
    {
        self.show_pc_has_32_bits();
        Ok(self.parts.step()?)
    }

    /// The text of a console line, from 0.
    pub fn console(&self, line: usize) -> &[u8]
        requires { line < 4 }
        ensures held { result.now ≡ slice_index_or self.now.held.kept.state.consoles line [] }
        ensures stands { (m : State) → Stands self.now.held m
            → result.now ≡ slice_index_or m.consoles line [] }
    {
        self.parts.monitor.consoles.text(line)
    }

    /// The text of the log.
    pub fn log(&self) -> &[u8]
        ensures held { result.now ≡ self.now.held.kept.log }
        ensures stands { (m : State) → Stands self.now.held m
            → result.now ≡ flat_map line_text m.log }
    {
        &self.parts.monitor.log
    }

    /// How many lines the log has.
    pub(crate) fn log_lines(&self) -> u64
        ensures { result ≡ self.now.held.kept.lines }
    {
        self.parts.monitor.lines
    }

    /// The time in ticks.
    pub fn time(&self) -> u64
        ensures held { result ≡ self.now.held.kept.state.time }
        ensures stands { (m : State) → Stands self.now.held m → result ≡ m.time }
    {
        self.parts.monitor.time
    }

    /// The machine instructions that the unit has taken so far, 61 at most.
    pub fn spent(&self) -> u32
        ensures all { result ≡ self.now.held.own.spent }
        ensures few { self.now.held.own.spent ≤ 61 }
    {
        self.parts.spent
    }

    /// Does the boundary that is owed, if one is, and then runs until the time is n or all processes
    /// have ended: at most a turn for each tick that is left. Where that is so already nothing changes.
    /// After a failure it answers `Failed`, and nothing changes. It is cut short only where there is
    /// no room for a turn. No two entries of the buffer match the same page.
    #[tactic(auto, using(crate::proofs::Runs::sound_single, crate::proofs::Runs::ran_to, crate::proofs::Runs::ran_in_time, crate::proofs::Runs::cut_in_time, crate::proofs::Runs::cut_within, crate::proofs::Runs::cut_after, crate::proofs::Guarded::run_guarded, crate::proofs::Guarded::cut_guarded, crate::proofs::Alone::run_alone, crate::proofs::Alone::cut_alone))]
    pub fn run(&mut self, n: u64) -> Result<(), Fault>
        requires { n ≤ 1000000000 }
        ensures ok { OnOk result (RunsTo n self.old.held self.new.held) }
        ensures over { OnOk result (held_goes_on n self.new.held ≡ false) }
        ensures real { OnOk result (RealPath self.old.held self.new.held) }
        ensures good { OnOk result (self.new.held.own.failed ≡ false) }
        ensures unit { OnOk result
            (((self.old.held.own.spent ≡ 0) ⊎ (self.old.held.kept.state.time < n))
            → self.new.held.own.spent ≡ 0) }
        ensures err { OnErr result (RunsWithin n self.old.held self.new.held) }
        ensures turns { RunsInTime n self.old.held self.new.held }
        ensures cut { IfErr result (λ f. IsCut f self.old.held self.new.held) }
        ensures going { self.old.held.own.failed ≡ false
            → OnErr result (held_goes_on n self.new.held ≡ true) }
        ensures short { self.old.held.own.failed ≡ false → OnErr result (self.new.room ≡ false) }
        ensures sound { IsSound self.new.held }
        ensures single { IsSingle self.new.held.core.entries }
        ensures faults { IfErr result (IsFaultAfter self.old.held.own.failed) }
        ensures whole { OnErr result (self.new.held.kept.state.owed ≡ None) }
        ensures failed { OnErr result (self.new.held.own.failed ≡ true) }
        ensures again { self.old.held.own.failed ≡ true
            → IsErrOf result Fault.Failed × (self.new ≡ self.old) }
        ensures rest { self.old.held.own.failed ≡ false → held_goes_on n self.old.held ≡ false
            → IsOk result × (self.new ≡ self.old) }
        ensures guarded { RunsGuarded n self.old.held self.new.held }
        ensures quiet { (m : State) → Stands self.old.held m → HaveRegisters m → IsQuiet n m
            → OnOk result (ShowsUntouched n m self.new.held) }
        ensures alone { RunsAlone n self.old.held self.new.held }
    {
        Ok(self.parts.run(n)?)
    }

    /// Runs until the time is n or all processes have ended, or, once something is done, until it
    /// stands between two turns and whoever runs next is at an address that may be among the stops: it
    /// stands so nowhere before, but where it begins.
    pub fn run_until(&mut self, n: u64, stops: &Stops) -> Result<(), Fault>
        requires { n ≤ 1000000000 }
        ensures within { OnOk result (RunsWithin n self.old.held self.new.held) }
        ensures clear { OnOk result (ClearPath stops.now self.old.held self.new.held) }
        ensures ends { OnOk result ((held_goes_on n self.new.held ≡ false)
            ⊎ IsAtStop stops.now self.new.held) }
        ensures good { OnOk result (self.new.held.own.failed ≡ false) }
        ensures unit { OnOk result
            (((self.old.held.own.spent ≡ 0) ⊎ (self.old.held.kept.state.time < n))
            → self.new.held.own.spent ≡ 0) }
        ensures short { self.old.held.own.failed ≡ false → OnErr result (self.new.room ≡ false) }
    {
        Ok(self.parts.run_until(n, stops)?)
    }
}
