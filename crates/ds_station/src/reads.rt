//! What a station shows of its processes.
ghost use Rattle.std.specs.Prelude.{◌≡◌, ◌<◌, ◌≤◌, [], length, slice_get, slice_index_or, IfSome, Some};
ghost use Rattle.ds_pagemap.specs.Boundary.{is_first};
ghost use Rattle.ds_pagemap.specs.Machine.{State, first, process_of};
ghost use Rattle.ds_policy.specs.Pages.{entries_of};
ghost use Rattle.ds_procs.specs.declared.process.Standing.TheVariants.{Ready};
ghost use Rattle.ds_refinement.specs.Held.{last_boundary};
ghost use Rattle.ds_refinement.specs.Units.{has_left_user};
ghost use Rattle.ds_refinement.specs.Stands.{Stands};
ghost use Rattle.ds_station.specs.Reads.{address_held, fetched, general_held, hi_held, is_at, lo_held, memory_held, stage_in_unit, stage_of, unit_on, word_for, word_read};
ghost use Rattle.ds_station.specs.Inner.Reads.{ShowsGeneral};

use crate::stage::Stage;
use crate::station::Station;
use ds_cp0::register;
use ds_isa::{Kind, Late, Size};
use ds_policy::{Access, Entry as PageEntry, TimedCommand, Verdict};
use ds_procs::Standing;
use ds_tlb::{Entry, Lookaside};
use ds_word::wrapping_sum;

/// Four less, in 32 bits.
const BACK: u32 = 0xFFFF_FFFC;

/// The vector of the misses of a user's pages, where the refill handler stands.
const MISS_VECTOR: u32 = 0x8000_0000;

/// The vector of all other exceptions.
const GENERAL_VECTOR: u32 = 0x8000_0080;

impl<L: Lookaside> Station<L> {
    /// How many processes there are, 100 at most: each has its row in the permission table.
    pub fn processes(&self) -> u32
        ensures held { result ≡ length self.now.held.kept.state.processes }
        ensures table { result ≡ length self.now.held.kept.grants.table }
        ensures few { result ≤ 100 }
    {
        self.parts.monitor.seats.len() as u32
    }

    /// The process that runs, which is the first that is ready.
    pub fn runner(&self) -> Option<u32>
        ensures held { result ≡ first self.now.held.kept.state.ready }
        ensures seat { IfSome result
            (λ p. (0 < p) × (p ≤ length self.now.held.kept.state.processes)) }
        ensures ready { IfSome result
            (λ p. (process_of self.now.held.kept.state p).standing ≡ Ready) }
    {
        self.parts.monitor.first_ready()
    }

    /// Whether a process is the one that runs.
    fn runs(&self, process: u32) -> bool
        ensures { result ≡ is_first (first self.now.held.kept.state.ready) process }
    {
        match self.parts.monitor.first_ready() {
            Some(runner) => runner == process,
            None => false,
        }
    }

    /// How a process stands, by its number from 1.
    pub fn standing(&self, process: u32) -> Standing
        requires above { 0 < process }
        requires within { process ≤ length self.now.held.kept.state.processes }
        ensures { result ≡ (process_of self.now.held.kept.state process).standing }
    {
        self.parts.monitor.seats[process as usize - 1].standing()
    }

    /// In user mode, the address of the unit on the processor: in a slot, of its branch.
    fn unit(&self) -> u32
        ensures { result ≡ unit_on self.now.held.core }
    {
        if self.parts.core.slot {
            wrapping_sum(self.parts.core.pc, BACK)
        } else {
            self.parts.core.pc
        }
    }

    /// Where a process goes on. Of the one that runs it is the address of its unit, in user mode.
    pub fn address(&self, process: u32) -> u32
        requires above { 0 < process }
        requires within { process ≤ length self.now.held.kept.state.processes }
        ensures { result ≡ address_held self.now.held process }
    {
        if self.runs(process) {
            self.unit()
        } else {
            self.parts.monitor.seats[process as usize - 1].pc()
        }
    }

    /// The general registers of a process in its seat; of none they are zero.
    fn seated(&self, process: u32) -> [u32; 32]
        ensures { result ≡ (process_of self.now.held.kept.state process).registers.general }
    {
        let seats = &self.parts.monitor.seats;
        match seats.get((process as usize).saturating_sub(1)) {
            Some(seat) => *seat.general(),
            None => [0; 32],
        }
    }

    /// The general registers of a process, of which there may be none. Of the one that runs they are
    /// the processor's, which are the process's own at the beginning of its unit.
    pub fn general(&self, process: u32) -> [u32; 32]
        ensures held { result ≡ general_held self.now.held process }
        ensures shows { 0 < process → ShowsGeneral result self.now.held process }
    {
        if self.runs(process) {
            self.parts.core.registers
        } else {
            self.seated(process)
        }
    }

    /// The register whose load is late on the processor.
    pub fn late(&self) -> Option<Late>
        ensures { result ≡ self.now.held.core.registers.late }
    {
        self.parts.core.late
    }

    /// HI of a process. Of the one that runs it is the processor's, which is the process's own at the
    /// beginning of its unit.
    pub fn hi(&self, process: u32) -> u32
        requires above { 0 < process }
        requires within { process ≤ length self.now.held.kept.state.processes }
        ensures { result ≡ hi_held self.now.held process }
    {
        if self.runs(process) {
            self.parts.core.hi
        } else {
            self.parts.monitor.seats[process as usize - 1].hi()
        }
    }

    /// LO of a process, from the same places.
    pub fn lo(&self, process: u32) -> u32
        requires above { 0 < process }
        requires within { process ≤ length self.now.held.kept.state.processes }
        ensures { result ≡ lo_held self.now.held process }
    {
        if self.runs(process) {
            self.parts.core.lo
        } else {
            self.parts.monitor.seats[process as usize - 1].lo()
        }
    }

    /// When the turn began whose boundary is owed, or else the time, in ticks.
    pub fn turn_began(&self) -> u64
        ensures { result ≡ last_boundary self.now.held.kept.state }
    {
        match self.parts.monitor.owed {
            Some(turn) => turn.began,
            None => self.parts.monitor.time,
        }
    }

    /// The commands that are still to come.
    pub fn commands_to_come(&self) -> &[TimedCommand]
        ensures { result.now ≡ self.now.held.kept.state.commands }
    {
        self.parts.monitor.due.commands()
    }

    /// How many characters are still to come.
    pub fn characters_to_come(&self) -> usize
        ensures { result ≡ length self.now.held.kept.state.characters }
    {
        self.parts.monitor.due.characters()
    }

    /// The characters that wait on a line, from 0, the oldest first.
    pub fn queue(&self, line: usize) -> &[u8]
        requires { line < 4 }
        ensures held { result.now ≡ slice_index_or self.now.held.kept.state.queues line [] }
        ensures four { length self.now.held.kept.state.queues ≡ 4 }
    {
        self.parts.monitor.queues[line].text()
    }

    /// The word at an address, where the process may fetch it.
    pub fn word_at(&self, process: u32, address: u32) -> Option<u32>
        requires above { 0 < process }
        requires within { process ≤ length self.now.held.kept.state.processes }
        ensures { result ≡ fetched (memory_held self.now.held) process address }
    {
        self.word_for(Kind::Fetch, process, address)
    }

    /// The word at an address, where the entries of the process let it read it.
    pub fn word_read(&self, process: u32, address: u32) -> Option<u32>
        requires above { 0 < process }
        requires within { process ≤ length self.now.held.kept.state.processes }
        ensures held { result ≡ word_read (memory_held self.now.held) process address }
        ensures stands { (m : State) → Stands self.now.held m
            → result ≡ word_read m.memory process address }
    {
        self.word_for(Kind::Load, process, address)
    }

    /// The word at an address, where the process may have it so.
    fn word_for(&self, kind: Kind, process: u32, address: u32) -> Option<u32>
        requires above { 0 < process }
        requires within { process ≤ length self.now.held.kept.state.processes }
        ensures { result ≡ word_for kind (memory_held self.now.held) process address }
    {
        let access = Access {
            kind,
            size: Size::Word,
        };
        match self
            .parts
            .monitor
            .grants
            .table()
            .decide(process, access, address)
        {
            Verdict::Allowed { page, offset } => {
                let place = self.parts.frame_of(page) * 4096 + offset;
                Some(self.parts.bus.word(place))
            }
            Verdict::Denied { .. } => None,
        }
    }

    /// The entries of a process in the permission table, by its number from 1; of none there are none.
    #[tactic(auto, using(crate::proofs::Showing::entries_past))]
    pub fn entries(&self, process: u32) -> &[PageEntry]
        requires above { 0 < process }
        ensures { result.now ≡ entries_of self.now.held.kept.grants.table process }
    {
        let table = self.parts.monitor.grants.table();
        if process as usize <= table.processes() {
            table.entries(process)
        } else {
            &[]
        }
    }

    /// Whether the processor is in kernel mode at a vector.
    fn is_at(&self, vector: u32) -> bool
        ensures { result ≡ is_at vector self.now.held.core }
    {
        !self.parts.core.cp0.user() && self.parts.core.pc == vector
    }

    /// Whether the exception came from user mode: bit 3 of Status is the mode that was left.
    fn has_left_user(&self) -> bool
        ensures { result ≡ has_left_user self.now.held.core }
    {
        (self.parts.core.cp0.read(register::STATUS) >> 3) & 1 == 1
    }

    /// What the next step of a unit is to the processor.
    fn stage_in_unit(&self) -> Stage
        ensures { result ≡ stage_in_unit self.now.held.core }
    {
        if self.is_at(GENERAL_VECTOR) {
            if self.has_left_user() {
                Stage::Service
            } else {
                Stage::DoubleMiss
            }
        } else if self.is_at(MISS_VECTOR) {
            Stage::Refill
        } else {
            Stage::Instruction
        }
    }

    /// What the next step is to the processor.
    pub fn stage(&self) -> Stage
        ensures { result ≡ stage_of self.now.held }
    {
        match self.parts.monitor.owed {
            Some(_) => Stage::Rest,
            None => match self.parts.monitor.first_ready() {
                Some(_) => self.stage_in_unit(),
                None => Stage::Rest,
            },
        }
    }

    /// How many slots the translation lookaside buffer has: 64.
    pub fn slots(&self) -> usize
        ensures all { result ≡ length self.now.held.core.entries }
        ensures number { result ≡ 64 }
    {
        let _spent = self.parts.spent;
        64
    }

    /// What a slot of the translation lookaside buffer holds.
    pub fn entry(&self, slot: usize) -> Entry
        requires { slot < length self.now.held.core.entries }
        ensures { slice_get self.now.held.core.entries slot ≡ Some result }
    {
        self.parts.core.tlb.read(slot)
    }
}
