//! The machine: the processor, its bus, and the characters that come in and go out.
ghost use Rattle.std.specs.Prelude.{◌≡◌, ◌≤◌, IfOk, OnOk, OnErr, true, false};
ghost use Rattle.ds_bare.specs.Faults.{may_start};
ghost use Rattle.ds_bare.specs.Machine.{bus_fed, core_at_start, memory_with, still_coming, with_sent};

use crate::counts::Counts;
use crate::ending::{Ending, Processor, ending_by, word_at_pc};
use ds_asm::Image;
use ds_core::{Core, Event};
use ds_cp0::Cp0;
use ds_dev::Bus;
use ds_mem::{Memory, OutOfMemory};
use ds_policy::Character;
use ds_tlb::{BadRandom, Indexed, Lookaside};
use std::alloc::{AllocError, Global};
use std::marker::Model;

/// The image's first address: 00400000 in kseg0.
const FIRST: u32 = 0x8040_0000;

/// The frame at 00400000.
const FIRST_FRAME: u32 = 1024;

/// How many pages an image has at most.
const PAGES: u8 = 16;

/// The machine; a contract sees it as the record of its parts.
#[derive(Drop)]
pub struct Machine<'a> {
    pub(crate) core: Processor,
    pub(crate) bus: Bus,
    coming: &'a [Character],
    pub(crate) sent: Vec<(u8, u8)>,
    pub(crate) counts: Counts,
}

impl<'a> Model for Machine<'a> {
    ghost use Rattle.ds_bare.specs.Machine.{Machine};

    ghost Value = { Machine };

    ghost view = { λ m. record {
      core = m.core;
      bus = m.bus;
      coming = m.coming.now;
      sent = m.sent.items;
      counts = m.counts;
    } };
}

/// A new processor at the image's first word.
pub(crate) fn core_at_start(random: u8) -> Result<Processor, BadRandom>
    ensures start { IfOk result (λ core. core ≡ core_at_start random) }
    ensures made { OnOk result (may_start random ≡ true) }
    ensures refused { OnErr result (may_start random ≡ false) }
{
    let tlb = Indexed::<64, 8>::new(random as usize)?;
    Ok(Core {
        registers: [0; 32],
        hi: 0,
        lo: 0,
        late: None,
        pc: FIRST,
        next: FIRST + 4,
        slot: false,
        cp0: Cp0::new(),
        tlb,
    })
}

/// Memory with an image.
#[tactic(auto, unfolding(crate::specs::Machine::memory_with))]
fn memory_with(alloc: Global, image: &Image) -> Result<Memory, OutOfMemory>
    ensures { IfOk result (λ memory. memory ≡ memory_with image.now 16) }
{
    let mut memory = Memory::new(alloc)?;
    for page in 0..PAGES {
        image.page(page, memory.frame_mut(FIRST_FRAME + u32::from(page)));
    }
    Ok(memory)
}

/// Lets the characters come in whose time has come, and answers those that are still to come.
fn feed<'a>(bus: &mut Bus, time: u64, coming: &'a [Character]) -> &'a [Character]
    ensures bus { bus.new ≡ bus_fed time coming.entry.now bus.old }
    ensures rest { result.now ≡ still_coming time coming.entry.now }
{
    let mut left = coming;
    while let [first, rest @ ..] = left {
        if first.time > time {
            return left;
        }
        bus.receive(first.line, first.byte);
        left = rest;
    }
    left
}

/// Adds a character that was sent, if one was.
fn add_sent(sent: &mut Vec<(u8, u8)>, character: Option<(u8, u8)>) -> Result<(), AllocError>
    ensures { OnOk result (sent.new.items ≡ with_sent sent.old.items character) }
{
    match character {
        Some(character) => {
            sent.push(character)?;
            Ok(())
        }
        None => Ok(()),
    }
}

impl<'a> Machine<'a> {
    ghost use Rattle.std.specs.Prelude.{◌≡◌, ◌↔◌, ◌<◌, ◌≤◌, IfOk, OnOk, OnErr, IfErr};
    ghost use Rattle.ds_bare.specs.Machine.{counted, fed, machine_with, next_step, settled_machine, stepped};
    ghost use Rattle.ds_bare.specs.Runs.{ending_at, turned};

    /// A processor with an image in its memory.
    pub(crate) fn new(
        alloc: Global,
        core: Processor,
        image: &Image,
        keys: &'a [Character],
    ) -> Result<Machine<'a>, OutOfMemory>
        ensures { IfOk result (λ m. m ≡ machine_with core image.now keys.entry.now) }
    {
        let memory = memory_with(alloc, image)?;
        Ok(Machine {
            core,
            bus: Bus::new(memory),
            coming: keys,
            sent: Vec::new(alloc),
            counts: Counts::none(),
        })
    }

    /// Lets the characters come in that are due when so many instructions are done.
    #[inline(always)]
    #[tactic(auto, unfolding(crate::specs::Machine::fed), using(crate::proofs::Coming::fewer_come))]
    pub(crate) fn feed(&mut self, time: u64)
        ensures { self.new ≡ fed time self.old }
    {
        let coming = feed(&mut self.bus, time, self.coming);
        let came = self.coming.len() - coming.len();
        self.counts = self.counts.with_characters(came);
        self.coming = coming;
    }

    /// Does the next step.
    #[inline(always)]
    #[tactic(auto, unfolding(crate::specs::Machine::next_step, crate::specs::Machine::stepped))]
    pub(crate) fn step(&mut self) -> Event
        ensures state { self.new ≡ stepped self.old }
        ensures event { result ≡ (next_step self.old).event }
    {
        self.core.step(&mut self.bus)
    }

    /// Counts the last step, by the instruction's word and what became of it.
    #[inline(always)]
    #[tactic(auto, unfolding(crate::specs::Machine::counted))]
    pub(crate) fn count(&mut self, word: Option<u32>, event: Event)
        ensures { self.new ≡ counted word event self.old }
    {
        self.counts = self.counts.with_step(word, event, &self.core, &self.bus);
    }

    /// Lets a tick pass, and the character leave that a line has sent.
    #[inline(always)]
    #[tactic(auto, unfolding(crate::specs::Machine::settled_machine))]
    pub(crate) fn settle(&mut self) -> Result<(), AllocError>
        ensures { OnOk result (self.new ≡ settled_machine self.old) }
    {
        self.bus.tick(1);
        let sent = self.bus.sent();
        add_sent(&mut self.sent, sent)
    }

    /// Does one instruction, when so many are done, and answers why a run ends with it.
    #[inline(always)]
    #[tactic(auto, unfolding(crate::specs::Runs::ending_at, crate::specs::Runs::turned, crate::specs::Endings::ending_of))]
    pub fn turn(&mut self, done: u64) -> Result<Option<Ending>, AllocError>
        ensures state { OnOk result (self.new ≡ turned done self.old) }
        ensures ending { IfOk result (λ ending. ending ≡ ending_at done self.old) }
    {
        self.feed(done);
        let word = word_at_pc(&self.core, &self.bus);
        let event = self.step();
        let ending = ending_by(word, event, &self.core, &self.bus);
        self.count(word, event);
        self.settle()?;
        Ok(ending)
    }
}
