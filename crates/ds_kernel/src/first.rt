//! The beginning of a run.
ghost use Rattle.std.specs.Prelude.{◌≡◌, ◌≤◌, length, IfOk};
ghost use Rattle.ds_tlb.specs.Entries.{empty_entries};
ghost use Rattle.ds_policy.specs.PolicyParts.{sources_of};
ghost use Rattle.ds_policy.specs.InputFacts.{AreGoodCommands};
ghost use Rattle.ds_pagemap.specs.First.{first_state};
ghost use Rattle.ds_refinement.specs.Stands.{Stands};
ghost use Rattle.ds_refinement.specs.First.{first_system, first_core, first_bus, IsFirst};
ghost use Rattle.ds_kernel.specs.Inner.Parts.{held};
ghost use Rattle.ds_kernel.specs.Inner.Good.{IsGood};

use crate::parts::Parts;
use crate::seats::{USER_STATUS, entry_hi_of};
use ds_asm::Image;
use ds_core::Core;
use ds_cp0::{Cp0, register};
use ds_dev::{Bus, Pages};
use ds_isa::Size;
use ds_mem::{Memory, OutOfMemory};
use ds_monitor::Monitor;
use ds_policy::{Events, Policy};
use ds_refill::install;
use ds_tlb::Lookaside;
use ds_word::wrapping_sum;
use std::alloc::Global;

/// Context with the base of the page tables.
const PAGE_TABLES: u32 = 0xc000_0000;

/// The serial lines' control register.
const SERIAL_CONTROL: u32 = 0x1fe0_0000;

/// The lines are scanned, and a received character asks for an interrupt.
const SERIAL_ON: u32 = 0x60;

/// The clock's rate.
const CLOCK_RATE: u32 = 0x1fe8_0028;

/// The clock's enable.
const CLOCK_ENABLE: u32 = 0x1fe8_002c;

/// The end of a period asks for an interrupt.
const CLOCK_ON: u32 = 0x40;

/// The system register.
const SYSTEM: u32 = 0x1ff0_0000;

/// What the serial lines ask for reaches the processor.
const SYSTEM_ON: u32 = 0x0080_0000;

/// The address space of process 1, which runs first.
const FIRST_SPACE: u8 = 1;

/// The coprocessor at the beginning of a run: a user runs in the first address space.
fn first_system() -> Cp0
    ensures { result ≡ first_system }
{
    let mut cp0 = Cp0::new();
    cp0.write(register::STATUS, USER_STATUS);
    cp0.write(register::ENTRY_HI, entry_hi_of(FIRST_SPACE));
    cp0.write(register::CONTEXT, PAGE_TABLES);
    cp0
}

/// A processor at the start of a program, with all registers zero.
fn first_core<L: Lookaside>(tlb: L, pc: u32) -> Core<L>
    ensures { result ≡ first_core (L.entries tlb) (L.random_place tlb) pc }
{
    Core {
        registers: [0; 32],
        hi: 0,
        lo: 0,
        late: None,
        pc,
        next: wrapping_sum(pc, 4),
        slot: false,
        cp0: first_system(),
        tlb,
    }
}

/// The devices over a memory, set as a station has them, with the clock at a rate.
fn first_bus(memory: Memory, pages: Pages, rate: u32) -> Bus
    requires { rate ≤ 15 }
    ensures { result ≡ first_bus memory rate }
{
    let mut bus = Bus::with_pages(memory, pages);
    // Each of these registers takes a word.
    let _ = bus.store(SERIAL_CONTROL, Size::Word, SERIAL_ON);
    let _ = bus.store(CLOCK_RATE, Size::Word, rate);
    let _ = bus.store(CLOCK_ENABLE, Size::Word, CLOCK_ON);
    let _ = bus.store(SYSTEM, Size::Word, SYSTEM_ON);
    bus
}

impl<L: Lookaside> Parts<L> {
    /// What a station holds at the beginning of a run of a policy, over an empty buffer: the
    /// refill handler at the vector of misses, the processes at their start, the images in their
    /// pages, and what is to come. There is one image
    /// for each source name of the policy, in their order. Refused only where the host has no room
    /// for it.
    pub fn new(
        alloc: Global,
        policy: &Policy,
        images: &[Image],
        events: Events,
        mut tlb: L,
    ) -> Result<Parts<L>, OutOfMemory>
        requires slots { L.SLOTS ≡ 64 }
        requires wired { L.WIRED ≡ 8 }
        requires commands { AreGoodCommands (length policy.now.pages) events.commands }
        requires images { length images.now ≡ length (sources_of policy.now.pages) }
        requires empty { L.entries tlb ≡ empty_entries L.SLOTS }
        ensures first { IfOk result (λ p. IsFirst policy.now images.now events
            (L.random_place tlb) (held p)) }
        ensures stands { IfOk result (λ p. Stands (held p)
            (first_state policy.now images.now events)) }
        ensures good { IfOk result (λ p. IsGood p) }
    {
        let mut memory = Memory::new(alloc)?;
        install(&mut memory);
        let pages = Pages::new(alloc)?;
        let monitor = Monitor::new(alloc, policy, images, events, &mut memory, &mut tlb)?;
        // All of memory is there, and each page that the table names lies in it.
        let _ = memory.word(0);
        let _ = monitor.grants.table();
        let parts = Parts {
            core: first_core(tlb, policy.processes()[0].start),
            bus: first_bus(memory, pages, policy.rate()),
            monitor,
            failed: false,
            spent: 0,
            wired: 0,
            written: [0; 4],
            refills: 0,
            since: 0,
            tables: 0,
            services: 0,
        };
        parts.show_whole_processor();
        Ok(parts)
    }
}
