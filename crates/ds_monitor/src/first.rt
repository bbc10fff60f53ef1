//! What is kept at the beginning of a run.
ghost use Rattle.std.specs.Prelude.{◌≡◌, ◌≤◌, length, map, replicate, [], IfOk, OnErr, OnOk, ℕ, ◌<◌};
ghost use Rattle.ds_policy.specs.PolicyParts.{sources_of};
ghost use Rattle.ds_policy.specs.InputFacts.{AreGoodCommands};
ghost use Rattle.ds_pagemap.specs.First.{first_process, first_state, numbers};
ghost use Rattle.ds_refinement.specs.First.{first_kept};
ghost use Rattle.ds_refinement.specs.Inner.Stands.{IsKept};
ghost use Rattle.ds_mem.specs.Memory.{frame_of};
ghost use Rattle.ds_tlb.specs.Entries.{empty_entries};
ghost use Rattle.ds_tables.specs.Tables.{HasEmptyTable};
ghost use Rattle.ds_grants.specs.Represented.{IsRepresented};
ghost use Rattle.ds_monitor.specs.Inner.Kept.{kept_of};
ghost use Rattle.ds_monitor.specs.Inner.Coming.{next_due};
ghost use Rattle.ds_monitor.specs.Inner.Orderly.{IsOrderly};

use crate::consoles::Consoles;
use crate::due::Due;
use crate::ends::end_or_never;
use crate::line_queue::LineQueue;
use crate::monitor::Monitor;
use crate::seat::Seat;
use ds_asid::Asids;
use ds_asm::Image;
use ds_grants::Grants;
use ds_mem::{Memory, OutOfMemory};
use ds_policy::{Events, Policy, PolicyProcess};
use ds_procs::Queue;
use ds_tables::Tables;
use ds_tlb::Lookaside;
use std::alloc::Global;

/// The number of lines.
const LINES: usize = 4;

/// The seats of a policy's processes at their start.
fn seats_of(alloc: Global, processes: &[PolicyProcess]) -> Result<Vec<Seat>, OutOfMemory>
    ensures { IfOk result (λ seats. seats.items ≡ map first_process processes.now) }
{
    let mut seats = Vec::new(alloc);
    for process in processes {
        if seats.push(Seat::new(*process)).is_err() {
            return Err(OutOfMemory);
        }
    }
    Ok(seats)
}

/// A queue for each line, in which nothing waits.
fn empty_queues(alloc: Global) -> Result<Vec<LineQueue>, OutOfMemory>
    ensures { IfOk result (λ queues. queues.items ≡ replicate 4 []) }
{
    let mut queues = Vec::new(alloc);
    for _ in 0..LINES {
        if queues.push(LineQueue::new()).is_err() {
            return Err(OutOfMemory);
        }
    }
    Ok(queues)
}

/// So many processes, all of them ready, by their numbers.
fn all_ready(processes: usize) -> Queue
    requires { processes ≤ 100 }
    ensures { result ≡ numbers processes 1 }
{
    let mut ready = Queue::new();
    for process in 0..processes {
        ready.to_end(process as u32 + 1);
    }
    ready
}

impl Monitor {
    /// What is kept at the beginning of a run of a policy, whose pages go to their frames of
    /// memory and whose rules to the page tables. There is one image for each source name of the
    /// policy, in their order. Process 1 has an address space, and the buffer is empty. Refused,
    /// nothing changes.
    pub fn new<L: Lookaside>(
        alloc: Global,
        policy: &Policy,
        images: &[Image],
        events: Events,
        memory: &mut Memory,
        tlb: &mut L,
    ) -> Result<Monitor, OutOfMemory>
        requires commands { AreGoodCommands (length policy.now.pages) events.commands }
        requires images { length images.now ≡ length (sources_of policy.now.pages) }
        ensures first { IfOk result (λ m. kept_of m
            ≡ first_kept policy.now images.now events m.tables m.ends) }
        ensures kept { IfOk result (λ m. IsKept (kept_of m) memory.new
            (first_state policy.now images.now events)) }
        ensures orderly { IfOk result (λ m. IsOrderly (kept_of m)) }
        ensures next { IfOk result (λ m. m.quiet_until ≡ next_due (kept_of m)) }
        ensures few { IfOk result (λ m. length m.due.commands ≤ 4096) }
        ensures represented { IfOk result (λ m. L.SLOTS ≤ 64 → HasEmptyTable memory.old
            → IsRepresented (L.entries tlb.new) memory.new m.tables m.spaces m.grants) }
        ensures entries { OnOk result (L.entries tlb.new ≡ empty_entries L.SLOTS) }
        ensures random { L.random_place tlb.new ≡ L.random_place tlb.old }
        ensures elsewhere { (f : ℕ) → f < 2 → frame_of memory.new f ≡ frame_of memory.old f }
        ensures refused { OnErr result ((memory.new ≡ memory.old)
            × (L.entries tlb.new ≡ L.entries tlb.old)) }
    {
        let seats = seats_of(alloc, policy.processes())?;
        let queues = empty_queues(alloc)?;
        let mut tables = Tables::new(policy.processes().len());
        let mut spaces = Asids::new();
        let grants = Grants::new(alloc, policy, images, memory, &mut tables, &mut spaces, tlb)?;
        spaces.take(1, tlb);
        // The commands are of this policy.
        let _orders = events.commands();
        let ends = end_or_never(grants.table().next_end());
        let mut monitor = Monitor {
            grants,
            tables,
            spaces,
            seats,
            ready: all_ready(policy.processes().len()),
            queues,
            consoles: Consoles::new(alloc),
            log: Vec::new(alloc),
            lines: 0,
            time: 0,
            rate: policy.rate(),
            owed: None,
            ticked: 0,
            ends,
            due: Due::new(events),
            quiet_until: 0,
        };
        monitor.look_ahead();
        Ok(monitor)
    }
}
