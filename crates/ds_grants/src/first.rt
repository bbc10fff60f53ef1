//! What is granted at the beginning of a run.
ghost use Rattle.std.specs.Prelude.{◌≡◌, ℕ, ◌+◌, ◌<◌, ◌≤◌, ◌⊎◌, false, length, replicate, position, bytes_eq, slice_index_or, map, [], IfSome, IfOk, OnErr, OnOk};
ghost use Rattle.ds_mem.specs.Memory.{frame_of};
ghost use Rattle.ds_asm.specs.Images.{page_of_image};
ghost use Rattle.ds_policy.specs.PolicyParts.{sources_of};
ghost use Rattle.ds_pagemap.specs.First.{image_named, source_bytes, first_pages};
ghost use Rattle.ds_tlb.specs.Entries.{empty_entries};
ghost use Rattle.ds_tables.specs.Tables.{HasEmptyTable};
ghost use Rattle.ds_asid.specs.Spaces.{at_start};
ghost use Rattle.ds_grants.specs.State.{pages_in};
ghost use Rattle.ds_grants.specs.Represented.{IsRepresented};
ghost use Rattle.ds_grants.specs.First.{first_grants};
ghost use Rattle.ds_grants.specs.Inner.First.{no_grants};

use crate::first_tables::first_tables;
use crate::grants::{Grants, PROCESSES};
use crate::holders::hold_table;
use crate::layout::{Layout, frame_in_memory};
use crate::shared_table::SharedTable;
use crate::tally::Tally;
use arrayvec::ArrayVec;
use ds_asid::Asids;
use ds_asm::Image;
use ds_mem::{Memory, OutOfMemory};
use ds_policy::{Policy, PolicyPage, Source, Text};
use ds_tables::Tables;
use ds_tlb::Lookaside;
use std::alloc::Global;

/// Where this name stands among the names.
fn place_of_name(names: &[Text<64>], name: &str) -> Option<usize>
    ensures exact { result ≡ position (λ n. bytes_eq n name.now) names.now }
    ensures within { IfSome result (λ place. place < length names.now) }
{
    names.iter().position(|n| n.as_str() == name)
}

/// Fills a page with its part of the image of its source, of which there is one for each name.
fn fill_part(names: &[Text<64>], images: &[Image], source: &Source, page: &mut [u8])
    requires images { length images.now ≡ length names.now }
    requires whole { length page.old ≡ 4096 }
    ensures { page.new
        ≡ page_of_image (image_named names.now images.now source.now.name) source.now.part }
{
    match place_of_name(names, source.name.as_str()) {
        Some(place) => images[place].page(source.part, page),
        None => page.fill(0),
    }
}

/// Fills a page with its part of the image of its source, or with zeros where it has none. There is
/// one image for each name.
pub fn fill_page(names: &[Text<64>], images: &[Image], source: &Option<Source>, page: &mut [u8])
    requires images { length images.now ≡ length names.now }
    requires whole { length page.old ≡ 4096 }
    ensures { page.new ≡ source_bytes names.now images.now source.now }
{
    match source {
        Some(source) => fill_part(names, images, source, page),
        None => page.fill(0),
    }
}

/// Fills the frame of each page's number with the part of the image of its source, or with zeros
/// where it has none.
fn fill_pages(names: &[Text<64>], images: &[Image], pages: &[PolicyPage], memory: &mut Memory)
    requires images { length images.now ≡ length names.now }
    requires few { length pages.now ≤ 1024 }
    ensures each { (q : ℕ) → q < length pages.now → frame_of memory.new (q + 402)
        ≡ slice_index_or (map
        (λ page. source_bytes names.now images.now page.source) pages.now) q [] }
    ensures elsewhere { (f : ℕ) → (f < 402) ⊎ (length pages.now + 402 ≤ f)
        → frame_of memory.new f ≡ frame_of memory.old f }
{
    for (i, page) in pages.iter().enumerate() {
        fill_page(
            names,
            images,
            &page.source,
            memory.frame_mut(frame_in_memory(i as u32)),
        );
    }
}

/// So many zeros.
fn zeros(alloc: Global, count: usize) -> Result<Vec<u32>, OutOfMemory>
    ensures { IfOk result (λ zeros. zeros.items ≡ replicate count 0) }
{
    match vec![in alloc; 0u32; count] {
        Ok(zeros) => Ok(zeros),
        Err(_) => Err(OutOfMemory),
    }
}

/// So many processes, of which none has ended.
fn none_ended(processes: usize) -> ArrayVec<bool, PROCESSES>
    requires { processes ≤ 100 }
    ensures { result.items ≡ replicate processes false }
{
    let mut ended = ArrayVec::new();
    for _ in 0..processes {
        ended.push(false);
    }
    ended
}

impl Grants {
    /// The grants of so many processes that have none, over frames for so many pages, of which the
    /// first are named.
    pub fn empty(
        alloc: Global,
        processes: usize,
        frames: u32,
        named: u32,
    ) -> Result<Grants, OutOfMemory>
        requires processes { processes ≤ 100 }
        requires named { named ≤ frames }
        requires frames { frames ≤ 1024 }
        ensures { IfOk result (λ g. g ≡ no_grants processes frames named) }
    {
        let holders = zeros(alloc, frames as usize)?;
        let layout = Layout::first(alloc, frames)?;
        match SharedTable::empty(alloc, processes) {
            Ok(table) => Ok(Grants {
                table,
                holders: Tally::of(holders),
                named,
                ended: none_ended(processes),
                layout,
            }),
            Err(_) => Err(OutOfMemory),
        }
    }

    /// What a policy's rules grant.
    fn first(alloc: Global, policy: &Policy) -> Result<Grants, OutOfMemory>
        ensures { IfOk result (λ g. g ≡ first_grants policy.now) }
    {
        // The rules are those of a policy that was read.
        prove!(policy.rules().len() <= 999);
        let mut holders = zeros(alloc, policy.frames() as usize)?;
        let layout = Layout::first(alloc, policy.frames())?;
        let named = policy.pages().len() as u32;
        let ended = none_ended(policy.processes().len());
        match SharedTable::new(alloc, policy) {
            Ok(table) => {
                hold_table(&mut holders, table.as_table());
                Ok(Grants {
                    table,
                    holders: Tally::of(holders),
                    named,
                    ended,
                    layout,
                })
            }
            Err(_) => Err(OutOfMemory),
        }
    }

    /// The grants that a policy begins with, its pages in their frames of memory, and their words in
    /// the page tables. There is one image for each source name of the policy, in their order. No
    /// process has an address space yet, and the buffer is flushed. Refused, nothing changes.
    pub fn new<L: Lookaside>(
        alloc: Global,
        policy: &Policy,
        images: &[Image],
        memory: &mut Memory,
        tables: &mut Tables,
        spaces: &mut Asids,
        tlb: &mut L,
    ) -> Result<Grants, OutOfMemory>
        requires images { length images.now ≡ length (sources_of policy.now.pages) }
        ensures state { IfOk result (λ g. g ≡ first_grants policy.now) }
        ensures pages { IfOk result (λ g. pages_in g memory.new
            ≡ first_pages policy.now images.now) }
        ensures represented { IfOk result (λ g. L.SLOTS ≤ 64 → HasEmptyTable memory.old
            → IsRepresented (L.entries tlb.new) memory.new tables.new spaces.new g) }
        ensures spaces { OnOk result (spaces.new ≡ at_start) }
        ensures entries { OnOk result (L.entries tlb.new ≡ empty_entries L.SLOTS) }
        ensures random { L.random_place tlb.new ≡ L.random_place tlb.old }
        ensures elsewhere { (f : ℕ) → (f < 2) ⊎ (length policy.now.pages + 402 ≤ f)
            → frame_of memory.new f ≡ frame_of memory.old f }
        ensures refused { OnErr result ((memory.new ≡ memory.old) × (tables.new ≡ tables.old)
            × (spaces.new ≡ spaces.old) × (L.entries tlb.new ≡ L.entries tlb.old)) }
    {
        let grants = Grants::first(alloc, policy)?;
        // They name no page that the policy doesn't.
        prove!(policy.rules().len() <= 999);
        fill_pages(policy.sources(), images, policy.pages(), memory);
        *tables = first_tables(policy.rules(), policy.processes().len(), memory);
        spaces.flush(tlb);
        Ok(grants)
    }
}
