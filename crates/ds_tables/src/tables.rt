//! The page tables of all processes.
ghost use Rattle.std.specs.Prelude.{◌≡◌, ◌↔◌, ℕ, ◌+◌, ◌*◌, ◌/◌, ◌%◌, ◌<◌, ◌≤◌, ◌⊎◌, ◌^◌, List, true, false, length, replicate, nat_lt, if◌then◌else◌, None, IsErr, OnErr, OnOk, IfSome, ◌-◌, slice_set};
ghost use Rattle.ds_mem.specs.Memory.{frame_of, with_frame, zeros};
ghost use Rattle.ds_tables.specs.Places.{ArePlaces, places_of, region_place, region_of, table_frame, page_of_table};
ghost use Rattle.ds_tables.specs.Inner.Places.{has_place, with_place, opened, closed};
ghost use Rattle.ds_tables.specs.Tables.{HasEmptyTable, table_word_place, entry_word};
ghost use Rattle.ds_tables.specs.Inner.Tables.{with_table, with_entry, word_once_put, word_once_closed};

use crate::fault::Regions;
use crate::places::{self, MOST, Places};
use arrayvec::ArrayVec;
use ds_mem::Memory;
use std::alloc::AllocError;
use std::marker::Model;

/// The processes that may have tables.
const PROCESSES: usize = 100;

/// The frame of the empty table, all zero.
const EMPTY: u32 = 1;

/// The frame of the first process's first table.
const FIRST: u32 = 2;

/// Where the page tables of processes stand in memory. Each process, numbered from 1, has four
/// frames for tables, each for one region of 4 MiB. A region without a table reads as the empty
/// table, which is frame 1 and all zero.
#[derive(Drop)]
pub struct Tables {
    rows: ArrayVec<Places, PROCESSES>,
}

impl Model for Tables {
    ghost use Rattle.ds_tables.specs.Places.{Places, ArePlaces};

    ghost Value = { Places };

    ghost view = { λ t. t.rows.items };

    ghost invariant = { λ t. ArePlaces t.rows.items };
}

impl Clone for Tables {
    ghost is_clone = { λ x y. y ≡ x };

    fn clone(&self) -> Result<Self, AllocError> {
        let mut rows = ArrayVec::new();
        rows.try_extend_from_slice(self.rows.as_slice()).unwrap();
        Ok(Tables { rows })
    }
}

impl Tables {
    /// So many processes, at most 100, none of which has a table.
    #[tactic(auto, using(crate::proofs::Map::none_words, crate::proofs::PlaceLemmas::none_placed))]
    pub fn new(processes: usize) -> Tables
        ensures value { result
            ≡ replicate (if nat_lt processes 100 then processes else 100) (replicate 4 None) }
        ensures words { (memory : List ℕ) → HasEmptyTable memory → (q other : ℕ)
            → entry_word memory result q other ≡ 0 }
    {
        if processes < PROCESSES {
            Tables {
                rows: empty_rows(processes),
            }
        } else {
            Tables {
                rows: empty_rows(PROCESSES),
            }
        }
    }

    /// Replaces a process's page-table word for the page of an address. The region gets a table,
    /// all zero, where it has none; refused, and nothing changed, where the process has no place
    /// for it.
    #[tactic(auto, using(crate::proofs::Map::refused_entry, crate::proofs::Map::refused_table, crate::proofs::Map::refused_places))]
    pub fn put_entry(
        &mut self,
        memory: &mut Memory,
        process: u32,
        addr: u32,
        word: u32,
    ) -> Result<(), Regions>
        ensures refused { IsErr result ↔ (has_place self.old process (region_of addr) ≡ false) }
        ensures places { self.new ≡ opened self.old process (region_of addr) }
        ensures memory { memory.new ≡ with_entry memory.old self.old process addr word }
        ensures words { OnOk result (HasEmptyTable memory.old → (q other : ℕ)
            → entry_word memory.new self.new q other
            ≡ word_once_put memory.old self.old process addr word q other) }
        ensures frames { (f : ℕ) → (f < 2) ⊎ (402 ≤ f)
            → frame_of memory.new f ≡ frame_of memory.old f }
        ensures unchanged { OnErr result ((self.new ≡ self.old) × (memory.new ≡ memory.old)) }
    {
        let region = region_of(addr);
        self.open(memory, process, region)?;
        let frame = self.frame(process, region);
        memory.put_word(table_word_place(frame, addr), word);
        Ok(())
    }

    /// A process's page-table word for the page of an address; 0 where its region has no table, as
    /// long as the empty table is zero.
    pub fn entry(&self, memory: &Memory, process: u32, addr: u32) -> u32
        ensures { result ≡ entry_word memory.now self.now process addr }
    {
        let frame = self.frame(process, region_of(addr));
        memory.word(table_word_place(frame, addr))
    }

    /// Takes a region's table from a process, if it has one: all words of the region are 0 then.
    #[tactic(auto, using(crate::proofs::PlaceLemmas::closed_short, crate::proofs::PlaceLemmas::closed_row, crate::proofs::PlaceLemmas::four_exactly))]
    pub fn close(&mut self, process: u32, region: u32)
        ensures value { self.new ≡ closed self.old process region }
        ensures words { (memory : List ℕ) → HasEmptyTable memory → (q other : ℕ)
            → entry_word memory self.new q other
            ≡ word_once_closed memory self.old process region q other }
    {
        let places = self.places(process);
        if places.len() < MOST {
            return;
        }
        let kept = places::without(places, region);
        self.set_places(process, kept);
    }

    /// The frame of a region's table; that of the empty table where the process has none for it.
    pub fn page_of_table(&self, process: u32, region: u32) -> usize
        ensures value { result ≡ page_of_table self.now process region }
        ensures range { result < 402 }
    {
        self.frame(process, region) as usize
    }

    /// The same as a number of a frame.
    fn frame(&self, process: u32, region: u32) -> u32
        ensures value { result ≡ page_of_table self.now process region }
        ensures range { result < 402 }
        ensures places { ArePlaces self.now }
    {
        match self.place(process, region) {
            Some(place) => table_frame(process, place),
            None => EMPTY,
        }
    }

    /// The place of a region's table.
    fn place(&self, process: u32, region: u32) -> Option<usize>
        ensures value { result ≡ region_place self.now process region }
        ensures place { IfSome result (λ k. k < 4) }
        ensures process { IfSome result (λ k. (0 < process) × (process ≤ 100)) }
        ensures places { ArePlaces self.now }
    {
        places::region_place(self.places(process), region)
    }

    /// The places of a process.
    #[tactic(auto, using(crate::proofs::PlaceLemmas::places_at, crate::proofs::PlaceLemmas::no_places))]
    fn places(&self, process: u32) -> &[Option<u32>]
        ensures value { result.now ≡ places_of self.now process }
        ensures places { ArePlaces self.now }
    {
        if process == 0 || process as usize > self.rows.len() {
            return &[];
        }
        &self.rows[process as usize - 1]
    }

    /// Makes a table, all zero, for a region that has none, where there is a place for it.
    #[tactic(auto, using(crate::proofs::Map::opened_old, crate::proofs::Map::opened_not, crate::proofs::Map::opened_new, crate::proofs::Map::table_old, crate::proofs::Map::table_not, crate::proofs::Map::table_new, crate::proofs::Map::has_old, crate::proofs::Map::has_not, crate::proofs::Map::has_new))]
    fn open(&mut self, memory: &mut Memory, process: u32, region: u32) -> Result<(), Regions>
        ensures refused { IsErr result ↔ (has_place self.old process region ≡ false) }
        ensures places { self.new ≡ opened self.old process region }
        ensures memory { memory.new ≡ with_table memory.old self.old process region }
        ensures room { OnOk result (has_place self.old process region ≡ true) }
        ensures were { ArePlaces self.old }
    {
        if let Some(_) = self.place(process, region) {
            return Ok(());
        }
        let Some(place) = places::free_place(self.places(process)) else {
            return Err(Regions);
        };
        self.set_place(process, place, region);
        clear(memory, table_frame(process, place));
        Ok(())
    }

    /// Replaces the places of a process.
    #[tactic(auto, using(crate::proofs::PlaceLemmas::row_placed))]
    fn set_places(&mut self, process: u32, places: Places)
        requires low { 0 < process }
        requires high { process ≤ length self.old }
        ensures { self.new ≡ slice_set self.old (process - 1) places }
    {
        self.rows[process as usize - 1] = places;
    }

    /// Gives a place of a process to a region.
    #[tactic(auto, using(crate::proofs::PlaceLemmas::placed))]
    fn set_place(&mut self, process: u32, place: usize, region: u32)
        requires low { 0 < process }
        requires high { process ≤ length self.old }
        requires place { place < 4 }
        ensures { self.new ≡ with_place self.old process place region }
    {
        self.rows[process as usize - 1][place] = Some(region);
    }
}

/// So many processes, none of which has a table.
fn empty_rows(count: usize) -> ArrayVec<Places, PROCESSES>
    requires { count ≤ 100 }
    ensures { result.items ≡ replicate count (replicate 4 None) }
{
    let mut rows = ArrayVec::new();
    for _ in 0..count {
        rows.push([None; MOST]);
    }
    rows
}

/// Makes a frame all zero.
fn clear(memory: &mut Memory, frame: u32)
    requires { frame < 402 }
    ensures { memory.new ≡ with_frame memory.old frame (zeros 4096) }
{
    memory.frame_mut(frame).fill(0);
}

/// The address in kseg2 of the running process's page-table word for an address.
pub fn pte_address(addr: u32) -> u32
    ensures { result ≡ 0xC0000000 + 4 * (addr / 2 ^ 12) }
{
    0xc000_0000 + 4 * (addr >> 12)
}

/// The region of 4 MiB in which an address lies.
fn region_of(addr: u32) -> u32
    ensures { result ≡ region_of addr }
{
    addr >> 22
}

/// The frame of a process's place.
fn table_frame(process: u32, place: usize) -> u32
    requires some { 0 < process }
    requires few { process ≤ 100 }
    requires place { place < 4 }
    ensures value { result ≡ table_frame process place }
    ensures range { result < 402 }
{
    FIRST + MOST as u32 * (process - 1) + place as u32
}

/// The place in memory of the word for an address, in a table in the frame.
fn table_word_place(frame: u32, addr: u32) -> u32
    requires { frame < 402 }
    ensures value { result ≡ table_word_place frame addr }
    ensures aligned { result % 4 ≡ 0 }
    ensures range { result < 8388608 }
{
    frame * 4096 + (addr >> 12) % 1024 * 4
}
