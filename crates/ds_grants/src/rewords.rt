//! Rewriting what page tables and the buffer have of one page, in the rows of all processes.
ghost use Rattle.std.specs.Prelude.{◌≡◌, ◌<◌, ◌≤◌, ◌/◌, ◌^◌, length, slice_index};
ghost use Rattle.std.specs.List.{All};
ghost use Rattle.ds_grants.specs.State.{GrantsState, is_shared};
ghost use Rattle.ds_grants.specs.Inner.Sound.{IsGoodRow};
ghost use Rattle.ds_grants.specs.Copies.{AreRewritten};
ghost use Rattle.ds_grants.specs.Inner.Copies.{LiesOtherwise};
ghost use Rattle.ds_grants.specs.Inner.Represented.{IsLow, Keeps};
ghost use Rattle.ds_policy.specs.Pages.{names};
ghost use Rattle.ds_grants.specs.Inner.Rewords.{word_at, with_word, with_lo, with_entry_lo, memory_at, buffer_at, memory_of_row, buffer_of_row, memory_of_rows, buffer_of_rows};

use crate::layout::Place;
use crate::page_tables::word_of_right;
use ds_asid::Asids;
use ds_mem::Memory;
use ds_policy::{Entry as Granted, Right, Table};
use ds_tables::Tables;
use ds_tlb::{Entry, Lookaside};

/// The frame of the empty table, which stands for each table that isn't there.
const EMPTY: u32 = 1;

/// The page-table word of a page that lies there, for a right.
fn word_at(place: Place, right: Right) -> u32
    requires { place.frame < 1024 }
    ensures { result ≡ word_at place right }
{
    word_of_right(right, Some(place))
}

/// Replaces the word of a process for the page of an address, where its region has a table.
fn put_word(memory: &mut Memory, tables: &Tables, process: u32, addr: u32, word: u32)
    ensures value { memory.new ≡ with_word memory.old tables.now process addr word }
    ensures low { IsLow memory.old memory.new }
{
    let frame = tables.page_of_table(process, addr >> 22) as u32;
    if frame > EMPTY {
        memory.put_word(frame * 4096 + (addr >> 12) % 1024 * 4, word);
    }
}

/// The entry for the same page of the same address space, with another EntryLo.
fn with_lo(entry: Entry, lo: u32) -> Entry
    ensures { result ≡ with_lo entry lo }
{
    let mut new = Entry::of_words(0, lo);
    new.vpn = entry.vpn;
    new.asid = entry.asid;
    new
}

/// Replaces the EntryLo of what the buffer has for the page of an address in an address space, if
/// there is one.
fn put_lo<L: Lookaside>(tlb: &mut L, addr: u32, number: Option<u8>, lo: u32)
    ensures entries { L.entries tlb.new
        ≡ with_entry_lo (L.entries tlb.old) (addr / 2 ^ 12) number lo }
    ensures random { L.random_place tlb.new ≡ L.random_place tlb.old }
{
    let Some(number) = number else {
        return;
    };
    if let Some(slot) = tlb.find(addr >> 12, number) {
        let entry = tlb.read(slot);
        tlb.write(slot, with_lo(entry, lo));
    }
}

/// Whether an entry names the page.
fn names(entry: &Granted, page: u32) -> bool
    ensures { result ≡ names page entry.now.grant.page }
{
    match entry.grant.page {
        Some(named) => named == page,
        None => false,
    }
}

/// Rewrites what there is of one entry of a process, where it names the page.
fn reword<L: Lookaside>(
    entry: &Granted,
    page: u32,
    place: Place,
    process: u32,
    number: Option<u8>,
    memory: &mut Memory,
    tables: &Tables,
    tlb: &mut L,
)
    requires { place.frame < 1024 }
    ensures memory { memory.new ≡ memory_at memory.old tables.now process page place entry.now }
    ensures low { IsLow memory.old memory.new }
    ensures entries { L.entries tlb.new
        ≡ buffer_at (L.entries tlb.old) number page place entry.now }
    ensures random { L.random_place tlb.new ≡ L.random_place tlb.old }
{
    if names(entry, page) {
        let word = word_at(place, entry.grant.right);
        put_word(memory, tables, process, entry.address, word);
        put_lo(tlb, entry.address, number, word);
    }
}

/// Rewrites what there is of the entries of a process that name the page.
fn reword_row<L: Lookaside>(
    entries: &[Granted],
    page: u32,
    place: Place,
    process: u32,
    number: Option<u8>,
    memory: &mut Memory,
    tables: &Tables,
    tlb: &mut L,
)
    requires { place.frame < 1024 }
    ensures memory { memory.new
        ≡ memory_of_row memory.old tables.now process page place entries.now }
    ensures low { IsLow memory.old memory.new }
    ensures entries { L.entries tlb.new
        ≡ buffer_of_row (L.entries tlb.old) number page place entries.now }
    ensures random { L.random_place tlb.new ≡ L.random_place tlb.old }
{
    for entry in entries {
        reword(entry, page, place, process, number, memory, tables, tlb);
    }
}

/// Rewrites what there is of the entries of all processes that name the page.
fn reword_rows<L: Lookaside>(
    table: &Table,
    page: u32,
    place: Place,
    memory: &mut Memory,
    tables: &Tables,
    spaces: &Asids,
    tlb: &mut L,
)
    requires processes { length table.now ≤ 100 }
    requires frame { place.frame < 1024 }
    ensures memory { memory.new
        ≡ memory_of_rows memory.old tables.now page place 1 table.now }
    ensures low { IsLow memory.old memory.new }
    ensures entries { L.entries tlb.new
        ≡ buffer_of_rows (L.entries tlb.old) spaces.now page place 1 table.now }
    ensures random { L.random_place tlb.new ≡ L.random_place tlb.old }
{
    for index in 0..table.processes() {
        let process = index as u32 + 1;
        let number = spaces.of(process);
        reword_row(
            table.entries(process),
            page,
            place,
            process,
            number,
            memory,
            tables,
            tlb,
        );
    }
}

/// Rewrites the page-table words of a page, which lies there now, and what the buffer has of them:
/// nothing is forgotten.
pub(crate) fn reword_page<L: Lookaside>(
    table: &Table,
    page: u32,
    place: Place,
    memory: &mut Memory,
    tables: &Tables,
    spaces: &Asids,
    tlb: &mut L,
)
    requires processes { length table.now ≤ 100 }
    requires frame { place.frame < 1024 }
    requires rows { All IsGoodRow table.now }
    ensures low { IsLow memory.old memory.new }
    ensures rewritten { AreRewritten (L.entries tlb.old) (L.entries tlb.new) }
    ensures keeps { (old new : GrantsState) → old.table ≡ table.now
        → LiesOtherwise page old new → slice_index new.lies page ≡ place.frame
        → is_shared new page ≡ place.shared
        → Keeps (L.entries tlb.old) memory.old tables.now spaces.now old
        (L.entries tlb.new) memory.new tables.now spaces.now new }
    ensures random { L.random_place tlb.new ≡ L.random_place tlb.old }
{
    let _first = memory.word(0);
    let _space = spaces.of(0);
    reword_rows(table, page, place, memory, tables, spaces, tlb);
}
