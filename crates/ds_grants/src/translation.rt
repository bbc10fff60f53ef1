//! What the translation lookaside buffer holds of entries.
ghost use Rattle.std.specs.Prelude.{◌≡◌, ◌+◌, ◌/◌, ◌^◌, ◌<◌};
ghost use Rattle.ds_grants.specs.Inner.Changes.{forgotten, both_forgotten};

use ds_tlb::{Entry, Lookaside};

/// The first page of the page tables, which begin at C0000000 (hexadecimal).
const FIRST_TABLE: u32 = 0xc_0000;

/// Clears what the buffer holds for a page of an address space.
fn forget<L: Lookaside>(tlb: &mut L, vpn: u32, number: u8)
    ensures entries { L.entries tlb.new ≡ forgotten (L.entries tlb.old) vpn number }
    ensures random { L.random_place tlb.new ≡ L.random_place tlb.old }
{
    if let Some(slot) = tlb.find(vpn, number) {
        tlb.write(slot, Entry::empty(slot));
    }
}

/// Clears what the buffer holds for the page of an address, and for the page of its region's table,
/// in an address space, if there is one.
pub(crate) fn forget_both<L: Lookaside>(tlb: &mut L, addr: u32, number: Option<u8>)
    ensures entries { L.entries tlb.new ≡ both_forgotten (L.entries tlb.old) addr number }
    ensures random { L.random_place tlb.new ≡ L.random_place tlb.old }
{
    if let Some(number) = number {
        forget(tlb, addr >> 12, number);
        forget(tlb, FIRST_TABLE + (addr >> 22), number);
    }
}
