//! From an address to its place in physical memory.
ghost use Rattle.std.specs.Prelude.{◌≡◌, ◌≢◌, ◌↔◌, ◌<◌, ◌/◌, ◌%◌, ◌^◌, true, All, Ok, Err, IfSome, IsNone, IsTrue, not};
ghost use Rattle.ds_isa.specs.Access.{is_aligned};
ghost use Rattle.ds_tlb.specs.Entries.{find, matches};
ghost use Rattle.ds_amap.specs.Map.{is_modified, place, through, mapped, translate};
ghost use Rattle.ds_amap.specs.Inner.Map.{IsMissing, NeedsRefill};

use crate::Kind;
use ds_isa::Size;
use ds_tlb::{Entry, Lookaside};
use ds_word::PAGE_SIZE;

/// Who does it.
#[derive(Clone, Copy, Debug, PartialEq, Eq)]
pub enum Mode {
    /// A user, who may use the lower half of the addresses.
    User,
    /// The kernel, which may use all of them.
    Kernel,
}

/// A physical address.
#[derive(Clone, Copy, Debug, PartialEq, Eq)]
pub struct Physical(pub u32);

/// Why an access has no physical address.
#[derive(Clone, Copy, Debug, Drop, PartialEq, Eq)]
pub enum Fault {
    /// The mode may not use the address.
    Address,
    /// No entry matches.
    Refill,
    /// The entry that matches is not valid.
    Invalid,
    /// A store to a page that may not be written.
    Modified,
}

/// The first address of kseg0, and of what a user may not use.
const KSEG0: u32 = 0x8000_0000;

/// The first address of kseg2, which is mapped.
const KSEG2: u32 = 0xc000_0000;

/// The physical address of an access: kuseg (from 00000000, hexadecimal) and kseg2 (from C0000000)
/// are mapped by the entries, kseg0 and kseg1 (from 80000000) are bits 28 to 0 of the address.
#[inline(always)]
pub fn translate<L: Lookaside>(
    addr: u32,
    access: Kind,
    mode: Mode,
    tlb: &L,
    asid: u8,
) -> Result<Physical, Fault>
    ensures value { result ≡ translate (L.entries tlb.now) asid mode access addr }
    ensures refill { (result ≡ Err Fault.Refill) ↔ NeedsRefill (L.entries tlb.now) asid mode addr }
{
    if addr >= KSEG0 {
        if mode == Mode::User {
            return Err(Fault::Address);
        }
        if addr < KSEG2 {
            return Ok(Physical(addr & 0x1fff_ffff));
        }
    }
    mapped(addr, access, tlb, asid)
}

/// The place of an address in memory, where the buffer remembers its page. In the lower half of the
/// addresses alone, which is mapped in either mode.
#[inline(always)]
pub fn recalled<L: Lookaside>(addr: u32, access: Kind, tlb: &L, asid: u8) -> Option<Physical>
    ensures value { (mode : Mode)
        → IfSome result (λ place. translate (L.entries tlb.now) asid mode access addr ≡ Ok place) }
    ensures inside { IfSome result (λ place. place.0 < 2 ^ 23) }
{
    recalled_aligned(addr, access, Size::Byte, tlb, asid)
}

/// The same where the address suits the size of the access.
#[inline(always)]
#[tactic(auto, using(crate::proofs::Bases::translate_by_place))]
pub fn recalled_aligned<L: Lookaside>(
    addr: u32,
    access: Kind,
    size: Size,
    tlb: &L,
    asid: u8,
) -> Option<Physical>
    ensures aligned { IfSome result (λ place. is_aligned size addr ≡ true) }
    ensures value { (mode : Mode)
        → IfSome result (λ place. translate (L.entries tlb.now) asid mode access addr ≡ Ok place) }
    ensures offset { IfSome result (λ place. place.0 % 2 ^ 12 ≡ addr % 2 ^ 12) }
    ensures inside { IfSome result (λ place. place.0 < 2 ^ 23) }
{
    match tlb.place(access, size, addr, asid) {
        Some(place) => Some(Physical(place)),
        None => None,
    }
}

/// As `translate`, by a buffer that may remember what it finds.
#[tactic(auto, using(crate::proofs::Bases::translate_by_base))]
pub fn reach<L: Lookaside>(
    addr: u32,
    access: Kind,
    mode: Mode,
    tlb: &mut L,
    asid: u8,
) -> Result<Physical, Fault>
    ensures value { result ≡ translate (L.entries tlb.old) asid mode access addr }
    ensures entries { L.entries tlb.new ≡ L.entries tlb.old }
    ensures random { L.random_place tlb.new ≡ L.random_place tlb.old }
{
    if addr < KSEG0 {
        match tlb.base(access, addr >> 12, asid) {
            Some(base) => return Ok(Physical(base + addr % PAGE_SIZE as u32)),
            None => {}
        }
    }
    translate(addr, access, mode, tlb, asid)
}

/// What the entries answer.
#[inline(always)]
fn mapped<L: Lookaside>(addr: u32, access: Kind, tlb: &L, asid: u8) -> Result<Physical, Fault>
    ensures value { result ≡ mapped (L.entries tlb.now) asid access addr }
    ensures refill { (result ≡ Err Fault.Refill) ↔ IsMissing (L.entries tlb.now) asid addr }
{
    match slot_of(addr, tlb, asid) {
        Some(slot) => through(tlb.read(slot), access, addr),
        None => Err(Fault::Refill),
    }
}

/// The lowest slot whose entry matches.
#[inline(always)]
fn slot_of<L: Lookaside>(addr: u32, tlb: &L, asid: u8) -> Option<usize>
    ensures lowest { result ≡ find (L.entries tlb.now) (addr / 2 ^ 12) asid }
    ensures in_range { IfSome result (λ slot. slot < L.SLOTS) }
    ensures missed { IsNone result ↔ IsMissing (L.entries tlb.now) asid addr }
{
    if addr < KSEG0 {
        tlb.find(addr >> 12, asid)
    } else {
        // Answered anew: what a user's search found is then known to be there.
        Some(find_for_kernel(tlb, addr >> 12, asid)?)
    }
}

/// The same for a page of kseg2. It stays a call, so that a user's access is short.
#[cold]
#[inline(never)]
fn find_for_kernel<L: Lookaside>(tlb: &L, vpn: u32, asid: u8) -> Option<usize>
    ensures lowest { result ≡ find (L.entries tlb.now) vpn asid }
    ensures in_range { IfSome result (λ slot. slot < L.SLOTS) }
    ensures missed { IsNone result
        ↔ All (λ e. IsTrue (not (matches vpn asid e))) (L.entries tlb.now) }
{
    tlb.find(vpn, asid)
}

/// What a matching entry answers.
#[inline(always)]
fn through(entry: Entry, access: Kind, addr: u32) -> Result<Physical, Fault>
    ensures value { result ≡ through entry access addr }
    ensures matched { result ≢ Err Fault.Refill }
{
    if !entry.v {
        return Err(Fault::Invalid);
    }
    if is_modified(entry, access) {
        return Err(Fault::Modified);
    }
    Ok(Physical(place(entry, addr)))
}

/// Whether the access is a store to a page that may not be written.
#[inline(always)]
fn is_modified(entry: Entry, access: Kind) -> bool
    ensures { result ≡ is_modified entry access }
{
    access.is_store() && !entry.d
}

/// The entry's frame, 20 bits, and the place in the page.
#[inline(always)]
fn place(entry: Entry, addr: u32) -> u32
    ensures { result ≡ place entry addr }
{
    ((entry.pfn & 0xf_ffff) << 12) | (addr & 0xfff)
}
