//! An entry of the buffer.
ghost use Rattle.std.specs.Prelude.{◌≡◌, ◌<◌, ◌≤◌, ◌%◌, IfSome, Some};
ghost use Rattle.ds_isa.specs.Access.{is_store};
ghost use Rattle.ds_tlb.specs.Entries.{matches, empty_entry, empty_entries};
ghost use Rattle.ds_tlb.specs.Inner.Frames.{base_in};
ghost use Rattle.ds_tlb.specs.Words.{hi_word, lo_word, entry_of};

use ds_isa::Kind;
use ds_word::bit;

/// One entry: a virtual page of an address space and what it is mapped to, as EntryHi and EntryLo
/// carry it (Kane and Heinrich, chapter 4).
#[derive(Clone, Copy, Debug, PartialEq, Eq)]
pub struct Entry {
    /// The virtual page number, 20 bits.
    pub vpn: u32,
    /// The address space, 6 bits.
    pub asid: u8,
    /// The page frame number, 20 bits.
    pub pfn: u32,
    /// Whether accesses go past the caches.
    pub n: bool,
    /// Whether the page may be written.
    pub d: bool,
    /// Whether the entry may be used at all.
    pub v: bool,
    /// Whether the entry answers in each address space.
    pub g: bool,
}

impl Entry {
    /// Whether it answers for the page in the address space.
    #[inline(always)]
    pub fn matches(&self, vpn: u32, asid: u8) -> bool
        ensures { result ≡ matches vpn asid self.now }
    {
        self.vpn == vpn && (self.asid == asid || self.g)
    }

    /// The first physical address of the frame, where the entry is valid and, for a store, dirty.
    #[inline(always)]
    pub(crate) fn base_for(&self, kind: Kind) -> Option<u32>
        ensures base { result ≡ base_in (is_store kind) (Some self.now) }
        ensures whole { IfSome result (λ base. base % 4096 ≡ 0) }
    {
        if self.v && (!kind.is_store() || self.d) {
            Some(self.pfn % 0x10_0000 * 0x1000)
        } else {
            None
        }
    }

    /// The entry of an EntryHi and an EntryLo.
    pub fn of_words(hi: u32, lo: u32) -> Entry
        ensures { result ≡ entry_of hi lo }
    {
        Entry {
            vpn: (hi >> 12) & 0xf_ffff,
            asid: ((hi >> 6) & 0x3f) as u8,
            pfn: (lo >> 12) & 0xf_ffff,
            n: (lo >> 11) & 1 == 1,
            d: (lo >> 10) & 1 == 1,
            v: (lo >> 9) & 1 == 1,
            g: (lo >> 8) & 1 == 1,
        }
    }

    /// The EntryHi of the entry: VPN 31 to 12, ASID 11 to 6. Each is cut to its bits.
    pub fn hi_word(&self) -> u32
        ensures { result ≡ hi_word self.now }
    {
        self.vpn % 0x10_0000 * 0x1000 + u32::from(self.asid % 64) * 64
    }

    /// The EntryLo of the entry: PFN 31 to 12, cut to these bits, N 11, D 10, V 9, G 8.
    pub fn lo_word(&self) -> u32
        ensures { result ≡ lo_word self.now }
    {
        self.pfn % 0x10_0000 * 0x1000
            + bit(11, self.n)
            + bit(10, self.d)
            + bit(9, self.v)
            + bit(8, self.g)
    }

    /// What the slot holds at the start: page 80000 + slot (hexadecimal), all else zero. No access
    /// through the buffer names such a page.
    pub fn empty(slot: usize) -> Entry
        requires { slot < 64 }
        ensures { result ≡ empty_entry slot }
    {
        Entry {
            vpn: 0x80000 + slot as u32,
            asid: 0,
            pfn: 0,
            n: false,
            d: false,
            v: false,
            g: false,
        }
    }
}

/// What the slots of a buffer hold at the start.
pub(crate) fn empty_entries<const N: usize>() -> [Entry; N]
    requires some { 1 ≤ N }
    requires few { N ≤ 64 }
    ensures { result ≡ empty_entries N }
{
    let mut entries = [Entry::empty(0); N];
    for slot in 0..N {
        entries[slot] = Entry::empty(slot);
    }
    entries
}
