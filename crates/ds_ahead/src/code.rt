//! The page whose instructions a stretch goes through, remembered while nothing can change it.
ghost use Rattle.std.specs.Prelude.{◌≡◌, ◌+◌, ◌*◌, ◌/◌, ◌%◌, ◌<◌, ◌≤◌, ◌^◌, IfSome, true, false};
ghost use Rattle.ds_cp0.specs.System.{asid_of};
ghost use Rattle.ds_core.specs.Inner.Coprocessor.{only_devices_interrupt};
ghost use Rattle.ds_ahead.specs.Inner.Code.{KnowsPage};

use ds_amap::Kind;
use ds_core::Core;
use ds_isa::Size;
use ds_tlb::Lookaside;

/// The page number of a page that isn't known: no page has it.
const NO_PAGE: u64 = 0x1_0000_0000;

/// A page of code, its first address, that of its frame in memory, and its address space.
#[derive(Clone, Copy)]
pub(crate) struct CodePage {
    pub vpn: u64,
    pub base: u32,
    pub asid: u8,
    first: u64,
    ghost low: { vpn ≤ 2 ^ 32 },
    ghost begins: { first ≡ vpn * 4096 },
    ghost inside: { base + 4096 ≤ 2 ^ 23 },
    ghost whole: { base % 4096 ≡ 0 },
}

impl CodePage {
    /// No page is known.
    #[inline(always)]
    fn none(asid: u8) -> CodePage
        ensures vpn { result.vpn ≡ 2 ^ 32 }
        ensures space { result.asid ≡ asid }
    {
        CodePage {
            vpn: NO_PAGE,
            base: 0,
            asid,
            first: NO_PAGE * 4096,
        }
    }

    /// Whether a page is known.
    #[inline(always)]
    pub(crate) fn is_known(&self) -> bool
        ensures { result ≡ true → self.now.vpn < 2 ^ 32 }
    {
        self.vpn < NO_PAGE
    }

    /// The offset in its page of the instruction at an address, where that is a word of this page.
    #[inline(always)]
    pub(crate) fn offset(&self, pc: u32) -> Option<u32>
        ensures known { IfSome result (λ offset. self.now.vpn < 2 ^ 32) }
        ensures page { IfSome result (λ offset. self.now.vpn ≡ pc / 2 ^ 12) }
        ensures aligned { IfSome result (λ offset. pc % 4 ≡ 0) }
        ensures value { IfSome result (λ offset. offset ≡ pc % 2 ^ 12) }
    {
        let offset = u64::from(pc).wrapping_sub(self.first);
        if offset % 4 == 0 && offset < 4096 {
            Some(offset as u32)
        } else {
            None
        }
    }
}

/// The page of the instruction at `pc`, where the buffer remembers it, and no instruction can
/// change what it is: only a device can interrupt, so coprocessor 0 may not be used.
#[inline(always)]
pub(crate) fn code_page<L: Lookaside>(core: &Core<L>) -> CodePage
    ensures knows { KnowsPage result.vpn result.base core.now }
    ensures page { result.vpn < 2 ^ 32 → result.vpn ≡ core.now.pc / 2 ^ 12 }
    ensures space { result.asid ≡ asid_of core.now.system }
{
    let asid = core.cp0.asid();
    if !only_devices_interrupt(core) {
        return CodePage::none(asid);
    }
    let Some(place) = core.tlb.place(Kind::Fetch, Size::Word, core.pc, asid) else {
        return CodePage::none(asid);
    };
    let vpn = u64::from(core.pc >> 12);
    CodePage {
        vpn,
        base: place - core.pc % 4096,
        asid,
        first: vpn * 4096,
    }
}

/// Whether only a device can interrupt: coprocessor 0 may not be used, so that nothing is let
/// through or asked for by the program, and the program asks for no interrupt.
#[inline(always)]
fn only_devices_interrupt<L: Lookaside>(core: &Core<L>) -> bool
    ensures { result ≡ only_devices_interrupt core.now }
{
    !core.is_coprocessor_usable(0) && !core.cp0.pending(false, false)
}
