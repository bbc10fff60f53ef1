//! A whole refill at once: what the nine words of the handler make of the processor.
ghost use Rattle.std.specs.Prelude.{◌≡◌, ◌%◌, ◌<◌, false, None, IfSome, IsSome, IsNone, length, slice_index};
ghost use Rattle.ds_tlb.specs.Inner.Entries.{passed};
ghost use Rattle.ds_refill.specs.Handler.{HasWords};
ghost use Rattle.ds_refill.specs.Inner.Refill.{IsKernel, handler_events};
ghost use Rattle.ds_refill.specs.Inner.Refills.{after_refill, CanLoad, RunsInside};

use ds_amap::{Kind, Mode, Physical, reach};
use ds_core::Core;
use ds_cp0::register;
use ds_dev::Bus;
use ds_mem::SIZE;
use ds_tlb::{Entry, Lookaside};
use ds_word::wrapping_sum;

/// The words before the one that writes the TLB: Random goes down by one with each.
const BEFORE_WRITE: u32 = 6;

/// That word, and the two after it.
const FROM_WRITE: u32 = 3;

/// Does the whole refill where the processor stands at the handler's first word, and answers the
/// slot that it wrote: the processor is as the nine words leave it. Where the page-table word can't
/// be loaded, or isn't one, nothing is done.
pub fn refill_at_once<L: Lookaside>(core: &mut Core<L>, bus: &Bus) -> Option<usize>
    requires slots { L.SLOTS ≡ 64 }
    requires wired { L.WIRED ≡ 8 }
    requires words { HasWords bus.now.memory }
    requires kernel { IsKernel core.old.system }
    requires pc { core.old.pc ≡ 0x80000000 }
    requires next { core.old.next ≡ 0x80000004 }
    requires slot { core.old.slot ≡ false }
    requires late { core.old.registers.late ≡ None }
    ensures done { IsSome result → RunsInside 0 handler_events core.old bus.now core.new }
    ensures slot { IfSome result (λ slot. slot ≡ passed 64 8 6 core.old.random) }
    ensures high { IfSome result (λ slot. slot < 64) }
    ensures still { IsNone result → core.new ≡ core.old }
{
    show_register_zero(core);
    let word = table_word(core, bus)?;
    Some(put(core, word))
}

/// There are 32 registers, of which the first is 0.
fn show_register_zero<L: Lookaside>(core: &Core<L>)
    ensures size { length core.now.registers.general ≡ 32 }
    ensures nought { slice_index core.now.registers.general 0 ≡ 0 }
{
    show_32_registers(&core.registers);
}

/// There are 32 of them.
fn show_32_registers(registers: &[u32; 32])
    ensures { length registers.now ≡ 32 }
{
    let _last = registers[31];
}

/// The page-table word that Context names, where the handler can load it from memory and it has no
/// low bits.
fn table_word<L: Lookaside>(core: &mut Core<L>, bus: &Bus) -> Option<u32>
    requires kernel { IsKernel core.old.system }
    ensures word { IfSome result (λ w. CanLoad core.old bus.now w) }
    ensures same { core.new ≡ core.old }
{
    let address = core.cp0.read(register::CONTEXT);
    let asid = core.cp0.asid();
    if address % 4 != 0 {
        return None;
    }
    match reach(address, Kind::Load, Mode::Kernel, &mut core.tlb, asid) {
        Ok(Physical(place)) => {
            if place as usize >= SIZE {
                return None;
            }
            let word = bus.word(place);
            if word % 256 == 0 { Some(word) } else { None }
        }
        Err(_) => None,
    }
}

/// The processor as the nine words leave it, with the entry of a page-table word in the slot that is
/// answered.
fn put<L: Lookaside>(core: &mut Core<L>, word: u32) -> usize
    requires slots { L.SLOTS ≡ 64 }
    requires wired { L.WIRED ≡ 8 }
    requires low { word % 256 ≡ 0 }
    ensures core { core.new ≡ after_refill core.old word }
    ensures slot { result ≡ passed 64 8 6 core.old.random }
    ensures high { result < 64 }
{
    let epc = core.cp0.read(register::EPC);
    core.cp0.write(register::ENTRY_LO, word);
    let entry = Entry::of_words(core.cp0.read(register::ENTRY_HI), word);
    core.tlb.pass(BEFORE_WRITE);
    let slot = core.tlb.write_random(entry);
    core.tlb.pass(FROM_WRITE);
    core.registers[26] = 0;
    core.registers[27] = epc;
    core.late = None;
    core.pc = epc;
    core.next = wrapping_sum(epc, 4);
    core.slot = false;
    core.cp0.rfe();
    slot
}
