//! The processor in which the cases' programs run.
ghost use Rattle.std.specs.Prelude.{◌≡◌};

use crate::parts::processor::{new_buffer, new_core, page};
use ds_core::Core;
use ds_cp0::{Cp0, register};
use ds_dev::Bus;
use ds_tlb::Lookaside;

/// Where the kernel's programs stand.
pub const KERNEL: u32 = 0x8000_1000;

/// The physical address of each program.
const PLACE: u32 = 0x1000;

/// A buffer with the program's page, and after it a page that is not valid, a clean one, one
/// where nothing is, and the serial lines; page 00406 in address space 2.
fn new_tlb<L: Lookaside>() -> L
    requires slots { L.SLOTS ≡ 64 }
    requires wired { L.WIRED ≡ 8 }
{
    let mut tlb: L = new_buffer();
    tlb.write(8, page(0x400, 1, 1, true, true));
    tlb.write(9, page(0x401, 1, 1, true, false));
    tlb.write(10, page(0x402, 1, 1, false, true));
    tlb.write(11, page(0x403, 1, 0x800, true, true));
    tlb.write(12, page(0x404, 1, 0x1fe00, true, true));
    tlb.write(13, page(0x406, 2, 1, true, true));
    tlb
}

/// A processor in address space 1 whose registers hold 7 but register 0, and register 8 what is
/// asked for.
pub fn core_of<L: Lookaside>(status: u32, pc: u32, eighth: u32) -> Core<L>
    requires slots { L.SLOTS ≡ 64 }
    requires wired { L.WIRED ≡ 8 }
{
    let mut registers = [7; 32];
    registers[8] = eighth;
    let mut cp0 = Cp0::new();
    cp0.write(register::STATUS, status);
    cp0.write(register::ENTRY_HI, 0x40);
    new_core(registers, pc, cp0, new_tlb())
}

/// Puts a program's words one after the other at the programs' place.
pub fn put_program(bus: &mut Bus, words: &[u32]) {
    for (k, word) in words.iter().enumerate() {
        let to = PLACE as usize / 4 + k;
        if to < 0x20_0000 {
            bus.memory().put_word(4 * to as u32, *word);
        }
    }
}
