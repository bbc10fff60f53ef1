//! The words, where they stand, and which of them comes next at an address.
ghost use Rattle.std.specs.Prelude.{◌≡◌, ℕ, ◌<◌, ◌↔◌, Some};
ghost use Rattle.ds_mem.specs.Memory.{frame_of};
ghost use Rattle.ds_refill.specs.Handler.{words, HasWords, handler_address};
ghost use Rattle.ds_refill.specs.Inner.Handler.{with_words, phase_of};

use ds_mem::Memory;

/// The words of the handler in their order. The sixth clears register 26, so that no word of a page
/// table is left in it.
pub const WORDS: [u32; 9] = [
    0x401a_2000, // mfc0 $26,$4      Context, the address of the page-table entry
    0x401b_7000, // mfc0 $27,$14     EPC, the address to go back to
    0x8f5a_0000, // lw $26,0($26)
    0x0000_0000, // nop
    0x409a_1000, // mtc0 $26,$2      EntryLo
    0x0000_d021, // addu $26,$0,$0
    0x4200_0006, // tlbwr
    0x0360_0008, // jr $27
    0x4200_0010, // rfe
];

/// The address of the first word: physical 0, in the kernel's segment that is not mapped.
const FIRST: u32 = 0x8000_0000;

/// Puts the words at the beginning of memory. All frames but the first stay as they are.
pub fn install(memory: &mut Memory)
    ensures value { memory.new ≡ with_words memory.old 0 words }
    ensures words { HasWords memory.new }
    ensures frames { (f : ℕ) → 0 < f → frame_of memory.new f ≡ frame_of memory.old f }
{
    for k in 0..WORDS.len() {
        memory.put_word(4 * k as u32, WORDS[k]);
    }
}

/// The place in `WORDS`, 0 to 8, of the word at an address, where one of them stands there.
pub fn phase(pc: u32) -> Option<usize>
    ensures value { result ≡ phase_of pc }
    ensures exact { (k : ℕ) → (result ≡ Some k) ↔ ((k < 9) × (pc ≡ handler_address k)) }
{
    if pc < FIRST || pc % 4 != 0 {
        return None;
    }
    let place = ((pc - FIRST) / 4) as usize;
    if place < WORDS.len() {
        Some(place)
    } else {
        None
    }
}
