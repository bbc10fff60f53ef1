//! What a random program begins with.
ghost use Rattle.std.specs.Prelude.{◌≡◌};

use super::dice::Dice;
use super::words::random_word;
use crate::parts::processor::{new_buffer, new_core};
use crate::parts::programs::machine::Machine;
use ds_cp0::{Cp0, register};
use ds_tlb::{Entry, Lookaside};

/// The first page of programs, and the frame that it has as a rule.
pub const FIRST_PAGE: u32 = 0x400;

/// The pages of programs, and their frames: the first two hold code.
pub const PAGES: u32 = 8;

/// The address of the first word of code.
pub const FIRST_ADDRESS: u32 = FIRST_PAGE * 4096;

/// The bytes of code.
pub const CODE_SIZE: u32 = 8192;

/// The entries of a program: each page in two address spaces.
pub const ENTRIES: usize = 16;

/// What a program begins with, beside its words.
#[derive(Clone, Copy)]
pub struct Start {
    pub registers: [u32; 32],
    pub hi: u32,
    pub lo: u32,
    pub place: u32,
    pub status: u32,
    pub entry_lo: u32,
    pub entries: [Entry; ENTRIES],
    /// The rate of the clock.
    pub rate: u32,
    /// How many words of 64 are for the system coprocessor.
    pub system: u32,
}

impl Start {
    /// A random one.
    pub fn drawn(dice: &mut Dice) -> Start {
        let (mode, system) = mode(dice);
        Start {
            registers: registers(dice),
            hi: dice.word(),
            lo: dice.word(),
            place: place(dice),
            status: dice.word() & 0xff3d | mode,
            entry_lo: entry(dice, FIRST_PAGE, 1).lo_word(),
            entries: entries(dice),
            rate: dice.below(16),
            system,
        }
    }
}

/// The bits of Status for a random mode, and how many words of 64 are for the system coprocessor. Most
/// programs are users', in which most steps go over pages that are remembered.
fn mode(dice: &mut Dice) -> (u32, u32) {
    match dice.below(8) {
        0 | 1 => (0, 8),
        2 => (0x1000_0002, 8),
        _ => (2, 1),
    }
}

/// The place of a word of code.
pub fn place(dice: &mut Dice) -> u32 {
    FIRST_ADDRESS + dice.word() % (CODE_SIZE / 4) * 4
}

/// The registers of a program: in 16 to 23 addresses of data, in 24 to 31 places in the code.
fn registers(dice: &mut Dice) -> [u32; 32] {
    let mut registers = [0; 32];
    for number in 1..32 {
        registers[number] = if number < 16 {
            value(dice)
        } else if number < 24 {
            data_address(dice)
        } else {
            place(dice)
        };
    }
    registers
}

/// A value to compute with: a small number, any word, or a word of code.
fn value(dice: &mut Dice) -> u32 {
    match dice.below(4) {
        0 => dice.below(4),
        1 => random_word(dice, 0),
        _ => dice.word(),
    }
}

/// An address of data: as a rule in the program's pages, else past the mapping, at a device, or
/// anywhere.
fn data_address(dice: &mut Dice) -> u32 {
    let offset = dice.word() % (PAGES * 1024) * 4;
    match dice.below(32) {
        0 => 0x8000_0000 + FIRST_ADDRESS + offset,
        1 => 0xbfe8_0000,
        2 => 0xbfe0_0000,
        3 => dice.word(),
        _ => FIRST_ADDRESS + offset,
    }
}

/// The entries of a program. Its code is valid in either space, so that it can go on.
fn entries(dice: &mut Dice) -> [Entry; ENTRIES] {
    let mut entries = [Entry::empty(0); ENTRIES];
    for number in 0..ENTRIES {
        let page = number as u32 / 2;
        let mut entry = entry(dice, FIRST_PAGE + page, number as u8 % 2 + 1);
        if page < 2 {
            entry.pfn = FIRST_PAGE + page;
            entry.v = true;
        }
        entries[number] = entry;
    }
    entries
}

/// A random entry of a page: not each is valid, or may be written.
pub fn entry(dice: &mut Dice, vpn: u32, asid: u8) -> Entry {
    Entry {
        vpn,
        asid,
        pfn: FIRST_PAGE + dice.below(PAGES),
        n: dice.below(2) == 0,
        d: dice.below(4) != 0,
        v: dice.below(8) != 0,
        g: dice.below(16) == 0,
    }
}

/// The system coprocessor of a program that begins.
fn new_system(start: &Start) -> Cp0 {
    let mut cp0 = Cp0::new();
    cp0.write(register::STATUS, start.status);
    cp0.write(register::ENTRY_LO, start.entry_lo);
    cp0.write(register::ENTRY_HI, 64);
    cp0
}

/// A buffer with the entries in the first slots that are not wired.
fn buffer_of<L: Lookaside>(entries: &[Entry; ENTRIES]) -> L
    requires slots { L.SLOTS ≡ 64 }
    requires wired { L.WIRED ≡ 8 }
{
    let mut tlb: L = new_buffer();
    for number in 0..ENTRIES {
        tlb.write(number + 8, entries[number]);
    }
    tlb
}

impl<L: Lookaside> Machine<L> {
    /// Begins a program, whose words are put in beside.
    pub fn begin(&mut self, start: &Start)
        requires slots { L.SLOTS ≡ 64 }
        requires wired { L.WIRED ≡ 8 }
    {
        let (cp0, tlb) = (new_system(start), buffer_of(&start.entries));
        self.core = new_core(start.registers, start.place, cp0, tlb);
        self.core.hi = start.hi;
        self.core.lo = start.lo;
        self.start_clock(start.rate);
    }
}
