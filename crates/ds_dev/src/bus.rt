//! Memory and devices at their physical addresses.
ghost use Rattle.std.specs.Prelude.{◌≡◌, ◌+◌, ◌*◌, ◌%◌, ◌^◌, ◌<◌, ◌≤◌, IfSome, OnErr, length};
ghost use Rattle.std.specs.Borrow.{sem};
ghost use Rattle.ds_isa.specs.Instruction.{instruction_of};
ghost use Rattle.ds_isa.specs.declared.instr.Size.TheVariants.{Word};
ghost use Rattle.ds_pages.specs.Inner.Operations.{MeansAs};
ghost use Rattle.ds_word.specs.Word.{bits};
ghost use Rattle.ds_word.specs.Merge.{with_bits};
ghost use Rattle.ds_word.specs.Bytes.{word_at, with_word};
ghost use Rattle.ds_pages.specs.Inner.Page.{HoldsWords};
ghost use Rattle.ds_dev.specs.Bus.{at_start, load, store, register_load, register_store, after_ticks, lines, with_serial};
ghost use Rattle.ds_dev.specs.Inner.Bus.{alignment, devices_ask, asks};
ghost use Rattle.ds_dev.specs.Serial.{received, sent};
ghost use Rattle.ds_dev.specs.Inner.Lending.{LendsMemory};
ghost use Rattle.ds_pages.specs.Inner.Page.{HoldsWords};

use crate::access;
use crate::clock::{self, Clock};
use crate::fault::BusError;
use crate::known::KnownMemory;
use crate::memo::{Memo, PAGE_WORDS};
use crate::pages::Pages;
use crate::serial::{self, SerialLines};
use crate::system::{self, SystemRegister};
use ds_isa::{Instr, Size};
use ds_mem::{FRAME_SIZE, Memory, SIZE};
use ds_pages::{Operation, Page};
use std::alloc::AllocError;
use std::marker::Model;

/// The bus, which contracts see as the record of its memory and its devices.
#[derive(Drop)]
pub struct Bus {
    // Memory with its pages, which contracts don't see.
    memory: KnownMemory,
    // What was fetched from memory before. Contracts don't see it.
    memo: Memo,
    serial: SerialLines,
    clock: Clock,
    system: SystemRegister,
    // Whether a device asks for an interrupt, so that nobody has to look at each.
    asks: bool,
}

impl Model for Bus {
    ghost use Rattle.std.specs.Prelude.{◌≡◌};
    ghost use Rattle.ds_dev.specs.Bus.{BusState};
    ghost use Rattle.ds_dev.specs.Inner.Bus.{devices_ask};

    ghost Value = { BusState };

    ghost view = { λ b. record {
      memory = b.memory;
      serial = b.serial;
      clock = b.clock;
      system = b.system.enables;
    } };

    ghost invariant = { λ b. b.asks ≡ devices_ask b.serial b.system.enables b.clock };
}

/// A clone is the same to contracts. What was known of its memory it finds out anew.
impl Clone for Bus {
    ghost is_clone = { λ x y. y ≡ x };

    fn clone(&self) -> Result<Self, AllocError> {
        Ok(Bus {
            memory: self.memory.clone()?,
            memo: Memo::new(),
            serial: self.serial.clone()?,
            clock: self.clock.clone()?,
            system: self.system.clone()?,
            asks: self.asks,
        })
    }
}

/// Whether a device asks for an interrupt.
#[inline(always)]
fn devices_ask(serial: &SerialLines, system: &SystemRegister, clock: &Clock) -> bool
    ensures { result ≡ devices_ask serial.now system.now.enables clock.now }
{
    system.passes(serial.request()) || clock.request()
}

impl Bus {
    /// New devices over a memory: every register, flag and time zero, and no character. It has no
    /// pages of known operations.
    pub fn new(memory: Memory) -> Bus
        ensures { result ≡ at_start memory }
    {
        Bus::over(KnownMemory::new(memory, None))
    }

    /// New devices over a memory, and room for the pages of known operations of its frames.
    pub fn with_pages(memory: Memory, pages: Pages) -> Bus
        ensures { result ≡ at_start memory }
    {
        Bus::over(KnownMemory::new(memory, Some(pages)))
    }

    /// New devices over a memory with its pages.
    fn over(memory: KnownMemory) -> Bus
        ensures { result ≡ at_start memory }
    {
        Bus {
            memory,
            memo: Memo::new(),
            serial: SerialLines::new(),
            clock: Clock::new(),
            system: SystemRegister::new(),
            asks: false,
        }
    }

    /// The memory, for reading and writing.
    #[inline(always)]
    pub fn memory(&mut self) -> &mut Memory
        ensures* writes_back { sem 𝓛 (LendsMemory self.entry result) }
        ensures value { result.now ≡ self.old.memory }
    {
        self.memory.lend()
    }

    /// Takes out the page of the frame that begins at a place of memory: it holds the frame's words.
    /// There is none where the bus was given no pages, where the host has no room for it, or where
    /// memory was found to differ from it too often. Whoever has it has to tell it of each word that
    /// changes there, and gives it back (`give`).
    #[inline(always)]
    pub fn take(&mut self, base: u32) -> Option<Box<Page>>
        requires whole { base % 4096 ≡ 0 }
        requires inside { base + 4096 ≤ SIZE }
        ensures holds { IfSome result (λ page. HoldsWords page.value self.old.memory base) }
        ensures same { self.new ≡ self.old }
    {
        self.memory.take(base as usize / FRAME_SIZE)
    }

    /// Takes back the page of the frame that begins at a place of memory.
    #[inline(always)]
    pub fn give(&mut self, base: u32, page: Box<Page>)
        requires whole { base % 4096 ≡ 0 }
        requires inside { base + 4096 ≤ SIZE }
        requires holds { HoldsWords page.value self.old.memory base }
        ensures same { self.new ≡ self.old }
    {
        self.memory.give(base as usize / FRAME_SIZE, page);
    }

    /// The requests to the processor: IP2, of the system register, and IP3, of the clock.
    #[inline(always)]
    pub fn lines(&self) -> (bool, bool)
        ensures { result ≡ lines self.now }
    {
        (
            self.system.passes(self.serial.request()),
            self.clock.request(),
        )
    }

    /// Whether any device requests an interrupt.
    #[inline(always)]
    pub fn asks(&self) -> bool
        ensures { result ≡ asks self.now }
    {
        let Bus { asks, .. } = self;
        *asks
    }

    /// What is read at a physical address: in memory the byte, half or word, or for a part of a
    /// word that word; a register as a whole word. Reading a register may change it.
    #[inline(always)]
    pub fn load(&mut self, physical: u32, size: Size) -> Result<u32, BusError>
        requires aligned { physical < SIZE → physical % alignment size ≡ 0 }
        ensures value { result ≡ (load self.old physical size).0 }
        ensures state { self.new ≡ (load self.old physical size).1 }
        ensures refused { OnErr result (self.new ≡ self.old) }
    {
        if (physical as usize) < SIZE {
            return Ok(access::load(self.memory.memory(), physical, size));
        }
        match size {
            Size::Word => self.load_register(physical),
            _ => Err(BusError),
        }
    }

    /// The instruction of the word that holds a place in memory. It is remembered with its word and
    /// taken again for that word alone, so whatever memory's owner changes, nothing has to be
    /// forgotten.
    #[inline(always)]
    pub fn fetch(&mut self, physical: u32) -> Instr
        requires { physical < SIZE }
        ensures value { result ≡ instruction_of (word_at self.old.memory physical) }
        ensures state { self.new ≡ self.old }
    {
        let word = access::load(self.memory.memory(), physical, Size::Part);
        let place = physical as usize / 4 % PAGE_WORDS;
        self.memo.decoded(place, word)
    }

    /// The operation of the word at a place in memory, which is remembered as its instruction is. It
    /// is looked for by its offset in its page; another offset is no fault, but is slower.
    #[inline(always)]
    pub fn operation(&mut self, physical: u32, offset: u32) -> Operation
        requires aligned { physical % 4 ≡ 0 }
        requires inside { physical < SIZE }
        ensures value { MeansAs result (instruction_of (word_at self.old.memory physical)) }
        ensures state { self.new ≡ self.old }
    {
        let word = self.memory.memory().word(physical);
        self.memo.operation(offset as usize / 4 % PAGE_WORDS, word)
    }

    /// The aligned word that holds a place in memory.
    #[inline(always)]
    pub fn word(&self, physical: u32) -> u32
        requires { physical < SIZE }
        ensures { result ≡ word_at self.now.memory physical }
    {
        access::load(self.memory.memory(), physical, Size::Part)
    }

    /// The word at a place in memory.
    #[inline(always)]
    pub fn aligned_word(&self, physical: u32) -> u32
        requires aligned { physical % 4 ≡ 0 }
        requires inside { physical < SIZE }
        ensures { result ≡ word_at self.now.memory physical }
    {
        self.memory.memory().word(physical)
    }

    /// The half at a place in memory.
    #[inline(always)]
    pub fn half(&self, physical: u32) -> u16
        requires aligned { physical % 2 ≡ 0 }
        requires inside { physical < SIZE }
        ensures { result ≡ bits (word_at self.now.memory physical) (8 * (physical % 4)) 16 }
    {
        self.memory.memory().half(physical)
    }

    /// The byte at a place in memory.
    #[inline(always)]
    pub fn byte(&self, physical: u32) -> u8
        requires { physical < SIZE }
        ensures { result ≡ bits (word_at self.now.memory physical) (8 * (physical % 4)) 8 }
    {
        self.memory.memory().byte(physical)
    }

    /// The number of bytes of memory.
    #[inline(always)]
    pub fn memory_size(&self) -> usize
        ensures value { result ≡ SIZE }
        ensures size { length self.now.memory ≡ SIZE }
    {
        // A word is looked at, so that it is known that there are so many.
        let _word = self.memory.memory().word(0);
        SIZE
    }

    /// Replaces the aligned word that holds a place in memory.
    #[inline(always)]
    pub fn put_word(&mut self, physical: u32, word: u32)
        requires { physical < SIZE }
        ensures { self.new ≡ record self.old {
          memory = with_word self.old.memory physical word;
        } }
    {
        self.memory.store(physical, Size::Part, word);
    }

    /// Replaces the word at a place in memory.
    #[inline(always)]
    pub fn put_aligned_word(&mut self, physical: u32, word: u32)
        requires aligned { physical % 4 ≡ 0 }
        requires inside { physical < SIZE }
        ensures { self.new ≡ record self.old {
          memory = with_word self.old.memory physical word;
        } }
    {
        self.memory.store(physical, Size::Word, word);
    }

    /// Replaces the half at a place in memory by the lower one of a value.
    #[inline(always)]
    pub fn put_half(&mut self, physical: u32, value: u32)
        requires aligned { physical % 2 ≡ 0 }
        requires inside { physical < SIZE }
        ensures { self.new ≡ record self.old {
          memory = with_word self.old.memory physical
              (with_bits (word_at self.old.memory physical) (8 * (physical % 4)) 16 value);
        } }
    {
        self.memory.put_half(physical, value);
    }

    /// Replaces the byte at a place in memory by the lowest of a value.
    #[inline(always)]
    pub fn put_byte(&mut self, physical: u32, value: u32)
        requires { physical < SIZE }
        ensures { self.new ≡ record self.old {
          memory = with_word self.old.memory physical
              (with_bits (word_at self.old.memory physical) (8 * (physical % 4)) 8 value);
        } }
    {
        self.memory.put_byte(physical, value);
    }

    /// Writes at a physical address: in memory the byte, half or word, or for a part of a word
    /// that word; a register as a whole word.
    #[inline(always)]
    pub fn store(&mut self, physical: u32, size: Size, value: u32) -> Result<(), BusError>
        requires aligned { physical < SIZE → physical % alignment size ≡ 0 }
        ensures value { result ≡ (store self.old physical size value).0 }
        ensures state { self.new ≡ (store self.old physical size value).1 }
        ensures refused { OnErr result (self.new ≡ self.old) }
    {
        if (physical as usize) < SIZE {
            self.memory.store(physical, size, value);
            return Ok(());
        }
        match size {
            Size::Word => self.store_register(physical, value),
            _ => Err(BusError),
        }
    }

    /// Writes the serial lines' register of the enabled lines: as a store of a word at 1FE00010.
    /// Which lines are enabled changes no request.
    #[inline(always)]
    pub fn set_enables(&mut self, value: u32)
        ensures { self.new ≡ (store self.old 0x1fe0_0010 Word value).1 }
    {
        self.serial.set_enables(value);
    }

    /// Writes their register of the character to send: as a store of a word at 1FE00018. A character
    /// that is sent changes no request.
    #[inline(always)]
    pub fn transmit(&mut self, value: u32)
        ensures { self.new ≡ (store self.old 0x1fe0_0018 Word value).1 }
    {
        self.serial.transmit(value);
    }

    /// Lets one tick pass, or two.
    #[inline(always)]
    pub fn tick(&mut self, ticks: u32)
        requires { (1 ≤ ticks) × (ticks ≤ 2) }
        ensures { self.new ≡ after_ticks self.old ticks }
    {
        self.pass(u64::from(ticks));
    }

    /// Lets so many ticks pass.
    #[inline(always)]
    pub fn pass(&mut self, ticks: u64)
        requires { ticks < 2 ^ 63 }
        ensures { self.new ≡ after_ticks self.old ticks }
    {
        self.clock.pass(ticks);
        self.asks = devices_ask(&self.serial, &self.system, &self.clock);
    }

    /// A character comes in on a line, 0 to 3; whether it was taken. Of other numbers the low two
    /// bits count.
    pub fn receive(&mut self, line: u8, byte: u8) -> bool
        ensures value { result ≡ (received self.old.serial line byte).0 }
        ensures state { self.new ≡ with_serial self.old (received self.old.serial line byte).1 }
    {
        let taken = self.serial.receive(line, byte);
        self.asks = devices_ask(&self.serial, &self.system, &self.clock);
        taken
    }

    /// Hands out the character that waits to leave, as its line and its byte.
    #[inline(always)]
    pub fn sent(&mut self) -> Option<(u8, u8)>
        ensures value { result ≡ (sent self.old.serial).0 }
        ensures state { self.new ≡ with_serial self.old (sent self.old.serial).1 }
    {
        self.serial.sent()
    }

    /// Reads a register.
    #[cold]
    #[inline(never)]
    fn load_register(&mut self, physical: u32) -> Result<u32, BusError>
        ensures value { result ≡ (register_load self.old physical).0 }
        ensures state { self.new ≡ (register_load self.old physical).1 }
        ensures refused { OnErr result (self.new ≡ self.old) }
    {
        let answer = match physical {
            serial::CONTROL => Ok(self.serial.control()),
            serial::RECEIVED => Ok(self.serial.read_silo()),
            serial::ENABLES => Ok(self.serial.enables()),
            serial::TRANSMIT => Ok(0),
            clock::RATE => Ok(self.clock.rate()),
            clock::ENABLE => Ok(self.clock.enable()),
            clock::FLAGS => Ok(self.clock.read_flags()),
            system::ENABLES => Ok(self.system.word(self.serial.request())),
            _ => {
                if clock::is_register(physical) {
                    Ok(0)
                } else {
                    Err(BusError)
                }
            }
        };
        self.asks = devices_ask(&self.serial, &self.system, &self.clock);
        answer
    }

    /// Writes a register.
    #[cold]
    #[inline(never)]
    fn store_register(&mut self, physical: u32, value: u32) -> Result<(), BusError>
        ensures value { result ≡ (register_store self.old physical value).0 }
        ensures state { self.new ≡ (register_store self.old physical value).1 }
        ensures refused { OnErr result (self.new ≡ self.old) }
    {
        match physical {
            serial::CONTROL => self.serial.set_control(value),
            serial::RECEIVED => {}
            serial::ENABLES => self.serial.set_enables(value),
            serial::TRANSMIT => self.serial.transmit(value),
            clock::RATE => self.clock.set_rate(value),
            clock::ENABLE => self.clock.set_enable(value),
            system::ENABLES => self.system.set_enables(value),
            _ => {
                if !clock::is_register(physical) {
                    return Err(BusError);
                }
            }
        }
        self.asks = devices_ask(&self.serial, &self.system, &self.clock);
        Ok(())
    }
}
