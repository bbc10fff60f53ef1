//! A processor and its bus, with a program.
ghost use Rattle.std.specs.Prelude.{◌≡◌, ◌≤◌};

use crate::parts::processor::{new_buffer, new_core, page};
use ds_ahead::{Ahead, run_ahead};
use ds_asm::Image;
use ds_core::Core;
use ds_cp0::{Cp0, ExceptionCode, register};
use ds_dev::{Bus, Pages};
use ds_isa::Size;
use ds_mem::Memory;
use ds_tlb::Lookaside;
use std::alloc::Global;

/// Where programs begin.
const START: u32 = 0x40_0000;

/// Status in user mode, with the devices' interrupts on.
const USER_STATUS: u32 = 0xc03;

/// The addresses of the clock's rate, its enable and its flags, which a load clears.
const CLOCK_RATE: u32 = 0x1fe8_0028;

const CLOCK_ENABLE: u32 = 0x1fe8_002c;

const CLOCK_FLAGS: u32 = 0x1fe8_0030;

/// A processor and its bus.
#[derive(Drop)]
pub struct Machine<L: Lookaside> {
    pub core: Core<L>,
    pub bus: Bus,
}

/// Goes back from an exception; answers after which address the program goes on: that of its
/// instruction, or where an interrupt came, whose request is taken away, right before it.
fn place_after(cp0: &mut Cp0, code: ExceptionCode) -> u32 {
    let epc = cp0.read(register::EPC);
    let pc = if code == ExceptionCode::Interrupt {
        cp0.write(register::CAUSE, 0);
        epc
    } else {
        epc.wrapping_add(4)
    };
    cp0.rfe();
    pc
}

/// Writes the entries of a program in a fresh buffer: its code is page 00400 of spaces 1 and 2.
fn map_program<L: Lookaside>(tlb: &mut L)
    requires slots { L.SLOTS ≡ 64 }
{
    tlb.write(8, page(0x400, 1, 1, true, true));
    tlb.write(9, page(0x410, 1, 2, true, true));
    tlb.write(10, page(0x411, 1, 3, false, true));
    tlb.write(11, page(0x400, 2, 1, true, true));
    tlb.write(12, page(0x410, 2, 4, true, true));
}

impl<L: Lookaside> Machine<L> {
    /// A machine in kernel mode and address space 0, with zeros and an empty buffer; none where there is
    /// no memory for it.
    pub fn blank(alloc: Global) -> Option<Machine<L>>
        requires slots { L.SLOTS ≡ 64 }
        requires wired { L.WIRED ≡ 8 }
    {
        let memory = Memory::new(alloc).ok()?;
        let pages = Pages::new(alloc).ok()?;
        Some(Machine::over(Bus::with_pages(memory, pages)))
    }

    /// The same without pages of known operations.
    pub fn pageless(alloc: Global) -> Option<Machine<L>>
        requires slots { L.SLOTS ≡ 64 }
        requires wired { L.WIRED ≡ 8 }
    {
        let memory = Memory::new(alloc).ok()?;
        Some(Machine::over(Bus::new(memory)))
    }

    /// The same over a bus.
    fn over(bus: Bus) -> Machine<L>
        requires slots { L.SLOTS ≡ 64 }
        requires wired { L.WIRED ≡ 8 }
    {
        let core = new_core([0; 32], 0, Cp0::new(), new_buffer());
        Machine { core, bus }
    }

    /// Puts a program into a blank machine, which stands at its start in address space 1. Its code
    /// is page 00400 of spaces 1 and 2, and frame 1; page 00410 is frame 2 in space 1 and frame 4 in
    /// space 2; page 00411 is frame 3, and clean.
    pub fn load(&mut self, image: &Image)
        requires slots { L.SLOTS ≡ 64 }
    {
        image.page(0, self.bus.memory().frame_mut(1));
        map_program(&mut self.core.tlb);
        self.core.cp0.write(register::ENTRY_HI, 0x40);
        self.go_on_at(START);
    }

    /// Goes on at an address.
    pub fn go_on_at(&mut self, address: u32) {
        self.core.pc = address;
        self.core.next = address.wrapping_add(4);
        self.core.slot = false;
    }

    /// Starts the clock at a rate, with nothing asked for.
    pub fn start_clock(&mut self, rate: u32) {
        let _ = self.bus.store(CLOCK_RATE, Size::Word, rate);
        let _ = self.bus.store(CLOCK_ENABLE, Size::Word, 0x40);
        let _ = self.bus.load(CLOCK_FLAGS, Size::Word);
    }

    /// Where a program stands after so many instructions ahead in user mode, and what register 4
    /// holds then.
    pub fn come_to(&mut self, image: &Image, count: u32) -> (u32, u32)
        requires slots { L.SLOTS ≡ 64 }
        requires wired { L.WIRED ≡ 8 }
    {
        self.load(image);
        self.core.cp0.write(register::STATUS, USER_STATUS);
        self.run(count);
        (self.core.pc, self.core.registers[4])
    }

    /// Serves an exception: after the instruction, or where an interrupt came, whose request it
    /// takes away.
    pub fn serve(&mut self, code: ExceptionCode) {
        if code == ExceptionCode::Interrupt {
            let _ = self.bus.load(CLOCK_FLAGS, Size::Word);
        }
        let pc = place_after(&mut self.core.cp0, code);
        self.go_on_at(pc);
    }

    /// Runs ahead, for so many steps at most.
    pub fn run_on(&mut self, limit: u32) -> Ahead
        requires slots { L.SLOTS ≡ 64 }
        requires wired { L.WIRED ≡ 8 }
        ensures { result.steps ≤ limit }
    {
        run_ahead(&mut self.core, &mut self.bus, limit)
    }

    /// Takes so many steps, running ahead from exception to exception.
    #[inline(never)]
    pub fn run(&mut self, count: u32)
        requires slots { L.SLOTS ≡ 64 }
        requires wired { L.WIRED ≡ 8 }
    {
        let mut left = count;
        for _ in 0..count {
            if left == 0 {
                break;
            }
            let ahead = self.run_on(left);
            left -= ahead.steps;
            if let Some(code) = ahead.raised {
                left = left.saturating_sub(1);
                self.serve(code);
            }
        }
    }
}
