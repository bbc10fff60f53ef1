//! What a boundary does with the devices: the clock is brought to the time, characters come in and
//! are read, and the interrupt that is asked for is taken.
ghost use Rattle.std.specs.Prelude.{◌≡◌, ◌-◌, ◌<◌, ◌≤◌, ◌^◌, true, length, map, All};
ghost use Rattle.ds_dev.specs.Serial.{read_silo};
ghost use Rattle.ds_dev.specs.Clock.{read_flags};
ghost use Rattle.ds_dev.specs.Bus.{with_clock, with_serial, after_ticks};
ghost use Rattle.ds_dev.specs.Inner.Bus.{asks};
ghost use Rattle.ds_pagemap.specs.Machine.{State};
ghost use Rattle.ds_pagemap.specs.Boundary.{all_queued};
ghost use Rattle.ds_pagemap_laws.specs.Due.{come};
ghost use Rattle.ds_monitor.specs.Inner.Kept.{kept_of, kept_after};
ghost use Rattle.ds_kernel.specs.Inner.Devices.{IsOfLine, oldest, all_received, typed, emptied, interrupted};
ghost use Rattle.ds_kernel.specs.Inner.Attended.{to_come, bus_at};

use crate::parts::Parts;
use ds_core::Core;
use ds_cp0::{Exception, ExceptionCode};
use ds_dev::Bus;
use ds_isa::Size;
use ds_tlb::Lookaside;

/// The serial lines' register of received characters.
const RECEIVED: u32 = 0x1fe0_0008;

/// The clock's register of flags.
const CLOCK_FLAGS: u32 = 0x1fe8_0030;

/// A character that was read, with its line.
#[derive(Clone, Copy)]
struct Typed {
    line: u8,
    byte: u8,
}

/// Whether a period has ended since the clock's flags were last read, which clears them.
pub(crate) fn read_clock(bus: &mut Bus) -> bool
    ensures value { result ≡ bus.old.clock.flagged }
    ensures state { bus.new ≡ with_clock bus.old (read_flags bus.old.clock).1 }
{
    // The register takes a load of a word.
    let flags = bus.load(CLOCK_FLAGS, Size::Word).unwrap_or(0);
    (flags >> 6) & 1 == 1
}

/// The oldest character of the silo, which is taken out of it, if there is one.
fn read_character(bus: &mut Bus) -> Option<Typed>
    requires lines { All IsOfLine bus.old.serial.silo }
    ensures value { result ≡ oldest bus.old.serial.silo }
    ensures state { bus.new ≡ with_serial bus.old (read_silo bus.old.serial).1 }
{
    // The register takes a load of a word.
    let word = bus.load(RECEIVED, Size::Word).unwrap_or(0);
    if word >> 15 == 0 {
        return None;
    }
    Some(Typed {
        line: ((word >> 8) % 4) as u8,
        byte: (word % 256) as u8,
    })
}

/// Takes the interrupt that a device asks for, if one does, while a user runs: the processor is at
/// the vector, and EPC tells where the program goes on.
#[inline(always)]
fn take_interrupt<L: Lookaside>(core: &mut Core<L>, bus: &Bus)
    ensures { core.new ≡ interrupted (asks bus.now) core.old }
{
    if bus.asks() {
        core.raise(Exception {
            code: ExceptionCode::Interrupt,
            pc: core.pc,
            slot: core.slot,
            unit: 0,
            addr: None,
            miss: false,
        });
    }
}

impl<L: Lookaside> Parts<L> {
    /// The clock is brought to the time.
    pub(crate) fn catch_up(&mut self)
        requires before { self.old.monitor.ticked ≤ self.old.monitor.time }
        requires early { self.old.monitor.time < 2 ^ 62 }
        ensures { self.new ≡ record self.old {
          bus = after_ticks self.old.bus (self.old.monitor.time - self.old.monitor.ticked);
          monitor = record self.old.monitor { ticked = self.old.monitor.time };
        } }
    {
        self.bus.pass(self.monitor.time - self.monitor.ticked);
        self.monitor.ticked = self.monitor.time;
    }

    /// The characters that are due come in on their lines.
    fn receive(&mut self)
        requires on { self.old.bus.serial.master_scan ≡ true }
        requires lines { All IsOfLine self.old.bus.serial.silo }
        ensures state { self.new ≡ record self.old {
          bus = with_serial self.old.bus
              (all_received self.old.bus.serial (come (kept_of self.old.monitor).state));
          monitor = record self.old.monitor {
            due = record self.old.monitor.due {
              characters = to_come (kept_of self.old.monitor).state;
            };
          };
        } }
        ensures lines { All IsOfLine self.new.bus.serial.silo }
    {
        while let Some(character) = self.monitor.due.take(self.monitor.time) {
            self.bus.receive(character.line, character.byte);
        }
    }

    /// The clock is brought to the time, what is due comes in, and the interrupt is taken that a
    /// device then asks for.
    pub(crate) fn arrive(&mut self)
        requires before { self.old.monitor.ticked ≤ self.old.monitor.time }
        requires early { self.old.monitor.time < 2 ^ 62 }
        requires on { self.old.bus.serial.master_scan ≡ true }
        requires lines { All IsOfLine self.old.bus.serial.silo }
        ensures state { self.new ≡ record self.old {
          core = interrupted (asks (bus_at self.old.bus (kept_of self.old.monitor))) self.old.core;
          bus = bus_at self.old.bus (kept_of self.old.monitor);
          monitor = record self.old.monitor {
            ticked = self.old.monitor.time;
            due = record self.old.monitor.due {
              characters = to_come (kept_of self.old.monitor).state;
            };
          };
        } }
        ensures lines { All IsOfLine self.new.bus.serial.silo }
    {
        self.catch_up();
        self.receive();
        take_interrupt(&mut self.core, &self.bus);
    }

    /// Each character that was received goes to the queue of its line.
    #[inline(always)]
    pub(crate) fn drain(&mut self)
        requires lines { All IsOfLine self.old.bus.serial.silo }
        requires queues { length self.old.monitor.queues.items ≡ 4 }
        ensures kept { kept_of self.new.monitor ≡ kept_after (λ (m : State). record m {
          queues = all_queued m.queues (map typed self.old.bus.serial.silo);
        })
            (kept_of self.old.monitor) }
        ensures bus { self.new.bus ≡ with_serial self.old.bus (emptied self.old.bus.serial) }
        ensures rest { self.new ≡ record self.old {
          bus = self.new.bus;
          monitor = record self.old.monitor { queues = self.new.monitor.queues };
        } }
    {
        while let Some(character) = read_character(&mut self.bus) {
            self.monitor
                .queue_character(usize::from(character.line), character.byte);
        }
    }
}
