//! A step that looks at everything: interrupts, the whole way of the fetch, and where it leads.
ghost use Rattle.std.specs.Prelude.{◌≡◌};
ghost use Rattle.ds_cp0.specs.System.{is_pending};
ghost use Rattle.ds_dev.specs.Bus.{lines};
ghost use Rattle.ds_core.specs.Effect.{instruction_step, step};

use super::Core;
use super::access::fetch;
use crate::event::Event;
use ds_amap::{Kind, Physical};
use ds_cp0::ExceptionCode;
use ds_dev::Bus;
use ds_isa::Size;
use ds_tlb::Lookaside;

impl<L: Lookaside> Core<L> {
    /// Takes an interrupt that is pending, or does the instruction at `pc`. In a buffer of 64 slots
    /// 8 are wired.
    #[inline(always)]
    pub fn step(&mut self, bus: &mut Bus) -> Event
        requires slots { L.SLOTS ≡ 64 }
        requires wired { L.WIRED ≡ 8 }
        ensures { (record { event = result; core = self.new; bus = bus.new })
            ≡ step self.old bus.old }
    {
        self.step_anew(bus)
    }

    /// A step that looks at everything: takes an interrupt that is pending, or does the instruction
    /// at `pc`.
    #[cold]
    #[inline(never)]
    fn step_anew(&mut self, bus: &mut Bus) -> Event
        requires slots { L.SLOTS ≡ 64 }
        requires wired { L.WIRED ≡ 8 }
        ensures { (record { event = result; core = self.new; bus = bus.new })
            ≡ step self.old bus.old }
    {
        if self.is_interrupted(bus) {
            return self.trap(ExceptionCode::Interrupt);
        }
        let event = self.instruction_step(bus);
        self.tlb.tick();
        event
    }

    /// Whether an interrupt is to be taken.
    fn is_interrupted(&self, bus: &Bus) -> bool
        ensures { result ≡ is_pending self.now.system (lines bus.now).0 (lines bus.now).1 }
    {
        let (system, clock) = bus.lines();
        self.cp0.pending(system, clock)
    }

    /// Does the instruction at `pc`.
    #[inline(always)]
    fn instruction_step(&mut self, bus: &mut Bus) -> Event
        requires { L.SLOTS ≡ 64 }
        ensures { (record { event = result; core = self.new; bus = bus.new })
            ≡ instruction_step self.old bus.old }
    {
        let place = match self.reach(Kind::Fetch, Size::Word, self.pc) {
            Ok(Physical(place)) => place,
            Err(fault) => return self.refuse(Kind::Fetch, self.pc, fault),
        };
        match fetch(bus, place) {
            Ok(instr) => self.execute(instr, bus),
            Err(_) => self.trap(ExceptionCode::FetchBus),
        }
    }
}
