//! Loads and stores of every size, through the aligned word that holds the address.
ghost use Rattle.std.specs.Prelude.{◌≡◌};
ghost use Rattle.ds_isa.specs.Meaning.{meaning};
ghost use Rattle.ds_core.specs.Effect.{executed};

use super::Core;
use super::access::{kept_word, load_aligned};
use crate::event::Event;
use ds_amap::{Kind, Physical};
use ds_cp0::ExceptionCode;
use ds_dev::Bus;
use ds_isa::{Instr, Size};
use ds_tlb::Lookaside;
use ds_word::{
    byte_signed, byte_unsigned, half_signed, half_unsigned, merge_left, merge_right, store_byte,
    store_half, store_left, store_right,
};

impl<L: Lookaside> Core<L> {
    /// Loads a byte with its sign.
    #[inline(always)]
    pub(super) fn load_byte(&mut self, rt: u8, rs: u8, immediate: u16, bus: &mut Bus) -> Event
        ensures { (record { event = result; core = self.new; bus = bus.new })
            ≡ executed self.old bus.old (Instr.Lb rt rs immediate) }
    {
        let address = self.access_address(rs, immediate);
        let place = match self.reach(Kind::Load, Size::Byte, address) {
            Ok(Physical(place)) => place,
            Err(fault) => return self.refuse(Kind::Load, address, fault),
        };
        match load_aligned(bus, place, Size::Byte) {
            Ok(word) => self.retire_load(rt, byte_signed(word, address % 4)),
            Err(_) => self.trap(ExceptionCode::DataBus),
        }
    }

    /// Loads a byte below zeros.
    #[inline(always)]
    pub(super) fn load_byte_unsigned(
        &mut self,
        rt: u8,
        rs: u8,
        immediate: u16,
        bus: &mut Bus,
    ) -> Event
        ensures { (record { event = result; core = self.new; bus = bus.new })
            ≡ executed self.old bus.old (Instr.Lbu rt rs immediate) }
    {
        let address = self.access_address(rs, immediate);
        let place = match self.reach(Kind::Load, Size::Byte, address) {
            Ok(Physical(place)) => place,
            Err(fault) => return self.refuse(Kind::Load, address, fault),
        };
        match load_aligned(bus, place, Size::Byte) {
            Ok(word) => self.retire_load(rt, byte_unsigned(word, address % 4)),
            Err(_) => self.trap(ExceptionCode::DataBus),
        }
    }

    /// Loads a half with its sign.
    #[inline(always)]
    pub(super) fn load_half(&mut self, rt: u8, rs: u8, immediate: u16, bus: &mut Bus) -> Event
        ensures { (record { event = result; core = self.new; bus = bus.new })
            ≡ executed self.old bus.old (Instr.Lh rt rs immediate) }
    {
        let address = self.access_address(rs, immediate);
        let place = match self.reach(Kind::Load, Size::Half, address) {
            Ok(Physical(place)) => place,
            Err(fault) => return self.refuse(Kind::Load, address, fault),
        };
        match load_aligned(bus, place, Size::Half) {
            Ok(word) => self.retire_load(rt, half_signed(word, address % 4)),
            Err(_) => self.trap(ExceptionCode::DataBus),
        }
    }

    /// Loads a half below zeros.
    #[inline(always)]
    pub(super) fn load_half_unsigned(
        &mut self,
        rt: u8,
        rs: u8,
        immediate: u16,
        bus: &mut Bus,
    ) -> Event
        ensures { (record { event = result; core = self.new; bus = bus.new })
            ≡ executed self.old bus.old (Instr.Lhu rt rs immediate) }
    {
        let address = self.access_address(rs, immediate);
        let place = match self.reach(Kind::Load, Size::Half, address) {
            Ok(Physical(place)) => place,
            Err(fault) => return self.refuse(Kind::Load, address, fault),
        };
        match load_aligned(bus, place, Size::Half) {
            Ok(word) => self.retire_load(rt, half_unsigned(word, address % 4)),
            Err(_) => self.trap(ExceptionCode::DataBus),
        }
    }

    /// Loads the upper part of an unaligned word.
    #[inline(never)]
    pub(super) fn load_left(&mut self, rt: u8, rs: u8, immediate: u16, bus: &mut Bus) -> Event
        ensures { (record { event = result; core = self.new; bus = bus.new })
            ≡ executed self.old bus.old (Instr.Lwl rt rs immediate) }
    {
        let address = self.access_address(rs, immediate);
        let place = match self.reach(Kind::Load, Size::Part, address) {
            Ok(Physical(place)) => place,
            Err(fault) => return self.refuse(Kind::Load, address, fault),
        };
        match load_aligned(bus, place, Size::Part) {
            Ok(word) => self.retire_load(rt, merge_left(word, self.newest(rt), address % 4)),
            Err(_) => self.trap(ExceptionCode::DataBus),
        }
    }

    /// Loads a word.
    #[inline(always)]
    pub(super) fn load_whole(&mut self, rt: u8, rs: u8, immediate: u16, bus: &mut Bus) -> Event
        ensures { (record { event = result; core = self.new; bus = bus.new })
            ≡ executed self.old bus.old (Instr.Lw rt rs immediate) }
    {
        let address = self.access_address(rs, immediate);
        let place = match self.reach(Kind::Load, Size::Word, address) {
            Ok(Physical(place)) => place,
            Err(fault) => return self.refuse(Kind::Load, address, fault),
        };
        match load_aligned(bus, place, Size::Word) {
            Ok(word) => self.retire_load(rt, word),
            Err(_) => self.trap(ExceptionCode::DataBus),
        }
    }

    /// Loads the lower part of an unaligned word.
    #[inline(never)]
    pub(super) fn load_right(&mut self, rt: u8, rs: u8, immediate: u16, bus: &mut Bus) -> Event
        ensures { (record { event = result; core = self.new; bus = bus.new })
            ≡ executed self.old bus.old (Instr.Lwr rt rs immediate) }
    {
        let address = self.access_address(rs, immediate);
        let place = match self.reach(Kind::Load, Size::Part, address) {
            Ok(Physical(place)) => place,
            Err(fault) => return self.refuse(Kind::Load, address, fault),
        };
        match load_aligned(bus, place, Size::Part) {
            Ok(word) => self.retire_load(rt, merge_right(word, self.newest(rt), address % 4)),
            Err(_) => self.trap(ExceptionCode::DataBus),
        }
    }

    /// Stores the low byte of a register.
    #[inline(always)]
    pub(super) fn store_byte(&mut self, rt: u8, rs: u8, immediate: u16, bus: &mut Bus) -> Event
        ensures { (record { event = result; core = self.new; bus = bus.new })
            ≡ executed self.old bus.old (Instr.Sb rt rs immediate) }
    {
        let address = self.access_address(rs, immediate);
        match self.reach(Kind::Store, Size::Byte, address) {
            Ok(Physical(place)) => {
                let word = kept_word(bus, place);
                self.retire_store(
                    place,
                    Size::Byte,
                    store_byte(word, self.read(rt), address % 4),
                    bus,
                )
            }
            Err(fault) => self.refuse(Kind::Store, address, fault),
        }
    }

    /// Stores the low half of a register.
    #[inline(always)]
    pub(super) fn store_half(&mut self, rt: u8, rs: u8, immediate: u16, bus: &mut Bus) -> Event
        ensures { (record { event = result; core = self.new; bus = bus.new })
            ≡ executed self.old bus.old (Instr.Sh rt rs immediate) }
    {
        let address = self.access_address(rs, immediate);
        match self.reach(Kind::Store, Size::Half, address) {
            Ok(Physical(place)) => {
                let word = kept_word(bus, place);
                self.retire_store(
                    place,
                    Size::Half,
                    store_half(word, self.read(rt), address % 4),
                    bus,
                )
            }
            Err(fault) => self.refuse(Kind::Store, address, fault),
        }
    }

    /// Stores the upper part of an unaligned word.
    #[inline(never)]
    pub(super) fn store_left(&mut self, rt: u8, rs: u8, immediate: u16, bus: &mut Bus) -> Event
        ensures { (record { event = result; core = self.new; bus = bus.new })
            ≡ executed self.old bus.old (Instr.Swl rt rs immediate) }
    {
        let address = self.access_address(rs, immediate);
        match self.reach(Kind::Store, Size::Part, address) {
            Ok(Physical(place)) => {
                let word = kept_word(bus, place);
                self.retire_store(
                    place,
                    Size::Part,
                    store_left(word, self.read(rt), address % 4),
                    bus,
                )
            }
            Err(fault) => self.refuse(Kind::Store, address, fault),
        }
    }

    /// Stores a word.
    #[inline(always)]
    pub(super) fn store_whole(&mut self, rt: u8, rs: u8, immediate: u16, bus: &mut Bus) -> Event
        ensures { (record { event = result; core = self.new; bus = bus.new })
            ≡ executed self.old bus.old (Instr.Sw rt rs immediate) }
    {
        let address = self.access_address(rs, immediate);
        match self.reach(Kind::Store, Size::Word, address) {
            Ok(Physical(place)) => { self.retire_store(place, Size::Word, self.read(rt), bus) }
            Err(fault) => self.refuse(Kind::Store, address, fault),
        }
    }

    /// Stores the lower part of an unaligned word.
    #[inline(never)]
    pub(super) fn store_right(&mut self, rt: u8, rs: u8, immediate: u16, bus: &mut Bus) -> Event
        ensures { (record { event = result; core = self.new; bus = bus.new })
            ≡ executed self.old bus.old (Instr.Swr rt rs immediate) }
    {
        let address = self.access_address(rs, immediate);
        match self.reach(Kind::Store, Size::Part, address) {
            Ok(Physical(place)) => {
                let word = kept_word(bus, place);
                self.retire_store(
                    place,
                    Size::Part,
                    store_right(word, self.read(rt), address % 4),
                    bus,
                )
            }
            Err(fault) => self.refuse(Kind::Store, address, fault),
        }
    }
}
