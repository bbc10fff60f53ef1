//! Fetches, loads and stores: an address through the translation buffer, and then the bus.
ghost use Rattle.std.specs.Prelude.{◌≡◌, ◌≤◌};
ghost use Rattle.ds_isa.specs.Access.{is_store};
ghost use Rattle.ds_dev.specs.Bus.{load, store};
ghost use Rattle.ds_amap.specs.Map.{translate};
ghost use Rattle.ds_cp0.specs.System.{asid_of};
ghost use Rattle.ds_core.specs.Core.{core_at_vector};
ghost use Rattle.ds_core.specs.Access.{mode_of, reached, code_of, access_exception, aligned_load, kept_word, aligned_store, store_answered};
ghost use Rattle.ds_core.specs.Inner.Access.{decoded};

use super::Core;
use crate::event::Event;
use ds_amap::{Fault, Kind, Mode, Physical, reach, recalled};
use ds_cp0::{Cp0, Exception, ExceptionCode};
use ds_dev::{Bus, BusError};
use ds_isa::{Instr, Size, decode};
use ds_mem::SIZE;
use ds_tlb::Lookaside;

/// The mode of the processor.
#[inline(always)]
fn mode_of(cp0: &Cp0) -> Mode
    ensures { result ≡ mode_of cp0.now }
{
    if cp0.user() { Mode::User } else { Mode::Kernel }
}

/// The cause of an access that has no physical address.
fn code_of(fault: Fault, store: bool) -> ExceptionCode
    ensures { result ≡ code_of fault store }
{
    match fault {
        Fault::Address if store => ExceptionCode::StoreAddress,
        Fault::Address => ExceptionCode::LoadAddress,
        Fault::Modified => ExceptionCode::Modification,
        Fault::Refill | Fault::Invalid if store => ExceptionCode::StoreMiss,
        Fault::Refill | Fault::Invalid => ExceptionCode::LoadMiss,
    }
}

/// Loads the aligned word that holds a place in memory, whatever the size of the access; a
/// register answers to a whole word.
#[inline(always)]
pub(super) fn load_aligned(bus: &mut Bus, place: u32, size: Size) -> Result<u32, BusError>
    ensures value { result ≡ (aligned_load bus.old place size).0 }
    ensures state { bus.new ≡ (aligned_load bus.old place size).1 }
{
    if (place as usize) < SIZE {
        bus.load(place, Size::Part)
    } else {
        // Answered anew: what memory answers is then known to be Ok.
        Ok(load_elsewhere(bus, place, size)?)
    }
}

/// Loads from a place that lies in no memory.
#[cold]
#[inline(never)]
fn load_elsewhere(bus: &mut Bus, place: u32, size: Size) -> Result<u32, BusError>
    requires { SIZE ≤ place }
    ensures value { result ≡ (load bus.old place size).0 }
    ensures state { bus.new ≡ (load bus.old place size).1 }
{
    bus.load(place, size)
}

/// The instruction whose word lies at a place.
#[inline(always)]
pub(super) fn fetch(bus: &mut Bus, place: u32) -> Result<Instr, BusError>
    ensures value { result ≡ decoded (aligned_load bus.old place Size.Word).0 }
    ensures state { bus.new ≡ (aligned_load bus.old place Size.Word).1 }
{
    if (place as usize) < SIZE {
        Ok(bus.fetch(place))
    } else {
        Ok(fetch_elsewhere(bus, place)?)
    }
}

/// The instruction whose word a register holds.
#[cold]
#[inline(never)]
fn fetch_elsewhere(bus: &mut Bus, place: u32) -> Result<Instr, BusError>
    requires { SIZE ≤ place }
    ensures value { result ≡ decoded (load bus.old place Size.Word).0 }
    ensures state { bus.new ≡ (load bus.old place Size.Word).1 }
{
    match bus.load(place, Size::Word) {
        Ok(word) => Ok(decode(word)),
        Err(error) => Err(error),
    }
}

/// The aligned word that holds a place in memory, of which a store changes a part; 0 elsewhere.
#[inline(always)]
pub(super) fn kept_word(bus: &mut Bus, place: u32) -> u32
    ensures value { result ≡ kept_word bus.old place }
    ensures same { bus.new ≡ bus.old }
{
    match bus.load(place, Size::Part) {
        Ok(word) => word,
        Err(_) => 0,
    }
}

/// Stores the aligned word that holds a place in memory, whatever the size of the access; a
/// register takes a whole word.
#[inline(always)]
fn store_aligned(bus: &mut Bus, place: u32, size: Size, word: u32) -> Result<(), BusError>
    ensures value { result ≡ (aligned_store bus.old place size word).0 }
    ensures state { bus.new ≡ (aligned_store bus.old place size word).1 }
{
    if (place as usize) < SIZE {
        bus.store(place, Size::Part, word)
    } else {
        store_elsewhere(bus, place, size, word)?;
        Ok(())
    }
}

/// Stores at a place that lies in no memory.
#[cold]
#[inline(never)]
fn store_elsewhere(bus: &mut Bus, place: u32, size: Size, word: u32) -> Result<(), BusError>
    requires { SIZE ≤ place }
    ensures value { result ≡ (store bus.old place size word).0 }
    ensures state { bus.new ≡ (store bus.old place size word).1 }
{
    bus.store(place, size, word)
}

impl<L: Lookaside> Core<L> {
    /// The physical address of an access, or why there is none.
    #[inline(always)]
    pub(super) fn reach(
        &mut self,
        access: Kind,
        size: Size,
        address: u32,
    ) -> Result<Physical, Fault>
        ensures value { result ≡ reached self.old access size address }
        ensures same { self.new ≡ self.old }
    {
        if !size.is_aligned(address) {
            return Err(Fault::Address);
        }
        match recalled(address, access, &self.tlb, self.cp0.asid()) {
            Some(place) => Ok(place),
            None => self.search(access, address),
        }
    }

    /// The same for an address whose page the buffer doesn't remember. It stays a call.
    #[cold]
    #[inline(never)]
    fn search(&mut self, access: Kind, address: u32) -> Result<Physical, Fault>
        ensures value { result
            ≡ translate self.old.entries (asid_of self.old.system) (mode_of self.old.system)
            access address }
        ensures same { self.new ≡ self.old }
    {
        let mode = mode_of(&self.cp0);
        let asid = self.cp0.asid();
        reach(address, access, mode, &mut self.tlb, asid)
    }

    /// Enters the exception of an access that has no physical address.
    #[cold]
    #[inline(never)]
    pub(super) fn refuse(&mut self, access: Kind, address: u32, fault: Fault) -> Event
        ensures event { result ≡ Event.Raised (code_of fault (is_store access)) }
        ensures core { self.new ≡ core_at_vector self.old (access_exception self.old access address fault) }
    {
        self.raise(Exception {
            code: code_of(fault, access.is_store()),
            pc: self.pc,
            slot: self.slot,
            unit: 0,
            addr: Some(address),
            miss: matches!(fault, Fault::Refill),
        })
    }

    /// Stores a word at a place, and is done with the instruction.
    #[inline(always)]
    pub(super) fn retire_store(&mut self, place: u32, size: Size, word: u32, bus: &mut Bus) -> Event
        ensures { (record { event = result; core = self.new; bus = bus.new })
            ≡ store_answered self.old (aligned_store bus.old place size word).1
            (aligned_store bus.old place size word).0 }
    {
        match store_aligned(bus, place, size, word) {
            Ok(()) => self.retire_settled(),
            Err(_) => self.trap(ExceptionCode::DataBus),
        }
    }
}
