//! What of the machine is seen between two instructions, with no effect on it.
ghost use Rattle.std.specs.Prelude.{◌≡◌, ◌++◌, IfErr, IfOk, OnOk, Ok, true};
ghost use Rattle.std.specs.String.{string_bytes};
ghost use Rattle.ds_cp0.specs.System.{is_user};
ghost use Rattle.ds_bare.specs.Ends.{slots_text};
ghost use Rattle.ds_bare.specs.Faults.{is_cut, may_start};
ghost use Rattle.ds_bare.specs.Machine.{machine_at_start};
ghost use Rattle.ds_bare.specs.Sights.{byte_in, byte_seen};
ghost use Rattle.ds_bare.specs.Steps.{general_seen, others};

use crate::ending::mode_of;
use crate::fault::BareFault;
use crate::machine::{Machine, core_at_start};
use crate::matches::{entries_of, push_entries};
use crate::registers::{general_seen, others};
use ds_amap::{Kind, Physical, translate};
use ds_asm::Image;
use ds_dev::Bus;
use ds_mem::SIZE;
use ds_policy::Character;
use std::alloc::{AllocError, Global};

/// The byte at a place, where memory is.
fn byte_in(bus: &Bus, place: u32) -> Option<u8>
    ensures { result ≡ byte_in bus.now (Ok (record { 0 = place })) }
{
    if (place as usize) < SIZE {
        Some(bus.byte(place))
    } else {
        None
    }
}

/// The machine with an image, before its first instruction.
pub fn machine_at_start<'a>(
    alloc: Global,
    image: &Image,
    random: u8,
    keys: &'a [Character],
) -> Result<Machine<'a>, BareFault>
    ensures start { IfOk result (λ m. m ≡ machine_at_start image.now random keys.entry.now) }
    ensures started { OnOk result (may_start random ≡ true) }
    ensures refused { IfErr result (λ f. is_cut f ≡ may_start random) }
{
    let core = core_at_start(random)?;
    Ok(Machine::new(alloc, core, image, keys)?)
}

impl<'a> Machine<'a> {
    /// The address of the next instruction.
    pub fn address(&self) -> u32
        ensures { result ≡ self.now.core.pc }
    {
        self.core.pc
    }

    /// Whether the processor is in user mode.
    pub fn is_user(&self) -> bool
        ensures { result ≡ is_user self.now.core.system }
    {
        self.core.cp0.user()
    }

    /// The general registers, as the next instruction reads them.
    pub fn general(&self) -> [u32; 32]
        ensures { result ≡ general_seen self.now.core.registers }
    {
        general_seen(&self.core)
    }

    /// HI, LO, and the coprocessor's registers as `mfc0` reads them: Index, EntryLo, Context, BadVAddr,
    /// EntryHi, Status, Cause and EPC.
    pub fn others(&self) -> [u32; 10]
        ensures { result ≡ others self.now.core self.now.bus }
    {
        others(&self.core, &self.bus)
    }

    /// The byte that a load at an address would read now, where that lies in memory.
    #[tactic(auto, unfolding(crate::specs::Sights::byte_seen))]
    pub fn byte_seen(&self, address: u32) -> Option<u8>
        ensures { result ≡ byte_seen self.now address }
    {
        match translate(
            address,
            Kind::Load,
            mode_of(&self.core),
            &self.core.tlb,
            self.core.cp0.asid(),
        ) {
            Ok(Physical(place)) => byte_in(&self.bus, place),
            Err(_) => None,
        }
    }

    /// The characters that were sent, each with its line, the oldest first.
    pub fn sent(&self) -> &[(u8, u8)]
        ensures { result.now ≡ self.now.sent }
    {
        self.sent.as_slice()
    }

    /// Adds the slots of the buffer whose entries are valid, a line each.
    pub fn push_slots(&self, alloc: Global, text: &mut String) -> Result<(), AllocError>
        ensures { OnOk result
            (string_bytes text.new ≡ string_bytes text.old ++ slots_text 0 self.now.core.entries) }
    {
        let entries = entries_of(alloc, &self.core)?;
        push_entries(text, entries.as_slice())
    }
}
