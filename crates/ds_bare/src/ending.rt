//! Why a run ends.
ghost use Rattle.std.specs.Prelude.{◌≡◌, ◌<◌, ◌≤◌, true};
ghost use Rattle.ds_amap.specs.declared.map.Fault.{Fault};
ghost use Rattle.ds_core.specs.Access.{mode_of};
ghost use Rattle.ds_core.specs.Core.{CoreState, Step};
ghost use Rattle.ds_bare.specs.Endings.{are_zero, ending_by, is_at, is_breakpoint, is_finish, word_at_pc, word_in};

use ds_amap::{Kind, Mode, Physical, translate};
use ds_core::{Core, Event};
use ds_cp0::{ExceptionCode, GENERAL_VECTOR, REFILL_VECTOR};
use ds_dev::Bus;
use ds_mem::SIZE;
use ds_tlb::Indexed;

/// The processor with its buffer of 64 slots, of which eight are wired.
pub(crate) type Processor = Core<Indexed<64, 8>>;

/// Why a run ended.
#[derive(Clone, Copy, Debug, PartialEq, Eq)]
pub enum Ending {
    /// All instructions that were asked for are done.
    Counted,
    /// The program said `break 1`.
    Finished,
    /// The processor came to the general vector, 80000080, and 32 words from there on are 0.
    AtGeneralVector,
    /// It came to the refill vector, 80000000, and 32 words from there on are 0.
    NoHandler,
}

/// `break 1`.
const FINISH: u32 = 0x4d;

/// How many words from a vector on are looked at: from the refill vector on, all before the other.
const HANDLER_WORDS: u32 = 32;

/// The physical address of the refill vector.
const REFILL_PLACE: u32 = 0;

/// The physical address of the general vector.
const GENERAL_PLACE: u32 = 0x80;

/// The mode of the processor.
#[inline(always)]
pub(crate) fn mode_of(core: &Processor) -> Mode
    ensures { result ≡ mode_of core.now.system }
{
    if core.cp0.user() {
        Mode::User
    } else {
        Mode::Kernel
    }
}

/// The word of the instruction at `pc`, where that lies in memory.
#[inline(always)]
#[tactic(auto, unfolding(crate::specs::Endings::word_at_pc))]
pub(crate) fn word_at_pc(core: &Processor, bus: &Bus) -> Option<u32>
    ensures { result ≡ word_at_pc core.now bus.now }
{
    if core.pc % 4 != 0 {
        return None;
    }
    match translate(
        core.pc,
        Kind::Fetch,
        mode_of(core),
        &core.tlb,
        core.cp0.asid(),
    ) {
        Ok(Physical(place)) => word_in(bus, place),
        Err(_) => None,
    }
}

/// The word at a place, where memory is.
#[inline(always)]
fn word_in(bus: &Bus, place: u32) -> Option<u32>
    ensures { result ≡ word_in bus.now (Ok (record { 0 = place })) }
{
    if (place as usize) < SIZE {
        Some(bus.word(place))
    } else {
        None
    }
}

/// Whether the processor is in kernel mode at an address.
#[inline(always)]
fn is_at(core: &Processor, address: u32) -> bool
    ensures { result ≡ is_at core.now address }
{
    core.pc == address && !core.cp0.user()
}

/// Whether the words from the place of a vector on are all 0.
#[tactic(auto, unfolding(crate::specs::Endings::are_zero))]
fn are_zero(bus: &Bus, place: u32) -> bool
    requires { place ≤ 128 }
    ensures { result ≡ are_zero bus.now.memory place 32 }
{
    for word in 0..HANDLER_WORDS {
        if bus.word(place + 4 * word) != 0 {
            return false;
        }
    }
    true
}

fn is_breakpoint(event: Event) -> bool
    ensures { result ≡ is_breakpoint event }
{
    match event {
        Event::Raised(code) => code.number() == 9,
        _ => false,
    }
}

fn is_finish(word: Option<u32>) -> bool
    ensures { result ≡ is_finish word }
{
    match word {
        Some(word) => word == FINISH,
        None => false,
    }
}

/// Why the run ends after a step of the instruction with this word, if it does.
#[inline(always)]
#[tactic(auto, unfolding(crate::specs::Endings::ending_by))]
pub(crate) fn ending_by(
    word: Option<u32>,
    event: Event,
    core: &Processor,
    bus: &Bus,
) -> Option<Ending>
    ensures { result ≡ ending_by word event core.now bus.now }
{
    if is_breakpoint(event) && is_finish(word) {
        return Some(Ending::Finished);
    }
    if is_at(core, GENERAL_VECTOR) && are_zero(bus, GENERAL_PLACE) {
        return Some(Ending::AtGeneralVector);
    }
    if is_at(core, REFILL_VECTOR) && are_zero(bus, REFILL_PLACE) {
        return Some(Ending::NoHandler);
    }
    None
}
