//! One operation of a stretch: what seldom comes is left to the plain step.
ghost use Rattle.std.specs.Prelude.{◌≡◌, ◌≢◌, ◌+◌, ◌-◌, ◌*◌, ◌%◌, ◌<◌, ◌≤◌, ◌^◌, slice_index, Ok, IfSome};
ghost use Rattle.ds_isa.specs.Registers.{written, loaded, settled};
ghost use Rattle.ds_isa.specs.Meaning.{written_or_trap, loads, stores, with_hi_lo, past_slot, Branches};
ghost use Rattle.ds_isa.specs.declared.instr.Size.TheVariants as size;
ghost use Rattle.ds_isa.specs.declared.instr.Kind.TheVariants.{Store};
ghost use Rattle.ds_word.specs.Word.{word, bits, sign_extended};
ghost use Rattle.ds_word.specs.Merge.{with_bits};
ghost use Rattle.ds_word.specs.Bytes.{word_at, with_word};
ghost use Rattle.ds_pages.specs.Inner.Operations.{target_by, in_region};
ghost use Rattle.ds_dev.specs.Bus.{lines};
ghost use Rattle.ds_dev.specs.Inner.Bus.{alignment};
ghost use Rattle.ds_cp0.specs.System.{asid_of};
ghost use Rattle.ds_core.specs.Access.{reached};
ghost use Rattle.ds_ahead.specs.Inner.Placed.{registers_at, with_general, at_next};
ghost use Rattle.ds_ahead.specs.Inner.Goes.{at_load, GoesOn, GoesLate, GoesAway, KeepsFrame};
ghost use Rattle.ds_ahead.specs.Inner.Operations.{ComesTo};

use crate::position::Position;
use ds_amap::{Kind, Physical, recalled_aligned};
use ds_core::{Core, after_slot};
use ds_dev::Bus;
use ds_isa::{Late, Size};
use ds_pages::{Register, Target};
use ds_tlb::Lookaside;
use ds_word::{PAGE_SIZE, sign16, wrapping_sum};

/// The bytes of a page, as an address has them.
const PAGE: u32 = PAGE_SIZE as u32;

/// What became of an operation.
#[derive(Clone, Copy)]
pub(crate) enum Outcome {
    /// It is done.
    Done,
    /// It is done, and its load is late.
    Loaded,
    /// It is a branch or jump, and its slot comes next.
    Branched,
    /// It is a system call, and nothing was done.
    Called,
    /// It is left to the plain step, and nothing was done.
    Left,
}

/// The target of a taken branch at its distance, else the place after its slot.
#[inline(always)]
pub(crate) fn target_by(taken: bool, pc: u32, distance: u32) -> u32
    ensures { result ≡ target_by taken pc distance }
{
    if taken {
        wrapping_sum(pc, distance)
    } else {
        after_slot(pc)
    }
}

/// A place in the region of 2^28 bytes of the slot.
#[inline(always)]
pub(crate) fn in_region(pc: u32, place: u32) -> u32
    ensures { result ≡ in_region pc place }
{
    wrapping_sum(wrapping_sum(pc, 4) / 0x1000_0000 * 0x1000_0000, place)
}

/// What a register holds: what an operation reads there, but for a load that is late.
#[inline(always)]
pub(crate) fn general<L: Lookaside>(core: &Core<L>, register: Register) -> u32
    ensures { result ≡ slice_index core.now.registers.general register.number }
{
    core.registers[register.number() as usize]
}

/// The operation is done, and a register written.
#[inline(always)]
pub(crate) fn put<L: Lookaside>(
    core: &mut Core<L>,
    to: Target,
    value: u32,
    at: &mut Position,
) -> Outcome
    ensures done { result ≡ Outcome.Done }
    ensures core { core.new ≡ record core.old {
      registers = with_general core.old.registers to.number value;
    } }
    ensures at { at.new ≡ at_next at.old }
{
    core.registers[to.number() as usize] = value;
    at.go_to_next()
}

/// The operation is done, and a register loaded.
#[inline(always)]
pub(crate) fn put_late<L: Lookaside>(
    core: &mut Core<L>,
    to: Target,
    value: u32,
    at: &mut Position,
) -> Outcome
    ensures loaded { result ≡ Outcome.Loaded }
    ensures core { core.new ≡ record core.old { registers = core.new.registers } }
    ensures at { at.new ≡ at_load core.old to.number at.old }
    ensures registers { registers_at core.new at.new
        ≡ loaded (registers_at core.old at.old) to.number value }
{
    let number = to.number();
    let old = core.registers[number as usize];
    core.registers[number as usize] = value;
    at.go_to_next();
    at.late = Some(Late {
        register: number,
        old,
    });
    Outcome::Loaded
}

/// The operation is done with its result in a register; where it overflowed it is left.
#[inline(always)]
pub(crate) fn put_or_leave<L: Lookaside>(
    core: &mut Core<L>,
    to: Target,
    value: Option<u32>,
    at: &mut Position,
    bus: &Bus,
) -> Outcome
    ensures comes { ComesTo result (written_or_trap (registers_at core.old at.old) to.number value)
        core.old at.old bus.now core.new at.new bus.now }
    ensures system { core.new.system ≡ core.old.system }
    ensures entries { core.new.entries ≡ core.old.entries }
    ensures goes { GoesOn result at.old at.new }
{
    match value {
        Some(value) => put(core, to, value, at),
        None => Outcome::Left,
    }
}

/// A branch or jump to the target. In a slot it is left: there it is reserved.
#[inline(always)]
pub(crate) fn jump<L: Lookaside>(
    core: &mut Core<L>,
    target: u32,
    at: &mut Position,
    bus: &Bus,
) -> Outcome
    ensures comes { ComesTo result (Branches (settled (registers_at core.old at.old)) target)
        core.old at.old bus.now core.new at.new bus.now }
    ensures system { core.new.system ≡ core.old.system }
    ensures entries { core.new.entries ≡ core.old.entries }
    ensures goes { GoesAway result at.old at.new }
{
    if at.slot {
        Outcome::Left
    } else {
        at.into_slot(target)
    }
}

/// The same, with the address after the slot in a register.
#[inline(always)]
pub(crate) fn jump_and_link<L: Lookaside>(
    core: &mut Core<L>,
    to: Target,
    target: u32,
    at: &mut Position,
    bus: &Bus,
) -> Outcome
    ensures comes { ComesTo result
        (Branches (written (registers_at core.old at.old) to.number (past_slot at.old.pc)) target)
        core.old at.old bus.now core.new at.new bus.now }
    ensures system { core.new.system ≡ core.old.system }
    ensures entries { core.new.entries ≡ core.old.entries }
    ensures goes { GoesAway result at.old at.new }
{
    if at.slot {
        return Outcome::Left;
    }
    core.registers[to.number() as usize] = after_slot(at.pc);
    at.into_slot(target)
}

/// The operation is done, and HI and LO written.
#[inline(always)]
pub(crate) fn put_hi_lo<L: Lookaside>(
    core: &mut Core<L>,
    hi: u32,
    lo: u32,
    at: &mut Position,
    bus: &Bus,
) -> Outcome
    ensures comes { ComesTo result (with_hi_lo (registers_at core.old at.old) (hi, lo))
        core.old at.old bus.now core.new at.new bus.now }
    ensures system { core.new.system ≡ core.old.system }
    ensures entries { core.new.entries ≡ core.old.entries }
    ensures goes { GoesOn result at.old at.new }
{
    core.hi = hi;
    core.lo = lo;
    at.go_to_next()
}

/// The address of a load or a store.
#[inline(always)]
pub(crate) fn address_by<L: Lookaside>(core: &Core<L>, base: Register, immediate: u32) -> u32
    ensures { result ≡ word (slice_index core.now.registers.general base.number + immediate) }
{
    wrapping_sum(general(core, base), immediate)
}

/// The place in memory of an access, where the buffer remembers its page and the address suits its
/// size.
#[inline(always)]
#[tactic(auto, using(crate::proofs::Places::suits_place))]
pub(crate) fn remembered<L: Lookaside>(
    core: &Core<L>,
    access: Kind,
    size: Size,
    address: u32,
    asid: u8,
) -> Option<Physical>
    requires space { asid ≡ asid_of core.now.system }
    ensures value { IfSome result (λ place. reached core.now access size address ≡ Ok place) }
    ensures inside { IfSome result (λ place. place.0 < 2 ^ 23) }
    ensures suits { IfSome result (λ place. place.0 % alignment size ≡ 0) }
    ensures offset { IfSome result (λ place. place.0 % 4 ≡ address % 4) }
{
    recalled_aligned(address, access, size, &core.tlb, asid)
}

/// The place in memory of a store, where the buffer remembers its page and the address suits its
/// size; none in the frame that begins at `own`.
#[inline(always)]
fn place_apart<L: Lookaside>(
    core: &Core<L>,
    size: Size,
    address: u32,
    own: u32,
    asid: u8,
) -> Option<Physical>
    requires space { asid ≡ asid_of core.now.system }
    ensures value { IfSome result (λ place. reached core.now Store size address ≡ Ok place) }
    ensures inside { IfSome result (λ place. place.0 < 2 ^ 23) }
    ensures suits { IfSome result (λ place. place.0 % alignment size ≡ 0) }
    ensures offset { IfSome result (λ place. place.0 % 4 ≡ address % 4) }
    ensures apart { IfSome result (λ place. place.0 - place.0 % 4096 ≢ own) }
{
    let Physical(place) = remembered(core, Kind::Store, size, address, asid)?;
    if place / PAGE == own / PAGE {
        return None;
    }
    Some(Physical(place))
}

/// The byte at the place of an address.
#[inline(always)]
fn byte_at(bus: &Bus, place: u32, address: u32) -> u8
    requires inside { place < 2 ^ 23 }
    requires offset { place % 4 ≡ address % 4 }
    ensures { result ≡ bits (word_at bus.now.memory place) (8 * (address % 4)) 8 }
{
    let _ = address;
    bus.byte(place)
}

/// The half at the place of an address.
#[inline(always)]
fn half_at(bus: &Bus, place: u32, address: u32) -> u16
    requires inside { place < 2 ^ 23 }
    requires suits { place % 2 ≡ 0 }
    requires offset { place % 4 ≡ address % 4 }
    ensures { result ≡ bits (word_at bus.now.memory place) (8 * (address % 4)) 16 }
{
    let _ = address;
    bus.half(place)
}

/// A byte with its sign carried to 32 bits.
#[inline(always)]
fn sign8(byte: u8) -> u32
    ensures { result ≡ sign_extended 8 byte }
{
    u32::from(byte.wrapping_add(0x80)).wrapping_sub(0x80)
}

/// Replaces a word outside the frame that begins at `own`.
#[inline(always)]
fn put_word_apart(bus: &mut Bus, place: u32, word: u32, own: u32)
    requires inside { place < 2 ^ 23 }
    requires suits { place % 4 ≡ 0 }
    requires apart { place - place % 4096 ≢ own }
    ensures state { bus.new ≡ record bus.old {
      memory = with_word bus.old.memory place word;
    } }
    ensures frame { KeepsFrame own bus.old.memory bus.new.memory }
{
    // Its size is looked at, so that it is known that each word has a place.
    let _size = bus.memory_size();
    let _ = own;
    bus.put_aligned_word(place, word);
}

/// Replaces the half at the place of an address outside the frame that begins at `own`.
#[inline(always)]
fn put_half_apart(bus: &mut Bus, place: u32, address: u32, value: u32, own: u32)
    requires inside { place < 2 ^ 23 }
    requires suits { place % 2 ≡ 0 }
    requires offset { place % 4 ≡ address % 4 }
    requires apart { place - place % 4096 ≢ own }
    ensures state { bus.new ≡ record bus.old {
      memory = with_word bus.old.memory place
          (with_bits (word_at bus.old.memory place) (8 * (address % 4)) 16 value);
    } }
    ensures frame { KeepsFrame own bus.old.memory bus.new.memory }
{
    // Its size is looked at, so that it is known that each word has a place.
    let _size = bus.memory_size();
    let _ = (own, address);
    bus.put_half(place, value);
}

/// Replaces the byte at the place of an address outside the frame that begins at `own`.
#[inline(always)]
fn put_byte_apart(bus: &mut Bus, place: u32, address: u32, value: u32, own: u32)
    requires inside { place < 2 ^ 23 }
    requires offset { place % 4 ≡ address % 4 }
    requires apart { place - place % 4096 ≢ own }
    ensures state { bus.new ≡ record bus.old {
      memory = with_word bus.old.memory place
          (with_bits (word_at bus.old.memory place) (8 * (address % 4)) 8 value);
    } }
    ensures frame { KeepsFrame own bus.old.memory bus.new.memory }
{
    // Its size is looked at, so that it is known that each word has a place.
    let _size = bus.memory_size();
    let _ = (own, address);
    bus.put_byte(place, value);
}

/// Loads a byte with its sign.
#[inline(always)]
pub(crate) fn take_byte<L: Lookaside>(
    core: &mut Core<L>,
    to: Target,
    address: u32,
    at: &mut Position,
    bus: &Bus,
    asid: u8,
) -> Outcome
    requires space { asid ≡ asid_of core.old.system }
    ensures comes { ComesTo result (loads size.Byte (registers_at core.old at.old) to.number address
        (λ w b. sign_extended 8 (bits w (8 * b) 8))) core.old at.old bus.now core.new at.new bus.now }
    ensures system { core.new.system ≡ core.old.system }
    ensures entries { core.new.entries ≡ core.old.entries }
    ensures goes { GoesLate result core.old to.number at.old at.new }
{
    match remembered(core, Kind::Load, Size::Byte, address, asid) {
        Some(Physical(place)) => { put_late(core, to, sign8(byte_at(bus, place, address)), at) }
        None => Outcome::Left,
    }
}

/// Loads a byte below zeros.
#[inline(always)]
pub(crate) fn take_byte_unsigned<L: Lookaside>(
    core: &mut Core<L>,
    to: Target,
    address: u32,
    at: &mut Position,
    bus: &Bus,
    asid: u8,
) -> Outcome
    requires space { asid ≡ asid_of core.old.system }
    ensures comes { ComesTo result (loads size.Byte (registers_at core.old at.old) to.number address
        (λ w b. bits w (8 * b) 8)) core.old at.old bus.now core.new at.new bus.now }
    ensures system { core.new.system ≡ core.old.system }
    ensures entries { core.new.entries ≡ core.old.entries }
    ensures goes { GoesLate result core.old to.number at.old at.new }
{
    match remembered(core, Kind::Load, Size::Byte, address, asid) {
        Some(Physical(place)) => { put_late(core, to, u32::from(byte_at(bus, place, address)), at) }
        None => Outcome::Left,
    }
}

/// Loads a half with its sign.
#[inline(always)]
pub(crate) fn take_half<L: Lookaside>(
    core: &mut Core<L>,
    to: Target,
    address: u32,
    at: &mut Position,
    bus: &Bus,
    asid: u8,
) -> Outcome
    requires space { asid ≡ asid_of core.old.system }
    ensures comes { ComesTo result (loads size.Half (registers_at core.old at.old) to.number address
        (λ w b. sign_extended 16 (bits w (8 * b) 16))) core.old at.old bus.now core.new at.new bus.now }
    ensures system { core.new.system ≡ core.old.system }
    ensures entries { core.new.entries ≡ core.old.entries }
    ensures goes { GoesLate result core.old to.number at.old at.new }
{
    match remembered(core, Kind::Load, Size::Half, address, asid) {
        Some(Physical(place)) => { put_late(core, to, sign16(half_at(bus, place, address)), at) }
        None => Outcome::Left,
    }
}

/// Loads a half below zeros.
#[inline(always)]
pub(crate) fn take_half_unsigned<L: Lookaside>(
    core: &mut Core<L>,
    to: Target,
    address: u32,
    at: &mut Position,
    bus: &Bus,
    asid: u8,
) -> Outcome
    requires space { asid ≡ asid_of core.old.system }
    ensures comes { ComesTo result (loads size.Half (registers_at core.old at.old) to.number address
        (λ w b. bits w (8 * b) 16)) core.old at.old bus.now core.new at.new bus.now }
    ensures system { core.new.system ≡ core.old.system }
    ensures entries { core.new.entries ≡ core.old.entries }
    ensures goes { GoesLate result core.old to.number at.old at.new }
{
    match remembered(core, Kind::Load, Size::Half, address, asid) {
        Some(Physical(place)) => { put_late(core, to, u32::from(half_at(bus, place, address)), at) }
        None => Outcome::Left,
    }
}

/// Loads a word.
#[inline(always)]
pub(crate) fn take_word<L: Lookaside>(
    core: &mut Core<L>,
    to: Target,
    address: u32,
    at: &mut Position,
    bus: &Bus,
    asid: u8,
) -> Outcome
    requires space { asid ≡ asid_of core.old.system }
    ensures comes { ComesTo result (loads size.Word (registers_at core.old at.old) to.number address (λ w b. w))
        core.old at.old bus.now core.new at.new bus.now }
    ensures system { core.new.system ≡ core.old.system }
    ensures entries { core.new.entries ≡ core.old.entries }
    ensures goes { GoesLate result core.old to.number at.old at.new }
{
    match remembered(core, Kind::Load, Size::Word, address, asid) {
        Some(Physical(place)) => put_late(core, to, bus.aligned_word(place), at),
        None => Outcome::Left,
    }
}

/// Stores the low byte of a value.
#[inline(always)]
pub(crate) fn leave_byte<L: Lookaside>(
    core: &mut Core<L>,
    value: u32,
    address: u32,
    at: &mut Position,
    bus: &mut Bus,
    own: u32,
    asid: u8,
) -> Outcome
    requires space { asid ≡ asid_of core.old.system }
    ensures comes { ComesTo result (stores size.Byte address (λ w b. with_bits w (8 * b) 8 value))
        core.old at.old bus.old core.new at.new bus.new }
    ensures system { core.new.system ≡ core.old.system }
    ensures entries { core.new.entries ≡ core.old.entries }
    ensures goes { GoesOn result at.old at.new }
    ensures frame { KeepsFrame own bus.old.memory bus.new.memory }
    ensures lines { lines bus.new ≡ lines bus.old }
{
    match place_apart(core, Size::Byte, address, own, asid) {
        Some(Physical(place)) => {
            put_byte_apart(bus, place, address, value, own);
            at.go_to_next()
        }
        None => Outcome::Left,
    }
}

/// Stores the low half of a value.
#[inline(always)]
pub(crate) fn leave_half<L: Lookaside>(
    core: &mut Core<L>,
    value: u32,
    address: u32,
    at: &mut Position,
    bus: &mut Bus,
    own: u32,
    asid: u8,
) -> Outcome
    requires space { asid ≡ asid_of core.old.system }
    ensures comes { ComesTo result (stores size.Half address (λ w b. with_bits w (8 * b) 16 value))
        core.old at.old bus.old core.new at.new bus.new }
    ensures system { core.new.system ≡ core.old.system }
    ensures entries { core.new.entries ≡ core.old.entries }
    ensures goes { GoesOn result at.old at.new }
    ensures frame { KeepsFrame own bus.old.memory bus.new.memory }
    ensures lines { lines bus.new ≡ lines bus.old }
{
    match place_apart(core, Size::Half, address, own, asid) {
        Some(Physical(place)) => {
            put_half_apart(bus, place, address, value, own);
            at.go_to_next()
        }
        None => Outcome::Left,
    }
}

/// Stores a word.
#[inline(always)]
pub(crate) fn leave_word<L: Lookaside>(
    core: &mut Core<L>,
    value: u32,
    address: u32,
    at: &mut Position,
    bus: &mut Bus,
    own: u32,
    asid: u8,
) -> Outcome
    requires space { asid ≡ asid_of core.old.system }
    ensures comes { ComesTo result (stores size.Word address (λ w b. value))
        core.old at.old bus.old core.new at.new bus.new }
    ensures system { core.new.system ≡ core.old.system }
    ensures entries { core.new.entries ≡ core.old.entries }
    ensures goes { GoesOn result at.old at.new }
    ensures frame { KeepsFrame own bus.old.memory bus.new.memory }
    ensures lines { lines bus.new ≡ lines bus.old }
{
    match place_apart(core, Size::Word, address, own, asid) {
        Some(Physical(place)) => {
            put_word_apart(bus, place, value, own);
            at.go_to_next()
        }
        None => Outcome::Left,
    }
}
