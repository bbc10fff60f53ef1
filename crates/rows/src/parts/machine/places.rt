//! Which places outside memory take accesses.
ghost use Rattle.std.specs.Prelude.{◌≤◌};

use crate::parts::told::{Answer, Token};
use ds_dev::Bus;
use ds_isa::Size;

/// The first place after memory.
const FIRST: u32 = 0x0080_0000;

/// The most places of a line.
const MOST: u32 = 0x200;

/// The sizes that no register takes.
const OTHERS: [Size; 3] = [Size::Byte, Size::Half, Size::Part];

/// What a place takes.
#[derive(Clone, Copy, PartialEq, Eq)]
enum Taken {
    Nothing,
    Words,
    Mixed,
}

/// The places from one to another that take words to be loaded and stored, and no other size; before one that takes
/// another part of the accesses stands `mixed`. None where memory is among them.
pub fn places(bus: &mut Bus, first: u32, last: u32) -> Option<Answer> {
    if first < FIRST || last < first || last - first > MOST {
        return None;
    }
    let mut answer = Answer::of(&[]);
    for place in first..=last {
        note(&mut answer, bus, place);
    }
    Some(answer.or("none"))
}

/// Adds a place that takes anything.
fn note(answer: &mut Answer, bus: &mut Bus, place: u32) {
    match taken_at(bus, place) {
        Taken::Nothing => {}
        Taken::Words => answer.push(&[Token::Hex(place)]),
        Taken::Mixed => answer.push(&[Token::Word("mixed"), Token::Hex(place)]),
    }
}

/// What a place outside memory takes.
fn taken_at(bus: &mut Bus, place: u32) -> Taken {
    if place < FIRST {
        return Taken::Mixed;
    }
    let mut others = false;
    for size in OTHERS {
        others = takes_any(bus, place, size) || others;
    }
    let loads = bus.load(place, Size::Word).is_ok();
    let stores = bus.store(place, Size::Word, 0xffff_ffff).is_ok();
    match (loads, stores, others) {
        (false, false, false) => Taken::Nothing,
        (true, true, false) => Taken::Words,
        _ => Taken::Mixed,
    }
}

/// Whether a place takes a load or a store of a size.
fn takes_any(bus: &mut Bus, place: u32, size: Size) -> bool
    requires { 8388608 ≤ place }
{
    let loads = bus.load(place, size).is_ok();
    bus.store(place, size, 0xffff_ffff).is_ok() || loads
}
