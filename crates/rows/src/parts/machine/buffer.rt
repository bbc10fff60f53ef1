//! Steps on the translation buffer.
ghost use Rattle.std.specs.Prelude.{◌≡◌};

use crate::parts::numbers::Numbers;
use crate::parts::told::{Answer, Token};
use crate::parts::verbs::Row;
use ds_amap::{Fault, Kind, Mode, Physical, translate};
use ds_tlb::{Entry, Lookaside};

/// A step on the translation buffer.
#[derive(Clone, Copy)]
pub enum Step {
    Slot,
    Probe,
    WriteRandom,
    Random,
    Count,
    Translate(Kind),
}

/// The words of steps, and how many numbers stand after each.
pub static WORDS: [Row<Step>; 8] = [
    ("slot", 1, 3, Step::Slot),
    ("probe", 1, 1, Step::Probe),
    ("write_random", 2, 2, Step::WriteRandom),
    ("random", 0, 0, Step::Random),
    ("count", 1, 1, Step::Count),
    ("fetch", 3, 3, Step::Translate(Kind::Fetch)),
    ("load", 3, 3, Step::Translate(Kind::Load)),
    ("store", 3, 3, Step::Translate(Kind::Store)),
];

/// What the buffer answers to a step; none where it has no such operands.
pub fn answer<L: Lookaside>(buffer: &mut L, step: Step, numbers: &Numbers) -> Option<Answer>
    requires slots { L.SLOTS ≡ 64 }
    requires wired { L.WIRED ≡ 8 }
{
    let [a, b, c, ..] = numbers.all;
    match step {
        Step::Slot => slot(buffer, numbers),
        Step::Probe => Some(probe(buffer, Entry::of_words(a, 0))),
        Step::WriteRandom => {
            let slot = buffer.write_random(Entry::of_words(a, b));
            Some(Answer::hex(slot as u32))
        }
        Step::Random => Some(Answer::hex(buffer.random() as u32)),
        Step::Count => {
            count(buffer, a);
            Some(Answer::said("done"))
        }
        Step::Translate(_) if b > 63 => None,
        Step::Translate(kind) => Some(translation(buffer, kind, a, b as u8, c)),
    }
}

/// The two words of a slot, or that it was written with those that are given.
fn slot<L: Lookaside>(buffer: &mut L, numbers: &Numbers) -> Option<Answer>
    requires { L.SLOTS ≡ 64 }
{
    let [number, hi, lo, ..] = numbers.all;
    let slot = number as usize;
    if slot >= 64 {
        return None;
    }
    if numbers.count == 3 {
        buffer.write(slot, Entry::of_words(hi, lo));
        return Some(Answer::said("done"));
    }
    let entry = buffer.read(slot);
    Some(Answer::of(&[Token::Hex(entry.hi_word()), Token::Hex(entry.lo_word())]))
}

/// The Index word of the lowest slot that matches the page of an entry in its address space.
fn probe<L: Lookaside>(buffer: &L, entry: Entry) -> Answer {
    Answer::hex(buffer.probe(entry.vpn, entry.asid))
}

/// Lets Random count so many instructions.
fn count<L: Lookaside>(buffer: &mut L, instructions: u32) {
    for _ in 0..instructions {
        buffer.tick();
    }
}

/// Where the map leads an access in a mode, 1 for a user's, and an address space.
fn translation<L: Lookaside>(buffer: &L, kind: Kind, mode: u32, asid: u8, address: u32) -> Answer {
    let mode = if mode == 1 { Mode::User } else { Mode::Kernel };
    match translate(address, kind, mode, buffer, asid) {
        Ok(Physical(place)) => Answer::hex(place),
        Err(Fault::Address) => Answer::said("address"),
        Err(Fault::Refill) => Answer::said("refill"),
        Err(Fault::Invalid) => Answer::said("invalid"),
        Err(Fault::Modified) => Answer::said("modified"),
    }
}
