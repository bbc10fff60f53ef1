//! Steps on the bus.
ghost use Rattle.std.specs.Prelude.{◌≤◌};

use crate::parts::machine::clock::rings;
use crate::parts::machine::pages;
use crate::parts::machine::pages::Step as Page;
use crate::parts::machine::places::places;
use crate::parts::numbers::Numbers;
use crate::parts::told::{Answer, Token};
use crate::parts::verbs::Row;
use ds_dev::Bus;
use ds_isa::Size;

/// A step on the bus.
#[derive(Clone, Copy)]
pub enum Step {
    Sent,
    Lines,
    Receive,
    Tick,
    Rings,
    Places,
    Enable,
    Transmit,
    Access(Size),
    Page(pages::Step),
}

/// The words of steps, and how many numbers stand after each.
pub static WORDS: [Row<Step>; 22] = [
    ("sent", 0, 0, Step::Sent),
    ("lines", 0, 0, Step::Lines),
    ("receive", 2, 2, Step::Receive),
    ("tick", 2, 2, Step::Tick),
    ("byte", 1, 2, Step::Access(Size::Byte)),
    ("half", 1, 2, Step::Access(Size::Half)),
    ("word", 1, 2, Step::Access(Size::Word)),
    ("part", 1, 2, Step::Access(Size::Part)),
    ("rings", 3, 3, Step::Rings),
    ("places", 2, 2, Step::Places),
    ("enable", 1, 1, Step::Enable),
    ("transmit", 1, 1, Step::Transmit),
    ("take", 1, 1, Step::Page(Page::Take)),
    ("page_word", 2, 2, Step::Page(Page::PageWord)),
    ("bus_byte", 1, 1, Step::Page(Page::Byte)),
    ("bus_half", 1, 1, Step::Page(Page::Half)),
    ("bus_word", 1, 1, Step::Page(Page::Word)),
    ("bus_aligned_word", 1, 1, Step::Page(Page::AlignedWord)),
    ("put_byte", 2, 2, Step::Page(Page::PutByte)),
    ("put_half", 2, 2, Step::Page(Page::PutHalf)),
    ("put_word", 2, 2, Step::Page(Page::PutWord)),
    ("put_aligned_word", 2, 2, Step::Page(Page::PutAlignedWord)),
];

/// What the bus answers to a step; none where it has no such operands.
pub fn answer(bus: &mut Bus, step: Step, numbers: &Numbers) -> Option<Answer> {
    let [a, b, c, ..] = numbers.all;
    match step {
        Step::Sent => Some(sent(bus)),
        Step::Lines => Some(Answer::said(lines(bus))),
        Step::Receive if a <= 3 && b <= 255 => {
            let taken = bus.receive(a as u8, b as u8);
            Some(Answer::said(if taken { "taken" } else { "lost" }))
        }
        Step::Tick if a == 1 || a == 2 => {
            tick(bus, a, b);
            Some(Answer::said("done"))
        }
        Step::Rings if a == 1 || a == 2 => rings(bus, a, b, c),
        Step::Places => places(bus, a, b),
        Step::Enable => {
            bus.set_enables(a);
            Some(Answer::said("done"))
        }
        Step::Transmit => {
            bus.transmit(a);
            Some(Answer::said("done"))
        }
        Step::Access(size) => access(bus, size, numbers),
        Step::Page(step) => pages::answer(bus, step, a, b),
        _ => None,
    }
}

/// Lets so many ticks pass, so many times.
fn tick(bus: &mut Bus, ticks: u32, times: u32)
    requires { (1 ≤ ticks) × (ticks ≤ 2) }
{
    for _ in 0..times {
        bus.tick(ticks);
    }
}

/// Loads from an address, or stores the value after it there.
fn access(bus: &mut Bus, size: Size, numbers: &Numbers) -> Option<Answer> {
    let address = numbers.all[0];
    if !size.is_aligned(address) {
        return None;
    }
    if numbers.count == 1 {
        return Some(match bus.load(address, size) {
            Ok(value) => Answer::hex(value),
            Err(_) => Answer::said("refused"),
        });
    }
    let stored = bus.store(address, size, numbers.all[1]).is_ok();
    Some(Answer::said(if stored { "stored" } else { "refused" }))
}

/// The character that waits to leave: its line and its byte.
fn sent(bus: &mut Bus) -> Answer {
    match bus.sent() {
        Some((line, byte)) => Answer::of(&[
            Token::Number(u32::from(line)),
            Token::Hex(u32::from(byte)),
        ]),
        None => Answer::said("nothing"),
    }
}

/// The requests to the processor, of the system register and of the clock.
fn lines(bus: &Bus) -> &'static str {
    match bus.lines() {
        (false, false) => "none",
        (true, false) => "system",
        (false, true) => "clock",
        (true, true) => "both",
    }
}
