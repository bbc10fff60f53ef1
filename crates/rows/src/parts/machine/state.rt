//! Steps on the processor.
ghost use Rattle.std.specs.Prelude.{◌≡◌};

use crate::parts::numbers::Numbers;
use crate::parts::told::{Answer, Token, number_or};
use crate::parts::verbs::Row;
use ds_core::{Core, Event};
use ds_dev::Bus;
use ds_isa::Late;
use ds_refill::phase;
use ds_tlb::Lookaside;

/// The most steps of a line.
const MOST_STEPS: u32 = 1000;

/// A step on the processor, or a question about it.
#[derive(Clone, Copy)]
pub enum Step {
    General,
    Generals,
    LateLoad,
    Stand,
    Steps,
    Phase,
}

/// The words of steps, and how many numbers stand after each.
pub static WORDS: [Row<Step>; 6] = [
    ("general", 1, 2, Step::General),
    ("generals", 0, 1, Step::Generals),
    ("late_load", 0, 2, Step::LateLoad),
    ("stand", 0, 2, Step::Stand),
    ("steps", 1, 1, Step::Steps),
    ("phase", 1, 1, Step::Phase),
];

/// What the processor answers to a step; none where it has no such operands.
pub fn answer<L: Lookaside>(
    core: &mut Core<L>,
    bus: &mut Bus,
    step: Step,
    numbers: &Numbers,
) -> Option<Answer>
    requires slots { L.SLOTS ≡ 64 }
    requires wired { L.WIRED ≡ 8 }
{
    let [a, b, ..] = numbers.all;
    match (step, numbers.count) {
        (Step::General, 1) => Some(Answer::hex(*core.registers.get(a as usize)?)),
        (Step::General, _) => set_general(core, a, b),
        (Step::Generals, 0) => Some(generals(&core.registers)),
        (Step::Generals, _) => {
            let mut registers = [a; 32];
            registers[0] = 0;
            core.registers = registers;
            Some(Answer::said("done"))
        }
        (Step::LateLoad, 0) => Some(late_load(core.late)),
        (Step::LateLoad, _) => owe(core, a, b),
        (Step::Stand, 0) => Some(stand(core.pc, core.next, core.slot)),
        (Step::Stand, count) => {
            core.pc = a;
            core.next = if count == 1 { a.wrapping_add(4) } else { b };
            core.slot = count > 1;
            Some(Answer::said("done"))
        }
        (Step::Steps, _) => steps(core, bus, a),
        (Step::Phase, _) => Some(phase_at(a)),
    }
}

/// Puts a value into a general register, if there is such a one and it is not register 0.
fn set_general<L: Lookaside>(core: &mut Core<L>, number: u32, value: u32) -> Option<Answer> {
    if number == 0 {
        return None;
    }
    let mut registers = core.registers;
    *registers.get_mut(number as usize)? = value;
    registers[0] = 0;
    core.registers = registers;
    Some(Answer::said("done"))
}

/// What all general registers hold.
fn generals(registers: &[u32; 32]) -> Answer {
    let mut answer = Answer::of(&[]);
    for register in registers {
        answer.push(&[Token::Hex(*register)]);
    }
    answer
}

/// The load that is late: its register, and what that held before.
fn late_load(late: Option<Late>) -> Answer {
    match late {
        Some(Late { register, old }) => {
            Answer::of(&[Token::Hex(u32::from(register)), Token::Hex(old)])
        }
        None => Answer::said("none"),
    }
}

/// Lets a load into a register be late, which held this before.
fn owe<L: Lookaside>(core: &mut Core<L>, number: u32, old: u32) -> Option<Answer> {
    let register = u8::try_from(number).ok()?;
    if register == 0 || register > 31 {
        return None;
    }
    core.late = Some(Late { register, old });
    Some(Answer::said("done"))
}

/// Where the processor stands, where it goes on after that, and whether that is a slot.
fn stand(pc: u32, next: u32, slot: bool) -> Answer {
    let place = Token::Word(if slot { "slot" } else { "-" });
    Answer::of(&[Token::Hex(pc), Token::Hex(next), place])
}

/// Takes so many steps; what the last of them came to.
fn steps<L: Lookaside>(core: &mut Core<L>, bus: &mut Bus, count: u32) -> Option<Answer>
    requires slots { L.SLOTS ≡ 64 }
    requires wired { L.WIRED ≡ 8 }
{
    if count > MOST_STEPS {
        return None;
    }
    let mut last = Event::Retired;
    for _ in 0..count {
        last = core.step(bus);
    }
    Some(match last {
        Event::Retired => Answer::said("retired"),
        Event::Branched => Answer::said("branched"),
        Event::Raised(code) => Answer::of(&[Token::Cause(code)]),
    })
}

/// Which of the handler's words stands at an address.
fn phase_at(address: u32) -> Answer {
    let place = match phase(address) {
        Some(place) => Some(place as u32),
        None => None,
    };
    Answer::of(&[number_or(place, "none")])
}
