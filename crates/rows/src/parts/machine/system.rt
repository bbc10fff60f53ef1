//! Steps on the system coprocessor.
ghost use Rattle.std.specs.Prelude.{◌≤◌};

use crate::parts::exceptions::EXCEPTIONS;
use crate::parts::numbers::Numbers;
use crate::parts::told::{Answer, Token};
use crate::parts::verbs::Row;
use ds_cp0::{Cp0, Exception};

/// A step on the system coprocessor.
#[derive(Clone, Copy)]
pub enum Step {
    Read,
    Write,
    Rfe,
    Enter,
    Nonzero,
    AddressSpace,
    Mode,
    Pending,
}

/// The words of steps, and how many numbers stand after each.
pub static WORDS: [Row<Step>; 8] = [
    ("read", 1, 1, Step::Read),
    ("write", 2, 2, Step::Write),
    ("rfe", 0, 0, Step::Rfe),
    ("enter", 4, 6, Step::Enter),
    ("nonzero", 0, 0, Step::Nonzero),
    ("address_space", 0, 0, Step::AddressSpace),
    ("mode", 0, 0, Step::Mode),
    ("pending", 2, 2, Step::Pending),
];

/// What the system coprocessor answers to a step; none where it has no such operands.
pub fn answer(cp0: &mut Cp0, step: Step, numbers: &Numbers) -> Option<Answer> {
    let (number, value) = (numbers.all[0], numbers.all[1]);
    let word = match step {
        Step::Enter => return enter(cp0, numbers),
        Step::Nonzero => return Some(nonzero(cp0)),
        Step::AddressSpace => return Some(Answer::hex(u32::from(cp0.asid()))),
        Step::Mode => if cp0.user() { "user" } else { "kernel" },
        Step::Pending if cp0.pending(number == 1, value == 1) => "true",
        Step::Pending => "false",
        Step::Rfe => {
            cp0.rfe();
            "done"
        }
        _ if number > 31 => return None,
        Step::Read => return Some(Answer::hex(cp0.read(number as u8))),
        Step::Write => {
            cp0.write(number as u8, value);
            "done"
        }
    };
    Some(Answer::said(word))
}

/// The numbers of the registers that do not read 0, each with what it reads.
fn nonzero(cp0: &Cp0) -> Answer {
    let mut answer = Answer::of(&[]);
    for number in 0..32u8 {
        let value = cp0.read(number);
        if value != 0 {
            answer.push(&[Token::Hex(u32::from(number)), Token::Hex(value)]);
        }
    }
    answer
}

/// Enters an exception: its cause, the coprocessor, 1 where it is in a slot, 1 where no entry matched, the address that
/// was refused, if there is one, and that of the instruction, if it is not 00400000.
fn enter(cp0: &mut Cp0, numbers: &Numbers) -> Option<Answer> {
    let (cause, unit) = (numbers.all[0] as usize, numbers.all[1]);
    if unit > 3 {
        return None;
    }
    let vector = cp0.enter(Exception {
        code: *EXCEPTIONS.get(cause)?,
        pc: numbers.given().get(5).copied().unwrap_or(0x40_0000),
        slot: numbers.all[2] == 1,
        unit: unit as u8,
        addr: numbers.given().get(4).copied(),
        miss: numbers.all[3] == 1,
    });
    Some(Answer::hex(vector))
}
