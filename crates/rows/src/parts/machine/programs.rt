//! What comes of the cases' programs.
ghost use Rattle.std.specs.Prelude.{◌≡◌};

use crate::parts::machine::processor::{KERNEL, core_of, put_program};
use crate::parts::numbers::{MOST, Numbers};
use crate::parts::processor::walk;
use crate::parts::reached::Reached;
use crate::parts::told::{Answer, Token};
use crate::parts::verbs::Row;
use ds_core::Core;
use ds_cp0::{Cp0, ExceptionCode, register};
use ds_dev::Bus;
use ds_tlb::Lookaside;

/// What is asked about programs.
#[derive(Clone, Copy)]
pub enum Question {
    /// The fault in which one ends.
    Fault,
    /// Registers after words of the kernel.
    Registers,
    /// What becomes of the translation buffer.
    Entry,
}

/// The words of questions, and how many numbers stand after each.
pub static WORDS: [Row<Question>; 3] = [
    ("fault", 3, MOST, Question::Fault),
    ("late", 1, MOST, Question::Registers),
    ("buffer", 3, MOST, Question::Entry),
];

/// What is answered to a question about a program; none where there is no such program.
pub fn answer<L: Lookaside>(question: Question, bus: &mut Bus, numbers: &Numbers) -> Option<Answer>
    requires slots { L.SLOTS ≡ 64 }
    requires wired { L.WIRED ≡ 8 }
{
    let given = numbers.given();
    match question {
        Question::Fault => fault_of::<L>(bus, given),
        Question::Registers => Some(registers_after::<L>(bus, given)),
        Question::Entry => entry_after::<L>(bus, given),
    }
}

/// The fault in which a program ends. Given are Status, the address of the first instruction,
/// register 8 and the words.
fn fault_of<L: Lookaside>(bus: &mut Bus, given: &[u32]) -> Option<Answer>
    requires slots { L.SLOTS ≡ 64 }
    requires wired { L.WIRED ≡ 8 }
{
    let [status, pc, eighth, words @ ..] = given else {
        return None;
    };
    put_program(bus, words);
    let mut core: Core<L> = core_of(*status, *pc, *eighth);
    let code = walk(&mut core, bus, 4, &mut Reached::new()).raised?;
    Some(fault(code, &core.cp0, core.pc))
}

/// A fault, from the system coprocessor and the address after it.
fn fault(code: ExceptionCode, cp0: &Cp0, pc: u32) -> Answer {
    let in_slot = cp0.read(register::CAUSE) >> 31 == 1;
    Answer::of(&[
        Token::Cause(code),
        Token::Hex(cp0.read(register::EPC)),
        Token::Hex(cp0.read(register::BAD_VADDR)),
        Token::Word(if in_slot { "BD" } else { "-" }),
        Token::Hex(pc),
    ])
}

/// Takes as many steps as there are words, which stand at the programs' place.
fn run<L: Lookaside>(core: &mut Core<L>, bus: &mut Bus, words: &[u32])
    requires slots { L.SLOTS ≡ 64 }
    requires wired { L.WIRED ≡ 8 }
{
    put_program(bus, words);
    let mut reached = Reached::new();
    for _ in words {
        walk(core, bus, 1, &mut reached);
    }
}

/// What registers 4 and 9 hold after the words that are given, run by the kernel with register 8
/// at their first.
fn registers_after<L: Lookaside>(bus: &mut Bus, words: &[u32]) -> Answer
    requires slots { L.SLOTS ≡ 64 }
    requires wired { L.WIRED ≡ 8 }
{
    let mut core: Core<L> = core_of(0, KERNEL, KERNEL);
    run(&mut core, bus, words);
    Answer::of(&[Token::Hex(core.registers[4]), Token::Hex(core.registers[9])])
}

/// What Index, EntryHi, EntryLo and register 9 hold after the kernel's words. Given are Index,
/// EntryHi and EntryLo before them, and the words.
fn entry_after<L: Lookaside>(bus: &mut Bus, given: &[u32]) -> Option<Answer>
    requires slots { L.SLOTS ≡ 64 }
    requires wired { L.WIRED ≡ 8 }
{
    let [index, high, low, words @ ..] = given else {
        return None;
    };
    let mut core: Core<L> = core_of(0, KERNEL, 0);
    core.cp0.write(register::INDEX, *index);
    core.cp0.write(register::ENTRY_HI, *high);
    core.cp0.write(register::ENTRY_LO, *low);
    run(&mut core, bus, words);
    Some(Answer::of(&[
        Token::Hex(core.cp0.read(register::INDEX)),
        Token::Hex(core.cp0.read(register::ENTRY_HI)),
        Token::Hex(core.cp0.read(register::ENTRY_LO)),
        Token::Hex(core.registers[9]),
    ]))
}
