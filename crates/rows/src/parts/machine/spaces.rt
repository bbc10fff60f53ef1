//! Steps on the numbers of address spaces.
ghost use Rattle.std.specs.Prelude.{◌≡◌};

use crate::parts::numbers::Numbers;
use crate::parts::told::{Answer, number_or};
use crate::parts::verbs::Row;
use ds_asid::Asids;
use ds_tlb::Lookaside;

/// A step on the numbers.
#[derive(Clone, Copy)]
pub enum Step {
    Of,
    Take,
    GiveUp,
}

/// The words of steps, and how many numbers stand after each.
pub static WORDS: [Row<Step>; 3] = [
    ("space", 1, 1, Step::Of),
    ("take_space", 1, 1, Step::Take),
    ("give_up", 1, 1, Step::GiveUp),
];

/// What the numbers answer to a step, with the buffer that is flushed where they run out; none where it has no such
/// operands.
pub fn answer<L: Lookaside>(
    spaces: &mut Asids,
    buffer: &mut L,
    step: Step,
    numbers: &Numbers,
) -> Option<Answer>
    requires slots { L.SLOTS ≡ 64 }
    requires wired { L.WIRED ≡ 8 }
{
    let process = numbers.all[0];
    match step {
        Step::Of => Some(Answer::of(&[number_or(spaces.of(process).map(u32::from), "none")])),
        Step::Take => take(spaces, buffer, process),
        Step::GiveUp => {
            spaces.give_up(process);
            Some(Answer::said("done"))
        }
    }
}

/// The next number, for a process that has none.
fn take<L: Lookaside>(spaces: &mut Asids, buffer: &mut L, process: u32) -> Option<Answer>
    requires slots { L.SLOTS ≡ 64 }
    requires wired { L.WIRED ≡ 8 }
{
    if process > 100 || spaces.of(process).is_some() {
        return None;
    }
    let number = spaces.take(process, buffer);
    Some(Answer::of(&[number_or(Some(u32::from(number)), "none")]))
}
