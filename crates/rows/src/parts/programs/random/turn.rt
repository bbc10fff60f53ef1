//! What is done to both machines before they run on.
ghost use Rattle.std.specs.Prelude.{◌≡◌};

use super::dice::Dice;
use super::start::{CODE_SIZE, FIRST_ADDRESS, FIRST_PAGE, PAGES, Start, entry, place};
use crate::parts::programs::machine::Machine;
use ds_cp0::{Cp0, ExceptionCode, register};
use ds_tlb::{Entry, Lookaside};

/// What is done to both machines before they run on.
#[derive(Clone, Copy)]
pub enum Change {
    /// Nothing: after an exception its handler goes on.
    GoOn,
    /// The exception is served.
    Serve(ExceptionCode),
    /// The program goes on at another place, with the address space of this EntryHi, and with this
    /// Status and Cause.
    Move {
        place: u32,
        entry_hi: u32,
        status: u32,
        cause: u32,
    },
    /// An entry is written.
    Map {
        slot: u32,
        entry: Entry,
    },
}

impl Change {
    /// A random one after steps that ended without an exception.
    pub fn after_calm(dice: &mut Dice, start: &Start) -> Change {
        match dice.below(8) {
            0 | 1 => Change::moved(dice, start),
            2 => Change::mapped(dice),
            _ => Change::GoOn,
        }
    }

    /// A random one after an exception, which goes back to `epc`.
    pub fn after_exception(
        dice: &mut Dice,
        start: &Start,
        code: ExceptionCode,
        epc: u32,
    ) -> Change {
        if dice.below(16) == 0 {
            Change::GoOn
        } else if epc.wrapping_sub(FIRST_ADDRESS) < CODE_SIZE {
            Change::Serve(code)
        } else {
            Change::moved(dice, start)
        }
    }

    /// To another place.
    fn moved(dice: &mut Dice, start: &Start) -> Change {
        let cause = if dice.below(8) == 0 { dice.word() } else { 0 };
        Change::Move {
            place: place(dice),
            entry_hi: (dice.below(2) + 1) * 64,
            status: start.status,
            cause,
        }
    }

    /// Another entry for one of the program's pages, in a slot that is searched before most of the
    /// program's own, or in place of one.
    fn mapped(dice: &mut Dice) -> Change {
        let vpn = FIRST_PAGE + dice.below(PAGES);
        let asid = dice.below(2) as u8 + 1;
        Change::Map {
            slot: dice.below(24),
            entry: entry(dice, vpn, asid),
        }
    }
}

/// Gives the system coprocessor an EntryHi, a Status and a Cause.
fn set_system(cp0: &mut Cp0, entry_hi: u32, status: u32, cause: u32) {
    cp0.write(register::ENTRY_HI, entry_hi);
    cp0.write(register::STATUS, status);
    cp0.write(register::CAUSE, cause);
}

impl<L: Lookaside> Machine<L> {
    /// Does a turn, after so many steps.
    pub fn turn(&mut self, turn: Change, steps: u32)
        requires slots { L.SLOTS ≡ 64 }
    {
        self.bus.pass(u64::from(steps));
        match turn {
            Change::GoOn => {}
            Change::Serve(code) => self.serve(code),
            Change::Move {
                place,
                entry_hi,
                status,
                cause,
            } => {
                set_system(&mut self.core.cp0, entry_hi, status, cause);
                self.go_on_at(place);
            }
            Change::Map { slot, entry } => self.core.tlb.write(slot as usize % 64, entry),
        }
    }
}
