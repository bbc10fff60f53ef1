//! Two machines with one random program, by single steps and ahead.
ghost use Rattle.std.specs.Prelude.{◌≡◌, ◌+◌, ◌<◌, ◌≤◌};

use super::STEPS;
use super::dice::Dice;
use super::start::{FIRST_PAGE, PAGES, Start};
use super::turn::Change;
use super::words::random_word;
use crate::parts::programs::lockstep::{are_frames_alike, go_alike, step_both};
use crate::parts::programs::machine::Machine;
use crate::parts::reached::Reached;
use ds_asm::Image;
use ds_cp0::{ExceptionCode, register};
use ds_mem::FRAMES;
use ds_tlb::Lookaside;
use std::alloc::Global;

/// The most steps ahead.
const LONGEST: u32 = 200;

/// The frame of the handlers of exceptions.
const HANDLERS: u32 = 0;

/// One machine that goes by single steps, and one that runs ahead.
#[derive(Drop)]
pub struct Pair<A: Lookaside, B: Lookaside> {
    pub plain: Machine<A>,
    pub ahead: Machine<B>,
}

impl<A: Lookaside, B: Lookaside> Pair<A, B> {
    /// Two machines with memories of zeros; none where there is no memory for them.
    pub fn new(alloc: Global) -> Option<Pair<A, B>>
        requires slots { A.SLOTS ≡ 64 }
        requires wired { A.WIRED ≡ 8 }
        requires ahead_slots { B.SLOTS ≡ 64 }
        requires ahead_wired { B.WIRED ≡ 8 }
    {
        let plain = Machine::blank(alloc)?;
        let ahead = Machine::blank(alloc)?;
        Some(Pair { plain, ahead })
    }

    /// Puts a program into both machines, and goes through it. Answers what register 17 holds after it, if
    /// they went alike.
    pub fn wrong(&mut self, image: &Image) -> Option<u32>
        requires slots { A.SLOTS ≡ 64 }
        requires wired { A.WIRED ≡ 8 }
        requires ahead_slots { B.SLOTS ≡ 64 }
        requires ahead_wired { B.WIRED ≡ 8 }
    {
        let (plain, ahead) = (&mut self.plain, &mut self.ahead);
        plain.load(image);
        ahead.load(image);
        if go_alike(plain, ahead) {
            Some(plain.core.registers[17])
        } else {
            None
        }
    }

    /// Goes through the program of a number. Answers where the two were found to differ, if they
    /// were: after so many steps.
    pub fn differ(&mut self, number: u32, reached: &mut Reached) -> Option<u32>
        requires slots { A.SLOTS ≡ 64 }
        requires wired { A.WIRED ≡ 8 }
        requires ahead_slots { B.SLOTS ≡ 64 }
        requires ahead_wired { B.WIRED ≡ 8 }
    {
        let mut dice = Dice::new(number);
        let start = Start::drawn(&mut dice);
        self.begin(&mut dice, &start);
        let (done, went_alike) = self.run_through(&mut dice, &start, reached);
        let alike = went_alike
            && self.have_like_frames(HANDLERS, 1)
            && self.have_like_frames(FIRST_PAGE, PAGES);
        if alike { None } else { Some(done) }
    }

    /// Goes through a program that has begun: how many steps, and whether the two were in one state
    /// throughout.
    fn run_through(&mut self, dice: &mut Dice, start: &Start, reached: &mut Reached) -> (u32, bool)
        requires slots { A.SLOTS ≡ 64 }
        requires wired { A.WIRED ≡ 8 }
        requires ahead_slots { B.SLOTS ≡ 64 }
        requires ahead_wired { B.WIRED ≡ 8 }
    {
        let mut done = 0;
        for _ in 0..2 * STEPS {
            if done >= STEPS {
                break;
            }
            let limit = dice.below(LONGEST + 1).min(STEPS - done);
            match self.run_both(dice, start, limit, reached) {
                Some(steps) => done = steps.saturating_add(done),
                None => return (done, false),
            }
        }
        (done, true)
    }

    /// Whether so many frames, from the first on, are the same.
    pub fn have_like_frames(&mut self, first: u32, count: u32) -> bool
        requires { first + count ≤ FRAMES }
    {
        are_frames_alike(&mut self.plain.bus, &mut self.ahead.bus, first, count)
    }

    /// Puts a program into both machines.
    fn begin(&mut self, dice: &mut Dice, start: &Start)
        requires slots { A.SLOTS ≡ 64 }
        requires wired { A.WIRED ≡ 8 }
        requires ahead_slots { B.SLOTS ≡ 64 }
        requires ahead_wired { B.WIRED ≡ 8 }
    {
        self.plain.begin(start);
        self.ahead.begin(start);
        self.put_code(dice, HANDLERS, start.system);
        self.put_code(dice, FIRST_PAGE, start.system);
        self.put_code(dice, FIRST_PAGE + 1, start.system);
    }

    /// Fills a frame of both machines with the same random code.
    fn put_code(&mut self, dice: &mut Dice, frame: u32, system: u32)
        requires { frame < FRAMES }
    {
        for word in 0..1024 {
            let word: u32 = word;
            let place = frame * 4096 + word * 4;
            let random = random_word(dice, system);
            self.plain.bus.memory().put_word(place, random);
            self.ahead.bus.memory().put_word(place, random);
        }
    }

    /// Takes steps on both, and answers how many if the two are in one state after them.
    fn run_both(
        &mut self,
        dice: &mut Dice,
        start: &Start,
        limit: u32,
        reached: &mut Reached,
    ) -> Option<u32>
        requires slots { A.SLOTS ≡ 64 }
        requires wired { A.WIRED ≡ 8 }
        requires ahead_slots { B.SLOTS ≡ 64 }
        requires ahead_wired { B.WIRED ≡ 8 }
    {
        let (plain, ahead) = (&mut self.plain, &mut self.ahead);
        let (walked, alike) = step_both(plain, ahead, limit, reached);
        if !alike {
            return None;
        }
        let steps = walked
            .steps
            .saturating_add(u32::from(walked.raised.is_some()));
        let epc = plain.core.cp0.read(register::EPC);
        let turn = turn_after(dice, start, walked.raised, epc);
        plain.turn(turn, steps);
        ahead.turn(turn, steps);
        Some(steps)
    }
}

/// What is done after steps, of which the last may have raised an exception that goes back to `epc`.
fn turn_after(dice: &mut Dice, start: &Start, raised: Option<ExceptionCode>, epc: u32) -> Change {
    match raised {
        Some(code) => Change::after_exception(dice, start, code, epc),
        None => Change::after_calm(dice, start),
    }
}
