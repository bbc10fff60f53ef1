//! A ride through a page that the bus has: it is taken out, gone through and given back.
ghost use Rattle.std.specs.Prelude.{◌≡◌, ◌≢◌, ◌+◌, ◌-◌, ◌<◌, ◌≤◌, ◌^◌, ℕ, true, IfOk, IfErr};
ghost use Rattle.ds_cp0.specs.declared.exception.ExceptionCode.TheVariants.{SystemCall};
ghost use Rattle.ds_dev.specs.Bus.{BusState};
ghost use Rattle.ds_core.specs.Core.{with_tick, trapped};
ghost use Rattle.ds_core.specs.Effect.{step};
ghost use Rattle.ds_ahead.specs.Inner.Ahead.{hardware_of, after_steps, Advances};
ghost use Rattle.ds_ahead.specs.Inner.Ride.{ridden, Rides, IsPlaced, MayGoOn, after_answer};

use crate::code::{CodePage, code_page};
use crate::here::place;
use crate::next::Next;
use crate::position::{Position, position_of, settle};
use crate::run::run;
use crate::stretch::{is_calm, is_straight};
use ds_core::Core;
use ds_dev::Bus;
use ds_pages::Page;
use ds_tlb::Lookaside;
use ds_word::wrapping_difference;

/// A page of known operations that was taken out of the bus, and where the program stands in it.
/// While the ride goes on, the processor's places of the program and its Random are those of its
/// beginning; `ridden` is what they come to.
#[derive(Drop)]
pub struct Ride {
    code: CodePage,
    page: Box<Page>,
    /// The address where the page begins.
    first: u32,
    /// The place of the page where it goes on.
    place: usize,
    at: Position,
    /// The steps that were left when it began.
    all: u32,
    /// The steps that are left.
    pub left: u32,
}

/// Sees to it that what is done at a place of a page is known.
#[inline(always)]
fn know(page: &mut Page, i: usize)
    requires { i < 1024 }
    ensures { page.new.words ≡ page.old.words }
{
    if !page.does(i).is_known() {
        page.learn(i);
    }
}

impl Ride {
    /// A ride with the page where the processor stands, if the bus has it and nothing gets in the
    /// way, for so many steps at most. Where there is none it is answered what comes next: a plain
    /// step, or any.
    #[inline(always)]
    pub fn open<L: Lookaside>(core: &Core<L>, bus: &mut Bus, left: u32) -> Result<Ride, Next>
        ensures rides { IfOk result (λ ride. Rides ride core.now bus.old) }
        ensures placed { IfOk result (λ ride. IsPlaced ride) }
        ensures here { IfOk result (λ ride. ridden ride core.now ≡ core.now) }
        ensures left { IfOk result (λ ride. ride.left ≡ left) }
        ensures next { IfErr result (λ next. next ≢ Next.Call) }
        ensures same { bus.new ≡ bus.old }
    {
        let code = code_page(core);
        if !is_calm(core, bus, &code) || core.late.is_some() {
            return Err(Next::Plain);
        }
        if !is_straight(core) {
            return Err(Next::Any);
        }
        match bus.take(code.base) {
            Some(page) => {
                let offset = core.pc % 4096;
                Ok(Ride {
                    code,
                    page,
                    first: core.pc - offset,
                    place: offset as usize / 4,
                    at: position_of(core),
                    all: left,
                    left,
                })
            }
            None => Err(Next::Any),
        }
    }

    /// Goes on, while whole blocks fit into the steps that are left, of which each takes one. What
    /// comes next is answered.
    #[inline(always)]
    pub fn run<L: Lookaside>(&mut self, core: &mut Core<L>, bus: &mut Bus) -> Next
        requires rides { Rides self.old core.old bus.old }
        requires placed { IsPlaced self.old }
        ensures rides { Rides self.new core.new bus.new }
        ensures within { self.new.left ≤ self.old.left }
        ensures some { result ≡ Next.Call → 0 < self.new.left }
        ensures plain { result ≡ Next.Plain → 0 < self.new.left }
        ensures calls { result ≡ Next.Call
            → with_tick (trapped (ridden self.new core.new) bus.new SystemCall)
            ≡ step (ridden self.new core.new) bus.new }
        ensures steps { Advances (self.old.left - self.new.left)
            (hardware_of (ridden self.old core.old) bus.old)
            (hardware_of (ridden self.new core.new) bus.new) }
        ensures words { (k : ℕ) → k < self.old.left - self.new.left
            → (after_steps k (hardware_of (ridden self.old core.old) bus.old)).core.pc < 2 ^ 32 }
    {
        know(&mut self.page, self.place);
        // Where it stands is made anew on each way, so that it need not be kept between runs.
        self.at = place(self.first, self.place);
        if self.page.length(self.place) > self.left {
            return Next::Any;
        }
        run(
            core,
            &self.page,
            &self.code,
            self.first,
            self.place,
            &mut self.at,
            bus,
            &mut self.left,
        )
    }

    /// Whether the ride may go on behind the instruction where it stands.
    #[inline(always)]
    pub fn may_go_on(&self) -> bool
        requires low { self.now.first < 2 ^ 31 }
        ensures { result ≡ true → MayGoOn self.now }
    {
        let offset = wrapping_difference(self.at.pc, self.first);
        !self.at.slot && offset % 4 == 0 && offset < 4092
    }

    /// Goes on behind a call, with an answer in register 2, as a processor that left for the call and
    /// came back: registers 26 and 27 are lost to the refill.
    #[inline(always)]
    pub fn go_after_call<L: Lookaside>(&mut self, core: &mut Core<L>, answer: u32)
        requires low { self.old.first < 2 ^ 31 }
        requires may { MayGoOn self.old }
        requires some { 0 < self.old.left }
        requires within { self.old.left ≤ self.old.all }
        ensures core { ridden self.new core.new
            ≡ after_answer (ridden self.old core.old) answer }
        ensures rides { (bus : BusState) → Rides self.old core.old bus
            → Rides self.new core.new bus }
        ensures placed { IsPlaced self.new }
        ensures left { self.new.left + 1 ≡ self.old.left }
    {
        let offset = wrapping_difference(self.at.pc, self.first);
        let afterwards = self.at.pc + 4;
        core.registers[2] = answer;
        core.registers[26] = 0;
        core.registers[27] = afterwards;
        self.place = offset as usize / 4 + 1;
        self.at = place(self.first, self.place);
        self.left -= 1;
    }

    /// Ends the ride: the processor stands where it came to, and the bus has the page again.
    #[inline(always)]
    pub fn close<L: Lookaside>(self, core: &mut Core<L>, bus: &mut Bus)
        requires slots { L.SLOTS ≡ 64 }
        requires wired { L.WIRED ≡ 8 }
        requires rides { Rides self core.old bus.old }
        ensures core { core.new ≡ ridden self core.old }
        ensures bus { bus.new ≡ bus.old }
    {
        settle(core, &self.at, self.all - self.left);
        bus.give(self.code.base, self.page);
    }
}
