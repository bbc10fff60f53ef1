//! Many steps at once.
ghost use Rattle.std.specs.Prelude.{◌≡◌, ◌<◌, ◌≤◌, ◌+◌, ◌-◌, ◌^◌, ℕ, Some, None, IsNone, IfSome, true, false};
ghost use Rattle.ds_cp0.specs.declared.exception.ExceptionCode.TheVariants.{SystemCall};
ghost use Rattle.ds_dev.specs.Bus.{BusState};
ghost use Rattle.ds_core.specs.Core.{with_tick, trapped};
ghost use Rattle.ds_core.specs.Effect.{step};
ghost use Rattle.ds_ahead.specs.Inner.Ahead.{hardware_of, after_steps, Advances, AdvancesTo, ComesByWords, ticks, owed_tick};

use crate::next::Next;
use crate::ride::Ride;
use crate::stretch::stretch;
use ds_core::{Core, Event};
use ds_cp0::{Exception, ExceptionCode};
use ds_dev::Bus;
use ds_tlb::Lookaside;

/// How far the processor went.
#[derive(Clone, Copy, Debug, PartialEq, Eq)]
pub struct Ahead {
    /// The number of steps that entered no exception.
    pub steps: u32,
    /// The exception that the next step entered, if it did.
    pub raised: Option<ExceptionCode>,
}

impl Ahead {
    /// So many steps, and an exception in the next.
    #[inline(always)]
    pub(crate) fn stopped(steps: u32, code: ExceptionCode) -> Ahead
        ensures { result ≡ record { steps = steps; raised = Some code } }
    {
        let raised = Some(code);
        Ahead { steps, raised }
    }

    /// So many steps, none of which entered an exception.
    #[inline(always)]
    pub(crate) fn calm(steps: u32) -> Ahead
        ensures { result ≡ record { steps = steps; raised = None } }
    {
        let raised = None;
        Ahead { steps, raised }
    }
}

/// Takes `limit` steps, or fewer and after them one that enters an exception. So many steps
/// take so many ticks, but for a slot at either end; each begins at an address of 32 bits.
///
/// It is compiled into its caller, so that what runs ahead, which may be a few steps, begins
/// without a call.
#[inline(always)]
pub fn run_ahead<L: Lookaside>(core: &mut Core<L>, bus: &mut Bus, limit: u32) -> Ahead
    requires slots { L.SLOTS ≡ 64 }
    requires wired { L.WIRED ≡ 8 }
    ensures all { IsNone result.raised → result.steps ≡ limit }
    ensures fewer { IfSome result.raised (λ _. result.steps < limit) }
    ensures steps { AdvancesTo result.steps result.raised
        (hardware_of core.old bus.old)
        (hardware_of core.new bus.new) }
    ensures words { ComesByWords result.steps (hardware_of core.old bus.old) }
    ensures ticks { IsNone result.raised
        → ticks result.steps (hardware_of core.old bus.old)
        + owed_tick core.new.slot ≡ result.steps + owed_tick core.old.slot }
{
    let mut steps = 0;
    while steps < limit {
        let went = stretch_and_step(core, bus, limit - steps);
        steps += went.steps;
        if let Some(code) = went.raised {
            return Ahead::stopped(steps, code);
        }
    }
    // The address is looked at, so that it is known to be a word after the loop.
    let _here = core.pc;
    Ahead::calm(steps)
}

/// Whether a plain step comes after a stretch of so many steps, with the limit to them: it made no
/// way, or left what comes next.
#[inline(always)]
fn is_followed(next: Next, steps: u32, limit: u32) -> bool
    requires some { 0 < limit }
    requires plain { next ≡ Next.Plain → steps < limit }
    ensures step { result ≡ true → steps < limit }
    ensures on { result ≡ false → 0 < steps }
{
    steps == 0 || matches!(next, Next::Plain)
}

/// A stretch word by word of `limit` steps at most, which are one at least, and after it a plain step
/// where it makes no way or left what comes next.
#[inline(always)]
fn walk_and_step<L: Lookaside>(core: &mut Core<L>, bus: &mut Bus, limit: u32) -> Ahead
    requires slots { L.SLOTS ≡ 64 }
    requires wired { L.WIRED ≡ 8 }
    requires some { 0 < limit }
    ensures within { result.steps ≤ limit }
    ensures on { IsNone result.raised → 0 < result.steps }
    ensures fewer { IfSome result.raised (λ _. result.steps < limit) }
    ensures steps { AdvancesTo result.steps result.raised
        (hardware_of core.old bus.old)
        (hardware_of core.new bus.new) }
    ensures words { (k : ℕ) → k < result.steps
        → (after_steps k (hardware_of core.old bus.old)).core.pc < 2 ^ 32 }
    ensures raised { IfSome result.raised (λ _.
        (after_steps result.steps (hardware_of core.old bus.old)).core.pc < 2 ^ 32) }
{
    let mut left = limit;
    let next = stretch(core, bus, &mut left);
    let done = limit - left;
    let _here = core.pc;
    if let Next::Call = next {
        return call_after(core, done);
    }
    if !is_followed(next, done, limit) {
        return Ahead::calm(done);
    }
    if let Event::Raised(code) = core.step(bus) {
        return Ahead::stopped(done, code);
    }
    Ahead::calm(done + 1)
}

/// Goes on where a ride ended or none was, with what comes next there, which is known where the ride
/// found a call or left what comes next. Where none made way, one step is taken at least; `left` at
/// most are.
#[inline(always)]
pub fn go_past_ride<L: Lookaside>(
    core: &mut Core<L>,
    bus: &mut Bus,
    next: Next,
    went: bool,
    left: u32,
) -> Ahead
    requires slots { L.SLOTS ≡ 64 }
    requires wired { L.WIRED ≡ 8 }
    requires some { next ≡ Next.Call → 0 < left }
    requires plain { next ≡ Next.Plain → 0 < left }
    requires stands { went ≡ false → 0 < left }
    requires calls { next ≡ Next.Call
        → with_tick (trapped core.old bus.old SystemCall) ≡ step core.old bus.old }
    ensures within { result.steps ≤ left }
    ensures on { went ≡ false → IsNone result.raised → 0 < result.steps }
    ensures fewer { IfSome result.raised (λ _. result.steps < left) }
    ensures steps { AdvancesTo result.steps result.raised
        (hardware_of core.old bus.old)
        (hardware_of core.new bus.new) }
    ensures words { (k : ℕ) → k < result.steps
        → (after_steps k (hardware_of core.old bus.old)).core.pc < 2 ^ 32 }
    ensures raised { IfSome result.raised (λ _.
        (after_steps result.steps (hardware_of core.old bus.old)).core.pc < 2 ^ 32) }
{
    let _here = core.pc;
    match next {
        Next::Call => call_after(core, 0),
        Next::Plain => step(core, bus),
        Next::Any => {
            if went {
                Ahead::calm(0)
            } else {
                walk_and_step(core, bus, left)
            }
        }
    }
}

/// One plain step.
#[inline(always)]
fn step<L: Lookaside>(core: &mut Core<L>, bus: &mut Bus) -> Ahead
    requires slots { L.SLOTS ≡ 64 }
    requires wired { L.WIRED ≡ 8 }
    ensures within { result.steps ≤ 1 }
    ensures on { IsNone result.raised → result.steps ≡ 1 }
    ensures fewer { IfSome result.raised (λ _. result.steps ≡ 0) }
    ensures steps { AdvancesTo result.steps result.raised
        (hardware_of core.old bus.old)
        (hardware_of core.new bus.new) }
    ensures word { core.old.pc < 2 ^ 32 }
{
    let _here = core.pc;
    let event = core.step(bus);
    if let Event::Raised(code) = event {
        return Ahead::stopped(0, code);
    }
    Ahead::calm(1)
}

/// A ride of `left` steps at most, if there is one, and one less is left for each. What comes next is
/// answered.
#[inline(always)]
fn ride<L: Lookaside>(core: &mut Core<L>, bus: &mut Bus, left: &mut u32) -> Next
    requires slots { L.SLOTS ≡ 64 }
    requires wired { L.WIRED ≡ 8 }
    requires any { 0 < left.old }
    ensures within { left.new ≤ left.old }
    ensures some { result ≡ Next.Call → 0 < left.new }
    ensures plain { result ≡ Next.Plain → 0 < left.new }
    ensures calls { result ≡ Next.Call
        → with_tick (trapped core.new bus.new SystemCall) ≡ step core.new bus.new }
    ensures steps { Advances (left.old - left.new) (hardware_of core.old bus.old)
        (hardware_of core.new bus.new) }
    ensures words { (k : ℕ) → k < left.old - left.new
        → (after_steps k (hardware_of core.old bus.old)).core.pc < 2 ^ 32 }
{
    match Ride::open(core, bus, *left) {
        Ok(begun) => {
            let mut ride = begun;
            let next = ride.run(core, bus);
            *left = ride.left;
            ride.close(core, bus);
            next
        }
        Err(next) => next,
    }
}

/// A stretch of `limit` steps at most, which are one at least: a ride, and what comes after it.
#[inline(always)]
fn stretch_and_step<L: Lookaside>(core: &mut Core<L>, bus: &mut Bus, limit: u32) -> Ahead
    requires slots { L.SLOTS ≡ 64 }
    requires wired { L.WIRED ≡ 8 }
    requires some { 0 < limit }
    ensures within { result.steps ≤ limit }
    ensures on { IsNone result.raised → 0 < result.steps }
    ensures fewer { IfSome result.raised (λ _. result.steps < limit) }
    ensures steps { AdvancesTo result.steps result.raised
        (hardware_of core.old bus.old)
        (hardware_of core.new bus.new) }
    ensures words { (k : ℕ) → k < result.steps
        → (after_steps k (hardware_of core.old bus.old)).core.pc < 2 ^ 32 }
    ensures raised { IfSome result.raised (λ _.
        (after_steps result.steps (hardware_of core.old bus.old)).core.pc < 2 ^ 32) }
{
    let mut left = limit;
    let next = ride(core, bus, &mut left);
    let rest = go_past_ride(core, bus, next, left < limit, left);
    Ahead {
        steps: limit - left + rest.steps,
        raised: rest.raised,
    }
}

/// Enters the exception of a system call, after so many steps.
#[inline(always)]
fn call_after<L: Lookaside>(core: &mut Core<L>, steps: u32) -> Ahead
    requires slots { L.SLOTS ≡ 64 }
    requires wired { L.WIRED ≡ 8 }
    ensures value { result ≡ record { steps = steps; raised = Some SystemCall } }
    ensures core { (bus : BusState) → (record {
      event = Event.Raised SystemCall;
      core = core.new;
      bus = bus;
    })
        ≡ with_tick (trapped core.old bus SystemCall) }
{
    core.raise(Exception {
        code: ExceptionCode::SystemCall,
        pc: core.pc,
        slot: core.slot,
        unit: 0,
        addr: None,
        miss: false,
    });
    core.tlb.tick();
    Ahead::stopped(steps, ExceptionCode::SystemCall)
}
