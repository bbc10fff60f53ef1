//! Many steps, up to an address at which they are to end.
ghost use Rattle.std.specs.Prelude.{◌≡◌, ◌⊎◌, ◌<◌, ◌≤◌, ◌+◌, ◌-◌, ◌^◌, ℕ, true, false, IsNone, IfSome};
ghost use Rattle.ds_cp0.specs.System.{is_pending};
ghost use Rattle.ds_dev.specs.Bus.{lines};
ghost use Rattle.ds_ahead.specs.Inner.Ahead.{hardware_of, after_steps, Advances, AdvancesTo, ComesByWords};
ghost use Rattle.ds_ahead.specs.Inner.Code.{KnowsPage};
ghost use Rattle.ds_ahead.specs.Inner.Operations.{HasOutcome, LeadsOn, StaysCalm};
ghost use Rattle.ds_ahead.specs.Inner.Placed.{placed};
ghost use Rattle.ds_ahead.specs.Inner.Stops.{ComesClear, IsClear, IsStop, may_hold};

use crate::ahead::Ahead;
use crate::code::{CodePage, code_page};
use crate::operate::operate;
use crate::operations::Outcome;
use crate::position::{Position, position_of, settle};
use crate::stops::Stops;
use crate::stretch::{is_calm, operation_at};
use ds_core::{Core, Event};
use ds_dev::Bus;
use ds_tlb::Lookaside;

/// No frame begins here.
const NO_FRAME: u32 = 1;

/// Does the step at a position by its operation; or says why not, and changes nothing. An operation
/// that reads a register whose load is late is left.
#[inline(always)]
fn operate_once<L: Lookaside>(
    core: &mut Core<L>,
    at: &mut Position,
    bus: &mut Bus,
    code: &CodePage,
) -> Outcome
    requires known { KnowsPage code.now.vpn code.now.base core.old }
    requires calm { is_pending core.old.system (lines bus.old).0 (lines bus.old).1 ≡ false }
    ensures outcome { HasOutcome result core.old at.old bus.old core.new at.new bus.new }
    ensures calm { StaysCalm core.old bus.old core.new bus.new }
{
    let asid = core.cp0.asid();
    match operation_at(core, at, bus, code) {
        Some(operation) => {
            if at.is_awaited(&operation) {
                Outcome::Left
            } else {
                operate::<L, 4>(core, operation, at, bus, NO_FRAME, asid)
            }
        }
        None => Outcome::Left,
    }
}

/// Whether a stretch may take the step at a position, which is not one at which it is to end.
#[inline(always)]
fn may_take(stops: &Stops, at: &Position) -> bool
    ensures clear { result ≡ true → at.now.slot ≡ false → may_hold stops.now at.now.pc ≡ false }
    ensures word { at.now.pc < 2 ^ 32 }
{
    !stops.end(at.pc, at.slot)
}

/// Does operations, `left` at most and one less in it for each, up to one at which it is to end, or
/// that is left to the plain step.
#[inline(always)]
fn operate_until<L: Lookaside>(
    core: &mut Core<L>,
    at: &mut Position,
    bus: &mut Bus,
    code: &CodePage,
    stops: &Stops,
    left: &mut u32,
)
    requires known { KnowsPage code.now.vpn code.now.base core.old }
    requires calm { is_pending core.old.system (lines bus.old).0 (lines bus.old).1 ≡ false }
    ensures within { left.new ≤ left.old }
    ensures leads { LeadsOn (left.old - left.new) core.old at.old bus.old core.new at.new bus.new }
    ensures clear { (n k : ℕ) → k < left.old - left.new
        → IsClear stops.now (after_steps k (hardware_of (placed n core.old at.old) bus.old)).core }
{
    while *left > 0 {
        if !may_take(stops, at) {
            return;
        }
        match operate_once(core, at, bus, code) {
            Outcome::Done => *left -= 1,
            Outcome::Loaded => *left -= 1,
            Outcome::Branched => *left -= 1,
            Outcome::Called => return,
            Outcome::Left => return,
        }
    }
}

/// A stretch of `limit` operations at most that looks at each word, where the page is known.
#[inline(never)]
fn walk_until<L: Lookaside>(
    core: &mut Core<L>,
    bus: &mut Bus,
    code: &CodePage,
    stops: &Stops,
    limit: u32,
) -> u32
    requires slots { L.SLOTS ≡ 64 }
    requires wired { L.WIRED ≡ 8 }
    requires known { KnowsPage code.now.vpn code.now.base core.old }
    requires calm { is_pending core.old.system (lines bus.old).0 (lines bus.old).1 ≡ false }
    ensures within { result ≤ limit }
    ensures steps { Advances result (hardware_of core.old bus.old) (hardware_of core.new bus.new) }
    ensures words { (k : ℕ) → k < result
        → (after_steps k (hardware_of core.old bus.old)).core.pc < 2 ^ 32 }
    ensures clear { (k : ℕ) → k < result
        → IsClear stops.now (after_steps k (hardware_of core.old bus.old)).core }
{
    let mut at = position_of(core);
    let mut left = limit;
    operate_until(core, &mut at, bus, code, stops, &mut left);
    let steps = limit - left;
    settle(core, &at, steps);
    steps
}

/// The same, where the page is known and nothing gets in the way, or no operation.
#[inline(always)]
fn stretch_until<L: Lookaside>(core: &mut Core<L>, bus: &mut Bus, stops: &Stops, limit: u32) -> u32
    requires slots { L.SLOTS ≡ 64 }
    requires wired { L.WIRED ≡ 8 }
    ensures within { result ≤ limit }
    ensures steps { Advances result (hardware_of core.old bus.old) (hardware_of core.new bus.new) }
    ensures words { (k : ℕ) → k < result
        → (after_steps k (hardware_of core.old bus.old)).core.pc < 2 ^ 32 }
    ensures clear { (k : ℕ) → k < result
        → IsClear stops.now (after_steps k (hardware_of core.old bus.old)).core }
{
    let code = code_page(core);
    if is_calm(core, bus, &code) {
        walk_until(core, bus, &code, stops, limit)
    } else {
        0
    }
}

/// Whether a run is to end where the processor stands, with so many steps left.
#[inline(always)]
fn is_at_end<L: Lookaside>(core: &Core<L>, stops: &Stops, left: u32) -> bool
    ensures ends { result ≡ true → (left ≡ 0) ⊎ IsStop stops.now core.now }
    ensures some { result ≡ false → 0 < left }
    ensures clear { result ≡ false → IsClear stops.now core.now }
    ensures word { core.now.pc < 2 ^ 32 }
{
    let ends = stops.end(core.pc, core.slot);
    left == 0 || ends
}

/// Takes `limit` steps, or fewer and after them one that enters an exception, or fewer and one at
/// least, up to an instruction in no slot whose address may be among the stops: it stands in front of
/// no such instruction before, but where it begins.
pub fn run_ahead_until<L: Lookaside>(
    core: &mut Core<L>,
    bus: &mut Bus,
    stops: &Stops,
    limit: u32,
) -> Ahead
    requires slots { L.SLOTS ≡ 64 }
    requires wired { L.WIRED ≡ 8 }
    requires some { 0 < limit }
    ensures within { result.steps ≤ limit }
    ensures on { IsNone result.raised → 0 < result.steps }
    ensures fewer { IfSome result.raised (λ _. result.steps < limit) }
    ensures ends { IsNone result.raised
        → (result.steps ≡ limit) ⊎ IsStop stops.now core.new }
    ensures steps { AdvancesTo result.steps result.raised
        (hardware_of core.old bus.old)
        (hardware_of core.new bus.new) }
    ensures words { ComesByWords result.steps (hardware_of core.old bus.old) }
    ensures clear { ComesClear stops.now result.steps (hardware_of core.old bus.old) }
    ensures raised { IfSome result.raised (λ _.
        ComesClear stops.now (result.steps + 1) (hardware_of core.old bus.old)) }
{
    let mut steps = 0;
    loop {
        let _here = core.pc;
        if let Event::Raised(code) = core.step(bus) {
            return Ahead::stopped(steps, code);
        }
        let all = steps + 1 + stretch_until(core, bus, stops, limit - steps - 1);
        if is_at_end(core, stops, limit - all) {
            return Ahead::calm(all);
        }
        steps = all;
    }
}
