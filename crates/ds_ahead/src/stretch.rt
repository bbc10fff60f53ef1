//! A stretch word by word: operations one after the other, while nothing that seldom comes gets in
//! their way.
ghost use Rattle.std.specs.Prelude.{◌≡◌, ◌+◌, ◌/◌, ◌%◌, ◌<◌, ◌≤◌, ◌-◌, ◌^◌, ℕ, true, false, None, IfSome};
ghost use Rattle.ds_word.specs.Word.{word};
ghost use Rattle.ds_cp0.specs.System.{asid_of, is_pending};
ghost use Rattle.ds_dev.specs.Bus.{lines};
ghost use Rattle.ds_cp0.specs.declared.exception.ExceptionCode.TheVariants.{SystemCall};
ghost use Rattle.ds_core.specs.Core.{with_tick, trapped};
ghost use Rattle.ds_ahead.specs.Inner.Code.{KnowsPage};
ghost use Rattle.ds_ahead.specs.Inner.Placed.{placed};
ghost use Rattle.ds_ahead.specs.Inner.Operations.{IsFetched, IsCalled, HasOutcome, StaysCalm, LeadsOn};
ghost use Rattle.ds_core.specs.Effect.{step};
ghost use Rattle.ds_ahead.specs.Inner.Ahead.{hardware_of, after_steps, Advances};

use crate::code::{CodePage, code_page};
use crate::next::Next;
use crate::operate::operate;
use crate::operations::Outcome;
use crate::position::{Position, position_of, settle};
use ds_core::Core;
use ds_dev::Bus;
use ds_pages::Operation;
use ds_tlb::Lookaside;
use ds_word::wrapping_sum;

/// No frame begins here.
const NO_FRAME: u32 = 1;

/// How far a walk went.
#[derive(Clone, Copy)]
struct Walked {
    /// The number of steps that were done.
    pub steps: u32,
    /// What comes after them.
    pub next: Next,
}

/// The operation at a position, where its page is known.
#[inline(always)]
pub(crate) fn operation_at<L: Lookaside>(
    core: &Core<L>,
    at: &Position,
    bus: &mut Bus,
    code: &CodePage,
) -> Option<Operation>
    requires known { KnowsPage code.now.vpn code.now.base core.now }
    ensures fetched { IfSome result (λ operation. (n : ℕ)
        → IsFetched operation (placed n core.now at.now) bus.old) }
    ensures same { bus.new ≡ bus.old }
{
    match code.offset(at.pc) {
        Some(offset) => Some(bus.operation(code.base + offset, offset)),
        None => None,
    }
}

/// Does the step at a position where no load is late by its operation; or says why not, and
/// changes nothing.
#[inline(always)]
fn operate_at<L: Lookaside>(
    core: &mut Core<L>,
    at: &mut Position,
    bus: &mut Bus,
    code: &CodePage,
) -> Outcome
    requires settled { at.old.late ≡ None }
    requires known { KnowsPage code.now.vpn code.now.base core.old }
    requires calm { is_pending core.old.system (lines bus.old).0 (lines bus.old).1 ≡ false }
    ensures outcome { HasOutcome result core.old at.old bus.old core.new at.new bus.new }
    ensures calm { StaysCalm core.old bus.old core.new bus.new }
{
    let asid = core.cp0.asid();
    match operation_at(core, at, bus, code) {
        Some(operation) => operate::<L, 0>(core, operation, at, bus, NO_FRAME, asid),
        None => Outcome::Left,
    }
}

/// The same where a load may be late. An operation that reads its register is left.
#[inline(always)]
fn operate_after_load<L: Lookaside>(
    core: &mut Core<L>,
    at: &mut Position,
    bus: &mut Bus,
    code: &CodePage,
) -> Outcome
    requires known { KnowsPage code.now.vpn code.now.base core.old }
    requires calm { is_pending core.old.system (lines bus.old).0 (lines bus.old).1 ≡ false }
    ensures outcome { HasOutcome result core.old at.old bus.old core.new at.new bus.new }
    ensures calm { StaysCalm core.old bus.old core.new bus.new }
{
    let asid = core.cp0.asid();
    match operation_at(core, at, bus, code) {
        Some(operation) => {
            if at.is_awaited(&operation) {
                Outcome::Left
            } else {
                operate::<L, 1>(core, operation, at, bus, NO_FRAME, asid)
            }
        }
        None => Outcome::Left,
    }
}

/// Does operations after a load until no load is late, `left` at most and one less in it for
/// each: done where that came, called where a system call comes next, else left.
#[inline(always)]
fn do_operations_after_load<L: Lookaside>(
    core: &mut Core<L>,
    at: &mut Position,
    bus: &mut Bus,
    code: &CodePage,
    left: &mut u32,
) -> Outcome
    requires known { KnowsPage code.now.vpn code.now.base core.old }
    requires calm { is_pending core.old.system (lines bus.old).0 (lines bus.old).1 ≡ false }
    ensures within { left.new ≤ left.old }
    ensures leads { LeadsOn (left.old - left.new) core.old at.old bus.old core.new at.new bus.new }
    ensures settled { result ≡ Outcome.Done → at.new.late ≡ None }
    ensures some { result ≡ Outcome.Called → 0 < left.new }
    ensures calls { result ≡ Outcome.Called → IsCalled core.new at.new bus.new }
{
    while *left > 0 {
        // The address is looked at, so that it is known to be a word.
        let _here = at.pc;
        match operate_after_load(core, at, bus, code) {
            Outcome::Loaded => *left -= 1,
            Outcome::Done => {
                *left -= 1;
                return Outcome::Done;
            }
            Outcome::Branched => {
                *left -= 1;
                return Outcome::Done;
            }
            Outcome::Called => return Outcome::Called,
            Outcome::Left => return Outcome::Left,
        }
    }
    Outcome::Left
}

/// Does operations, `left` at most and one less in it for each, from a position where no load is
/// late: until a system call comes next, which is answered, or what is left to the plain step.
#[inline(always)]
fn do_operations<L: Lookaside>(
    core: &mut Core<L>,
    at: &mut Position,
    bus: &mut Bus,
    code: &CodePage,
    left: &mut u32,
) -> bool
    requires settled { at.old.late ≡ None }
    requires known { KnowsPage code.now.vpn code.now.base core.old }
    requires calm { is_pending core.old.system (lines bus.old).0 (lines bus.old).1 ≡ false }
    ensures within { left.new ≤ left.old }
    ensures leads { LeadsOn (left.old - left.new) core.old at.old bus.old core.new at.new bus.new }
    ensures some { result ≡ true → 0 < left.new }
    ensures calls { result ≡ true → IsCalled core.new at.new bus.new }
{
    while *left > 0 {
        let _here = at.pc;
        match operate_at(core, at, bus, code) {
            Outcome::Done => *left -= 1,
            Outcome::Branched => *left -= 1,
            Outcome::Loaded => {
                *left -= 1;
                match do_operations_after_load(core, at, bus, code, left) {
                    Outcome::Done => {}
                    Outcome::Called => return true,
                    _ => return false,
                }
            }
            Outcome::Called => return true,
            Outcome::Left => return false,
        }
    }
    false
}

/// Whether no interrupt is to be taken, as long as neither the coprocessor nor a device changes.
#[inline(always)]
pub(crate) fn is_calm<L: Lookaside>(core: &Core<L>, bus: &Bus, code: &CodePage) -> bool
    requires known { KnowsPage code.now.vpn code.now.base core.now }
    ensures calm { result ≡ true
        → is_pending core.now.system (lines bus.now).0 (lines bus.now).1 ≡ false }
    ensures some { result ≡ true → code.now.vpn < 2 ^ 32 }
{
    code.is_known() && !bus.asks()
}

/// Whether the program goes straight on from a word.
#[inline(always)]
pub(crate) fn is_straight<L: Lookaside>(core: &Core<L>) -> bool
    ensures straight { result ≡ true → core.now.slot ≡ false }
    ensures next { result ≡ true → core.now.next ≡ word (core.now.pc + 4) }
    ensures aligned { result ≡ true → core.now.pc % 4 ≡ 0 }
{
    !core.slot && core.next == wrapping_sum(core.pc, 4) && core.pc % 4 == 0
}

/// What comes after a walk that a system call may end, after which so many steps are left of it.
#[inline(always)]
fn next_after(calls: bool, left: u32) -> Next
    ensures call { result ≡ Next.Call → calls ≡ true }
    ensures plain { result ≡ Next.Plain → 0 < left }
{
    if calls {
        Next::Call
    } else if left > 0 {
        Next::Plain
    } else {
        Next::Any
    }
}

/// A stretch of `limit` operations at most that looks at each word, where the page is known. It stays
/// a call: with its copies of `operate` beside those of a run, `stretch` would be too long to be
/// compiled into its caller.
#[inline(never)]
fn walk<L: Lookaside>(core: &mut Core<L>, bus: &mut Bus, code: &CodePage, limit: u32) -> Walked
    requires slots { L.SLOTS ≡ 64 }
    requires wired { L.WIRED ≡ 8 }
    requires settled { core.old.registers.late ≡ None }
    requires known { KnowsPage code.now.vpn code.now.base core.old }
    requires calm { is_pending core.old.system (lines bus.old).0 (lines bus.old).1 ≡ false }
    ensures within { result.steps ≤ limit }
    ensures fewer { result.next ≡ Next.Call → result.steps < limit }
    ensures plain { result.next ≡ Next.Plain → result.steps < limit }
    ensures calls { result.next ≡ Next.Call
        → with_tick (trapped core.new bus.new SystemCall) ≡ step core.new bus.new }
    ensures steps { Advances result.steps (hardware_of core.old bus.old)
        (hardware_of core.new bus.new) }
    ensures words { (k : ℕ) → k < result.steps
        → (after_steps k (hardware_of core.old bus.old)).core.pc < 2 ^ 32 }
{
    let mut at = position_of(core);
    let mut left = limit;
    let calls = do_operations(core, &mut at, bus, code, &mut left);
    let steps = limit - left;
    settle(core, &at, steps);
    Walked {
        steps,
        next: next_after(calls, left),
    }
}

/// The same, for some of the `left` steps at most, and one less is left for each. What comes next is
/// answered.
#[inline(always)]
fn walk_on<L: Lookaside>(
    core: &mut Core<L>,
    bus: &mut Bus,
    code: &CodePage,
    limit: u32,
    left: &mut u32,
) -> Next
    requires fits { limit ≤ left.old }
    requires slots { L.SLOTS ≡ 64 }
    requires wired { L.WIRED ≡ 8 }
    requires settled { core.old.registers.late ≡ None }
    requires known { KnowsPage code.now.vpn code.now.base core.old }
    requires calm { is_pending core.old.system (lines bus.old).0 (lines bus.old).1 ≡ false }
    ensures within { left.new ≤ left.old }
    ensures some { result ≡ Next.Call → 0 < left.new }
    ensures plain { result ≡ Next.Plain → 0 < left.new }
    ensures calls { result ≡ Next.Call
        → with_tick (trapped core.new bus.new SystemCall) ≡ step core.new bus.new }
    ensures steps { Advances (left.old - left.new) (hardware_of core.old bus.old)
        (hardware_of core.new bus.new) }
    ensures words { (k : ℕ) → k < left.old - left.new
        → (after_steps k (hardware_of core.old bus.old)).core.pc < 2 ^ 32 }
{
    let walked = walk(core, bus, code, limit);
    *left -= walked.steps;
    walked.next
}

/// The steps that are done without a page where one will serve after them: of a slot and one more.
#[inline(always)]
fn few(left: u32) -> u32
    ensures { result ≤ left }
{
    if left < 2 { left } else { 2 }
}

/// A stretch of `left` operations at most that looks at each word, and one less is left for each:
/// until a system call, or what is left to the plain step. What comes next is answered.
#[inline(always)]
pub(crate) fn stretch<L: Lookaside>(core: &mut Core<L>, bus: &mut Bus, left: &mut u32) -> Next
    requires slots { L.SLOTS ≡ 64 }
    requires wired { L.WIRED ≡ 8 }
    ensures within { left.new ≤ left.old }
    ensures some { result ≡ Next.Call → 0 < left.new }
    ensures plain { result ≡ Next.Plain → 0 < left.new }
    ensures calls { result ≡ Next.Call
        → with_tick (trapped core.new bus.new SystemCall) ≡ step core.new bus.new }
    ensures steps { Advances (left.old - left.new) (hardware_of core.old bus.old)
        (hardware_of core.new bus.new) }
    ensures words { (k : ℕ) → k < left.old - left.new
        → (after_steps k (hardware_of core.old bus.old)).core.pc < 2 ^ 32 }
{
    let code = code_page(core);
    if !is_calm(core, bus, &code) || core.late.is_some() {
        return Next::Any;
    }
    let limit = if is_straight(core) { *left } else { few(*left) };
    walk_on(core, bus, &code, limit, left)
}
