//! A run: the operations of a page in hand, one after the other by their places.
ghost use Rattle.std.specs.Prelude.{◌≡◌, ◌≢◌, ◌+◌, ◌*◌, ◌-◌, ◌<◌, ◌≤◌, ◌^◌, ◌&&◌, nat_lt, true, false, None, IfSome, IsSome};
ghost use Rattle.ds_word.specs.Word.{word};
ghost use Rattle.ds_cp0.specs.System.{asid_of, is_pending};
ghost use Rattle.ds_dev.specs.Bus.{lines};
ghost use Rattle.ds_pages.specs.Inner.Does.{is_known, single};
ghost use Rattle.ds_pages.specs.Inner.Places.{does_at, fields_at, length_at};
ghost use Rattle.ds_pages.specs.Inner.Page.{HoldsWords};
ghost use Rattle.ds_ahead.specs.Inner.Code.{KnowsPage};
ghost use Rattle.ds_ahead.specs.Inner.Operations.{IsCalled, HasOutcome, StaysCalm, LeadsOn};
ghost use Rattle.ds_ahead.specs.Inner.Goes.{GoesBy};
ghost use Rattle.ds_ahead.specs.Inner.Run.{place_in, slot_in, position_here, left_here, next_by, IsFreeOf, StandsIn, IsFreeHere, MovesAt, BeginsBlock, Lands, Ran, ComesOut};

use crate::branch::do_branch;
use crate::code::CodePage;
use crate::execute::{AnyKind, Execute};
use crate::here::{Here, NOWHERE, Way, place};
use crate::next::Next;
use crate::operations::Outcome;
use crate::position::Position;
use crate::turn::turn;
use ds_core::Core;
use ds_dev::Bus;
use ds_pages::{Does, OperationKind, Page};
use ds_tlb::Lookaside;
use ds_word::wrapping_difference;

/// Does the operation at a place of the page, which is of this kind; or says why not, and changes
/// nothing.
#[inline(always)]
pub(crate) fn do_operation<L: Lookaside, K: Execute>(
    core: &mut Core<L>,
    page: &Page,
    i: usize,
    kind: K,
    at: &mut Position,
    bus: &mut Bus,
    code: &CodePage,
) -> Outcome
    requires inside { i < 1024 }
    requires single { does_at page.now.places i ≡ single (K.kind kind) }
    requires some { K.kind kind ≢ OperationKind.Other }
    requires here { at.old ≡ place_in (code.now.vpn * 4096) i }
    requires known { KnowsPage code.now.vpn code.now.base core.old }
    requires space { code.now.asid ≡ asid_of core.old.system }
    requires some_page { code.now.vpn < 2 ^ 32 }
    requires calm { is_pending core.old.system (lines bus.old).0 (lines bus.old).1 ≡ false }
    requires holds { HoldsWords page.now bus.old.memory code.now.base }
    ensures moves { MovesAt page.now.places i result core.old at.old bus.old
        core.new at.new bus.new }
    ensures goes { GoesBy (does_at page.now.places i) result core.old
        (fields_at page.now.places i).to at.old at.new }
    ensures calm { StaysCalm core.old bus.old core.new bus.new }
    ensures holds { HoldsWords page.now bus.new.memory code.now.base }
{
    kind.execute(
        core,
        page.operation(i, kind.kind()),
        at,
        bus,
        code.base,
        code.asid,
    )
}

/// The kind of the operation that is done at a place, where one is done.
#[inline(always)]
fn kind_done(does: Does) -> Option<OperationKind>
    ensures single { IfSome result (λ kind. does ≡ single kind) }
    ensures some { IfSome result (λ kind. kind ≢ OperationKind.Other) }
    ensures known { IfSome result (λ kind. is_known does ≡ true) }
{
    let kind = match does {
        Does::Unknown | Does::Left => return None,
        Does::Nothing => OperationKind::Nothing,
        Does::Sll => OperationKind::Sll,
        Does::Srl => OperationKind::Srl,
        Does::Sra => OperationKind::Sra,
        Does::Sllv => OperationKind::Sllv,
        Does::Srlv => OperationKind::Srlv,
        Does::Srav => OperationKind::Srav,
        Does::Mfhi => OperationKind::Mfhi,
        Does::Mthi => OperationKind::Mthi,
        Does::Mflo => OperationKind::Mflo,
        Does::Mtlo => OperationKind::Mtlo,
        Does::Mult => OperationKind::Mult,
        Does::Multu => OperationKind::Multu,
        Does::Div => OperationKind::Div,
        Does::Divu => OperationKind::Divu,
        Does::Add => OperationKind::Add,
        Does::Addu => OperationKind::Addu,
        Does::Sub => OperationKind::Sub,
        Does::Subu => OperationKind::Subu,
        Does::And => OperationKind::And,
        Does::Or => OperationKind::Or,
        Does::Xor => OperationKind::Xor,
        Does::Nor => OperationKind::Nor,
        Does::Slt => OperationKind::Slt,
        Does::Sltu => OperationKind::Sltu,
        Does::Addi => OperationKind::Addi,
        Does::Addiu => OperationKind::Addiu,
        Does::Slti => OperationKind::Slti,
        Does::Sltiu => OperationKind::Sltiu,
        Does::Andi => OperationKind::Andi,
        Does::Ori => OperationKind::Ori,
        Does::Xori => OperationKind::Xori,
        Does::Lui => OperationKind::Lui,
        Does::Bltz => OperationKind::Bltz,
        Does::Bgez => OperationKind::Bgez,
        Does::Bltzal => OperationKind::Bltzal,
        Does::Bgezal => OperationKind::Bgezal,
        Does::Beq => OperationKind::Beq,
        Does::Bne => OperationKind::Bne,
        Does::Blez => OperationKind::Blez,
        Does::Bgtz => OperationKind::Bgtz,
        Does::J => OperationKind::J,
        Does::Jal => OperationKind::Jal,
        Does::Jr => OperationKind::Jr,
        Does::Jalr => OperationKind::Jalr,
        Does::Lb => OperationKind::Lb,
        Does::Lh => OperationKind::Lh,
        Does::Lw => OperationKind::Lw,
        Does::Lbu => OperationKind::Lbu,
        Does::Lhu => OperationKind::Lhu,
        Does::Sb => OperationKind::Sb,
        Does::Sh => OperationKind::Sh,
        Does::Sw => OperationKind::Sw,
        Does::Call => OperationKind::Syscall,
    };
    Some(kind)
}

/// Does the operation at a place of the page, which is of this kind, as that of a slot; or leaves
/// it, and changes nothing.
#[inline(always)]
fn do_slot_operation<L: Lookaside, K: Execute>(
    core: &mut Core<L>,
    page: &Page,
    i: usize,
    kind: K,
    at: &mut Position,
    bus: &mut Bus,
    code: &CodePage,
) -> Outcome
    requires inside { i < 1024 }
    requires single { does_at page.now.places i ≡ single (K.kind kind) }
    requires some { K.kind kind ≢ OperationKind.Other }
    requires here { at.old ≡ slot_in (code.now.vpn * 4096 + 4 * i) at.old.next }
    requires known { KnowsPage code.now.vpn code.now.base core.old }
    requires space { code.now.asid ≡ asid_of core.old.system }
    requires some_page { code.now.vpn < 2 ^ 32 }
    requires calm { is_pending core.old.system (lines bus.old).0 (lines bus.old).1 ≡ false }
    requires holds { HoldsWords page.now bus.old.memory code.now.base }
    ensures outcome { HasOutcome result core.old at.old bus.old core.new at.new bus.new }
    ensures goes { GoesBy (does_at page.now.places i) result core.old
        (fields_at page.now.places i).to at.old at.new }
    ensures calm { StaysCalm core.old bus.old core.new bus.new }
    ensures holds { HoldsWords page.now bus.new.memory code.now.base }
{
    kind.execute(
        core,
        page.operation(i, kind.kind()),
        at,
        bus,
        code.base,
        code.asid,
    )
}

/// The place of an address in the page that begins at `first`, or the one after its last; of other
/// addresses no such place.
#[inline(always)]
fn place_in_page(first: u32, target: u32) -> usize
    requires { first < 2 ^ 31 }
    ensures { result ≤ 1024 → target ≡ first + 4 * result }
{
    // An offset between words comes out far beyond the page.
    let offset = wrapping_difference(target, first);
    (offset / 4 + offset % 4 * 0x4000_0000) as usize
}

/// Does the operation at a place of the page, which is of this kind; or says why not, and changes
/// nothing. After a branch or jump `to` is the place where it leads, if that is in the page.
#[inline(always)]
pub(crate) fn do_at<L: Lookaside, K: Execute>(
    core: &mut Core<L>,
    page: &Page,
    i: usize,
    kind: K,
    first: u32,
    at: &mut Position,
    bus: &mut Bus,
    code: &CodePage,
    to: &mut usize,
) -> Outcome
    requires inside { i < 1024 }
    requires single { does_at page.now.places i ≡ single (K.kind kind) }
    requires some { K.kind kind ≢ OperationKind.Other }
    requires begins { first ≡ code.now.vpn * 4096 }
    requires low { first < 2 ^ 31 }
    requires here { at.old ≡ place_in (code.now.vpn * 4096) i }
    requires known { KnowsPage code.now.vpn code.now.base core.old }
    requires space { code.now.asid ≡ asid_of core.old.system }
    requires calm { is_pending core.old.system (lines bus.old).0 (lines bus.old).1 ≡ false }
    requires holds { HoldsWords page.now bus.old.memory code.now.base }
    ensures moves { MovesAt page.now.places i result core.old at.old bus.old
        core.new at.new bus.new }
    ensures goes { GoesBy (does_at page.now.places i) result core.old
        (fields_at page.now.places i).to at.old at.new }
    ensures leads { result ≡ Outcome.Branched → to.new ≤ 1024
        → at.new.next ≡ first + 4 * to.new }
    ensures calm { StaysCalm core.old bus.old core.new bus.new }
    ensures holds { HoldsWords page.now bus.new.memory code.now.base }
{
    if let Some(place) = do_branch(core, page, i, kind.kind(), first, at, bus, code) {
        *to = place;
        return Outcome::Branched;
    }
    let outcome = do_operation(core, page, i, kind, at, bus, code);
    *to = place_in_page(first, at.next);
    outcome
}

/// Gives back what was taken for a block that does not fit. It stays a call: so whoever goes on has
/// nothing to ask.
#[cold]
#[inline(never)]
fn given_back(rest: u32, length: u32) -> u32
    ensures { result ≡ word (rest + length) }
{
    rest.wrapping_add(length)
}

/// Begins the block at a place, where it fits into what is left.
#[inline(always)]
fn begin(page: &Page, i: usize, rest: &mut u32) -> Way
    requires { i ≤ 1024 }
    ensures { BeginsBlock result (length_at page.now.places i) rest.old rest.new }
{
    let length = page.length(i);
    let (less, over) = rest.overflowing_sub(length);
    if over {
        *rest = given_back(less, length);
        return Way::Out;
    }
    *rest = less;
    Way::On
}

/// Whether the operation at a place reads the register whose load is late.
#[inline(always)]
fn is_awaited(page: &Page, i: usize, at: &Position) -> bool
    requires { i ≤ 1024 }
    ensures { result ≡ false → i < 1024 → IsFreeOf at.now.late page.now.places i }
{
    i < 1024 && at.is_awaited(&page.slot(i, page.kind(i)))
}

/// Goes on at a place where a slot led to, if that is in the page.
#[inline(always)]
fn land(page: &Page, first: u32, to: usize, at: &Position, here: &mut Here, rest: &mut u32) -> Way
    requires low { first < 2 ^ 31 }
    requires settled { at.now ≡ record {
      pc = at.now.pc;
      next = word (at.now.pc + 4);
      slot = false;
      late = None;
    } }
    requires leads { to ≤ 1024 → at.now.pc ≡ first + 4 * to }
    requires stands { StandsIn here.old }
    ensures lands { Lands result page.now.places first at.now here.new rest.old rest.new }
    ensures stands { StandsIn here.new }
{
    if to > 1024 {
        return Way::Away;
    }
    here.go_to(to);
    begin(page, to, rest)
}

/// The same after the slot's load.
#[inline(always)]
fn land_after_load(
    page: &Page,
    first: u32,
    to: usize,
    at: &Position,
    here: &mut Here,
    rest: &mut u32,
) -> Way
    requires low { first < 2 ^ 31 }
    requires here { at.now ≡ record {
      pc = at.now.pc;
      next = word (at.now.pc + 4);
      slot = false;
      late = at.now.late;
    } }
    requires leads { to ≤ 1024 → at.now.pc ≡ first + 4 * to }
    requires inside { here.old.place < 1023 }
    requires stands { StandsIn here.old }
    requires late { IsSome at.now.late }
    requires register { IfSome at.now.late (λ late. late.register
        ≡ (fields_at page.now.places (here.old.place + 1)).to) }
    ensures lands { Lands result page.now.places first at.now here.new rest.old rest.new }
    ensures stands { StandsIn here.new }
{
    if to > 1024 {
        return Way::Away;
    }
    here.go_after_load(to, at);
    begin_after_load(page, to, at, rest)
}

/// Begins the block at a place, where it fits into what is left and does not begin with an
/// operation that reads the register whose load is late.
#[inline(always)]
fn begin_after_load(page: &Page, i: usize, at: &Position, rest: &mut u32) -> Way
    requires { i ≤ 1024 }
    ensures begins { BeginsBlock result (length_at page.now.places i) rest.old rest.new }
    ensures free { result ≡ Way.On → i < 1024 → IsFreeOf at.now.late page.now.places i }
{
    if is_awaited(page, i, at) {
        return Way::Out;
    }
    begin(page, i, rest)
}

/// Does the slot of the branch or jump at a place, in which it stands at `at` and whose operation is of
/// this kind, and goes on at the place where that leads to, if it is in the page; after it `rest` steps
/// are left.
#[inline(always)]
pub(crate) fn through_slot<L: Lookaside, K: Execute>(
    core: &mut Core<L>,
    page: &Page,
    code: &CodePage,
    first: u32,
    kind: K,
    to: usize,
    here: &mut Here,
    rest: &mut u32,
    at: &mut Position,
    bus: &mut Bus,
) -> Way
    requires begins { first ≡ code.now.vpn * 4096 }
    requires low { first < 2 ^ 31 }
    requires slot { at.old ≡ slot_in (first + 4 * (here.old.place + 1)) at.old.next }
    requires leads { to ≤ 1024 → at.old.next ≡ first + 4 * to }
    requires inside { here.old.place < 1023 }
    requires single { does_at page.now.places (here.old.place + 1) ≡ single (K.kind kind) }
    requires some { K.kind kind ≢ OperationKind.Other }
    requires stands { StandsIn here.old }
    requires fits { rest.old + 1 < 2 ^ 32 }
    requires known { KnowsPage code.now.vpn code.now.base core.old }
    requires space { code.now.asid ≡ asid_of core.old.system }
    requires calm { is_pending core.old.system (lines bus.old).0 (lines bus.old).1 ≡ false }
    requires holds { HoldsWords page.now bus.old.memory code.now.base }
    ensures ran { Ran result (rest.old + 1) core.old at.old bus.old page.now.places first
        here.new rest.new core.new at.new bus.new }
    ensures fewer { result ≡ Way.On
        → left_here page.now.places here.new rest.new ≡ rest.old }
    ensures stands { StandsIn here.new }
    ensures free { result ≡ Way.On → IsFreeHere page.now.places here.new }
    ensures holds { HoldsWords page.now bus.new.memory code.now.base }
{
    let _here = at.pc;
    match do_slot_operation(core, page, here.place + 1, kind, at, bus, code) {
        Outcome::Done => land(page, first, to, at, here, rest),
        Outcome::Loaded => land_after_load(page, first, to, at, here, rest),
        _ => {
            *rest += 1;
            Way::Away
        }
    }
}

/// The same, whatever the slot's operation is.
#[inline(always)]
pub(crate) fn through_any_slot<L: Lookaside>(
    core: &mut Core<L>,
    page: &Page,
    code: &CodePage,
    first: u32,
    to: usize,
    here: &mut Here,
    rest: &mut u32,
    at: &mut Position,
    bus: &mut Bus,
) -> Way
    requires begins { first ≡ code.now.vpn * 4096 }
    requires low { first < 2 ^ 31 }
    requires slot { at.old ≡ slot_in (first + 4 * (here.old.place + 1)) at.old.next }
    requires leads { to ≤ 1024 → at.old.next ≡ first + 4 * to }
    requires inside { here.old.place < 1023 }
    requires stands { StandsIn here.old }
    requires fits { rest.old + 1 < 2 ^ 32 }
    requires known { KnowsPage code.now.vpn code.now.base core.old }
    requires space { code.now.asid ≡ asid_of core.old.system }
    requires calm { is_pending core.old.system (lines bus.old).0 (lines bus.old).1 ≡ false }
    requires holds { HoldsWords page.now bus.old.memory code.now.base }
    ensures ran { Ran result (rest.old + 1) core.old at.old bus.old page.now.places first
        here.new rest.new core.new at.new bus.new }
    ensures fewer { result ≡ Way.On
        → left_here page.now.places here.new rest.new ≡ rest.old }
    ensures stands { StandsIn here.new }
    ensures free { result ≡ Way.On → IsFreeHere page.now.places here.new }
    ensures holds { HoldsWords page.now bus.new.memory code.now.base }
{
    let Some(kind) = kind_done(page.does(here.place + 1)) else {
        *rest += 1;
        return Way::Away;
    };
    let kind = AnyKind::<3>(kind);
    through_slot(core, page, code, first, kind, to, here, rest, at, bus)
}

/// What comes at a place of the page that was left, with so many steps left: a plain step, where what
/// is done there is known. Else the place is learned when it is come to the next time.
#[inline(always)]
fn next_known(page: &Page, i: usize, left: u32) -> Next
    requires { i ≤ 1024 }
    ensures { result
        ≡ next_by Next.Plain (is_known (does_at page.now.places i) && nat_lt 0 left) }
{
    if page.does(i).is_known() {
        Next::Plain.where_left(left)
    } else {
        Next::Any
    }
}

/// Comes out of a run: `at` is where it ended, `left` what is left of its steps; what comes next,
/// where a step is left for it.
#[inline(always)]
fn come_out(
    way: Way,
    page: &Page,
    here: &Here,
    first: u32,
    rest: u32,
    at: &mut Position,
    left: &mut u32,
) -> Next
    requires low { first < 2 ^ 31 }
    requires stands { StandsIn here.now }
    ensures { ComesOut way page.now.places first here.now rest at.old at.new left.new result }
{
    if let Way::Away = way {
        *left = rest;
        return Next::Any;
    }
    *at = here.position(first);
    *left = match way {
        Way::On | Way::Leaves => rest.wrapping_add(page.length(here.place)),
        _ => rest,
    };
    match way {
        Way::Leaves => next_known(page, here.place, *left),
        Way::Calls => Next::Call.where_left(rest),
        _ => Next::Any,
    }
}

/// Does the operations of a page in hand from a place on, where no load is late: whole blocks, while
/// they fit into what is left, and one step less is left for each. What comes next is answered.
#[inline(always)]
pub(crate) fn run<L: Lookaside>(
    core: &mut Core<L>,
    page: &Page,
    code: &CodePage,
    first: u32,
    start: usize,
    at: &mut Position,
    bus: &mut Bus,
    left: &mut u32,
) -> Next
    requires begins { first ≡ code.now.vpn * 4096 }
    requires low { first < 2 ^ 31 }
    requires inside { start < 1024 }
    requires here { at.old ≡ place_in first start }
    requires fits { length_at page.now.places start ≤ left.old }
    requires known { KnowsPage code.now.vpn code.now.base core.old }
    requires space { code.now.asid ≡ asid_of core.old.system }
    requires calm { is_pending core.old.system (lines bus.old).0 (lines bus.old).1 ≡ false }
    requires holds { HoldsWords page.now bus.old.memory code.now.base }
    ensures within { left.new ≤ left.old }
    ensures leads { LeadsOn (left.old - left.new) core.old at.old bus.old core.new at.new bus.new }
    ensures some { result ≡ Next.Call → 0 < left.new }
    ensures calls { result ≡ Next.Call → IsCalled core.new at.new bus.new }
    ensures plain { result ≡ Next.Plain → 0 < left.new }
    ensures holds { HoldsWords page.now bus.new.memory code.now.base }
{
    let mut here = Here::at(start);
    let mut rest = *left - page.length(start);
    loop {
        let way = turn(core, page, code, first, &mut here, &mut rest, at, bus);
        if !way.is_on() {
            return come_out(way, page, &here, first, rest, at, left);
        }
    }
}
