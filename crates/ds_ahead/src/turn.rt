//! A turn of a run: an operation where it stands, that and the next one, or a branch with its slot.
ghost use Rattle.std.specs.Prelude.{◌≡◌, ◌≢◌, ◌+◌, ◌*◌, ◌<◌, ◌≤◌, ◌^◌, true, false, IfSome};
ghost use Rattle.ds_pages.specs.Inner.Does.{has_slot, is_end, single};
ghost use Rattle.ds_pages.specs.Inner.Turn.{first_of};
ghost use Rattle.ds_pages.specs.Inner.Places.{does_at};
ghost use Rattle.ds_pages.specs.Inner.Page.{HoldsWords};
ghost use Rattle.ds_ahead.specs.Inner.Operations.{StaysCalm};
ghost use Rattle.ds_ahead.specs.Inner.Run.{position_here, left_here, StandsIn, IsFreeHere, IsAlone, MayGo, Ran};

use crate::code::CodePage;
use crate::execute::{
    Addiu, Addu, AnyKind, Beq, Bne, Execute, J, Jal, Jr, Lbu, Lui, Lw, Nothing, Or, Ori, Sb, Sll,
    Sltu, Srl, Sw, Xor,
};
use crate::here::{Here, NOWHERE, Way, place};
use crate::operations::Outcome;
use crate::position::Position;
use crate::run::{do_at, do_operation, through_any_slot, through_slot};
use ds_core::Core;
use ds_dev::Bus;
use ds_pages::{OperationKind, Page, Stride};
use ds_tlb::Lookaside;

/// The kind of the operation that is done alone in a turn.
#[inline(always)]
fn alone(turn: Stride, kind: OperationKind) -> AnyKind<2>
    requires { IsAlone (first_of turn) kind }
    ensures single { first_of turn ≡ single result.0 }
    ensures some { result.0 ≢ OperationKind.Other }
{
    let _ = turn;
    AnyKind::<2>(kind)
}

/// Does the operation where a run stands, which is of this kind and has no slot.
#[inline(always)]
fn plain<L: Lookaside, K: Execute>(
    core: &mut Core<L>,
    page: &Page,
    code: &CodePage,
    first: u32,
    kind: K,
    here: &mut Here,
    rest: &mut u32,
    at: &mut Position,
    bus: &mut Bus,
) -> Way
    requires begins { first ≡ code.now.vpn * 4096 }
    requires low { first < 2 ^ 31 }
    requires goes { MayGo page.now code.now here.old rest.old core.old bus.old }
    requires kind { IsAlone (does_at page.now.places here.old.place) (K.kind kind) }
    requires straight { has_slot (single (K.kind kind)) ≡ false }
    ensures ran { Ran result (left_here page.now.places here.old rest.old) core.old
        (position_here first here.old) bus.old page.now.places first
        here.new rest.new core.new at.new bus.new }
    ensures fewer { result ≡ Way.On → left_here page.now.places here.new rest.new
        < left_here page.now.places here.old rest.old }
    ensures stands { StandsIn here.new }
    ensures free { result ≡ Way.On → IsFreeHere page.now.places here.new }
    ensures holds { HoldsWords page.now bus.new.memory code.now.base }
    ensures calm { StaysCalm core.old bus.old core.new bus.new }
    ensures next { result ≡ Way.On → here.new.place ≡ here.old.place + 1 }
{
    let i = here.place;
    *at = place(first, i);
    // What is done there and the length are looked at, for the proof alone.
    let _does = page.does(i);
    let _length = page.length(i);
    match do_operation(core, page, i, kind, at, bus, code) {
        Outcome::Done => {
            here.go_to_next();
            Way::On
        }
        Outcome::Loaded => {
            here.go_after_load(i + 1, at);
            Way::On
        }
        _ => Way::Leaves,
    }
}

/// Does the operation where a run stands and the next one, which are of these kinds and have no slot.
fn two<L: Lookaside, A: Execute, B: Execute>(
    core: &mut Core<L>,
    page: &Page,
    code: &CodePage,
    first: u32,
    kinds: (A, B),
    here: &mut Here,
    rest: &mut u32,
    at: &mut Position,
    bus: &mut Bus,
) -> Way
    requires begins { first ≡ code.now.vpn * 4096 }
    requires low { first < 2 ^ 31 }
    requires goes { MayGo page.now code.now here.old rest.old core.old bus.old }
    requires first { IsAlone (does_at page.now.places here.old.place) (A.kind kinds.0) }
    requires next { IsAlone (does_at page.now.places (here.old.place + 1)) (B.kind kinds.1) }
    requires straight { has_slot (single (A.kind kinds.0)) ≡ false }
    requires straight_next { has_slot (single (B.kind kinds.1)) ≡ false }
    ensures ran { Ran result (left_here page.now.places here.old rest.old) core.old
        (position_here first here.old) bus.old page.now.places first
        here.new rest.new core.new at.new bus.new }
    ensures fewer { result ≡ Way.On → left_here page.now.places here.new rest.new
        < left_here page.now.places here.old rest.old }
    ensures stands { StandsIn here.new }
    ensures free { result ≡ Way.On → IsFreeHere page.now.places here.new }
    ensures holds { HoldsWords page.now bus.new.memory code.now.base }
{
    let way = plain(core, page, code, first, kinds.0, here, rest, at, bus);
    if !way.is_on() {
        return way;
    }
    plain(core, page, code, first, kinds.1, here, rest, at, bus)
}

/// Does the operation where a run stands, which is of this kind, with its slot where it has one.
fn one<L: Lookaside, K: Execute>(
    core: &mut Core<L>,
    page: &Page,
    code: &CodePage,
    first: u32,
    kind: K,
    here: &mut Here,
    rest: &mut u32,
    at: &mut Position,
    bus: &mut Bus,
) -> Way
    requires begins { first ≡ code.now.vpn * 4096 }
    requires low { first < 2 ^ 31 }
    requires goes { MayGo page.now code.now here.old rest.old core.old bus.old }
    requires kind { IsAlone (does_at page.now.places here.old.place) (K.kind kind) }
    ensures ran { Ran result (left_here page.now.places here.old rest.old) core.old
        (position_here first here.old) bus.old page.now.places first
        here.new rest.new core.new at.new bus.new }
    ensures fewer { result ≡ Way.On → left_here page.now.places here.new rest.new
        < left_here page.now.places here.old rest.old }
    ensures stands { StandsIn here.new }
    ensures free { result ≡ Way.On → IsFreeHere page.now.places here.new }
    ensures holds { HoldsWords page.now bus.new.memory code.now.base }
{
    let i = here.place;
    *at = place(first, i);
    // What is done there and the length are looked at, for the proof alone.
    let _does = page.does(i);
    let _length = page.length(i);
    let mut to = NOWHERE;
    match do_at(core, page, i, kind, first, at, bus, code, &mut to) {
        Outcome::Done => {
            here.go_to_next();
            Way::On
        }
        Outcome::Loaded => {
            here.go_after_load(i + 1, at);
            Way::On
        }
        Outcome::Branched => through_any_slot(core, page, code, first, to, here, rest, at, bus),
        Outcome::Called => Way::Calls,
        Outcome::Left => Way::Leaves,
    }
}

/// Does the branch or jump where a run stands and its slot, which are of these kinds.
fn with_slot<L: Lookaside, A: Execute, B: Execute>(
    core: &mut Core<L>,
    page: &Page,
    code: &CodePage,
    first: u32,
    kinds: (A, B),
    here: &mut Here,
    rest: &mut u32,
    at: &mut Position,
    bus: &mut Bus,
) -> Way
    requires begins { first ≡ code.now.vpn * 4096 }
    requires low { first < 2 ^ 31 }
    requires goes { MayGo page.now code.now here.old rest.old core.old bus.old }
    requires first { IsAlone (does_at page.now.places here.old.place) (A.kind kinds.0) }
    requires next { IsAlone (does_at page.now.places (here.old.place + 1)) (B.kind kinds.1) }
    requires slot { has_slot (single (A.kind kinds.0)) ≡ true }
    requires on { is_end (single (A.kind kinds.0)) ≡ false }
    ensures ran { Ran result (left_here page.now.places here.old rest.old) core.old
        (position_here first here.old) bus.old page.now.places first
        here.new rest.new core.new at.new bus.new }
    ensures fewer { result ≡ Way.On → left_here page.now.places here.new rest.new
        < left_here page.now.places here.old rest.old }
    ensures stands { StandsIn here.new }
    ensures free { result ≡ Way.On → IsFreeHere page.now.places here.new }
    ensures holds { HoldsWords page.now bus.new.memory code.now.base }
{
    let i = here.place;
    *at = place(first, i);
    // What is done there and the length are looked at, for the proof alone.
    let _does = page.does(i);
    let _length = page.length(i);
    let mut to = NOWHERE;
    match do_at(core, page, i, kinds.0, first, at, bus, code, &mut to) {
        Outcome::Branched => {
            through_slot(core, page, code, first, kinds.1, to, here, rest, at, bus)
        }
        _ => Way::Leaves,
    }
}

/// Takes a turn where a run stands. What often comes together is done together, by code
/// that is compiled for these kinds.
#[inline(always)]
pub(crate) fn turn<L: Lookaside>(
    core: &mut Core<L>,
    page: &Page,
    code: &CodePage,
    first: u32,
    here: &mut Here,
    rest: &mut u32,
    at: &mut Position,
    bus: &mut Bus,
) -> Way
    requires begins { first ≡ code.now.vpn * 4096 }
    requires low { first < 2 ^ 31 }
    requires goes { MayGo page.now code.now here.old rest.old core.old bus.old }
    ensures ran { Ran result (left_here page.now.places here.old rest.old) core.old
        (position_here first here.old) bus.old page.now.places first
        here.new rest.new core.new at.new bus.new }
    ensures fewer { result ≡ Way.On → left_here page.now.places here.new rest.new
        < left_here page.now.places here.old rest.old }
    ensures stands { StandsIn here.new }
    ensures free { result ≡ Way.On → IsFreeHere page.now.places here.new }
    ensures holds { HoldsWords page.now bus.new.memory code.now.base }
{
    use OperationKind as Kind;
    let turn = page.turn(here.place);
    let kind = match turn {
        Stride::Unknown | Stride::Left => return Way::Leaves,
        Stride::Call => Kind::Syscall,
        Stride::Nothing => Kind::Nothing,
        Stride::Sll => Kind::Sll,
        Stride::Srl => Kind::Srl,
        Stride::Sra => Kind::Sra,
        Stride::Sllv => Kind::Sllv,
        Stride::Srlv => Kind::Srlv,
        Stride::Srav => Kind::Srav,
        Stride::Mfhi => Kind::Mfhi,
        Stride::Mthi => Kind::Mthi,
        Stride::Mflo => Kind::Mflo,
        Stride::Mtlo => Kind::Mtlo,
        Stride::Mult => Kind::Mult,
        Stride::Multu => Kind::Multu,
        Stride::Div => Kind::Div,
        Stride::Divu => Kind::Divu,
        Stride::Add => Kind::Add,
        Stride::Addu => Kind::Addu,
        Stride::Sub => Kind::Sub,
        Stride::Subu => Kind::Subu,
        Stride::And => Kind::And,
        Stride::Or => Kind::Or,
        Stride::Xor => Kind::Xor,
        Stride::Nor => Kind::Nor,
        Stride::Slt => Kind::Slt,
        Stride::Sltu => Kind::Sltu,
        Stride::Addi => Kind::Addi,
        Stride::Addiu => Kind::Addiu,
        Stride::Slti => Kind::Slti,
        Stride::Sltiu => Kind::Sltiu,
        Stride::Andi => Kind::Andi,
        Stride::Ori => Kind::Ori,
        Stride::Xori => Kind::Xori,
        Stride::Lui => Kind::Lui,
        Stride::Bltz => Kind::Bltz,
        Stride::Bgez => Kind::Bgez,
        Stride::Bltzal => Kind::Bltzal,
        Stride::Bgezal => Kind::Bgezal,
        Stride::Beq => Kind::Beq,
        Stride::Bne => Kind::Bne,
        Stride::Blez => Kind::Blez,
        Stride::Bgtz => Kind::Bgtz,
        Stride::J => Kind::J,
        Stride::Jal => Kind::Jal,
        Stride::Jr => Kind::Jr,
        Stride::Jalr => Kind::Jalr,
        Stride::Lb => Kind::Lb,
        Stride::Lh => Kind::Lh,
        Stride::Lw => Kind::Lw,
        Stride::Lbu => Kind::Lbu,
        Stride::Lhu => Kind::Lhu,
        Stride::Sb => Kind::Sb,
        Stride::Sh => Kind::Sh,
        Stride::Sw => Kind::Sw,
        Stride::AdduAddu => return two(core, page, code, first, (Addu, Addu), here, rest, at, bus),
        Stride::AddiuAddu => return two(
            core,
            page,
            code,
            first,
            (Addiu, Addu),
            here,
            rest,
            at,
            bus,
        ),
        Stride::AdduAddiu => return two(
            core,
            page,
            code,
            first,
            (Addu, Addiu),
            here,
            rest,
            at,
            bus,
        ),
        Stride::AddiuAddiu => return two(
            core,
            page,
            code,
            first,
            (Addiu, Addiu),
            here,
            rest,
            at,
            bus,
        ),
        Stride::SllAddu => return two(core, page, code, first, (Sll, Addu), here, rest, at, bus),
        Stride::AdduSll => return two(core, page, code, first, (Addu, Sll), here, rest, at, bus),
        Stride::LuiOri => return two(core, page, code, first, (Lui, Ori), here, rest, at, bus),
        Stride::LuiAddiu => return two(core, page, code, first, (Lui, Addiu), here, rest, at, bus),
        Stride::XorSrl => return two(core, page, code, first, (Xor, Srl), here, rest, at, bus),
        Stride::AdduSltu => return two(core, page, code, first, (Addu, Sltu), here, rest, at, bus),
        Stride::LwNothing => return two(
            core,
            page,
            code,
            first,
            (Lw, Nothing),
            here,
            rest,
            at,
            bus,
        ),
        Stride::LwAddiu => return two(core, page, code, first, (Lw, Addiu), here, rest, at, bus),
        Stride::LwAddu => return two(core, page, code, first, (Lw, Addu), here, rest, at, bus),
        Stride::LwLw => return two(core, page, code, first, (Lw, Lw), here, rest, at, bus),
        Stride::AddiuLw => return two(core, page, code, first, (Addiu, Lw), here, rest, at, bus),
        Stride::AdduLw => return two(core, page, code, first, (Addu, Lw), here, rest, at, bus),
        Stride::AdduSw => return two(core, page, code, first, (Addu, Sw), here, rest, at, bus),
        Stride::AddiuSw => return two(core, page, code, first, (Addiu, Sw), here, rest, at, bus),
        Stride::SwAddiu => return two(core, page, code, first, (Sw, Addiu), here, rest, at, bus),
        Stride::SwSw => return two(core, page, code, first, (Sw, Sw), here, rest, at, bus),
        Stride::SwLw => return two(core, page, code, first, (Sw, Lw), here, rest, at, bus),
        Stride::LwLbu => return two(core, page, code, first, (Lw, Lbu), here, rest, at, bus),
        Stride::LbuNothing => return two(
            core,
            page,
            code,
            first,
            (Lbu, Nothing),
            here,
            rest,
            at,
            bus,
        ),
        Stride::LbuAddiu => return two(core, page, code, first, (Lbu, Addiu), here, rest, at, bus),
        Stride::AdduSb => return two(core, page, code, first, (Addu, Sb), here, rest, at, bus),
        Stride::SbAddiu => return two(core, page, code, first, (Sb, Addiu), here, rest, at, bus),
        Stride::BeqNothing => {
            return with_slot(core, page, code, first, (Beq, Nothing), here, rest, at, bus);
        }
        Stride::BeqAddiu => {
            return with_slot(core, page, code, first, (Beq, Addiu), here, rest, at, bus);
        }
        Stride::BeqAddu => {
            return with_slot(core, page, code, first, (Beq, Addu), here, rest, at, bus);
        }
        Stride::BeqOr => {
            return with_slot(core, page, code, first, (Beq, Or), here, rest, at, bus);
        }
        Stride::BneNothing => {
            return with_slot(core, page, code, first, (Bne, Nothing), here, rest, at, bus);
        }
        Stride::BneAddiu => {
            return with_slot(core, page, code, first, (Bne, Addiu), here, rest, at, bus);
        }
        Stride::BneAddu => {
            return with_slot(core, page, code, first, (Bne, Addu), here, rest, at, bus);
        }
        Stride::BneOr => {
            return with_slot(core, page, code, first, (Bne, Or), here, rest, at, bus);
        }
        Stride::JNothing => {
            return with_slot(core, page, code, first, (J, Nothing), here, rest, at, bus);
        }
        Stride::JAddiu => {
            return with_slot(core, page, code, first, (J, Addiu), here, rest, at, bus);
        }
        Stride::JalNothing => {
            return with_slot(core, page, code, first, (Jal, Nothing), here, rest, at, bus);
        }
        Stride::JalAddiu => {
            return with_slot(core, page, code, first, (Jal, Addiu), here, rest, at, bus);
        }
        Stride::JrNothing => {
            return with_slot(core, page, code, first, (Jr, Nothing), here, rest, at, bus);
        }
        Stride::JrAddiu => {
            return with_slot(core, page, code, first, (Jr, Addiu), here, rest, at, bus);
        }
        Stride::JrAddu => {
            return with_slot(core, page, code, first, (Jr, Addu), here, rest, at, bus);
        }
    };
    one(
        core,
        page,
        code,
        first,
        alone(turn, kind),
        here,
        rest,
        at,
        bus,
    )
}
