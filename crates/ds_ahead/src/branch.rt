//! A branch whose target is kept with its page.
ghost use Rattle.std.specs.Prelude.{◌≡◌, ◌≢◌, ◌+◌, ◌*◌, ◌<◌, ◌≤◌, ◌^◌, ℕ, true, false, slice_index, IfSome, IsNone};
ghost use Rattle.ds_isa.specs.Registers.{read, settled};
ghost use Rattle.ds_isa.specs.Meaning.{Branches};
ghost use Rattle.ds_cp0.specs.System.{is_pending};
ghost use Rattle.ds_pages.specs.Inner.Operations.{does, branches_by, target_by};
ghost use Rattle.ds_dev.specs.Bus.{lines};
ghost use Rattle.ds_pages.specs.Inner.Does.{single, is_branch};
ghost use Rattle.ds_pages.specs.Inner.Places.{does_at, fields_at};
ghost use Rattle.ds_pages.specs.Inner.Page.{HoldsWords};
ghost use Rattle.ds_ahead.specs.Inner.Code.{KnowsPage};
ghost use Rattle.ds_ahead.specs.Inner.Placed.{registers_at, at_slot};
ghost use Rattle.ds_ahead.specs.Inner.Operations.{ComesTo};
ghost use Rattle.ds_ahead.specs.Inner.Goes.{GoesBy};
ghost use Rattle.ds_ahead.specs.Inner.Run.{place_in, MovesAt};
ghost use Rattle.ds_ahead.specs.declared.operations.Outcome.{Outcome};

use crate::code::CodePage;
use crate::operations::general;
use crate::position::Position;
use ds_core::{Core, is_at_most_zero};
use ds_dev::Bus;
use ds_pages::{Operation, OperationKind, Page};
use ds_tlb::Lookaside;
use ds_word::is_negative;

/// Whether a branch is taken, where the operation is one that keeps no link.
#[inline(always)]
fn taken<L: Lookaside>(core: &Core<L>, operation: Operation, at: &Position) -> Option<bool>
    requires first { read (registers_at core.now at.now) operation.first.number
        ≡ slice_index core.now.registers.general operation.first.number }
    requires second { read (registers_at core.now at.now) operation.second.number
        ≡ slice_index core.now.registers.general operation.second.number }
    ensures does { IfSome result (λ taken. does operation at.now.pc (registers_at core.now at.now)
        ≡ branches_by (registers_at core.now at.now) taken at.now.pc operation.immediate) }
    ensures branch { IfSome result (λ taken. is_branch (single operation.kind) ≡ true) }
{
    let Operation {
        kind,
        first,
        second,
        ..
    } = operation;
    let _ = at;
    match kind {
        OperationKind::Bltz => Some(is_negative(general(core, first))),
        OperationKind::Bgez => Some(!is_negative(general(core, first))),
        OperationKind::Beq => Some(general(core, first) == general(core, second)),
        OperationKind::Bne => Some(general(core, first) != general(core, second)),
        OperationKind::Blez => Some(is_at_most_zero(general(core, first))),
        OperationKind::Bgtz => Some(!is_at_most_zero(general(core, first))),
        _ => None,
    }
}

/// The place where the branch at a place leads.
#[inline(always)]
fn place_after(page: &Page, i: usize, taken: bool) -> usize
    requires inside { i < 1024 }
    requires branch { is_branch (does_at page.now.places i) ≡ true }
    ensures inside { result ≤ 1024 }
    ensures leads { (first : ℕ) → first < 2 ^ 31 → target_by taken (first + 4 * i)
        (fields_at page.now.places i).immediate ≡ first + 4 * result }
{
    // What is done there is looked at, so that it is known that its slot lies in the page.
    let _does = page.does(i);
    let to = if taken { page.target(i) } else { i + 2 };
    // Its length is looked at, so that it is known to be a place where this is compiled, too.
    let _length = page.length(to);
    to
}

/// The program branches to the target, from a place that is no slot.
#[inline(always)]
fn branch<L: Lookaside>(core: &Core<L>, target: u32, at: &mut Position, bus: &Bus)
    requires straight { at.old.slot ≡ false }
    ensures comes { ComesTo Outcome.Branched
        (Branches (settled (registers_at core.now at.old)) target)
        core.now at.old bus.now core.now at.new bus.now }
    ensures at { at.new ≡ at_slot at.old target }
{
    let _ = core;
    let _ = bus;
    at.into_slot(target);
}

/// Does the branch at a place of the page, where one without a link is done, and answers the place
/// where it leads. Of another operation nothing is done.
#[inline(always)]
pub(crate) fn do_branch<L: Lookaside>(
    core: &Core<L>,
    page: &Page,
    i: usize,
    kind: OperationKind,
    first: u32,
    at: &mut Position,
    bus: &Bus,
    code: &CodePage,
) -> Option<usize>
    requires inside { i < 1024 }
    requires single { does_at page.now.places i ≡ single kind }
    requires some { kind ≢ OperationKind.Other }
    requires begins { first ≡ code.now.vpn * 4096 }
    requires low { first < 2 ^ 31 }
    requires here { at.old ≡ place_in (code.now.vpn * 4096) i }
    requires known { KnowsPage code.now.vpn code.now.base core.now }
    requires calm { is_pending core.now.system (lines bus.now).0 (lines bus.now).1 ≡ false }
    requires holds { HoldsWords page.now bus.now.memory code.now.base }
    ensures moves { IfSome result (λ to. MovesAt page.now.places i Outcome.Branched
        core.now at.old bus.now core.now at.new bus.now) }
    ensures goes { IfSome result (λ to. GoesBy (does_at page.now.places i) Outcome.Branched
        core.now (fields_at page.now.places i).to at.old at.new) }
    ensures leads { IfSome result (λ to. at.new.next ≡ first + 4 * to) }
    ensures inside { IfSome result (λ to. to ≤ 1024) }
    ensures same { IsNone result → at.new ≡ at.old }
{
    let operation = page.operation(i, kind);
    let to = place_after(page, i, taken(core, operation, at)?);
    let _ = code;
    branch(core, first + 4 * to as u32, at, bus);
    Some(to)
}
