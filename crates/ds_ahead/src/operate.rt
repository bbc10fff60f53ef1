//! What each kind of operation does.
ghost use Rattle.std.specs.Prelude.{◌≡◌, slice_index};
ghost use Rattle.ds_isa.specs.Registers.{read};
ghost use Rattle.ds_pages.specs.Inner.Operations.{does};
ghost use Rattle.ds_pages.specs.Inner.Does.{single};
ghost use Rattle.ds_cp0.specs.System.{asid_of};
ghost use Rattle.ds_ahead.specs.Inner.Placed.{registers_at};
ghost use Rattle.ds_ahead.specs.Inner.Operations.{ComesTo, StaysCalm};
ghost use Rattle.ds_ahead.specs.Inner.Goes.{GoesBy, KeepsFrame};

use crate::operations::{
    Outcome, address_by, general, in_region, jump, jump_and_link, leave_byte, leave_half,
    leave_word, put, put_hi_lo, put_or_leave, take_byte, take_byte_unsigned, take_half,
    take_half_unsigned, take_word, target_by,
};
use crate::position::Position;
use ds_core::{Core, is_at_most_zero, places};
use ds_dev::Bus;
use ds_pages::{Operation, OperationKind};
use ds_tlb::Lookaside;
use ds_word::{
    checked_difference, checked_sum, div_signed, div_unsigned, is_negative, mul_signed,
    mul_unsigned, shift_left, shift_right_arithmetic, shift_right_logical, signed_less,
    wrapping_difference, wrapping_sum,
};

/// Does an operation as a step, where it reads no register whose load is late and no interrupt is
/// to be taken; or says why not, and changes nothing. It is compiled once for each `WAY` that leads
/// here: it is long, and with two callers it would be a call, for 30 host instructions on each.
/// A store into the frame that begins at `own` is left.
#[inline(always)]
pub(crate) fn operate<L: Lookaside, const WAY: usize>(
    core: &mut Core<L>,
    operation: Operation,
    at: &mut Position,
    bus: &mut Bus,
    own: u32,
    asid: u8,
) -> Outcome
    requires space { asid ≡ asid_of core.old.system }
    requires first { read (registers_at core.old at.old) operation.first.number
        ≡ slice_index core.old.registers.general operation.first.number }
    requires second { read (registers_at core.old at.old) operation.second.number
        ≡ slice_index core.old.registers.general operation.second.number }
    ensures comes { ComesTo result
        (does operation at.old.pc (registers_at core.old at.old))
        core.old at.old bus.old core.new at.new bus.new }
    ensures calm { StaysCalm core.old bus.old core.new bus.new }
    ensures known { operation.kind ≡ OperationKind.Other → result ≡ Outcome.Left }
    ensures goes { GoesBy (single operation.kind) result core.old operation.to.number at.old at.new }
    ensures frame { KeepsFrame own bus.old.memory bus.new.memory }
{
    let Operation {
        kind,
        to,
        first,
        second,
        immediate,
    } = operation;
    match kind {
        OperationKind::Nothing => at.go_to_next(),
        OperationKind::Sll => {
            put(
                core,
                to,
                shift_left(general(core, first), places(immediate)),
                at,
            )
        }
        OperationKind::Srl => {
            put(
                core,
                to,
                shift_right_logical(general(core, first), places(immediate)),
                at,
            )
        }
        OperationKind::Sra => {
            put(
                core,
                to,
                shift_right_arithmetic(general(core, first), places(immediate)),
                at,
            )
        }
        OperationKind::Sllv => {
            put(
                core,
                to,
                shift_left(general(core, first), places(general(core, second))),
                at,
            )
        }
        OperationKind::Srlv => {
            put(
                core,
                to,
                shift_right_logical(general(core, first), places(general(core, second))),
                at,
            )
        }
        OperationKind::Srav => {
            put(
                core,
                to,
                shift_right_arithmetic(general(core, first), places(general(core, second))),
                at,
            )
        }
        OperationKind::Mfhi => put(core, to, core.hi, at),
        OperationKind::Mthi => put_hi_lo(core, general(core, first), core.lo, at, bus),
        OperationKind::Mflo => put(core, to, core.lo, at),
        OperationKind::Mtlo => put_hi_lo(core, core.hi, general(core, first), at, bus),
        OperationKind::Mult => {
            let (hi, lo) = mul_signed(general(core, first), general(core, second));
            put_hi_lo(core, hi, lo, at, bus)
        }
        OperationKind::Multu => {
            let (hi, lo) = mul_unsigned(general(core, first), general(core, second));
            put_hi_lo(core, hi, lo, at, bus)
        }
        OperationKind::Div => {
            let (hi, lo) = div_signed(general(core, first), general(core, second));
            put_hi_lo(core, hi, lo, at, bus)
        }
        OperationKind::Divu => {
            let (hi, lo) = div_unsigned(general(core, first), general(core, second));
            put_hi_lo(core, hi, lo, at, bus)
        }
        OperationKind::Add => {
            put_or_leave(
                core,
                to,
                checked_sum(general(core, first), general(core, second)),
                at,
                bus,
            )
        }
        OperationKind::Addu => {
            put(
                core,
                to,
                wrapping_sum(general(core, first), general(core, second)),
                at,
            )
        }
        OperationKind::Sub => {
            put_or_leave(
                core,
                to,
                checked_difference(general(core, first), general(core, second)),
                at,
                bus,
            )
        }
        OperationKind::Subu => {
            put(
                core,
                to,
                wrapping_difference(general(core, first), general(core, second)),
                at,
            )
        }
        OperationKind::And => put(core, to, general(core, first) & general(core, second), at),
        OperationKind::Or => put(core, to, general(core, first) | general(core, second), at),
        OperationKind::Xor => put(core, to, general(core, first) ^ general(core, second), at),
        OperationKind::Nor => put(
            core,
            to,
            !(general(core, first) | general(core, second)),
            at,
        ),
        OperationKind::Slt => {
            put(
                core,
                to,
                u32::from(signed_less(general(core, first), general(core, second))),
                at,
            )
        }
        OperationKind::Sltu => {
            put(
                core,
                to,
                u32::from(general(core, first) < general(core, second)),
                at,
            )
        }
        OperationKind::Addi => {
            put_or_leave(
                core,
                to,
                checked_sum(general(core, first), immediate),
                at,
                bus,
            )
        }
        OperationKind::Addiu => put(core, to, wrapping_sum(general(core, first), immediate), at),
        OperationKind::Slti => {
            put(
                core,
                to,
                u32::from(signed_less(general(core, first), immediate)),
                at,
            )
        }
        OperationKind::Sltiu => put(core, to, u32::from(general(core, first) < immediate), at),
        OperationKind::Andi => put(core, to, general(core, first) & immediate, at),
        OperationKind::Ori => put(core, to, general(core, first) | immediate, at),
        OperationKind::Xori => put(core, to, general(core, first) ^ immediate, at),
        OperationKind::Lui => put(core, to, immediate, at),
        OperationKind::Bltz => {
            let taken = is_negative(general(core, first));
            jump(core, target_by(taken, at.pc, immediate), at, bus)
        }
        OperationKind::Bgez => {
            let taken = !is_negative(general(core, first));
            jump(core, target_by(taken, at.pc, immediate), at, bus)
        }
        OperationKind::Bltzal => {
            let taken = is_negative(general(core, first));
            jump_and_link(core, to, target_by(taken, at.pc, immediate), at, bus)
        }
        OperationKind::Bgezal => {
            let taken = !is_negative(general(core, first));
            jump_and_link(core, to, target_by(taken, at.pc, immediate), at, bus)
        }
        OperationKind::Beq => {
            let taken = general(core, first) == general(core, second);
            jump(core, target_by(taken, at.pc, immediate), at, bus)
        }
        OperationKind::Bne => {
            let taken = general(core, first) != general(core, second);
            jump(core, target_by(taken, at.pc, immediate), at, bus)
        }
        OperationKind::Blez => {
            let taken = is_at_most_zero(general(core, first));
            jump(core, target_by(taken, at.pc, immediate), at, bus)
        }
        OperationKind::Bgtz => {
            let taken = !is_at_most_zero(general(core, first));
            jump(core, target_by(taken, at.pc, immediate), at, bus)
        }
        OperationKind::J => jump(core, in_region(at.pc, immediate), at, bus),
        OperationKind::Jal => jump_and_link(core, to, in_region(at.pc, immediate), at, bus),
        OperationKind::Jr => jump(core, general(core, first), at, bus),
        OperationKind::Jalr => jump_and_link(core, to, general(core, first), at, bus),
        OperationKind::Lb => take_byte(core, to, address_by(core, first, immediate), at, bus, asid),
        OperationKind::Lh => take_half(core, to, address_by(core, first, immediate), at, bus, asid),
        OperationKind::Lw => take_word(core, to, address_by(core, first, immediate), at, bus, asid),
        OperationKind::Lbu => {
            take_byte_unsigned(core, to, address_by(core, first, immediate), at, bus, asid)
        }
        OperationKind::Lhu => {
            take_half_unsigned(core, to, address_by(core, first, immediate), at, bus, asid)
        }
        OperationKind::Sb => {
            leave_byte(
                core,
                general(core, second),
                address_by(core, first, immediate),
                at,
                bus,
                own,
                asid,
            )
        }
        OperationKind::Sh => {
            leave_half(
                core,
                general(core, second),
                address_by(core, first, immediate),
                at,
                bus,
                own,
                asid,
            )
        }
        OperationKind::Sw => {
            leave_word(
                core,
                general(core, second),
                address_by(core, first, immediate),
                at,
                bus,
                own,
                asid,
            )
        }
        OperationKind::Syscall => Outcome::Called,
        OperationKind::Other => Outcome::Left,
    }
}
