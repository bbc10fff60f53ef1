//! Operations whose kind is known where code is compiled, so that it is the code of that kind alone.
ghost use Rattle.std.specs.Prelude.{◌≡◌, slice_index};
ghost use Rattle.ds_isa.specs.Registers.{read};
ghost use Rattle.ds_pages.specs.declared.operation.OperationKind.TheVariants as kinds;
ghost use Rattle.ds_pages.specs.Inner.Operations.{does};
ghost use Rattle.ds_pages.specs.Inner.Does.{single};
ghost use Rattle.ds_cp0.specs.System.{asid_of};
ghost use Rattle.ds_ahead.specs.Inner.Placed.{registers_at};
ghost use Rattle.ds_ahead.specs.Inner.Operations.{ComesTo, StaysCalm};
ghost use Rattle.ds_ahead.specs.Inner.Goes.{GoesBy, KeepsFrame};

use crate::operate::operate;
use crate::operations::{
    Outcome, address_by, general, in_region, jump, jump_and_link, leave_byte, leave_word, put,
    take_byte_unsigned, take_word, target_by,
};
use crate::position::Position;
use ds_core::{Core, places};
use ds_dev::Bus;
use ds_pages::{Operation, OperationKind};
use ds_tlb::Lookaside;
use ds_word::{shift_left, shift_right_logical, wrapping_sum};

/// Executes operations of one kind.
pub(crate) trait Execute: Copy {
    ghost use Rattle.ds_pages.specs.declared.operation.OperationKind.{OperationKind};

    ghost kind: { Self → OperationKind };

    /// The kind.
    fn kind(self) -> OperationKind
        ensures { result ≡ kind self };

    /// Does an operation of this kind as a step, where it reads no register whose load is late and no
    /// interrupt is to be taken; or says why not, and changes nothing. A store into the frame that
    /// begins at `own` is left.
    fn execute<L: Lookaside>(
        self,
        core: &mut Core<L>,
        operation: Operation,
        at: &mut Position,
        bus: &mut Bus,
        own: u32,
        asid: u8,
    ) -> Outcome
        requires kind { operation.kind ≡ kind self }
        requires space { asid ≡ asid_of core.old.system }
        requires first { read (registers_at core.old at.old) operation.first.number
            ≡ slice_index core.old.registers.general operation.first.number }
        requires second { read (registers_at core.old at.old) operation.second.number
            ≡ slice_index core.old.registers.general operation.second.number }
        ensures comes { ComesTo result
            (does operation at.old.pc (registers_at core.old at.old))
            core.old at.old bus.old core.new at.new bus.new }
        ensures calm { StaysCalm core.old bus.old core.new bus.new }
        ensures known { operation.kind ≡ OperationKind.Other → result ≡ Outcome.Left }
        ensures goes { GoesBy (single operation.kind) result core.old operation.to.number at.old at.new }
        ensures frame { KeepsFrame own bus.old.memory bus.new.memory };
}

/// A kind that is not known before the program runs. The code is compiled once for each `WAY` that leads
/// there, as that of `operate` is.
#[derive(Clone, Copy)]
pub(crate) struct AnyKind<const WAY: usize>(pub OperationKind);

impl<const WAY: usize> Execute for AnyKind<WAY> {
    ghost kind = { λ k. k.0 };

    #[inline(always)]
    fn kind(self) -> OperationKind {
        self.0
    }

    #[inline(always)]
    fn execute<L: Lookaside>(
        self,
        core: &mut Core<L>,
        operation: Operation,
        at: &mut Position,
        bus: &mut Bus,
        own: u32,
        asid: u8,
    ) -> Outcome {
        operate::<L, WAY>(core, operation, at, bus, own, asid)
    }
}

/// No register is written.
#[derive(Clone, Copy)]
pub(crate) struct Nothing;

impl Execute for Nothing {
    ghost kind = { λ k. kinds.Nothing };

    #[inline(always)]
    fn kind(self) -> OperationKind {
        OperationKind::Nothing
    }

    #[inline(always)]
    fn execute<L: Lookaside>(
        self,
        core: &mut Core<L>,
        operation: Operation,
        at: &mut Position,
        bus: &mut Bus,
        own: u32,
        asid: u8,
    ) -> Outcome {
        at.go_to_next()
    }
}

/// A shift to the left by a number.
#[derive(Clone, Copy)]
pub(crate) struct Sll;

impl Execute for Sll {
    ghost kind = { λ k. kinds.Sll };

    #[inline(always)]
    fn kind(self) -> OperationKind {
        OperationKind::Sll
    }

    #[inline(always)]
    fn execute<L: Lookaside>(
        self,
        core: &mut Core<L>,
        operation: Operation,
        at: &mut Position,
        bus: &mut Bus,
        own: u32,
        asid: u8,
    ) -> Outcome {
        put(
            core,
            operation.to,
            shift_left(general(core, operation.first), places(operation.immediate)),
            at,
        )
    }
}

/// A shift to the right by a number, with zeros.
#[derive(Clone, Copy)]
pub(crate) struct Srl;

impl Execute for Srl {
    ghost kind = { λ k. kinds.Srl };

    #[inline(always)]
    fn kind(self) -> OperationKind {
        OperationKind::Srl
    }

    #[inline(always)]
    fn execute<L: Lookaside>(
        self,
        core: &mut Core<L>,
        operation: Operation,
        at: &mut Position,
        bus: &mut Bus,
        own: u32,
        asid: u8,
    ) -> Outcome {
        put(
            core,
            operation.to,
            shift_right_logical(general(core, operation.first), places(operation.immediate)),
            at,
        )
    }
}

/// A sum of two registers.
#[derive(Clone, Copy)]
pub(crate) struct Addu;

impl Execute for Addu {
    ghost kind = { λ k. kinds.Addu };

    #[inline(always)]
    fn kind(self) -> OperationKind {
        OperationKind::Addu
    }

    #[inline(always)]
    fn execute<L: Lookaside>(
        self,
        core: &mut Core<L>,
        operation: Operation,
        at: &mut Position,
        bus: &mut Bus,
        own: u32,
        asid: u8,
    ) -> Outcome {
        put(
            core,
            operation.to,
            wrapping_sum(
                general(core, operation.first),
                general(core, operation.second),
            ),
            at,
        )
    }
}

/// The bits of either of two registers.
#[derive(Clone, Copy)]
pub(crate) struct Or;

impl Execute for Or {
    ghost kind = { λ k. kinds.Or };

    #[inline(always)]
    fn kind(self) -> OperationKind {
        OperationKind::Or
    }

    #[inline(always)]
    fn execute<L: Lookaside>(
        self,
        core: &mut Core<L>,
        operation: Operation,
        at: &mut Position,
        bus: &mut Bus,
        own: u32,
        asid: u8,
    ) -> Outcome {
        put(
            core,
            operation.to,
            general(core, operation.first) | general(core, operation.second),
            at,
        )
    }
}

/// The bits that two registers have not both.
#[derive(Clone, Copy)]
pub(crate) struct Xor;

impl Execute for Xor {
    ghost kind = { λ k. kinds.Xor };

    #[inline(always)]
    fn kind(self) -> OperationKind {
        OperationKind::Xor
    }

    #[inline(always)]
    fn execute<L: Lookaside>(
        self,
        core: &mut Core<L>,
        operation: Operation,
        at: &mut Position,
        bus: &mut Bus,
        own: u32,
        asid: u8,
    ) -> Outcome {
        put(
            core,
            operation.to,
            general(core, operation.first) ^ general(core, operation.second),
            at,
        )
    }
}

/// Whether one register is less than another, without a sign.
#[derive(Clone, Copy)]
pub(crate) struct Sltu;

impl Execute for Sltu {
    ghost kind = { λ k. kinds.Sltu };

    #[inline(always)]
    fn kind(self) -> OperationKind {
        OperationKind::Sltu
    }

    #[inline(always)]
    fn execute<L: Lookaside>(
        self,
        core: &mut Core<L>,
        operation: Operation,
        at: &mut Position,
        bus: &mut Bus,
        own: u32,
        asid: u8,
    ) -> Outcome {
        put(
            core,
            operation.to,
            u32::from(general(core, operation.first) < general(core, operation.second)),
            at,
        )
    }
}

/// A sum of a register and the immediate.
#[derive(Clone, Copy)]
pub(crate) struct Addiu;

impl Execute for Addiu {
    ghost kind = { λ k. kinds.Addiu };

    #[inline(always)]
    fn kind(self) -> OperationKind {
        OperationKind::Addiu
    }

    #[inline(always)]
    fn execute<L: Lookaside>(
        self,
        core: &mut Core<L>,
        operation: Operation,
        at: &mut Position,
        bus: &mut Bus,
        own: u32,
        asid: u8,
    ) -> Outcome {
        put(
            core,
            operation.to,
            wrapping_sum(general(core, operation.first), operation.immediate),
            at,
        )
    }
}

/// The bits of a register or the immediate.
#[derive(Clone, Copy)]
pub(crate) struct Ori;

impl Execute for Ori {
    ghost kind = { λ k. kinds.Ori };

    #[inline(always)]
    fn kind(self) -> OperationKind {
        OperationKind::Ori
    }

    #[inline(always)]
    fn execute<L: Lookaside>(
        self,
        core: &mut Core<L>,
        operation: Operation,
        at: &mut Position,
        bus: &mut Bus,
        own: u32,
        asid: u8,
    ) -> Outcome {
        put(
            core,
            operation.to,
            general(core, operation.first) | operation.immediate,
            at,
        )
    }
}

/// The immediate itself.
#[derive(Clone, Copy)]
pub(crate) struct Lui;

impl Execute for Lui {
    ghost kind = { λ k. kinds.Lui };

    #[inline(always)]
    fn kind(self) -> OperationKind {
        OperationKind::Lui
    }

    #[inline(always)]
    fn execute<L: Lookaside>(
        self,
        core: &mut Core<L>,
        operation: Operation,
        at: &mut Position,
        bus: &mut Bus,
        own: u32,
        asid: u8,
    ) -> Outcome {
        put(core, operation.to, operation.immediate, at)
    }
}

/// A branch where two registers are equal.
#[derive(Clone, Copy)]
pub(crate) struct Beq;

impl Execute for Beq {
    ghost kind = { λ k. kinds.Beq };

    #[inline(always)]
    fn kind(self) -> OperationKind {
        OperationKind::Beq
    }

    #[inline(always)]
    fn execute<L: Lookaside>(
        self,
        core: &mut Core<L>,
        operation: Operation,
        at: &mut Position,
        bus: &mut Bus,
        own: u32,
        asid: u8,
    ) -> Outcome {
        jump(
            core,
            target_by(
                general(core, operation.first) == general(core, operation.second),
                at.pc,
                operation.immediate,
            ),
            at,
            bus,
        )
    }
}

/// A branch where they are not.
#[derive(Clone, Copy)]
pub(crate) struct Bne;

impl Execute for Bne {
    ghost kind = { λ k. kinds.Bne };

    #[inline(always)]
    fn kind(self) -> OperationKind {
        OperationKind::Bne
    }

    #[inline(always)]
    fn execute<L: Lookaside>(
        self,
        core: &mut Core<L>,
        operation: Operation,
        at: &mut Position,
        bus: &mut Bus,
        own: u32,
        asid: u8,
    ) -> Outcome {
        jump(
            core,
            target_by(
                general(core, operation.first) != general(core, operation.second),
                at.pc,
                operation.immediate,
            ),
            at,
            bus,
        )
    }
}

/// A jump in the region of its slot.
#[derive(Clone, Copy)]
pub(crate) struct J;

impl Execute for J {
    ghost kind = { λ k. kinds.J };

    #[inline(always)]
    fn kind(self) -> OperationKind {
        OperationKind::J
    }

    #[inline(always)]
    fn execute<L: Lookaside>(
        self,
        core: &mut Core<L>,
        operation: Operation,
        at: &mut Position,
        bus: &mut Bus,
        own: u32,
        asid: u8,
    ) -> Outcome {
        jump(core, in_region(at.pc, operation.immediate), at, bus)
    }
}

/// The same with a link.
#[derive(Clone, Copy)]
pub(crate) struct Jal;

impl Execute for Jal {
    ghost kind = { λ k. kinds.Jal };

    #[inline(always)]
    fn kind(self) -> OperationKind {
        OperationKind::Jal
    }

    #[inline(always)]
    fn execute<L: Lookaside>(
        self,
        core: &mut Core<L>,
        operation: Operation,
        at: &mut Position,
        bus: &mut Bus,
        own: u32,
        asid: u8,
    ) -> Outcome {
        jump_and_link(
            core,
            operation.to,
            in_region(at.pc, operation.immediate),
            at,
            bus,
        )
    }
}

/// A jump to a register.
#[derive(Clone, Copy)]
pub(crate) struct Jr;

impl Execute for Jr {
    ghost kind = { λ k. kinds.Jr };

    #[inline(always)]
    fn kind(self) -> OperationKind {
        OperationKind::Jr
    }

    #[inline(always)]
    fn execute<L: Lookaside>(
        self,
        core: &mut Core<L>,
        operation: Operation,
        at: &mut Position,
        bus: &mut Bus,
        own: u32,
        asid: u8,
    ) -> Outcome {
        jump(core, general(core, operation.first), at, bus)
    }
}

/// A load of a word.
#[derive(Clone, Copy)]
pub(crate) struct Lw;

impl Execute for Lw {
    ghost kind = { λ k. kinds.Lw };

    #[inline(always)]
    fn kind(self) -> OperationKind {
        OperationKind::Lw
    }

    #[inline(always)]
    fn execute<L: Lookaside>(
        self,
        core: &mut Core<L>,
        operation: Operation,
        at: &mut Position,
        bus: &mut Bus,
        own: u32,
        asid: u8,
    ) -> Outcome {
        take_word(
            core,
            operation.to,
            address_by(core, operation.first, operation.immediate),
            at,
            bus,
            asid,
        )
    }
}

/// A store of a word.
#[derive(Clone, Copy)]
pub(crate) struct Sw;

impl Execute for Sw {
    ghost kind = { λ k. kinds.Sw };

    #[inline(always)]
    fn kind(self) -> OperationKind {
        OperationKind::Sw
    }

    #[inline(always)]
    fn execute<L: Lookaside>(
        self,
        core: &mut Core<L>,
        operation: Operation,
        at: &mut Position,
        bus: &mut Bus,
        own: u32,
        asid: u8,
    ) -> Outcome {
        leave_word(
            core,
            general(core, operation.second),
            address_by(core, operation.first, operation.immediate),
            at,
            bus,
            own,
            asid,
        )
    }
}

/// A load of a byte below zeros.
#[derive(Clone, Copy)]
pub(crate) struct Lbu;

impl Execute for Lbu {
    ghost kind = { λ k. kinds.Lbu };

    #[inline(always)]
    fn kind(self) -> OperationKind {
        OperationKind::Lbu
    }

    #[inline(always)]
    fn execute<L: Lookaside>(
        self,
        core: &mut Core<L>,
        operation: Operation,
        at: &mut Position,
        bus: &mut Bus,
        own: u32,
        asid: u8,
    ) -> Outcome {
        take_byte_unsigned(
            core,
            operation.to,
            address_by(core, operation.first, operation.immediate),
            at,
            bus,
            asid,
        )
    }
}

/// A store of a byte.
#[derive(Clone, Copy)]
pub(crate) struct Sb;

impl Execute for Sb {
    ghost kind = { λ k. kinds.Sb };

    #[inline(always)]
    fn kind(self) -> OperationKind {
        OperationKind::Sb
    }

    #[inline(always)]
    fn execute<L: Lookaside>(
        self,
        core: &mut Core<L>,
        operation: Operation,
        at: &mut Position,
        bus: &mut Bus,
        own: u32,
        asid: u8,
    ) -> Outcome {
        leave_byte(
            core,
            general(core, operation.second),
            address_by(core, operation.first, operation.immediate),
            at,
            bus,
            own,
            asid,
        )
    }
}
