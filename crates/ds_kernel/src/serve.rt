//! The exception that waits is served: the page of a table that the refill handler missed goes into
//! the buffer, or a page that is to be stored to gets a frame of its own, and the unit begins again; or
//! it ends in a denial, a fault or a call.
ghost use Rattle.std.specs.Prelude.{◌≡◌, true, false};
ghost use Rattle.ds_grants.specs.State.{page_state};
ghost use Rattle.ds_pagemap.specs.Unit.{denied_as};
ghost use Rattle.ds_refinement.specs.declared.cause.Cause.TheVariants as cause;
ghost use Rattle.ds_refinement.specs.Told.{told, is_delayed};
ghost use Rattle.ds_refinement.specs.Units.{is_served, has_left_user};
ghost use Rattle.ds_kernel.specs.Inner.Parts.{held};
ghost use Rattle.ds_kernel.specs.Inner.Good.{IsBusy, IsGood};
ghost use Rattle.ds_kernel.specs.Inner.Ended.{DoesStep};

use crate::parts::Parts;
use ds_isa::Kind;
use ds_log::Denied;
use ds_policy::{Access, Rule, Verdict};
use ds_refinement::{Cause, Step};
use ds_tlb::Lookaside;

/// The exception code of a call, which in the slot of a branch is a fault.
const CALL_IN_A_SLOT: u32 = 8;

/// What is denied where an access is.
fn denied_as(kind: Kind) -> Denied
    ensures { result ≡ denied_as kind }
{
    match kind {
        Kind::Fetch => Denied::Fetch,
        Kind::Load => Denied::Load,
        Kind::Store => Denied::Store,
    }
}

impl<L: Lookaside> Parts<L> {
    /// What the buffer did not let go: a store to a page whose frame another may share, which gets one
    /// of its own; or the unit ends in a denial.
    #[inline(never)]
    fn miss(&mut self, process: u32, access: Access) -> Step
        requires slots { L.SLOTS ≡ 64 }
        requires wired { L.WIRED ≡ 8 }
        requires busy { IsBusy process self.old }
        requires served { is_served self.old.core ≡ true }
        requires left { has_left_user self.old.core ≡ true }
        requires told { told self.old.core.system
            (page_state self.old.monitor.grants self.old.bus.memory) process ≡ cause.Access access }
        ensures does { DoesStep result (held self.old) (held self.new) }
        ensures good { IsGood self.new }
    {
        self.show_busy_unit(process);
        let address = self.bad_address();
        match self.monitor.grants.table().decide(process, access, address) {
            Verdict::Allowed { .. } => self.late_copy(process),
            Verdict::Denied { rule, code } => {
                self.stop(process, denied_as(access.kind), address, rule, code)
            }
        }
    }

    /// The unit ends in a fault of its instruction.
    #[inline(never)]
    fn fault(&mut self, process: u32, code: u8) -> Step
        requires slots { L.SLOTS ≡ 64 }
        requires wired { L.WIRED ≡ 8 }
        requires busy { IsBusy process self.old }
        requires served { is_served self.old.core ≡ true }
        requires left { has_left_user self.old.core ≡ true }
        requires told { told self.old.core.system
            (page_state self.old.monitor.grants self.old.bus.memory) process ≡ cause.Fault code }
        ensures does { DoesStep result (held self.old) (held self.new) }
        ensures good { IsGood self.new }
    {
        let own = self.own_address();
        self.stop(process, Denied::Exec, own, Rule::I, u32::from(code))
    }

    /// The unit ends in the fault of a call in the slot of a branch.
    #[inline(never)]
    fn call_in_slot(&mut self, process: u32) -> Step
        requires slots { L.SLOTS ≡ 64 }
        requires wired { L.WIRED ≡ 8 }
        requires busy { IsBusy process self.old }
        requires served { is_served self.old.core ≡ true }
        requires left { has_left_user self.old.core ≡ true }
        requires told { told self.old.core.system
            (page_state self.old.monitor.grants self.old.bus.memory) process ≡ cause.Call }
        requires slot { is_delayed self.old.core.system ≡ true }
        ensures does { DoesStep result (held self.old) (held self.new) }
        ensures good { IsGood self.new }
    {
        let own = self.own_address();
        self.stop(process, Denied::Exec, own, Rule::I, CALL_IN_A_SLOT)
    }

    /// The unit is a call. It stands apart, so that other services need not save the registers that it
    /// uses.
    #[inline(never)]
    fn call_outside_slot(&mut self, process: u32) -> Step
        requires slots { L.SLOTS ≡ 64 }
        requires wired { L.WIRED ≡ 8 }
        requires busy { IsBusy process self.old }
        requires served { is_served self.old.core ≡ true }
        requires left { has_left_user self.old.core ≡ true }
        requires told { told self.old.core.system
            (page_state self.old.monitor.grants self.old.bus.memory) process ≡ cause.Call }
        requires slot { is_delayed self.old.core.system ≡ false }
        ensures does { DoesStep result (held self.old) (held self.new) }
        ensures good { IsGood self.new }
    {
        self.call(process)
    }

    /// The exception that waits: a miss of the refill handler's own, or what ended the unit's
    /// instruction.
    #[inline(never)]
    pub fn serve(&mut self, process: u32) -> Step
        requires slots { L.SLOTS ≡ 64 }
        requires wired { L.WIRED ≡ 8 }
        requires busy { IsBusy process self.old }
        requires served { is_served self.old.core ≡ true }
        ensures does { DoesStep result (held self.old) (held self.new) }
        ensures good { IsGood self.new }
    {
        if !self.has_left_user() {
            return self.double_miss(process);
        }
        self.show_busy_unit(process);
        match self.cause(process) {
            Cause::Access { access } => self.miss(process, access),
            Cause::Fault { code } => self.fault(process, code),
            Cause::Call => {
                if self.is_delayed() {
                    self.call_in_slot(process)
                } else {
                    self.call_outside_slot(process)
                }
            }
        }
    }
}
