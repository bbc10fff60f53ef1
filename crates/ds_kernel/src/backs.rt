//! The unit goes on: the processor is back in user mode at the unit's address.
ghost use Rattle.std.specs.Prelude.{◌≡◌};
ghost use Rattle.ds_refinement.specs.Inner.Services.{at_unit, touched_registers};

use crate::parts::Parts;
use crate::seats::USER_STATUS;
use ds_cp0::register;
use ds_tlb::Lookaside;
use ds_word::wrapping_sum;

impl<L: Lookaside> Parts<L> {
    /// The processor is back in user mode, at the unit's address.
    pub(crate) fn return_to(&mut self, unit: u32)
        ensures { self.new ≡ record self.old { core = at_unit self.old.core unit } }
    {
        self.core.pc = unit;
        self.core.next = wrapping_sum(unit, 4);
        self.core.slot = false;
        self.core.cp0.write(register::STATUS, USER_STATUS);
    }

    /// The unit begins again; a late load is done, and registers 26 and 27 are lost to the refill.
    pub(crate) fn go_back(&mut self)
        ensures { self.new ≡ record self.old {
          core = record (at_unit self.old.core self.old.core.system.epc) {
            registers = touched_registers self.old.core.registers self.old.core.system.epc;
          };
        } }
    {
        let unit = self.unit_address();
        self.core.registers[26] = 0;
        self.core.registers[27] = unit;
        self.core.late = None;
        self.return_to(unit);
    }
}
