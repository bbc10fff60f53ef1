//! Laws of the processor. Each is the contract of a function that does nothing.
ghost use Rattle.std.specs.Prelude.{◌≡◌, false};
ghost use Rattle.ds_isa.specs.Instruction.{instruction_of};
ghost use Rattle.ds_isa.specs.Registers.{read, written};
ghost use Rattle.ds_dev.specs.Bus.{BusState};
ghost use Rattle.ds_core.specs.Core.{CoreState, at_next};
ghost use Rattle.ds_core.specs.Inner.Core.{is_raised};
ghost use Rattle.ds_core.specs.Coprocessor.{is_coprocessor_usable};
ghost use Rattle.ds_core.specs.Effect.{executed, step};

use crate::Core;
use ds_tlb::Lookaside;

/// Register 0 reads 0, whatever a caller put into the processor. So `addu $4, $0, $0` writes 0.
pub fn register_0_reads_0<L: Lookaside>(core: &Core<L>)
    ensures reads { read core.now.registers 0 ≡ 0 }
    ensures sum { (b : BusState)
        → executed core.now b (instruction_of 0x00002021)
        ≡ at_next core.now b (written core.now.registers 4 0) }
{
    // A field is looked at, so that what is true of every processor is known.
    let _pc = core.pc;
}

/// Where coprocessor 0 may not be used, as by a user, a calm step leaves its registers alone.
#[tactic(auto, using(crate::proofs::Users::keeps_system))]
pub fn a_user_keeps_the_coprocessor()
    ensures { (c : CoreState) (b : BusState)
        → is_coprocessor_usable c 0 ≡ false → is_raised (step c b).event ≡ false
        → (step c b).core.system ≡ c.system }
{}

/// The same for the entries of the translation buffer.
#[tactic(auto, using(crate::proofs::Users::keeps_entries))]
pub fn a_user_keeps_the_entries()
    ensures { (c : CoreState) (b : BusState)
        → is_coprocessor_usable c 0 ≡ false → is_raised (step c b).event ≡ false
        → (step c b).core.entries ≡ c.entries }
{}
