//! Other parts that hold the same.
ghost use Rattle.std.specs.Prelude.{◌≡◌, IfOk, IfErr};
ghost use Rattle.ds_kernel.specs.Inner.Parts.{held};
ghost use Rattle.ds_kernel.specs.Inner.Good.{IsGood};

use crate::halt::Halt;
use crate::parts::Parts;
use ds_tlb::Lookaside;
use std::alloc::AllocError;

impl<L: Lookaside> Parts<L> {
    /// Other parts that hold the same, with room for what a unit and the commands after it may write.
    /// Refused only where the host has no room for them.
    pub fn try_clone(&self) -> Result<Self, Halt>
        requires good { IsGood self.now }
        ensures held { IfOk result (λ parts. held parts ≡ held self.now) }
        ensures good { IfOk result IsGood }
        ensures refused { IfErr result (λ halt. halt ≡ Halt.Memory) }
    {
        let Ok(mut parts) = self.copied() else {
            return Err(Halt::Memory);
        };
        if !parts.reserve() {
            return Err(Halt::Memory);
        }
        Ok(parts)
    }

    /// Other parts that hold the same, without room.
    fn copied(&self) -> Result<Self, AllocError>
        ensures held { IfOk result (λ parts. held parts ≡ held self.now) }
        ensures next { IfOk result
            (λ parts. parts.monitor.quiet_until ≡ self.now.monitor.quiet_until) }
    {
        Ok(Parts {
            core: self.core.clone()?,
            bus: self.bus.clone()?,
            monitor: self.monitor.clone()?,
            failed: self.failed,
            spent: self.spent,
            wired: self.wired,
            written: self.written,
            refills: self.refills,
            since: self.since,
            tables: self.tables,
            services: self.services,
        })
    }
}
