//! The processor's mode: whether the monitor is to serve, and from which mode an exception came.
ghost use Rattle.std.specs.Prelude.{◌≡◌};
ghost use Rattle.ds_cp0.specs.System.{is_user};
ghost use Rattle.ds_refinement.specs.Units.{is_served, has_left_user};

use crate::parts::Parts;
use ds_cp0::register;
use ds_tlb::Lookaside;

/// The vector of all exceptions but the misses of a user's pages, which go to the refill handler.
const GENERAL_VECTOR: u32 = 0x8000_0080;

impl<L: Lookaside> Parts<L> {
    /// Whether the processor is in user mode.
    #[inline(always)]
    pub(crate) fn is_user(&self) -> bool
        ensures { result ≡ is_user self.now.core.system }
    {
        self.core.cp0.user()
    }

    /// Whether the monitor is to serve: the processor is in kernel mode at the general vector.
    #[inline(always)]
    pub(crate) fn is_served(&self) -> bool
        ensures { result ≡ is_served self.now.core }
    {
        !self.core.cp0.user() && self.core.pc == GENERAL_VECTOR
    }

    /// Whether the exception came from user mode: bit 3 of Status is the mode that was left.
    #[inline(always)]
    pub(crate) fn has_left_user(&self) -> bool
        ensures { result ≡ has_left_user self.now.core }
    {
        (self.core.cp0.read(register::STATUS) >> 3) & 1 == 1
    }
}
