//! Why a policy is refused.
ghost use Rattle.std.specs.Prelude.{◌≡◌, IfOk};
ghost use Rattle.ds_policy_reasons.specs.Reasons.{policy_reason};

use ds_policy::{OutOfMemory, Policy, PolicyReason, Unread};
use std::alloc::Global;

/// Why a policy is refused, if it is.
pub fn policy_reason(alloc: Global, text: &[u8]) -> Result<Option<PolicyReason>, OutOfMemory>
    ensures { IfOk result (λ o. o ≡ policy_reason text.now) }
{
    match Policy::read_or_reason(alloc, text) {
        Ok(_) => Ok(None),
        Err(Unread::Reason(reason)) => Ok(Some(reason)),
        Err(Unread::Memory) => Err(OutOfMemory),
    }
}
