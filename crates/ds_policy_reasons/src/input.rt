//! Why an input is refused.
ghost use Rattle.std.specs.Prelude.{◌≡◌, IfOk};
ghost use Rattle.ds_policy_reasons.specs.Reasons.{input_reason};

use ds_policy::{Events, InputReason, OutOfMemory, Policy, Unread};
use std::alloc::Global;

/// Why an input is refused by a policy, if it is.
pub fn input_reason(
    alloc: Global,
    policy: &Policy,
    text: &[u8],
) -> Result<Option<InputReason>, OutOfMemory>
    ensures { IfOk result (λ o. o ≡ input_reason policy.now.pages text.now) }
{
    match Events::read_or_reason(alloc, text, policy) {
        Ok(_) => Ok(None),
        Err(Unread::Reason(reason)) => Ok(Some(reason)),
        Err(Unread::Memory) => Err(OutOfMemory),
    }
}
