//! All that is told of a policy and its input.
ghost use Rattle.std.specs.Prelude.{◌≡◌, ◌++◌, IfOk};
ghost use Rattle.ds_check.specs.Explained.{explained};

use crate::coming::push_events;
use crate::limits::push_limits;
use crate::permissions::push_first_table;
use ds_policy::{Events, OutOfMemory, Policy};
use std::alloc::Global;

/// A policy and an input explained: the permission table at the start, the counts with their limits,
/// and the events: those that were read of that input, and the ends of rights. Where there is no input
/// yet, it is empty.
pub fn explain(
    alloc: Global,
    policy: &Policy,
    input: &[u8],
    events: Events,
) -> Result<Vec<u8>, OutOfMemory>
    ensures { IfOk result (λ v. v.items ≡ explained policy.now input.now events) }
{
    let mut sheet = Vec::new(alloc);
    sheet.extend_from_slice(b"table\n")?;
    push_first_table(alloc, &mut sheet, policy)?;
    sheet.extend_from_slice(b"limits\n")?;
    push_limits(&mut sheet, policy, input)?;
    sheet.extend_from_slice(b"events\n")?;
    push_events(alloc, &mut sheet, policy, events)?;
    Ok(sheet)
}
