//! What is near a limit, as text.
ghost use Rattle.std.specs.Prelude.{◌≡◌, ◌≤◌, ◌+◌, ◌*◌, ◌++◌, OnOk, IfOk, length, nat_le, count_by, ◌==◌};
ghost use Rattle.ds_policy.specs.Grants.{count_distinct};
ghost use Rattle.ds_policy.specs.PolicyParts.{regions_of};
ghost use Rattle.ds_check.specs.Limits.{limits_text, of_all, of_processes, limits_of_process, limit_text, entries_in, near_limit_text};

use crate::counts::{count_entries, count_events};
use ds_policy::{OutOfMemory, Policy, PolicyRule, count_regions};
use ds_text::sheet::push_decimal;
use std::alloc::{AllocError, Global};

/// How many processes, rules, pages, frames and events a policy and an input have, and how many entries
/// and regions each process: each with its limit, and a mark where nine tenths of it are reached. Where
/// there is no input yet, it is empty.
pub fn limits_text(alloc: Global, policy: &Policy, input: &[u8]) -> Result<Vec<u8>, OutOfMemory>
    ensures { IfOk result (λ v. v.items ≡ limits_text policy.now input.now) }
{
    let mut sheet = Vec::new(alloc);
    push_limits(&mut sheet, policy, input)?;
    Ok(sheet)
}

/// Adds the counts of a policy and an input.
pub(crate) fn push_limits(
    sheet: &mut Vec<u8>,
    policy: &Policy,
    input: &[u8],
) -> Result<(), AllocError>
    ensures { OnOk result
        (sheet.new.items ≡ sheet.old.items ++ limits_text policy.now input.now) }
{
    push_all(sheet, policy, count_events(input))?;
    push_processes(sheet, policy.rules(), policy.processes().len())
}

fn push_all(sheet: &mut Vec<u8>, policy: &Policy, events: usize) -> Result<(), AllocError>
    ensures { OnOk result (sheet.new.items ≡ sheet.old.items ++ of_all policy.now events) }
{
    let pages = policy.pages().len();
    push_limit(sheet, b"processes ", policy.processes().len(), 100)?;
    push_limit(sheet, b"rules ", policy.rules().len(), 999)?;
    push_limit(sheet, b"pages ", pages, 1024)?;
    push_limit(sheet, b"frames ", pages, policy.frames() as usize)?;
    push_limit(sheet, b"events ", events, 4096)
}

/// Adds the counts of so many processes, of which the first is process 1.
fn push_processes(
    sheet: &mut Vec<u8>,
    rules: &[PolicyRule],
    processes: usize,
) -> Result<(), AllocError>
    requires { processes ≤ 100 }
    ensures { OnOk result (sheet.new.items ≡ sheet.old.items ++ of_processes rules.now processes) }
{
    for index in 0..processes {
        push_process(sheet, rules, index as u32 + 1)?;
    }
    Ok(())
}

fn push_process(sheet: &mut Vec<u8>, rules: &[PolicyRule], process: u32) -> Result<(), AllocError>
    ensures { OnOk result (sheet.new.items ≡ sheet.old.items ++ limits_of_process rules.now process) }
{
    sheet.extend_from_slice(b"process ")?;
    push_decimal(sheet, u64::from(process))?;
    sheet.extend_from_slice(b"\n")?;
    push_limit(sheet, b"  entries ", count_entries(rules, process), 256)?;
    push_limit(sheet, b"  regions ", count_regions(rules, process), 4)
}

/// Adds a count and its limit.
fn push_limit(
    sheet: &mut Vec<u8>,
    what: &[u8],
    count: usize,
    limit: usize,
) -> Result<(), AllocError>
    ensures { OnOk result (sheet.new.items ≡ sheet.old.items ++ limit_text what.now count limit) }
{
    sheet.extend_from_slice(what)?;
    push_decimal(sheet, count as u64)?;
    sheet.extend_from_slice(b" of ")?;
    push_decimal(sheet, limit as u64)?;
    sheet.extend_from_slice(near_word(count, limit))
}

/// Whether nine tenths of the limit are reached, and the end of the line.
fn near_word(count: usize, limit: usize) -> &'static [u8]
    ensures { result.now ≡ near_limit_text count limit }
{
    if is_near(count, limit) {
        b", near\n"
    } else {
        b"\n"
    }
}

fn is_near(count: usize, limit: usize) -> bool
    ensures { result ≡ nat_le (9 * limit) (10 * count) }
{
    limit - limit / 10 <= count
}
