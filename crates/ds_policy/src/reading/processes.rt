//! The processes of a policy, and its rate.
ghost use Rattle.std.specs.Prelude.{◌≡◌, ◌≤◌, length, option_map, IfOk};
ghost use Rattle.toml.specs.View.{view, items_view};
ghost use Rattle.ds_policy.specs.Inner.Refusal.{IsRead};
ghost use Rattle.ds_policy.specs.PolicyParts.{policy_process_of, rate_of};
ghost use Rattle.ds_policy.specs.PolicyText.{processes_from, processes_of};

use crate::cause::{PolicyReason, ProcessCause};
use crate::policy::PolicyProcess;
use crate::reading::document::{has_only, integer_at, items_between, number};
use crate::unread::Unread;
use std::alloc::Global;
use toml::Value;

/// The rate: 0 where there is none.
pub fn rate_of(found: Option<&Value>) -> Option<u32>
    ensures { result ≡ rate_of (option_map (λ v. view v.now) found.entry) }
{
    match found {
        None => Some(0),
        Some(value) => match number(value, 0, 0) {
            Some(_) => Some(0),
            None => number(value, 3, 15),
        },
    }
}

/// The processes, of which there are 1 to 100.
#[tactic(auto, unfolding(crate::specs::PolicyText::processes_of))]
pub fn processes_of(
    alloc: Global,
    found: Option<&Value>,
) -> Result<Vec<PolicyProcess>, Unread<PolicyReason>>
    ensures exact { IsRead (λ v. v.items) result
        (processes_of (option_map (λ v. view v.now) found.entry)) }
    ensures fits { IfOk result (λ v. length v.items ≤ 100) }
{
    match found {
        Some(value) => match items_between(value, 1, 100) {
            Some(values) => processes_in(alloc, values),
            None => Err(Unread::Reason(PolicyReason::ProcessCount)),
        },
        None => Err(Unread::Reason(PolicyReason::ProcessCount)),
    }
}

fn processes_in(alloc: Global, values: &[Value]) -> Result<Vec<PolicyProcess>, Unread<PolicyReason>>
    requires { length values.now ≤ 100 }
    ensures exact { IsRead (λ v. v.items) result (processes_from (items_view values.now)) }
    ensures fits { IfOk result (λ v. length v.items ≤ length values.now) }
{
    let mut processes = Vec::new(alloc);
    for value in values {
        match policy_process_of(value) {
            Ok(process) => processes.push(process)?,
            Err(cause) => {
                return Err(Unread::Reason(PolicyReason::Process {
                    number: processes.len() as u32 + 1,
                    cause,
                }));
            }
        }
    }
    Ok(processes)
}

#[tactic(auto, unfolding(crate::specs::PolicyParts::policy_process_of))]
fn policy_process_of(value: &Value) -> Result<PolicyProcess, ProcessCause>
    ensures { result ≡ policy_process_of (view value.now) }
{
    let table = value.as_table().ok_or(ProcessCause::NotTable)?;
    if !has_only(table, &["start", "line"]) {
        return Err(ProcessCause::OtherKey);
    }
    let start = integer_at(table, "start", 0, u32::MAX).ok_or(ProcessCause::BadStart)?;
    let line = integer_at(table, "line", 0, 3).ok_or(ProcessCause::BadLine)?;
    Ok(PolicyProcess {
        start,
        line: line as u8,
    })
}
