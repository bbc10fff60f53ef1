//! What comes during a run besides characters, by its time: ends of rights, and commands.
ghost use Rattle.std.specs.Prelude.{◌≡◌, ◌≤◌, IfOk, OnOk, length, map};
ghost use Rattle.std.specs.List.{prefix_len};
ghost use Rattle.ds_check.specs.Due.{comes_before, due_of, end_of, time_of, with_end, with_ends};
ghost use Rattle.ds_check.specs.declared.due.Due.TheVariants.{Command};

use ds_policy::{PolicyRule, TimedCommand};
use std::alloc::{AllocError, Global};

/// The end of the right that a rule gives.
#[derive(Clone, Copy, Debug, PartialEq, Eq)]
pub(crate) struct RuleEnd {
    /// In ticks.
    pub(crate) time: u64,
    /// The rule's number, from 1.
    pub(crate) rule: u32,
    pub(crate) process: u32,
    pub(crate) address: u32,
    pub(crate) page: Option<u32>,
}

/// What is done between two units of a run.
#[derive(Clone, Copy, Debug, PartialEq, Eq)]
pub(crate) enum Due {
    /// A right ends.
    End(RuleEnd),
    /// A command is carried out.
    Command(TimedCommand),
}

impl Due {
    /// In ticks.
    pub(crate) fn time(self) -> u64
        ensures { result ≡ time_of self }
    {
        match self {
            Due::End(end) => end.time,
            Due::Command(command) => command.time,
        }
    }
}

/// The commands of an input and the ends of these rules by their times: at one time the ends first, in
/// the order of their rules.
pub(crate) fn due_of(
    alloc: Global,
    rules: &[PolicyRule],
    commands: &[TimedCommand],
) -> Result<Vec<Due>, AllocError>
    requires { length rules.now ≤ 999 }
    ensures { IfOk result (λ v. v.items ≡ due_of rules.now commands.now) }
{
    let mut due = commands_of(alloc, commands)?;
    insert_ends(&mut due, rules)?;
    Ok(due)
}

fn commands_of(alloc: Global, commands: &[TimedCommand]) -> Result<Vec<Due>, AllocError>
    ensures { IfOk result (λ v. v.items ≡ map (λ k. Command k) commands.now) }
{
    let mut due = Vec::new(alloc);
    for command in commands {
        due.push(Due::Command(*command))?;
    }
    Ok(due)
}

/// Puts in the end of each rule that has one.
fn insert_ends(due: &mut Vec<Due>, rules: &[PolicyRule]) -> Result<(), AllocError>
    requires { length rules.now ≤ 999 }
    ensures { OnOk result (due.new.items ≡ with_ends 1 rules.now due.old.items) }
{
    for (index, rule) in rules.iter().enumerate() {
        insert_end(due, end_of(index as u32 + 1, rule))?;
    }
    Ok(())
}

/// The end of the rule of this number, if it has one.
fn end_of(number: u32, rule: &PolicyRule) -> Option<RuleEnd>
    ensures { result ≡ end_of number rule.now }
{
    match rule.until {
        Some(time) => Some(RuleEnd {
            time: u64::from(time),
            rule: number,
            process: rule.process,
            address: rule.address,
            page: rule.page,
        }),
        None => None,
    }
}

fn insert_end(due: &mut Vec<Due>, end: Option<RuleEnd>) -> Result<(), AllocError>
    ensures { OnOk result (due.new.items ≡ with_end end due.old.items) }
{
    let Some(end) = end else {
        return Ok(());
    };
    let place = count_before(due, end.time);
    due.insert(place, Due::End(end))?;
    Ok(())
}

/// How many come before an end of this time that is put in.
fn count_before(due: &[Due], time: u64) -> usize
    ensures exact { result ≡ prefix_len (comes_before time) due.now }
    ensures within { result ≤ length due.now }
{
    due.iter()
        .take_while(|other| comes_before(time, **other))
        .count()
}

/// Whether an end of this time comes after this.
fn comes_before(time: u64, other: Due) -> bool
    ensures { result ≡ comes_before time other }
{
    match other {
        Due::End(end) => end.time <= time,
        Due::Command(command) => command.time < time,
    }
}
