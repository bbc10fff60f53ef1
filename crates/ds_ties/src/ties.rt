//! What ties a process to the others.
ghost use Rattle.std.specs.Prelude.{◌≡◌, ◌≤◌, ◌<◌, length};
ghost use Rattle.ds_policy.specs.Pages.{names, entries_of};
ghost use Rattle.ds_policy.specs.Grants.{is_some_right};
ghost use Rattle.ds_pagemap.specs.Laws.{process_named};
ghost use Rattle.ds_alone.specs.Tests.{is_lasting, have_page, is_page_of, is_elsewhere, grants_elsewhere, leaves_alone, lets_give};
ghost use Rattle.ds_ties.specs.Ties.{ending_rule, shared_rule, shared_with, shared_among, giving_rule, giving_among, tie_by, commanded_tie, letting_command, tie_of};

use ds_policy::{Command, Entry, Grant, Right, Table, TimedCommand};

/// What ties a process to the others. Rules and commands count from 1.
#[derive(Clone, Copy, Debug, PartialEq, Eq)]
pub enum Tie {
    /// Its right by this rule has an end.
    Ends(u32),
    /// By this rule another process has a page of its own.
    Shares(u32),
    /// This command is about it.
    Names(u32),
    /// This command grants a page of its own.
    Grants(u32),
    /// By this rule a process may give a page on.
    MayGive(u32),
    /// By this command a process may give a page on.
    LetsGive(u32),
}

/// What ties a process to the others at the start, by this table and the commands that are to come; the
/// first in the order of `Tie`, with its first rule or command.
pub fn tie_of(table: &Table, commands: &[TimedCommand], process: u32) -> Option<Tie>
    requires low { 0 < process }
    requires high { process ≤ length table.now }
    requires few { length table.now ≤ 100 }
    ensures { result ≡ tie_of table.now commands.now process }
{
    let mine = table.entries(process);
    if let Some(rule) = ending_rule(mine) {
        return Some(Tie::Ends(rule));
    }
    if let Some(rule) = shared_among(table, process) {
        return Some(Tie::Shares(rule));
    }
    if let Some(tie) = commanded_tie(table, process, commands) {
        return Some(tie);
    }
    if let Some(rule) = giving_among(table) {
        return Some(Tie::MayGive(rule));
    }
    match letting_command(commands) {
        Some(command) => Some(Tie::LetsGive(command)),
        None => None,
    }
}

fn ending_rule(entries: &[Entry]) -> Option<u32>
    ensures { result ≡ ending_rule entries.now }
{
    for entry in entries {
        if !is_lasting(entry.grant) {
            return Some(entry.grant.rule);
        }
    }
    None
}

/// Whether a grant is the operator's, and has no end.
fn is_lasting(grant: Grant) -> bool
    ensures { result ≡ is_lasting grant }
{
    grant.giver == 0 && grant.parent.is_none() && grant.until.is_none()
}

/// The first rule by which another process has a page of this one's.
fn shared_among(table: &Table, process: u32) -> Option<u32>
    requires low { 0 < process }
    requires high { process ≤ length table.now }
    requires few { length table.now ≤ 100 }
    ensures { result ≡ shared_among (entries_of table.now process) process 1 table.now }
{
    let mine = table.entries(process);
    for index in 0..table.processes() {
        let other = index as u32 + 1;
        if let Some(rule) = shared_with(mine, process, other, table.entries(other)) {
            return Some(rule);
        }
    }
    None
}

/// The same, of these entries of a process, where that is another.
fn shared_with(mine: &[Entry], process: u32, other: u32, entries: &[Entry]) -> Option<u32>
    ensures { result ≡ shared_with mine.now process other entries.now }
{
    if other == process {
        None
    } else {
        shared_rule(mine, entries)
    }
}

fn shared_rule(mine: &[Entry], entries: &[Entry]) -> Option<u32>
    ensures { result ≡ shared_rule mine.now entries.now }
{
    for entry in entries {
        if !is_elsewhere(mine, entry.grant) {
            return Some(entry.grant.rule);
        }
    }
    None
}

/// Whether a grant gives no right to a page of these entries.
fn is_elsewhere(mine: &[Entry], grant: Grant) -> bool
    ensures { result ≡ is_elsewhere mine.now grant }
{
    !(is_some_right(grant.right) && is_page_of(mine, grant.page))
}

fn is_some_right(right: Right) -> bool
    ensures { result ≡ is_some_right right }
{
    !matches!(right, Right::Nothing)
}

fn is_page_of(mine: &[Entry], page: Option<u32>) -> bool
    ensures { result ≡ is_page_of mine.now page }
{
    match page {
        Some(page) => have_page(mine, page),
        None => false,
    }
}

/// Whether one of these entries has a right to the page.
fn have_page(mine: &[Entry], page: u32) -> bool
    ensures { result ≡ have_page mine.now page }
{
    mine.iter().any(|e| is_some_right(e.grant.right) && e.grant.page == Some(page))
}

fn commanded_tie(table: &Table, process: u32, commands: &[TimedCommand]) -> Option<Tie>
    requires low { 0 < process }
    requires high { process ≤ length table.now }
    ensures { result ≡ commanded_tie table.now process commands.now }
{
    for command in commands {
        if !leaves_alone(table, process, command.command) {
            return Some(tie_by(process, *command));
        }
    }
    None
}

/// Whether a command is about another process, and grants no page of this one's.
fn leaves_alone(table: &Table, process: u32, command: Command) -> bool
    requires low { 0 < process }
    requires high { process ≤ length table.now }
    ensures { result ≡ leaves_alone table.now process command }
{
    process_named(command) != process && grants_elsewhere(table.entries(process), command)
}

/// The process that a command is about.
fn process_named(command: Command) -> u32
    ensures { result ≡ process_named command }
{
    match command {
        Command::Grant { process, .. }
        | Command::Narrow { process, .. }
        | Command::Revoke { process, .. }
        | Command::Drop { process, .. }
        | Command::Resume { process }
        | Command::Stop { process } => process,
    }
}

fn grants_elsewhere(mine: &[Entry], command: Command) -> bool
    ensures { result ≡ grants_elsewhere mine.now command }
{
    match command {
        Command::Grant { page, .. } => !have_page(mine, page),
        _ => true,
    }
}

fn tie_by(process: u32, command: TimedCommand) -> Tie
    ensures { result ≡ tie_by process command }
{
    if process_named(command.command) == process {
        Tie::Names(command.number)
    } else {
        Tie::Grants(command.number)
    }
}

/// The first rule by which a process may give a page on.
fn giving_among(table: &Table) -> Option<u32>
    requires { length table.now ≤ 100 }
    ensures { result ≡ giving_among table.now }
{
    for index in 0..table.processes() {
        if let Some(rule) = giving_rule(table.entries(index as u32 + 1)) {
            return Some(rule);
        }
    }
    None
}

fn giving_rule(entries: &[Entry]) -> Option<u32>
    ensures { result ≡ giving_rule entries.now }
{
    for entry in entries {
        if entry.grant.give {
            return Some(entry.grant.rule);
        }
    }
    None
}

fn letting_command(commands: &[TimedCommand]) -> Option<u32>
    ensures { result ≡ letting_command commands.now }
{
    for command in commands {
        if lets_give(command.command) {
            return Some(command.number);
        }
    }
    None
}

fn lets_give(command: Command) -> bool
    ensures { result ≡ lets_give command }
{
    match command {
        Command::Grant { give, .. } => give,
        _ => false,
    }
}
