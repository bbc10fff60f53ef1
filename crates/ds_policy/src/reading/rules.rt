//! The rules of a policy.
ghost use Rattle.std.specs.Prelude.{◌≡◌, ◌≤◌, ◌==◌, ◌+◌, ◌&&◌, ◌∷◌, ◌++◌, [], List, length, option_map, count_by, nat_le, IfOk, OnOk};
ghost use Rattle.std.specs.List.{list_any};
ghost use Rattle.toml.specs.View.{view, table_view, items_view};
ghost use Rattle.ds_policy.specs.Inner.Refusal.{IsRead};
ghost use Rattle.ds_policy.specs.Grants.{region, count_distinct};
ghost use Rattle.ds_policy.specs.PolicyParts.{right_named, flag_of, until_of, may_end, nothing_of, grant_of, rule_of, has_same_place, beside, new_rule, regions_of};
ghost use Rattle.ds_policy.specs.PolicyText.{rules_from, rules_of};
ghost use Rattle.ds_policy.specs.Inner.OwnRules.{AreByProcess};
ghost use Rattle.ds_policy.specs.declared.policy.PolicyRule.{PolicyRule};

use crate::cause::{PolicyReason, RuleCause};
use crate::grant::Right;
use crate::names::NamedPages;
use crate::policy::{PolicyPage, PolicyRule};
use crate::reading::document::{has_only, integer_at, items_between, number, text_at, value_at};
use crate::reading::own::{OwnRules, no_rules};
use crate::unread::Unread;
use ds_text::words;
use std::alloc::{AllocError, Global};
use toml::{Table, Value};

/// The rules, of which there are at most 999.
#[tactic(auto, unfolding(crate::specs::PolicyText::rules_of, crate::specs::PolicyText::each_of))]
pub fn rules_of(
    alloc: Global,
    version: u32,
    processes: u32,
    pages: &[PolicyPage],
    found: Option<&Value>,
) -> Result<Vec<PolicyRule>, Unread<PolicyReason>>
    requires { length pages.now ≤ 1024 }
    ensures { IsRead (λ v. v.items) result
        (rules_of version processes pages.now (option_map (λ v. view v.now) found.entry)) }
{
    match found {
        Some(value) => match items_between(value, 0, 999) {
            Some(values) => {
                let pages = NamedPages::of(alloc, pages)?;
                rules_in(alloc, version, processes, &pages, values)
            }
            None => Err(Unread::Reason(PolicyReason::RuleCount)),
        },
        None => Ok(Vec::new(alloc)),
    }
}

fn rules_in(
    alloc: Global,
    version: u32,
    processes: u32,
    pages: &NamedPages<'_>,
    values: &[Value],
) -> Result<Vec<PolicyRule>, Unread<PolicyReason>>
    requires pages_fit { length pages.now ≤ 1024 }
    requires values_fit { length values.now ≤ 999 }
    ensures { IsRead (λ v. v.items) result
        (rules_from version processes pages.now (items_view values.now)) }
{
    let mut rules = Vec::new(alloc);
    let mut owns = no_rules(alloc, processes as usize)?;
    for value in values {
        match new_rule(version, processes, pages, &owns, value) {
            Ok(rule) => {
                add_to(&mut owns, rule)?;
                rules.push(rule)?;
            }
            Err(cause) => {
                return Err(Unread::Reason(PolicyReason::Rule {
                    number: rules.len() as u32 + 1,
                    cause,
                }));
            }
        }
    }
    Ok(rules)
}

/// Adds a rule to those of its process.
#[tactic(auto, using(crate::proofs::OwnRules::by_process_more))]
fn add_to(owns: &mut Vec<OwnRules>, rule: PolicyRule) -> Result<(), AllocError>
    requires low { 1 ≤ rule.process }
    requires high { rule.process ≤ length owns.old.items }
    ensures added { OnOk result ((rules : List PolicyRule) → AreByProcess owns.old.items rules
        → AreByProcess owns.new.items (rules ++ rule ∷ [])) }
    ensures same { length owns.new.items ≡ length owns.old.items }
{
    owns[rule.process as usize - 1].push(rule)?;
    Ok(())
}

/// The rule that a value is, beside those of its process.
#[tactic(auto, unfolding(crate::specs::PolicyParts::new_rule))]
fn new_rule(
    version: u32,
    processes: u32,
    pages: &NamedPages<'_>,
    owns: &[OwnRules],
    value: &Value,
) -> Result<PolicyRule, RuleCause>
    requires pages_fit { length pages.now ≤ 1024 }
    requires each { length owns.now ≡ processes }
    ensures exact { (before : List PolicyRule) → AreByProcess owns.now before
        → result ≡ new_rule version processes pages.now before (view value.now) }
    ensures within { IfOk result (λ r. (1 ≤ r.process) × (r.process ≤ processes)) }
{
    let rule = rule_of(version, processes, pages, value)?;
    beside(owns[rule.process as usize - 1].rules(), rule)
}

/// A rule, where there may be one more of its process beside those that it has.
#[tactic(auto, unfolding(crate::specs::PolicyParts::beside))]
fn beside(own: &[PolicyRule], rule: PolicyRule) -> Result<PolicyRule, RuleCause>
    ensures exact { result ≡ beside own.now rule }
    ensures same { IfOk result (λ r. r ≡ rule) }
{
    if is_taken(own, &rule) {
        return Err(RuleCause::SamePlace);
    }
    if count_of(own, rule.process) >= 256 {
        return Err(RuleCause::TooManyRules);
    }
    if !fits_regions(own, rule.process, rule.address) {
        return Err(RuleCause::FifthRegion);
    }
    Ok(rule)
}

#[tactic(auto, unfolding(crate::specs::PolicyParts::rule_of))]
fn rule_of(
    version: u32,
    processes: u32,
    pages: &NamedPages<'_>,
    value: &Value,
) -> Result<PolicyRule, RuleCause>
    requires { length pages.now ≤ 1024 }
    ensures exact { result ≡ rule_of version processes pages.now (view value.now) }
    ensures within { IfOk result (λ r. (1 ≤ r.process) × (r.process ≤ processes)) }
{
    let table = value.as_table().ok_or(RuleCause::NotTable)?;
    if !has_only(
        table,
        &["process", "address", "right", "page", "give", "until"],
    ) {
        return Err(RuleCause::OtherKey);
    }
    if !may_end(version, table) {
        return Err(RuleCause::UntilOfVersion1);
    }
    let process = integer_at(table, "process", 1, processes).ok_or(RuleCause::BadProcess)?;
    let address = integer_at(table, "address", 0, 0x7FFF_FFFF).ok_or(RuleCause::BadAddress)?;
    if address % 4096 != 0 {
        return Err(RuleCause::BadAddress);
    }
    let right = text_at(table, "right").ok_or(RuleCause::BadRight)?;
    let right = right_named(right).ok_or(RuleCause::BadRight)?;
    let (page, give, until) = grant_of(pages, right, table)?;
    Ok(PolicyRule {
        process,
        address,
        right,
        page,
        give,
        until,
    })
}

/// Whether a rule of this version may have an end, or has none.
fn may_end(version: u32, table: &Table) -> bool
    ensures { result ≡ may_end version (table_view table.now) }
{
    match value_at(table, "until") {
        Some(_) => version == 2,
        None => true,
    }
}

fn right_named(text: &str) -> Option<Right>
    ensures { result ≡ right_named text.now }
{
    if text == words::NONE {
        Some(Right::Nothing)
    } else if text == words::READ {
        Some(Right::Read)
    } else if text == words::WRITE {
        Some(Right::Write)
    } else {
        None
    }
}

#[tactic(auto, unfolding(crate::specs::PolicyParts::grant_of))]
fn grant_of(
    pages: &NamedPages<'_>,
    right: Right,
    table: &Table,
) -> Result<(Option<u32>, bool, Option<u32>), RuleCause>
    requires { length pages.now ≤ 1024 }
    ensures { result ≡ grant_of pages.now right (table_view table.now) }
{
    match right {
        Right::Nothing => nothing_of(table),
        Right::Read | Right::Write => {
            let name = text_at(table, "page").ok_or(RuleCause::BadPage)?;
            let page = pages
                .number_named(name.as_bytes())
                .ok_or(RuleCause::BadPage)?;
            let give = flag_of(value_at(table, "give")).ok_or(RuleCause::BadGive)?;
            let until = until_of(value_at(table, "until")).ok_or(RuleCause::BadUntil)?;
            Ok((Some(page as u32), give, until))
        }
    }
}

/// What a rule without a right grants, beside which nothing stands.
fn nothing_of(table: &Table) -> Result<(Option<u32>, bool, Option<u32>), RuleCause>
    ensures { result ≡ nothing_of (table_view table.now) }
{
    if has_only(table, &["process", "address", "right"]) {
        Ok((None, false, None))
    } else if has_only(table, &["process", "address", "right", "until"]) {
        Err(RuleCause::UntilOfNone)
    } else {
        Err(RuleCause::PageOfNone)
    }
}

/// The end of a right, which may be absent.
fn until_of(found: Option<&Value>) -> Option<Option<u32>>
    ensures { result ≡ until_of (option_map (λ v. view v.now) found.entry) }
{
    match found {
        None => Some(None),
        Some(value) => Some(Some(number(value, 1, 1_000_000_000)?)),
    }
}

fn flag_of(found: Option<&Value>) -> Option<bool>
    ensures { result ≡ flag_of (option_map (λ v. view v.now) found.entry) }
{
    match found {
        None => Some(false),
        Some(value) => value.as_bool(),
    }
}

fn is_taken(rules: &[PolicyRule], rule: &PolicyRule) -> bool
    ensures { result ≡ list_any (λ r. has_same_place r rule.now) rules.now }
{
    rules
        .iter()
        .any(|r| r.process == rule.process && r.address == rule.address)
}

fn count_of(rules: &[PolicyRule], process: u32) -> usize
    ensures { result ≡ count_by (λ r. r.process == process) rules.now }
{
    rules.iter().filter(|rule| rule.process == process).count()
}

/// Whether a rule at this address leaves its process within four regions.
fn fits_regions(rules: &[PolicyRule], process: u32, address: u32) -> bool
    ensures { result ≡ nat_le (count_distinct (region address ∷ regions_of process rules.now)) 4 }
{
    let regions = count_regions(rules, process);
    if has_region(rules, process, address / 4_194_304) {
        regions <= 4
    } else {
        regions < 4
    }
}

/// In how many regions the rules of a process are.
pub fn count_regions(rules: &[PolicyRule], process: u32) -> usize
    ensures exact { result ≡ count_distinct (regions_of process rules.now) }
    ensures fits { result ≤ length rules.now }
{
    let mut count = 0;
    let mut left = rules;
    while let [first, rest @ ..] = left {
        count += new_regions(first, rest, process);
        left = rest;
    }
    count
}

/// 1 where a rule of the process is in a region that none of the rest is in.
fn new_regions(rule: &PolicyRule, rest: &[PolicyRule], process: u32) -> usize
    ensures exact { result + count_distinct (regions_of process rest.now)
        ≡ count_distinct (regions_of process (rule.now ∷ rest.now)) }
    ensures few { result ≤ 1 }
{
    if rule.process == process && !has_region(rest, process, rule.address / 4_194_304) {
        1
    } else {
        0
    }
}

fn has_region(rules: &[PolicyRule], process: u32, number: u32) -> bool
    ensures { result ≡ list_any (λ b. b == number) (regions_of process rules.now) }
{
    any_in(rules, process, number)
}

fn any_in(rules: &[PolicyRule], process: u32, number: u32) -> bool
    ensures { result
        ≡ list_any (λ r. r.process == process && region r.address == number) rules.now }
{
    rules.iter().any(|rule| rule.process == process && rule.address / 4_194_304 == number)
}
