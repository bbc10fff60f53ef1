//! The pages of a policy.
ghost use Rattle.std.specs.Prelude.{◌≡◌, ◌≤◌, List, length, option_map, IfOk, None};
ghost use Rattle.std.specs.Result.{result_map_both};
ghost use Rattle.std.specs.List.{list_all};
ghost use Rattle.toml.specs.View.{view, table_view, items_view};
ghost use Rattle.ds_policy.specs.Inner.Refusal.{IsRead};
ghost use Rattle.ds_policy.specs.PolicyParts.{is_page_name, is_name_byte, is_source_name, is_source_byte, source_of, page_of, new_page};
ghost use Rattle.ds_policy.specs.PolicyText.{pages_from, pages_of};
ghost use Rattle.ds_policy.specs.Inner.Names.{held_number, AreNamed};
ghost use Rattle.ds_policy.specs.declared.policy.PolicyPage.{PolicyPage};

use crate::cause::{PageCause, PolicyReason};
use crate::names::Names;
use crate::policy::{PolicyPage, Source};
use crate::reading::document::{has_only, integer_at, items_between, text_at};
use crate::text::Text;
use crate::unread::Unread;
use std::alloc::Global;
use toml::{Table, Value};

/// The pages, of which there are no more than frames.
#[tactic(auto, unfolding(crate::specs::PolicyText::pages_of, crate::specs::PolicyText::each_of))]
pub fn pages_of(
    alloc: Global,
    frames: u32,
    found: Option<&Value>,
) -> Result<Vec<PolicyPage>, Unread<PolicyReason>>
    ensures exact { IsRead (λ v. v.items) result
        (pages_of frames (option_map (λ v. view v.now) found.entry)) }
    ensures fits { IfOk result (λ v. length v.items ≤ frames) }
{
    match found {
        Some(value) => match items_between(value, 0, frames as usize) {
            Some(values) => pages_in(alloc, values),
            None => Err(Unread::Reason(PolicyReason::PageCount)),
        },
        None => Ok(Vec::new(alloc)),
    }
}

fn pages_in(alloc: Global, values: &[Value]) -> Result<Vec<PolicyPage>, Unread<PolicyReason>>
    requires { length values.now ≤ 4294967295 }
    ensures exact { IsRead (λ v. v.items) result (pages_from (items_view values.now)) }
    ensures fits { IfOk result (λ v. length v.items ≤ length values.now) }
{
    let mut pages = Vec::new(alloc);
    let mut names = Names::new(alloc);
    for value in values {
        let number = pages.len();
        match new_page(&names, value) {
            Ok((name, page)) => {
                names.insert(name, number)?;
                pages.push(page)?;
            }
            Err(cause) => {
                return Err(Unread::Reason(PolicyReason::Page {
                    number: number as u32 + 1,
                    cause,
                }));
            }
        }
    }
    Ok(pages)
}

/// A page whose name none has, and its name.
#[tactic(auto, unfolding(crate::specs::PolicyParts::new_page))]
fn new_page<'a>(names: &Names<'a>, value: &'a Value) -> Result<(&'a [u8], PolicyPage), PageCause>
    ensures page { (before : List PolicyPage) → AreNamed names.now before
        → result_map_both (λ p. p.1) (λ e. e) result ≡ new_page before (view value.now) }
    ensures name { IfOk result (λ p. p.0.now ≡ p.1.name) }
    ensures absent { IfOk result (λ p. held_number names.now p.0.now ≡ None) }
{
    let found = page_of(value)?;
    if names.number_named(found.0).is_some() {
        return Err(PageCause::SameName);
    }
    Ok(found)
}

#[tactic(auto, unfolding(crate::specs::PolicyParts::page_of))]
fn page_of(value: &Value) -> Result<(&[u8], PolicyPage), PageCause>
    ensures page { result_map_both (λ p. p.1) (λ e. e) result ≡ page_of (view value.now) }
    ensures name { IfOk result (λ p. p.0.now ≡ p.1.name) }
{
    let table = value.as_table().ok_or(PageCause::NotTable)?;
    if !has_only(table, &["name", "source", "part"]) {
        return Err(PageCause::OtherKey);
    }
    let name = text_at(table, "name").ok_or(PageCause::BadName)?;
    if !is_page_name(name) {
        return Err(PageCause::BadName);
    }
    let source = source_of(table)?;
    Ok((
        name.as_bytes(),
        PolicyPage {
            name: Text::of(name),
            source,
        },
    ))
}

#[tactic(auto, unfolding(crate::specs::PolicyParts::source_of))]
fn source_of(table: &Table) -> Result<Option<Source>, PageCause>
    ensures { result ≡ source_of (table_view table.now) }
{
    if has_only(table, &["name"]) {
        return Ok(None);
    }
    let name = text_at(table, "source").ok_or(PageCause::BadSource)?;
    if !is_source_name(name) {
        return Err(PageCause::BadSource);
    }
    let part = integer_at(table, "part", 0, 15).ok_or(PageCause::BadPart)?;
    Ok(Some(Source {
        name: Text::of(name),
        part: part as u8,
    }))
}

fn is_page_name(text: &str) -> bool
    ensures { result ≡ is_page_name text.now }
{
    text.len() >= 1 && text.len() <= 16 && has_name_bytes(text.as_bytes())
}

fn has_name_bytes(text: &[u8]) -> bool
    ensures { result ≡ list_all is_name_byte text.now }
{
    text.iter()
        .all(|b| (97 <= *b && *b <= 122) || (48 <= *b && *b <= 57))
}

fn is_source_name(text: &str) -> bool
    ensures { result ≡ is_source_name text.now }
{
    text.len() >= 1 && text.len() <= 64 && has_source_bytes(text.as_bytes())
}

fn has_source_bytes(text: &[u8]) -> bool
    ensures { result ≡ list_all is_source_byte text.now }
{
    text.iter().all(|b| {
        (97 <= *b && *b <= 122) || (65 <= *b && *b <= 90) || (45 <= *b && *b <= 57) || *b == 95
    })
}
