//! Look-ups in a TOML document.
ghost use Rattle.std.specs.Prelude.{◌≡◌, ◌≤◌, option_map, map, length, string_bytes, bytes_eq, IfSome};
ghost use Rattle.std.specs.List.{list_all, list_any};
ghost use Rattle.std.specs.BTreeMap.{keys};
ghost use Rattle.toml.specs.Data.{get_member};
ghost use Rattle.toml.specs.View.{view, table_view, items_view};
ghost use Rattle.ds_policy.specs.Refusal.{or_else};
ghost use Rattle.ds_policy.specs.Inner.Refusal.{IsRead};
ghost use Rattle.ds_policy.specs.declared.cause.PolicyReason.TheVariants.{NotToml};
ghost use Rattle.ds_policy.specs.Document.{document, number_in, number_at, text_at, is_among, has_only, item_count, items_between};

use crate::cause::PolicyReason;
use crate::unread::Unread;
use std::alloc::Global;
use toml::{Table, Value};

/// The root table of a text.
pub fn root(alloc: Global, text: &[u8]) -> Result<Table, Unread<PolicyReason>>
    ensures { IsRead (λ t. table_view t) result (or_else (document text.now) NotToml) }
{
    match toml::table_from_slice(alloc, text) {
        Ok(table) => Ok(table),
        Err(e) => {
            if e.is_memory() {
                Err(Unread::Memory)
            } else {
                Err(Unread::Reason(PolicyReason::NotToml))
            }
        }
    }
}

/// Whether each key of the table is one of these.
pub fn has_only(table: &Table, allowed: &[&str]) -> bool
    ensures { result ≡ has_only (map (λ x. x.now) allowed.now) (table_view table.now) }
{
    all_are(table, allowed)
}

fn all_are(table: &Table, allowed: &[&str]) -> bool
    ensures { result
        ≡ list_all (λ k. is_among (map (λ x. x.now) allowed.now) (string_bytes k))
        (keys table.now) }
{
    table.keys().all(|key| is_among(allowed, key.as_str()))
}

fn is_among(texts: &[&str], text: &str) -> bool
    ensures { result ≡ is_among (map (λ x. x.now) texts.now) text.now }
{
    any_is(texts, text)
}

fn any_is(texts: &[&str], text: &str) -> bool
    ensures { result ≡ list_any (λ x. bytes_eq x.now text.now) texts.now }
{
    texts.iter().any(|x| *x == text)
}

/// The value at a key.
pub fn value_at<'a>(table: &'a Table, key: &str) -> Option<&'a Value>
    ensures { option_map (λ v. view v.now) result ≡ get_member key.now (table_view table.now) }
{
    table.get(key)
}

/// The text at a key.
pub fn text_at<'a>(table: &'a Table, key: &str) -> Option<&'a str>
    ensures { option_map (λ s. s.now) result ≡ text_at key.now (table_view table.now) }
{
    value_at(table, key)?.as_str()
}

/// The integer at a key, if there is one from `low` to `high`.
pub fn integer_at(table: &Table, key: &str, low: u32, high: u32) -> Option<u32>
    ensures exact { result ≡ number_at key.now low high (table_view table.now) }
    ensures within { IfSome result (λ n. (low ≤ n) × (n ≤ high)) }
{
    number(value_at(table, key)?, low, high)
}

/// The integer that a value is, if it is one from `low` to `high`.
pub fn number(value: &Value, low: u32, high: u32) -> Option<u32>
    ensures exact { result ≡ number_in low high (view value.now) }
    ensures within { IfSome result (λ n. (low ≤ n) × (n ≤ high)) }
{
    match u32::try_from(value.as_integer()?) {
        Ok(n) => { if low <= n && n <= high { Some(n) } else { None } }
        Err(_) => None,
    }
}

/// The number that a key has to have.
pub fn required(found: Option<u32>, reason: PolicyReason) -> Result<u32, Unread<PolicyReason>>
    ensures { IsRead (λ n. n) result (or_else found reason) }
{
    match found {
        Some(n) => Ok(n),
        None => Err(Unread::Reason(reason)),
    }
}

/// The items of an array of at least `low` and at most `high` items.
#[tactic(auto, using(crate::proofs::Documents::item_count_view))]
pub fn items_between(value: &Value, low: usize, high: usize) -> Option<&[Value]>
    ensures exact { option_map (λ v. items_view v.now) result
        ≡ items_between low high (view value.now) }
    ensures within { IfSome result (λ v. length v.now ≤ high) }
{
    let values = value.as_array()?;
    if low <= values.len() && values.len() <= high {
        Some(values)
    } else {
        None
    }
}
