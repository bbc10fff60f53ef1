//! Where in its text the key or the item stands for which a policy is refused.
ghost use Rattle.std.specs.Prelude.{◌≡◌, ◌≤◌, length, option_map};
ghost use Rattle.ds_policy_reasons.specs.Inner.Keys.{plain_odd};
ghost use Rattle.ds_drive.specs.PolicyPlaces.{array_place, odd_place, page_key, page_place, process_key, process_place, reason_place, rule_key, rule_place};

use ds_check::{Items, Place, item_place, root_key_place};
use ds_policy_reasons::{OddKey, PageCause, PolicyReason, ProcessCause, RuleCause, odd_key};

/// Where the key or the item stands that a reason is of, where it is found: of a key that a process,
/// a page or a rule has not, the item itself.
pub(crate) fn reason_place(text: &[u8], reason: PolicyReason) -> Option<Place>
    requires { length text.now ≤ 16777216 }
    ensures { result ≡ reason_place text.now reason }
{
    match reason {
        PolicyReason::NotToml => None,
        PolicyReason::OtherKey => odd_place(odd_key(text)),
        PolicyReason::BadVersion => root_key_place(text, "version"),
        PolicyReason::BadFrames => root_key_place(text, "frames"),
        PolicyReason::BadRate => root_key_place(text, "rate"),
        PolicyReason::ProcessCount => array_place(text, "process", Items::Processes, 101),
        PolicyReason::Process { number, cause } => process_place(text, number, cause),
        PolicyReason::PageCount => match root_key_place(text, "page") {
            Some(place) => Some(place),
            None => root_key_place(text, "frames"),
        },
        PolicyReason::Page { number, cause } => page_place(text, number, cause),
        PolicyReason::RuleCount => array_place(text, "rule", Items::Rules, 1000),
        PolicyReason::Rule { number, cause } => rule_place(text, number, cause),
    }
}

/// Where a key stands that no policy has.
fn odd_place(key: Option<OddKey<'_>>) -> Option<Place>
    ensures { result ≡ odd_place (option_map plain_odd key.entry) }
{
    match key {
        Some(key) => Some(Place {
            line: key.line,
            column: key.column,
        }),
        None => None,
    }
}

/// Where the key of an array stands, or else the item of this number.
fn array_place(text: &[u8], key: &str, items: Items, number: u32) -> Option<Place>
    requires { length text.now ≤ 16777216 }
    ensures { result ≡ array_place text.now key.now items number }
{
    match root_key_place(text, key) {
        Some(place) => Some(place),
        None => item_place(text, items, number, None),
    }
}

fn process_place(text: &[u8], number: u32, cause: ProcessCause) -> Option<Place>
    requires { length text.now ≤ 16777216 }
    ensures { result ≡ process_place text.now number cause }
{
    match cause {
        ProcessCause::NotTable => root_key_place(text, "process"),
        _ => item_place(text, Items::Processes, number, process_key(cause)),
    }
}

/// The key of a process that a cause is of.
fn process_key(cause: ProcessCause) -> Option<&'static str>
    ensures { option_map (λ k. k.now) result ≡ process_key cause }
{
    match cause {
        ProcessCause::NotTable | ProcessCause::OtherKey => None,
        ProcessCause::BadStart => Some("start"),
        ProcessCause::BadLine => Some("line"),
    }
}

fn page_place(text: &[u8], number: u32, cause: PageCause) -> Option<Place>
    requires { length text.now ≤ 16777216 }
    ensures { result ≡ page_place text.now number cause }
{
    match cause {
        PageCause::NotTable => root_key_place(text, "page"),
        _ => item_place(text, Items::Pages, number, page_key(cause)),
    }
}

/// The key of a page that a cause is of.
fn page_key(cause: PageCause) -> Option<&'static str>
    ensures { option_map (λ k. k.now) result ≡ page_key cause }
{
    match cause {
        PageCause::NotTable | PageCause::OtherKey => None,
        PageCause::BadName | PageCause::SameName => Some("name"),
        PageCause::BadSource => Some("source"),
        PageCause::BadPart => Some("part"),
    }
}

fn rule_place(text: &[u8], number: u32, cause: RuleCause) -> Option<Place>
    requires { length text.now ≤ 16777216 }
    ensures { result ≡ rule_place text.now number cause }
{
    match cause {
        RuleCause::NotTable => root_key_place(text, "rule"),
        _ => item_place(text, Items::Rules, number, rule_key(cause)),
    }
}

/// The key of a rule that a cause is of; of one rule too many it is none.
fn rule_key(cause: RuleCause) -> Option<&'static str>
    ensures { option_map (λ k. k.now) result ≡ rule_key cause }
{
    match cause {
        RuleCause::NotTable | RuleCause::OtherKey | RuleCause::TooManyRules => None,
        RuleCause::BadProcess => Some("process"),
        RuleCause::BadAddress | RuleCause::SamePlace | RuleCause::FifthRegion => Some("address"),
        RuleCause::BadRight | RuleCause::PageOfNone => Some("right"),
        RuleCause::BadPage => Some("page"),
        RuleCause::BadGive => Some("give"),
        RuleCause::UntilOfVersion1 | RuleCause::UntilOfNone | RuleCause::BadUntil => Some("until"),
    }
}
