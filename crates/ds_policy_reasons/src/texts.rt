//! How what is wrong is told and mended.
ghost use Rattle.std.specs.Prelude.{◌≡◌};
ghost use Rattle.ds_policy_reasons.specs.Texts.{input_cause_text, process_cause_text, page_cause_text, rule_cause_text, policy_reason_text};

use crate::input_texts::{
    BAD_ADDRESS, BAD_BYTES, BAD_GIVE, BAD_LINE, BAD_PROCESS, BAD_RIGHT, BAD_TIME, BLANK_AT_END,
    BLANK_AT_START, CARRIAGE_RETURN, EARLIER_TIME, TAB, TOO_MANY_EVENTS, TWO_BLANKS, UNKNOWN_EVENT,
    UNKNOWN_PAGE, WORD_COUNT,
};
use crate::policy_texts::{
    BAD_FRAMES, BAD_NAME, BAD_PART, BAD_RATE, BAD_SOURCE, BAD_START, BAD_VERSION, NOT_TOML,
    OTHER_KEY, PAGE_COUNT, PAGE_NOT_TABLE, PAGE_OTHER_KEY, PROCESS_BAD_LINE, PROCESS_COUNT,
    PROCESS_NOT_TABLE, PROCESS_OTHER_KEY, RULE_COUNT, SAME_NAME,
};
use crate::rule_texts::{
    BAD_PAGE, BAD_UNTIL, FIFTH_REGION, PAGE_OF_NONE, RULE_BAD_ADDRESS, RULE_BAD_GIVE,
    RULE_BAD_PROCESS, RULE_BAD_RIGHT, RULE_NOT_TABLE, RULE_OTHER_KEY, SAME_PLACE, TOO_MANY_RULES,
    UNTIL_OF_NONE, UNTIL_OF_VERSION_1,
};
use ds_policy::{InputCause, PageCause, PolicyReason, ProcessCause, RuleCause};

/// What is wrong with a line of an input, and what to write in its place.
pub fn input_cause_text(cause: InputCause) -> &'static str
    ensures { result.now ≡ input_cause_text cause }
{
    match cause {
        InputCause::CarriageReturn => CARRIAGE_RETURN,
        InputCause::Tab => TAB,
        InputCause::BlankAtStart => BLANK_AT_START,
        InputCause::BlankAtEnd => BLANK_AT_END,
        InputCause::TwoBlanks => TWO_BLANKS,
        InputCause::BadTime => BAD_TIME,
        InputCause::UnknownEvent => UNKNOWN_EVENT,
        InputCause::WordCount => WORD_COUNT,
        InputCause::BadProcess => BAD_PROCESS,
        InputCause::BadAddress => BAD_ADDRESS,
        InputCause::UnknownPage => UNKNOWN_PAGE,
        InputCause::BadRight => BAD_RIGHT,
        InputCause::BadGive => BAD_GIVE,
        InputCause::BadLine => BAD_LINE,
        InputCause::BadBytes => BAD_BYTES,
        InputCause::EarlierTime => EARLIER_TIME,
        InputCause::TooManyEvents => TOO_MANY_EVENTS,
    }
}

/// What is wrong with a policy, and what to write in its place.
pub fn policy_reason_text(reason: PolicyReason) -> &'static str
    ensures { result.now ≡ policy_reason_text reason }
{
    match reason {
        PolicyReason::NotToml => NOT_TOML,
        PolicyReason::OtherKey => OTHER_KEY,
        PolicyReason::BadVersion => BAD_VERSION,
        PolicyReason::BadFrames => BAD_FRAMES,
        PolicyReason::BadRate => BAD_RATE,
        PolicyReason::ProcessCount => PROCESS_COUNT,
        PolicyReason::PageCount => PAGE_COUNT,
        PolicyReason::RuleCount => RULE_COUNT,
        PolicyReason::Process { cause, .. } => process_cause_text(cause),
        PolicyReason::Page { cause, .. } => page_cause_text(cause),
        PolicyReason::Rule { cause, .. } => rule_cause_text(cause),
    }
}

/// What is wrong with a process, and what to write in its place.
pub fn process_cause_text(cause: ProcessCause) -> &'static str
    ensures { result.now ≡ process_cause_text cause }
{
    match cause {
        ProcessCause::NotTable => PROCESS_NOT_TABLE,
        ProcessCause::OtherKey => PROCESS_OTHER_KEY,
        ProcessCause::BadStart => BAD_START,
        ProcessCause::BadLine => PROCESS_BAD_LINE,
    }
}

/// What is wrong with a page, and what to write in its place.
pub fn page_cause_text(cause: PageCause) -> &'static str
    ensures { result.now ≡ page_cause_text cause }
{
    match cause {
        PageCause::NotTable => PAGE_NOT_TABLE,
        PageCause::OtherKey => PAGE_OTHER_KEY,
        PageCause::BadName => BAD_NAME,
        PageCause::BadSource => BAD_SOURCE,
        PageCause::BadPart => BAD_PART,
        PageCause::SameName => SAME_NAME,
    }
}

/// What is wrong with a rule, and what to write in its place.
pub fn rule_cause_text(cause: RuleCause) -> &'static str
    ensures { result.now ≡ rule_cause_text cause }
{
    match cause {
        RuleCause::NotTable => RULE_NOT_TABLE,
        RuleCause::OtherKey => RULE_OTHER_KEY,
        RuleCause::UntilOfVersion1 => UNTIL_OF_VERSION_1,
        RuleCause::BadProcess => RULE_BAD_PROCESS,
        RuleCause::BadAddress => RULE_BAD_ADDRESS,
        RuleCause::BadRight => RULE_BAD_RIGHT,
        RuleCause::PageOfNone => PAGE_OF_NONE,
        RuleCause::UntilOfNone => UNTIL_OF_NONE,
        RuleCause::BadPage => BAD_PAGE,
        RuleCause::BadGive => RULE_BAD_GIVE,
        RuleCause::BadUntil => BAD_UNTIL,
        RuleCause::SamePlace => SAME_PLACE,
        RuleCause::TooManyRules => TOO_MANY_RULES,
        RuleCause::FifthRegion => FIFTH_REGION,
    }
}
