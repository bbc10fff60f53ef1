//! Why a policy or an input is refused: what is told of the cause of its refusal, and how it is
//! mended.
#![tactic(auto)]

mod cause_places;
mod input;
mod input_texts;
mod keys;
mod kinds;
mod laws;
mod policy;
mod policy_texts;
mod rule_texts;
mod texts;

pub use cause_places::cause_place;
pub use ds_policy::{InputCause, InputReason, PageCause, PolicyReason, ProcessCause, RuleCause};
pub use input::input_reason;
pub use keys::{OddKey, meant_key, odd_key, push_odd_key};
pub use kinds::{reads_as_policy, reads_as_source};
pub use laws::{
    a_policy_has_a_reason_where_it_is_refused, an_input_has_a_reason_where_it_is_refused,
};
pub use policy::policy_reason;
pub use texts::{
    input_cause_text, page_cause_text, policy_reason_text, process_cause_text, rule_cause_text,
};
