//! Each law is the contract of a function with an empty body.
ghost use Rattle.std.specs.Prelude.{◌≡◌, ℕ, List, option_map};
ghost use Rattle.std.specs.Result.{result_err};
ghost use Rattle.ds_policy.specs.declared.policy.PolicyPage.{PolicyPage};
ghost use Rattle.ds_policy.specs.InputText.{input_of};
ghost use Rattle.ds_policy.specs.PolicyText.{policy_of};
ghost use Rattle.ds_policy.specs.Refusal.{refusal_of};
ghost use Rattle.ds_policy_reasons.specs.Reasons.{input_reason, policy_reason};

/// An input has a reason where it is refused, and nowhere else: of the line that is refused.
#[tactic(auto, using(crate::proofs::ReasonsTold::input_told))]
pub fn an_input_has_a_reason_where_it_is_refused()
    ensures { (pages : List PolicyPage) (text : List ℕ) →
        option_map (λ r. r.line) (input_reason pages text) ≡ result_err (input_of pages text) }
{}

/// A policy has a reason where it is refused, and nowhere else: of the key or the rule that is
/// refused.
#[tactic(auto, using(crate::proofs::ReasonsTold::policy_told))]
pub fn a_policy_has_a_reason_where_it_is_refused()
    ensures { (text : List ℕ) →
        option_map refusal_of (policy_reason text) ≡ result_err (policy_of text) }
{}
