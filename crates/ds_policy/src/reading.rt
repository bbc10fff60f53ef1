//! A policy from its text.
ghost use Rattle.std.specs.Prelude.{◌≡◌};
ghost use Rattle.toml.specs.View.{table_view};
ghost use Rattle.ds_policy.specs.Inner.Refusal.{Gives, IsRead};
ghost use Rattle.ds_policy.specs.PolicyText.{says, read_policy, policy_of};

mod document;
mod own;
mod pages;
mod processes;
mod rules;
mod sources;

use crate::cause::PolicyReason;
use crate::fault::PolicyFault;
use crate::policy::Policy;
use crate::unread::Unread;
use document::{has_only, integer_at, required, root, value_at};
use pages::pages_of;
use processes::{processes_of, rate_of};
pub use rules::count_regions;
use rules::rules_of;
use sources::sources_of;
use std::alloc::Global;
use toml::Table;

/// The root keys.
const KEYS: [&str; 6] = ["version", "frames", "rate", "process", "page", "rule"];

impl Policy {
    /// The policy that a text says: a TOML document in UTF-8, all of whose checks hold. The first
    /// check that fails is answered.
    #[tactic(auto, unfolding(crate::specs::PolicyText::policy_of))]
    pub fn read(alloc: Global, text: &[u8]) -> Result<Policy, PolicyFault>
        ensures { Gives (λ p. p) result (policy_of text.now) }
    {
        match Policy::read_or_reason(alloc, text) {
            Ok(policy) => Ok(policy),
            Err(Unread::Reason(reason)) => Err(reason.fault()),
            Err(Unread::Memory) => Err(PolicyFault::Memory),
        }
    }

    /// The policy that a text says, or why it says none.
    #[tactic(auto, unfolding(crate::specs::PolicyText::read_policy))]
    pub fn read_or_reason(alloc: Global, text: &[u8]) -> Result<Policy, Unread<PolicyReason>>
        ensures { IsRead (λ p. p) result (read_policy text.now) }
    {
        let table = root(alloc, text)?;
        Policy::of_table(alloc, &table)
    }

    #[tactic(auto, unfolding(crate::specs::PolicyText::says))]
    fn of_table(alloc: Global, table: &Table) -> Result<Policy, Unread<PolicyReason>>
        ensures { IsRead (λ p. p) result (says (table_view table.now)) }
    {
        if !has_only(table, KEYS.as_slice()) {
            return Err(Unread::Reason(PolicyReason::OtherKey));
        }
        let version = required(integer_at(table, "version", 1, 2), PolicyReason::BadVersion)?;
        let frames = required(
            integer_at(table, "frames", 1, 1024),
            PolicyReason::BadFrames,
        )?;
        let rate = required(rate_of(value_at(table, "rate")), PolicyReason::BadRate)?;
        let processes = processes_of(alloc, value_at(table, "process"))?;
        let pages = pages_of(alloc, frames, value_at(table, "page"))?;
        let count = processes.len() as u32;
        let rules = rules_of(alloc, version, count, &pages, value_at(table, "rule"))?;
        let sources = sources_of(alloc, &pages)?;
        Ok(Policy {
            frames,
            rate,
            processes,
            pages,
            rules,
            sources,
        })
    }
}
