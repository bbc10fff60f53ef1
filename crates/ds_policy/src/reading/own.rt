//! The rules of each process.
ghost use Rattle.std.specs.Prelude.{◌≡◌, [], ◌∷◌, ◌++◌, IfOk, OnOk, replicate};

use crate::policy::PolicyRule;
use std::alloc::{AllocError, Global};
use std::marker::Model;

/// The rules of one process, in the policy's order.
#[derive(Drop)]
pub struct OwnRules {
    rules: Vec<PolicyRule>,
}

impl Model for OwnRules {
    ghost use Rattle.std.specs.Prelude.{List};
    ghost use Rattle.ds_policy.specs.declared.policy.PolicyRule.{PolicyRule};

    ghost Value = { List PolicyRule };

    ghost view = { λ o. o.rules.items };
}

impl OwnRules {
    /// No rules.
    pub fn new(alloc: Global) -> OwnRules
        ensures { result ≡ [] }
    {
        OwnRules {
            rules: Vec::new(alloc),
        }
    }

    /// The rules.
    pub fn rules(&self) -> &[PolicyRule]
        ensures { result.now ≡ self.now }
    {
        &self.rules
    }

    /// Adds a rule.
    pub fn push(&mut self, rule: PolicyRule) -> Result<(), AllocError>
        ensures { OnOk result (self.new ≡ self.old ++ rule ∷ []) }
    {
        self.rules.push(rule)?;
        Ok(())
    }
}

/// No rules of so many processes.
pub fn no_rules(alloc: Global, processes: usize) -> Result<Vec<OwnRules>, AllocError>
    ensures { IfOk result (λ v. v.items ≡ replicate processes []) }
{
    let mut owns = Vec::with_capacity(alloc, processes)?;
    for _ in 0..processes {
        owns.push(OwnRules::new(alloc))?;
    }
    Ok(owns)
}
