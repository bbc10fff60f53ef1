//! What a policy says.
ghost use Rattle.std.specs.Prelude.{◌≡◌};

use crate::grant::Right;
use crate::text::Text;
use std::marker::Model;

/// A process of the policy: where it starts, and its console line.
#[derive(Clone, Copy, Debug, PartialEq, Eq)]
pub struct PolicyProcess {
    pub start: u32,
    pub line: u8,
}

/// A part of an assembled source, in pages of 4,096 bytes from 0.
#[derive(Drop)]
pub struct Source {
    pub name: Text<64>,
    pub part: u8,
}

/// A named page; one without a source is zero.
#[derive(Drop)]
pub struct PolicyPage {
    pub name: Text<16>,
    pub source: Option<Source>,
}

/// A rule of the policy: an entry of the first table. Pages count from 0. There is a page where there
/// is a right.
#[derive(Clone, Copy, Debug, PartialEq, Eq)]
pub struct PolicyRule {
    pub process: u32,
    pub address: u32,
    pub right: Right,
    pub page: Option<u32>,
    pub give: bool,
    /// The time, in ticks, at which its entry's right ends, from 1 to 1,000,000,000; none where it stays.
    pub until: Option<u32>,
}

/// A policy.
#[derive(Drop)]
pub struct Policy {
    pub(crate) frames: u32,
    pub(crate) rate: u32,
    pub(crate) processes: Vec<PolicyProcess>,
    pub(crate) pages: Vec<PolicyPage>,
    pub(crate) rules: Vec<PolicyRule>,
    pub(crate) sources: Vec<Text<64>>,
}

impl Model for Policy {
    ghost use Rattle.std.specs.Prelude.{◌≡◌};
    ghost use Rattle.ds_policy.specs.Value.{PolicyValue};
    ghost use Rattle.ds_policy.specs.PolicyParts.{sources_of};
    ghost use Rattle.ds_policy.specs.PolicyFacts.{IsGoodPolicy};

    ghost Value = { PolicyValue };

    ghost view = { λ p. record {
      frames = p.frames;
      rate = p.rate;
      processes = p.processes.items;
      pages = p.pages.items;
      rules = p.rules.items;
    } };

    ghost invariant = { λ p. (p.sources.items ≡ sources_of p.pages.items)
        × IsGoodPolicy (record {
          frames = p.frames;
          rate = p.rate;
          processes = p.processes.items;
          pages = p.pages.items;
          rules = p.rules.items;
        }) };
}

impl Policy {
    ghost use Rattle.std.specs.Prelude.{◌≤◌, ◌<◌, length, true, IfSome, bytes_eq};
    ghost use Rattle.std.specs.List.{All, IsDistinct};
    ghost use Rattle.ds_policy.specs.Document.{is_among};
    ghost use Rattle.ds_policy.specs.PolicyParts.{has_same_name, has_same_place, sources_of};
    ghost use Rattle.ds_policy.specs.PolicyFacts.{IsGoodProcess, IsGoodPage, IsGoodRule, HasFewRules, HasFewRegions};

    /// The most pages that may live at once.
    pub fn frames(&self) -> u32
        ensures all { result ≡ self.now.frames }
        ensures low { 1 ≤ self.now.frames }
        ensures high { self.now.frames ≤ 1024 }
    {
        self.frames
    }

    /// The exponent of the clock's rate, or 0 where there is no clock.
    pub fn rate(&self) -> u32
        ensures all { result ≡ self.now.rate }
        ensures high { self.now.rate ≤ 15 }
        ensures low { 0 < self.now.rate → 3 ≤ self.now.rate }
    {
        self.rate
    }

    /// The processes, in the policy's order; the first is process 1.
    pub fn processes(&self) -> &[PolicyProcess]
        ensures all { result.now ≡ self.now.processes }
        ensures some { 1 ≤ length self.now.processes }
        ensures few { length self.now.processes ≤ 100 }
        ensures good { All IsGoodProcess self.now.processes }
    {
        &self.processes
    }

    /// The pages, in the policy's order; the first is page 0.
    pub fn pages(&self) -> &[PolicyPage]
        ensures all { result.now ≡ self.now.pages }
        ensures few { length self.now.pages ≤ self.now.frames }
        ensures good { All IsGoodPage self.now.pages }
        ensures names { IsDistinct has_same_name self.now.pages }
    {
        &self.pages
    }

    /// The rules, in the policy's order; the first is rule 1.
    pub fn rules(&self) -> &[PolicyRule]
        ensures all { result.now ≡ self.now.rules }
        ensures at_most { length self.now.rules ≤ 999 }
        ensures good { All (IsGoodRule (length self.now.processes) (length self.now.pages))
            self.now.rules }
        ensures places { IsDistinct has_same_place self.now.rules }
        ensures few { HasFewRules self.now.rules }
        ensures regions { HasFewRegions self.now.rules }
    {
        &self.rules
    }

    /// The distinct names of the pages' sources, in the order of first mention.
    pub fn sources(&self) -> &[Text<64>]
        ensures all { result.now ≡ sources_of self.now.pages }
        ensures few { length (sources_of self.now.pages) ≤ length self.now.pages }
        ensures distinct { IsDistinct bytes_eq (sources_of self.now.pages) }
        ensures each { All
            (λ p. IfSome p.source (λ s. is_among (sources_of self.now.pages) s.name ≡ true))
            self.now.pages }
    {
        &self.sources
    }
}
