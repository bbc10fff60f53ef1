//! Names that are looked up.
ghost use Rattle.std.specs.Prelude.{◌≡◌, ◌<◌, ℕ, List, length, bytes_eq, is_some, OnOk, IfOk, IfSome, Some, None, if◌then◌else◌};
ghost use Rattle.ds_policy.specs.Inner.Names.{held_number};
ghost use Rattle.ds_policy.specs.PolicyParts.{page_named};

use crate::policy::PolicyPage;
use std::alloc::{AllocError, Global};
use std::collections::BTreeMap;
use std::marker::Model;

/// Names, each with a number.
#[derive(Drop)]
pub(crate) struct Names<'a> {
    numbers: BTreeMap<&'a [u8], usize>,
}

impl<'a> Names<'a> {
    /// No names.
    pub(crate) fn new(alloc: Global) -> Names<'a>
        ensures { (name : List ℕ) → held_number result name ≡ None }
    {
        Names {
            numbers: BTreeMap::new(alloc),
        }
    }

    /// The number of a name.
    pub(crate) fn number_named(&self, name: &[u8]) -> Option<usize>
        ensures { result ≡ held_number self.now name.now }
    {
        self.numbers.get(name).copied()
    }

    /// Gives a name its number.
    pub(crate) fn insert(&mut self, name: &'a [u8], number: usize) -> Result<(), AllocError>
        ensures { OnOk result ((other : List ℕ) → held_number self.new other
            ≡ (if bytes_eq name.now other then Some number else held_number self.old other)) }
    {
        self.numbers.insert(name, number)?;
        Ok(())
    }

    /// Gives a name its number, where it has none.
    fn add(&mut self, name: &'a [u8], number: usize) -> Result<(), AllocError>
        ensures { OnOk result ((other : List ℕ) → held_number self.new other
            ≡ (if is_some (held_number self.old name.now) then held_number self.old other
            else if bytes_eq name.now other then Some number else held_number self.old other)) }
    {
        if self.number_named(name).is_none() {
            self.insert(name, number)?;
        }
        Ok(())
    }
}

/// Pages, found by their names.
#[derive(Drop)]
pub(crate) struct NamedPages<'a> {
    pages: &'a [PolicyPage],
    names: Names<'a>,
}

impl<'a> Model for NamedPages<'a> {
    ghost use Rattle.std.specs.Prelude.{◌≡◌, ℕ, List};
    ghost use Rattle.ds_policy.specs.Inner.Names.{held_number};
    ghost use Rattle.ds_policy.specs.PolicyParts.{page_named};
    ghost use Rattle.ds_policy.specs.declared.policy.PolicyPage.{PolicyPage};

    ghost Value = { List PolicyPage };

    ghost view = { λ p. p.pages.now };

    ghost invariant = { λ p. (name : List ℕ) → held_number p.names name ≡ page_named p.pages.now name };
}

impl<'a> NamedPages<'a> {
    /// Pages, of which the first of a name is found.
    pub(crate) fn of(alloc: Global, pages: &'a [PolicyPage]) -> Result<NamedPages<'a>, AllocError>
        ensures { IfOk result (λ p. p ≡ pages.now) }
    {
        let mut names = Names::new(alloc);
        let mut number = 0;
        for page in pages {
            names.add(page.name.as_str().as_bytes(), number)?;
            number += 1;
        }
        Ok(NamedPages { pages, names })
    }

    /// The number of the page of a name.
    pub(crate) fn number_named(&self, name: &[u8]) -> Option<usize>
        ensures exact { result ≡ page_named self.now name.now }
        ensures within { IfSome result (λ i. i < length self.now) }
    {
        self.names.number_named(name)
    }
}
