//! How many entries name each page, as one value.
ghost use Rattle.std.specs.Prelude.{◌≡◌, ℕ, ◌+◌, ◌<◌, ◌≤◌, ◌^◌, length, slice_index, IfSome};
ghost use Rattle.ds_grants.specs.Inner.Counts.{holders_in, AreOneMore, AreOneFewer};

use crate::holders::{hold, release, release_all};
use ds_policy::Entry;
use std::marker::Model;

/// How many entries name each page, by the page's number.
#[derive(Clone, Drop)]
pub(crate) struct Tally {
    counts: Vec<u32>,
}

impl Model for Tally {
    ghost use Rattle.std.specs.Prelude.{List, ℕ};

    ghost Value = { List ℕ };

    ghost view = { λ t. t.counts.items };
}

impl Tally {
    /// These counts.
    pub(crate) fn of(counts: Vec<u32>) -> Tally
        ensures { result ≡ counts.items }
    {
        Tally { counts }
    }

    /// How many pages may live at once.
    pub(crate) fn pages(&self) -> u32
        requires { length self.now ≤ 1024 }
        ensures { result ≡ length self.now }
    {
        self.counts.len() as u32
    }

    /// How many entries name a page.
    pub(crate) fn holders(&self, page: u32) -> u32
        requires { page < length self.now }
        ensures { result ≡ slice_index self.now page }
    {
        self.counts[page as usize]
    }

    /// Counts one entry more that names this page, if it names one.
    pub(crate) fn hold(&mut self, page: Option<u32>)
        requires within { IfSome page (λ q. q < length self.old) }
        requires few { IfSome page (λ q. slice_index self.old q + 1 < 2 ^ 32) }
        ensures { AreOneMore page self.old self.new }
    {
        hold(&mut self.counts, page);
    }

    /// Counts one entry fewer that names this page, if it names one.
    pub(crate) fn release(&mut self, page: Option<u32>)
        requires { IfSome page (λ q. 0 < slice_index self.old q) }
        ensures { AreOneFewer page self.old self.new }
    {
        release(&mut self.counts, page);
    }

    /// Subtracts the entries of a process from the counts.
    pub(crate) fn release_all(&mut self, entries: &[Entry])
        requires { (page : ℕ) → holders_in page entries.now ≤ slice_index self.old page }
        ensures fewer { (page : ℕ) → slice_index self.new page + holders_in page entries.now
            ≡ slice_index self.old page }
        ensures size { length self.new ≡ length self.old }
    {
        release_all(&mut self.counts, entries);
    }
}
