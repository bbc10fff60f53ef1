//! How many entries name each page.
ghost use Rattle.std.specs.Prelude.{◌≡◌, ℕ, ◌+◌, ◌<◌, ◌≤◌, ◌^◌, length, slice_index, IfSome};
ghost use Rattle.std.specs.List.{All};
ghost use Rattle.ds_grants.specs.Inner.Sound.{IsGoodRow};
ghost use Rattle.ds_grants.specs.Inner.Counts.{page_of, holders_in, holders_of, AreOneMore, AreOneFewer};

use ds_policy::{Entry, Grant, Table};

/// The page that is granted, if one is.
pub(crate) fn page_of(grant: Option<Grant>) -> Option<u32>
    ensures { result ≡ page_of grant }
{
    match grant {
        Some(grant) => grant.page,
        None => None,
    }
}

/// Counts one entry more that names this page, if it names one.
pub(crate) fn hold(holders: &mut [u32], page: Option<u32>)
    requires within { IfSome page (λ q. q < length holders.old) }
    requires few { IfSome page (λ q. slice_index holders.old q + 1 < 2 ^ 32) }
    ensures { AreOneMore page holders.old holders.new }
{
    if let Some(page) = page {
        holders[page as usize] += 1;
    }
}

/// Counts one entry fewer that names this page, if it names one.
pub(crate) fn release(holders: &mut [u32], page: Option<u32>)
    requires { IfSome page (λ q. 0 < slice_index holders.old q) }
    ensures { AreOneFewer page holders.old holders.new }
{
    if let Some(page) = page {
        holders[page as usize] -= 1;
    }
}

/// Subtracts the entries of a process from the counts.
pub(crate) fn release_all(holders: &mut [u32], entries: &[Entry])
    requires { (page : ℕ) → holders_in page entries.now ≤ slice_index holders.old page }
    ensures fewer { (page : ℕ) → slice_index holders.new page + holders_in page entries.now
        ≡ slice_index holders.old page }
    ensures size { length holders.new ≡ length holders.old }
{
    for entry in entries {
        release(holders, entry.grant.page);
    }
}

/// Counts all entries of a process.
pub(crate) fn hold_all(holders: &mut [u32], entries: &[Entry])
    requires within { (page : ℕ) → length holders.old ≤ page → holders_in page entries.now ≡ 0 }
    requires few { (page : ℕ) → slice_index holders.old page + length entries.now < 2 ^ 32 }
    ensures more { (page : ℕ) → slice_index holders.new page
        ≡ slice_index holders.old page + holders_in page entries.now }
    ensures size { length holders.new ≡ length holders.old }
{
    for entry in entries {
        hold(holders, entry.grant.page);
    }
}

/// Counts all entries of a table, where none is counted.
pub(crate) fn hold_table(holders: &mut [u32], table: &Table)
    requires none { (page : ℕ) → slice_index holders.old page ≡ 0 }
    requires within { (page : ℕ) → length holders.old ≤ page → holders_of table.now page ≡ 0 }
    requires rows { All IsGoodRow table.now }
    requires processes { length table.now ≤ 100 }
    ensures all { (page : ℕ) → slice_index holders.new page ≡ holders_of table.now page }
    ensures size { length holders.new ≡ length holders.old }
{
    for place in 0..table.processes() {
        hold_all(holders, table.entries(place as u32 + 1));
    }
}
