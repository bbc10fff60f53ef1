//! Rights that end by themselves.
ghost use Rattle.std.specs.Prelude.{◌≡◌, ◌<◌, ◌≤◌, ℕ, length};
ghost use Rattle.ds_policy.specs.Pages.{entries_of};
ghost use Rattle.ds_policy.specs.Ends.{is_reached, has_some_expired, expired_table};
ghost use Rattle.ds_policy.specs.Inner.Ends.{first_expired};

use crate::grant::Entry;
use crate::row::Row;
use crate::row_ends::earlier;
use crate::table::Table;

impl Table {
    /// Takes all right from each entry whose right has ended by a time, by the entry's own rule.
    pub fn expire(&mut self, now: u64)
        ensures { self.new ≡ expired_table now self.old }
    {
        expire_all(&mut self.rows, now);
    }

    /// When the first of all rights ends, if one does by itself.
    pub fn next_end(&self) -> Option<u32>
        ensures { (now : ℕ) → has_some_expired now self.now ≡ is_reached now result }
    {
        next_end(&self.rows)
    }

    /// The first entry of a process whose right has ended by a time.
    pub fn first_expired(&self, process: u32, now: u64) -> Option<Entry>
        requires low { 0 < process }
        requires high { process ≤ length self.now }
        ensures { result ≡ first_expired now (entries_of self.now process) }
    {
        self.rows[process as usize - 1].first_expired(now)
    }
}

fn expire_all(rows: &mut [Row], now: u64)
    ensures { rows.new ≡ expired_table now rows.old }
{
    for i in 0..rows.len() {
        rows[i].expire(now);
    }
}

fn next_end(rows: &[Row]) -> Option<u32>
    ensures { (now : ℕ) → has_some_expired now rows.now ≡ is_reached now result }
{
    let mut end = None;
    for row in rows {
        end = earlier(end, row.next_end());
    }
    end
}
