//! The regions of 4 MiB in which a process's entries lie.
ghost use Rattle.std.specs.Prelude.{◌≡◌, ◌==◌, ◌∷◌, map, nat_lt, true};
ghost use Rattle.std.specs.List.{list_any};
ghost use Rattle.ds_policy.specs.Grants.{region, count_distinct};

use crate::page_tables::region_of;
use arrayvec::ArrayVec;
use ds_policy::Entry;

/// How many regions a process's entries may lie in.
const MOST_REGIONS: usize = 4;

/// Whether an entry at the address would be in a fifth region.
pub(crate) fn is_in_fifth_region(entries: &[Entry], addr: u32) -> bool
    ensures { result
        ≡ nat_lt 4 (count_distinct (region addr ∷ map (λ e. region e.address) entries.now)) }
{
    let mut regions = ArrayVec::<u32, MOST_REGIONS>::new();
    let mut last = region_of(addr);
    regions.push(last);
    for entry in entries {
        let region = region_of(entry.address);
        if !is_among(regions.as_slice(), last, region) {
            if regions.is_full() {
                return true;
            }
            regions.push(region);
        }
        last = region;
    }
    false
}

/// Whether a region is one of these, of which the last that was seen is looked at first.
fn is_among(regions: &[u32], last: u32, region: u32) -> bool
    requires { list_any (λ r. r == last) regions.now ≡ true }
    ensures { result ≡ list_any (λ r. r == region) regions.now }
{
    if region == last {
        return true;
    }
    regions.contains(&region)
}
