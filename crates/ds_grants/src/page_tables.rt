//! Words of page tables.
ghost use Rattle.std.specs.Prelude.{◌≡◌, ℕ, ◌<◌, ◌≤◌, ◌==◌, ◌^◌, IfSome, Some, Option};
ghost use Rattle.std.specs.List.{list_any};
ghost use Rattle.ds_policy.specs.declared.grant.Entry as granted;
ghost use Rattle.ds_tables.specs.Places.{region_of};
ghost use Rattle.ds_grants.specs.State.{GrantsState};
ghost use Rattle.ds_grants.specs.Inner.State.{place_of_page};
ghost use Rattle.ds_grants.specs.Words.{word_of_right};
ghost use Rattle.ds_grants.specs.Inner.Changes.{all_closed};

use crate::layout::{Place, frame_in_memory};
use ds_policy::{Entry, Right};
use ds_tables::Tables;
use ds_word::bit;

/// The page-table word of a page by where it lies, if there is one, for a right: its frame, valid, and
/// dirty where it may be written and no other page may lie there; 0 where there is no right.
pub(crate) fn word_of_right(right: Right, place: Option<Place>) -> u32
    requires { IfSome place (λ p. p.frame < 1024) }
    ensures { (g : GrantsState) (page : Option ℕ) → place ≡ place_of_page g page
        → result ≡ word_of_right g right page }
{
    let writes = match right {
        Right::Nothing => return 0,
        Right::Read => false,
        Right::Write => true,
    };
    match place {
        Some(place) => {
            frame_in_memory(place.frame) * 4096 + bit(10, writes && !place.shared) + bit(9, true)
        }
        None => 0,
    }
}

/// The region in which an address lies.
pub(crate) fn region_of(addr: u32) -> u32
    ensures { result ≡ region_of addr }
{
    addr >> 22
}

/// Whether an entry of a process lies in the region of an address.
pub(crate) fn is_used(entries: &[Entry], addr: u32) -> bool
    ensures { result
        ≡ list_any (λ (e : granted.Entry). region_of e.address == region_of addr) entries.now }
{
    entries
        .iter()
        .any(|entry| region_of(entry.address) == region_of(addr))
}

/// Takes the tables of all regions in which a process has entries.
pub(crate) fn close_all(tables: &mut Tables, process: u32, entries: &[Entry])
    ensures { tables.new ≡ all_closed tables.old process entries.now }
{
    for entry in entries {
        tables.close(process, region_of(entry.address));
    }
}
