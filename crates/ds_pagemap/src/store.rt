//! A store on the bytes of a page.
ghost use Rattle.std.specs.Prelude.{◌≡◌, length};
ghost use Rattle.ds_policy.specs.Inner.FirstTable.{IsWithinPage};
ghost use Rattle.ds_pagemap.specs.Inner.Store.{stored_where_allowed, is_allowed};

use ds_policy::Verdict;

/// Stores a word on a page where the table's verdict allows it, and says whether it did. The word
/// goes to the aligned place of the verdict's offset, its lowest byte first.
pub fn store_word_where_allowed(page: &mut [u8], verdict: Verdict, word: u32) -> bool
    requires page_long { length page.old ≡ 4096 }
    requires in_page { IsWithinPage verdict }
    ensures done { result ≡ is_allowed verdict }
    ensures bytes { page.new ≡ stored_where_allowed page.old verdict word }
{
    match verdict {
        Verdict::Allowed { offset, .. } => {
            let start = (offset - offset % 4) as usize;
            page[start..start + 4].copy_from_slice(&word.to_le_bytes());
            true
        }
        Verdict::Denied { .. } => false,
    }
}
