//! Words in page tables.
ghost use Rattle.std.specs.Prelude.{◌≡◌, ℕ, ◌<◌, ◌≤◌, ◌%◌, ◌^◌, ◌==◌, true, not, nat_lt, List, ◌∷◌, length, map, Some, is_some};
ghost use Rattle.std.specs.List.{list_any};
ghost use Rattle.ds_policy.specs.declared.grant.Entry.{Entry};
ghost use Rattle.ds_policy.specs.declared.grant.Grant.{Grant};
ghost use Rattle.ds_policy.specs.Grants.{region, count_distinct};
ghost use Rattle.ds_grants.specs.State.{GrantsState};
ghost use Rattle.ds_grants.specs.Inner.State.{with_grant, erased_grant};
ghost use Rattle.ds_tables.specs.Places.{Places, ArePlaces, region_of, places_of, region_place};
ghost use Rattle.ds_tables.specs.Inner.Places.{has_place, opened};
ghost use Rattle.ds_tables.specs.Tables.{HasEmptyTable};
ghost use Rattle.ds_tables.specs.Inner.Tables.{with_entry};
ghost use Rattle.ds_grants.specs.Words.{regions_taken, word_of_grant, WordsHold};
ghost use Rattle.ds_grants.specs.Inner.Changes.{memory_without, places_without};

/// An entry would lie in a fifth region exactly where there is no place for the region's table.
pub fn a_fifth_region_has_no_place()
    ensures { (t : Places) (p r : ℕ) (es : List Entry) → length (places_of t p) ≡ 4
        → count_distinct (regions_taken (places_of t p)) ≡ length (regions_taken (places_of t p))
        → ((s : ℕ) → is_some (region_place t p s) ≡ list_any (λ (e : Entry). region_of e.address == s) es)
        → nat_lt 4 (count_distinct (r ∷ map (λ (e : Entry). region e.address) es)) ≡ not (has_place t p r) }
{}

/// Page tables have the words of what is granted once an entry is put with its word, and once one is
/// removed.
pub fn words_hold_after_a_change()
    ensures put { (memory : List ℕ) (t : Places) (g : GrantsState) (p a : ℕ) (grant : Grant)
        → WordsHold memory t g → ArePlaces t → 2 ^ 23 ≤ length memory → HasEmptyTable memory
        → 0 < p → p ≤ length g.table → a % 2 ^ 12 ≡ 0 → word_of_grant g (Some grant) < 2 ^ 32
        → has_place t p (region_of a) ≡ true
        → WordsHold (with_entry memory t p a (word_of_grant g (Some grant)))
        (opened t p (region_of a)) (with_grant g p a grant) }
    ensures removed { (memory : List ℕ) (t : Places) (g : GrantsState) (p a : ℕ)
        → WordsHold memory t g → ArePlaces t → 2 ^ 23 ≤ length memory → HasEmptyTable memory
        → 0 < p → p ≤ length g.table → a % 2 ^ 12 ≡ 0
        → WordsHold (memory_without memory t g p a) (places_without t g p a) (erased_grant g p a) }
{}
