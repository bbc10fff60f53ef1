//! No new pair of a user's page and an address space comes into a buffer: each law is the contract
//! of a function with an empty body.
ghost use Rattle.std.specs.Prelude.{◌^◌, ◌≤◌, ◌≡◌, ℕ, List, Option, slice_set};
ghost use Rattle.ds_tlb.specs.declared.entry.Entry.{Entry};
ghost use Rattle.ds_tlb.specs.Entries.{empty_entries};
ghost use Rattle.ds_policy.specs.declared.grant.EntryPlace.{EntryPlace};
ghost use Rattle.ds_asid.specs.Spaces.{Spaces};
ghost use Rattle.ds_grants.specs.Inner.Changes.{both_forgotten, all_forgotten};
ghost use Rattle.ds_grants.specs.Copies.{AreRewritten};
ghost use Rattle.ds_refinement.specs.Pairs.{HasNoNewPairs};

/// A buffer that stays, is flushed, forgets a page of a user and the page of its table, or those of a
/// whole family of shares, takes an entry of a page of the kernel, or is rewritten has no new pair;
/// and so on after each other.
pub fn no_pair_is_new()
    ensures same { (es : List Entry) → HasNoNewPairs es es }
    ensures joined { (a b c : List Entry) → HasNoNewPairs a b → HasNoNewPairs b c
        → HasNoNewPairs a c }
    ensures flushed { (old : List Entry) (n : ℕ) → HasNoNewPairs old (empty_entries n) }
    ensures forgotten { (old : List Entry) (address : ℕ) (number : Option ℕ)
        → HasNoNewPairs old (both_forgotten old address number) }
    ensures family { (old : List Entry) (s : Spaces) (places : List EntryPlace)
        → HasNoNewPairs old (all_forgotten old s places) }
    ensures written { (old : List Entry) (slot : ℕ) (e : Entry) → 2 ^ 19 ≤ e.vpn
        → HasNoNewPairs old (slice_set old slot e) }
    ensures rewritten { (old new : List Entry) → AreRewritten old new → HasNoNewPairs old new }
{}
