//! What a translation lookaside buffer holds at its start, after a fill, and after a change of what is
//! granted; and entries whose keys stay.
ghost use Rattle.std.specs.Prelude.{◌≡◌, ◌⊎◌, ℕ, ◌<◌, ◌≤◌, ◌^◌, List, length, slice_get, slice_set, Some, None};
ghost use Rattle.ds_tlb.specs.declared.entry.Entry.{Entry};
ghost use Rattle.ds_tlb.specs.Entries.{find, empty_entries};
ghost use Rattle.ds_grants.specs.State.{GrantsState};
ghost use Rattle.ds_tables.specs.Places.{Places};
ghost use Rattle.ds_asid.specs.Spaces.{Spaces, AreApart, space_number};
ghost use Rattle.ds_asid.specs.Inner.Spaces.{number_held};
ghost use Rattle.ds_grants.specs.Buffer.{IsMapped, BufferHolds};
ghost use Rattle.ds_grants.specs.Inner.Buffer.{entry_for, filled};
ghost use Rattle.ds_grants.specs.Copies.{HasKeys};
ghost use Rattle.ds_grants.specs.Inner.Changes.{both_forgotten, IsChangedAt};

/// At its start and after a flush a buffer of at most 64 slots maps nothing, so it holds whatever is
/// granted, and whoever has which number.
pub fn an_empty_buffer_holds()
    ensures { (slots : ℕ) (s : Spaces) (g : GrantsState) (t : Places) → slots ≤ 64
        → BufferHolds (empty_entries slots) s g t }
{}

/// A buffer holds after a fill too: with the entry of a page of a process in the place of what its
/// address space has for that page, or in any slot after a miss; and the entry answers then.
pub fn a_filled_buffer_holds()
    ensures holds { (entries : List Entry) (s : Spaces) (g : GrantsState) (t : Places)
        (p vpn slot : ℕ) → AreApart s → BufferHolds entries s g t
        → 0 < p → 0 < space_number s p → IsMapped vpn
        → BufferHolds
        (filled entries vpn (space_number s p) slot (entry_for g t p (space_number s p) vpn)) s g t }
    ensures missed { (entries : List Entry) (s : Spaces) (g : GrantsState) (t : Places)
        (p vpn slot : ℕ) → AreApart s → BufferHolds entries s g t
        → 0 < p → 0 < space_number s p → IsMapped vpn → find entries vpn (space_number s p) ≡ None
        → BufferHolds (slice_set entries slot (entry_for g t p (space_number s p) vpn)) s g t }
    ensures found { (entries : List Entry) (g : GrantsState) (t : Places) (p vpn asid slot : ℕ)
        → vpn < 2 ^ 20 → asid < 64 → slot < length entries → find entries vpn asid ≡ None
        → find (slice_set entries slot (entry_for g t p asid vpn)) vpn asid ≡ Some slot }
{}

/// A buffer holds once it has forgotten the page that changed and the page of its table, in the
/// address space of the process whose entry it is. Where the process has none, nothing is to be
/// forgotten.
pub fn a_buffer_forgets_what_changed()
    ensures { (entries : List Entry) (s : Spaces) (g h : GrantsState) (t u : Places) (p address : ℕ)
        → IsChangedAt g h t u p address → BufferHolds entries s g t
        → BufferHolds (both_forgotten entries address (number_held s p)) s h u }
{}

/// An entry may be replaced by one of the same page and address space; so may many, one after the
/// other.
pub fn keys_stay()
    ensures one { (entries : List Entry) (slot : ℕ) (old e : Entry)
        → slice_get entries slot ≡ Some old → e.vpn ≡ old.vpn → e.asid ≡ old.asid
        → HasKeys entries (slice_set entries slot e) }
    ensures many { (old between new : List Entry) → HasKeys old between → HasKeys between new
        → HasKeys old new }
{}
