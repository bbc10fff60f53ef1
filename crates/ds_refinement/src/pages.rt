//! What a user reaches, and where a page lies in memory: each law is the contract of a function
//! with an empty body.
ghost use Rattle.std.specs.Prelude.{◌≡◌, ℕ, ◌+◌, ◌*◌, ◌^◌, ◌<◌, ◌≤◌, true, false, List, length};
ghost use Rattle.std.specs.Prelude.{slice_set, Some, Ok};
ghost use Rattle.ds_word.specs.Bytes.{word_at, with_word};
ghost use Rattle.ds_isa.specs.declared.instr.Kind.{Kind};
ghost use Rattle.ds_isa.specs.declared.instr.Size.{Size};
ghost use Rattle.ds_cp0.specs.System.{asid_of, is_user};
ghost use Rattle.ds_amap.specs.declared.map.Physical.{Physical};
ghost use Rattle.ds_policy.specs.declared.grant.Grant.{Grant};
ghost use Rattle.ds_policy.specs.Pages.{bytes_of, entry_at};
ghost use Rattle.ds_grants.specs.State.{GrantsState, is_live, is_shared, frame_of_page, page_state};
ghost use Rattle.ds_grants.specs.Buffer.{BufferHolds};
ghost use Rattle.ds_grants.specs.Sound.{NamesPages};
ghost use Rattle.ds_core.specs.Core.{CoreState};
ghost use Rattle.ds_core.specs.Access.{reached};
ghost use Rattle.ds_refinement.specs.Held.{Kept, space_of};
ghost use Rattle.ds_refinement.specs.Inner.Granted.{IsGranted};

/// A word of a page that lives lies in the page's frame: it is read there, and a word that is
/// stored there is stored in that page and in no other, where no other page lies in its frame.
pub fn a_word_of_a_page_lies_in_its_frame()
    ensures read { (g : GrantsState) (memory : List ℕ) (page offset : ℕ) → is_live g page ≡ true
        → page < g.frames → NamesPages g → length memory ≡ 2 ^ 23 → offset < 4096
        → word_at memory (frame_of_page g page * 4096 + offset)
        ≡ word_at (bytes_of (page_state g memory).pages page) offset }
    ensures stored { (g : GrantsState) (memory : List ℕ) (page offset : ℕ) → is_live g page ≡ true
        → page < g.frames → NamesPages g → length memory ≡ 2 ^ 23 → offset < 4096
        → is_shared g page ≡ false → (w : ℕ) → page_state g (with_word memory (frame_of_page g page * 4096 + offset) w)
        ≡ record (page_state g memory) {
          pages = slice_set (page_state g memory).pages page
              (Some (with_word (bytes_of (page_state g memory).pages page) offset w));
        } }
    ensures size { (g : GrantsState) (memory : List ℕ) (page offset : ℕ) → is_live g page ≡ true
        → page < g.frames → NamesPages g → length memory ≡ 2 ^ 23 → offset < 4096
        → (w : ℕ) → length (with_word memory (frame_of_page g page * 4096 + offset) w)
        ≡ length memory }
{}

/// A page that an entry of the table names lives.
pub fn a_named_page_lives()
    ensures { (g : GrantsState) (p address page : ℕ) (grant : Grant)
        → entry_at g.table p address ≡ Some grant → grant.page ≡ Some page
        → is_live g page ≡ true }
{}

/// What the processor lets a user reach, in the address space of its process, is what the
/// permission table grants that process.
pub fn what_a_user_reaches_is_granted()
    ensures { (c : CoreState) (k : Kept) (p : ℕ) → is_user c.system ≡ true
        → BufferHolds c.entries k.spaces k.grants k.tables → NamesPages k.grants → 0 < p
        → 0 < space_of k p
        → asid_of c.system ≡ space_of k p
        → (access : Kind) (size : Size) (address : ℕ) (place : Physical)
        → reached c access size address ≡ Ok place
        → IsGranted k.grants p access size address place.0 }
{}
