//! Laws by which a unit is short: what it has written into the translation buffer is still there
//! when it ends, what it meets costs few instructions, and its course takes few steps.
ghost use Rattle.std.specs.Prelude.{◌≡◌, ◌≢◌, ◌⊎◌, ℕ, ◌+◌, ◌<◌, ◌≤◌, List, length, slice_get, slice_set, IsSome};
ghost use Rattle.ds_tlb.specs.declared.entry.Entry.{Entry};
ghost use Rattle.ds_tlb.specs.Entries.{random_after, find};
ghost use Rattle.ds_refinement.specs.KeptEntries.{IsKept};
ghost use Rattle.ds_refinement.specs.Cost.{Met, cost};
ghost use Rattle.ds_refinement.specs.Course.{Course, AtWord, AtDoubleMiss, AtModification};
ghost use Rattle.ds_refinement.specs.Inner.CourseSteps.{After, BeginsUnit, Next};
ghost use Rattle.ds_refinement.specs.Tally.{IsTallied};
ghost use Rattle.ds_refinement.specs.Inner.Tally.{IsShort, WasWritten, steps_ahead};

/// In a buffer of 64 slots of which 8 are wired, the entry of a page that was written where Random
/// stood can be found until Random has gone on 55 steps, whatever else is written at Random or into
/// the wired slots meanwhile.
pub fn what_was_written_stays()
    ensures begins { (entries : List Entry) (e : Entry) (random : ℕ) → length entries ≡ 64
        → 8 ≤ random → random < 64
        → IsKept (slice_set entries random e) (random_after 64 8 random) 1 e.vpn e.asid }
    ensures steps { (entries : List Entry) (random n vpn asid : ℕ) → 8 ≤ random → random < 64
        → n < 55 → IsKept entries random n vpn asid
        → IsKept entries (random_after 64 8 random) (n + 1) vpn asid }
    ensures writes { (entries : List Entry) (random n vpn asid : ℕ) (other : Entry)
        → IsKept entries random n vpn asid
        → IsKept (slice_set entries random other) random n vpn asid }
    ensures wired { (entries : List Entry) (random n vpn asid slot : ℕ) (other : Entry) → slot < 8
        → IsKept entries random n vpn asid
        → IsKept (slice_set entries slot other) random n vpn asid }
    ensures found { (entries : List Entry) (random n vpn asid : ℕ)
        → IsKept entries random n vpn asid → IsSome (find entries vpn asid) }
{}

/// All that a unit can meet once each costs at most 59 instructions.
pub fn a_unit_is_short()
    ensures { (met : Met) → cost met ≤ 59 }
{}

/// A unit is tallied where it begins, and however it goes on; and what is tallied has few counts.
pub fn a_unit_is_tallied()
    ensures begins { (c : Course) → BeginsUnit c → IsTallied c }
    ensures goes_on { (c d : Course) → IsTallied c → Next c d → IsTallied d }
    ensures short { (c : Course) → IsTallied c → IsShort c.work }
{}

/// However many steps a unit takes before it ends, it has at most 61 instructions, 4 refills, 54
/// steps of Random since the first of these, 4 entries of page tables' pages, and 6 services.
pub fn a_units_course_is_short()
    ensures { (n : ℕ) (c d : Course) → BeginsUnit c → After n c d → IsShort d.work }
{}

/// What a unit has written into the buffer is not replaced while it goes on, except by the service
/// of a copy, which leaves each slot its page and its address space; and no slot changes but what it
/// has written. Each step leaves fewer to take.
pub fn what_a_unit_writes_stays()
    ensures stays { (c d : Course) (slot : ℕ) → IsTallied c → Next c d → c.place ≢ AtModification
        → WasWritten c.work slot → slice_get d.work.entries slot ≡ slice_get c.work.entries slot }
    ensures grows { (c d : Course) (slot : ℕ) → IsTallied c → Next c d → WasWritten c.work slot
        → WasWritten d.work slot }
    ensures others { (c d : Course) (slot : ℕ) → IsTallied c → Next c d → c.place ≢ AtModification
        → WasWritten d.work slot ⊎ (slice_get d.work.entries slot ≡ slice_get c.work.entries slot) }
    ensures falls { (c d : Course) → IsTallied c → Next c d → steps_ahead d < steps_ahead c }
{}

/// Before a refill writes, at most three slots were written. The unit has taken an instruction
/// before the handler's first word, and one with each of its words; so it has taken four at a
/// double miss. Before a service after which the unit
/// goes on there were at most five services, and at a double miss at most three entries of page
/// tables' pages.
pub fn there_is_room_to_count()
    ensures refill { (c : Course) (word : ℕ) → IsTallied c → c.place ≡ AtWord word → word ≤ 6
        → length c.work.written ≤ 3 }
    ensures words { (c : Course) (word : ℕ) → IsTallied c → c.place ≡ AtWord word → word ≤ 6
        → word + 1 ≤ c.work.spent }
    ensures begun { (c : Course) → IsTallied c → c.place ≡ AtDoubleMiss → 4 ≤ c.work.spent }
    ensures table { (c : Course) → IsTallied c → c.place ≡ AtDoubleMiss
        → (c.work.tables ≤ 3) × (c.work.services ≤ 5) }
    ensures copy { (c : Course) → IsTallied c → c.place ≡ AtModification → c.work.services ≤ 5 }
{}
