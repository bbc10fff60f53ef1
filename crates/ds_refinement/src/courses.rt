//! The words of the refill handler, and the services after which a unit goes on.
ghost use Rattle.std.specs.Prelude.{◌≡◌, ◌≢◌, ℕ, ◌+◌, ◌*◌, ◌<◌, ◌^◌, Bool, true, false, length, slice_get, slice_set, Some, None, Ok, Err};
ghost use Rattle.ds_word.specs.Word.{bits};
ghost use Rattle.ds_isa.specs.declared.instr.Size.TheVariants.{Word};
ghost use Rattle.ds_isa.specs.declared.instr.Kind.TheVariants.{Load};
ghost use Rattle.ds_isa.specs.Meaning.{access_address};
ghost use Rattle.ds_tlb.specs.declared.entry.Entry.{Entry};
ghost use Rattle.ds_tlb.specs.Entries.{find, random_after};
ghost use Rattle.ds_tlb.specs.Words.{entry_of};
ghost use Rattle.ds_amap.specs.Map.{at_physical};
ghost use Rattle.ds_amap.specs.declared.map.Fault.TheVariants.{Refill};
ghost use Rattle.ds_cp0.specs.System.{is_user, asid_of};
ghost use Rattle.ds_dev.specs.Bus.{BusState, is_memory};
ghost use Rattle.ds_core.specs.Core.{CoreState};
ghost use Rattle.ds_core.specs.Access.{reached};
ghost use Rattle.ds_core.specs.Effect.{step};
ghost use Rattle.ds_refill.specs.Handler.{HasWords};
ghost use Rattle.ds_refinement.specs.Told.{code_in};
ghost use Rattle.ds_refinement.specs.Course.{UnitPages};
ghost use Rattle.ds_refinement.specs.Inner.Course.{after_touch};
ghost use Rattle.ds_refinement.specs.CourseSteps.{table_page};
ghost use Rattle.ds_refinement.specs.Inner.CourseSteps.{Next};
ghost use Rattle.ds_grants.specs.Copies.{HasKeys};
ghost use Rattle.ds_refinement.specs.Counts.{Counts, course_of, one_more, one_written, one_tabled, one_copied};

/// What a word of the handler changes of the processor is a step of the unit's course.
pub fn a_word_goes_on()
    ensures passes { (c d : CoreState) (n : Counts) (dirty : ℕ → Bool) (pages : UnitPages) (word : ℕ) → word < 8 → ◌≢◌ {A = ℕ} word 6
        → c.pc ≡ 0x80000000 + 4 * word → d.pc ≡ 0x80000000 + 4 * (word + 1) → is_user c.system ≡ false
        → is_user d.system ≡ false → d.system.entry_hi ≡ c.system.entry_hi → d.entries ≡ c.entries
        → d.random ≡ random_after 64 8 c.random
        → Next (course_of c n dirty pages) (course_of d (one_more n) dirty pages) }
    ensures misses_table { (c d : CoreState) (n : Counts) (dirty : ℕ → Bool) (pages : UnitPages) → c.pc ≡ 0x80000008
        → d.pc ≡ 0x80000080 → is_user c.system ≡ false → is_user d.system ≡ false → bits d.system.status 3 1 ≡ 0
        → bits d.system.entry_hi 12 20 ≡ table_page (bits c.system.entry_hi 12 20)
        → asid_of d.system ≡ asid_of c.system → d.entries ≡ c.entries → d.random ≡ random_after 64 8 c.random
        → find c.entries (table_page (bits c.system.entry_hi 12 20)) (asid_of c.system) ≡ None
        → Next (course_of c n dirty pages) (course_of d (one_more n) dirty pages) }
    ensures writes { (c d : CoreState) (n : Counts) (dirty : ℕ → Bool) (pages : UnitPages) → c.pc ≡ 0x80000018 → d.pc ≡ 0x8000001C
        → is_user c.system ≡ false → is_user d.system ≡ false → d.system.entry_hi ≡ c.system.entry_hi
        → d.entries ≡ slice_set c.entries c.random (entry_of c.system.entry_hi c.system.entry_lo)
        → d.random ≡ random_after 64 8 c.random
        → Next (course_of c n dirty pages) (course_of d (one_written c.random n) dirty (after_touch pages)) }
    ensures returns { (c d : CoreState) (n : Counts) (dirty : ℕ → Bool) (pages : UnitPages) → c.pc ≡ 0x80000020
        → is_user c.system ≡ false → is_user d.system ≡ true → d.slot ≡ false
        → d.system.entry_hi ≡ c.system.entry_hi → d.entries ≡ c.entries → d.random ≡ random_after 64 8 c.random
        → Next (course_of c n dirty pages) (course_of d (one_more n) dirty pages) }
{}

/// Each of the nine words, as the processor does it, is a step of the unit's course, whatever the
/// registers hold: but the third wants the place of the page-table word in register 26.
pub fn the_handler_goes_on()
    ensures passes { (c : CoreState) (b : BusState) (n : Counts) (dirty : ℕ → Bool) (pages : UnitPages) (word : ℕ) → word < 8
        → ◌≢◌ {A = ℕ} word 2 → ◌≢◌ {A = ℕ} word 6 → HasWords b.memory → c.system.status ≡ 0xC0C → c.slot ≡ false
        → c.pc ≡ 0x80000000 + 4 * word → c.next ≡ 0x80000000 + 4 * (word + 1)
        → Next (course_of c n dirty pages) (course_of (step c b).core (one_more n) dirty pages) }
    ensures loads { (c : CoreState) (b : BusState) (n : Counts) (dirty : ℕ → Bool) (pages : UnitPages) (place : ℕ)
        → HasWords b.memory → c.system.status ≡ 0xC0C → c.pc ≡ 0x80000008 → c.next ≡ 0x8000000C
        → reached c Load Word (access_address c.registers 26 0) ≡ Ok (at_physical place) → is_memory place ≡ true
        → Next (course_of c n dirty pages) (course_of (step c b).core (one_more n) dirty pages) }
    ensures misses { (c : CoreState) (b : BusState) (n : Counts) (dirty : ℕ → Bool) (pages : UnitPages)
        → HasWords b.memory → c.system.status ≡ 0xC0C → c.pc ≡ 0x80000008
        → bits c.system.entry_hi 12 20 < 2 ^ 19
        → access_address c.registers 26 0 ≡ 0xC0000000 + 4 * bits c.system.entry_hi 12 20
        → reached c Load Word (access_address c.registers 26 0) ≡ Err Refill
        → Next (course_of c n dirty pages) (course_of (step c b).core (one_more n) dirty pages) }
    ensures third { (c : CoreState) (b : BusState) (n : Counts) (dirty : ℕ → Bool) (pages : UnitPages)
        → HasWords b.memory → c.system.status ≡ 0xC0C → c.pc ≡ 0x80000008 → c.next ≡ 0x8000000C
        → bits c.system.entry_hi 12 20 < 2 ^ 19
        → access_address c.registers 26 0 ≡ 0xC0000000 + 4 * bits c.system.entry_hi 12 20
        → ((slot : ℕ) (e : Entry) → find c.entries (table_page (bits c.system.entry_hi 12 20)) (asid_of c.system) ≡ Some slot
        → slice_get c.entries slot ≡ Some e → (e.v ≡ true) × (e.pfn < 2048))
        → Next (course_of c n dirty pages) (course_of (step c b).core (one_more n) dirty pages) }
    ensures writes { (c : CoreState) (b : BusState) (n : Counts) (dirty : ℕ → Bool) (pages : UnitPages)
        → HasWords b.memory → c.system.status ≡ 0xC0C → c.pc ≡ 0x80000018 → c.next ≡ 0x8000001C
        → Next (course_of c n dirty pages) (course_of (step c b).core (one_written c.random n) dirty (after_touch pages)) }
    ensures returns { (c : CoreState) (b : BusState) (n : Counts) (dirty : ℕ → Bool) (pages : UnitPages)
        → HasWords b.memory → c.system.status ≡ 0xC0C → c.pc ≡ 0x80000020
        → Next (course_of c n dirty pages) (course_of (step c b).core (one_more n) dirty pages) }
{}

/// A service that enters a page table's page at the slot whose turn it is, and goes back to the
/// unit's beginning, is a step of its course; so is one that lets the page of a refused store be
/// written, and leaves each slot its page and its address space.
pub fn a_service_goes_on()
    ensures tables { (c d : CoreState) (n : Counts) (dirty : ℕ → Bool) (pages : UnitPages) (lo : ℕ) → c.pc ≡ 0x80000080
        → is_user c.system ≡ false → bits c.system.status 3 1 ≡ 0 → is_user d.system ≡ true → d.slot ≡ false
        → d.system.entry_hi ≡ c.system.entry_hi
        → d.entries ≡ slice_set c.entries n.wired (entry_of c.system.entry_hi lo) → d.random ≡ c.random
        → Next (course_of c n dirty pages) (course_of d (one_tabled n) dirty (after_touch pages)) }
    ensures copies { (c d : CoreState) (n : Counts) (dirty : ℕ → Bool) (pages : UnitPages) (after : ℕ → Bool) → c.pc ≡ 0x80000080
        → is_user c.system ≡ false → bits c.system.status 3 1 ≡ 1 → code_in c.system ≡ 1
        → is_user d.system ≡ true → d.slot ≡ false → d.system.entry_hi ≡ c.system.entry_hi → d.random ≡ c.random
        → after (bits c.system.entry_hi 12 20) ≡ true
        → HasKeys c.entries d.entries → length d.entries ≡ length c.entries
        → Next (course_of c n dirty pages) (course_of d (one_copied n) after (after_touch pages)) }
{}
