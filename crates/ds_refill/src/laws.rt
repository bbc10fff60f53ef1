//! Each law is the contract of a function with an empty body.
ghost use Rattle.std.specs.Prelude.{◌≡◌, ℕ, ◌+◌, nat_lt, Err, ◌%◌, ◌^◌, ◌<◌, false, true, length, slice_index, slice_set, List, Ok, None, Option};
ghost use Rattle.ds_word.specs.Word.{word};
ghost use Rattle.ds_isa.specs.declared.instr.Late.{Late};
ghost use Rattle.ds_isa.specs.Registers.{Registers};
ghost use Rattle.ds_tlb.specs.declared.entry.Entry.{Entry};
ghost use Rattle.ds_tlb.specs.Entries.{random_after};
ghost use Rattle.ds_word.specs.Bytes.{word_at};
ghost use Rattle.ds_cp0.specs.System.{System, asid_of, entered, returned};
ghost use Rattle.ds_cp0.specs.declared.exception.ExceptionCode.TheVariants.{LoadMiss};
ghost use Rattle.ds_amap.specs.declared.map.Fault.TheVariants.{Refill};
ghost use Rattle.ds_isa.specs.declared.instr.Kind.TheVariants.{Load};
ghost use Rattle.ds_amap.specs.declared.map.Mode.TheVariants.{Kernel};
ghost use Rattle.ds_amap.specs.Map.{translate, at_physical};
ghost use Rattle.ds_dev.specs.Bus.{BusState, is_memory};
ghost use Rattle.ds_core.specs.declared.event.Event.TheVariants.{Raised, Branched};
ghost use Rattle.ds_tlb.specs.Words.{entry_of};
ghost use Rattle.ds_core.specs.Effect.{step};
ghost use Rattle.ds_refill.specs.Handler.{HasWords};
ghost use Rattle.ds_refill.specs.Refill.{lent, late_of};
ghost use Rattle.ds_refill.specs.Inner.Refill.{IsKernel, at_word, later, table_miss, went, RunsBy, handler_events};

/// In kernel mode with interrupts off, each word of the handler that stands at its place does its
/// part, and leaves all else of the processor as it is but Random: Context goes to register 26, EPC
/// to 27, both late; the page-table word to 26, late; a pause; the word to EntryLo; 0 to register
/// 26; the entry of EntryHi and EntryLo into the slot that Random names; a jump to register 27; the
/// mode is popped.
pub fn each_word_does_its_part()
    ensures context { (r : Registers) (x y : ℕ) (s : System) (es : List Entry) (random : ℕ)
        (b : BusState)
        → HasWords b.memory → IsKernel s → length r.general ≡ 32
        → step (at_word 0x80000000 0x80000004 false (lent r x y None) s es random) b
        ≡ went (at_word 0x80000004 0x80000008 false (lent r s.context y (late_of 26 x)) s es
        (random_after 64 8 random)) b }
    ensures address { (r : Registers) (x y : ℕ) (late : Option Late) (s : System) (es : List Entry)
        (random : ℕ) (b : BusState)
        → HasWords b.memory → IsKernel s → length r.general ≡ 32
        → step (at_word 0x80000004 0x80000008 false (lent r x y late) s es random) b
        ≡ went (at_word 0x80000008 0x8000000C false (lent r x s.epc (late_of 27 y)) s es
        (random_after 64 8 random)) b }
    ensures load { (r : Registers) (x y old : ℕ) (s : System) (es : List Entry) (random place w : ℕ)
        (b : BusState)
        → HasWords b.memory → IsKernel s → length r.general ≡ 32 → x < 2 ^ 32 → x % 4 ≡ 0
        → translate es (asid_of s) Kernel Load x ≡ Ok (at_physical place) → is_memory place ≡ true
        → word_at b.memory place ≡ w
        → step (at_word 0x80000008 0x8000000C false (lent r x y (late_of 27 old)) s es random) b
        ≡ went (at_word 0x8000000C 0x80000010 false (lent r w y (late_of 26 x)) s es
        (random_after 64 8 random)) b }
    ensures pause { (r : Registers) (x y : ℕ) (late : Option Late) (s : System) (es : List Entry)
        (random : ℕ) (b : BusState)
        → HasWords b.memory → IsKernel s
        → step (at_word 0x8000000C 0x80000010 false (lent r x y late) s es random) b
        ≡ went (at_word 0x80000010 0x80000014 false (lent r x y None) s es (random_after 64 8 random)) b }
    ensures entry_lo { (r : Registers) (x y : ℕ) (s : System) (es : List Entry) (random : ℕ)
        (b : BusState)
        → HasWords b.memory → IsKernel s → length r.general ≡ 32 → x < 2 ^ 32 → x % 256 ≡ 0
        → step (at_word 0x80000010 0x80000014 false (lent r x y None) s es random) b
        ≡ went (at_word 0x80000014 0x80000018 false (lent r x y None) (record s { entry_lo = x }) es
        (random_after 64 8 random)) b }
    ensures clear { (r : Registers) (x y : ℕ) (s : System) (es : List Entry) (random : ℕ)
        (b : BusState)
        → HasWords b.memory → IsKernel s → slice_index r.general 0 ≡ 0
        → step (at_word 0x80000014 0x80000018 false (lent r x y None) s es random) b
        ≡ went (at_word 0x80000018 0x8000001C false (lent r 0 y None) s es (random_after 64 8 random)) b }
    ensures write { (r : Registers) (x y : ℕ) (s : System) (es : List Entry) (random : ℕ)
        (b : BusState)
        → HasWords b.memory → IsKernel s
        → step (at_word 0x80000018 0x8000001C false (lent r x y None) s es random) b
        ≡ went (at_word 0x8000001C 0x80000020 false (lent r x y None) s
        (slice_set es random (entry_of s.entry_hi s.entry_lo))
        (random_after 64 8 random)) b }
    ensures jump { (r : Registers) (x y : ℕ) (s : System) (es : List Entry) (random : ℕ)
        (b : BusState)
        → HasWords b.memory → IsKernel s → length r.general ≡ 32
        → step (at_word 0x8000001C 0x80000020 false (lent r x y None) s es random) b
        ≡ record {
          event = Branched;
          core = at_word 0x80000020 y true (lent r x y None) s es (random_after 64 8 random);
          bus = b;
        } }
    ensures mode { (r : Registers) (x y pc : ℕ) (s : System) (es : List Entry) (random : ℕ)
        (b : BusState)
        → HasWords b.memory → IsKernel s
        → step (at_word 0x80000020 pc true (lent r x y None) s es random) b
        ≡ went (at_word pc (word (pc + 4)) false (lent r x y None) (returned s) es
        (random_after 64 8 random)) b }
{}

/// Where the page-table word can be loaded, nine words put its entry into the slot where Random
/// stands six steps later, and go back to the program's address with register 26 zero and that
/// address in 27.
pub fn a_refill_goes_back()
    ensures { (r : Registers) (x y : ℕ) (s : System) (es : List Entry) (random place w : ℕ)
        (b : BusState)
        → HasWords b.memory → IsKernel s → length r.general ≡ 32 → slice_index r.general 0 ≡ 0
        → s.context < 2 ^ 32 → s.context % 4 ≡ 0
        → translate es (asid_of s) Kernel Load s.context ≡ Ok (at_physical place)
        → is_memory place ≡ true
        → word_at b.memory place ≡ w → w < 2 ^ 32 → w % 256 ≡ 0
        → RunsBy handler_events
        (at_word 0x80000000 0x80000004 false (lent r x y None) s es random) b
        (at_word s.epc (word (s.epc + 4)) false (lent r 0 s.epc None)
        (returned (record s { entry_lo = w }))
        (slice_set es (later 6 random) (entry_of s.entry_hi w)) (later 9 random)) }
{}

/// Where no entry has the page of the table, the third word raises a miss and goes on at the
/// general vector, with the program's address in register 27.
pub fn a_table_may_be_missed()
    ensures { (r : Registers) (x y old : ℕ) (s : System) (es : List Entry) (random : ℕ)
        (b : BusState)
        → HasWords b.memory → IsKernel s → length r.general ≡ 32 → x < 2 ^ 32 → x % 4 ≡ 0
        → nat_lt x (2 ^ 31) ≡ false → translate es (asid_of s) Kernel Load x ≡ Err Refill
        → step (at_word 0x80000008 0x8000000C false (lent r x y (late_of 27 old)) s es random) b
        ≡ record {
          event = Raised LoadMiss;
          core = at_word 0x80000080 0x80000084 false (lent r x y None) (entered s (table_miss x)) es
              (random_after 64 8 random);
          bus = b;
        } }
{}
