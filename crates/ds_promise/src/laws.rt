//! Who can change a page, what a guest can see, what a call can tell and what the log says: each law
//! is the contract of a function with an empty body.
ghost use Rattle.std.specs.Prelude.{
  ◌≡◌,
  ◌≢◌,
  ◌⊎◌,
  ◌++◌,
  ◌∷◌,
  ◌+◌,
  ◌<◌,
  ◌≤◌,
  ℕ,
  Bool,
  List,
  Option,
  Some,
  None,
  true,
  length,
  slice_set,
};
ghost use Rattle.ds_word.specs.Word.{word};
ghost use Rattle.ds_procs.specs.declared.call.Call.{Call};
ghost use Rattle.ds_pagemap.specs.Calls.{served};
ghost use Rattle.ds_pagemap.specs.Machine.{State, Process, process_of, with_process, touched};
ghost use Rattle.ds_policy.specs.declared.grant.Grant.{Grant};
ghost use Rattle.ds_policy.specs.Pages.{entry_at};
ghost use Rattle.ds_policy.specs.Grants.{is_some_right};
ghost use Rattle.ds_pagemap.specs.Run.{half_turn, after, Reaches};
ghost use Rattle.ds_pagemap.specs.Unit.{Stop, Branched, Called, Stopped, instruction, unit};
ghost use Rattle.ds_promise.specs.Stores.{OnlyStores, OnlyStoresAlong, StoresAlong, DiesAlong, Stored, live_page};
ghost use Rattle.ds_promise.specs.Answers.{CallsAlike, answer_of, with_answer};
ghost use Rattle.ds_promise.specs.Denied.{InstructionStops, IsParkedAt, EndsInSlot};
ghost use Rattle.ds_promise.specs.Lines.{lines_of_turn, lines_along};
ghost use Rattle.ds_promise.specs.Whole.{OneWordDiffers};
ghost use Rattle.ds_promise.specs.Seen.{LookAlike, BySameAction, StayAlike};

/// A page that lives before and after half a turn is the same, or the process that ran stored on it
/// under an entry of its own; so it is at each half turn of a run. A page that lives at both ends of
/// a run is the same, or was stored to on the way, or died in between. A store changes one word.
pub fn only_a_granted_store_changes_a_page()
    ensures half { (b : Bool) (m : State) → OnlyStores (touched b m) (half_turn b m) }
    ensures run { (n : ℕ) (choices : List Bool) (m : State) → OnlyStoresAlong n choices m }
    ensures ends { (n : ℕ) (choices : List Bool) (m : State) (page : ℕ) (old new : List ℕ) →
        live_page m.memory.pages page ≡ Some old →
        live_page (after n choices m).memory.pages page ≡ Some new →
        (new ≡ old) ⊎ (StoresAlong n choices m page ⊎ DiesAlong n choices m page) }
    ensures word { (m : State) (p pc page : ℕ) (old new : List ℕ) → Stored m p pc page old new →
        length old ≡ 4096 → OneWordDiffers old new }
{}

/// In two states that look alike to a process its instruction does one and the same thing, and the
/// states look alike to it after it.
pub fn a_guest_sees_nothing_but_what_it_was_granted()
    ensures action { (p pc : ℕ) (m t : State) → LookAlike p m t →
        BySameAction p m t (instruction m p pc) (instruction t p pc) }
    ensures alike { (p pc : ℕ) (m t : State) → LookAlike p m t →
        StayAlike p (instruction m p pc) (instruction t p pc) }
    ensures unit { (p : ℕ) (m t : State) (rest others : List ℕ) → LookAlike p m t →
        m.ready ≡ p ∷ rest → t.ready ≡ p ∷ others →
        instruction m p (process_of m p).pc ≢ Called → LookAlike p (unit m) (unit t) }
    ensures half { (p : ℕ) (b : Bool) (m t : State) (rest others : List ℕ) → LookAlike p m t →
        m.owed ≡ None → t.owed ≡ None → m.ready ≡ p ∷ rest → t.ready ≡ p ∷ others →
        instruction (touched b m) p (process_of (touched b m) p).pc ≢ Called →
        LookAlike p (half_turn b m) (half_turn b t) }
{}

/// Every state looks alike to itself, and to a process whatever the registers of the others are, and
/// the pages that none of its entries with a right names.
pub fn what_looks_alike()
    ensures itself { (p : ℕ) (m : State) → 0 < p → p ≤ length m.processes → LookAlike p m m }
    ensures registers { (p r : ℕ) (m : State) (q : Process) → 0 < p → p ≤ length m.processes →
        0 < r → p ≢ r → LookAlike p m (with_process m r q) }
    ensures pages { (p : ℕ) (m : State) (page : ℕ) (x : Option (List ℕ)) → 0 < p →
        p ≤ length m.processes →
        ((address : ℕ) (g : Grant) → entry_at m.memory.table p address ≡ Some g →
        is_some_right g.right ≡ true → g.page ≢ Some page) →
        LookAlike p m
        (record m { memory = record m.memory { pages = slice_set m.memory.pages page x } }) }
{}

/// A call changes of its process's registers register 2 alone, and that to its answer; and the
/// answer tells no more than what the definition lists for each call.
pub fn what_a_call_can_tell()
    ensures answer { (m : State) (p pc : ℕ) (c : Call) → 0 < p → p ≤ length m.processes →
        (process_of (served m p pc c) p).registers.general
        ≡ with_answer (process_of m p).registers.general (answer_of m p c) }
    ensures same { (p : ℕ) (m t : State) (c : Call) → CallsAlike p m t c →
        answer_of m p c ≡ answer_of t p c }
{}

/// The log of a state that a run reaches: a line for each denied or faulted unit, each refused give
/// and each refused command, in their order, and no other.
pub fn every_denial_is_logged_and_nothing_else()
    ensures half { (b : Bool) (m : State) →
        (half_turn b m).log ≡ m.log ++ lines_of_turn (touched b m) }
    ensures run { (n : ℕ) (choices : List Bool) (m : State) →
        (after n choices m).log ≡ m.log ++ lines_along n choices m }
    ensures reached { (n : ℕ) (m t : State) (r : Reaches n m t) →
        t.log ≡ m.log ++ lines_along n r.choices m }
{}

/// An instruction stops just where the table denies its fetch, its load or its store, or where it
/// is a fault of its own; its process is then parked where it stood.
pub fn an_instruction_stops_exactly_where_it_is_denied()
    ensures why { (m : State) (p pc : ℕ) (stop : Stop) → instruction m p pc ≡ Stopped stop →
        InstructionStops m p pc stop }
    ensures there { (m : State) (p pc : ℕ) (stop : Stop) → InstructionStops m p pc stop →
        instruction m p pc ≡ Stopped stop }
    ensures parked { (m : State) (p : ℕ) (rest : List ℕ) (stop : Stop) → 0 < p →
        p ≤ length m.processes → m.ready ≡ p ∷ rest →
        instruction m p (process_of m p).pc ≡ Stopped stop →
        IsParkedAt (unit m) p (process_of m p).pc }
    ensures slot { (m t : State) (p target : ℕ) (rest : List ℕ) → 0 < p →
        p ≤ length m.processes → m.ready ≡ p ∷ rest →
        instruction m p (process_of m p).pc ≡ Branched t target →
        EndsInSlot (instruction t p (word ((process_of m p).pc + 4))) →
        IsParkedAt (unit m) p (process_of m p).pc }
{}
