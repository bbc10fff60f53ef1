//! Rights that end by themselves: each law is the contract of a function with an empty body.
ghost use Rattle.std.specs.Prelude.{
  ◌≡◌,
  ◌≢◌,
  ◌<◌,
  ◌≤◌,
  ◌^◌,
  ℕ,
  Bool,
  List,
  Some,
  None,
  Ok,
  true,
  false,
};
ghost use Rattle.ds_isa.specs.declared.instr.Kind.{Kind};
ghost use Rattle.ds_isa.specs.declared.instr.Size.{Size};
ghost use Rattle.ds_isa.specs.Access.{is_aligned};
ghost use Rattle.ds_procs.specs.declared.call.Call.TheVariants.{Give};
ghost use Rattle.ds_pagemap.specs.Calls.{served};
ghost use Rattle.ds_policy.specs.declared.access.Rule.TheVariants.{Number};
ghost use Rattle.ds_policy.specs.declared.access.Verdict.TheVariants.{Allowed, Denied};
ghost use Rattle.ds_policy.specs.declared.grant.Grant.{Grant};
ghost use Rattle.ds_policy.specs.Pages.{Table, decide, entry_at, page_address, miss_code};
ghost use Rattle.ds_policy.specs.Grants.{is_some_right, give};
ghost use Rattle.ds_policy.specs.Ends.{is_reached};
ghost use Rattle.ds_policy.specs.PolicyFacts.{IsGoodPolicy};
ghost use Rattle.ds_policy.specs.Value.{PolicyValue};
ghost use Rattle.ds_pagemap.specs.declared.turn.Turn.{Turn};
ghost use Rattle.ds_pagemap.specs.Machine.{State, lives};
ghost use Rattle.ds_pagemap.specs.Inputs.{Sources, inputs, inputs_under};
ghost use Rattle.ds_pagemap.specs.Boundary.{after_commands, boundary};
ghost use Rattle.ds_pagemap.specs.Run.{half_turn, after, Reaches};
ghost use Rattle.ds_pagemap.specs.Laws.{due};
ghost use Rattle.ds_pagemap_laws.specs.Lawful.{IsLawful};
ghost use Rattle.ds_promise.specs.Families.{CameOf, IsOutOfReach};
ghost use Rattle.ds_promise.specs.Whole.{HasWholePages};
ghost use Rattle.ds_promise.specs.Lines.{refused_by, after_ends};
ghost use Rattle.ds_promise.specs.Ends.{IsInTime, HoldsInTime, EndsWithParents, grants_along};

/// In each state of a run in which a unit is next, each right ends later than the state's time, if it
/// ends. So an access that is allowed is allowed by an entry whose end has not come.
pub fn no_right_outlives_its_end()
    ensures first { (text : List ℕ) (sources : Sources) (input : List ℕ) (n random : ℕ)
        (m : State) → inputs text sources input n random ≡ Ok m → IsInTime m }
    ensures under { (policy : PolicyValue) (sources : Sources) (input : List ℕ) (n random : ℕ)
        (m : State) → IsGoodPolicy policy → inputs_under policy sources input n random ≡ Ok m →
        IsInTime m }
    ensures half { (b : Bool) (m : State) → IsInTime (half_turn b m) }
    ensures run { (n : ℕ) (m t : State) → Reaches n m t → IsInTime m → IsInTime t }
    ensures access { (m : State) (p : ℕ) (kind : Kind) (size : Size) (address page offset : ℕ) →
        IsInTime m → m.owed ≡ None →
        decide m.memory.table p kind size address ≡ Allowed page offset →
        HoldsInTime m p kind address page }
{}

/// After its end an entry lets nothing be done until something is granted anew at its place: by a
/// command or by a give, neither of them refused.
pub fn what_has_ended_is_out_of_reach_until_it_is_granted_anew()
    ensures { (n : ℕ) (choices : List Bool) (m : State) (q address end : ℕ) (g : Grant) →
        HasWholePages m → IsInTime m → 0 < q →
        entry_at m.memory.table q address ≡ Some g → g.until ≡ Some end →
        grants_along n choices m q address ≡ false →
        (after n choices m).owed ≡ None → end ≤ (after n choices m).time →
        IsOutOfReach (after n choices m).memory.table q address }
{}

/// What a give shares ends as the entry that it was shared from, and a copy never.
pub fn a_share_has_its_givers_end()
    ensures share { (m : State) (p pc address receiver to mode : ℕ) (g h : Grant) → mode ≢ 3 →
        refused_by (give (lives m) m.memory p address receiver to mode) ≡ None →
        entry_at m.memory.table p address ≡ Some g →
        entry_at (served m p pc (Give address receiver to mode)).memory.table receiver to ≡ Some h →
        h.until ≡ g.until }
    ensures copy { (m : State) (p pc address receiver to : ℕ) (h : Grant) →
        refused_by (give (lives m) m.memory p address receiver to 3) ≡ None →
        entry_at (served m p pc (Give address receiver to 3)).memory.table receiver to ≡ Some h →
        h.until ≡ None }
{}

/// Along each run, what came of an entry by sharing, however long the way, ends when that entry ends:
/// in the same step of the same boundary.
pub fn what_came_of_an_entry_ends_with_it()
    ensures first { (text : List ℕ) (sources : Sources) (input : List ℕ) (n random : ℕ)
        (m : State) → inputs text sources input n random ≡ Ok m → EndsWithParents m.memory.table }
    ensures under { (policy : PolicyValue) (sources : Sources) (input : List ℕ) (n random : ℕ)
        (m : State) → inputs_under policy sources input n random ≡ Ok m →
        EndsWithParents m.memory.table }
    ensures half { (b : Bool) (m : State) → IsLawful m → HasWholePages m →
        EndsWithParents m.memory.table → EndsWithParents (half_turn b m).memory.table }
    ensures run { (n : ℕ) (m t : State) → Reaches n m t → IsLawful m → HasWholePages m →
        EndsWithParents m.memory.table → EndsWithParents t.memory.table }
    ensures came { (table : Table) (p a q b : ℕ) (g h : Grant) → EndsWithParents table →
        CameOf table p a q b → entry_at table p a ≡ Some g → entry_at table q b ≡ Some h →
        is_some_right h.right ≡ true → h.until ≡ g.until }
{}

/// A boundary begins with the rights that have ended, and then come its commands. An entry whose
/// right has ended denies what it let be done, with its own rule.
pub fn an_ended_right_leaves_its_rule()
    ensures boundary { (m : State) (turn : Turn) → m.owed ≡ Some turn →
        (boundary m).memory ≡ (after_commands (after_ends m) (due m)).memory }
    ensures rule { (m : State) (p : ℕ) (kind : Kind) (size : Size) (address : ℕ) (g : Grant) →
        entry_at m.memory.table p (page_address address) ≡ Some g →
        is_some_right g.right ≡ true → is_reached m.time g.until ≡ true →
        is_aligned size address ≡ true → address < 2 ^ 31 →
        decide (after_ends m).memory.table p kind size address
        ≡ Denied (Number g.rule) (miss_code kind) }
{}
