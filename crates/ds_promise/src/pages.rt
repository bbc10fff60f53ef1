//! Pages along runs: they are whole, and change and come to live as granted only.
ghost use Rattle.std.specs.Prelude.{◌≡◌, ℕ, Bool, List, Some, None, Ok, length};
ghost use Rattle.ds_procs.specs.declared.call.Call.TheVariants.{Give};
ghost use Rattle.ds_policy.specs.Grants.{give};
ghost use Rattle.ds_policy.specs.PolicyFacts.{IsGoodPolicy};
ghost use Rattle.ds_policy.specs.Value.{PolicyValue};
ghost use Rattle.ds_pagemap.specs.Machine.{State, lives, touched};
ghost use Rattle.ds_pagemap.specs.Calls.{served};
ghost use Rattle.ds_pagemap.specs.Inputs.{Sources, inputs, inputs_under};
ghost use Rattle.ds_pagemap.specs.Run.{half_turn, Reaches};
ghost use Rattle.ds_promise.specs.Stores.{live_page};
ghost use Rattle.ds_promise.specs.Lines.{refused_by};
ghost use Rattle.ds_promise.specs.Whole.{HasWholePages, UnitCopies, IsCopied, ChangesAsGranted, ChangesAsGrantedAlong};

/// In each state of a run a page that lives has 4096 bytes, and what is granted lives.
pub fn pages_stay_whole()
    ensures first { (text : List ℕ) (sources : Sources) (input : List ℕ) (n random : ℕ)
        (m : State) → inputs text sources input n random ≡ Ok m → HasWholePages m }
    ensures under { (policy : PolicyValue) (sources : Sources) (input : List ℕ) (n random : ℕ)
        (m : State) → IsGoodPolicy policy → inputs_under policy sources input n random ≡ Ok m →
        HasWholePages m }
    ensures half { (b : Bool) (m : State) → HasWholePages m → HasWholePages (half_turn b m) }
    ensures run { (n : ℕ) (m t : State) → Reaches n m t → HasWholePages m → HasWholePages t }
{}

/// At each half turn a page that lives afterwards is as it was, or one word of it was stored under an
/// entry of the process that ran, or it is a new copy of a page that its giver was granted. So it is
/// along each run of inputs. No store makes a dead page live.
pub fn pages_change_only_as_granted()
    ensures half { (b : Bool) (m : State) → HasWholePages m →
        ChangesAsGranted (touched b m) (half_turn b m) }
    ensures run { (text : List ℕ) (sources : Sources) (input : List ℕ) (n random : ℕ)
        (first : State) (choices : List Bool) → inputs text sources input n random ≡ Ok first →
        ChangesAsGrantedAlong n choices first }
    ensures comes { (b : Bool) (m : State) (page : ℕ) (new : List ℕ) → HasWholePages m →
        live_page m.memory.pages page ≡ None →
        live_page (half_turn b m).memory.pages page ≡ Some new → UnitCopies (touched b m) new }
{}

/// A give by mode 3 that is not refused makes a page of the receiver's own, with the bytes that the
/// giver's page has at that moment.
pub fn a_copy_has_the_bytes_of_that_moment()
    ensures { (m : State) (p pc address receiver to : ℕ) → HasWholePages m →
        length m.memory.table ≡ length m.processes →
        refused_by (give (lives m) m.memory p address receiver to 3) ≡ None →
        IsCopied m (served m p pc (Give address receiver to 3)) p address receiver to }
{}
