//! Each law is the contract of a function with an empty body.
ghost use Rattle.std.specs.Prelude.{◌≡◌, ℕ, List, Ok, true, false, replicate};
ghost use Rattle.ds_isa.specs.declared.instr.Instr.{Instr};
ghost use Rattle.ds_isa.specs.Registers.{Registers};
ghost use Rattle.ds_isa.specs.Meaning.{meaning};
ghost use Rattle.ds_pagemap.specs.Machine.{State};
ghost use Rattle.ds_pagemap.specs.Run.{goes_on, after, Ends};
ghost use Rattle.ds_pagemap.specs.Inputs.{Sources, inputs};
ghost use Rattle.ds_pagemap.specs.Text.{state_text};
ghost use Rattle.ds_promise.specs.Alike.{AreAlike, DoAlike, is_quiet};
ghost use Rattle.ds_promise.specs.Quiet.{quiet_halves, IsQuiet};
ghost use Rattle.ds_promise.specs.Twins.{HaveRegisters};

/// A quiet instruction does alike over registers that are alike.
pub fn quiet_instructions_do_alike()
    ensures { (i : Instr) (pc : ℕ) (r s : Registers) → AreAlike r s → is_quiet r i ≡ true →
        DoAlike (meaning i pc r) (meaning i pc s) }
{}

/// A quiet run writes the text of the run that never touches; so two runs of one quiet first state
/// write one text.
pub fn quiet_runs_look_alike()
    ensures untouched { (n : ℕ) (m t : State) → HaveRegisters m → IsQuiet n m → Ends n m t →
        (k : ℕ) × (state_text t ≡ state_text (after n (replicate k false) m))
        × (goes_on n (after n (replicate k false) m) ≡ false) }
    ensures one { (n : ℕ) (m t u : State) → HaveRegisters m → IsQuiet n m →
        Ends n m t → Ends n m u → state_text t ≡ state_text u }
{}

/// A run is quiet where so many half turns of it are, computed one after the other, and it has
/// ended then; of a quiet run any number of half turns are.
#[tactic(auto, using(crate::proofs::Found::found, crate::proofs::Found::always))]
pub fn quiet_runs_are_found()
    ensures found { (n k : ℕ) (m : State) → quiet_halves n k m ≡ true →
        goes_on n (after n (replicate k false) m) ≡ false → IsQuiet n m }
    ensures always { (n k : ℕ) (m : State) → IsQuiet n m → quiet_halves n k m ≡ true }
{}

/// Where Random starts can't be seen: the first states of two starts are one, and where it is
/// quiet, the runs of both write one text.
pub fn the_start_of_random_is_not_seen()
    ensures registers { (text : List ℕ) (sources : Sources) (input : List ℕ) (n r : ℕ)
        (m : State) → inputs text sources input n r ≡ Ok m → HaveRegisters m }
    ensures first { (text : List ℕ) (sources : Sources) (input : List ℕ) (n r s : ℕ)
        (m o : State) → inputs text sources input n r ≡ Ok m →
        inputs text sources input n s ≡ Ok o → m ≡ o }
    ensures text { (text : List ℕ) (sources : Sources) (input : List ℕ) (n r s : ℕ)
        (m o t u : State) → inputs text sources input n r ≡ Ok m →
        inputs text sources input n s ≡ Ok o → IsQuiet n m → Ends n m t → Ends n o u → state_text t ≡ state_text u }
{}
