//! What a unit has written into the buffer stays while it goes on: a law is the contract of a
//! function with an empty body.
ghost use Rattle.std.specs.Prelude.{ℕ};
ghost use Rattle.ds_refinement.specs.declared.step.Step.TheVariants.{Inside};
ghost use Rattle.ds_refinement.specs.Held.{Held, Own};
ghost use Rattle.ds_refinement.specs.Counts.{HasNone};
ghost use Rattle.ds_refinement.specs.Inner.Stands.{IsSound};
ghost use Rattle.ds_refinement.specs.Steps.{Follows, Moves};
ghost use Rattle.ds_refinement.specs.Real.{IsReal};
ghost use Rattle.ds_refinement.specs.Inner.Written.{HasWritten, KeepsWritten};

/// What a refill or a double miss wrote into the buffer in this unit stays in its slot in each real
/// step inside the unit, and in one after the other; and no other slot changes. After a copy a slot
/// keeps at least its page and its address space. A unit that begins has written nothing.
pub fn a_unit_keeps_what_it_wrote()
    ensures step { (old new : Held) → IsSound old → Follows Inside old new → Moves Inside old new
        → IsReal old new → KeepsWritten old new }
    ensures join { (old between new : Held) → KeepsWritten old between → KeepsWritten between new
        → KeepsWritten old new }
    ensures none { (own : Own) (slot : ℕ) → HasNone own → HasWritten own slot → ⊥ }
{}
