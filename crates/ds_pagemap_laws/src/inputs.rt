//! What inputs make: the first states of runs, and events in order.
ghost use Rattle.std.specs.Prelude.{◌≡◌, ℕ, List, length, Ok};
ghost use Rattle.std.specs.List.Sorted.{IsNonDecreasingBy};
ghost use Rattle.ds_policy.specs.declared.command.TimedCommand.{TimedCommand};
ghost use Rattle.ds_policy.specs.declared.command.Character.{Character};
ghost use Rattle.ds_policy.specs.InputFacts.{has_time, comes_at};
ghost use Rattle.ds_pagemap.specs.Machine.{State, process_of};
ghost use Rattle.ds_pagemap.specs.Boundary.{boundary};
ghost use Rattle.ds_pagemap.specs.Inputs.{Sources, inputs, inputs_by};
ghost use Rattle.ds_pagemap.specs.First.{first_state};
ghost use Rattle.ds_pagemap_laws.specs.Further.{further};
ghost use Rattle.ds_pagemap_laws.specs.Due.{IsInOrder, SplitsAt, due_count};
ghost use Rattle.ds_pagemap_laws.specs.Lawful.{IsLawful};

/// Every first state is lawful, each of its processes has 32 registers, and its events are in
/// order.
pub fn first_states_are_lawful()
    ensures lawful { (text : List ℕ) (sources : Sources) (input : List ℕ) (n random : ℕ)
        (m : State) → inputs text sources input n random ≡ Ok m → IsLawful m }
    ensures registers { (text : List ℕ) (sources : Sources) (input : List ℕ) (n random : ℕ)
        (m : State) (p : ℕ) → inputs text sources input n random ≡ Ok m →
        length (process_of m p).registers.general ≡ 32 }
    ensures order { (text : List ℕ) (sources : Sources) (input : List ℕ) (n random : ℕ)
        (m : State) → inputs text sources input n random ≡ Ok m → IsInOrder m }
{}

/// A first state is made at the end of the chain that reads policy, sources and input; and what is
/// made further of it may be made there too, with the same refusals.
pub fn inputs_make_first_states()
    ensures first { (text : List ℕ) (sources : Sources) (input : List ℕ) (n random : ℕ) →
        inputs text sources input n random ≡ inputs_by first_state text sources input n random }
    ensures further { (f : State → State) (text : List ℕ) (sources : Sources) (input : List ℕ)
        (n random : ℕ) →
        inputs_by (λ policy images events. f (first_state policy images events))
        text sources input n random
        ≡ further f (inputs text sources input n random) }
{}

/// Of events in order, those that are due at a time are a prefix, and the later ones are the rest.
pub fn what_is_due_is_a_front()
    ensures commands { (now : ℕ) (cs : List TimedCommand) → IsNonDecreasingBy has_time cs →
        SplitsAt has_time now cs (due_count has_time now cs) }
    ensures characters { (now : ℕ) (cs : List Character) → IsNonDecreasingBy comes_at cs →
        SplitsAt comes_at now cs (due_count comes_at now cs) }
{}

/// A boundary leaves what is still to come in order.
pub fn boundaries_leave_events_in_order()
    ensures { (m : State) → IsInOrder m → IsInOrder (boundary m) }
{}
