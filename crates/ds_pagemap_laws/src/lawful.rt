//! States of runs are lawful, and stay so.
ghost use Rattle.std.specs.Prelude.{◌≡◌, ◌+◌, ◌<◌, ◌≤◌, ℕ, Bool, List, length, Option};
ghost use Rattle.ds_procs.specs.declared.call.Call.{Call};
ghost use Rattle.ds_policy.specs.declared.command.Command.{Command};
ghost use Rattle.ds_policy.specs.declared.command.TimedCommand.{TimedCommand};
ghost use Rattle.ds_policy.specs.declared.command.Character.{Character};
ghost use Rattle.ds_pagemap.specs.Machine.{State, touched};
ghost use Rattle.ds_pagemap.specs.Unit.{unit};
ghost use Rattle.ds_pagemap.specs.Run.{Reaches};
ghost use Rattle.ds_pagemap.specs.Calls.{served, after_command};
ghost use Rattle.ds_pagemap.specs.Boundary.{after_commands, all_queued, woken, rotated, boundary};
ghost use Rattle.ds_pagemap_laws.specs.Lawful.{IsWellFormed, IsLawful};

/// Each call of a process that is there keeps a state lawful.
pub fn calls_keep_states_lawful()
    ensures { (m : State) (p pc : ℕ) (c : Call) → 0 < p → p ≤ length m.processes →
        IsLawful m → IsLawful (served m p pc c) }
{}

/// So does each command.
pub fn commands_keep_states_lawful()
    ensures one { (m : State) (k : ℕ) (c : Command) → IsLawful m → IsLawful (after_command m k c) }
    ensures all { (m : State) (cs : List TimedCommand) → IsLawful m →
        IsLawful (after_commands m cs) }
{}

/// The characters of a boundary keep a state well-formed; who wakes then leaves it lawful, and the
/// rotation keeps it so.
pub fn steps_of_a_boundary_keep_states_well_formed()
    ensures characters { (m : State) (cs : List Character) → IsWellFormed m →
        IsWellFormed (record m { queues = all_queued m.queues cs }) }
    ensures some { (m : State) (p n : ℕ) → 0 < p → p + n ≤ length m.processes + 1 → IsWellFormed m →
        IsWellFormed (woken m p n) }
    ensures all { (m : State) → IsWellFormed m → IsLawful (woken m 1 (length m.processes)) }
    ensures rotated { (m : State) (runner : Option ℕ) → IsWellFormed m →
        IsWellFormed (rotated m runner) }
    ensures lawful { (m : State) (runner : Option ℕ) → IsLawful m → IsLawful (rotated m runner) }
{}

/// The whole boundary keeps a state lawful.
pub fn boundaries_keep_states_lawful()
    ensures { (m : State) → IsLawful m → IsLawful (boundary m) }
{}

/// A unit, and a touch, keep a state lawful; so each state that a run reaches is lawful.
pub fn runs_keep_states_lawful()
    ensures unit { (m : State) → IsLawful m → IsLawful (unit m) }
    ensures touch { (b : Bool) (m : State) → IsLawful m → IsLawful (touched b m) }
    ensures run { (n : ℕ) (m t : State) → Reaches n m t → IsLawful m → IsLawful t }
{}
