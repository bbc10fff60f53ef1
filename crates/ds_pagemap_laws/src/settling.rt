//! To finish all late loads commutes with what the monitor does.
ghost use Rattle.std.specs.Prelude.{◌≡◌, ℕ, List, Some, None};
ghost use Rattle.ds_procs.specs.declared.call.Call.{Call};
ghost use Rattle.ds_policy.specs.declared.command.Command.{Command};
ghost use Rattle.ds_policy.specs.declared.command.TimedCommand.{TimedCommand};
ghost use Rattle.ds_pagemap.specs.declared.turn.Turn.{Turn};
ghost use Rattle.ds_pagemap.specs.Machine.{State, Process, process_of, with_process, touched_process};
ghost use Rattle.ds_pagemap.specs.Calls.{served, after_command};
ghost use Rattle.ds_pagemap.specs.Boundary.{after_commands, boundary};
ghost use Rattle.ds_pagemap.specs.Unit.{Stop, parked, after_call};
ghost use Rattle.ds_pagemap_laws.specs.Settled.{settled_process, all_settled};
ghost use Rattle.ds_pagemap_laws.specs.Due.{HasNothingToDo};

/// A call, whichever it is.
#[tactic(auto, using(crate::proofs::Calls::served_settles))]
pub fn calls_settle()
    ensures { (m : State) (p pc : ℕ) (c : Call) →
        all_settled (served m p pc c) ≡ served (all_settled m) p pc c }
{}

/// A command, and one after the other.
#[tactic(auto, using(crate::proofs::Calls::command_settles, crate::proofs::Calls::commands_settle))]
pub fn commands_settle()
    ensures one { (m : State) (k : ℕ) (c : Command) →
        all_settled (after_command m k c) ≡ after_command (all_settled m) k c }
    ensures all { (m : State) (cs : List TimedCommand) →
        all_settled (after_commands m cs) ≡ after_commands (all_settled m) cs }
{}

/// A boundary, with its commands, characters and rotation.
#[tactic(auto, using(crate::proofs::Boundaries::boundary_settles))]
pub fn boundaries_settle()
    ensures { (m : State) → all_settled (boundary m) ≡ boundary (all_settled m) }
{}

/// A unit that stops, and one that is a call.
pub fn ends_of_units_settle()
    ensures stops { (m : State) (p unit pc : ℕ) (stop : Stop) →
        all_settled (parked m p unit pc stop) ≡ parked (all_settled m) p unit pc stop }
    ensures calls { (m : State) (p pc : ℕ) →
        all_settled (after_call m p pc) ≡ after_call (all_settled m) p pc }
{}

/// One process is read and put among settled ones as among others.
#[tactic(auto, using(crate::proofs::Processes::of_settled, crate::proofs::Processes::with_settled))]
pub fn processes_settle()
    ensures read { (m : State) (p : ℕ) →
        process_of (all_settled m) p ≡ settled_process (process_of m p) }
    ensures put { (m : State) (p : ℕ) (q : Process) →
        all_settled (with_process m p q) ≡ with_process (all_settled m) p (settled_process q) }
    ensures touched { (q : Process) → touched_process (settled_process q) ≡ touched_process q }
{}

/// A boundary that has nothing to do only takes away what is owed.
#[tactic(auto, using(crate::proofs::Boundaries::quiet_boundary))]
pub fn a_boundary_with_nothing_to_do_changes_nothing()
    ensures { (m : State) (turn : Turn) → m.owed ≡ Some turn → HasNothingToDo turn m →
        boundary m ≡ record m { owed = None } }
{}
