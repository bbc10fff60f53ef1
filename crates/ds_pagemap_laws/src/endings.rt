//! What makes a right end: the boundary at its time, and no call and no command before it.
ghost use Rattle.std.specs.Prelude.{◌+◌, ℕ};
ghost use Rattle.ds_procs.specs.declared.call.Call.{Call};
ghost use Rattle.ds_policy.specs.declared.command.Command.{Command};
ghost use Rattle.ds_policy.specs.Grants.{PageState};
ghost use Rattle.ds_policy.specs.Ends.{NoneEndsBefore, expired};
ghost use Rattle.ds_pagemap.specs.Machine.{State};
ghost use Rattle.ds_pagemap.specs.Calls.{served, after_command};
ghost use Rattle.ds_pagemap_laws.specs.Lawful.{IsLawful};

/// Where no right ends before a time, no call makes one end before it.
#[tactic(auto, using(crate::proofs::Ends::no_call_makes_an_end))]
pub fn no_call_makes_a_right_end()
    ensures { (time : ℕ) (m : State) (p pc : ℕ) (c : Call) → NoneEndsBefore time m.memory.table →
        NoneEndsBefore time (served m p pc c).memory.table }
{}

/// Nor does a command: one that takes a right away leaves none that could end.
#[tactic(auto, using(crate::proofs::Ends::no_command_makes_an_end))]
pub fn no_command_makes_a_right_end()
    ensures { (time : ℕ) (m : State) (k : ℕ) (c : Command) → NoneEndsBefore time m.memory.table →
        NoneEndsBefore time (after_command m k c).memory.table }
{}

/// Where the rights that have ended by a time are gone, no right that is left ends by then; and a
/// lawful state stays lawful.
pub fn what_has_ended_is_gone()
    ensures ends { (now : ℕ) (s : PageState) → NoneEndsBefore (now + 1) (expired s now).table }
    ensures lawful { (m : State) (now : ℕ) → IsLawful m →
        IsLawful (record m { memory = expired m.memory now }) }
{}
