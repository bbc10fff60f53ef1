//! What a branch does that is done again: each law is the contract of a function with an empty
//! body.
ghost use Rattle.std.specs.Prelude.{◌≡◌, ℕ, ◌<◌, ◌≤◌, ◌⊎◌, length, None};
ghost use Rattle.ds_isa.specs.Registers.{Registers, settled};
ghost use Rattle.ds_pagemap.specs.Machine.{State, process_of, with_process, touched_process};
ghost use Rattle.ds_pagemap.specs.Unit.{Branched, instruction, with_registers};
ghost use Rattle.ds_refinement.specs.Inner.Services.{touched_registers};
ghost use Rattle.ds_refinement.specs.Units.{IsLinked};

/// A branch that has written its link does the same again, since its link is none of what it
/// reads; and no load is late after it.
pub fn a_branch_done_again_does_the_same()
    ensures again { (m : State) (p : ℕ) (r : Registers) (target : ℕ)
        → (0 < p) × (p ≤ length m.processes) → (process_of m p).registers.late ≡ None
        → instruction m p (process_of m p).pc ≡ Branched (with_registers m p r) target
        → instruction (with_registers m p r) p (process_of m p).pc
        ≡ instruction m p (process_of m p).pc }
    ensures settled { (m : State) (p : ℕ) (r : Registers) (target : ℕ)
        → (0 < p) × (p ≤ length m.processes)
        → instruction m p (process_of m p).pc ≡ Branched (with_registers m p r) target
        → settled r ≡ r }
{}

/// A touch after a branch leaves its link in place, or takes it away.
pub fn a_touch_leaves_a_link_or_takes_it_away()
    ensures { (m : State) (p : ℕ) (r : Registers) (target : ℕ)
        → (0 < p) × (p ≤ length m.processes)
        → instruction m p (process_of m p).pc ≡ Branched (with_registers m p r) target
        → (touched_registers r (process_of m p).pc ≡ (touched_process (process_of m p)).registers)
        ⊎ IsLinked (touched_registers r (process_of m p).pc) p
        (with_process m p (touched_process (process_of m p))) }
{}
