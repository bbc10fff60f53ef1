//! What a boundary does to the time and the pages.
ghost use Rattle.std.specs.Prelude.{◌≡◌, [], None, false};
ghost use Rattle.ds_policy.specs.Ends.{has_some_expired};
ghost use Rattle.ds_pagemap.specs.Machine.{State};
ghost use Rattle.ds_pagemap.specs.Boundary.{boundary};
ghost use Rattle.ds_pagemap.specs.Laws.{due};

/// A boundary takes no time.
#[tactic(auto, using(crate::proofs::Boundaries::boundary_time))]
pub fn a_boundary_takes_no_time()
    ensures { (m : State) → (boundary m).time ≡ m.time }
{}

/// No boundary is owed after a boundary.
#[tactic(auto, using(crate::proofs::Boundaries::boundary_owed))]
pub fn a_boundary_is_done_once()
    ensures { (m : State) → (boundary m).owed ≡ None }
{}

/// Where no command is due and no right has ended, a boundary changes no page and no entry.
#[tactic(auto, using(crate::proofs::Boundaries::boundary_memory))]
pub fn a_boundary_without_commands_and_ends_leaves_the_pages()
    ensures { (m : State) → due m ≡ [] → has_some_expired m.time m.memory.table ≡ false →
        (boundary m).memory ≡ m.memory }
{}
