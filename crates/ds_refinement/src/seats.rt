//! The running process and its seat among those that are kept.
ghost use Rattle.std.specs.Prelude.{◌≡◌, ℕ, ◌^◌, ◌∷◌, true, List, length};
ghost use Rattle.ds_grants.specs.Sound.{NamesPages};
ghost use Rattle.ds_grants.specs.Represented.{IsRepresented};
ghost use Rattle.ds_refill.specs.Handler.{HasWords};
ghost use Rattle.ds_pagemap.specs.Machine.{State, process_of, with_process, touched};
ghost use Rattle.ds_pagemap_laws.specs.Settled.{all_settled};
ghost use Rattle.ds_refinement.specs.Held.{Held, Kept, space_of};
ghost use Rattle.ds_refinement.specs.Inner.Held.{whole};
ghost use Rattle.ds_refinement.specs.Handling.{HasBase};
ghost use Rattle.ds_refinement.specs.Counts.{HasNone, HasRanges, counts_of};
ghost use Rattle.ds_refinement.specs.Stands.{Agrees, Stands, AreResting};
ghost use Rattle.ds_refinement.specs.Inner.Stands.{IsKept};
ghost use Rattle.ds_refinement.specs.Inner.Services.{EntersBy, seated, resume_address};

/// Once the running process is in its seat, with the registers of the processor and the address at
/// which it goes on, all is kept.
pub fn the_runner_leaves()
    ensures { (h : Held) (m : State) (p : ℕ) (rest : List ℕ) → Agrees h m
        → h.kept.state.ready ≡ p ∷ rest
        → IsKept (seated h.core h.kept) h.bus.memory (with_process m p (record (process_of m p) {
          registers = h.core.registers;
          pc = resume_address h.core;
        })) }
{}

/// Where all is kept and nothing is counted, the first ready process comes on the processor, touched.
pub fn the_first_comes_in()
    ensures { (h : Held) (m : State) → IsKept h.kept h.bus.memory m
        → IsRepresented h.core.entries h.bus.memory h.kept.tables h.kept.spaces h.kept.grants
        → HasWords h.bus.memory → HasBase h.core.system → NamesPages h.kept.grants
        → length h.bus.memory ≡ 2 ^ 23 → AreResting h.bus h.kept
        → HasNone h.own → HasRanges h.core (counts_of h.own)
        → EntersBy h.kept.state.ready h.core h.kept → Stands h (touched true m) }
{}

/// What is kept of a state is the whole of it, with its late loads finished.
pub fn what_is_kept_is_the_whole_state()
    ensures { (k : Kept) (memory : List ℕ) (m : State) → IsKept k memory m
        → all_settled m ≡ whole k memory m.log }
{}
