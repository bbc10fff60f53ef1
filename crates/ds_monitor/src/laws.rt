//! Services of the monitor: each law is the contract of a function with an empty body.
ghost use Rattle.std.specs.Prelude.{ℕ, List};
ghost use Rattle.ds_isa.specs.Registers.{Registers};
ghost use Rattle.ds_pagemap.specs.Machine.{State, process_of, with_process};
ghost use Rattle.ds_pagemap_laws.specs.Lawful.{AreRegisters};
ghost use Rattle.ds_refinement.specs.Held.{Kept};
ghost use Rattle.ds_refinement.specs.Inner.Services.{IsBare, Serves};
ghost use Rattle.ds_monitor.specs.Inner.Blind.{IsBlind};
ghost use Rattle.ds_monitor.specs.Inner.Kept.{kept_after};
ghost use Rattle.ds_monitor.specs.Inner.Orderly.{IsOrderly};

/// What is done to the state that is kept, without a look at pages, table and log, is done to the
/// state of the machine.
#[tactic(auto, using(crate::proofs::Serving::blind_serves))]
pub fn a_blind_change_serves()
    ensures { (f : State → State) (k : Kept) (memory : List ℕ) → IsBlind f → IsBare k.state
        → Serves f k memory (kept_after f k) memory }
{}

/// One service after another serves as one.
#[tactic(auto, using(crate::proofs::Serving::serves_then))]
pub fn a_service_follows_another()
    ensures { (f g : State → State) (a b c : Kept) (x y z : List ℕ) → Serves f a x b y
        → Serves g b y c z → Serves (λ (m : State). g (f m)) a x c z }
{}

/// A process that goes to its seat with good registers leaves what is kept orderly.
pub fn a_process_in_its_seat_is_orderly()
    ensures { (k : Kept) (process pc : ℕ) (r : Registers) → AreRegisters r → IsOrderly k
        → IsOrderly (kept_after (λ (m : State). with_process m process
        (record (process_of m process) { registers = r; pc = pc })) k) }
{}
