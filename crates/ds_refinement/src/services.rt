//! Services that end the unit of the process that runs.
ghost use Rattle.std.specs.Prelude.{◌≡◌, ℕ, ◌∷◌, ◌⊎◌, true, false, List, None};
ghost use Rattle.ds_policy.specs.declared.access.Access.{Access};
ghost use Rattle.ds_policy.specs.declared.access.Rule.{Rule};
ghost use Rattle.ds_policy.specs.declared.access.Verdict.TheVariants.{Denied};
ghost use Rattle.ds_policy.specs.Pages.{decide};
ghost use Rattle.ds_grants.specs.State.{page_state};
ghost use Rattle.ds_pagemap.specs.Machine.{State, process_of, with_process};
ghost use Rattle.ds_pagemap.specs.Unit.{unit, fault, denied_as};
ghost use Rattle.ds_pagemap_laws.specs.Settled.{all_settled};
ghost use Rattle.ds_refinement.specs.declared.cause.Cause.TheVariants as cause;
ghost use Rattle.ds_refinement.specs.declared.step.Step.TheVariants.{Unit};
ghost use Rattle.ds_refinement.specs.Told.{told, is_delayed, own_in};
ghost use Rattle.ds_refinement.specs.Held.{Held};
ghost use Rattle.ds_refinement.specs.Units.{EndsUnit, is_served, has_left_user};
ghost use Rattle.ds_refinement.specs.Copying.{AwaitsCopy};
ghost use Rattle.ds_refinement.specs.Stands.{Stands};
ghost use Rattle.ds_refinement.specs.Inner.Stands.{IsSound};
ghost use Rattle.ds_refinement.specs.Steps.{Comes, Follows};
ghost use Rattle.ds_refinement.specs.Inner.Services.{EndsUnitBy, resume_address};
ghost use Rattle.ds_refinement.specs.Inner.Ends.{EndsInStop, EndsInCall};

/// Where the unit is what a service does to the state with its process in its seat, the service
/// ends it. What it does may be anything before or after which late loads may be finished.
pub fn a_service_ends_its_unit()
    ensures { (f : State → State) (h new : Held) (m : State) (p : ℕ) (rest : List ℕ)
        → ((s : State) → all_settled (f s) ≡ f (all_settled s))
        → Stands h m → h.kept.state.ready ≡ p ∷ rest → m.owed ≡ None
        → unit m ≡ f (with_process m p (record (process_of m p) {
          registers = h.core.registers;
          pc = resume_address h.core;
        }))
        → EndsUnitBy f h new → Comes Unit new m }
{}

/// The unit is stopped where what was told is an access that the table denies, a fault, or a call
/// from the slot of a branch.
pub fn a_stop_ends_its_unit()
    ensures access { (h new : Held) (p : ℕ) (rest : List ℕ) (access : Access) (rule : Rule)
        (code : ℕ) → h.kept.state.ready ≡ p ∷ rest → is_served h.core ≡ true
        → has_left_user h.core ≡ true
        → told h.core.system (page_state h.kept.grants h.bus.memory) p ≡ cause.Access access
        → decide h.kept.grants.table p access.kind access.size h.core.system.bad_vaddr
        ≡ Denied rule code
        → EndsInStop p (record {
          kind = denied_as access.kind;
          address = h.core.system.bad_vaddr;
          rule = rule;
          code = code;
        }) h new → Follows Unit h new }
    ensures fault { (h new : Held) (p : ℕ) (rest : List ℕ) (code : ℕ)
        → h.kept.state.ready ≡ p ∷ rest → is_served h.core ≡ true
        → has_left_user h.core ≡ true
        → told h.core.system (page_state h.kept.grants h.bus.memory) p ≡ cause.Fault code
        → EndsInStop p (fault (own_in h.core.system) code) h new → Follows Unit h new }
    ensures slot { (h new : Held) (p : ℕ) (rest : List ℕ)
        → h.kept.state.ready ≡ p ∷ rest → is_served h.core ≡ true
        → has_left_user h.core ≡ true
        → told h.core.system (page_state h.kept.grants h.bus.memory) p ≡ cause.Call
        → is_delayed h.core.system ≡ true
        → EndsInStop p (fault (own_in h.core.system) 8) h new → Follows Unit h new }
{}

/// The unit is a call where what was told is one, outside of slots.
pub fn a_call_ends_its_unit()
    ensures { (h new : Held) (p : ℕ) (rest : List ℕ)
        → h.kept.state.ready ≡ p ∷ rest → is_served h.core ≡ true
        → has_left_user h.core ≡ true
        → told h.core.system (page_state h.kept.grants h.bus.memory) p ≡ cause.Call
        → is_delayed h.core.system ≡ false
        → EndsInCall p h new → Follows Unit h new }
{}

/// An exception of the program that waits for its service ends its unit, where it is a call, a
/// fault, or an access that the table denies; or it is a store that waits for a copy.
pub fn what_waits_ends_its_unit_or_awaits_a_copy()
    ensures { (h : Held) (p : ℕ) (rest : List ℕ) → IsSound h → h.kept.state.ready ≡ p ∷ rest
        → is_served h.core ≡ true → has_left_user h.core ≡ true
        → EndsUnit (page_state h.kept.grants h.bus.memory) p h.core.system.bad_vaddr
        (told h.core.system (page_state h.kept.grants h.bus.memory) p)
        ⊎ AwaitsCopy h.core.system h.kept.grants p }
{}
