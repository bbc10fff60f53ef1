//! What comes of entries that were shared: each law is the contract of a function with an empty body.
ghost use Rattle.std.specs.Prelude.{◌≡◌, ◌+◌, ◌<◌, ℕ, Some, None, true};
ghost use Rattle.ds_procs.specs.declared.call.Call.TheVariants as call;
ghost use Rattle.ds_policy.specs.declared.command.Command.TheVariants as command;
ghost use Rattle.ds_policy.specs.Pages.{entry_at};
ghost use Rattle.ds_policy.specs.Grants.{give, take, drop_own, forbidden_by};
ghost use Rattle.ds_pagemap.specs.Machine.{State, lives};
ghost use Rattle.ds_pagemap.specs.Calls.{served, after_command};
ghost use Rattle.ds_promise.specs.Lines.{refused_by, command_refusal};
ghost use Rattle.ds_promise.specs.Families.{AllHaveOwnAddresses, CameOf, IsOrCameOf, IsOutOfReach, PassesOn, HandsOn};

/// A take that is not refused leaves neither the entry that it names nor any that came of that one by
/// sharing, however long the way: nothing in their pages is allowed any more. Every other entry is as
/// it was.
pub fn what_is_taken_back_is_out_of_reach()
    ensures gone { (m : State) (p pc holder address q b : ℕ) →
        AllHaveOwnAddresses m.memory.table →
        refused_by (take (lives m) m.memory p holder address) ≡ None →
        IsOrCameOf m.memory.table holder address q b →
        entry_at (served m p pc (call.Take holder address)).memory.table q b ≡ None }
    ensures reach { (m : State) (p pc holder address q b : ℕ) →
        AllHaveOwnAddresses m.memory.table →
        refused_by (take (lives m) m.memory p holder address) ≡ None →
        IsOrCameOf m.memory.table holder address q b →
        IsOutOfReach (served m p pc (call.Take holder address)).memory.table q b }
    ensures others { (m : State) (p pc holder address q b : ℕ) → 0 < q →
        refused_by (take (lives m) m.memory p holder address) ≡ None →
        (IsOrCameOf m.memory.table holder address q b → ⊥) →
        entry_at (served m p pc (call.Take holder address)).memory.table q b
        ≡ entry_at m.memory.table q b }
{}

/// A revoke that is not refused leaves the entry that it names, and each that came of that one by
/// sharing, however long the way, without a right and with the command's rule: nothing in their pages
/// is allowed any more. Every other entry is as it was.
pub fn what_is_revoked_is_out_of_reach()
    ensures left { (m : State) (k holder address q b : ℕ) →
        command_refusal m k (command.Revoke holder address) ≡ None →
        IsOrCameOf m.memory.table holder address q b →
        entry_at (after_command m k (command.Revoke holder address)).memory.table q b
        ≡ Some (forbidden_by (1000 + k)) }
    ensures reach { (m : State) (k holder address q b : ℕ) →
        command_refusal m k (command.Revoke holder address) ≡ None →
        IsOrCameOf m.memory.table holder address q b →
        IsOutOfReach (after_command m k (command.Revoke holder address)).memory.table q b }
    ensures others { (m : State) (k holder address q b : ℕ) → 0 < q →
        command_refusal m k (command.Revoke holder address) ≡ None →
        (IsOrCameOf m.memory.table holder address q b → ⊥) →
        entry_at (after_command m k (command.Revoke holder address)).memory.table q b
        ≡ entry_at m.memory.table q b }
{}

/// A copy came of no entry, so no take and no revoke of another entry reaches it.
pub fn a_copy_is_not_reached()
    ensures { (m : State) (p pc address receiver to holder at : ℕ) →
        refused_by (give (lives m) m.memory p address receiver to 3) ≡ None →
        CameOf (served m p pc (call.Give address receiver to 3)).memory.table holder at receiver to → ⊥ }
{}

/// When a process drops an entry, or a command drops it, the others stay. What was shared from it is
/// then as if it was shared from the one above it.
pub fn a_drop_hands_shares_to_the_one_above()
    ensures call { (m : State) (p pc address : ℕ) → 0 < p →
        refused_by (drop_own m.memory p address) ≡ None →
        PassesOn m.memory.table (served m p pc (call.Drop address)).memory.table p address }
    ensures command { (m : State) (k p address : ℕ) →
        command_refusal m k (command.Drop p address) ≡ None →
        PassesOn m.memory.table (after_command m k (command.Drop p address)).memory.table p address }
{}

/// When a process ends, its entries go and those of the others stay. What was shared from one of its
/// entries is then as if it was shared from the nearest one above that stays.
pub fn an_end_hands_shares_to_the_nearest_that_stays()
    ensures exit { (m : State) (p pc : ℕ) → 0 < p →
        HandsOn m.memory.table (served m p pc call.Exit).memory.table p }
    ensures stop { (m : State) (k p : ℕ) → lives m p ≡ true →
        HandsOn m.memory.table (after_command m k (command.Stop p)).memory.table p }
{}
