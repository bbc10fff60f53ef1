//! That all refusals have one order.
ghost use Rattle.std.specs.Prelude.{ℕ, Bool};
ghost use Rattle.ds_policy.specs.Grants.{PageState};
ghost use Rattle.ds_grants.specs.Inner.Order.{HaveOneOrder};

/// Each call and command is refused by the first of the checks that apply, in the one
/// order: no process, no page, no entry, not allowed, taken, no room in the table, a fifth region,
/// no frame, not given.
pub fn refusals_have_one_order()
    ensures { (lives : ℕ → Bool) (s : PageState) → HaveOneOrder lives s }
{}
