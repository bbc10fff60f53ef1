//! A run that goes forward to where something stops.
ghost use Rattle.std.specs.Prelude.{◌≡◌, ◌-◌, IfOk};
ghost use Rattle.ds_bare_debug.specs.Going.{next_stop};
ghost use Rattle.ds_bare_debug.specs.Inner.Goals.{goal_seen};

use crate::goals::{Goal, stop_after};
use crate::runner::Runner;
use crate::watches::watched_now;
use ds_gdb::Reason;
use std::alloc::{AllocError, Global};

/// Goes on to the first position at which something stops, or to the last of a run of at most so many
/// instructions, and answers why the run stands there.
pub(crate) fn go<'a, 'b>(
    alloc: Global,
    runner: &mut Runner<'b>,
    limit: u32,
    goal: Goal<'a>,
) -> Result<Reason, AllocError>
    ensures { IfOk result (λ reason. record { position = runner.new; reason = reason }
        ≡ next_stop (goal_seen goal.entry) (limit - runner.old.done) runner.old) }
{
    while runner.done() < u64::from(limit) {
        if runner.is_over() {
            return Ok(Reason::End);
        }
        let seen = watched_now(alloc, runner.machine(), goal.watchpoints)?;
        runner.step()?;
        match stop_after(runner, goal, seen.as_slice()) {
            Some(reason) => return Ok(reason),
            None => {}
        }
    }
    Ok(Reason::End)
}
