//! What stops a run.
ghost use Rattle.std.specs.Prelude.{◌≡◌};
ghost use Rattle.ds_bare_debug.specs.Goals.{is_asked, or_else, stop_here};
ghost use Rattle.ds_bare_debug.specs.Watches.{first_differing};
ghost use Rattle.ds_bare_debug.specs.Inner.Goals.{goal_seen};

use crate::runner::Runner;
use crate::watches::{Seen, first_differing};
use ds_gdb::{Breakpoint, Reason, Watchpoint, is_break, is_done};
use ds_packets::Action;

/// How far a run is to go, and what stops it.
#[derive(Clone, Copy)]
pub(crate) struct Goal<'a> {
    pub(crate) action: Action,
    pub(crate) breakpoints: &'a [Breakpoint],
    pub(crate) watchpoints: &'a [Watchpoint],
    /// After how many instructions it is to stop once.
    pub(crate) stop_at: Option<u64>,
}

/// Whether it is to stop after so many instructions.
pub(crate) fn is_asked(stop_at: Option<u64>, done: u64) -> bool
    ensures { result ≡ is_asked stop_at done }
{
    match stop_at {
        Some(asked) => asked == done,
        None => false,
    }
}

/// What stops at a position by how far the run is to go, or by a breakpoint.
fn stop_here<'a>(goal: Goal<'a>, done: u64, address: u32) -> Option<Reason>
    ensures { result ≡ stop_here (goal_seen goal.entry) done address }
{
    if is_done(goal.action, address) || is_asked(goal.stop_at, done) {
        Some(Reason::Rest)
    } else if is_break(goal.breakpoints, 1, address) {
        Some(Reason::Break)
    } else {
        None
    }
}

/// What stops at a position, where these were seen before it.
pub(crate) fn stop_after<'a, 'b>(
    runner: &Runner<'b>,
    goal: Goal<'a>,
    seen: &[Seen],
) -> Option<Reason>
    ensures { result ≡ or_else (first_differing runner.now.machine seen.now)
        (stop_here (goal_seen goal.entry) runner.now.done runner.now.machine.core.pc) }
{
    match first_differing(runner.machine(), seen) {
        Some(reason) => Some(reason),
        None => stop_here(goal, runner.done(), runner.machine().address()),
    }
}
