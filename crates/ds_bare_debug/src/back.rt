//! A run that is gone through anew, to come back.
ghost use Rattle.std.specs.Prelude.{◌≡◌, ◌<◌, ◌≤◌, ◌^◌, IfOk, OnOk};
ghost use Rattle.ds_bare_debug.specs.Going.{last_stop, place_before, place_or, step_before, stop_before};
ghost use Rattle.ds_bare_debug.specs.Positions.{first_position, position};
ghost use Rattle.ds_bare_debug.specs.Inner.Goals.{goal_seen};
ghost use Rattle.ds_bare_debug.specs.Runs.{run_seen};

use crate::goals::{Goal, stop_after};
use crate::runner::{BareRun, Runner};
use crate::watches::{first_differing, watched_now};
use ds_gdb::Reason;
use ds_packets::Action;
use std::alloc::{AllocError, Global};

/// A place of a run, by how many instructions are done, and why the run stands there.
#[derive(Clone, Copy, Debug, PartialEq, Eq)]
pub struct Place {
    pub done: u64,
    pub reason: Reason,
}

/// This place, where something stops there, and else that.
fn place_or(reason: Option<Reason>, done: u64, other: Place) -> Place
    ensures { result ≡ place_or reason done other }
{
    match reason {
        Some(reason) => Place { done, reason },
        None => other,
    }
}

/// The beginning of a run.
fn first_place() -> Place
    ensures { result ≡ record { done = 0; reason = Reason.Begin } }
{
    Place {
        done: 0,
        reason: Reason::Begin,
    }
}

/// A run at its beginning, anew.
fn anew<'b>(alloc: Global, run: BareRun<'b>) -> Result<Runner<'b>, AllocError>
    ensures { IfOk result (λ runner. runner ≡ first_position (run_seen run.entry)) }
{
    match Runner::new(alloc, run) {
        Ok(runner) => Ok(runner),
        Err(_) => Err(AllocError),
    }
}

/// The last position of the first so many that stops; a run comes to the last of them.
fn last_stop<'a, 'b>(
    alloc: Global,
    run: BareRun<'b>,
    runner: &mut Runner<'b>,
    count: u64,
    goal: Goal<'a>,
) -> Result<Place, AllocError>
    requires first { runner.old ≡ first_position (run_seen run) }
    requires few { count < 2 ^ 32 }
    ensures place { IfOk result
        (λ place. place ≡ last_stop (run_seen run.entry) (goal_seen goal.entry) count) }
    ensures early { IfOk result (λ place. place.done ≤ count) }
    ensures there { OnOk result (runner.new ≡ position (run_seen run.entry) count) }
{
    let mut place = first_place();
    for done in 0..count {
        let seen = watched_now(alloc, runner.machine(), goal.watchpoints)?;
        runner.step()?;
        place = place_or(stop_after(runner, goal, seen.as_slice()), done + 1, place);
    }
    Ok(place)
}

/// The last position before the one after so many instructions that stops. A watched byte that changed
/// with the last instruction stops there.
fn stop_before<'a, 'b>(
    alloc: Global,
    run: BareRun<'b>,
    runner: &mut Runner<'b>,
    done: u64,
    goal: Goal<'a>,
) -> Result<Place, AllocError>
    requires first { runner.old ≡ first_position (run_seen run) }
    requires few { done < 2 ^ 32 }
    ensures place { IfOk result
        (λ place. place ≡ stop_before (run_seen run.entry) (goal_seen goal.entry) done) }
    ensures early { IfOk result (λ place. place.done ≤ done) }
{
    if done == 0 {
        return Ok(first_place());
    }
    let place = last_stop(alloc, run, runner, done - 1, goal)?;
    let seen = watched_now(alloc, runner.machine(), goal.watchpoints)?;
    runner.step()?;
    Ok(place_or(
        first_differing(runner.machine(), seen.as_slice()),
        done,
        place,
    ))
}

/// The position before the one after so many instructions.
fn step_before(done: u64) -> Place
    ensures place { result ≡ step_before done }
    ensures early { result.done ≤ done }
{
    if done == 0 {
        first_place()
    } else {
        Place {
            done: done - 1,
            reason: Reason::Rest,
        }
    }
}

/// To which position an action goes back from the one after so many instructions.
pub(crate) fn place_before<'a, 'b>(
    alloc: Global,
    run: BareRun<'b>,
    action: Action,
    done: u64,
    goal: Goal<'a>,
) -> Result<Place, AllocError>
    requires { done < 2 ^ 32 }
    ensures place { IfOk result (λ place. place
        ≡ place_before (run_seen run.entry) (goal_seen goal.entry) action done) }
    ensures early { IfOk result (λ place. place.done ≤ done) }
{
    match action {
        Action::Step => Ok(step_before(done)),
        Action::Continue | Action::Range { .. } => {
            let mut runner = anew(alloc, run)?;
            stop_before(alloc, run, &mut runner, done, goal)
        }
    }
}

/// A run at the position after so many instructions.
pub(crate) fn runner_at<'b>(
    alloc: Global,
    run: BareRun<'b>,
    done: u64,
) -> Result<Runner<'b>, AllocError>
    requires { done < 2 ^ 32 }
    ensures { IfOk result (λ runner. runner ≡ position (run_seen run.entry) done) }
{
    let mut runner = anew(alloc, run)?;
    runner.pass(done)?;
    Ok(runner)
}
