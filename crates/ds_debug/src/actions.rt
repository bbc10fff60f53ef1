//! How far each process is to go.
ghost use Rattle.std.specs.Prelude.{◌≡◌, IfOk};
ghost use Rattle.ds_debug.specs.Resumes.{action_by, actions_by};

use ds_packets::{Action, Who, action_for, names_process};
use std::alloc::{AllocError, Global};

/// Processes have numbers below this.
const NUMBERS: u32 = 101;

/// How far a process is to go: by the one action for those that go, or by the words of a `vCont`.
fn action_by(action: Option<Action>, going: Who, words: &[u8], process: u32) -> Option<Action>
    ensures { result ≡ action_by action going words.now process }
{
    match action {
        Some(action) => {
            if names_process(going, process) {
                Some(action)
            } else {
                None
            }
        }
        None => action_for(words, process),
    }
}

/// How far each process that may be is to go.
pub(crate) fn actions_by(
    alloc: Global,
    action: Option<Action>,
    going: Who,
    words: &[u8],
) -> Result<Vec<Option<Action>>, AllocError>
    ensures { IfOk result (λ actions. actions.items ≡ actions_by action going words.now) }
{
    let mut actions = Vec::new(alloc);
    for process in 0..NUMBERS {
        actions.push(action_by(action, going, words, process))?;
    }
    Ok(actions)
}
