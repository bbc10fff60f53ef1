//! What is worth a look in an input.
ghost use Rattle.std.specs.Prelude.{◌≡◌, ◌++◌, OnOk, IfOk, slice_get};
ghost use Rattle.ds_check.specs.InputNotes.{crowd, crowds, comes_then};

use ds_policy::{Character, Events, OutOfMemory};
use std::alloc::{AllocError, Global};

/// How many characters come in at a boundary, on all lines together; the rest of those that are due
/// are lost.
const MOST_TOGETHER: usize = 64;

/// Characters of one time, in ticks, of which a boundary takes only the first 64.
#[derive(Clone, Copy, Debug, PartialEq, Eq)]
pub struct Crowd {
    pub time: u64,
    pub count: usize,
}

/// The times at which more than 64 characters come in, in order, each with how many these are.
pub fn crowds(alloc: Global, events: Events) -> Result<Vec<Crowd>, OutOfMemory>
    ensures { IfOk result (λ v. v.items ≡ crowds events.characters) }
{
    let mut found = Vec::new(alloc);
    push_crowds(&mut found, events)?;
    Ok(found)
}

fn push_crowds(found: &mut Vec<Crowd>, mut events: Events) -> Result<(), AllocError>
    ensures { OnOk result (found.new.items ≡ found.old.items ++ crowds events.characters) }
{
    let mut left = events.characters().len();
    while let Some(character) = events.take_character() {
        if !comes_then(character.time, events.characters().first()) {
            push_crowd(found, character.time, left - events.characters().len())?;
            left = events.characters().len();
        }
    }
    Ok(())
}

/// Whether a character, if there is one, has this time.
fn comes_then(time: u64, character: Option<Character>) -> bool
    ensures { result ≡ comes_then time character }
{
    match character {
        Some(character) => character.time == time,
        None => false,
    }
}

/// Adds so many characters of one time, where these are more than a boundary takes.
fn push_crowd(found: &mut Vec<Crowd>, time: u64, count: usize) -> Result<(), AllocError>
    ensures { OnOk result (found.new.items ≡ found.old.items ++ crowd time count) }
{
    if count > MOST_TOGETHER {
        found.push(Crowd { time, count })?;
    }
    Ok(())
}
