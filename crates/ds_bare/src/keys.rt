//! The characters of an input.
ghost use Rattle.std.specs.Prelude.{◌≡◌, ◌++◌, IfErr, IfOk, Ok, []};
ghost use Rattle.ds_policy.specs.InputText.{input_of};
ghost use Rattle.ds_bare.specs.Keys.{keys_in};
ghost use Rattle.ds_bare.specs.Inner.Keys.{IsFaultOf};

use ds_policy::{Character, Events, EventsFault, Policy};
use std::alloc::{AllocError, Global};

/// A policy without a page.
const NO_PAGES: &[u8] = b"version = 1\nframes = 1\nprocess = [{ start = 0, line = 0 }]\n";

/// The characters of an input, each with its time, or the first line that is wrong. Commands are read
/// and left out; one that names a page is wrong, for there is none.
pub fn keys_of(alloc: Global, input: &[u8]) -> Result<Vec<Character>, EventsFault>
    ensures keys { IfOk result (λ v. keys_in (input_of [] input.now) ≡ Ok v.items) }
    ensures fault { IfErr result (IsFaultOf (input_of [] input.now)) }
{
    let policy = match Policy::read(alloc, NO_PAGES) {
        Ok(policy) => policy,
        // The policy is a good one: only memory can run out.
        Err(_) => return Err(EventsFault::Memory),
    };
    if !policy.pages().is_empty() {
        return Err(EventsFault::Memory);
    }
    let events = Events::read(alloc, input, &policy)?;
    let keys = characters_of(alloc, events)?;
    Ok(keys)
}

/// The characters of what an input says.
fn characters_of(alloc: Global, mut events: Events) -> Result<Vec<Character>, AllocError>
    ensures { IfOk result (λ v. v.items ≡ events.characters) }
{
    let mut keys = Vec::new(alloc);
    while let Some(character) = events.take_character() {
        keys.push(character)?;
    }
    Ok(keys)
}
