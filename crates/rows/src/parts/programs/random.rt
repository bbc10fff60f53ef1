//! Random programs, by single steps and ahead.
ghost use Rattle.std.specs.Prelude.{◌≡◌};

mod dice;
mod pair;
mod start;
mod turn;
mod words;

use crate::parts::exceptions::EXCEPTIONS;
use crate::parts::reached::Reached;
use ds_mem::FRAMES;
use ds_rows::Outcome;
use ds_tlb::{Indexed, Lookaside, Tlb};
pub use pair::Pair;
use std::alloc::Global;
use std::io;
use std::io::{ErrorKind, Write};

/// The steps of a program.
const STEPS: u32 = 1000;

/// Goes through every other one of so many programs, from the first or the second on. Answers the
/// number of the first that did not go alike, and after how many steps, if one did not; the number of
/// all where only the memories are not alike that they left.
fn first_difference<A: Lookaside, B: Lookaside>(
    pair: &mut Pair<A, B>,
    first: u32,
    programs: u32,
    reached: &mut Reached,
) -> Option<(u32, u32)>
    requires slots { A.SLOTS ≡ 64 }
    requires wired { A.WIRED ≡ 8 }
    requires ahead_slots { B.SLOTS ≡ 64 }
    requires ahead_wired { B.WIRED ≡ 8 }
{
    for number in first..programs {
        if number % 2 == first {
            if let Some(steps) = pair.differ(number, reached) {
                return Some((number, steps));
            }
        }
    }
    if pair.have_like_frames(0, FRAMES as u32) {
        None
    } else {
        Some((programs, 0))
    }
}

/// Where these programs did not go alike, if they did not; none where there is no memory for them.
fn go_through<A: Lookaside, B: Lookaside>(
    alloc: Global,
    first: u32,
    programs: u32,
    reached: &mut Reached,
) -> Option<Option<(u32, u32)>>
    requires slots { A.SLOTS ≡ 64 }
    requires wired { A.WIRED ≡ 8 }
    requires ahead_slots { B.SLOTS ≡ 64 }
    requires ahead_wired { B.WIRED ≡ 8 }
{
    let mut pair: Pair<A, B> = Pair::new(alloc)?;
    Some(first_difference(&mut pair, first, programs, reached))
}

/// Goes through so many programs, each over either buffer in turn, and tells what they reached, where all
/// went alike.
pub fn run_random<W: Write>(alloc: Global, programs: u32, out: &mut W) -> io::Result<Outcome> {
    let mut reached = Reached::new();
    let even = go_through::<Tlb<64, 8>, Indexed<64, 8>>(alloc, 0, programs, &mut reached);
    let odd = go_through::<Indexed<64, 8>, Tlb<64, 8>>(alloc, 1, programs, &mut reached);
    if is_alike(even, out)? && is_alike(odd, out)? {
        tell(programs, &reached, out)?;
        Ok(Outcome::AsExpected)
    } else {
        Ok(Outcome::StepsDiffer)
    }
}

/// Tells of the first program that did not go alike; whether there is none.
fn is_alike<W: Write>(outcome: Option<Option<(u32, u32)>>, out: &mut W) -> io::Result<bool> {
    let Some(difference) = outcome else {
        return Err(io::Error::from(ErrorKind::OutOfMemory));
    };
    if let Some((number, steps)) = difference {
        write!(
            out,
            "random program {number}: not alike after {steps} steps\n"
        )?;
    }
    Ok(difference.is_none())
}

/// Tells what so many programs reached.
fn tell<W: Write>(programs: u32, reached: &Reached, out: &mut W) -> io::Result<()> {
    let Reached {
        steps,
        user,
        branches,
        late,
        ..
    } = reached;
    write!(out, "{programs} random programs of {STEPS} steps: alike\n")?;
    write!(
        out,
        "{steps} steps: {user} in user mode, {branches} branches, {late} late loads\n"
    )?;
    for code in &EXCEPTIONS {
        let count = reached.exceptions[code.number() as usize % 16];
        write!(out, "{count} of {code:?}\n")?;
    }
    Ok(())
}
