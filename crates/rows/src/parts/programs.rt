//! Programs on the processor alone, by single steps and ahead, side by side.
ghost use Rattle.std.specs.Prelude.{◌≡◌};

mod lockstep;
pub mod machine;
mod random;

use ds_asm::{Image, assemble};
use ds_drive::Files;
use ds_rows::Outcome;
use ds_tlb::{Indexed, Lookaside, Tlb};
use machine::Machine;
use random::Pair;
pub use random::run_random;
use std::alloc::Global;
use std::io;
use std::io::{ErrorKind, Write};

/// The image of a source.
fn image_of<F: Files + Drop>(alloc: Global, name: &str, files: F) -> Option<Image> {
    let mut files = files;
    let source = files.read(alloc, name).ok()?;
    assemble(alloc, source.as_slice()).ok()
}

/// Goes so many instructions of one program ahead, and tells where it stands, and what register 4 holds.
pub fn run_ahead<F: Files + Drop, W: Write>(
    alloc: Global,
    name: &str,
    count: u32,
    files: F,
    out: &mut W,
) -> io::Result<Outcome> {
    let Some(image) = image_of(alloc, name, files) else {
        return Ok(Outcome::NoFile);
    };
    let Some((pc, four)) = came_to(alloc, &image, count) else {
        return Err(io::Error::from(ErrorKind::OutOfMemory));
    };
    write!(out, "{pc} {four}\n")?;
    Ok(Outcome::AsExpected)
}

/// Where a program stands after so many instructions ahead, and what register 4 holds then.
fn came_to(alloc: Global, image: &Image, count: u32) -> Option<(u32, u32)> {
    let mut machine: Machine<Indexed<64, 8>> = Machine::blank(alloc)?;
    Some(machine.come_to(image, count))
}

/// Goes through a program both ways; what register 17 holds then, if they went alike. None where
/// there is no memory for it, too.
fn go_both_ways<A: Lookaside, B: Lookaside>(alloc: Global, image: &Image) -> Option<u32>
    requires slots { A.SLOTS ≡ 64 }
    requires wired { A.WIRED ≡ 8 }
    requires ahead_slots { B.SLOTS ≡ 64 }
    requires ahead_wired { B.WIRED ≡ 8 }
{
    let mut pair: Pair<A, B> = Pair::new(alloc)?;
    pair.wrong(image)
}

/// Goes through a program both ways, over either buffer. Each goes round for ever; those that test
/// something count in register 17 what came out wrong.
pub fn run_program<F: Files + Drop, W: Write>(
    alloc: Global,
    name: &str,
    files: F,
    out: &mut W,
) -> io::Result<Outcome> {
    let Some(image) = image_of(alloc, name, files) else {
        return Ok(Outcome::NoFile);
    };
    match wrong_of(alloc, &image) {
        None => Ok(Outcome::StepsDiffer),
        Some(0) => Ok(Outcome::AsExpected),
        Some(wrong) => {
            write!(out, "{name}: {wrong} wrong\n")?;
            Ok(Outcome::Untold)
        }
    }
}

/// What register 17 holds after a program, if both ways went alike over either buffer.
fn wrong_of(alloc: Global, image: &Image) -> Option<u32> {
    go_both_ways::<Tlb<64, 8>, Indexed<64, 8>>(alloc, image)?;
    go_both_ways::<Indexed<64, 8>, Tlb<64, 8>>(alloc, image)
}
