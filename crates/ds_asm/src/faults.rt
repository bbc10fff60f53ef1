//! All faults of a source.
ghost use Rattle.std.specs.Prelude.{◌≡◌, ◌≤◌, ◌++◌, ℕ, List, [], IfOk, OnOk, Ok, Err, option_map};
ghost use Rattle.std.specs.Option.{option_to_list};
ghost use Rattle.std.specs.Result.{result_err};
ghost use Rattle.ds_asm.specs.Inner.Assembling.{Lays, held_address};
ghost use Rattle.ds_asm.specs.Assembly.{assembled, empty_layout, fault_at, line_bytes, lines_of, laid_lines};
ghost use Rattle.ds_asm.specs.Assembly as assembly;
ghost use Rattle.ds_asm.specs.Faults.{all_faults, first_faults, second_faults};
ghost use Rattle.ds_asm.specs.Inner.Faults.{BeginsWith, ComesOf};
ghost use Rattle.ds_asm.specs.Lines.{line_of};

use crate::cause::{Cause, Stop};
use crate::fault::{AsmFault, SourceFault};
use crate::image::Image;
use crate::labels::Labels;
use crate::layout::{Layout, ORIGIN};
use crate::line::{Statement, line_of};
use crate::second_pass::{bytes_of, known, resolved};
use crate::source::{first_line, source_line};
use std::alloc::{AllocError, Global};

/// What comes of a source: its image, or all its faults.
#[derive(Drop)]
pub enum Assembled {
    Image(Image),
    /// At most one for each line, in the order of the lines; there is one at least.
    Faults(Vec<SourceFault>),
}

/// What the first pass finds: its faults, and where it has none the layout.
#[derive(Drop)]
struct FirstPass<'a> {
    layout: Layout<'a>,
    faults: Vec<SourceFault>,
}

/// All faults of a source, at most one for each line, in the order of the lines: those of the first
/// pass, or, where it has none, those of the second. The first of them is the one that `assemble`
/// tells; there are none where it answers an image.
pub fn all_faults(alloc: Global, text: &[u8]) -> Result<Vec<SourceFault>, AllocError>
    ensures all { IfOk result (λ faults. faults.items ≡ all_faults text.now) }
    ensures first { IfOk result (λ faults. (fault : SourceFault) → assembled text.now ≡ Err fault
        → BeginsWith fault faults.items) }
    ensures none { IfOk result (λ faults. (image : List ℕ) → assembled text.now ≡ Ok image
        → faults.items ≡ []) }
{
    match assemble_or_faults(alloc, text)? {
        Assembled::Image(_) => Ok(Vec::new(alloc)),
        Assembled::Faults(faults) => Ok(faults),
    }
}

/// The image of a source, or all faults that it has, by one walk over its labels.
pub fn assemble_or_faults(alloc: Global, text: &[u8]) -> Result<Assembled, AllocError>
    ensures { IfOk result (λ came. ComesOf text.now came) }
{
    let FirstPass { layout, faults } = first_pass(alloc, text)?;
    if !faults.is_empty() {
        return Ok(Assembled::Faults(faults));
    }
    match bytes_of(alloc, text, &layout.labels) {
        Ok(bytes) => Ok(Assembled::Image(Image::of(bytes))),
        Err(AsmFault::Source(_)) => {
            let faults = second_faults(alloc, text, &layout.labels)?;
            Ok(Assembled::Faults(faults))
        }
        Err(AsmFault::Memory) => Err(AllocError),
    }
}

/// The first pass, which goes on after a fault.
#[inline(never)]
fn first_pass(alloc: Global, text: &[u8]) -> Result<FirstPass<'_>, AllocError>
    ensures faults { IfOk result (λ p.
        p.faults.items ≡ first_faults 1 empty_layout (lines_of text.now)) }
    ensures laid { IfOk result (λ p. p.faults.items ≡ []
        → Lays p.layout (laid_lines 1 empty_layout (lines_of text.now))) }
{
    let mut faults = Vec::new(alloc);
    let mut layout = Layout::new(alloc);
    let mut number = 0u64;
    let mut rest = text;
    while !rest.is_empty() {
        let (line, after) = first_line(rest);
        number += 1;
        match layout.add_line(line) {
            Ok(()) => {}
            Err(Stop::Refused(cause)) => {
                faults.push(cause.fault(number))?;
                layout.size = 0;
            }
            Err(Stop::Memory) => return Err(AllocError),
        }
        rest = after;
    }
    Ok(FirstPass { layout, faults })
}

/// The faults of the second pass over a source that the first has laid out.
fn second_faults<'a>(
    alloc: Global,
    text: &'a [u8],
    labels: &Labels<'a>,
) -> Result<Vec<SourceFault>, AllocError>
    requires { (last : assembly.Layout) × (laid_lines 1 empty_layout (lines_of text.now) ≡ Ok last) }
    ensures { IfOk result (λ faults.
        faults.items ≡ second_faults 1 (held_address labels.now) 0 (lines_of text.now)) }
{
    let mut faults = Vec::new(alloc);
    let mut place = 0u64;
    let mut number = 0u64;
    let mut rest = text;
    while !rest.is_empty() {
        let (line, after) = first_line(rest);
        number += 1;
        push_fault(&mut faults, number, second_cause(labels, place, line))?;
        place += source_line(line).size;
        rest = after;
    }
    Ok(faults)
}

/// Why the second pass refuses a line, where it stands at a place of the image.
fn second_cause<'a>(labels: &Labels<'a>, place: u64, line: &'a [u8]) -> Option<Cause>
    requires { place ≤ 65536 }
    ensures { result
        ≡ result_err (line_bytes (held_address labels.now) place (line_of line.now)) }
{
    match line_of(line).ok()?.statement? {
        Statement::Instruction(instruction) => {
            resolved(labels, u64::from(ORIGIN) + place + 4, &instruction).err()
        }
        Statement::WordOf(name) => known(labels, name).err(),
        Statement::Word(_) | Statement::Byte(_) | Statement::Space(_) => None,
    }
}

/// Adds the fault of line `number`, where there is a cause.
fn push_fault(
    faults: &mut Vec<SourceFault>,
    number: u64,
    cause: Option<Cause>,
) -> Result<(), AllocError>
    ensures { OnOk result (faults.new.items
        ≡ faults.old.items ++ option_to_list (option_map (fault_at number) cause)) }
{
    if let Some(cause) = cause {
        faults.push(cause.fault(number))?;
    }
    Ok(())
}
