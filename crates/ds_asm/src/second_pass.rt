//! The second pass: the bytes of the lines, where the labels are known.
ghost use Rattle.std.specs.Prelude.{◌≡◌, ◌++◌, ◌∷◌, [], OnOk, Ok, Some, None, length, replicate};
ghost use Rattle.ds_word.specs.Bytes.{bytes_of_word};
ghost use Rattle.ds_asm.specs.Inner.Assembling.{Assembles, Takes, held_address};
ghost use Rattle.ds_asm.specs.Assembly.{branch_field, jump_field, known, resolved, statement_bytes, line_bytes, bytes_from, lines_of};
ghost use Rattle.ds_asm.specs.Lines.{line_of};
ghost use Rattle.ds_asm.specs.Inner.Plain.{plain_target, plain_instruction, plain_statement};

use crate::cause::{Cause, Stop};
use crate::fault::AsmFault;
use crate::form::Place;
use crate::instruction::{Instruction, Target};
use crate::labels::Labels;
use crate::layout::ORIGIN;
use crate::line::{Statement, line_of};
use crate::source::first_line;
use std::alloc::{AllocError, Global};

/// The bytes of a source whose labels the first pass has found, or its first fault of the second
/// pass.
pub(crate) fn bytes_of<'a>(
    alloc: Global,
    text: &'a [u8],
    labels: &Labels<'a>,
) -> Result<Vec<u8>, AsmFault>
    ensures { Assembles (λ v. v.items) result
        (bytes_from 1 (held_address labels.now) [] (lines_of text.now)) }
{
    let mut bytes = Vec::new(alloc);
    let mut number = 0u64;
    let mut rest = text;
    while !rest.is_empty() {
        let (line, after) = first_line(rest);
        number += 1;
        match add_line(&mut bytes, labels, line) {
            Ok(()) => rest = after,
            Err(stop) => return Err(stop.fault(number)),
        }
    }
    Ok(bytes)
}

/// Adds the bytes of a line.
fn add_line<'a>(bytes: &mut Vec<u8>, labels: &Labels<'a>, line: &'a [u8]) -> Result<(), Stop>
    ensures { Takes (λ _ more. bytes.new.items ≡ bytes.old.items ++ more) result
        (line_bytes (held_address labels.now) (length bytes.old.items) (line_of line.now)) }
{
    match line_of(line) {
        Err(_) => Ok(()),
        Ok(line) => match line.statement {
            None => Ok(()),
            Some(statement) => add_statement(bytes, labels, &statement),
        },
    }
}

fn add_statement<'a>(
    bytes: &mut Vec<u8>,
    labels: &Labels<'a>,
    statement: &Statement<'a>,
) -> Result<(), Stop>
    ensures { Takes (λ _ more. bytes.new.items ≡ bytes.old.items ++ more) result
        (statement_bytes (held_address labels.now) (length bytes.old.items)
        (plain_statement statement.now)) }
{
    match statement {
        Statement::Instruction(instruction) => {
            let slot = u64::from(ORIGIN) + bytes.len() as u64 + 4;
            let word = resolved(labels, slot, instruction)?;
            add_word(bytes, word)?;
        }
        Statement::Word(value) => add_word(bytes, value.as_word())?,
        Statement::WordOf(name) => {
            let address = known(labels, name)?;
            add_word(bytes, address)?;
        }
        Statement::Byte(value) => bytes.push((value.as_word() % 256) as u8)?,
        Statement::Space(count) => add_zeros(bytes, count.magnitude)?,
    }
    Ok(())
}

/// The word of an instruction whose slot has an address.
pub(crate) fn resolved<'a>(
    labels: &Labels<'a>,
    slot: u64,
    instruction: &Instruction<'a>,
) -> Result<u32, Cause>
    ensures { result ≡ resolved (held_address labels.now) slot
        (plain_instruction instruction.now) (plain_target instruction.now.target) }
{
    let (place, field) = match instruction.target {
        Target::Nowhere => return Ok(instruction.word),
        Target::Branch(name) => {
            let address = known(labels, name)?;
            (Place::Immediate, branch_field(slot, address))
        }
        Target::Jump(name) => {
            let address = known(labels, name)?;
            (Place::Target, jump_field(slot, address))
        }
    };
    match field {
        Some(field) => Ok(instruction.with_value(place, field).word),
        None => Err(Cause::OutOfReach),
    }
}

/// The address of a label that has to stand somewhere.
pub(crate) fn known<'a>(labels: &Labels<'a>, name: &'a [u8]) -> Result<u32, Cause>
    ensures { result ≡ known (held_address labels.now name.now) }
{
    labels.address_of(name).ok_or(Cause::UnknownLabel)
}

/// How many words lie between a slot and an address, in 16 bits, if they suffice.
fn branch_field(slot: u64, address: u32) -> Option<u32>
    ensures { result ≡ branch_field slot address }
{
    let address = u64::from(address);
    if address % 4 != 0 {
        return None;
    }
    if slot <= address {
        let ahead = (address - slot) / 4;
        if ahead < 0x8000 {
            Some(ahead as u32)
        } else {
            None
        }
    } else {
        let back = (slot - address) / 4;
        if back <= 0x8000 {
            Some((0x1_0000 - back) as u32)
        } else {
            None
        }
    }
}

/// The number of an address's word in the 256 MiB of a slot, if it stands there.
fn jump_field(slot: u64, address: u32) -> Option<u32>
    ensures { result ≡ jump_field slot address }
{
    let region = u64::from(address / 0x1000_0000);
    if address % 4 == 0 && region == slot / 0x1000_0000 {
        Some(address / 4 % 0x400_0000)
    } else {
        None
    }
}

/// Adds a word, its lowest byte first.
fn add_word(bytes: &mut Vec<u8>, word: u32) -> Result<(), AllocError>
    ensures { OnOk result (bytes.new.items ≡ bytes.old.items ++ bytes_of_word word) }
{
    bytes.extend_from_slice(&word.to_le_bytes())
}

fn add_zeros(bytes: &mut Vec<u8>, count: u64) -> Result<(), AllocError>
    ensures { OnOk result (bytes.new.items ≡ bytes.old.items ++ replicate count 0) }
{
    for _ in 0..count {
        bytes.push(0)?;
    }
    Ok(())
}
