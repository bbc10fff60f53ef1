//! The words of a command.
ghost use Rattle.std.specs.Prelude.{◌≡◌, ◌++◌, OnOk};
ghost use Rattle.std.specs.List.{slice_get};
ghost use Rattle.ds_policy.specs.Words.{after_blank};
ghost use Rattle.ds_check.specs.Coming.{granted_words, may_give_text, name_text, words_text};

use ds_policy::{Command, PolicyPage};
use ds_text::sheet::{push_decimal, push_hex};
use std::alloc::AllocError;

/// Adds a command in the words of an input.
pub(crate) fn push_words(
    sheet: &mut Vec<u8>,
    pages: &[PolicyPage],
    command: Command,
) -> Result<(), AllocError>
    ensures { OnOk result (sheet.new.items ≡ sheet.old.items ++ words_text pages.now command) }
{
    sheet.extend_from_slice(command.verb().as_bytes())?;
    sheet.extend_from_slice(b" ")?;
    push_decimal(sheet, u64::from(command.process()))?;
    push_address(sheet, command.address())?;
    push_granted(sheet, pages, command)
}

/// Adds an address after a blank, where there is one.
fn push_address(sheet: &mut Vec<u8>, address: Option<u32>) -> Result<(), AllocError>
    ensures { OnOk result (sheet.new.items ≡ sheet.old.items ++ after_blank address) }
{
    match address {
        Some(address) => {
            sheet.extend_from_slice(b" ")?;
            push_hex(sheet, address)
        }
        None => Ok(()),
    }
}

/// Adds what is granted by a command that grants.
fn push_granted(
    sheet: &mut Vec<u8>,
    pages: &[PolicyPage],
    command: Command,
) -> Result<(), AllocError>
    ensures { OnOk result (sheet.new.items ≡ sheet.old.items ++ granted_words pages.now command) }
{
    match command {
        Command::Grant {
            page,
            right,
            give,
            ..
        } => {
            sheet.extend_from_slice(b" ")?;
            push_name(sheet, pages, page)?;
            sheet.extend_from_slice(b" ")?;
            sheet.extend_from_slice(right.word().as_bytes())?;
            sheet.extend_from_slice(give_word(give))
        }
        _ => Ok(()),
    }
}

/// Adds the name of the page of this number, if there is one.
pub(crate) fn push_name(
    sheet: &mut Vec<u8>,
    pages: &[PolicyPage],
    page: u32,
) -> Result<(), AllocError>
    ensures { OnOk result
        (sheet.new.items ≡ sheet.old.items ++ name_text (slice_get pages.now page)) }
{
    match pages.get(page as usize) {
        Some(page) => sheet.extend_from_slice(page.name.as_str().as_bytes()),
        None => Ok(()),
    }
}

fn give_word(give: bool) -> &'static [u8]
    ensures { result.now ≡ may_give_text give }
{
    if give { b" give" } else { b"" }
}
