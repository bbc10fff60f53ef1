//! The source of a file's bytes.
ghost use Rattle.std.specs.Prelude.{◌≡◌, ◌<◌, ◌≤◌, ◌++◌, IfOk, Ok, OnOk, length};
ghost use Rattle.std.specs.List.{All};
ghost use Rattle.std.specs.String.{string_bytes};
ghost use Rattle.ds_asm.specs.Assembly.{assembled};
ghost use Rattle.ds_listing.specs.Inner.Laws.{AreSaid};
ghost use Rattle.ds_listing.specs.NamedTexts.{bytes_as, file_as};
ghost use Rattle.ds_listing.specs.Sources.{byte_line, byte_lines, elf_comment, word_of_bytes};
ghost use Rattle.ds_listing.specs.Inner.Sources.{source_of_file};

use crate::law::a_word_is_read_back;
use crate::line::push_word_as;
use crate::names::RegisterNames;
use ds_text::string::push_byte;
use std::alloc::{AllocError, Global};

/// The bytes with which an ELF file begins.
const ELF_MAGIC: &[u8] = b"\x7FELF";

/// What tells of them.
const ELF_COMMENT: &str = "# this file begins as an ELF file does\n";

/// The source of a file's bytes: the text of the word of each four, as `push_word` adds it, and for
/// each of the one to three bytes that may be left at the end a line `.byte`. A comment stands before
/// it where the file begins as an ELF file does, since such a file is no image. Where they are no more
/// than the 65,536 bytes of an image, the source assembles to them.
#[tactic(auto, using(crate::proofs::NamedTexts::plain_file))]
pub fn source_of_file(alloc: Global, bytes: &[u8]) -> Result<String, AllocError>
    ensures text { IfOk result (λ t. string_bytes t ≡ source_of_file bytes.now) }
    ensures back { length bytes.now ≤ 65536 → IfOk result (λ t.
        assembled (string_bytes t) ≡ Ok bytes.now) }
{
    source_of_file_as(alloc, bytes, RegisterNames::Numbers)
}

/// As `source_of_file`, with registers called by these names. By their numbers it is the same text.
#[tactic(auto, using(crate::proofs::NamedTexts::plain_file))]
pub fn source_of_file_as(
    alloc: Global,
    bytes: &[u8],
    names: RegisterNames,
) -> Result<String, AllocError>
    ensures text { IfOk result (λ t. string_bytes t ≡ file_as names bytes.now) }
    ensures plain { file_as RegisterNames.Numbers bytes.now ≡ source_of_file bytes.now }
    ensures back { names ≡ RegisterNames.Numbers → length bytes.now ≤ 65536 → IfOk result (λ t.
        assembled (string_bytes t) ≡ Ok bytes.now) }
{
    let mut text = String::new(alloc);
    text.push_str(elf_comment(bytes))?;
    push_source(&mut text, bytes, names)?;
    Ok(text)
}

/// The comment, where bytes begin as an ELF file does; else nothing.
fn elf_comment(bytes: &[u8]) -> &'static str
    ensures { result.now ≡ elf_comment bytes.now }
{
    if bytes.starts_with(ELF_MAGIC) {
        ELF_COMMENT
    } else {
        ""
    }
}

/// Adds the source of bytes, with registers called by these names.
fn push_source(text: &mut String, bytes: &[u8], names: RegisterNames) -> Result<(), AllocError>
    ensures text { OnOk result
        (string_bytes text.new ≡ string_bytes text.old ++ bytes_as names bytes.now) }
    ensures said { OnOk result (AreSaid bytes.now) }
{
    let mut left = bytes;
    while let [a, b, c, d, rest @ ..] = left {
        let word = word_of(*a, *b, *c, *d);
        a_word_is_read_back(word);
        push_word_as(text, word, names)?;
        text.push('\n')?;
        left = rest;
    }
    push_byte_lines(text, left)
}

fn word_of(a: u8, b: u8, c: u8, d: u8) -> u32
    ensures { result ≡ word_of_bytes a b c d }
{
    u32::from_le_bytes([a, b, c, d])
}

/// Adds a line for each byte.
fn push_byte_lines(text: &mut String, bytes: &[u8]) -> Result<(), AllocError>
    ensures text { OnOk result
        (string_bytes text.new ≡ string_bytes text.old ++ byte_lines bytes.now) }
    ensures small { OnOk result (All (λ b. b < 256) bytes.now) }
{
    for byte in bytes {
        push_byte_line(text, *byte)?;
    }
    Ok(())
}

/// Adds the line of a byte.
fn push_byte_line(text: &mut String, byte: u8) -> Result<(), AllocError>
    ensures { OnOk result (string_bytes text.new ≡ string_bytes text.old ++ byte_line byte) }
{
    text.push_str(".byte 0x")?;
    push_byte(text, byte)?;
    text.push('\n')
}
