//! What a line says: a label, a statement, both or nothing.
ghost use Rattle.std.specs.Prelude.{◌≡◌, is_some, option_map};
ghost use Rattle.std.specs.Result.{result_map_both};
ghost use Rattle.ds_asm.specs.Characters.{first_word};
ghost use Rattle.ds_asm.specs.Operands.{misfit};
ghost use Rattle.ds_asm.specs.Lines.{instruction_named, directive_named, wanted_after, directed, statement_of, with_statement, line_parts, line_of};
ghost use Rattle.ds_asm.specs.Assembly.{bounds_in, cause_at, has_reserved, is_reserved_word, is_word_aligned, statement_size};
ghost use Rattle.ds_asm.specs.Inner.Plain.{plain_instruction, plain_statement, plain_line};

use crate::cause::Cause;
use crate::characters::{is_name, split_at_first, split_word, trimmed, until};
use crate::form::form_named;
use crate::instruction::Instruction;
use crate::number::{Bounds, Number, written_number};
use crate::syntax::{SyntaxCause, Wanted};
use ds_isa::{Instr, decode};

/// The most bytes that an image has.
pub(crate) const MOST_BYTES: u32 = 65_536;

/// What a line says.
#[derive(Clone, Copy)]
pub struct Line<'a> {
    pub label: Option<&'a [u8]>,
    pub statement: Option<Statement<'a>>,
}

/// What begins a statement that is no instruction.
#[derive(Clone, Copy, Debug, PartialEq, Eq)]
pub enum Directive {
    Word,
    Byte,
    Space,
}

/// What becomes bytes.
#[derive(Clone, Copy)]
pub enum Statement<'a> {
    Instruction(Instruction<'a>),
    Word(Number),
    /// A word with the address of a label.
    WordOf(&'a [u8]),
    Byte(Number),
    /// So many bytes that are zero.
    Space(Number),
}

impl<'a> Statement<'a> {
    /// Why it may not stand at a place of the image, if it may not.
    pub fn cause_at(&self, at: u64) -> Option<Cause>
        ensures { result ≡ cause_at at (plain_statement self.now) }
    {
        if let Some(bounds) = self.bounds() {
            Some(Cause::OutOfRange(bounds))
        } else if !self.is_word_aligned(at) {
            Some(Cause::NotAligned)
        } else if self.has_reserved() {
            Some(Cause::Reserved)
        } else {
            None
        }
    }

    /// The bounds of its first number that is out of range.
    fn bounds(&self) -> Option<Bounds>
        ensures { result ≡ bounds_in (plain_statement self.now) }
    {
        match self {
            Statement::Instruction(instruction) => instruction.out_of_range,
            Statement::Word(number) => number.out_of_range(0x8000_0000, 0xFFFF_FFFF),
            Statement::WordOf(_) => None,
            Statement::Byte(number) => number.out_of_range(128, 255),
            Statement::Space(number) => number.out_of_range(0, MOST_BYTES),
        }
    }

    /// Whether it is an instruction with registers that it may not have.
    fn has_reserved(&self) -> bool
        ensures { result ≡ has_reserved (plain_statement self.now) }
    {
        match self {
            Statement::Instruction(instruction) => is_reserved_word(instruction.word),
            _ => false,
        }
    }

    /// Words stand at multiples of four.
    fn is_word_aligned(&self, at: u64) -> bool
        ensures { result ≡ is_word_aligned at (plain_statement self.now) }
    {
        match self {
            Statement::Byte(_) | Statement::Space(_) => true,
            Statement::Instruction(_) | Statement::Word(_) | Statement::WordOf(_) => at % 4 == 0,
        }
    }

    /// How many bytes it takes.
    pub(crate) fn size(&self) -> u64
        ensures { result ≡ statement_size (plain_statement self.now) }
    {
        match self {
            Statement::Instruction(_) | Statement::Word(_) | Statement::WordOf(_) => 4,
            Statement::Byte(_) => 1,
            Statement::Space(number) => number.magnitude,
        }
    }
}

/// Whether a word is no instruction.
#[tactic(auto, unfolding(crate::specs::Assembly::is_reserved_word))]
fn is_reserved_word(word: u32) -> bool
    ensures { result ≡ is_reserved_word word }
{
    matches!(decode(word), Instr::Reserved(_))
}

/// What a line says, up to its comment, or why nothing is read from it.
#[inline(always)]
#[tactic(auto, unfolding(crate::specs::Lines::line_of))]
pub fn line_of(line: &[u8]) -> Result<Line<'_>, SyntaxCause>
    ensures { result_map_both plain_line (λ cause. cause) result ≡ line_of line.now }
{
    let said = trimmed(until(b'#', line));
    if said.is_empty() {
        return Ok(Line {
            label: None,
            statement: None,
        });
    }
    line_parts(said)
}

fn line_parts(text: &[u8]) -> Result<Line<'_>, SyntaxCause>
    ensures { result_map_both plain_line (λ cause. cause) result ≡ line_parts text.now }
{
    let (name, after) = split_at_first(b':', text);
    match after {
        None => with_statement(None, text),
        Some(rest) if is_name(name) => with_statement(Some(name), trimmed(rest)),
        Some(_) => Err(SyntaxCause::NotALabel),
    }
}

fn with_statement<'a>(label: Option<&'a [u8]>, text: &'a [u8]) -> Result<Line<'a>, SyntaxCause>
    ensures { result_map_both plain_line (λ cause. cause) result
        ≡ with_statement (option_map (λ t. t.now) label.entry) text.now }
{
    if text.is_empty() {
        return Ok(Line {
            label,
            statement: None,
        });
    }
    let statement = statement_of(text)?;
    Ok(Line {
        label,
        statement: Some(statement),
    })
}

#[tactic(auto, unfolding(crate::specs::Lines::statement_named))]
fn statement_of(text: &[u8]) -> Result<Statement<'_>, SyntaxCause>
    ensures { result_map_both plain_statement (λ cause. cause) result ≡ statement_of text.now }
{
    let (name, after) = split_word(text);
    match directive_named(name) {
        Some(directive) => match directive.directed(after) {
            Some(statement) => Ok(statement),
            None => Err(directive.misfit(after)),
        },
        None => Ok(Statement::Instruction(instruction_named(name, after)?)),
    }
}

/// The directive of a name.
#[inline(always)]
pub fn directive_named(name: &[u8]) -> Option<Directive>
    ensures { result ≡ directive_named name.now }
{
    if name == b".word".as_slice() {
        Some(Directive::Word)
    } else if name == b".byte".as_slice() {
        Some(Directive::Byte)
    } else if name == b".space".as_slice() {
        Some(Directive::Space)
    } else {
        None
    }
}

impl Directive {
    /// The statement with this text after it.
    #[inline(always)]
    fn directed<'a>(self, text: &'a [u8]) -> Option<Statement<'a>>
        ensures { option_map plain_statement result ≡ directed self text.now }
    {
        match (self, written_number(text)) {
            (Directive::Word, Some(number)) => Some(Statement::Word(number)),
            (Directive::Word, None) if is_name(text) => Some(Statement::WordOf(text)),
            (Directive::Byte, Some(number)) => Some(Statement::Byte(number)),
            (Directive::Space, Some(number)) => Some(Statement::Space(number)),
            _ => None,
        }
    }

    /// Why a text does not stand after it.
    #[cold]
    fn misfit(self, text: &[u8]) -> SyntaxCause
        ensures { result ≡ misfit 1 (wanted_after self) (is_some (directed self (first_word text.now))) }
    {
        let (word, _) = split_word(text);
        if self.directed(word).is_some() {
            return SyntaxCause::TextAfter(1);
        }
        let wanted = match self {
            Directive::Word => Wanted::NumberOrLabel,
            Directive::Byte | Directive::Space => Wanted::Number,
        };
        SyntaxCause::Operand { wanted, number: 1 }
    }
}

/// The instruction of a mnemonic and of what stands after it.
fn instruction_named<'a>(name: &[u8], text: &'a [u8]) -> Result<Instruction<'a>, SyntaxCause>
    ensures { result_map_both plain_instruction (λ cause. cause) result
        ≡ instruction_named name.now text.now }
{
    let left = if text.is_empty() { None } else { Some(text) };
    match form_named(name) {
        Some(form) => {
            Instruction::without_operands(form.word).with_operands(form.operands, left)
        }
        None => Err(SyntaxCause::NoSuchName),
    }
}
