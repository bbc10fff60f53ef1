//! From the text of operands to what an instruction has in their places.
ghost use Rattle.std.specs.Prelude.{◌≡◌, ◌==◌, ◌+◌, ◌<◌, ◌^◌, is_some, option_map, map, length};
ghost use Rattle.std.specs.Result.{result_map_both};
ghost use Rattle.ds_isa.specs.Fields.{rs, imm};
ghost use Rattle.ds_asm.specs.Inner.Forms.{field_of, operand_of};
ghost use Rattle.ds_asm.specs.Operands.{without_operands, with_value, with_number, with_target, with_register, with_unsigned, with_signed, with_indexed, with_operand, has_comma, operand_misfit, with_operands, before_close};
ghost use Rattle.ds_asm.specs.Inner.Plain.{plain_target, plain_instruction};

use crate::characters::{is_name, split_at_first, split_word, trimmed};
use crate::form::{Operand, Place};
use crate::number::{Bounds, Number, written_number};
use crate::register::{register_of, system_register_of};
use crate::syntax::SyntaxCause;

/// The register that links go to.
const LINK_REGISTER: u32 = 31;

/// The label that an instruction goes to, if it does.
#[derive(Clone, Copy)]
pub enum Target<'a> {
    Nowhere,
    Branch(&'a [u8]),
    Jump(&'a [u8]),
}

/// What the text of an instruction says.
#[derive(Clone, Copy)]
pub struct Instruction<'a> {
    /// Its word, with 0 in the place of a label.
    pub word: u32,
    /// The bounds of its first number that is out of range.
    pub out_of_range: Option<Bounds>,
    pub target: Target<'a>,
}

impl<'a> Instruction<'a> {
    /// An instruction without operands.
    pub(crate) fn without_operands(word: u32) -> Instruction<'a>
        ensures { plain_instruction result ≡ without_operands word }
    {
        Instruction {
            word,
            out_of_range: None,
            target: Target::Nowhere,
        }
    }

    /// With all operands of what is left of the text, or why not.
    #[tactic(auto, unfolding(crate::specs::Operands::with_operands))]
    pub(crate) fn with_operands(
        self,
        operands: &[Operand],
        left: Option<&'a [u8]>,
    ) -> Result<Instruction<'a>, SyntaxCause>
        ensures { result_map_both plain_instruction (λ cause. cause) result
            ≡ with_operands 1 (map operand_of operands.now) (option_map (λ t. t.now) left.entry)
            (plain_instruction self.entry) }
    {
        let mut next = self;
        let mut number = 1u64;
        let mut rest = operands;
        let mut left = left;
        while let [operand, more @ ..] = rest {
            match left {
                None if operand.is_code() => {}
                None => return Err(operand.misfit(number, &[])),
                Some(text) if operand.is_link() && !has_comma(text) => {
                    next = next.with_value(Place::Rd, LINK_REGISTER);
                }
                Some(text) => {
                    let (front, after) = split_at_first(b',', text);
                    let front = trimmed(front);
                    match next.with_operand(*operand, front) {
                        Some(with) => next = with,
                        None => return Err(operand.misfit(number, front)),
                    }
                    number += 1;
                    left = after;
                }
            }
            rest = more;
        }
        match left {
            None => Ok(next),
            Some(_) => Err(SyntaxCause::TooMany),
        }
    }

    #[inline(always)]
    #[tactic(auto, unfolding(crate::specs::Operands::with_operand))]
    fn with_operand(self, operand: Operand, text: &'a [u8]) -> Option<Instruction<'a>>
        ensures { option_map plain_instruction result
            ≡ with_operand (operand_of operand) text.now (plain_instruction self.entry) }
    {
        match operand {
            Operand::Register(place) => self.with_register(place, register_of(text)),
            Operand::LinkRegister => self.with_register(Place::Rd, register_of(text)),
            Operand::SystemRegister => self.with_register(Place::Rd, system_register_of(text)),
            Operand::Number(place) => self.with_unsigned(place, text),
            Operand::Code => self.with_unsigned(Place::Code, text),
            Operand::Signed => self.with_signed(text),
            Operand::Branch if is_name(text) => Some(self.with_target(Target::Branch(text))),
            Operand::Jump if is_name(text) => Some(self.with_target(Target::Jump(text))),
            Operand::Branch | Operand::Jump => None,
            Operand::Indexed => self.with_indexed(text),
        }
    }

    #[tactic(auto, unfolding(crate::specs::Operands::with_indexed))]
    fn with_indexed(self, text: &[u8]) -> Option<Instruction<'a>>
        ensures { option_map plain_instruction result
            ≡ with_indexed rs imm text.now (plain_instruction self.entry) }
    {
        let (offset, after) = split_at_first(b'(', text);
        let base = register_of(before_close(after?)?)?;
        self.with_value(Place::Rs, base)
            .with_signed(trimmed(offset))
    }

    fn with_signed(self, text: &[u8]) -> Option<Instruction<'a>>
        ensures { option_map plain_instruction result
            ≡ with_signed imm text.now (plain_instruction self.entry) }
    {
        let number = written_number(text)?;
        Some(self.with_number(Place::Immediate, 0x8000, 0x7FFF, &number))
    }

    fn with_unsigned(self, place: Place, text: &[u8]) -> Option<Instruction<'a>>
        ensures { option_map plain_instruction result
            ≡ with_unsigned (field_of place) text.now (plain_instruction self.entry) }
    {
        let number = written_number(text)?;
        Some(self.with_number(place, 0, place.most(), &number))
    }

    fn with_register(self, place: Place, register: Option<u32>) -> Option<Instruction<'a>>
        ensures { option_map plain_instruction result
            ≡ with_register (field_of place) register (plain_instruction self.entry) }
    {
        Some(self.with_value(place, register?))
    }

    fn with_number(self, place: Place, least: u32, most: u32, number: &Number) -> Instruction<'a>
        ensures { plain_instruction result
            ≡ with_number (field_of place) least most number.now (plain_instruction self.entry) }
    {
        let next = self.with_value(place, number.as_word());
        Instruction {
            out_of_range: self.out_of_range.or(number.out_of_range(least, most)),
            ..next
        }
    }

    /// With a value added in its place.
    pub(crate) fn with_value(self, place: Place, value: u32) -> Instruction<'a>
        ensures { plain_instruction result
            ≡ with_value (field_of place) value (plain_instruction self.entry) }
    {
        Instruction {
            word: self.word.wrapping_add(place.put(value)),
            ..self
        }
    }

    fn with_target(self, target: Target<'a>) -> Instruction<'a>
        ensures { plain_instruction result
            ≡ with_target (plain_target target.entry) (plain_instruction self.entry) }
    {
        Instruction { target, ..self }
    }
}

impl Operand {
    /// Whether a text may stand in its place.
    #[tactic(auto, unfolding(crate::specs::Operands::with_operand))]
    fn takes(self, text: &[u8]) -> bool
        ensures { result ≡ is_some (with_operand (operand_of self) text.now (without_operands 0)) }
    {
        match self {
            Operand::Register(_) | Operand::LinkRegister => register_of(text).is_some(),
            Operand::SystemRegister => system_register_of(text).is_some(),
            Operand::Number(_) | Operand::Code | Operand::Signed => written_number(text).is_some(),
            Operand::Branch | Operand::Jump => is_name(text),
            Operand::Indexed => Instruction::without_operands(0)
                .with_indexed(text)
                .is_some(),
        }
    }

    /// Why a text does not stand in its place, as the operand of a number.
    #[cold]
    fn misfit(self, number: u64, text: &[u8]) -> SyntaxCause
        ensures { result ≡ operand_misfit number (operand_of self) text.now }
    {
        let (word, _) = split_word(text);
        if self.takes(word) {
            return SyntaxCause::TextAfter(number);
        }
        let wanted = self.wanted();
        SyntaxCause::Operand { wanted, number }
    }
}

/// Whether a text has a comma.
fn has_comma(text: &[u8]) -> bool
    ensures { result ≡ has_comma text.now }
{
    let (_, after) = split_at_first(b',', text);
    after.is_some()
}

/// What stands before the parenthesis at the end, without blanks.
pub fn before_close(text: &[u8]) -> Option<&[u8]>
    ensures { option_map (λ t. t.now) result ≡ before_close text.now }
{
    match text {
        [inner @ .., b')'] => Some(trimmed(inner)),
        _ => None,
    }
}
