//! The forms of instructions in a source.
ghost use Rattle.std.specs.Prelude.{◌≡◌, ◌*◌, ◌%◌, ◌^◌, ◌-◌, bytes_eq, option_map, map};
ghost use Rattle.std.specs.List.{find};
ghost use Rattle.ds_asm.specs.Forms.{form_named};
ghost use Rattle.ds_asm.specs.Inner.Forms.{forms_with, written_of, field_of, operand_of};
ghost use Rattle.ds_asm.specs.Operands.{is_code, is_link, wanted_by};

use crate::syntax::Wanted;
use ds_isa::instruction_table;

/// Where an operand's value stands in a word.
#[derive(Clone, Copy, Debug, PartialEq, Eq)]
pub enum Place {
    Rs,
    Rt,
    Rd,
    Shamt,
    Immediate,
    Code,
    Target,
}

/// What stands in an operand's place.
#[derive(Clone, Copy, Debug, PartialEq, Eq)]
pub enum Operand {
    Register(Place),
    /// A register that may be left out, which is 31.
    LinkRegister,
    /// A register of the system coprocessor.
    SystemRegister,
    /// A number from 0 up.
    Number(Place),
    /// A number from 0 up that may be left out, which is 0.
    Code,
    /// A signed number of 16 bits.
    Signed,
    /// A label in reach of a branch.
    Branch,
    /// A label in reach of a jump.
    Jump,
    /// A signed number, and the register of the base in parentheses after it.
    Indexed,
}

/// How an instruction is written.
#[derive(Clone, Copy)]
pub struct Form {
    pub name: &'static str,
    /// The word with 0 in all operands.
    pub word: u32,
    pub operands: &'static [Operand],
}

/// An operand, by the word for it in the table of instructions.
#[macro_export]
macro_rules! operand {
    (rs) => { Operand::Register(Place::Rs) };
    (rt) => { Operand::Register(Place::Rt) };
    (rd) => { Operand::Register(Place::Rd) };
    (link) => { Operand::LinkRegister };
    (system) => { Operand::SystemRegister };
    (shamt) => { Operand::Number(Place::Shamt) };
    (unsigned) => { Operand::Number(Place::Immediate) };
    (code) => { Operand::Code };
    (signed) => { Operand::Signed };
    (label) => { Operand::Branch };
    (jump) => { Operand::Jump };
    (indexed) => { Operand::Indexed };
}

/// The form of a word, with its name and operands as a row has them.
macro_rules! form {
    ($word:expr, $name:literal [$($operand:ident)*]) => {
        Form { name: $name, word: $word, operands: &[$(operand!($operand)),*] }
    };
}

macro_rules! form_rows {
    (special { $($funct:literal $special:ident $field:tt zero $zero:tt $(given $condition:tt)? uses $use:tt written { $($text:tt)* };)* }
     regimm { $($sign:literal $regimm:ident $place:tt zero $none:tt $(given $need:tt)? uses $using:tt written { $($line:tt)* };)* }
     major { $($op:literal $major:ident $part:tt zero $nought:tt uses $used:tt written { $($form:tt)* };)* }
     transfer { $($way:literal $transfer:ident $end:tt zero $nil:tt uses $using_these:tt written { $($words:tt)* };)* }
     operation { $($number:literal $operation:ident [] zero [] uses $using_none:tt written { $($name:tt)* };)* }) => {
        [
            form!(0, "nop" []),
            $(form!($funct, $($text)*),)*
            $(form!(0x400_0000 + $sign * 0x1_0000, $($line)*),)*
            $(form!($op * 0x400_0000, $($form)*),)*
            $(form!(0x4000_0000 + $way * 0x20_0000, $($words)*),)*
            $(form!(0x4200_0000 + $number, $($name)*),)*
        ]
    };
}

/// The forms: `nop`, and those of the table of instructions in its order.
const FORMS: [Form; 66] = instruction_table!(form_rows);

/// The forms at these places of the table.
macro_rules! placed {
    ($($place:literal)*) => { &[$(FORMS[$place]),*] };
}

/// The form of a name.
pub fn form_named(name: &[u8]) -> Option<&'static Form>
    ensures { option_map (λ f. written_of f.now) result ≡ form_named name.now }
{
    match name {
        [] => None,
        [first, ..] => find_form(forms_with(*first), name),
    }
}

/// The forms whose names begin with a character.
fn forms_with(first: u8) -> &'static [Form]
    ensures { map written_of result.now ≡ forms_with first }
{
    match first {
        b'a' => placed!(19 20 23 39 40 43),
        b'b' => placed!(10 29 30 31 32 35 36 37 38),
        b'd' => placed!(17 18),
        b'j' => placed!(7 8 33 34),
        b'l' => placed!(46 47 48 49 50 51 52 53),
        b'm' => placed!(11 12 13 14 15 16 59 60),
        b'n' => placed!(0 26),
        b'o' => placed!(24 44),
        b'r' => placed!(65),
        b's' => placed!(1 2 3 4 5 6 9 21 22 27 28 41 42 54 55 56 57 58),
        b't' => placed!(61 62 63 64),
        b'x' => placed!(25 45),
        _ => &[],
    }
}

/// The first form of a name.
fn find_form<'a>(forms: &'a [Form], name: &[u8]) -> Option<&'a Form>
    ensures { option_map (λ f. f.now) result ≡ find (λ f. bytes_eq f.name.now name.now) forms.now }
{
    forms.iter().find(|f| f.name.as_bytes() == name)
}

impl Operand {
    /// Whether it is a code, which may be left out.
    pub fn is_code(self) -> bool
        ensures { result ≡ is_code (operand_of self) }
    {
        matches!(self, Operand::Code)
    }

    /// Whether it is a link register, which may be left out.
    pub fn is_link(self) -> bool
        ensures { result ≡ is_link (operand_of self) }
    {
        matches!(self, Operand::LinkRegister)
    }

    /// What has to stand in its place.
    pub(crate) fn wanted(self) -> Wanted
        ensures { result ≡ wanted_by (operand_of self) }
    {
        match self {
            Operand::Register(_) | Operand::LinkRegister => Wanted::Register,
            Operand::SystemRegister => Wanted::SystemRegister,
            Operand::Number(_) | Operand::Code | Operand::Signed => Wanted::Number,
            Operand::Branch | Operand::Jump => Wanted::Label,
            Operand::Indexed => Wanted::Address,
        }
    }
}

impl Place {
    /// A value in its place, cut to the place's width.
    pub fn put(self, value: u32) -> u32
        ensures { result ≡ value % 2 ^ (field_of self).width * 2 ^ (field_of self).lo }
    {
        match self {
            Place::Rs => value % 32 * 0x20_0000,
            Place::Rt => value % 32 * 0x1_0000,
            Place::Rd => value % 32 * 0x800,
            Place::Shamt => value % 32 * 0x40,
            Place::Immediate => value % 0x1_0000,
            Place::Code => value % 0x10_0000 * 0x40,
            Place::Target => value % 0x400_0000,
        }
    }

    /// The greatest number that it holds.
    pub fn most(self) -> u32
        ensures { result ≡ 2 ^ (field_of self).width - 1 }
    {
        match self {
            Place::Rs | Place::Rt | Place::Rd | Place::Shamt => 31,
            Place::Immediate => 0xFFFF,
            Place::Code => 0xF_FFFF,
            Place::Target => 0x3FF_FFFF,
        }
    }
}
