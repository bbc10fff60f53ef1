//! How the instructions of the table are written.
ghost use Rattle.std.specs.Prelude.{◌≡◌, option_map};
ghost use Rattle.ds_isa.specs.Inner.Encoding.{entry};
ghost use Rattle.ds_listing.specs.Inner.Plain.{plain_form};
ghost use Rattle.ds_listing.specs.Texts.{form_of};
ghost use Rattle.ds_listing.specs.Inner.Texts.{form_in};

use ds_asm::{Operand, Place, operand};
use ds_isa::{Instr, decode, instruction_table};

/// How an instruction is written.
#[derive(Clone, Copy)]
pub(crate) struct Form {
    pub(crate) name: &'static str,
    pub(crate) operands: &'static [Operand],
}

macro_rules! form {
    ($name:literal [$($operand:ident)*]) => {
        Some(Form { name: $name, operands: &[$(operand!($operand)),*] })
    };
}

macro_rules! form_rows {
    ($instr:ident
     special { $($funct:literal $special:ident $field:tt zero $zero:tt $(given $condition:tt)? uses $uses:tt written { $($text:tt)* };)* }
     regimm { $($sign:literal $regimm:ident $place:tt zero $none:tt $(given $need:tt)? uses $using:tt written { $($line:tt)* };)* }
     major { $($op:literal $major:ident $part:tt zero $nought:tt uses $used:tt written { $($form:tt)* };)* }
     transfer { $($way:literal $transfer:ident $end:tt zero $nil:tt uses $using_these:tt written { $($words:tt)* };)* }
     operation { $($number:literal $operation:ident [] zero [] uses $using_none:tt written { $($name:tt)* };)* }) => {
        match *$instr {
            $(Instr::$special { .. } => form!($($text)*),)*
            $(Instr::$regimm { .. } => form!($($line)*),)*
            $(Instr::$major { .. } => form!($($form)*),)*
            $(Instr::$transfer { .. } => form!($($words)*),)*
            $(Instr::$operation => form!($($name)*),)*
            Instr::Cop { .. } => None,
            Instr::Reserved(_) => None,
        }
    };
}

fn form_of_instruction(instr: &Instr) -> Option<Form>
    ensures { option_map plain_form result ≡ form_in (entry instr.now) }
{
    instruction_table!(form_rows instr)
}

/// The form of a word, if it is an instruction of the table.
pub(crate) fn form_of(word: u32) -> Option<Form>
    ensures { option_map plain_form result ≡ form_of word }
{
    form_of_instruction(&decode(word))
}
