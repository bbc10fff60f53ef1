//! From an instruction to its word.
ghost use Rattle.std.specs.Prelude.{◌≡◌, ◌*◌, ◌%◌, ◌^◌};
ghost use Rattle.ds_isa.specs.Inner.Encoding.{encoded};

use crate::instr::Instr;
use crate::instruction_table;

/// A register's number in rs, cut to five bits.
#[inline(always)]
fn rs_bits(number: u8) -> u32
    ensures { result ≡ number % 2 ^ 5 * 2 ^ 21 }
{
    u32::from(number % 32) * 0x20_0000
}

/// A register's number in rt, cut to five bits.
#[inline(always)]
fn rt_bits(number: u8) -> u32
    ensures { result ≡ number % 2 ^ 5 * 2 ^ 16 }
{
    u32::from(number % 32) * 0x1_0000
}

/// A register's number in rd, cut to five bits.
#[inline(always)]
fn rd_bits(number: u8) -> u32
    ensures { result ≡ number % 2 ^ 5 * 2 ^ 11 }
{
    u32::from(number % 32) * 0x800
}

/// A shift amount in its field, cut to five bits.
#[inline(always)]
fn shamt_bits(amount: u8) -> u32
    ensures { result ≡ amount % 2 ^ 5 * 2 ^ 6 }
{
    u32::from(amount % 32) * 0x40
}

/// A jump's target, cut to its field.
#[inline(always)]
fn target_bits(target: u32) -> u32
    ensures { result ≡ target % 2 ^ 26 }
{
    target % 0x400_0000
}

/// A call's code in its field.
#[inline(always)]
fn code_bits(code: u32) -> u32
    ensures { result ≡ code % 2 ^ 20 * 2 ^ 6 }
{
    code % 0x10_0000 * 0x40
}

/// A value in its field, cut to the field's width.
macro_rules! placed {
    (rs $value:ident) => { rs_bits($value) };
    (rt $value:ident) => { rt_bits($value) };
    (rd $value:ident) => { rd_bits($value) };
    (shamt $value:ident) => { shamt_bits($value) };
    (immediate $value:ident) => { u32::from($value) };
    (target $value:ident) => { target_bits($value) };
    (code $value:ident) => { code_bits($value) };
}

macro_rules! encode_rows {
    ($instr:ident
     special { $($funct:literal $special:ident [$($field:ident)*] zero $zero:tt $(given $condition:tt)? uses $uses:tt written $text:tt;)* }
     regimm { $($sign:literal $regimm:ident [$($place:ident)*] zero $none:tt $(given $need:tt)? uses $using:tt written $line:tt;)* }
     major { $($op:literal $major:ident [$($part:ident)*] zero $nought:tt uses $used:tt written $form:tt;)* }
     transfer { $($way:literal $transfer:ident [$($end:ident)*] zero $nil:tt uses $using_these:tt written $words:tt;)* }
     operation { $($number:literal $operation:ident [] zero [] uses $using_none:tt written $name:tt;)* }) => {
        match *$instr {
            $(Instr::$special { $($field),* } => $funct $(+ placed!($field $field))*,)*
            $(Instr::$regimm { $($place),* } => 0x400_0000 + $sign * 0x1_0000 $(+ placed!($place $place))*,)*
            $(Instr::$major { $($part),* } => $op * 0x400_0000 $(+ placed!($part $part))*,)*
            $(Instr::$transfer { $($end),* } => 0x4000_0000 + $way * 0x20_0000 $(+ placed!($end $end))*,)*
            $(Instr::$operation => 0x4200_0000 + $number,)*
            Instr::Cop { word, .. } => word,
            Instr::Reserved(word) => word,
        }
    };
}

/// The word of an instruction. Of a register number or a shift amount that is 32 or more the low five
/// bits count, of a call's code the low 20, and of a jump's target the low 26.
pub fn encode(instr: &Instr) -> u32
    ensures { result ≡ encoded instr.now }
{
    instruction_table!(encode_rows instr)
}
