//! From a word to its instruction.
ghost use Rattle.std.specs.Prelude.{◌≡◌, ◌≤◌, length};
ghost use Rattle.ds_word.specs.Word.{bits};
ghost use Rattle.ds_isa.specs.Instruction.{instruction_of};
ghost use Rattle.ds_isa.specs.Inner.Instruction.{rows_of};
ghost use Rattle.ds_isa.specs.Inner.Encoding.{encoded};

use crate::instr::Instr;
use crate::instruction_table;

/// The bits of a word below rd.
#[inline(always)]
fn below_rd(word: u32) -> u16
    ensures { result ≡ bits word 0 11 }
{
    (word & 0x7ff) as u16
}

/// The top bit of rs, which is set in an operation of the system coprocessor.
#[inline(always)]
fn is_operation(word: u32) -> u8
    ensures { result ≡ bits word 25 1 }
{
    ((word >> 25) & 1) as u8
}

/// The bits between that one and the function.
#[inline(always)]
fn middle(word: u32) -> u32
    ensures { result ≡ bits word 6 19 }
{
    (word >> 6) & 0x7_ffff
}

/// An operand of a word, by its field.
macro_rules! operand {
    (rs $word:ident) => { ds_word::rs($word) };
    (rt $word:ident) => { ds_word::rt($word) };
    (rd $word:ident) => { ds_word::rd($word) };
    (shamt $word:ident) => { ds_word::shamt($word) };
    (immediate $word:ident) => { ds_word::imm($word) };
    (target $word:ident) => { ds_word::target($word) };
    (code $word:ident) => { ds_word::code($word) };
    (below_rd $word:ident) => { below_rd($word) };
}

/// The instruction where the fields are zero, and otherwise what such a word is.
macro_rules! fitting {
    ([] $word:ident $instr:expr; $otherwise:expr) => { $instr };
    ([$zero:ident $($more:ident)*] $word:ident $instr:expr; $otherwise:expr) => {
        if operand!($zero $word) == 0 { fitting!([$($more)*] $word $instr; $otherwise) } else { $otherwise }
    };
}

/// The instruction where its registers meet the row's condition, and otherwise a reserved word.
macro_rules! meeting {
    ($word:ident { differ [$one:ident $other:ident] } $instr:expr) => {
        if operand!($one $word) == operand!($other $word) { Instr::Reserved($word) } else { $instr }
    };
    ($word:ident { other_than_31 [$register:ident] } $instr:expr) => {
        if operand!($register $word) == 31 { Instr::Reserved($word) } else { $instr }
    };
    ($word:ident $instr:expr) => { $instr };
}

macro_rules! decode_special {
    ($word:ident
     special { $($code:literal $name:ident [$($field:ident)*] zero [$($zero:ident)*] $(given $condition:tt)? uses $uses:tt written $text:tt;)* }
     $($rest:tt)*) => {
        match ds_word::funct($word) {
            $($code => fitting!([$($zero)*] $word
                meeting!($word $($condition)? Instr::$name { $($field: operand!($field $word)),* });
                Instr::Reserved($word)),)*
            _ => Instr::Reserved($word),
        }
    };
}

macro_rules! decode_regimm {
    ($word:ident special $special:tt
     regimm { $($code:literal $name:ident [$($field:ident)*] zero [] $(given $condition:tt)? uses $uses:tt written $text:tt;)* }
     $($rest:tt)*) => {
        match ds_word::rt($word) {
            $($code => meeting!($word $($condition)? Instr::$name { $($field: operand!($field $word)),* }),)*
            _ => Instr::Reserved($word),
        }
    };
}

macro_rules! decode_transfer {
    ($word:ident special $special:tt regimm $regimm:tt major $major:tt
     transfer { $($code:literal $name:ident [$($field:ident)*] zero [$($zero:ident)*] uses $uses:tt written $text:tt;)* }
     $($rest:tt)*) => {
        match ds_word::rs($word) {
            $($code => fitting!([$($zero)*] $word
                Instr::$name { $($field: operand!($field $word)),* };
                Instr::Cop { unit: 0, word: $word }),)*
            _ => Instr::Cop { unit: 0, word: $word },
        }
    };
}

macro_rules! decode_operation {
    ($word:ident special $special:tt regimm $regimm:tt major $major:tt transfer $transfer:tt
     operation { $($code:literal $name:ident [] zero [] uses $uses:tt written $text:tt;)* }) => {
        match ds_word::funct($word) {
            $($code => Instr::$name,)*
            _ => Instr::Cop { unit: 0, word: $word },
        }
    };
}

macro_rules! decode_major {
    ($word:ident special $special:tt regimm $regimm:tt
     major { $($code:literal $name:ident [$($field:ident)*] zero [$($zero:ident)*] uses $uses:tt written $text:tt;)* }
     $($rest:tt)*) => {
        match ds_word::op($word) {
            0 => special($word),
            1 => regimm($word),
            $($code => fitting!([$($zero)*] $word
                Instr::$name { $($field: operand!($field $word)),* };
                Instr::Reserved($word)),)*
            16 => system($word),
            17 => Instr::Cop { unit: 1, word: $word },
            18 => Instr::Cop { unit: 2, word: $word },
            19 => Instr::Cop { unit: 3, word: $word },
            49 => Instr::Cop { unit: 1, word: $word },
            50 => Instr::Cop { unit: 2, word: $word },
            51 => Instr::Cop { unit: 3, word: $word },
            57 => Instr::Cop { unit: 1, word: $word },
            58 => Instr::Cop { unit: 2, word: $word },
            59 => Instr::Cop { unit: 3, word: $word },
            _ => Instr::Reserved($word),
        }
    };
}

/// The instruction of a word of operation 0.
#[inline(always)]
fn special(word: u32) -> Instr
    requires { bits word 26 6 ≡ 0 }
    ensures value { result ≡ instruction_of word }
    ensures back { encoded result ≡ word }
{
    instruction_table!(decode_special word)
}

/// The instruction of a word of operation 1, a branch by the sign of a register.
#[inline(always)]
fn regimm(word: u32) -> Instr
    requires { bits word 26 6 ≡ 1 }
    ensures value { result ≡ instruction_of word }
    ensures back { encoded result ≡ word }
{
    instruction_table!(decode_regimm word)
}

/// The instruction of a word of the system coprocessor that is no operation of it.
#[inline(always)]
fn transfer(word: u32) -> Instr
    requires op { bits word 26 6 ≡ 16 }
    requires high { bits word 25 1 ≡ 0 }
    ensures value { result ≡ instruction_of word }
    ensures back { encoded result ≡ word }
{
    instruction_table!(decode_transfer word)
}

/// The instruction of a word with an operation of the system coprocessor.
#[inline(always)]
fn operation(word: u32) -> Instr
    requires op { bits word 26 6 ≡ 16 }
    requires high { bits word 25 1 ≡ 1 }
    requires zero { bits word 6 19 ≡ 0 }
    ensures value { result ≡ instruction_of word }
    ensures back { encoded result ≡ word }
{
    instruction_table!(decode_operation word)
}

/// The instruction of a word of the system coprocessor.
#[inline(always)]
fn system(word: u32) -> Instr
    requires { bits word 26 6 ≡ 16 }
    ensures value { result ≡ instruction_of word }
    ensures back { encoded result ≡ word }
{
    if is_operation(word) == 0 {
        transfer(word)
    } else if middle(word) == 0 {
        operation(word)
    } else {
        Instr::Cop { unit: 0, word }
    }
}

/// The instruction of a word, by its operation.
#[inline(always)]
fn by_operation(word: u32) -> Instr
    ensures value { result ≡ instruction_of word }
    ensures back { encoded result ≡ word }
{
    instruction_table!(decode_major word)
}

/// The instruction that a word is: that of the row that it fits, or else `Cop` where its operation is
/// one of a coprocessor, or else `Reserved`. Its word is the one given.
#[inline(always)]
pub fn decode(word: u32) -> Instr
    ensures value { result ≡ instruction_of word }
    ensures back { encoded result ≡ word }
{
    by_operation(word)
}

/// The law of the two directions: encoding takes each instruction that decoding gives to its word,
/// and decoding takes that word to the same instruction.
pub fn round_trip(word: u32)
    ensures word { encoded (instruction_of word) ≡ word }
    ensures instruction { instruction_of (encoded (instruction_of word)) ≡ instruction_of word }
{
    let _instr = decode(word);
}

/// The law that no word fits two rows of the table.
pub fn no_two_rows(word: u32)
    ensures { length (rows_of word) ≤ 1 }
{}
