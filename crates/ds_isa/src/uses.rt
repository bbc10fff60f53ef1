//! The registers that an instruction reads, writes and links, and the shape of what it does.
//!
//! A register is the number in its field: register 0 counts as one that is read or written, though
//! it reads 0 and keeps 0.
ghost use Rattle.std.specs.Prelude.{◌≡◌};
ghost use Rattle.ds_isa.specs.Uses.{uses};
ghost use Rattle.ds_isa.specs.Shapes.{is_branch};

use crate::instr::{Instr, Size};
use crate::instruction_table;

/// The source registers of an instruction, by the fields that name them.
#[derive(Clone, Copy, Debug, PartialEq, Eq)]
pub struct Sources {
    pub rs: Option<u8>,
    pub rt: Option<u8>,
}

/// What the effect of an instruction is like, whatever the registers hold.
#[derive(Clone, Copy)]
pub(crate) enum Shape {
    /// It goes on after the instruction, or traps on an overflow.
    Straight,
    /// A branch or a jump.
    Branch,
    /// A load of that size.
    Load(Size),
    /// A store of that size.
    Store(Size),
    /// A system call, a breakpoint, or a word that is no instruction.
    Trap,
    /// A word of a coprocessor.
    System,
}

/// What an instruction does with registers, and the shape of its effect.
#[derive(Clone, Copy)]
pub(crate) struct Uses {
    reads: Sources,
    writes: Option<u8>,
    links: Option<u8>,
    shape: Shape,
}

/// A register that may be missing.
macro_rules! register {
    () => { None };
    ($number:literal) => { Some($number) };
    ($field:ident) => { Some($field) };
}

/// Source registers, by the fields that name them.
macro_rules! sources {
    ([] []) => { Sources { rs: None, rt: None } };
    ([rs] [$rs:ident]) => { Sources { rs: Some($rs), rt: None } };
    ([rt] [$rt:ident]) => { Sources { rs: None, rt: Some($rt) } };
    ([rs rt] [$rs:ident $rt:ident]) => { Sources { rs: Some($rs), rt: Some($rt) } };
}

/// The shape that a row gives, or `Straight`.
macro_rules! shape {
    () => { Shape::Straight };
    (branch) => { Shape::Branch };
    (load $size:ident) => { Shape::Load(Size::$size) };
    (store $size:ident) => { Shape::Store(Size::$size) };
    (trap) => { Shape::Trap };
    (system) => { Shape::System };
}

/// What a row says of the registers and the shape.
macro_rules! used {
    (reads [$($source:ident)*] $(writes [$written:tt])? $(links [$linked:tt])? $(is [$($shape:ident)*])?) => {
        Uses {
            reads: sources!([$($source)*] [$($source)*]),
            writes: register!($($written)?),
            links: register!($($linked)?),
            shape: shape!($($($shape)*)?),
        }
    };
}

/// The pass for what instructions use.
macro_rules! use_rows {
    ($instr:ident
     special { $($funct:literal $special:ident [$($field:ident)*] zero $zero:tt $(given $condition:tt)? uses { $($use:tt)* } written $text:tt;)* }
     regimm { $($sign:literal $regimm:ident [$($place:ident)*] zero $none:tt $(given $need:tt)? uses { $($using:tt)* } written $line:tt;)* }
     major { $($op:literal $major:ident [$($part:ident)*] zero $nought:tt uses { $($used:tt)* } written $form:tt;)* }
     transfer { $($way:literal $transfer:ident [$($end:ident)*] zero $nil:tt uses { $($using_these:tt)* } written $words:tt;)* }
     operation { $($number:literal $operation:ident [] zero [] uses { $($using_none:tt)* } written $name:tt;)* }) => {
        match *$instr {
            $(Instr::$special { $($field),* } => used!($($use)*),)*
            $(Instr::$regimm { $($place),* } => used!($($using)*),)*
            $(Instr::$major { $($part),* } => used!($($used)*),)*
            $(Instr::$transfer { $($end),* } => used!($($using_these)*),)*
            $(Instr::$operation => used!($($using_none)*),)*
            Instr::Cop { .. } => used!(reads [] is [system]),
            Instr::Reserved(_) => used!(reads [] is [trap]),
        }
    };
}

/// What an instruction does with registers, and its shape.
#[inline(always)]
fn used_by(instr: &Instr) -> Uses
    ensures { result ≡ uses instr.now }
{
    instruction_table!(use_rows instr)
}

/// The shape of what an instruction does.
#[inline(always)]
pub(crate) fn shape_of(instr: &Instr) -> Shape
    ensures { result ≡ (uses instr.now).shape }
{
    used_by(instr).shape
}

/// The registers that an instruction reads. A system call reads none.
#[inline(always)]
pub fn reads(instr: &Instr) -> Sources
    ensures { result ≡ (uses instr.now).reads }
{
    used_by(instr).reads
}

/// The register that an instruction writes, if any. A link is a write too.
#[inline(always)]
pub fn writes(instr: &Instr) -> Option<u8>
    ensures { result ≡ (uses instr.now).writes }
{
    used_by(instr).writes
}

/// The register into which an instruction puts the address to return to, if any.
#[inline(always)]
pub fn links(instr: &Instr) -> Option<u8>
    ensures { result ≡ (uses instr.now).links }
{
    used_by(instr).links
}

/// Whether an instruction is a branch or a jump, which a delay slot follows.
#[inline(always)]
pub fn is_branch(instr: &Instr) -> bool
    ensures { result ≡ is_branch (uses instr.now).shape }
{
    matches!(shape_of(instr), Shape::Branch)
}
