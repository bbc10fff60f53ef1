//! Accesses: what they do, which addresses suit them, which size an instruction asks for, and the shape of its effect.
ghost use Rattle.std.specs.Prelude.{◌≡◌, ◌≢◌, ℕ};
ghost use Rattle.ds_isa.specs.declared.instr.Instr.{Instr};
ghost use Rattle.ds_isa.specs.Access.{is_store, is_aligned, access_size};
ghost use Rattle.ds_isa.specs.Inner.Access.{size_asked};
ghost use Rattle.ds_isa.specs.Uses.{uses};
ghost use Rattle.ds_isa.specs.Meaning.{Faults, meaning, overflow};
ghost use Rattle.ds_isa.specs.Registers.{Registers};
ghost use Rattle.ds_isa.specs.Inner.Shapes.{effect_shape};

use crate::instr::{Instr, Kind, Size};
use crate::uses::{Shape, shape_of};

impl Kind {
    /// Whether the access writes bytes.
    #[inline(always)]
    pub fn is_store(self) -> bool
        ensures { result ≡ is_store self }
    {
        matches!(self, Kind::Store)
    }
}

impl Size {
    /// Whether an address suits the size: that of a halfword is even, that of a word divides by 4.
    #[inline(always)]
    pub fn is_aligned(self, address: u32) -> bool
        ensures { result ≡ is_aligned self address }
    {
        match self {
            Size::Byte | Size::Part => true,
            Size::Half => address % 2 == 0,
            Size::Word => address % 4 == 0,
        }
    }
}

/// The size of the load or the store that an instruction is, if it is one.
pub fn access_size(instr: &Instr) -> Option<Size>
    ensures { result ≡ access_size instr.now }
{
    match shape_of(instr) {
        Shape::Load(size) | Shape::Store(size) => Some(size),
        _ => None,
    }
}

/// An instruction asks for an access of that size, whatever its registers hold.
#[tactic(auto, using(crate::proofs::Sizes::sizes_alike))]
pub fn an_instruction_asks_for_its_size()
    ensures { (i : Instr) (pc : ℕ) (r : Registers) → size_asked (meaning i pc r) ≡ access_size i }
{}

/// An instruction does what the shape of its row says, whatever its registers hold, unless it
/// overflows.
#[tactic(auto, using(crate::proofs::Sizes::shapes_alike))]
pub fn an_instruction_has_its_shape()
    ensures { (i : Instr) (pc : ℕ) (r : Registers) → meaning i pc r ≢ Faults overflow
        → effect_shape (meaning i pc r) ≡ (uses i).shape }
{}
