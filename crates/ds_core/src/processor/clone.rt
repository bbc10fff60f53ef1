//! A second processor like a first one.
ghost use Rattle.std.specs.Prelude.{◌≡◌};

use super::Core;
use ds_tlb::Lookaside;
use std::alloc::AllocError;

/// A clone is the same to contracts. What its buffer remembers it finds out anew.
impl<L: Lookaside> Clone for Core<L> {
    ghost is_clone = { λ x y. y ≡ x };

    fn clone(&self) -> Result<Self, AllocError> {
        Ok(Core {
            registers: self.registers,
            hi: self.hi,
            lo: self.lo,
            late: self.late,
            pc: self.pc,
            next: self.next,
            slot: self.slot,
            cp0: self.cp0.clone()?,
            tlb: copied(&self.tlb),
        })
    }
}

/// Another buffer with the same entries, and Random at the same slot.
fn copied<L: Lookaside>(tlb: &L) -> L
    ensures entries { L.entries result ≡ L.entries tlb.now }
    ensures random { L.random_place result ≡ L.random_place tlb.now }
{
    let mut copy = L::new(tlb.random()).unwrap();
    for slot in 0..L::SLOTS {
        copy.write(slot, tlb.read(slot));
    }
    copy
}
