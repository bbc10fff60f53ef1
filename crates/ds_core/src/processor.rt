//! The processor and its step.

mod access;
mod anew;
mod clone;
mod coprocessor;
mod execute;
mod flow;
mod registers;
mod transfer;

use ds_cp0::Cp0;
use ds_isa::Late;
use ds_tlb::Lookaside;
pub use execute::{is_at_most_zero, places};
pub use flow::after_slot;
use std::marker::Model;

/// The processor's registers, its system coprocessor and its translation buffer; a contract sees
/// them as a `CoreState`. Register 0 reads 0 in every processor that there is: code that puts
/// anything else there is refused.
#[derive(Drop)]
pub struct Core<L: Lookaside> {
    /// The general registers; register 0 holds 0.
    pub registers: [u32; 32],
    pub hi: u32,
    pub lo: u32,
    /// The register whose load is late, from 1 to 31.
    pub late: Option<Late>,
    pub pc: u32,
    /// Where the program goes on after the instruction at `pc`.
    pub next: u32,
    /// `pc` stands right after a branch or jump.
    pub slot: bool,
    pub cp0: Cp0,
    pub tlb: L,
}

impl<L: Lookaside> Model for Core<L> {
    ghost use Rattle.std.specs.Prelude.{◌≡◌, ◌<◌, slice_index};
    ghost use Rattle.std.specs.Option.{ForSome};
    ghost use Rattle.ds_core.specs.Core.{CoreState};

    ghost Value = { CoreState };

    ghost view = { λ c. record {
      registers = record { general = c.registers; hi = c.hi; lo = c.lo; late = c.late };
      pc = c.pc;
      next = c.next;
      slot = c.slot;
      system = c.cp0;
      entries = L.entries c.tlb;
      random = L.random_place c.tlb;
    } };

    ghost invariant = { λ c. (slice_index c.registers 0 ≡ 0)
        × ForSome c.late (λ l. (0 < l.register) × (l.register < 32)) };
}
