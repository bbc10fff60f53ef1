//! The processors of the cases and the programs, and their translation buffers.
ghost use Rattle.std.specs.Prelude.{◌≡◌};

use crate::parts::reached::Reached;
use ds_ahead::Ahead;
use ds_core::{Core, Event};
use ds_cp0::Cp0;
use ds_dev::Bus;
use ds_tlb::{Entry, Lookaside};

/// Where Random starts.
const RANDOM: usize = 63;

/// A buffer with nothing in it.
pub fn new_buffer<L: Lookaside>() -> L
    requires slots { L.SLOTS ≡ 64 }
    requires wired { L.WIRED ≡ 8 }
{
    match L::new(RANDOM) {
        Ok(buffer) => buffer,
        Err(_) => unreachable!(),
    }
}

/// A processor that stands at an address. Register 0 holds 0, whatever is given for it.
pub fn new_core<L: Lookaside>(given: [u32; 32], pc: u32, cp0: Cp0, tlb: L) -> Core<L> {
    let mut registers = given;
    registers[0] = 0;
    Core {
        registers,
        hi: 0,
        lo: 0,
        late: None,
        pc,
        next: pc.wrapping_add(4),
        slot: false,
        cp0,
        tlb,
    }
}

/// A page of an address space, in the frame.
pub fn page(vpn: u32, asid: u8, pfn: u32, d: bool, v: bool) -> Entry {
    Entry {
        vpn,
        asid,
        pfn,
        n: false,
        d,
        v,
        g: false,
    }
}

/// Goes so many single steps, or fewer and after them one that enters an exception.
#[inline(never)]
pub fn walk<L: Lookaside>(
    core: &mut Core<L>,
    bus: &mut Bus,
    limit: u32,
    reached: &mut Reached,
) -> Ahead
    requires slots { L.SLOTS ≡ 64 }
    requires wired { L.WIRED ≡ 8 }
{
    for steps in 0..limit {
        let event = core.step(bus);
        reached.note(event, core);
        if let Event::Raised(code) = event {
            let raised = Some(code);
            return Ahead { steps, raised };
        }
    }
    let raised = None;
    Ahead {
        steps: limit,
        raised,
    }
}
