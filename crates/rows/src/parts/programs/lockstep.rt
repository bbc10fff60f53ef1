//! One machine by single steps, and one ahead.
ghost use Rattle.std.specs.Prelude.{◌≡◌, ◌+◌, ◌≤◌};

use crate::parts::processor::walk;
use crate::parts::programs::machine::Machine;
use crate::parts::reached::Reached;
use ds_ahead::Ahead;
use ds_core::Core;
use ds_cp0::Cp0;
use ds_dev::Bus;
use ds_tlb::Lookaside;

/// The frames that the programs use, and frame 0.
const FRAMES: u32 = 5;

/// The most steps ahead.
const LONGEST: u32 = 200;

/// Runs ahead with each limit from 0 to 200 in turn, and as many single steps beside. Answers
/// whether the two are in one state after each.
pub fn go_alike<A: Lookaside, B: Lookaside>(plain: &mut Machine<A>, ahead: &mut Machine<B>) -> bool
    requires slots { A.SLOTS ≡ 64 }
    requires wired { A.WIRED ≡ 8 }
    requires ahead_slots { B.SLOTS ≡ 64 }
    requires ahead_wired { B.WIRED ≡ 8 }
{
    let mut reached = Reached::new();
    let mut alike = true;
    for limit in 0..LONGEST + 1 {
        alike = alike && go_alike_for(plain, ahead, limit, &mut reached);
    }
    alike
}

/// Whether steps ahead do what single steps do, with this limit.
fn go_alike_for<A: Lookaside, B: Lookaside>(
    plain: &mut Machine<A>,
    ahead: &mut Machine<B>,
    limit: u32,
    reached: &mut Reached,
) -> bool
    requires slots { A.SLOTS ≡ 64 }
    requires wired { A.WIRED ≡ 8 }
    requires ahead_slots { B.SLOTS ≡ 64 }
    requires ahead_wired { B.WIRED ≡ 8 }
{
    let (walked, alike) = step_both(plain, ahead, limit, reached);
    if let Some(code) = walked.raised {
        plain.serve(code);
        ahead.serve(code);
    }
    alike && are_frames_alike(&mut plain.bus, &mut ahead.bus, 0, FRAMES)
}

/// Takes steps on both. Answers how far the one by single steps went, and whether the other went as
/// far, and the two are in one state.
pub fn step_both<A: Lookaside, B: Lookaside>(
    plain: &mut Machine<A>,
    ahead: &mut Machine<B>,
    limit: u32,
    reached: &mut Reached,
) -> (Ahead, bool)
    requires slots { A.SLOTS ≡ 64 }
    requires wired { A.WIRED ≡ 8 }
    requires ahead_slots { B.SLOTS ≡ 64 }
    requires ahead_wired { B.WIRED ≡ 8 }
{
    let walked = walk(&mut plain.core, &mut plain.bus, limit, reached);
    let went = ahead.run_on(limit);
    (walked, went == walked && are_alike(plain, ahead))
}

/// Whether two machines are in one state, but for their memories.
fn are_alike<A: Lookaside, B: Lookaside>(a: &Machine<A>, b: &Machine<B>) -> bool
    requires slots { A.SLOTS ≡ 64 }
    requires ahead_slots { B.SLOTS ≡ 64 }
{
    a.bus.lines() == b.bus.lines()
        && are_cores_alike(&a.core, &b.core)
        && are_buffers_alike(&a.core.tlb, &b.core.tlb)
}

/// Whether so many frames of two memories, from the first on, are the same.
pub fn are_frames_alike(a: &mut Bus, b: &mut Bus, first: u32, count: u32) -> bool
    requires { first + count ≤ 2048 }
{
    let mut alike = true;
    for f in first..first + count {
        alike = alike && a.memory().frame(f) == b.memory().frame(f);
    }
    alike
}

/// Whether two processors have the same registers, and stand at the same place.
fn are_cores_alike<A: Lookaside, B: Lookaside>(a: &Core<A>, b: &Core<B>) -> bool {
    a.registers == b.registers
        && [a.hi, a.lo, a.pc, a.next] == [b.hi, b.lo, b.pc, b.next]
        && a.late == b.late
        && a.slot == b.slot
        && are_systems_alike(&a.cp0, &b.cp0)
}

/// Whether two system coprocessors have the same registers.
fn are_systems_alike(a: &Cp0, b: &Cp0) -> bool {
    let mut alike = true;
    for number in 0..16u8 {
        alike = alike && a.read(number) == b.read(number);
    }
    alike
}

/// Whether two buffers hold the same entries, and have the same Random.
fn are_buffers_alike<A: Lookaside, B: Lookaside>(a: &A, b: &B) -> bool
    requires slots { A.SLOTS ≡ 64 }
    requires ahead_slots { B.SLOTS ≡ 64 }
{
    let mut alike = a.random() == b.random();
    for slot in 0..64 {
        alike = alike && a.read(slot) == b.read(slot);
    }
    alike
}
