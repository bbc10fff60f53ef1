//! Both buffers at three sizes, through the trait.
ghost use Rattle.std.specs.Prelude.{◌≡◌, ◌<◌, ◌≤◌};

use ds_tlb::{Entry, Indexed, Lookaside, Tlb};

/// Pages that collide: the first two are in one bucket, as are the third and the page that slot 3
/// holds at the start.
const PAGES: [u32; 5] = [0x400, 0x440, 0x80003, 0x7ffff, 0];

/// The entry that a script writes in its step.
fn entry_of(step: usize) -> Entry {
    Entry {
        vpn: PAGES[step % 5],
        asid: (step % 3) as u8,
        pfn: (step % 0x100000) as u32,
        n: step % 2 == 0,
        d: step % 3 == 0,
        v: step % 5 != 0,
        g: step % 7 == 0,
    }
}

/// A step of the script: a tick, a write by Random or a write by slot.
fn do_step<L: Lookaside>(buffer: &mut L, step: usize)
    requires { 1 ≤ L.SLOTS }
{
    match step % 4 {
        0 => buffer.tick(),
        1 => {
            buffer.write_random(entry_of(step));
        }
        _ => buffer.write(step / 4 % L::SLOTS, entry_of(step)),
    }
}

/// Whether two buffers hold the same.
fn hold_alike<A: Lookaside, B: Lookaside>(a: &A, b: &B) -> bool {
    let mut alike = A::SLOTS == B::SLOTS;
    for slot in 0..A::SLOTS {
        if slot < B::SLOTS {
            alike = alike && a.read(slot) == b.read(slot);
        }
    }
    alike
}

/// Whether two buffers find the same for a page, in each of four address spaces.
fn find_alike<A: Lookaside, B: Lookaside>(a: &A, b: &B, vpn: u32) -> bool {
    let mut alike = true;
    for asid in 0..4u8 {
        let found = a.find(vpn, asid) == b.find(vpn, asid);
        alike = alike && found && a.probe(vpn, asid) == b.probe(vpn, asid);
    }
    alike
}

/// Whether two buffers hold the same and find the same.
fn are_alike<A: Lookaside, B: Lookaside>(a: &A, b: &B) -> bool {
    let mut alike = hold_alike(a, b) && a.random() == b.random();
    for vpn in PAGES {
        alike = alike && find_alike(a, b, vpn);
    }
    alike
}

/// Whether two slots or more match the page in the address space.
fn is_doubled<L: Lookaside>(buffer: &L, vpn: u32, asid: u8) -> bool {
    let (mut once, mut twice) = (false, false);
    for slot in 0..L::SLOTS {
        let matches = buffer.read(slot).matches(vpn, asid);
        twice = twice || once && matches;
        once = once || matches;
    }
    twice
}

/// Runs one script on both; whether they were alike throughout, with two slots that matched one
/// page at some time.
fn agree<A: Lookaside, B: Lookaside>(start: usize) -> bool
    requires slots { A.SLOTS ≡ B.SLOTS }
    requires wired { A.WIRED ≡ B.WIRED }
    requires some_wired { 1 ≤ A.WIRED }
    requires some_free { A.WIRED < A.SLOTS }
    requires few { A.SLOTS ≤ 64 }
{
    let (Ok(mut a), Ok(mut b)) = (A::new(start), B::new(start)) else {
        return false;
    };
    let mut alike = are_alike(&a, &b);
    let mut doubled = false;
    for step in 0..400 {
        do_step(&mut a, step);
        do_step(&mut b, step);
        alike = alike && are_alike(&a, &b);
        doubled = doubled || is_doubled(&a, 0x400, 1);
    }
    alike && doubled
}

#[test]
fn both_buffers_answer_alike(rt: HostRuntime) {
    let large = agree::<Tlb<64, 8>, Indexed<64, 8>>(63);
    let narrow = agree::<Tlb<10, 8>, Indexed<10, 8>>(9);
    let small = agree::<Tlb<8, 1>, Indexed<8, 1>>(4);
    assert!(rt; large && narrow && small);
}

/// Whether a buffer of this type starts with each of the two, and refuses the others.
fn starts_from<L: Lookaside>(low: usize, high: usize) -> bool
    requires some_wired { 1 ≤ L.WIRED }
    requires some_free { L.WIRED < L.SLOTS }
    requires few { L.SLOTS ≤ 64 }
{
    let mut right = true;
    for start in 0..256 {
        right = right && L::new(start).is_ok() == (low <= start && start <= high);
    }
    right
}

#[test]
fn random_starts_from_the_wired_slots_to_the_last(rt: HostRuntime) {
    let large = starts_from::<Tlb<64, 8>>(8, 63) && starts_from::<Indexed<64, 8>>(8, 63);
    let narrow = starts_from::<Tlb<10, 8>>(8, 9) && starts_from::<Indexed<10, 8>>(8, 9);
    let small = starts_from::<Tlb<8, 1>>(1, 7) && starts_from::<Indexed<8, 1>>(1, 7);
    assert!(rt; large && narrow && small);
}
