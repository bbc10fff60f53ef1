//! Want of memory. These tests pass whichever growth is refused, and whichever are from one on:
//! `rt try --test --fail-alloc N`, `tools/refused_growths.py`.
ghost use Rattle.std.specs.Prelude.{◌≤◌};

use super::*;
use ds_asm::assemble;
use ds_policy::{Events, Policy};
use ds_station::{Fault, Station, Step};
use ds_tlb::Tlb;
use std::io;
use std::io::Write;

/// A writer that takes no memory.
#[derive(Drop)]
struct Held {
    bytes: [u8; 80],
    used: usize,
    ghost fits: { used ≤ 80 },
}

impl Write for Held {
    fn write(&mut self, buf: &[u8]) -> io::Result<usize> {
        let count = buf.len().min(80 - self.used);
        self.bytes[self.used..self.used + count].copy_from_slice(&buf[..count]);
        self.used += count;
        Ok(count)
    }

    fn flush(&mut self) -> io::Result<()> {
        Ok(())
    }
}

/// Puts the byte 41 and exits; its label takes memory too.
const LABELLED: &str = "put: addiu $4,$0,65\naddiu $2,$0,1\nsyscall\naddiu $2,$0,0\nsyscall\n";

/// The texts after each turn of the run that puts one byte.
const FRONTS: [&[u8]; 6] = [
    b"console 0 0\n\nconsole 1 0\n\nconsole 2 0\n\nconsole 3 0\n\nlog 0\ntime 0\n",
    b"console 0 0\n\nconsole 1 0\n\nconsole 2 0\n\nconsole 3 0\n\nlog 0\ntime 1\n",
    b"console 0 0\n\nconsole 1 0\n\nconsole 2 0\n\nconsole 3 0\n\nlog 0\ntime 2\n",
    b"console 0 1\nA\nconsole 1 0\n\nconsole 2 0\n\nconsole 3 0\n\nlog 0\ntime 3\n",
    b"console 0 1\nA\nconsole 1 0\n\nconsole 2 0\n\nconsole 3 0\n\nlog 0\ntime 4\n",
    b"console 0 1\nA\nconsole 1 0\n\nconsole 2 0\n\nconsole 3 0\n\nlog 0\ntime 5\n",
];

/// Two processes: the first may write a page and give it.
const TWO: &str = "version = 1
frames = 16
process = [{ start = 0x00400000, line = 0 }, { start = 0x00400000, line = 1 }]
page = [
    { name = \"first\", source = \"one.s\", part = 0 },
    { name = \"second\", source = \"two.s\", part = 0 },
    { name = \"data\" },
]
rule = [
    { process = 1, address = 0x00400000, right = \"read\", page = \"first\" },
    { process = 1, address = 0x00410000, right = \"write\", page = \"data\", give = true },
    { process = 2, address = 0x00400000, right = \"read\", page = \"second\" },
]
";

/// Stores a, gives the other process a copy of the page, stores b, and puts what it has.
const COPIES: &str = "lui $8,0x41\naddiu $9,$0,97\nsb $9,0($8)\naddu $4,$8,$0
addiu $5,$0,2\naddu $6,$8,$0\naddiu $7,$0,3\naddiu $2,$0,6\nsyscall
addiu $9,$0,98\nsb $9,0($8)\nlbu $4,0($8)\naddiu $2,$0,1\nsyscall\naddiu $2,$0,0\nsyscall\n";

/// Puts what the copy has, stores c there, and puts that.
const STORES: &str = "lui $8,0x41\nlbu $4,0($8)\naddiu $2,$0,1\nsyscall\naddiu $9,$0,99
sb $9,0($8)\nlbu $4,0($8)\naddiu $2,$0,1\nsyscall\naddiu $2,$0,0\nsyscall\n";

/// Three processes: the first may write a page and give it.
const THREE: &str = "version = 1
frames = 16
process = [
    { start = 0x00400000, line = 0 },
    { start = 0x00400000, line = 1 },
    { start = 0x00400000, line = 2 },
]
page = [
    { name = \"first\", source = \"one.s\", part = 0 },
    { name = \"second\", source = \"two.s\", part = 0 },
    { name = \"data\" },
]
rule = [
    { process = 1, address = 0x00400000, right = \"read\", page = \"first\" },
    { process = 2, address = 0x00400000, right = \"read\", page = \"second\" },
    { process = 3, address = 0x00400000, right = \"read\", page = \"second\" },
    { process = 1, address = 0x00410000, right = \"write\", page = \"data\", give = true },
]
";

/// Stores a, shares the page with process 2 for writing, gives process 3 a copy, and stores b.
const SHARES: &str = "lui $8,0x41\naddiu $9,$0,97\nsb $9,0($8)\naddu $4,$8,$0
addiu $5,$0,2\naddu $6,$8,$0\naddiu $7,$0,2\naddiu $2,$0,6\nsyscall
addiu $5,$0,3\naddiu $7,$0,3\naddiu $2,$0,6\nsyscall
addiu $9,$0,98\nsb $9,0($8)\naddiu $2,$0,0\nsyscall\n";

/// Puts what its page has.
const PUTS: &str = "lui $8,0x41\nlbu $4,0($8)\naddiu $2,$0,1\nsyscall\naddiu $2,$0,0\nsyscall\n";

/// What is written where processes 1 and 2 have a page and its copy, and where three have a page,
/// the same page and its copy.
const COPIED: &[u8] =
    b"console 0 1\nb\nconsole 1 2\nac\nconsole 2 0\n\nconsole 3 0\n\nlog 0\ntime 27\n";

const SHARED: &[u8] =
    b"console 0 0\n\nconsole 1 1\nb\nconsole 2 1\na\nconsole 3 0\n\nlog 0\ntime 29\n";

/// Whether a run writes its text, or nothing or the text of the first turns where it is cut short.
fn writes_a_front(alloc: Global, policy: &str, sources: &[(&str, &[u8])], whole: &[u8]) -> bool {
    let mut out = Held {
        bytes: [0; 80],
        used: 0,
    };
    let ran = run_files(alloc, policy.as_bytes(), sources, b"", 100, 63, &mut out);
    let written = &out.bytes[..out.used];
    match ran {
        Ok(()) => written == whole,
        Err(fault) => fault.number() == 25 && (written.is_empty() || is_front(written)),
    }
}

/// Whether a text is that after one of the turns of the run that puts one byte. Before its first
/// turn each run has the first of them.
fn is_front(text: &[u8]) -> bool {
    let mut found = false;
    for front in FRONTS {
        found = found || front == text;
    }
    found
}

#[test]
fn for_want_of_memory_nothing_is_written_or_the_text_of_the_first_turns(rt: HostRuntime) {
    let sources = [("one.s", LABELLED.as_bytes())];
    assert!(rt; writes_a_front(rt.alloc(), POLICY, &sources, FRONTS[5]));
}

#[test]
fn for_want_of_memory_no_copy_is_half_done(rt: HostRuntime) {
    let sources = [("one.s", COPIES.as_bytes()), ("two.s", STORES.as_bytes())];
    assert!(rt; writes_a_front(rt.alloc(), TWO, &sources, COPIED));
}

#[test]
fn for_want_of_memory_no_share_is_half_done(rt: HostRuntime) {
    let sources = [("one.s", SHARES.as_bytes()), ("two.s", PUTS.as_bytes())];
    assert!(rt; writes_a_front(rt.alloc(), THREE, &sources, SHARED));
}

/// The station of a run, if there is memory for it.
fn station_of(alloc: Global, policy: &str, sources: &[&str]) -> Option<Station<Tlb<64, 8>>> {
    let policy = Policy::read(alloc, policy.as_bytes()).ok()?;
    let mut images = Vec::new(alloc);
    for source in sources {
        images.push(assemble(alloc, source.as_bytes()).ok()?).ok()?;
    }
    let events = Events::read(alloc, b"", &policy).ok()?;
    if images.len() != policy.sources().len() {
        return None;
    }
    Station::new(alloc, &policy, &images, events, 63).ok()
}

/// The time, the instructions spent, and how much was put on lines 0 to 2 and logged.
fn state_of(station: &Station<Tlb<64, 8>>) -> (u64, u32, usize, usize, usize, usize) {
    (
        station.time(),
        station.spent(),
        station.console(0).len(),
        station.console(1).len(),
        station.console(2).len(),
        station.log().len(),
    )
}

/// Whether a station that has failed answers that as often as it is asked, and stays as it is.
fn stays_failed(station: &mut Station<Tlb<64, 8>>) -> bool {
    let before = state_of(station);
    for _ in 0..3 {
        if station.time() >= 1_000_000_000 {
            return false;
        }
        let stepped = matches!(station.step(), Err(Fault::Failed));
        let ran = matches!(station.run(100), Err(Fault::Failed));
        if !stepped || !ran || state_of(station) != before {
            return false;
        }
    }
    station.log().is_empty()
}

/// Whether a station ends its run, or fails for want of memory and stays failed.
fn ends_or_fails(station: &mut Station<Tlb<64, 8>>) -> bool {
    for _ in 0..1000 {
        if station.time() >= 1_000_000_000 {
            return false;
        }
        match station.step() {
            Ok(Step::Over) => return true,
            Ok(_) => {}
            Err(fault) => return fault.number() == 25 && stays_failed(station),
        }
    }
    false
}

/// Whether the station of a run does so, or there is no memory for it.
fn runs_or_fails(alloc: Global, policy: &str, sources: &[&str]) -> bool {
    match station_of(alloc, policy, sources) {
        Some(mut station) => ends_or_fails(&mut station),
        None => true,
    }
}

#[test]
fn after_want_of_memory_a_station_answers_failed_and_stays(rt: HostRuntime) {
    assert!(rt; runs_or_fails(rt.alloc(), POLICY, &[LABELLED]));
}

#[test]
fn after_want_of_memory_a_station_with_a_copy_stays(rt: HostRuntime) {
    assert!(rt; runs_or_fails(rt.alloc(), TWO, &[COPIES, STORES]));
}

#[test]
fn after_want_of_memory_a_station_with_a_share_stays(rt: HostRuntime) {
    assert!(rt; runs_or_fails(rt.alloc(), THREE, &[SHARES, PUTS]));
}
