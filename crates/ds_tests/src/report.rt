//! The text of a state, sent to writers that stop anywhere.
use crate::limited::{End, Limited};
use ds_log::send_report;
use std::alloc::Global;

/// A denial that was logged.
const LOG: &[u8] = b"0 1 00400000 load 00000000 r0 2\n";

const REPORT: &str =
    "console 0 1\nA\nconsole 1 0\n\nconsole 2 2\n\n2\nconsole 3 12\ntwelve bytes\nlog 1\n0 1 00400000 load 00000000 r0 2\ntime 10\n";

fn consoles() -> [&'static [u8]; 4] {
    [b"A", b"", b"\n2", b"twelve bytes"]
}

/// Whether a writer that takes so many bytes at once, and so many in all, holds that much of the
/// report, and is told as failed where that is not all.
fn holds_the_front(alloc: Global, at_once: usize, room: usize, end: End) -> bool {
    let mut out = Limited {
        held: Vec::new(alloc),
        at_once,
        room,
        end,
    };
    let sent = send_report(&consoles(), 1, LOG, 10, &mut out);
    let front = REPORT.as_bytes().get(..room);
    sent.is_ok() == (room == REPORT.len()) && front == Some(out.held.as_slice())
}

/// Whether a writer that takes so many bytes at once holds the front, wherever it stops.
fn holds_each_front(alloc: Global, at_once: usize, end: End) -> bool {
    let mut right = true;
    for room in 0..REPORT.len() + 1 {
        right = holds_the_front(alloc, at_once, room, end) && right;
    }
    right
}

#[test]
fn a_writer_that_stops_after_any_byte_holds_the_front_up_to_it(rt: HostRuntime) {
    let mut right = true;
    for at_once in [1, 3, 4096] {
        let error = holds_each_front(rt.alloc(), at_once, End::Error);
        right = holds_each_front(rt.alloc(), at_once, End::Zero) && error && right;
    }
    assert!(rt; right);
}
