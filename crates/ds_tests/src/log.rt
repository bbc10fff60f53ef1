//! Lines of the log.

use ds_log::{Denied, LINE_ROOM, Line, append, line_fits};
use ds_policy::Rule;
use std::alloc::Global;

// A denial to process 1.
fn denial(time: u64, pc: u32, kind: Denied, addr: u32, rule: Rule, code: u32) -> Line {
    Line::Denial {
        time,
        process: 1,
        pc,
        kind,
        addr,
        rule,
        code,
    }
}

/// What they are as one text.
const LINES: &str = "0 1 00400000 load 00000000 r0 2
1 1 00400004 store 00410000 r2 1
4 1 00400002 fetch 00400002 A 4
1 1 00400004 load 80000000 K 4
0 1 00400000 exec 00400000 I 10
9 1 00400024 give 00410000 r2 8
3 1 00400008 store 00410000 r1002 3
17 1 7FFFFFFC load 89ABCDEF K 4
5 command 1 refused 12
";

/// The refusal of the first command.
fn refusal(time: u64, number: u32) -> Line {
    Line::Refused {
        time,
        command: 1,
        number,
    }
}

/// The worked examples.
fn examples() -> [Line; 9] {
    [
        denial(0, 0x0040_0000, Denied::Load, 0, Rule::Number(0), 2),
        denial(
            1,
            0x0040_0004,
            Denied::Store,
            0x0041_0000,
            Rule::Number(2),
            1,
        ),
        denial(4, 0x0040_0002, Denied::Fetch, 0x0040_0002, Rule::A, 4),
        denial(1, 0x0040_0004, Denied::Load, 0x8000_0000, Rule::K, 4),
        denial(0, 0x0040_0000, Denied::Exec, 0x0040_0000, Rule::I, 10),
        denial(
            9,
            0x0040_0024,
            Denied::Give,
            0x0041_0000,
            Rule::Number(2),
            8,
        ),
        denial(
            3,
            0x0040_0008,
            Denied::Store,
            0x0041_0000,
            Rule::Number(1002),
            3,
        ),
        denial(17, 0x7FFF_FFFC, Denied::Load, 0x89AB_CDEF, Rule::K, 4),
        refusal(5, 12),
    ]
}

/// Whether the worked examples have their text.
fn have_text(alloc: Global) -> bool {
    let mut text = Vec::new(alloc);
    for line in examples() {
        if append(&mut text, &line).is_err() {
            return false;
        }
    }
    text.as_slice() == LINES.as_bytes()
}

#[test]
fn lines_have_the_text_of_the_worked_examples(rt: HostRuntime) {
    assert!(rt; have_text(rt.alloc()));
}

/// Whether a line has a text, and takes no more memory than a list with so much room has.
fn has_room(alloc: Global, line: &Line, room: usize, wanted: &str) -> bool {
    let Ok(mut text) = Vec::with_capacity(alloc, room) else {
        return false;
    };
    let is_added = append(&mut text, line).is_ok();
    is_added && text.as_slice() == wanted.as_bytes() && text.capacity() == room
}

#[test]
fn a_line_takes_no_memory_where_it_has_room(rt: HostRuntime) {
    let wanted = "1 command 1 refused 15\n";
    assert!(rt; has_room(rt.alloc(), &refusal(1, 15), wanted.len(), wanted));
}

#[test]
fn the_longest_short_line_fills_its_room(rt: HostRuntime) {
    let line = Line::Denial {
        time: 9_999_999_999,
        process: u32::MAX,
        pc: u32::MAX,
        kind: Denied::Store,
        addr: u32::MAX,
        rule: Rule::Number(u32::MAX),
        code: 99_999,
    };
    line_fits(&line);
    let wanted = "9999999999 4294967295 FFFFFFFF store FFFFFFFF r4294967295 99999\n";
    assert!(rt; has_room(rt.alloc(), &line, LINE_ROOM, wanted));
}
