//! Inputs that are refused, and that no command can give: sources that are missing or have one
//! name, and more ticks than are served.

use super::*;

/// A source whose second line is no statement, since an operand is missing.
const BAD_SECOND_LINE: &[u8] = b".word 0x24040041\nlw $1\n";

/// A command that names no process.
const BAD_LINE: &[u8] = b"5 stop\n";

const TOO_MANY: u64 = 1_000_000_001;

/// A policy with the sources one.s and two.s, in this order.
const TWO_SOURCES: &str = "version = 1
frames = 16
[[process]]
start = 0x00400000
line = 0
[[page]]
name = \"code\"
source = \"one.s\"
part = 0
[[page]]
name = \"more\"
source = \"two.s\"
part = 0
[[rule]]
process = 1
address = 0x00400000
right = \"read\"
page = \"code\"
";

/// A run of these sources.
fn run_of<'a>(policy: &'a str, sources: &'a [(&'a str, &'a [u8])]) -> Run<'a> {
    Run {
        policy: policy.as_bytes(),
        sources,
        input: b"",
        n: 100,
        random: 63,
    }
}

/// Whether what is wanted comes of each run.
fn all_come<'a>(alloc: Global, runs: &[(Run<'a>, &str)]) -> Result<bool, AllocError> {
    let mut right = true;
    for (run, wanted) in runs {
        right = comes(alloc, *run, wanted)? && right;
    }
    Ok(right)
}

#[test]
fn a_source_that_is_not_there_is_told(rt: HostRuntime) -> Result<(), AllocError> {
    let none = run_of(POLICY, &[]);
    let named = [("One.s", PUT_A.as_bytes()), ("one.s ", PUT_A.as_bytes())];
    let policy = Run {
        policy: b"version =",
        ..none
    };
    let input = Run {
        input: BAD_LINE,
        ..none
    };
    let runs = [
        (none, "24 NoSource one.s"),
        (run_of(POLICY, &named), "24 NoSource one.s"),
        (policy, "8 BadToml"),
        (input, "24 NoSource one.s"),
    ];
    assert!(rt; all_come(rt.alloc(), &runs)?);
    Ok(())
}

#[test]
fn of_two_sources_of_one_name_the_first_is_taken(rt: HostRuntime) -> Result<(), AllocError> {
    let good_first = [("one.s", PUT_A.as_bytes()), ("one.s", BAD_SECOND_LINE)];
    let bad_first = [("one.s", BAD_SECOND_LINE), ("one.s", PUT_A.as_bytes())];
    let runs = [
        (run_of(POLICY, &good_first), A),
        (run_of(POLICY, &bad_first), "3 Syntax one.s 2"),
    ];
    assert!(rt; all_come(rt.alloc(), &runs)?);
    Ok(())
}

#[test]
fn of_two_names_the_first_ones_fault_is_told(rt: HostRuntime) -> Result<(), AllocError> {
    let bad_first = [("one.s", BAD_SECOND_LINE)];
    let bad_second = [("two.s", BAD_SECOND_LINE)];
    let good_first = [("one.s", PUT_A.as_bytes())];
    let runs = [
        (run_of(TWO_SOURCES, &bad_first), "3 Syntax one.s 2"),
        (run_of(TWO_SOURCES, &bad_second), "24 NoSource one.s"),
        (run_of(TWO_SOURCES, &good_first), "24 NoSource two.s"),
    ];
    assert!(rt; all_come(rt.alloc(), &runs)?);
    Ok(())
}

#[test]
fn more_ticks_than_are_served_are_refused_after_the_input_and_before_random(
    rt: HostRuntime,
) -> Result<(), AllocError> {
    let good = [("one.s", PUT_A.as_bytes())];
    let bad = [("one.s", BAD_SECOND_LINE)];
    let many = Run {
        n: TOO_MANY,
        ..run_of(POLICY, &good)
    };
    let input = Run {
        input: BAD_LINE,
        ..many
    };
    let source = Run {
        sources: &bad,
        ..input
    };
    let runs = [
        (many, "10 Limit n"),
        (Run { random: 7, ..many }, "10 Limit n"),
        (Run { random: 64, ..many }, "10 Limit n"),
        (input, "20 InputFault 1"),
        (source, "3 Syntax one.s 2"),
    ];
    assert!(rt; all_come(rt.alloc(), &runs)?);
    Ok(())
}
