//! Rows and tables whose files stand in memory.
use ds_drive::{FileFault, Files};
use ds_rows::{Rows, Tables, run_index};
use std::alloc::Global;
use std::io;

/// Files in memory: names with their texts.
#[derive(Clone, Copy)]
struct Held<'a> {
    files: &'a [(&'a str, &'a str)],
}

impl<'a> Files for Held<'a> {
    fn read(&mut self, alloc: Global, name: &str) -> Result<Vec<u8>, FileFault> {
        for (held, text) in self.files {
            if *held == name && text.len() <= 16_777_216 {
                return match text.as_bytes().to_vec(alloc) {
                    Ok(bytes) => Ok(bytes),
                    Err(_) => Err(FileFault::Memory),
                };
            }
        }
        Err(FileFault::Unreadable)
    }
}

/// One process that has no page at all.
const POLICY: &str = "version = 1
frames = 1
[[process]]
start = 0
line = 0
";

/// What is written of it where it runs for 20 ticks.
const WRITTEN: &str = "console 0 0

console 1 0

console 2 0

console 3 0

log 1
0 1 00000000 fetch 00000000 r0 2
time 20
";

/// Runs what an index says, by one of the two calls; whether status and text are those wanted.
fn is_told<'a>(
    alloc: Global,
    index: &'a str,
    cases: &'a str,
    status: u8,
    wanted: &str,
) -> io::Result<bool> {
    let held = [
        ("index", index),
        ("a/policy", POLICY),
        ("a/nothing", ""),
        ("a/stop", "1 stop\n"),
        ("a/written", WRITTEN),
        ("a/refused", "dsmon: 20 InputFault 1\n"),
        ("a/cases", cases),
    ];
    let files = Held { files: &held };
    let mut out: Vec<u8> = Vec::new(alloc);
    let mut err: Vec<u8> = Vec::new(alloc);
    let came = if cases.is_empty() {
        run_index(alloc, "index", files, &Rows { files }, &mut out, &mut err)?
    } else {
        run_index(alloc, "index", files, &Tables { files }, &mut out, &mut err)?
    };
    Ok(came == status && out.as_slice() == wanted.as_bytes())
}

#[test]
fn rows_that_come_to_status_and_text_are_as_expected(rt: HostRuntime) -> io::Result<()> {
    let index = "a 0 written run policy nothing 20\na 2 refused run policy stop 20\n";
    let wanted = "\
a 0 written run policy nothing 20: as expected
a 2 refused run policy stop 20: as expected
";
    assert!(rt; is_told(rt.alloc(), index, "", 0, wanted)?);
    Ok(())
}

#[test]
fn each_other_row_is_told(rt: HostRuntime) -> io::Result<()> {
    let index = "\
a 0 refused run policy stop 20
a 2 written run policy nothing 20
a 0 policy run policy nothing 20
a 0 written run policy nothing 2
a 0 missing run policy nothing 20
a 0
a 0 written run policy nothing 20
";
    let wanted = "\
a 0 refused run policy stop 20: the status is 2
a 2 written run policy nothing 20: the status is 0
a 0 policy run policy nothing 20: the first 0 bytes are as expected, and no more
a 0 written run policy nothing 2: the first 97 bytes are as expected, and no more
a 0 missing run policy nothing 20: a file can't be read
a 0: words are missing, or the cases have no form
a 0 written run policy nothing 20: as expected
";
    assert!(rt; is_told(rt.alloc(), index, "", 1, wanted)?);
    Ok(())
}

#[test]
fn the_cases_of_a_table_are_counted(rt: HostRuntime) -> io::Result<()> {
    let cases = "# Inputs.

== a command that names no process
1 stop
-- 20 InputFault 1

== nothing
-- ok
== a comment
# nothing
--
console 0 0

console 1 0

console 2 0

console 3 0

log 1
0 1 00000000 fetch 00000000 r0 2
time 20
";
    let index = "a input cases run policy input 20\n";
    let wanted = "a input cases run policy input 20: 3 as expected\n";
    assert!(rt; is_told(rt.alloc(), index, cases, 0, wanted)?);
    Ok(())
}

#[test]
fn each_other_case_is_told(rt: HostRuntime) -> io::Result<()> {
    let cases = "\
== a command that names no process
1 stop
-- ok
== a comment that is refused
# nothing
-- 20 InputFault 1
== a comment that writes something
# nothing
--
console 0 1
== nothing is said of it
== well
-- ok
";
    let wanted = "\
a command that names no process: the status is 2
a comment that is refused: the status is 0
a comment that writes something: the first 10 bytes are as expected, and no more
nothing is said of it: words are missing, or the cases have no form
a input cases run policy input 20: 4 not as expected
";
    let index = "a input cases run policy input 20\n";
    assert!(rt; is_told(rt.alloc(), index, cases, 1, wanted)?);
    Ok(())
}

/// Cases that have no form: lines outside a case, wrong escapes, wrong counts, and a text behind what is
/// wanted.
const FORMLESS: [&str; 9] = [
    "text\n",
    "== a\n\\y\n-- ok\n",
    "== a\n\\*2\n-- ok\n",
    "== a\n\\*x nop\n-- ok\n",
    "== a\n\\x\n-- ok\n",
    "== a\n\\x4\n-- ok\n",
    "== a\n\\xg0\n-- ok\n",
    "== a\n-- ok\nmore\n",
    "== a\n-- 3 Syntax one.s 1\nmore\n",
];

#[test]
fn a_wrong_escape_and_a_line_outside_a_case_have_no_form(rt: HostRuntime) -> io::Result<()> {
    let index = "a input cases run policy input 20\n";
    let wanted = "\
a input cases run policy input 20: words are missing, or the cases have no form
";
    let mut right = true;
    for cases in FORMLESS {
        right = is_told(rt.alloc(), index, cases, 1, wanted)? && right;
    }
    assert!(rt; right);
    Ok(())
}
