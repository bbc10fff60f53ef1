//! What a policy and an input have how many of.
ghost use Rattle.std.specs.Prelude.{◌≡◌, ◌≤◌, ◌==◌, if◌then◌else◌};
ghost use Rattle.ds_policy.specs.InputText.{is_skipped};
ghost use Rattle.ds_check.specs.Limits.{entries_in, events_in};

use ds_asm::first_line;
use ds_policy::PolicyRule;

/// How many lines of an input are neither empty nor a comment.
pub(crate) fn count_events(input: &[u8]) -> usize
    ensures { result ≡ events_in input.now }
{
    let mut count = 0;
    let mut left = input;
    while !left.is_empty() {
        let (line, rest) = first_line(left);
        count += events_of(line);
        left = rest;
    }
    count
}

/// 1 where a line is neither empty nor a comment.
fn events_of(line: &[u8]) -> usize
    ensures exact { result ≡ (if is_skipped line.now then 0 else 1) }
    ensures few { result ≤ 1 }
{
    if line.is_empty() || line[0] == b'#' {
        0
    } else {
        1
    }
}

/// How many rules a process has.
pub(crate) fn count_entries(rules: &[PolicyRule], process: u32) -> usize
    ensures { result ≡ entries_in rules.now process }
{
    rules.iter().filter(|rule| rule.process == process).count()
}
