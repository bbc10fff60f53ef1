//! Want of memory. These tests pass whichever growth is refused: `rt try --test --fail-alloc N`.
ghost use Rattle.std.specs.Prelude.{◌≡◌, ◌≤◌, length, None};

use crate::table::{is_free, is_set};
use ds_mem::Memory;
use ds_policy::{
    Character, Command, EventList, Events, EventsFault, Grant, Policy, PolicyRule, Right, Table,
};
use std::alloc::Global;

/// One process, and nothing else.
const SMALLEST: &str = "version = 1\nframes = 1\nprocess = [{ start = 0, line = 0 }]\n";

/// One of each: a process, a page, a source and a rule.
const SMALL: &str =
    "version = 1\nframes = 1\nprocess = [{ start = 0, line = 0 }]\npage = [{ name = \"a\", source = \"s\", part = 0 }]\nrule = [{ process = 1, address = 0, right = \"write\", page = \"a\" }]\n";

/// The same, and the right ends.
const SMALL_ENDING: &str =
    "version = 2\nframes = 1\nprocess = [{ start = 0, line = 0 }]\npage = [{ name = \"a\", source = \"s\", part = 0 }]\nrule = [{ process = 1, address = 0, right = \"write\", page = \"a\", until = 1000000000 }]\n";

/// The policy of a text, or else whether it is memory that ran out.
fn policy_of(alloc: Global, text: &str) -> Result<Policy, bool> {
    match Policy::read(alloc, text.as_bytes()) {
        Ok(policy) => Ok(policy),
        Err(fault) => Err(fault.number() == 25),
    }
}

/// The one growth is refused with 25.
#[test]
fn for_want_of_memory_there_is_no_workstations_memory(rt: HostRuntime) {
    let right = match Memory::new(rt.alloc()) {
        Ok(memory) => memory.word(0) == 0,
        Err(fault) => fault.number() == 25,
    };
    assert!(rt; right);
}

/// Whether a policy has one of each, or there is no memory for it.
fn has_one_of_each(alloc: Global, text: &str, until: Option<u32>) -> bool {
    let policy = match policy_of(alloc, text) {
        Ok(policy) => policy,
        Err(is_memory) => return is_memory,
    };
    let [rule] = policy.rules() else {
        return false;
    };
    let wanted = PolicyRule {
        process: 1,
        address: 0,
        right: Right::Write,
        page: Some(0),
        give: false,
        until,
    };
    let counted = policy.processes().len() == 1 && policy.pages().len() == 1;
    counted && policy.sources().len() == 1 && *rule == wanted
}

/// Whichever growth is refused, the answer is `Memory`.
#[test]
fn for_want_of_memory_there_is_no_policy(rt: HostRuntime) {
    assert!(rt; has_one_of_each(rt.alloc(), SMALL, None));
}

/// Whichever growth is refused, the answer is `Memory`.
#[test]
fn for_want_of_memory_there_is_no_policy_with_an_end(rt: HostRuntime) {
    assert!(rt; has_one_of_each(rt.alloc(), SMALL_ENDING, Some(1_000_000_000)));
}

/// Sets so many entries of process 1, from address 0 on; whether each was taken.
fn is_filled(table: &mut Table, grant: Grant, count: u32) -> bool
    requires processes { 1 ≤ length table.old }
    requires few { count ≤ 256 }
    requires parent { grant.parent ≡ None }
    ensures { 1 ≤ length table.new }
{
    let mut taken = true;
    for i in 0..count {
        taken = is_set(table, i * 4096, grant) && taken;
    }
    taken
}

/// Whether a table takes 256 entries and no more, and has none of them when it is cleared.
fn takes_256(table: &mut Table) -> bool
    requires { 1 ≤ length table.old }
{
    let grant = Grant {
        right: Right::Write,
        page: Some(0),
        rule: 1001,
        give: false,
        giver: 0,
        parent: None,
        until: None,
    };
    let none = table.entry(1, 0).is_none();
    let filled = is_filled(table, grant, 256);
    let refused = is_free(table, 1, 256 * 4096) && table.set(1, 256 * 4096, grant).is_err();
    let last = table.entry(1, 255 * 4096) == Some(grant);
    let removed = table.remove(1, 0).is_ok();
    table.clear(1);
    let cleared = table.processes() == 1 && table.entry(1, 255 * 4096).is_none();
    none && filled && refused && last && removed && cleared
}

/// Whether there is a table that does so, or no memory for it.
fn has_table(alloc: Global) -> bool {
    let policy = match policy_of(alloc, SMALLEST) {
        Ok(policy) => policy,
        Err(is_memory) => return is_memory,
    };
    if policy.processes().len() != 1 {
        return false;
    }
    match Table::new(alloc, &policy) {
        Ok(mut table) => takes_256(&mut table),
        Err(refused) => refused.number() == 25,
    }
}

/// There are 13 growths: 11 of the policy, and 2 of the table, where `Table::new` is refused. A
/// change of the table has none.
#[test]
fn for_want_of_memory_there_is_no_table(rt: HostRuntime) {
    assert!(rt; has_table(rt.alloc()));
}

/// The line of an input's fault, or 0, and how many commands and characters it has; none where
/// memory ran out.
fn said_by(alloc: Global, text: &[u8], policy: &Policy) -> Option<(u64, usize, usize)> {
    match Events::read(alloc, text, policy) {
        Ok(events) => Some((0, events.commands().len(), events.characters().len())),
        Err(EventsFault::InputFault(line)) => Some((line, 0, 0)),
        Err(EventsFault::Memory) => None,
    }
}

/// Whether an input of a policy says so much, or memory runs out.
fn says(alloc: Global, text: &[u8], policy: &Policy, wanted: (u64, usize, usize)) -> bool {
    match said_by(alloc, text, policy) {
        Some(said) => said == wanted,
        None => true,
    }
}

/// Whether each input says as much as it should, or memory runs out.
fn inputs_say(alloc: Global) -> bool {
    let policy = match policy_of(alloc, SMALLEST) {
        Ok(policy) => policy,
        Err(is_memory) => return is_memory,
    };
    let events = b"1 stop 1\n1 key 0 4142\n2 drop 1 00000000".as_slice();
    let nothing = says(alloc, b"".as_slice(), &policy, (0, 0, 0));
    let comment = says(alloc, b"# nothing\n\n".as_slice(), &policy, (0, 0, 0));
    let fault = says(
        alloc,
        b"\n#\n1 2 3 4 5 6 7 8 9".as_slice(),
        &policy,
        (3, 0, 0),
    );
    let three = says(alloc, events, &policy, (0, 2, 2));
    nothing && comment && fault && three
}

/// There are 20 growths: 11 of the policy, 3 of the nine words, and 6 of the two commands and the
/// characters: of their words, of the commands, and of the `key` line and its bytes. An empty input
/// and comments have none. `collect` asks once more where it is refused, so a growth of words
/// changes no answer.
#[test]
fn for_want_of_memory_an_input_says_nothing_else(rt: HostRuntime) {
    assert!(rt; inputs_say(rt.alloc()));
}

/// Whether the list has so many commands, one a tick.
fn has_commands(list: &EventList, count: usize) -> bool {
    let mut right = list.commands().len() == count;
    let mut time: u64 = 0;
    for command in list.commands() {
        right = right && command.time == time;
        time = time.saturating_add(1);
        right = right && u64::from(command.number) == time;
    }
    right
}

/// Whether the list has so many characters, two a tick.
fn has_characters(list: EventList, count: usize) -> bool {
    let mut left = list.into_characters();
    let mut right = left.len() == count;
    for i in 0..count {
        let wanted = Character {
            time: i as u64 / 2,
            line: 3,
            byte: if i % 2 == 0 { b'A' } else { b'B' },
        };
        right = right && left.take_first() == Some(wanted);
    }
    right && left.take_first().is_none()
}

/// Adds a command and two characters at each of nine times: whether all are in the list, and none
/// is that was refused.
fn adds_all_or_stays(alloc: Global) -> bool {
    let mut list = EventList::new(alloc);
    for time in 0..9u32 {
        let added = time as usize;
        if !list.follows(time) {
            return false;
        }
        let command = Command::Stop { process: time };
        if list.add_command(time, command).is_err() {
            return has_commands(&list, added) && has_characters(list, 2 * added);
        }
        if !list.follows(time) {
            return false;
        }
        if list.add_characters(time, 3, b"AB".as_slice()).is_err() {
            return has_commands(&list, added + 1) && has_characters(list, 2 * added);
        }
    }
    !list.follows(7) && has_commands(&list, 9) && has_characters(list, 18)
}

/// Each list grows several times. Where a growth is refused, the list is as it was.
#[test]
fn for_want_of_memory_an_event_is_not_added(rt: HostRuntime) {
    assert!(rt; adds_all_or_stays(rt.alloc()));
}
