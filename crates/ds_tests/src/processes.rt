//! A process at its start, and the queue of those that are ready.
ghost use Rattle.std.specs.Prelude.{◌<◌, ◌≤◌};

use ds_procs::{Process, Queue, Standing};

#[test]
fn a_process_starts_ready_with_all_registers_zero(rt: HostRuntime) {
    let process = Process::new(0x0040_0000);
    let zero = process.registers == [0; 32] && process.hi == 0 && process.lo == 0;
    assert!(rt; zero && process.pc == 0x0040_0000 && process.state == Standing::Ready);
}

/// Who runs in the next turns: the first of the queue before each of four rotations.
fn next_turns(ready: &mut Queue) -> [Option<u32>; 4] {
    let mut turns = [None; 4];
    for turn in turns.iter_mut() {
        *turn = ready.first();
        ready.rotate();
    }
    turns
}

/// A queue of three processes.
fn queue_of(first: u32, second: u32, third: u32) -> Queue
    requires first { (0 < first) × (first ≤ 100) }
    requires second { (0 < second) × (second ≤ 100) }
    requires third { (0 < third) × (third ≤ 100) }
{
    let mut ready = Queue::new();
    ready.to_end(first);
    ready.to_end(second);
    ready.to_end(third);
    ready
}

#[test]
fn turns_go_round_among_those_that_are_ready(rt: HostRuntime) {
    let mut ready = Queue::new();
    ready.rotate();
    let none = ready.first().is_none();
    ready.push(1);
    ready.push(2);
    ready.push(100);
    let three = next_turns(&mut ready) == [Some(1), Some(2), Some(100), Some(1)];
    ready.remove(2);
    ready.remove(3);
    let two = next_turns(&mut ready) == [Some(100), Some(1), Some(100), Some(1)];
    assert!(rt; none && three && two);
}

#[test]
fn a_process_goes_to_the_end_from_anywhere(rt: HostRuntime) {
    let mut ready = queue_of(1, 2, 3);
    ready.to_end(2);
    let from_within = next_turns(&mut ready) == [Some(1), Some(3), Some(2), Some(1)];
    let mut ready = queue_of(1, 3, 2);
    ready.to_end(1);
    let from_the_front = ready.first() == Some(3);
    ready.remove(3);
    assert!(rt; from_within && from_the_front && ready.first() == Some(2));
}
