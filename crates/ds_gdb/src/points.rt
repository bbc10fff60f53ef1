//! Breakpoints, and what is watched.
ghost use Rattle.std.specs.Prelude.{◌≡◌, ◌<◌, ◌==◌, ◌&&◌, [], IfSome, length, position};
ghost use Rattle.ds_gdb.specs.Points.{break_text, is_break, is_same_watch, is_watch, watch_text, with_break, with_watch, without_break, without_watch};

use arrayvec::ArrayVec;
use std::marker::Model;

/// The most breakpoints.
const MOST_BREAKPOINTS: usize = 64;
/// The most watches.
const MOST_WATCHPOINTS: usize = 16;
/// The most bytes of a watch.
const MOST_WATCHED: u32 = 64;

/// A place at which a process stops.
#[derive(Clone, Copy, Debug, Default, PartialEq, Eq)]
pub struct Breakpoint {
    pub process: u32,
    pub address: u32,
}

/// So many bytes of a process that are watched, from an address on.
#[derive(Clone, Copy, Debug, Default, PartialEq, Eq)]
pub struct Watchpoint {
    pub process: u32,
    pub address: u32,
    pub length: u32,
}

/// Breakpoints, 64 at most.
#[derive(Drop)]
pub struct Breakpoints {
    points: ArrayVec<Breakpoint, MOST_BREAKPOINTS>,
}

impl Model for Breakpoints {
    ghost use Rattle.std.specs.Prelude.{List};
    ghost use Rattle.ds_gdb.specs.declared.points.Breakpoint.{Breakpoint};

    ghost Value = { List Breakpoint };

    ghost view = { λ b. b.points.items };
}

impl Breakpoints {
    /// None.
    pub fn new() -> Breakpoints
        ensures { result ≡ [] }
    {
        Breakpoints {
            points: ArrayVec::new(),
        }
    }

    /// They, in the order in which they were set.
    pub fn as_slice(&self) -> &[Breakpoint]
        ensures { result.now ≡ self.now }
    {
        self.points.as_slice()
    }

    /// Sets one, where it is not there and there is room, and answers what gdb is told.
    pub fn set(&mut self, process: u32, address: u32) -> &'static [u8]
        ensures changed { self.new ≡ with_break self.old process address }
        ensures text { result.now ≡ break_text self.old process address }
    {
        if is_break(self.points.as_slice(), process, address) {
            b"OK"
        } else if self.points.len() < MOST_BREAKPOINTS {
            self.points.push(Breakpoint { process, address });
            b"OK"
        } else {
            b"E1C"
        }
    }

    /// Takes one away, where it is there.
    pub fn remove(&mut self, process: u32, address: u32)
        ensures { self.new ≡ without_break self.old process address }
    {
        match breakpoint_place(self.points.as_slice(), process, address) {
            Some(place) => {
                let _ = self.points.remove(place);
            }
            None => {}
        }
    }
}

/// Whether a process has a breakpoint at an address.
pub fn is_break(breakpoints: &[Breakpoint], process: u32, address: u32) -> bool
    ensures { result ≡ is_break breakpoints.now process address }
{
    breakpoints
        .iter()
        .any(|b| b.process == process && b.address == address)
}

/// The place of a breakpoint, where it is there.
fn breakpoint_place(breakpoints: &[Breakpoint], process: u32, address: u32) -> Option<usize>
    ensures place { result ≡ position
        (λ b. (b.process == process) && (b.address == address)) breakpoints.now }
    ensures within { IfSome result (λ place. place < length breakpoints.now) }
{
    breakpoints
        .iter()
        .position(|b| b.process == process && b.address == address)
}

/// What is watched: 16 watches at most, of at most 64 bytes each.
#[derive(Drop)]
pub struct Watchpoints {
    watches: ArrayVec<Watchpoint, MOST_WATCHPOINTS>,
}

impl Model for Watchpoints {
    ghost use Rattle.std.specs.Prelude.{List};
    ghost use Rattle.ds_gdb.specs.declared.points.Watchpoint.{Watchpoint};

    ghost Value = { List Watchpoint };

    ghost view = { λ w. w.watches.items };
}

impl Watchpoints {
    /// None.
    pub fn new() -> Watchpoints
        ensures { result ≡ [] }
    {
        Watchpoints {
            watches: ArrayVec::new(),
        }
    }

    /// They, in the order in which they were set.
    pub fn as_slice(&self) -> &[Watchpoint]
        ensures { result.now ≡ self.now }
    {
        self.watches.as_slice()
    }

    /// Sets one, where it is not too long and not there and there is room, and answers what gdb is told.
    pub fn set(&mut self, watchpoint: Watchpoint) -> &'static [u8]
        ensures changed { self.new ≡ with_watch self.old watchpoint }
        ensures text { result.now ≡ watch_text self.old watchpoint }
    {
        if MOST_WATCHED < watchpoint.length {
            b"E16"
        } else if is_watch(self.watches.as_slice(), watchpoint) {
            b"OK"
        } else if self.watches.len() < MOST_WATCHPOINTS {
            self.watches.push(watchpoint);
            b"OK"
        } else {
            b"E1C"
        }
    }

    /// Takes one away, where it is there.
    pub fn remove(&mut self, watchpoint: Watchpoint)
        ensures { self.new ≡ without_watch self.old watchpoint }
    {
        match place_of_watch(self.watches.as_slice(), watchpoint) {
            Some(place) => {
                let _ = self.watches.remove(place);
            }
            None => {}
        }
    }
}

/// Whether two watches are the same.
fn is_same_watch(first: Watchpoint, second: Watchpoint) -> bool
    ensures { result ≡ is_same_watch first second }
{
    second.process == first.process
        && second.address == first.address
        && second.length == first.length
}

/// Whether a watch is there.
fn is_watch(watchpoints: &[Watchpoint], watchpoint: Watchpoint) -> bool
    ensures { result ≡ is_watch watchpoints.now watchpoint }
{
    watchpoints.iter().any(|w| is_same_watch(watchpoint, *w))
}

/// The place of a watch, where it is there.
fn place_of_watch(watchpoints: &[Watchpoint], watchpoint: Watchpoint) -> Option<usize>
    ensures place { result ≡ position (is_same_watch watchpoint) watchpoints.now }
    ensures within { IfSome result (λ place. place < length watchpoints.now) }
{
    watchpoints
        .iter()
        .position(|w| is_same_watch(watchpoint, *w))
}
