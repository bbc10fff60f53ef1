//! Lines of the log.

use ds_policy::Rule;

/// What was denied.
#[derive(Clone, Copy, Debug, PartialEq, Eq)]
pub enum Denied {
    Fetch,
    Load,
    Store,
    /// An instruction fault.
    Exec,
    /// A call that gives a page.
    Give,
}

/// A line of the log. Times are in ticks.
#[derive(Clone, Copy, Debug, PartialEq, Eq)]
pub enum Line {
    /// An access, an instruction or a give was denied to a process; `time` is when the unit began,
    /// `pc` the denied instruction's own address.
    Denial {
        time: u64,
        process: u32,
        pc: u32,
        kind: Denied,
        addr: u32,
        rule: Rule,
        code: u32,
    },
    /// A command was refused at a boundary, with the refusal's number.
    Refused {
        time: u64,
        command: u32,
        number: u32,
    },
}
