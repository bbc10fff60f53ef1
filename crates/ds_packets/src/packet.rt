//! What a packet says.

/// The processes that a packet speaks of.
#[derive(Clone, Copy, Debug, PartialEq, Eq)]
pub enum Who {
    /// Any process will do.
    Any,
    /// All processes.
    All,
    /// The process of this number.
    Process(u32),
}

/// How far processes are to go.
#[derive(Clone, Copy, Debug, PartialEq, Eq)]
pub enum Action {
    /// As far as something stops them.
    Continue,
    /// One unit.
    Step,
    /// While they stand from the first address on, and before the second.
    Range { from: u32, to: u32 },
}

/// What `monitor` asks to be told.
#[derive(Clone, Copy, Debug, PartialEq, Eq)]
pub enum Report {
    /// `time`: how far the run has come.
    Time,
    /// `processes`: how each process stands.
    Processes,
    /// `log`: the text of the log.
    Log,
    /// `console L`: the text of a console line, from 0 to 3.
    Console(u8),
    /// `table`: the entries of the permission table.
    Table,
    /// `table P`: those of a process, by its number.
    TableOf(u64),
}

/// A packet that is known.
#[derive(Clone, Copy, Debug, PartialEq, Eq)]
pub enum Packet {
    /// `qSupported`: what gdb can do, and whether it has several processes.
    Supported { multiprocess: bool },
    /// `QStartNoAckMode`: no packet is acknowledged from the next one on.
    NoAcknowledgements,
    /// `qXfer:features:read:target.xml`: a part of the description of the registers.
    Description { offset: u32, length: u32 },
    /// `?`: why the target stands.
    Why,
    /// `qfThreadInfo`: the processes.
    FirstThreads,
    /// `qsThreadInfo`: further processes.
    MoreThreads,
    /// `qThreadExtraInfo`: a process in words.
    ThreadInfo(Who),
    /// `qRcmd`: what `monitor` asks for.
    Monitor(Report),
    /// `qRcmd`, `stop T`: the time in ticks at which a run is to stop, up to 1,000,000,000.
    StopAt(u64),
    /// `qAttached`: whether the process was there before gdb.
    Attached,
    /// `qC`: the process that is looked at.
    Current,
    /// `T`: whether a process is there.
    Alive(Who),
    /// `Hg`: whose registers and memory are looked at from now on.
    Look(Who),
    /// `Hc`: which processes go from now on.
    Go(Who),
    /// `g`: the registers.
    Registers,
    /// `p`: a register.
    Register(u32),
    /// `m`: so many bytes of memory from an address on.
    Memory { address: u32, length: u32 },
    /// `G`, `M`, `P`, `X`: a change of registers or memory.
    Write,
    /// `Z0`, `Z1`: a breakpoint at an address.
    Break(u32),
    /// `z0`, `z1`: no breakpoint at an address any more.
    Unbreak(u32),
    /// `Z2`: a watch of so many bytes from an address on.
    Watch { address: u32, length: u32 },
    /// `z2`: no watch of them any more.
    Unwatch { address: u32, length: u32 },
    /// `vCont?`: the actions that are known.
    Actions,
    /// `vCont`: actions, each of processes.
    Resume,
    /// `c`, `C`, `s`, `S`: processes go forward.
    Forward(Action),
    /// `bc`, `bs`: processes go backward.
    Backward(Action),
    /// `D`, `vKill`: gdb leaves.
    Leave,
    /// `k`: the session ends.
    End,
}

/// Why what came is no packet that is known.
#[derive(Clone, Copy, Debug, PartialEq, Eq)]
pub enum Refusal {
    /// It has another name than those that are known.
    Unknown,
    /// It has not the form of its name.
    Malformed,
}
