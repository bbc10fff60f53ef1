//! Calls of the monitor.

ghost use Rattle.std.specs.Prelude.{◌≡◌};
ghost use Rattle.ds_procs.specs.Calls.{call_of};

use crate::process::Process;

/// A call with its arguments.
#[derive(Clone, Copy, Debug, PartialEq, Eq)]
pub enum Call {
    /// The process ends.
    Exit,
    /// A character goes to the process's line.
    Put {
        byte: u8,
    },
    /// The oldest character of its line's queue.
    Get,
    /// It goes to the end of the ready list.
    Yield,
    /// The time in ticks.
    Time,
    /// Its own number.
    Own,
    /// A page is given: shared for reading (1) or writing (2), or copied (3).
    Give {
        address: u32,
        receiver: u32,
        to: u32,
        mode: u32,
    },
    /// A page that the caller gave is taken back.
    Take {
        process: u32,
        address: u32,
    },
    /// The caller's own entry is dropped.
    Drop {
        address: u32,
    },
    /// It waits for a character.
    Wait,
    /// A number that names no call.
    Unknown,
}

/// The register that holds a call's number.
const NUMBER: usize = 2;

/// The register that holds its first argument.
const FIRST: usize = 4;

/// That of its second argument.
const SECOND: usize = 5;

/// That of its third argument.
const THIRD: usize = 6;

/// That of its fourth argument.
const FOURTH: usize = 7;

impl Call {
    /// The call that a process asks for by its registers, where it stands after a SYSCALL.
    pub fn of(process: &Process) -> Call
        ensures { result ≡ call_of process.now.registers }
    {
        let registers = &process.registers;
        match registers[NUMBER] {
            0 => Call::Exit,
            1 => Call::Put {
                byte: (registers[FIRST] % 256) as u8,
            },
            2 => Call::Get,
            3 => Call::Yield,
            4 => Call::Time,
            5 => Call::Own,
            6 => Call::Give {
                address: registers[FIRST],
                receiver: registers[SECOND],
                to: registers[THIRD],
                mode: registers[FOURTH],
            },
            7 => Call::Take {
                process: registers[FIRST],
                address: registers[SECOND],
            },
            8 => Call::Drop {
                address: registers[FIRST],
            },
            9 => Call::Wait,
            _ => Call::Unknown,
        }
    }
}
