//! What an input asks for.
ghost use Rattle.std.specs.Prelude.{◌≡◌};
ghost use Rattle.ds_policy.specs.Words.{address_of_command, process_of_command, verb_of};

use crate::grant::Right;
use ds_text::words;

/// A command of the operator.
#[derive(Clone, Copy, Debug, PartialEq, Eq)]
pub enum Command {
    /// An entry over a named page.
    Grant {
        process: u32,
        address: u32,
        page: u32,
        right: Right,
        give: bool,
    },
    /// The right becomes read.
    Narrow {
        process: u32,
        address: u32,
    },
    /// The right becomes none.
    Revoke {
        process: u32,
        address: u32,
    },
    /// The entry is removed.
    Drop {
        process: u32,
        address: u32,
    },
    /// A parked process becomes ready.
    Resume {
        process: u32,
    },
    /// The process is ended.
    Stop {
        process: u32,
    },
}

impl Command {
    /// The word with which its line begins, after the time.
    pub fn verb(self) -> &'static str
        ensures { result.now ≡ verb_of self }
    {
        match self {
            Command::Grant { .. } => words::GRANT,
            Command::Narrow { .. } => words::NARROW,
            Command::Revoke { .. } => words::REVOKE,
            Command::Drop { .. } => words::DROP,
            Command::Resume { .. } => words::RESUME,
            Command::Stop { .. } => words::STOP,
        }
    }

    /// The number of the process that it names.
    pub fn process(self) -> u32
        ensures { result ≡ process_of_command self }
    {
        match self {
            Command::Grant { process, .. }
            | Command::Narrow { process, .. }
            | Command::Revoke { process, .. }
            | Command::Drop { process, .. }
            | Command::Resume { process }
            | Command::Stop { process } => process,
        }
    }

    /// The address of the entry that it names, where it names one.
    pub fn address(self) -> Option<u32>
        ensures { result ≡ address_of_command self }
    {
        match self {
            Command::Grant { address, .. }
            | Command::Narrow { address, .. }
            | Command::Revoke { address, .. }
            | Command::Drop { address, .. } => Some(address),
            Command::Resume { .. } | Command::Stop { .. } => None,
        }
    }
}

/// A command with the time at which it is due, in ticks, and its number among the commands, from 1.
#[derive(Clone, Copy, Debug, PartialEq, Eq)]
pub struct TimedCommand {
    pub time: u64,
    pub number: u32,
    pub command: Command,
}

/// A character that comes in on a line, with the time at which it is due, in ticks.
#[derive(Clone, Copy, Debug, PartialEq, Eq)]
pub struct Character {
    pub time: u64,
    pub line: u8,
    pub byte: u8,
}
