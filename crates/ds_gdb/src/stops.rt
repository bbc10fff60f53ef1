//! What gdb is told of a process that stands.
ghost use Rattle.std.specs.Prelude.{◌≡◌, ◌<◌, ◌++◌, OnOk};
ghost use Rattle.ds_gdb.specs.Stops.{stop_reason_text, signal_of, stop_text};

use crate::threads::push_thread;
use ds_packets::push_hex;
use ds_text::sheet;
use std::alloc::AllocError;

/// Why a process stands.
#[derive(Clone, Copy, Debug, PartialEq, Eq)]
pub enum Reason {
    /// It was told to go no further, or has not gone yet.
    Rest,
    /// It stands at a breakpoint.
    Break,
    /// A byte of what it watches from this address on has changed.
    Watch(u32),
    /// It was denied something: this signal tells what. Or it had no turn yet to which it could go back:
    /// SIGINT.
    Signal(u8),
    /// It stands at the beginning of the run, before which there is nothing.
    Begin,
    /// The run is over.
    End,
}

/// The signal that is told.
fn signal_of(reason: Reason) -> u8
    ensures { result ≡ signal_of reason }
{
    match reason {
        Reason::Signal(signal) => signal,
        Reason::Rest | Reason::Break | Reason::Watch(_) | Reason::Begin | Reason::End => 5,
    }
}

/// Adds that what is watched from an address on has changed.
fn push_watch(text: &mut Vec<u8>, address: u32) -> Result<(), AllocError>
    ensures { OnOk result (text.new.items ≡ text.old.items ++ stop_reason_text (Reason.Watch address)) }
{
    text.extend_from_slice(b"watch:")?;
    sheet::push_hex(text, address)?;
    text.extend_from_slice(b";")
}

/// Adds what else is told of the reason.
fn push_reason(text: &mut Vec<u8>, reason: Reason) -> Result<(), AllocError>
    ensures { OnOk result (text.new.items ≡ text.old.items ++ stop_reason_text reason) }
{
    match reason {
        Reason::Break => text.extend_from_slice(b"swbreak:;"),
        Reason::Watch(address) => push_watch(text, address),
        Reason::Begin => text.extend_from_slice(b"replaylog:begin;"),
        Reason::End => text.extend_from_slice(b"replaylog:end;"),
        Reason::Rest | Reason::Signal(_) => Ok(()),
    }
}

/// Adds a process, with why it stands.
#[tactic(auto, unfolding(crate::specs::Stops::stop_text))]
pub fn push_stop(text: &mut Vec<u8>, process: u32, reason: Reason) -> Result<(), AllocError>
    requires { process < 256 }
    ensures { OnOk result (text.new.items ≡ text.old.items ++ stop_text process reason) }
{
    text.extend_from_slice(b"T")?;
    push_hex(text, &[signal_of(reason)])?;
    text.extend_from_slice(b"thread:")?;
    push_thread(text, process)?;
    text.extend_from_slice(b";")?;
    push_reason(text, reason)
}
