//! Answers to packets that only look.
ghost use Rattle.std.specs.Prelude.{◌≡◌, ◌++◌, OnOk, codes};
ghost use Rattle.ds_gdb.specs.Threads.{thread_text};
ghost use Rattle.ds_bare_debug.specs.Looks.{here_text, machine_info, is_here, mode_words};

use ds_bare::Machine;
use ds_gdb::push_thread;
use ds_packets::{Who, push_hex};
use std::alloc::AllocError;

/// Whether the machine is meant, which is gdb's only process.
fn is_here(who: Who) -> bool
    ensures { result ≡ is_here who }
{
    match who {
        Who::Any | Who::All => true,
        Who::Process(process) => process == 1,
    }
}

/// That it is meant, or the error where it is not.
pub(crate) fn here_text(who: Who) -> &'static [u8]
    ensures { result.now ≡ here_text who }
{
    if is_here(who) { b"OK" } else { b"E03" }
}

/// The machine in words.
fn mode_words<'a>(machine: &Machine<'a>) -> &'static [u8]
    ensures { result.now ≡ mode_words machine.now }
{
    if machine.is_user() {
        b"user mode"
    } else {
        b"kernel mode"
    }
}

/// Adds the machine in words, in hexadecimal digits, where it is named alone.
pub(crate) fn push_info<'a>(
    text: &mut Vec<u8>,
    machine: &Machine<'a>,
    who: Who,
) -> Result<(), AllocError>
    ensures { OnOk result (text.new.items ≡ text.old.items ++ machine_info who machine.now) }
{
    match who {
        Who::Process(process) if process == 1 => push_hex(text, mode_words(machine)),
        _ => text.extend_from_slice(b"E03"),
    }
}

/// Adds the machine by its name.
pub(crate) fn push_current(text: &mut Vec<u8>) -> Result<(), AllocError>
    ensures { OnOk result (text.new.items ≡ text.old.items ++ (codes "QC" ++ thread_text 1)) }
{
    text.extend_from_slice(b"QC")?;
    push_thread(text, 1)
}
