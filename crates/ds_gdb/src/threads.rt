//! Processes as gdb names them.
ghost use Rattle.std.specs.Prelude.{◌≡◌, ◌≤◌, ◌<◌, ◌++◌, OnOk};
ghost use Rattle.ds_gdb.specs.Threads.{listed_thread, mark_before, thread_text, threads_text};

use crate::digits::push_number;
use std::alloc::AllocError;

/// Adds the name of the thread of a process.
pub fn push_thread(text: &mut Vec<u8>, process: u32) -> Result<(), AllocError>
    requires { process < 256 }
    ensures { OnOk result (text.new.items ≡ text.old.items ++ thread_text process) }
{
    text.extend_from_slice(b"p")?;
    push_number(text, process as u8)?;
    text.extend_from_slice(b".1")
}

/// What stands before the name of the process after so many others.
fn mark_before(index: u32) -> &'static [u8]
    ensures { result.now ≡ mark_before index }
{
    if index == 0 { b"m" } else { b"," }
}

/// Adds the name of the process after so many others, in a list.
fn push_listed(text: &mut Vec<u8>, index: u32) -> Result<(), AllocError>
    requires { index < 100 }
    ensures { OnOk result (text.new.items ≡ text.old.items ++ listed_thread index) }
{
    text.extend_from_slice(mark_before(index))?;
    push_thread(text, index + 1)
}

/// Adds the names of so many processes.
pub fn push_threads(text: &mut Vec<u8>, count: u32) -> Result<(), AllocError>
    requires { count ≤ 100 }
    ensures { OnOk result (text.new.items ≡ text.old.items ++ threads_text count) }
{
    for index in 0..count {
        push_listed(text, index)?;
    }
    Ok(())
}
