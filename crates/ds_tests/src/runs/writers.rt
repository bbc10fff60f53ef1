//! Writers that take little at once, or no more.

use super::*;
use crate::limited::{End, Limited};

/// Runs the row of one byte into a writer; the line of its fault, or nothing.
fn write_one_byte(alloc: Global, out: &mut Limited) -> Result<String, AllocError> {
    let sources = [("one.s", PUT_A.as_bytes())];
    let ran = run_files(alloc, POLICY.as_bytes(), &sources, b"", 100, 63, out);
    match ran {
        Ok(()) => Ok(String::new(alloc)),
        Err(fault) => fault.to_string(alloc),
    }
}

/// Whether a writer that takes so many bytes at once, and so many in all, holds that much of the
/// text, and the fault is told as it has to be.
fn holds_the_front(
    alloc: Global,
    at_once: usize,
    room: usize,
    end: End,
    wanted: &str,
) -> Result<bool, AllocError> {
    let mut out = Limited {
        held: Vec::new(alloc),
        at_once,
        room,
        end,
    };
    let fault = write_one_byte(alloc, &mut out)?;
    let front = A.as_bytes().get(..room);
    Ok(fault.as_str() == wanted && front == Some(out.held.as_slice()))
}

#[test]
fn a_writer_of_one_byte_a_call_gets_the_whole_text(rt: HostRuntime) -> Result<(), AllocError> {
    let holds = holds_the_front(rt.alloc(), 1, 66, End::Error, "")?;
    assert!(rt; A.len() == 66 && holds);
    Ok(())
}

/// Whether a writer holds the front of the text, wherever it stops.
fn holds_each_front(alloc: Global, end: End) -> Result<bool, AllocError> {
    let mut right = true;
    for room in 0..A.len() {
        right = holds_the_front(alloc, 4096, room, end, "23 WriteFault")? && right;
    }
    Ok(right)
}

#[test]
fn a_writer_that_takes_no_more_holds_the_front_of_the_text(
    rt: HostRuntime,
) -> Result<(), AllocError> {
    let error = holds_each_front(rt.alloc(), End::Error)?;
    let zero = holds_each_front(rt.alloc(), End::Zero)?;
    assert!(rt; error && zero);
    Ok(())
}
