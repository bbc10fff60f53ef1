//! Runs that no file can hold: sources that are missing, writers that fail, memory that is refused.
//! `crates/rows` has the others.

mod memory;
mod refusals;
mod writers;

use ds_station::run_files;
use std::alloc::{AllocError, Global};

/// A policy of one process that may read its code.
pub const POLICY: &str = "version = 1
frames = 16
[[process]]
start = 0x00400000
line = 0
[[page]]
name = \"code\"
source = \"one.s\"
part = 0
[[page]]
name = \"data\"
[[rule]]
process = 1
address = 0x00400000
right = \"read\"
page = \"code\"
";

/// Puts the byte 41 and exits.
pub const PUT_A: &str =
    ".word 0x24040041\n.word 0x24020001\n.word 0x0000000C\n.word 0x24020000\n.word 0x0000000C\n";

/// What a run of it writes.
pub const A: &str = "console 0 1\nA\nconsole 1 0\n\nconsole 2 0\n\nconsole 3 0\n\nlog 0\ntime 5\n";

/// A run: its inputs.
#[derive(Clone, Copy)]
pub struct Run<'a> {
    pub policy: &'a [u8],
    /// The sources' names and texts.
    pub sources: &'a [(&'a str, &'a [u8])],
    pub input: &'a [u8],
    pub n: u64,
    pub random: u8,
}

/// What a run adds to a writer that holds a line already, and the line of its fault.
fn outcome<'a>(alloc: Global, run: Run<'a>) -> Result<Vec<u8>, AllocError> {
    let mut out = b"before\n".to_vec(alloc)?;
    let ran = run_files(
        alloc,
        run.policy,
        run.sources,
        run.input,
        run.n,
        run.random,
        &mut out,
    );
    if let Err(fault) = ran {
        out.extend_from_slice(fault.to_string(alloc)?.as_bytes())?;
    }
    Ok(out)
}

/// Whether a run writes what is wanted of it behind that line: a text, or the line of a fault.
pub fn comes<'a>(alloc: Global, run: Run<'a>, wanted: &str) -> Result<bool, AllocError> {
    let came = outcome(alloc, run)?;
    let written = came.as_slice().strip_prefix(b"before\n".as_slice());
    Ok(written == Some(wanted.as_bytes()))
}
