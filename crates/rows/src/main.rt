//! Runs what the indexes of data/ list, and tells of each line whether it is as expected.
//!
//!     rows              all: rows, tables, words that run nothing, stepped runs, and the
//!                       workstation's parts
//!     rows N            N random programs on the processor alone
//!     rows SOURCE N     N instructions of one program ahead, for `bench/run --core`
#![tactic(auto)]

mod parts;

use ds_drive::SystemFiles;
use ds_rows::{Rows, Stepped, Tables, Told, run_index};
use parts::{Parts, run_ahead, run_random};
use std::alloc::{AllocError, Global};
use std::process::ExitCode;
use std::{env, io};

/// The bytes of a block that is larger than a station's memory, and which the C library takes from
/// the system apart.
const BLOCK: usize = 31 << 20;

/// Frees a large block. From then on the C library keeps what is freed, up to twice that size. Else it
/// gives the memory of each station back to the system, and gets the next one's page by page.
fn keep_freed_memory(alloc: Global) -> Result<(), AllocError> {
    let block: Vec<u8> = Vec::with_capacity(alloc, BLOCK)?;
    drop(block);
    Ok(())
}

fn main(rt: HostRuntime) -> io::Result<ExitCode> {
    keep_freed_memory(rt.alloc())?;
    let words: Vec<String> = env::args(&rt)?.collect(rt.alloc())?;
    let status = run(&rt, words.as_slice())?;
    Ok(ExitCode::from(status))
}

/// Runs what the words of the command line ask for; 0 where all is as expected, else 1.
fn run(rt: &HostRuntime, words: &[String]) -> io::Result<u8> {
    let (alloc, out) = (rt.alloc(), &mut rt.stdout());
    let outcome = match words {
        [_, source, count] => {
            let count = count.parse().unwrap_or(0);
            run_ahead(alloc, source.as_str(), count, SystemFiles::new(rt), out)?
        }
        [_, programs] => run_random(alloc, programs.parse().unwrap_or(0), out)?,
        _ => return run_all(rt),
    };
    Ok(if outcome.is_well() { 0 } else { 1 })
}

/// Runs all that is listed.
fn run_all(rt: &HostRuntime) -> io::Result<u8> {
    let (alloc, files) = (rt.alloc(), SystemFiles::new(rt));
    let (out, err) = (&mut rt.stdout(), &mut rt.stderr());
    let rows = run_index(alloc, "rows", files, &Rows { files }, out, err)?;
    let tables = run_index(alloc, "tables", files, &Tables { files }, out, err)?;
    let told = run_index(alloc, "told", files, &Told { files }, out, err)?;
    let steps = run_index(alloc, "steps/index", files, &Stepped { files }, out, err)?;
    let parts = run_index(alloc, "parts/index", files, &Parts { files }, out, err)?;
    Ok(rows.max(tables).max(told).max(steps).max(parts))
}
