//! A session with gdb over a reader and a writer.
ghost use Rattle.std.specs.Prelude.{IfErr, IfOk};
ghost use Rattle.ds_gdb.specs.Serving.{pipes};
ghost use Rattle.ds_bare_debug.specs.Runs.{run_seen};
ghost use Rattle.ds_bare_debug.specs.Serving.{BareDebugEndsBy, DebugsBare};

use crate::runner::BareRun;
use crate::session::Session;
use ds_bare::BareFault;
use ds_gdb::{Cut, Ending, Stream};
use std::alloc::Global;
use std::io::{Read, Write};

/// Holds a session with gdb over a run of the bare machine: gdb's bytes are read, and what they are
/// answered is written, until gdb ends the session or nothing is left to be read. What is written is a
/// function of the run and of these bytes. Where Random may not start there nothing is read.
pub fn debug_bare<'a, R: Read, W: Write>(
    alloc: Global,
    run: BareRun<'a>,
    reader: &mut R,
    out: &mut W,
) -> Result<Ending, BareFault>
    ensures ok { IfOk result (λ ending. DebugsBare ending (run_seen run.entry)
        (pipes (R.remaining reader.old) (R.remaining reader.new) (W.contents out.old)
        (W.contents out.new))) }
    ensures err { IfErr result (λ f. BareDebugEndsBy f (run_seen run.entry)
        (pipes (R.remaining reader.old) (R.remaining reader.new) (W.contents out.old)
        (W.contents out.new))) }
{
    let session = match Session::new(alloc, run) {
        Ok(session) => session,
        Err(refused) => return Err(refused),
    };
    let mut stream = Stream::new(session);
    match stream.serve_all(alloc, reader, out) {
        Ok(ending) => Ok(ending),
        Err(Cut::WriteFault) => Err(BareFault::WriteFault),
        Err(Cut::Memory) => Err(BareFault::Memory),
    }
}
