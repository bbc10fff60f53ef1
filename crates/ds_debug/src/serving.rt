//! A session with gdb over a reader and a writer.
ghost use Rattle.std.specs.Prelude.{IfErr, IfOk};
ghost use Rattle.ds_gdb.specs.Serving.{pipes};
ghost use Rattle.ds_debug.specs.Inner.Inputs.{inputs_seen};
ghost use Rattle.ds_debug.specs.Serving.{Debugs};
ghost use Rattle.ds_debug.specs.Inner.Serving.{DebugEndsBy};

use crate::inputs::Inputs;
use crate::session::Session;
use ds_gdb::{Cut, Ending, Stream};
use ds_station::Fault;
use std::alloc::Global;
use std::io::{Read, Write};

/// Holds a session with gdb over a run of these inputs for `limit` ticks: gdb's bytes are read, and what
/// they are answered is written, until gdb ends the session or nothing is left to be read. Inputs that
/// are refused are refused as by `prepare` of `ds_station`, and nothing is read then.
pub fn debug<'a, R: Read, W: Write>(
    alloc: Global,
    inputs: Inputs<'a>,
    limit: u64,
    reader: &mut R,
    out: &mut W,
) -> Result<Ending, Fault>
    ensures ok { IfOk result (λ ending. Debugs ending (inputs_seen inputs.entry) limit
        (pipes (R.remaining reader.old) (R.remaining reader.new) (W.contents out.old)
        (W.contents out.new))) }
    ensures err { IfErr result (λ f. DebugEndsBy f (inputs_seen inputs.entry) limit
        (pipes (R.remaining reader.old) (R.remaining reader.new) (W.contents out.old)
        (W.contents out.new))) }
{
    let session = match Session::new(alloc, inputs, limit) {
        Ok(session) => session,
        Err(refused) => return Err(refused),
    };
    let mut stream = Stream::new(session);
    match stream.serve_all(alloc, reader, out) {
        Ok(ending) => Ok(ending),
        Err(Cut::WriteFault) => Err(Fault::WriteFault),
        Err(Cut::Memory) => Err(Fault::Memory),
    }
}
