//! A session with a debugger over a run of files.
ghost use Rattle.std.specs.Prelude.{◌≡◌, ◌∷◌, ℕ, List, [], IfErr, IfOk, OnOk, codes};
ghost use Rattle.ds_gdb.specs.Serving.{pipes};
ghost use Rattle.ds_drive.specs.Debugged.{DebugStopsBy, HasDebugged};
ghost use Rattle.ds_drive.specs.Listening.{IsToldText, listener};
ghost use Rattle.ds_drive.specs.Reading.{ReadsRunUntil};
ghost use Rattle.ds_drive.specs.Inner.Reading.{ReadsRun, TellsOfRun};

use crate::failure::Failure;
use crate::files::Files;
use crate::run::{lent, read_inputs};
use crate::status::RUN_FAILED;
use ds_debug::{Inputs, debug};
use ds_gdb::Ending;
use ds_text::{Output, send};
use ds_words::Request;
use std::alloc::Global;
use std::io::{Read, Write};

/// Reads the files of a run as `run_request` does, and holds a session with a debugger over the run:
/// what is read from `input` is answered on `out`. Nothing is read from `input` before the files are.
#[tactic(auto, using(crate::proofs::Debugging::debug_unread, crate::proofs::Debugging::memory_stops, crate::proofs::Readings::run_read_until))]
pub fn debug_files<'a, F: Files, R: Read, W: Write>(
    alloc: Global,
    request: &Request<'a>,
    files: &mut F,
    input: &mut R,
    out: &mut W,
) -> Result<Ending, Failure<'a>>
    ensures ok { IfOk result (λ ending. HasDebugged ending (F.holds files.old) request.now
        (pipes (R.remaining input.old) (R.remaining input.new) (W.contents out.old)
        (W.contents out.new))) }
    ensures err { IfErr result
        (λ f. DebugStopsBy f (F.holds files.old) (F.lacks files.old) request.now
        (W.contents out.old) (W.contents out.new)) }
    ensures reads { OnOk result (ReadsRun (F.holds files.old) request.now.policy.now
        (request.now.input.now ∷ []) (F.asked files.old) (F.asked files.new)) }
    ensures reads_until { IfErr result (λ f. ReadsRunUntil (TellsOfRun request.now.inside f)
        (F.holds files.old) request.now.policy.now (request.now.input.now ∷ [])
        (F.asked files.old) (F.asked files.new)) }
    ensures kept { (file bytes : List ℕ) → F.holds files.new file bytes
        → F.holds files.old file bytes }
    ensures lacked { (file : List ℕ) → F.lacks files.new file → F.lacks files.old file }
{
    let read = read_inputs(alloc, request, files)?;
    let sources = lent(alloc, read.texts.as_slice())?;
    let inputs = Inputs {
        policy: &read.policy,
        sources: sources.as_slice(),
        input: read.input.as_slice(),
        random: request.random,
    };
    match debug(alloc, inputs, request.most_time, input, out) {
        Ok(ending) => Ok(ending),
        Err(fault) => Err(Failure::Fault(fault)),
    }
}

/// Tells that a session ended since a read failed, and answers the status.
#[tactic(auto, using(crate::proofs::Heard::told_so))]
pub(crate) fn tell_unread<E: Output>(err: &mut E) -> u8
    ensures status { result ≡ 3 }
    ensures told { IsToldText (listener (E.contents err.old) (E.contents err.new)
        (E.answers err.old) (E.answers err.new))
        (codes "dsmon: standard input could not be read\n") }
{
    let _ = send(err, b"dsmon: standard input could not be read\n");
    RUN_FAILED
}
