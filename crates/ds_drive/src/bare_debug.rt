//! A session with a debugger over a run on the bare machine.
ghost use Rattle.std.specs.Prelude.{◌≡◌, ◌≢◌, ◌≤◌, ◌⊎◌, ℕ, List, IfErr, IfOk, OnOk, map, string_bytes, true};
ghost use Rattle.ds_bare_debug.specs.Serving.{IsUntouched};
ghost use Rattle.ds_gdb.specs.Serving.{pipes};
ghost use Rattle.ds_words.specs.BareDebug.{AsksForBareDebug, is_bare_debug};
ghost use Rattle.ds_words.specs.declared.words.BareStart.{BareStart};
ghost use Rattle.ds_drive.specs.BareDebugged.{BareDebugFailsBy, IsBareDebugDone, IsBareDebugStopped, ReadsForBareDebug};
ghost use Rattle.ds_drive.specs.Inner.BareDebugged.{IsBareSession};
ghost use Rattle.ds_drive.specs.Inner.Reading.{TellsOf};
ghost use Rattle.ds_drive.specs.Listening.{listener};
ghost use Rattle.ds_drive.specs.Reading.{ReadsAll, ReadsUntil, bare_names};

use crate::bare::{fault_of, read_bare};
use crate::debug::tell_unread;
use crate::failure::Failure;
use crate::files::Files;
use crate::list::tell_faults;
use crate::program::tell_words;
use crate::refused::FaultySource;
use crate::status::{DONE, WORDS_REFUSED};
use crate::told::tell;
use ds_bare_debug::{BareRun, debug_bare};
use ds_gdb::Ending;
use ds_station::Fault;
use ds_text::{Output, send};
use ds_words::{BareStart, bare_debug_of};
use std::alloc::Global;
use std::io::{Read, Write};

/// Reads the files of a run on the bare machine, and holds a session with a debugger over the run, or
/// answers the faults of the source. What is read from `input` is answered on `out`; nothing is read
/// from it before the files are.
#[tactic(auto, using(crate::proofs::BareDebugging::never_held, crate::proofs::BareDebugging::session_ends, crate::proofs::Readings::read_all))]
pub fn debug_bare_file<'a, F: Files, R: Read, W: Write>(
    alloc: Global,
    start: &BareStart<'a>,
    files: &mut F,
    input: &mut R,
    out: &mut W,
) -> Result<Result<Ending, FaultySource>, Failure<'a>>
    ensures ok { IfOk result (λ came. IsBareSession came (F.holds files.old) start.now
        (pipes (R.remaining input.old) (R.remaining input.new) (W.contents out.old)
        (W.contents out.new))) }
    ensures err { IfErr result
        (λ f. BareDebugFailsBy f (F.holds files.old) (F.lacks files.old) start.now
        (pipes (R.remaining input.old) (R.remaining input.new) (W.contents out.old)
        (W.contents out.new))) }
    ensures reads { OnOk result (ReadsAll (bare_names start.now)
        (F.asked files.old) (F.asked files.new)) }
    ensures reads_until { IfErr result (λ f. ReadsUntil (TellsOf f) (bare_names start.now)
        (F.asked files.old) (F.asked files.new)) }
    ensures kept { (file bytes : List ℕ) → F.holds files.new file bytes
        → F.holds files.old file bytes }
    ensures lacked { (file : List ℕ) → F.lacks files.new file → F.lacks files.old file }
{
    let inputs = match read_bare(alloc, start, files)? {
        Ok(inputs) => inputs,
        Err(source) => return Ok(Err(source)),
    };
    let run = BareRun {
        image: &inputs.image,
        random: start.random,
        keys: &inputs.keys,
        limit: start.most,
    };
    match debug_bare(alloc, run, input, out) {
        Ok(ending) => Ok(Ok(ending)),
        Err(fault) => Err(Failure::Fault(fault_of(fault))),
    }
}

/// Does what words that begin with `debug --bare` ask for, the program's own name first, and answers
/// the status: 0 the session is over; 1 the words were refused, or ask for help; 2 refused input; 3 a
/// read or a write failed, or memory ran out. What was refused is told on `err`.
#[tactic(auto, using(crate::proofs::BareDebugging::untouched, crate::proofs::BareDebugging::session_unasked, crate::proofs::BareDebugging::session_reads))]
pub fn drive_bare_debug<F: Files, R: Read, W: Write, E: Output>(
    alloc: Global,
    words: &[String],
    files: &mut F,
    input: &mut R,
    out: &mut W,
    err: &mut E,
) -> u8
    requires { is_bare_debug (map string_bytes words.now) ≡ true }
    ensures range { result ≤ 3 }
    ensures taken { (start : BareStart) → AsksForBareDebug (map string_bytes words.now) start
        → result ≢ 1 }
    ensures refused { result ≡ 1 → IsUntouched (pipes (R.remaining input.old) (R.remaining input.new)
        (W.contents out.old) (W.contents out.new)) }
    ensures done { result ≡ 0 → IsBareDebugDone (map string_bytes words.now) (F.holds files.old)
        (pipes (R.remaining input.old) (R.remaining input.new) (W.contents out.old)
        (W.contents out.new)) }
    ensures stopped { (result ≡ 2) ⊎ (result ≡ 3)
        → IsBareDebugStopped result (map string_bytes words.now) (F.holds files.old)
        (F.lacks files.old) (pipes (R.remaining input.old) (R.remaining input.new)
        (W.contents out.old) (W.contents out.new))
        (listener (E.contents err.old) (E.contents err.new) (E.answers err.old)
        (E.answers err.new)) }
    ensures reads { ReadsForBareDebug result (map string_bytes words.now)
        (F.asked files.old) (F.asked files.new) }
    ensures kept { (file bytes : List ℕ) → F.holds files.new file bytes
        → F.holds files.old file bytes }
    ensures lacked { (file : List ℕ) → F.lacks files.new file → F.lacks files.old file }
{
    match bare_debug_of(alloc, words) {
        Ok(Some(start)) => match debug_bare_file(alloc, &start, files, input, out) {
            Ok(Ok(Ending::Over)) => DONE,
            Ok(Ok(Ending::Unread)) => tell_unread(err),
            Ok(Err(source)) => tell_faults(alloc, err, start.source, &source),
            Err(failure) => tell(err, &failure),
        },
        Ok(None) => {
            let _ = send(
                err,
                b"dsmon: debug --bare takes SOURCE N [--random R] [--keys INPUT]\n",
            );
            WORDS_REFUSED
        }
        Err(error) if error.kind() == clap::error::ErrorKind::OutOfMemory => {
            tell(err, &Failure::Fault(Fault::Memory))
        }
        Err(error) => {
            tell_words(alloc, err, &error);
            WORDS_REFUSED
        }
    }
}
