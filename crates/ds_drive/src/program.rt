//! The whole program, which takes its words, files and streams from its caller.
ghost use Rattle.std.specs.Prelude.{◌≡◌, ◌≢◌, ◌≤◌, ◌⊎◌, ◌∷◌, List, [], ℕ, Some, codes, map, string_bytes};
ghost use Rattle.std.specs.Io.KnownBytes.{Keeps};
ghost use Rattle.clap.specs.Words.{fault_of};
ghost use Rattle.ds_drive.specs.Done.{AsksNoSummary, IsCutShort, IsDone, IsStopped, IsTooMuch, IsUnended, WantsMemory, stream};
ghost use Rattle.ds_drive.specs.Failures.{memory_failure};
ghost use Rattle.ds_drive.specs.Listening.{IsToldText, listener};
ghost use Rattle.ds_drive.specs.Reading.{ReadsFor};
ghost use Rattle.ds_drive.specs.Told.{bare_words_line, failure_line};
ghost use Rattle.ds_words.specs.Words.{AsksForSomething, MisnamesMemory, command_named, dsmon_app};

use crate::bare::bare_file;
use crate::check::{Checking, check_files};
use crate::debug::{debug_files, tell_unread};
use crate::demo::run_demo;
use crate::explain::explain_files;
use crate::failure::Failure;
use crate::files::Files;
use crate::list::{Listing, list_file, tell_faults};
use crate::notes::tell_notes;
use crate::outcome::tell_outcome;
use crate::run::run_request;
use crate::status::{DONE, WORDS_REFUSED};
use crate::told::{tell, tell_refused};
use crate::trace::trace_request;
use ds_gdb::Ending;
use ds_station::Fault;
use ds_text::{Output, send};
use ds_words::{Untaken, Wish, wish_of};
use std::alloc::Global;
use std::io::{ErrorKind, Read, Write};

/// Does what the words ask for, the program's own name first, and answers the status: 0 done; 1 the
/// words were refused for another cause than memory, or ask for help; 2 refused input; 3 a fault of
/// the run, or it was left with more text than the words allow; 4 the run is over, and a process has
/// not ended, though the words want that all end. What was refused and what a run came to is told on
/// `err`; that a write there fails changes no status. What a debugger sends is read from `input`.
#[tactic(auto, using(crate::proofs::Heard::told_so, ds_words::proofs::WordLemmas::alone, crate::proofs::Cuts::nothing_written, crate::proofs::Cuts::demo_cut, crate::proofs::Cuts::run_cut, crate::proofs::Cuts::list_cut, crate::proofs::Cuts::check_cut, crate::proofs::BareLemmas::bare_cut, crate::proofs::BareLemmas::bare_stopped, crate::proofs::BareLemmas::bare_faulty, crate::proofs::Stops::demo_stopped, crate::proofs::Stops::run_stopped, crate::proofs::Stops::list_stopped, crate::proofs::Stops::list_faulty, crate::proofs::Stops::check_stopped, crate::proofs::Noting::check_noted, crate::proofs::Stops::wants_memory, crate::proofs::TraceLemmas::trace_cut, crate::proofs::TraceLemmas::trace_stopped, crate::proofs::Debugging::debug_unwritten, crate::proofs::ReadingStatuses::no_file_asked, crate::proofs::ReadingStatuses::list_reads, crate::proofs::ReadingStatuses::bare_reads))]
pub fn drive_with_input<F: Files, R: Read, W: Write, E: Output>(
    alloc: Global,
    words: &[String],
    files: &mut F,
    input: &mut R,
    out: &mut W,
    err: &mut E,
) -> u8
    ensures range { result ≤ 4 }
    ensures asked { (result ≡ 0) ⊎ (result ≡ 2) → AsksForSomething (map string_bytes words.now) }
    ensures taken { AsksForSomething (map string_bytes words.now) → result ≢ 1 }
    ensures alone { (program : List ℕ) → map string_bytes words.now ≡ program ∷ codes "demo" ∷ []
        → result ≢ 1 }
    ensures refused { result ≡ 1 → W.contents out.new ≡ W.contents out.old }
    ensures unasked { result ≡ 1 → files.new ≡ files.old }
    ensures kind { result ≡ 1 → fault_of dsmon_app (map string_bytes words.now) ≡ []
        → ¬ MisnamesMemory (map string_bytes words.now)
        → command_named (map string_bytes words.now) ≢ Some (codes "bare")
        → IsToldText (listener (E.contents err.old) (E.contents err.new) (E.answers err.old)
        (E.answers err.new))
        (codes "dsmon: --only takes end, calls, denials, switches or units\n") }
    ensures memory { result ≡ 1 → fault_of dsmon_app (map string_bytes words.now) ≡ []
        → MisnamesMemory (map string_bytes words.now)
        → IsToldText (listener (E.contents err.old) (E.contents err.new) (E.answers err.old)
        (E.answers err.new))
        (codes "dsmon: --memory takes P:ADDRESS:COUNT, as 1:00410000:8, at most eight times\n") }
    ensures bare { result ≡ 1 → fault_of dsmon_app (map string_bytes words.now) ≡ []
        → command_named (map string_bytes words.now) ≡ Some (codes "bare")
        → IsToldText (listener (E.contents err.old) (E.contents err.new) (E.answers err.old)
        (E.answers err.new)) bare_words_line }
    ensures done { result ≡ 0
        → IsDone (map string_bytes words.now) (F.holds files.old)
        (stream (R.remaining input.old) (R.remaining input.new))
        (stream (W.contents out.old) (W.contents out.new))
        (listener (E.contents err.old) (E.contents err.new) (E.answers err.old)
        (E.answers err.new)) }
    ensures unended { result ≡ 4
        → IsUnended (map string_bytes words.now) (F.holds files.old)
        (stream (W.contents out.old) (W.contents out.new))
        (listener (E.contents err.old) (E.contents err.new) (E.answers err.old)
        (E.answers err.new)) }
    ensures cut { result ≡ 3 → IsCutShort (map string_bytes words.now) (F.holds files.old)
        (W.contents out.old) (W.contents out.new) }
    ensures unread { result ≡ 2 → Keeps (W.contents out.old) (W.contents out.new) }
    ensures stopped { result ≡ 2 → IsStopped 2 (map string_bytes words.now) (F.holds files.old)
        (F.lacks files.old) (stream (W.contents out.old) (W.contents out.new))
        (listener (E.contents err.old) (E.contents err.new) (E.answers err.old)
        (E.answers err.new)) }
    ensures failed { result ≡ 3
        → WantsMemory (stream (W.contents out.old) (W.contents out.new))
        (listener (E.contents err.old) (E.contents err.new) (E.answers err.old)
        (E.answers err.new))
        ⊎ (IsStopped 3 (map string_bytes words.now) (F.holds files.old) (F.lacks files.old)
        (stream (W.contents out.old) (W.contents out.new))
        (listener (E.contents err.old) (E.contents err.new) (E.answers err.old)
        (E.answers err.new))
        ⊎ IsTooMuch (map string_bytes words.now) (F.holds files.old)
        (stream (W.contents out.old) (W.contents out.new))
        (listener (E.contents err.old) (E.contents err.new) (E.answers err.old)
        (E.answers err.new))) }
    ensures silent { result ≡ 0 → AsksNoSummary (map string_bytes words.now)
        → E.contents err.new ≡ E.contents err.old }
    ensures reads { ReadsFor result (map string_bytes words.now) (F.holds files.old)
        (F.asked files.old) (F.asked files.new) }
    ensures kept { (file bytes : List ℕ) → F.holds files.new file bytes
        → F.holds files.old file bytes }
    ensures lacked { (file : List ℕ) → F.lacks files.new file → F.lacks files.old file }
{
    match wish_of(alloc, words) {
        Ok(Ok(Wish::Demo)) => match run_demo(alloc, out) {
            Ok(()) => DONE,
            Err(fault) => tell(err, &Failure::Fault(fault)),
        },
        Ok(Ok(Wish::Run(request))) => match run_request(alloc, &request, files, out) {
            Ok(outcome) => tell_outcome(err, &outcome),
            Err(failure) => tell(err, &failure),
        },
        Ok(Ok(Wish::Trace(request))) => match trace_request(alloc, &request, files, out) {
            Ok(outcome) => tell_outcome(err, &outcome),
            Err(failure) => tell(err, &failure),
        },
        Ok(Ok(Wish::List(request))) => match list_file(alloc, &request, files, out) {
            Ok(Listing::Written) => DONE,
            Ok(Listing::Faults(source)) => tell_faults(alloc, err, request.file, &source),
            Err(unlisted) => tell(err, &unlisted),
        },
        Ok(Ok(Wish::Check(request))) => match check_files(alloc, &request, files, out) {
            Ok(Checking::Explained) => DONE,
            Ok(Checking::Noted(notes)) => tell_notes(err, &notes),
            Err(refused) => tell_refused(alloc, err, &refused),
        },
        Ok(Ok(Wish::Bare(request))) => match bare_file(alloc, &request, files, out) {
            Ok(Listing::Written) => DONE,
            Ok(Listing::Faults(source)) => {
                tell_faults(alloc, err, request.start.source, &source)
            }
            Err(failure) => tell(err, &failure),
        },
        Ok(Ok(Wish::Debug(request))) => match debug_files(alloc, &request, files, input, out) {
            Ok(Ending::Over) => DONE,
            Ok(Ending::Unread) => tell_unread(err),
            Err(failure) => tell(err, &failure),
        },
        Ok(Ok(Wish::Explain(request))) => match explain_files(alloc, &request, files, out) {
            Ok(()) => DONE,
            Err(failure) => tell(err, &failure),
        },
        Ok(Err(Untaken::Kind)) => {
            let _ = send(
                err,
                b"dsmon: --only takes end, calls, denials, switches or units\n",
            );
            WORDS_REFUSED
        }
        Ok(Err(Untaken::Memory)) => {
            let _ = send(
                err,
                b"dsmon: --memory takes P:ADDRESS:COUNT, as 1:00410000:8, at most eight times\n",
            );
            WORDS_REFUSED
        }
        Ok(Err(Untaken::Bare)) => {
            let _ = send(
                err,
                b"dsmon: bare: --only takes exceptions, tlb, devices or end; --to is not below --from; --memory takes ADDRESS:COUNT, as 00500000:8, at most eight times\n",
            );
            WORDS_REFUSED
        }
        Err(error) if error.kind() == clap::error::ErrorKind::OutOfMemory => {
            tell(err, &Failure::Fault(Fault::Memory))
        }
        Err(error) => {
            tell_words(alloc, err, &error);
            WORDS_REFUSED
        }
    }
}

/// Tells what is wrong with the words, or the help that they ask for, as far as there is memory for
/// the text.
pub(crate) fn tell_words<E: Output>(alloc: Global, err: &mut E, error: &clap::Error) {
    let mut text = String::new(alloc);
    let _ = write!(text, "{error}");
    let _ = send(err, text.as_bytes());
}

/// Tells why the program's words could not be had, and answers the status.
#[tactic(auto, using(crate::proofs::Heard::told_so))]
pub fn refuse_words<E: Output>(err: &mut E, kind: ErrorKind) -> u8
    ensures memory { kind ≡ ErrorKind.OutOfMemory → result ≡ 3 }
    ensures other { kind ≢ ErrorKind.OutOfMemory → result ≡ 1 }
    ensures told { kind ≡ ErrorKind.OutOfMemory
        → IsToldText (listener (E.contents err.old) (E.contents err.new) (E.answers err.old)
        (E.answers err.new))
        (failure_line memory_failure) }
    ensures told_other { kind ≢ ErrorKind.OutOfMemory
        → IsToldText (listener (E.contents err.old) (E.contents err.new) (E.answers err.old)
        (E.answers err.new))
        (codes "dsmon: the words are no text\n") }
{
    if kind == ErrorKind::OutOfMemory {
        return tell(err, &Failure::Fault(Fault::Memory));
    }
    let _ = send(err, b"dsmon: the words are no text\n");
    WORDS_REFUSED
}
