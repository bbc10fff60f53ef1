//! The program without standard input.
ghost use Rattle.std.specs.Prelude.{◌≡◌, ◌≢◌, ◌≤◌, ◌⊎◌, ◌∷◌, List, [], ℕ, Some, codes, map, string_bytes};
ghost use Rattle.std.specs.Io.KnownBytes.{Keeps};
ghost use Rattle.clap.specs.Words.{fault_of};
ghost use Rattle.ds_drive.specs.Done.{AsksNoSummary, IsCutShort, IsDone, IsStopped, IsTooMuch, IsUnended, WantsMemory, stream};
ghost use Rattle.ds_drive.specs.Inner.Done.{no_input};
ghost use Rattle.ds_drive.specs.Listening.{IsToldText, listener};
ghost use Rattle.ds_drive.specs.Reading.{ReadsFor};
ghost use Rattle.ds_drive.specs.Told.{bare_words_line};
ghost use Rattle.ds_words.specs.Words.{AsksForSomething, MisnamesMemory, command_named, dsmon_app};

use crate::files::Files;
use crate::program::drive_with_input;
use ds_text::Output;
use std::alloc::Global;
use std::io;
use std::io::Write;

/// As `drive_with_input`, where nothing is to be read: a debugger asks nothing.
pub fn drive<F: Files, W: Write, E: Output>(
    alloc: Global,
    words: &[String],
    files: &mut F,
    out: &mut W,
    err: &mut E,
) -> u8
    ensures range { result ≤ 4 }
    ensures asked { (result ≡ 0) ⊎ (result ≡ 2) → AsksForSomething (map string_bytes words.now) }
    ensures taken { AsksForSomething (map string_bytes words.now) → result ≢ 1 }
    ensures alone { (program : List ℕ) → map string_bytes words.now ≡ program ∷ codes "demo" ∷ []
        → result ≢ 1 }
    ensures refused { result ≡ 1 → W.contents out.new ≡ W.contents out.old }
    ensures unasked { result ≡ 1 → files.new ≡ files.old }
    ensures kind { result ≡ 1 → fault_of dsmon_app (map string_bytes words.now) ≡ []
        → ¬ MisnamesMemory (map string_bytes words.now)
        → command_named (map string_bytes words.now) ≢ Some (codes "bare")
        → IsToldText (listener (E.contents err.old) (E.contents err.new) (E.answers err.old)
        (E.answers err.new))
        (codes "dsmon: --only takes end, calls, denials, switches or units\n") }
    ensures memory { result ≡ 1 → fault_of dsmon_app (map string_bytes words.now) ≡ []
        → MisnamesMemory (map string_bytes words.now)
        → IsToldText (listener (E.contents err.old) (E.contents err.new) (E.answers err.old)
        (E.answers err.new))
        (codes "dsmon: --memory takes P:ADDRESS:COUNT, as 1:00410000:8, at most eight times\n") }
    ensures bare { result ≡ 1 → fault_of dsmon_app (map string_bytes words.now) ≡ []
        → command_named (map string_bytes words.now) ≡ Some (codes "bare")
        → IsToldText (listener (E.contents err.old) (E.contents err.new) (E.answers err.old)
        (E.answers err.new)) bare_words_line }
    ensures done { result ≡ 0
        → IsDone (map string_bytes words.now) (F.holds files.old) no_input
        (stream (W.contents out.old) (W.contents out.new))
        (listener (E.contents err.old) (E.contents err.new) (E.answers err.old)
        (E.answers err.new)) }
    ensures unended { result ≡ 4
        → IsUnended (map string_bytes words.now) (F.holds files.old)
        (stream (W.contents out.old) (W.contents out.new))
        (listener (E.contents err.old) (E.contents err.new) (E.answers err.old)
        (E.answers err.new)) }
    ensures cut { result ≡ 3 → IsCutShort (map string_bytes words.now) (F.holds files.old)
        (W.contents out.old) (W.contents out.new) }
    ensures unread { result ≡ 2 → Keeps (W.contents out.old) (W.contents out.new) }
    ensures stopped { result ≡ 2 → IsStopped 2 (map string_bytes words.now) (F.holds files.old)
        (F.lacks files.old) (stream (W.contents out.old) (W.contents out.new))
        (listener (E.contents err.old) (E.contents err.new) (E.answers err.old)
        (E.answers err.new)) }
    ensures failed { result ≡ 3
        → WantsMemory (stream (W.contents out.old) (W.contents out.new))
        (listener (E.contents err.old) (E.contents err.new) (E.answers err.old)
        (E.answers err.new))
        ⊎ (IsStopped 3 (map string_bytes words.now) (F.holds files.old) (F.lacks files.old)
        (stream (W.contents out.old) (W.contents out.new))
        (listener (E.contents err.old) (E.contents err.new) (E.answers err.old)
        (E.answers err.new))
        ⊎ IsTooMuch (map string_bytes words.now) (F.holds files.old)
        (stream (W.contents out.old) (W.contents out.new))
        (listener (E.contents err.old) (E.contents err.new) (E.answers err.old)
        (E.answers err.new))) }
    ensures silent { result ≡ 0 → AsksNoSummary (map string_bytes words.now)
        → E.contents err.new ≡ E.contents err.old }
    ensures reads { ReadsFor result (map string_bytes words.now) (F.holds files.old)
        (F.asked files.old) (F.asked files.new) }
    ensures kept { (file bytes : List ℕ) → F.holds files.new file bytes
        → F.holds files.old file bytes }
    ensures lacked { (file : List ℕ) → F.lacks files.new file → F.lacks files.old file }
{
    let mut nothing = io::empty();
    drive_with_input(alloc, words, files, &mut nothing, out, err)
}
