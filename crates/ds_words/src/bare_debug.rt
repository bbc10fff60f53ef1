//! The words of a session with a debugger over the bare machine, and their help.
ghost use Rattle.std.specs.Prelude.{◌≡◌, IfOk, IfSome, None, codes, false, map, string_bytes, true};
ghost use Rattle.clap.specs.Words.{FailsBy, app_of, fault_of, found_of, matches_of, new_app, rows_of, with_rule};
ghost use Rattle.clap.specs.declared.builder.command.Command.TheViews.{out-Command as fields_of};
ghost use Rattle.ds_words.specs.BareDebug.{AsksForBareDebug, bare_debug_app, from_third, is_bare_debug};
ghost use Rattle.ds_words.specs.Words.{required_rule, time_rule};

use crate::commands::{described, file_argument, keys_argument, random_argument, time_argument};
use crate::words::{BareStart, bare_start_of};
use clap::{ArgMatches, Command, Error};
use std::alloc::{AllocError, Global};

/// What stands at the end of the help.
const BARE_DEBUG_HELP: &str =
    "The source is run as by `dsmon bare`: in kernel mode, with handlers of its own. Then gdb's remote
serial protocol is spoken over standard input and standard output, so gdb starts the program itself.
There are breakpoints and watches, steps forward and backward, also in handlers and in slots, all
registers, memory as the processor sees it, and `monitor tlb`, `time`, `console L` and `stop T`. Nothing
of the run can be changed. The session ends where gdb ends it or the input ends, and the status is 0 then.

Examples:
  gdb-multiarch -x tools/debug.gdb -ex 'target remote | dsmon debug --bare handler.s 300'
  dsmon debug --bare handler.s 300 < packets.txt

docs/debug.md has a session step by step.";

/// Whether the words, the program's own name first, are those of a session over the bare machine.
pub fn is_bare_debug(words: &[String]) -> bool
    ensures { result ≡ is_bare_debug (map string_bytes words.now) }
{
    match words {
        [_, debug, bare, ..] => debug.as_str() == "debug" && bare.as_str() == "--bare",
        _ => false,
    }
}

fn described_bare_debug<'a>(alloc: Global) -> Result<Command<'a>, AllocError>
    ensures app { IfOk result (λ c. app_of c ≡ with_rule (with_rule (new_app (codes "dsmon debug --bare"))
        (required_rule (codes "SOURCE"))) time_rule) }
    ensures local { IfOk result (λ c. (fields_of c).has_globals ≡ false) }
{
    described(
        alloc,
        "dsmon debug --bare",
        "Answers gdb about a run on the bare machine: breakpoints, steps, and back in time",
        BARE_DEBUG_HELP,
    )
    .arg(file_argument(alloc, "SOURCE", "The file of the source"))?
    .arg(time_argument(alloc, "The most instructions, from 0 to 1000000000"))
}

/// The command line from `--bare` on.
fn bare_debug_command<'a>(alloc: Global) -> Result<Command<'a>, AllocError>
    ensures app { IfOk result (λ c. app_of c ≡ bare_debug_app) }
    ensures local { IfOk result (λ c. (fields_of c).has_globals ≡ false) }
{
    described_bare_debug(alloc)?
        .arg(random_argument(alloc))?
        .arg(keys_argument(alloc))
}

/// What clap reads in the words from `--bare` on.
fn read_bare_debug<'a>(alloc: Global, words: &'a [String]) -> Result<ArgMatches<'a>, Error>
    ensures refused { FailsBy (fault_of bare_debug_app (map string_bytes words.entry.now)) result }
    ensures named { IfOk result (λ matches. rows_of (found_of matches)
        ≡ matches_of bare_debug_app (map string_bytes words.entry.now)) }
{
    bare_debug_command(alloc)?.try_get_matches_from(words)
}

/// The words from the third on.
fn from_third<'a>(words: &'a [String]) -> &'a [String]
    ensures { map string_bytes result.now ≡ from_third (map string_bytes words.entry.now) }
{
    match words {
        [_, _, rest @ ..] => rest,
        _ => &[],
    }
}

/// What words ask for that are those of a session over the bare machine. An error is clap's: a mistake
/// in the words, a call for help, or memory that ran out.
pub fn bare_debug_of<'a>(alloc: Global, words: &'a [String]) -> Result<Option<BareStart<'a>>, Error>
    requires { is_bare_debug (map string_bytes words.now) ≡ true }
    ensures refused { FailsBy
        (fault_of bare_debug_app (from_third (map string_bytes words.entry.now))) result }
    ensures some { IfOk result (λ wish. IfSome wish
        (λ start. AsksForBareDebug (map string_bytes words.entry.now) start)) }
    ensures none { IfOk result (λ wish. wish ≡ None → (start : BareStart)
        → ¬ AsksForBareDebug (map string_bytes words.entry.now) start) }
{
    let matches = read_bare_debug(alloc, from_third(words))?;
    Ok(bare_start_of(&matches))
}
