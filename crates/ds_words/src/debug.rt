//! The words of a session with a debugger, and their help.
ghost use Rattle.std.specs.Prelude.{◌≡◌, IfOk, codes, false};
ghost use Rattle.clap.specs.Words.{app_of};
ghost use Rattle.clap.specs.declared.builder.command.Command.TheViews.{out-Command as fields_of};
ghost use Rattle.ds_words.specs.Words.{debug_app};

use crate::commands::{described, with_numbers};
use clap::Command;
use std::alloc::{AllocError, Global};

/// What stands at the end of the help of `debug`.
const DEBUG_HELP: &str =
    "The files are read as a run reads them. Then gdb's remote serial protocol is spoken over standard
input and standard output, so gdb starts the program itself. The processes of the policy are gdb's
processes. There are breakpoints, steps forward and backward, registers and memory as they are granted,
and `monitor log`, `table`, `time`, `processes`, `console L` and `stop T`; a denial stops its process
by a signal. Nothing of the run can be changed. The session ends where gdb ends it or the input ends,
and the status is 0 then. After `debug --bare` stand SOURCE and N, of a run on the bare machine.

Examples:
  gdb-multiarch -x tools/debug.gdb -ex 'target remote | dsmon debug policy.toml input.txt 100000'
  dsmon debug policy.toml input.txt 100000 < packets.txt
  dsmon debug --bare handler.s 300 < packets.txt

docs/debug.md has a session step by step.";

/// The command `debug`.
pub(crate) fn debug_command<'a>(alloc: Global) -> Result<Command<'a>, AllocError>
    ensures app { IfOk result (λ c. app_of c ≡ debug_app) }
    ensures local { IfOk result (λ c. (fields_of c).has_globals ≡ false) }
{
    with_numbers(
        alloc,
        described(
            alloc,
            "debug",
            "Answers gdb about a run: breakpoints, steps, and back in time",
            DEBUG_HELP,
        ),
    )
}
