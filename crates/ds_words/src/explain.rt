//! The words of a log that is explained, and their help.
ghost use Rattle.std.specs.Prelude.{◌≡◌, IfOk, codes, false};
ghost use Rattle.clap.specs.Words.{app_of, rule_of};
ghost use Rattle.clap.specs.declared.builder.command.Command.TheViews.{out-Command as fields_of};
ghost use Rattle.ds_words.specs.Words.{explain_app, line_rule};

use crate::commands::{described, with_numbers};
use clap::builder::ValueParser;
use clap::{Arg, Command};
use std::alloc::{AllocError, Global};

/// What stands at the end of the help of `explain`.
const EXPLAIN_HELP: &str =
    "The files are read as a run reads them, and the run is done. Each line of its log is written as it
stands. Below a denial it is told what the process did and where, by which rule, command or process it
was decided, and how that is mended; below a refused command, what the refusal means, and how it is
mended. The first 1000 lines are told; with --line one line alone, whatever its number. Where the log
has fewer lines, it is told how many.

Example:
  dsmon explain policy.toml input.txt 1000 --line 1
    1 1 00400004 store 00410000 r2 1
        process 1 at one.s:2 loop: sw $0,0($8), with $8 00410000
        by rule 2 (line 18 of the policy), page data: it grants reading alone
        to mend: write the right `write` there, or store to another page

docs/explain.md has each line that is told.";

fn line_argument<'a>(alloc: Global) -> Arg<'a>
    ensures rule { rule_of result ≡ line_rule }
    ensures local { result.global ≡ false }
{
    Arg::new(alloc, "K")
        .long("line")
        .value_parser(ValueParser::unsigned(1, u64::MAX))
        .help("One line of the log is told alone; the first is 1")
}

/// The command `explain`.
pub(crate) fn explain_command<'a>(alloc: Global) -> Result<Command<'a>, AllocError>
    ensures app { IfOk result (λ c. app_of c ≡ explain_app) }
    ensures local { IfOk result (λ c. (fields_of c).has_globals ≡ false) }
{
    with_numbers(
        alloc,
        described(
            alloc,
            "explain",
            "Runs processes under a policy and explains each line of the log",
            EXPLAIN_HELP,
        ),
    )?
    .arg(line_argument(alloc))
}
