//! The command line: its commands, their words and their help.
ghost use Rattle.std.specs.Prelude.{◌≡◌, IfOk, codes, false};
ghost use Rattle.clap.specs.Words.{app_of, new_app, new_rule, rule_of, with_rule, with_subcommand};
ghost use Rattle.clap.specs.declared.builder.command.Command.TheViews.{out-Command as fields_of};
ghost use Rattle.ds_words.specs.Words.{bare_app, check_app, debug_app, dsmon_app, files_app, flag_rule, from_rule, keys_rule, list_app, machine_app, most_rule, of_end, of_files, of_lines, of_looks, of_numbers, of_run, of_sources, of_turns, only_rule, process_rule, random_rule, required_rule, run_app, texts_rule, time_rule, to_rule, trace_app};

use crate::debug::debug_command;
use crate::explain::explain_command;
use clap::builder::ValueParser;
use clap::{Arg, ArgAction, Command};
use std::alloc::{AllocError, Global};

/// What stands at the end of the program's help.
const HELP: &str = "Examples:
  dsmon list guest.s
  dsmon check policy.toml input.txt
  dsmon run policy.toml input.txt 1000
  dsmon trace policy.toml input.txt 1000
  dsmon bare handler.s 300
  dsmon debug policy.toml input.txt 100000
  dsmon explain policy.toml input.txt 1000

The status is 0 where all was done, 1 where the words are wrong or ask for help,
2 where the policy, a source, the input or R is refused, 3 where a fault ends
the run, and 4 where --must-end is given and a process has not ended. With 2 and 3
a line on standard error tells the fault's number and name, and with 4 the process;
where a note is taken for a fault, the status is 2, and the notes are told there.

docs/refusals.md has all faults by number.";

/// What stands at the end of the help of `run`.
const RUN_HELP: &str =
    "Each source that POLICY names is read by its name as it is written there, from the folder
in which the command is given. A file has at most 16777216 bytes. A file without a line is
an input in which nothing happens. A source is a file, and no folder, device or pipe. With --inside its
name may not begin with / or have a part .., and it may be no symbolic link.

With --must-end the status is 4 where a process has not ended when the run is over; standard error
tells the first such process, and why. With --memory words of a process's memory are written after the
text: P is from 1 to 100, ADDRESS has one to eight hexadecimal digits and is a multiple of four, and
COUNT is from 1 to 1024; a word that the process may not read is a `-`. With --most the run is stopped
(27, status 3) once its consoles and its log have more than BYTES, from 0 to 18446744073709551615. With
--summary standard error tells how the run ended, how each process stands, and what was denied.

Examples:
  dsmon run policy.toml input.txt 1000 --random 40
  dsmon run policy.toml input.txt 1000 --inside
  dsmon run policy.toml input.txt 1000 --must-end
  dsmon run policy.toml input.txt 1000 --memory 1:00410000:8 --memory 2:00410000:1
  dsmon run policy.toml input.txt 1000 --most 1000000
  dsmon run policy.toml input.txt 1000 --summary

docs/formats.md has what a run writes, and docs/grading.md runs of what others wrote.";

/// What stands at the end of the help of `trace`.
const TRACE_HELP: &str =
    "The files are read as a run reads them. What happened is written unit by unit, with the register that
each instruction left, each call by its name, what was logged, what boundaries did, and which process
runs from when on; then how each process stands; and then what the run writes.

A turn is a unit, or a tick in which nobody runs, with the boundary after it. --from, --to, --process
and --only leave out lines of turns. --process may stand more than once: each process that is named is
told of, and where none is named, all are. With --processor and --to it is told, too, what the buffer
holds at that time. With --entries the permission table is told before the first turn, and then each
entry that changes or goes, whatever KIND is but `end`. --must-end, --memory and --summary are those of `run`.

With --source the line of an instruction begins with the line of the source where it stands and the
last label there, a load has the word from which it loads, and a number that is no call is told as that.
With --names registers are called by their common names.
KIND is one of these:
  units     the units alone
  calls     the units that are calls
  denials   what was denied
  switches  which process runs, and which stands otherwise than before
  end       nothing of the turns

Examples:
  dsmon trace policy.toml input.txt 1000
    0 1 00400000 addiu $4,$0,65  $4=00000041
    1 1 00400004 addiu $2,$0,1  $2=00000001
    2 1 00400008 syscall  put 41  $2=00000000
    ..
    5 1 ended
    5 nobody runs
    process 1 ended 00400014  $4=00000041
    console 0 1
    ..
  dsmon trace policy.toml input.txt 1000000 --from 900000 --process 2
  dsmon trace policy.toml input.txt 1000 --process 2 --process 3
  dsmon trace policy.toml input.txt 1000 --only calls
  dsmon trace policy.toml input.txt 1000 --source --names
    guest.s:3 main  0 1 00400000 addiu $a0,$zero,65  $a0=00000041
    guest.s:4 main+4  1 1 00400004 addiu $v0,$zero,1  $v0=00000001
    ..
  dsmon trace policy.toml input.txt 1000 --only switches --entries
    0 entry 1 00400000 read page 1 rule 1
    0 entry 1 00410000 write page 2 rule 2 give
    ..
    9 entry 2 00410000 read page 2 rule 2 give giver 1 parent 1 00410000
    30 entry 2 00410000 gone
    ..
  dsmon trace policy.toml input.txt 1000 --only end --must-end
  dsmon trace policy.toml input.txt 1000 --only end --memory 1:00410000:8
  dsmon trace policy.toml input.txt 1000 --only end --summary

docs/trace.md has each line of a trace.";

/// What stands at the end of the help of `check`.
const CHECK_HELP: &str =
    "POLICY, its sources and INPUT are read as a run reads them. Where all is good, the permission table
at the start is written, process by process; then what is near a limit; then what comes when; then
where each process starts, and what ties it to the others, so that it may tell who else is there; then
the notes: what is worth a look in the policy, in its sources and in INPUT, though nothing is refused
for it. Where something is refused, standard error tells the refusal as a run does, where it is as far
as that is known, the reason with what to write, and the other faults of the source with their
reasons. The status is 2 then. With --notes-as-faults it is 2 where there is a note, too: nothing is
written then, and standard error has the notes. With --inside a source is as `run --inside` takes it.

Examples:
  dsmon check policy.toml input.txt
    table
    process 1
      00400000 read  code, part 0 of guest.s, rule 1
    limits
    processes 1 of 100
    ..
    events
    5 command 1, rule 1001: stop 1
    starts
    process 1: start 00400000, line 1 of guest.s, entries 1
    ties
    process 1: it may tell who else is there, since command 1 is about it
    notes
    guest.s 2: it reads register 8, which is still being loaded; put a `nop` between, or ..
  dsmon check policy.toml
    dsmon: 3 Syntax guest.s 2
        addiu $v0, 1
    The statement wants 3 operands, and has 2.
    Each operand is written, with commas between them: `addiu $v0, $zero, 1`.

docs/before_a_run.md has what is told, and docs/policy.md what a policy and an input say.";

/// What stands at the end of the help of `list`.
const LIST_HELP: &str =
    "A source is listed line by line: its number, the address and the bytes that it has there, and the
line; after the lines each label with its value. Where lines are at fault, a line on standard error
tells the number, the name, the place and the reason of each fault, and the status is 2. With --words
FILE holds words, four bytes to each with the lowest first; each is written as the assembler takes
it, and a byte that is left at the end as .byte. With --names, too, registers are called by their
common names.

Examples:
  dsmon list guest.s
        1  00400000  24020000    end:  addiu $2,$0,0
        2  00400004  0000000C          syscall
    labels
    00400000  end
  dsmon list --words guest.bin
    addiu $2,$0,0
    syscall
  dsmon list --words --names guest.bin
    addiu $v0,$zero,0
    syscall

docs/assembler.md has the assembler's language.";

/// What stands at the end of the help of `bare`.
const BARE_HELP: &str =
    "The source starts at 80400000, in kernel mode, with no monitor: a miss goes to 80000000, all else to
80000080, and the handlers there are the source's own. Each instruction is a line, with what it
changed; at the end come the registers, the entries of the buffer and what the lines sent. It ends
after N instructions, with `break 1`, or at one of the two where the next 32 words are 0. The status
is 0 then.
Of INPUT the key lines count, their times in instructions.

--from, --to and --only leave out lines of instructions, by the numbers at their beginning and by what
they did. --matches adds lines, and --counts and --memory add to the end. KIND is one of these:
  exceptions  those that enter an exception, an interrupt among them
  tlb         tlbp, tlbr, tlbwi and tlbwr, and those that the buffer stops
  devices     those that reach a device, interrupts, and where what the devices ask for changes
  end         no instruction, as with --quiet

With --names registers are called by their common names.

Examples:
  dsmon bare handler.s 300
  dsmon bare handler.s 1000000 --quiet --random 40 --keys input.txt
  dsmon bare handler.s 300 --from 80 --to 100 --memory 00500000:8 --memory 00601000:2
  dsmon bare handler.s 300 --only tlb --matches --counts
  dsmon bare handler.s 300 --names

docs/bare.md has the bare machine.";

/// What stands at the end of the help of `demo`.
const DEMO_HELP: &str = "Its policy and its source are held in the program; it writes 66 bytes.

Example:
  dsmon demo

README.md has how to build and run the program.";

/// The help of `--inside`.
const INSIDE_HELP: &str =
    "No source may have a name that begins with / or has a part .., or be a symbolic link";

/// The help of `--names`.
const NAMES_HELP: &str =
    "Registers are called by their common names, as $t0, and not by their numbers";

/// The help of N, where it is a number of ticks.
const TIME_HELP: &str =
    "How many ticks the run goes on, from 0 to 1000000000; a branch at the end takes one more";

pub(crate) fn file_argument<'a>(alloc: Global, id: &'a str, help: &'a str) -> Arg<'a>
    ensures rule { rule_of result ≡ required_rule id.entry.now }
    ensures local { result.global ≡ false }
{
    Arg::new(alloc, id).required(true).help(help)
}

pub(crate) fn time_argument<'a>(alloc: Global, help: &'a str) -> Arg<'a>
    ensures rule { rule_of result ≡ time_rule }
    ensures local { result.global ≡ false }
{
    Arg::new(alloc, "N")
        .required(true)
        .value_parser(ValueParser::unsigned(0, 1_000_000_000))
        .help(help)
}

pub(crate) fn random_argument<'a>(alloc: Global) -> Arg<'a>
    ensures rule { rule_of result ≡ random_rule }
    ensures local { result.global ≡ false }
{
    Arg::new(alloc, "R")
        .long("random")
        .value_parser(ValueParser::unsigned(0, 255))
        .default_value("63")
        .help("Where the register Random starts, from 0 to 255; a run takes 8 to 63")
}

/// A flag that stands among the words or does not.
fn flag_argument<'a>(alloc: Global, id: &'a str, help: &'a str) -> Arg<'a>
    ensures rule { rule_of result ≡ flag_rule id.entry.now }
    ensures local { result.global ≡ false }
{
    Arg::new(alloc, id)
        .long(id)
        .action(ArgAction::SetTrue)
        .help(help)
}

/// A command with what it does, and what stands at the end of its help.
pub(crate) fn described<'a>(
    alloc: Global,
    name: &'a str,
    about: &'a str,
    help: &'a str,
) -> Command<'a>
    ensures app { app_of result ≡ new_app name.entry.now }
    ensures local { (fields_of result).has_globals ≡ false }
{
    Command::new(alloc, name).about(about).after_help(help)
}

fn with_files<'a>(alloc: Global, described: Command<'a>) -> Result<Command<'a>, AllocError>
    requires { (fields_of described).has_globals ≡ false }
    ensures app { IfOk result (λ c. app_of c ≡ of_files (app_of described.entry)) }
    ensures local { IfOk result (λ c. (fields_of c).has_globals ≡ false) }
{
    described
        .arg(file_argument(alloc, "POLICY", "The file of the policy, in TOML"))?
        .arg(file_argument(
            alloc,
            "INPUT",
            "The file of the input: commands and characters, each with its time",
        ))
}

pub(crate) fn with_numbers<'a>(
    alloc: Global,
    described: Command<'a>,
) -> Result<Command<'a>, AllocError>
    requires { (fields_of described).has_globals ≡ false }
    ensures app { IfOk result (λ c. app_of c ≡ of_run (app_of described.entry)) }
    ensures local { IfOk result (λ c. (fields_of c).has_globals ≡ false) }
{
    with_files(alloc, described)?
        .arg(time_argument(alloc, TIME_HELP))?
        .arg(random_argument(alloc))?
        .arg(flag_argument(alloc, "inside", INSIDE_HELP))
}

fn memory_argument<'a>(alloc: Global, id: &'a str, help: &'a str) -> Arg<'a>
    ensures rule { rule_of result ≡ texts_rule id.entry.now }
    ensures local { result.global ≡ false }
{
    Arg::new(alloc, id)
        .long("memory")
        .action(ArgAction::Append)
        .help(help)
}

fn with_end<'a>(alloc: Global, described: Command<'a>) -> Result<Command<'a>, AllocError>
    requires { (fields_of described).has_globals ≡ false }
    ensures app { IfOk result (λ c. app_of c ≡ of_end (app_of described.entry)) }
    ensures local { IfOk result (λ c. (fields_of c).has_globals ≡ false) }
{
    described
        .arg(flag_argument(
            alloc,
            "must-end",
            "The status is 4 where a process has not ended when the run is over",
        ))?
        .arg(memory_argument(
            alloc,
            "P:ADDRESS:COUNT",
            "Words of a process's memory are written at the end, at most eight times",
        ))?
        .arg(flag_argument(
            alloc,
            "summary",
            "Standard error tells what the run came to",
        ))
}

fn most_argument<'a>(alloc: Global) -> Arg<'a>
    ensures rule { rule_of result ≡ most_rule }
    ensures local { result.global ≡ false }
{
    Arg::new(alloc, "BYTES")
        .long("most")
        .value_parser(ValueParser::unsigned(0, u64::MAX))
        .help("The run is stopped once its consoles and its log have more bytes together")
}

fn run_command<'a>(alloc: Global) -> Result<Command<'a>, AllocError>
    ensures app { IfOk result (λ c. app_of c ≡ run_app) }
    ensures local { IfOk result (λ c. (fields_of c).has_globals ≡ false) }
{
    let numbered = with_numbers(
        alloc,
        described(
            alloc,
            "run",
            "Runs processes under a policy and writes their consoles and the log",
            RUN_HELP,
        ),
    )?;
    with_end(alloc, numbered)?.arg(most_argument(alloc))
}

fn from_argument<'a>(alloc: Global, name: &'a str, help: &'a str) -> Arg<'a>
    ensures rule { rule_of result ≡ from_rule }
    ensures local { result.global ≡ false }
{
    Arg::new(alloc, "FROM")
        .long("from")
        .value_name(name)
        .value_parser(ValueParser::unsigned(0, 1_000_000_000))
        .default_value("0")
        .help(help)
}

fn to_argument<'a>(alloc: Global, name: &'a str, help: &'a str) -> Arg<'a>
    ensures rule { rule_of result ≡ to_rule }
    ensures local { result.global ≡ false }
{
    Arg::new(alloc, "TO")
        .long("to")
        .value_name(name)
        .value_parser(ValueParser::unsigned(0, 1_000_000_000))
        .help(help)
}

fn process_argument<'a>(alloc: Global) -> Arg<'a>
    ensures rule { rule_of result ≡ process_rule }
    ensures local { result.global ≡ false }
{
    Arg::new(alloc, "P")
        .long("process")
        .action(ArgAction::Append)
        .value_parser(ValueParser::unsigned(1, 100))
        .help("A process that is told of, from 1 to 100, as often as is wanted; without it all are")
}

fn only_argument<'a>(alloc: Global, help: &'a str) -> Arg<'a>
    ensures rule { rule_of result ≡ only_rule }
    ensures local { result.global ≡ false }
{
    Arg::new(alloc, "KIND").long("only").help(help)
}

fn with_lines<'a>(alloc: Global, described: Command<'a>) -> Result<Command<'a>, AllocError>
    requires { (fields_of described).has_globals ≡ false }
    ensures app { IfOk result (λ c. app_of c ≡ of_lines (app_of described.entry)) }
    ensures local { IfOk result (λ c. (fields_of c).has_globals ≡ false) }
{
    described
        .arg(only_argument(
            alloc,
            "One kind of line is told alone: units, calls, denials, switches or end",
        ))?
        .arg(flag_argument(
            alloc,
            "processor",
            "At the end it is told what the processor did, which depends on R",
        ))?
        .arg(flag_argument(
            alloc,
            "entries",
            "It is told who may touch what: each entry of the permission table, and how each changes",
        ))
}

fn with_sources<'a>(alloc: Global, described: Command<'a>) -> Result<Command<'a>, AllocError>
    requires { (fields_of described).has_globals ≡ false }
    ensures app { IfOk result (λ c. app_of c ≡ of_sources (app_of described.entry)) }
    ensures local { IfOk result (λ c. (fields_of c).has_globals ≡ false) }
{
    described
        .arg(flag_argument(
            alloc,
            "source",
            "Before an instruction stands its line of its source, with the last label",
        ))?
        .arg(flag_argument(alloc, "names", NAMES_HELP))
}

fn with_turns<'a>(alloc: Global, described: Command<'a>) -> Result<Command<'a>, AllocError>
    requires { (fields_of described).has_globals ≡ false }
    ensures app { IfOk result (λ c. app_of c ≡ of_turns (app_of described.entry)) }
    ensures local { IfOk result (λ c. (fields_of c).has_globals ≡ false) }
{
    described
        .arg(from_argument(
            alloc,
            "T",
            "Turns are told that began at this time or later, from 0 to 1000000000",
        ))?
        .arg(to_argument(
            alloc,
            "T",
            "Turns are told that began before this time, from 0 to 1000000000",
        ))?
        .arg(process_argument(alloc))
}

fn trace_command<'a>(alloc: Global) -> Result<Command<'a>, AllocError>
    ensures app { IfOk result (λ c. app_of c ≡ trace_app) }
    ensures local { IfOk result (λ c. (fields_of c).has_globals ≡ false) }
{
    let numbered = with_numbers(
        alloc,
        described(
            alloc,
            "trace",
            "Tells what happens in a run, unit by unit, and then what the run writes",
            TRACE_HELP,
        ),
    )?;
    let ended = with_end(alloc, numbered)?;
    let lined = with_lines(alloc, with_turns(alloc, ended)?)?;
    with_sources(alloc, lined)
}

fn input_argument<'a>(alloc: Global) -> Arg<'a>
    ensures rule { rule_of result ≡ new_rule (codes "INPUT") }
    ensures local { result.global ≡ false }
{
    Arg::new(alloc, "INPUT").help("The file of the input; without it nothing comes")
}

fn check_described<'a>(alloc: Global) -> Result<Command<'a>, AllocError>
    ensures app { IfOk result (λ c. app_of c ≡ with_rule (with_rule (new_app (codes "check"))
        (required_rule (codes "POLICY"))) (new_rule (codes "INPUT"))) }
    ensures local { IfOk result (λ c. (fields_of c).has_globals ≡ false) }
{
    described(
        alloc,
        "check",
        "Explains a policy and an input, or why they are refused",
        CHECK_HELP,
    )
    .arg(file_argument(alloc, "POLICY", "The file of the policy, in TOML"))?
    .arg(input_argument(alloc))
}

fn check_command<'a>(alloc: Global) -> Result<Command<'a>, AllocError>
    ensures app { IfOk result (λ c. app_of c ≡ check_app) }
    ensures local { IfOk result (λ c. (fields_of c).has_globals ≡ false) }
{
    check_described(alloc)?
        .arg(flag_argument(
            alloc,
            "notes-as-faults",
            "A note is a fault: the notes alone are told, on standard error",
        ))?
        .arg(flag_argument(alloc, "inside", INSIDE_HELP))
}

fn list_command<'a>(alloc: Global) -> Result<Command<'a>, AllocError>
    ensures app { IfOk result (λ c. app_of c ≡ list_app) }
    ensures local { IfOk result (λ c. (fields_of c).has_globals ≡ false) }
{
    described(
        alloc,
        "list",
        "Lists a source with its bytes, or the words of a file as a source",
        LIST_HELP,
    )
    .arg(file_argument(alloc, "FILE", "The file of the source, or of the words"))?
    .arg(flag_argument(
        alloc,
        "words",
        "FILE holds words: each is written as the assembler takes it",
    ))?
    .arg(flag_argument(alloc, "names", NAMES_HELP))
}

pub(crate) fn keys_argument<'a>(alloc: Global) -> Arg<'a>
    ensures rule { rule_of result ≡ keys_rule }
    ensures local { result.global ≡ false }
{
    Arg::new(alloc, "INPUT")
        .long("keys")
        .help("The file of an input, whose characters come in")
}

fn machine_described<'a>(alloc: Global) -> Result<Command<'a>, AllocError>
    ensures app { IfOk result (λ c. app_of c ≡ with_rule (with_rule (new_app (codes "bare"))
        (required_rule (codes "SOURCE"))) time_rule) }
    ensures local { IfOk result (λ c. (fields_of c).has_globals ≡ false) }
{
    described(
        alloc,
        "bare",
        "Runs a source on the bare machine, in kernel mode, and tells of each instruction",
        BARE_HELP,
    )
    .arg(file_argument(alloc, "SOURCE", "The file of the source"))?
    .arg(time_argument(alloc, "The most instructions, from 0 to 1000000000"))
}

fn with_numbered<'a>(alloc: Global, described: Command<'a>) -> Result<Command<'a>, AllocError>
    requires { (fields_of described).has_globals ≡ false }
    ensures app { IfOk result (λ c. app_of c ≡ of_numbers (app_of described.entry)) }
    ensures local { IfOk result (λ c. (fields_of c).has_globals ≡ false) }
{
    described
        .arg(from_argument(
            alloc,
            "K",
            "Instructions are told from this one on; the first is 1",
        ))?
        .arg(to_argument(
            alloc,
            "K",
            "Instructions are told before this one; it may not be below that after --from",
        ))?
        .arg(only_argument(
            alloc,
            "One kind of instruction is told alone: exceptions, tlb, devices or end, which tells none",
        ))
}

fn with_looks<'a>(alloc: Global, described: Command<'a>) -> Result<Command<'a>, AllocError>
    requires { (fields_of described).has_globals ≡ false }
    ensures app { IfOk result (λ c. app_of c ≡ of_looks (app_of described.entry)) }
    ensures local { IfOk result (λ c. (fields_of c).has_globals ≡ false) }
{
    described
        .arg(flag_argument(
            alloc,
            "matches",
            "A line tells where two slots of the buffer begin to match each other",
        ))?
        .arg(flag_argument(
            alloc,
            "counts",
            "The end tells how much of each there was: refills, exceptions, interrupts ..",
        ))?
        .arg(memory_argument(
            alloc,
            "ADDRESS:COUNT",
            "Words of memory are written at the end, by their physical address, at most eight times",
        ))
}

fn machine_command<'a>(alloc: Global) -> Result<Command<'a>, AllocError>
    ensures app { IfOk result (λ c. app_of c ≡ machine_app) }
    ensures local { IfOk result (λ c. (fields_of c).has_globals ≡ false) }
{
    let quieted = machine_described(alloc)?
        .arg(random_argument(alloc))?
        .arg(flag_argument(
            alloc,
            "quiet",
            "The instructions are not told, but the end alone",
        ))?
        .arg(keys_argument(alloc))?;
    let numbered = with_numbered(alloc, quieted)?;
    with_looks(alloc, numbered)?.arg(flag_argument(alloc, "names", NAMES_HELP))
}

fn bare_command<'a>(alloc: Global) -> Command<'a>
    ensures { app_of result ≡ bare_app }
{
    Command::new(alloc, "dsmon")
        .version("1.0.0")
        .about("Runs a simulated MIPS workstation under a page policy")
        .after_help(HELP)
        .subcommand_required(true)
}

fn with_run<'a>(alloc: Global) -> Result<Command<'a>, AllocError>
    ensures { IfOk result (λ c. app_of c ≡ with_subcommand bare_app run_app.top) }
{
    let run = run_command(alloc)?;
    bare_command(alloc).subcommand(run)
}

fn with_trace<'a>(alloc: Global) -> Result<Command<'a>, AllocError>
    ensures { IfOk result (λ c. app_of c ≡ with_subcommand
        (with_subcommand bare_app run_app.top) trace_app.top) }
{
    let trace = trace_command(alloc)?;
    with_run(alloc)?.subcommand(trace)
}

fn files_command<'a>(alloc: Global) -> Result<Command<'a>, AllocError>
    ensures { IfOk result (λ c. app_of c ≡ files_app) }
{
    let list = list_command(alloc)?;
    with_trace(alloc)?.subcommand(list)
}

fn with_check<'a>(alloc: Global) -> Result<Command<'a>, AllocError>
    ensures { IfOk result (λ c. app_of c ≡ with_subcommand files_app check_app.top) }
{
    let check = check_command(alloc)?;
    files_command(alloc)?.subcommand(check)
}

fn with_machine<'a>(alloc: Global) -> Result<Command<'a>, AllocError>
    ensures { IfOk result (λ c. app_of c ≡ with_subcommand
        (with_subcommand files_app check_app.top) machine_app.top) }
{
    let machine = machine_command(alloc)?;
    with_check(alloc)?.subcommand(machine)
}

fn with_demo<'a>(alloc: Global) -> Result<Command<'a>, AllocError>
    ensures { IfOk result (λ c. app_of c ≡ with_subcommand (with_subcommand
        (with_subcommand files_app check_app.top) machine_app.top)
        (new_app (codes "demo")).top) }
{
    with_machine(alloc)?.subcommand(described(
        alloc,
        "demo",
        "Runs a process that writes one letter",
        DEMO_HELP,
    ))
}

fn with_debug<'a>(alloc: Global) -> Result<Command<'a>, AllocError>
    ensures { IfOk result (λ c. app_of c ≡ with_subcommand (with_subcommand (with_subcommand
        (with_subcommand files_app check_app.top) machine_app.top)
        (new_app (codes "demo")).top) debug_app.top) }
{
    let debug = debug_command(alloc)?;
    with_demo(alloc)?.subcommand(debug)
}

/// The whole command line.
pub fn command<'a>(alloc: Global) -> Result<Command<'a>, AllocError>
    ensures { IfOk result (λ c. app_of c ≡ dsmon_app) }
{
    let explain = explain_command(alloc)?;
    with_debug(alloc)?.subcommand(explain)
}
