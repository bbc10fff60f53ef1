//! What the program's words ask for.
ghost use Rattle.std.specs.Prelude.{ℕ, Option, ◌≡◌, ◌↔◌, ◌<◌, Err, IfErr, IfOk, IfSome, IsSomeAnd, IsTrue, List, None, Ok, Some, codes, map, option_map, string_bytes};
ghost use Rattle.std.specs.List.{All};
ghost use Rattle.clap.specs.Words.{FailsBy, all_of, fault_of, first_of, found_of, many_of, one_of, rows_of, subcommand_of, subcommand_rows_of, values_left};
ghost use Rattle.ds_words.specs.Spans.{IsSpan, spans_in};
ghost use Rattle.ds_words.specs.Windows.{IsWindow, windows_in};
ghost use Rattle.ds_words.specs.declared.windows.Window.{Window};
ghost use Rattle.ds_words.specs.Words.{AsksForBare, AsksForCheck, AsksForDebug, AsksForExplain, AsksForList, AsksForRun, AsksForSomething, AsksForTrace, IsGiven, MisnamesMemory, NamesAskedRun, NamesBare, NamesBareStart, NamesCheck, NamesExplain, NamesExtras, NamesList, NamesMemory, NamesProcesses, NamesRun, NamesTrace, NamesView, WriteProcesses, command_named, dsmon_app, kind_word, NamesBareFlags, NamesBareView, NamesSpans, bare_kind_word, CallsRegisters};

use crate::bare_view::{BareOnly, BareView};
use crate::commands::command;
use crate::processes::Processes;
use crate::spans::{Span, Spans, spans_of};
use crate::view::{Only, View};
use crate::windows::{Windows, windows_of};
use clap::parser::ValuesRef;
use clap::{ArgMatches, Error};
use ds_listing::RegisterNames;
use std::alloc::Global;
use std::rt::Env;
use std::{env, io};

/// A run of files that the words ask for, ask for the trace of, or want to debug or to have explained.
#[derive(Clone, Copy, Debug, PartialEq, Eq)]
pub struct Request<'a> {
    /// The name of the policy's file.
    pub policy: &'a str,
    /// The name of the input's file.
    pub input: &'a str,
    /// How many ticks the run goes on, from 0 to 1,000,000,000; a branch at the end takes one more.
    pub most_time: u64,
    /// Where the register Random starts.
    pub random: u8,
    /// Whether the policy may name no source outside the folder of the command.
    pub inside: bool,
}

/// What the words want of a run beside its text.
#[derive(Clone, Copy, Debug, PartialEq, Eq)]
pub struct Extras {
    /// Whether the status tells a process that has not ended when the run is over.
    pub must_end: bool,
    /// Whether an account of the run is wanted.
    pub summary: bool,
    /// The words of memory that are wanted.
    pub memory: Windows,
}

/// A run of files that the words ask for, and what is wanted of it.
#[derive(Clone, Copy, Debug, PartialEq, Eq)]
pub struct RunRequest<'a> {
    /// The run.
    pub run: Request<'a>,
    /// What is wanted beside its text.
    pub extras: Extras,
    /// How many bytes the consoles and the log may have together, where there is such a bound.
    pub most: Option<u64>,
}

/// A trace of a run of files that the words ask for, and what is wanted of it.
#[derive(Clone, Copy)]
pub struct TraceRequest<'a> {
    /// The run.
    pub run: Request<'a>,
    /// What is wanted beside its text.
    pub extras: Extras,
    /// Which lines of its trace are told, and how.
    pub view: View<'a>,
}

/// A run of files whose log the words want explained.
#[derive(Clone, Copy, Debug, PartialEq, Eq)]
pub struct ExplainRequest<'a> {
    /// The run.
    pub run: Request<'a>,
    /// The number of the line of its log that is wanted alone, from 1, where one is.
    pub line: Option<u64>,
}

/// A file that the words want listed.
#[derive(Clone, Copy, Debug, PartialEq, Eq)]
pub struct ListRequest<'a> {
    /// Its name.
    pub file: &'a str,
    /// Whether it holds words, and not a source.
    pub words: bool,
    /// How registers of words are called.
    pub names: RegisterNames,
}

/// A policy, and an input where one is named, that the words want explained.
#[derive(Clone, Copy, Debug, PartialEq, Eq)]
pub struct CheckRequest<'a> {
    /// The name of the policy's file.
    pub policy: &'a str,
    /// The name of the input's file.
    pub input: Option<&'a str>,
    /// Whether a note is taken for a fault.
    pub notes_as_faults: bool,
    /// Whether the policy may name no source outside the folder of the command.
    pub inside: bool,
}

/// What a run on the bare machine starts with, as the words name it.
#[derive(Clone, Copy, Debug, PartialEq, Eq)]
pub struct BareStart<'a> {
    /// The name of the source's file.
    pub source: &'a str,
    /// The most instructions, from 0 to 1,000,000,000.
    pub most: u32,
    /// Where the register Random starts.
    pub random: u8,
    /// The name of the file of an input, whose characters come in.
    pub keys: Option<&'a str>,
}

/// A source that the words want run on the bare machine.
#[derive(Clone, Copy, Debug, PartialEq, Eq)]
pub struct BareRequest<'a> {
    pub start: BareStart<'a>,
    /// What is told.
    pub view: BareView,
}

/// What the words ask for.
#[derive(Clone, Copy)]
pub enum Wish<'a> {
    /// The run that the program holds.
    Demo,
    /// A run of files.
    Run(RunRequest<'a>),
    /// The listing of a file.
    List(ListRequest<'a>),
    /// What a policy and an input mean.
    Check(CheckRequest<'a>),
    /// A run of a source on the bare machine.
    Bare(BareRequest<'a>),
    /// The trace of a run of files.
    Trace(TraceRequest<'a>),
    /// A session with a debugger over a run of files.
    Debug(Request<'a>),
    /// Why the log of a run of files has its lines.
    Explain(ExplainRequest<'a>),
}

/// Why words that clap takes ask for nothing.
#[derive(Clone, Copy, Debug, PartialEq, Eq)]
pub enum Untaken {
    /// The word after `--only` stands for no kind of line. Other words clap rejects; that it does is
    /// not proved.
    Kind,
    /// A text after `--memory` writes no words of memory that there may be, or there are too many.
    Memory,
    /// Of a bare run the word after `--only` stands for no kind of instruction, the number after `--to`
    /// is below that after `--from`, or a text after `--memory` writes no words of memory that there may
    /// be, or there are too many.
    Bare,
}

/// The words that the program was started with, its own name first.
pub fn program_words<R: Env + AllocGlobal>(rt: &R) -> io::Result<Vec<String>> {
    Ok(env::args(rt)?.collect(rt.alloc())?)
}

// What clap reads in the words.
fn read_words<'a>(alloc: Global, words: &'a [String]) -> Result<ArgMatches<'a>, Error>
    ensures refused { FailsBy (fault_of dsmon_app (map string_bytes words.entry.now)) result }
    ensures named { IfOk result (λ matches. subcommand_rows_of matches
        ≡ subcommand_of dsmon_app (map string_bytes words.entry.now)) }
{
    command(alloc)?.try_get_matches_from(words)
}

/// The run that the words after `run`, `trace`, `debug` or `explain` ask for.
fn request_of<'a>(found: &ArgMatches<'a>) -> Option<Request<'a>>
    ensures some { IfSome result (λ request. NamesRun (rows_of (found_of found.now)) request) }
    ensures none { result ≡ None → (request : Request) → ¬ NamesRun (rows_of (found_of found.now)) request }
{
    Some(Request {
        policy: found.get_str("POLICY")?,
        input: found.get_str("INPUT")?,
        most_time: found.get_one("N")?,
        random: found.get_one("R")?,
        inside: found.get_flag("inside"),
    })
}

/// The number of a flag that may be left out.
fn given_of<'a>(found: &ArgMatches<'a>, id: &str) -> Option<Option<u32>>
    ensures some { IfSome result (λ given. IsGiven 32 (one_of id.now (rows_of (found_of found.now))) given) }
    ensures none { result ≡ None → (given : Option ℕ)
        → ¬ IsGiven 32 (one_of id.now (rows_of (found_of found.now))) given }
{
    found.try_get_one(id).ok()
}

/// The kind of line that this word stands for.
fn only_of(word: &str) -> Option<Only>
    ensures some { IfSome result (λ only. kind_word only ≡ word.now) }
    ensures none { result ≡ None → (only : Only) → ¬ (kind_word only ≡ word.now) }
{
    match word {
        "end" => Some(Only::End),
        "calls" => Some(Only::Calls),
        "denials" => Some(Only::Denials),
        "switches" => Some(Only::Switches),
        "units" => Some(Only::Units),
        _ => None,
    }
}

/// The kind of line that is told, where one is named.
fn kind_of<'a>(found: &ArgMatches<'a>) -> Option<Option<Only>>
    ensures some { IfSome result (λ only. first_of (codes "KIND") (rows_of (found_of found.now))
        ≡ option_map kind_word only) }
    ensures none { result ≡ None → (only : Option Only)
        → ¬ (first_of (codes "KIND") (rows_of (found_of found.now)) ≡ option_map kind_word only) }
{
    match found.get_str("KIND") {
        Some(word) => Some(Some(only_of(word)?)),
        None => Some(None),
    }
}

/// The processes whose numbers the words write.
fn written_processes(numbers: ValuesRef<'_, '_, u32>) -> Option<Processes>
    ensures some { IfSome result (λ processes. WriteProcesses (values_left numbers.entry) processes) }
    ensures none { result ≡ None → (processes : Processes)
        → ¬ WriteProcesses (values_left numbers.entry) processes }
{
    let mut processes = Processes::none();
    for number in numbers {
        processes = processes.with(number.ok()?);
    }
    Some(processes)
}

/// The processes of which is told, where any is named.
fn processes_named<'a>(found: &ArgMatches<'a>) -> Option<Option<Processes>>
    ensures some { IfSome result (λ named. NamesProcesses
        (many_of (codes "P") (rows_of (found_of found.now))) named) }
    ensures none { result ≡ None → (named : Option Processes)
        → ¬ NamesProcesses (many_of (codes "P") (rows_of (found_of found.now))) named }
{
    match found.get_many("P") {
        Some(numbers) => Some(Some(written_processes(numbers)?)),
        None => Some(None),
    }
}

/// How registers are called.
fn names_of<'a>(found: &ArgMatches<'a>) -> RegisterNames
    ensures { CallsRegisters (rows_of (found_of found.now)) result }
{
    if found.get_flag("names") {
        RegisterNames::Common
    } else {
        RegisterNames::Numbers
    }
}

/// Which lines the words after `trace` ask for.
fn view_of<'a>(found: &ArgMatches<'a>) -> Option<View<'a>>
    ensures some { IfSome result (λ view. NamesView (rows_of (found_of found.now)) view) }
    ensures none { result ≡ None → (view : View) → ¬ NamesView (rows_of (found_of found.now)) view }
{
    Some(View {
        from: found.get_one("FROM")?,
        to: given_of(found, "TO")?.map(u64::from),
        processes: processes_named(found)?,
        only: kind_of(found)?,
        processor: found.get_flag("processor"),
        entries: found.get_flag("entries"),
        names: names_of(found),
        source: found.get_flag("source"),
        pages: &[],
    })
}

/// The number of a flag that may be left out, where it may be a large one.
fn large_of<'a>(found: &ArgMatches<'a>, id: &str) -> Option<Option<u64>>
    ensures some { IfSome result (λ given. IsGiven 64 (one_of id.now (rows_of (found_of found.now))) given) }
    ensures none { result ≡ None → (given : Option ℕ)
        → ¬ IsGiven 64 (one_of id.now (rows_of (found_of found.now))) given }
{
    found.try_get_one(id).ok()
}

/// The words of memory that are wanted.
fn memory_of<'a>(found: &ArgMatches<'a>) -> Option<Windows>
    ensures some { IfSome result (λ memory. NamesMemory
        (all_of (codes "P:ADDRESS:COUNT") (rows_of (found_of found.now)))
        (windows_in memory)) }
    ensures good { IfSome result (λ memory. All IsWindow (windows_in memory)) }
    ensures none { result ≡ None → (memory : List Window)
        → ¬ NamesMemory (all_of (codes "P:ADDRESS:COUNT") (rows_of (found_of found.now))) memory }
{
    match found.get_strs("P:ADDRESS:COUNT") {
        Some(texts) => windows_of(texts),
        None => Some(Windows::none()),
    }
}

/// What is wanted beside the text of a run, with this memory.
fn extras_of<'a>(found: &ArgMatches<'a>, memory: Windows) -> Extras
    requires named { NamesMemory
        (all_of (codes "P:ADDRESS:COUNT") (rows_of (found_of found.now)))
        (windows_in memory) }
    requires good { All IsWindow (windows_in memory) }
    ensures { NamesExtras (rows_of (found_of found.now)) result }
{
    Extras {
        must_end: found.get_flag("must-end"),
        summary: found.get_flag("summary"),
        memory,
    }
}

/// What the words after `run` ask for, with this memory.
fn run_request_of<'a>(found: &ArgMatches<'a>, memory: Windows) -> Option<RunRequest<'a>>
    requires named { NamesMemory
        (all_of (codes "P:ADDRESS:COUNT") (rows_of (found_of found.now)))
        (windows_in memory) }
    requires good { All IsWindow (windows_in memory) }
    ensures some { IfSome result (λ request. NamesAskedRun
        (rows_of (found_of found.now)) request) }
    ensures none { result ≡ None → (request : RunRequest)
        → ¬ NamesAskedRun (rows_of (found_of found.now)) request }
{
    Some(RunRequest {
        run: request_of(found)?,
        extras: extras_of(found, memory),
        most: large_of(found, "BYTES")?,
    })
}

/// What the words after `trace` ask for, with this memory.
fn trace_request_of<'a>(found: &ArgMatches<'a>, memory: Windows) -> Option<TraceRequest<'a>>
    requires named { NamesMemory
        (all_of (codes "P:ADDRESS:COUNT") (rows_of (found_of found.now)))
        (windows_in memory) }
    requires good { All IsWindow (windows_in memory) }
    ensures some { IfSome result (λ request. NamesTrace (rows_of (found_of found.now)) request) }
    ensures none { result ≡ None → (request : TraceRequest)
        → ¬ NamesTrace (rows_of (found_of found.now)) request }
{
    Some(TraceRequest {
        run: request_of(found)?,
        extras: extras_of(found, memory),
        view: view_of(found)?,
    })
}

/// What the words after `run` ask for.
fn asked_run<'a>(found: &ArgMatches<'a>) -> Result<RunRequest<'a>, Untaken>
    ensures ok { IfOk result (λ request. NamesAskedRun (rows_of (found_of found.now)) request) }
    ensures err { IfErr result (λ cause. (request : RunRequest)
        → ¬ NamesAskedRun (rows_of (found_of found.now)) request) }
    ensures memory { result ≡ Err Untaken.Memory → (memory : List Window)
        → ¬ NamesMemory (all_of (codes "P:ADDRESS:COUNT") (rows_of (found_of found.now))) memory }
    ensures kind { result ≡ Err Untaken.Kind → (memory : List Window)
        × NamesMemory (all_of (codes "P:ADDRESS:COUNT") (rows_of (found_of found.now))) memory }
    ensures other { ¬ (result ≡ Err Untaken.Bare) }
{
    let Some(memory) = memory_of(found) else {
        return Err(Untaken::Memory);
    };
    let Some(request) = run_request_of(found, memory) else {
        return Err(Untaken::Kind);
    };
    Ok(request)
}

/// What the words after `trace` ask for.
fn asked_trace<'a>(found: &ArgMatches<'a>) -> Result<TraceRequest<'a>, Untaken>
    ensures ok { IfOk result (λ request. NamesTrace (rows_of (found_of found.now)) request) }
    ensures err { IfErr result (λ cause. (request : TraceRequest)
        → ¬ NamesTrace (rows_of (found_of found.now)) request) }
    ensures memory { result ≡ Err Untaken.Memory → (memory : List Window)
        → ¬ NamesMemory (all_of (codes "P:ADDRESS:COUNT") (rows_of (found_of found.now))) memory }
    ensures kind { result ≡ Err Untaken.Kind → (memory : List Window)
        × NamesMemory (all_of (codes "P:ADDRESS:COUNT") (rows_of (found_of found.now))) memory }
    ensures other { ¬ (result ≡ Err Untaken.Bare) }
{
    let Some(memory) = memory_of(found) else {
        return Err(Untaken::Memory);
    };
    let Some(request) = trace_request_of(found, memory) else {
        return Err(Untaken::Kind);
    };
    Ok(request)
}

/// What the words after `list` ask for.
fn list_request_of<'a>(found: &ArgMatches<'a>) -> Option<ListRequest<'a>>
    ensures some { IfSome result (λ request. NamesList (rows_of (found_of found.now)) request) }
    ensures none { result ≡ None → (request : ListRequest) → ¬ NamesList (rows_of (found_of found.now)) request }
{
    Some(ListRequest {
        file: found.get_str("FILE")?,
        words: found.get_flag("words"),
        names: names_of(found),
    })
}

/// What the words after `check` ask for.
fn check_request_of<'a>(found: &ArgMatches<'a>) -> Option<CheckRequest<'a>>
    ensures some { IfSome result (λ request. NamesCheck (rows_of (found_of found.now)) request) }
    ensures none { result ≡ None → (request : CheckRequest) → ¬ NamesCheck (rows_of (found_of found.now)) request }
{
    Some(CheckRequest {
        policy: found.get_str("POLICY")?,
        input: found.get_str("INPUT"),
        notes_as_faults: found.get_flag("notes-as-faults"),
        inside: found.get_flag("inside"),
    })
}

/// The kind of instruction that this word stands for.
fn bare_only_of(word: &str) -> Option<BareOnly>
    ensures some { IfSome result (λ only. bare_kind_word only ≡ word.now) }
    ensures none { result ≡ None → (only : BareOnly) → ¬ (bare_kind_word only ≡ word.now) }
{
    match word {
        "end" => Some(BareOnly::End),
        "exceptions" => Some(BareOnly::Exceptions),
        "tlb" => Some(BareOnly::Tlb),
        "devices" => Some(BareOnly::Devices),
        _ => None,
    }
}

/// The kind of instruction that is told, where one is named.
fn bare_kind_of<'a>(found: &ArgMatches<'a>) -> Option<Option<BareOnly>>
    ensures some { IfSome result (λ only. first_of (codes "KIND") (rows_of (found_of found.now))
        ≡ option_map bare_kind_word only) }
    ensures none { result ≡ None → (only : Option BareOnly)
        → ¬ (first_of (codes "KIND") (rows_of (found_of found.now))
        ≡ option_map bare_kind_word only) }
{
    match found.get_str("KIND") {
        Some(word) => Some(Some(bare_only_of(word)?)),
        None => Some(None),
    }
}

/// The words of memory of the bare machine that are wanted.
fn spans_named<'a>(found: &ArgMatches<'a>) -> Option<Spans>
    ensures some { IfSome result (λ memory. NamesSpans
        (all_of (codes "ADDRESS:COUNT") (rows_of (found_of found.now)))
        (spans_in memory)) }
    ensures good { IfSome result (λ memory. All IsSpan (spans_in memory)) }
    ensures none { result ≡ None → (memory : List Span)
        → ¬ NamesSpans (all_of (codes "ADDRESS:COUNT") (rows_of (found_of found.now))) memory }
{
    match found.get_strs("ADDRESS:COUNT") {
        Some(texts) => spans_of(texts),
        None => Some(Spans::none()),
    }
}

/// Whether there is an end, and it is before a beginning.
fn ends_before(to: Option<u64>, from: u64) -> bool
    ensures { IsTrue result ↔ IsSomeAnd to (λ end. end < from) }
{
    match to {
        Some(to) => to < from,
        None => false,
    }
}

/// What the flags after `bare` want told.
fn bare_flags_of<'a>(found: &ArgMatches<'a>) -> Option<BareView>
    ensures some { IfSome result (λ view. NamesBareFlags (rows_of (found_of found.now)) view) }
    ensures none { result ≡ None → (view : BareView)
        → ¬ NamesBareFlags (rows_of (found_of found.now)) view }
{
    Some(BareView {
        quiet: found.get_flag("quiet"),
        from: found.get_one("FROM")?,
        to: given_of(found, "TO")?.map(u64::from),
        only: bare_kind_of(found)?,
        matches: found.get_flag("matches"),
        counts: found.get_flag("counts"),
        memory: spans_named(found)?,
        names: names_of(found),
    })
}

/// What the words after `bare` want told: no window that ends before it begins.
fn bare_view_of<'a>(found: &ArgMatches<'a>) -> Option<BareView>
    ensures some { IfSome result (λ view. NamesBareView (rows_of (found_of found.now)) view) }
    ensures none { result ≡ None → (view : BareView)
        → ¬ NamesBareView (rows_of (found_of found.now)) view }
{
    let view = bare_flags_of(found)?;
    if ends_before(view.to, view.from) {
        return None;
    }
    Some(view)
}

/// What a run on the bare machine starts with, by what clap found.
pub(crate) fn bare_start_of<'a>(found: &ArgMatches<'a>) -> Option<BareStart<'a>>
    ensures some { IfSome result (λ start. NamesBareStart (rows_of (found_of found.now)) start) }
    ensures none { result ≡ None → (start : BareStart)
        → ¬ NamesBareStart (rows_of (found_of found.now)) start }
{
    Some(BareStart {
        source: found.get_str("SOURCE")?,
        most: found.get_one("N")?,
        random: found.get_one("R")?,
        keys: found.get_str("INPUT"),
    })
}

/// What the words after `bare` ask for.
fn bare_request_of<'a>(found: &ArgMatches<'a>) -> Option<BareRequest<'a>>
    ensures some { IfSome result (λ request. NamesBare (rows_of (found_of found.now)) request) }
    ensures none { result ≡ None → (request : BareRequest)
        → ¬ NamesBare (rows_of (found_of found.now)) request }
{
    Some(BareRequest {
        start: bare_start_of(found)?,
        view: bare_view_of(found)?,
    })
}

/// What the words after `explain` ask for.
fn explain_request_of<'a>(found: &ArgMatches<'a>) -> Option<ExplainRequest<'a>>
    ensures some { IfSome result (λ request. NamesExplain (rows_of (found_of found.now)) request) }
    ensures none { result ≡ None → (request : ExplainRequest)
        → ¬ NamesExplain (rows_of (found_of found.now)) request }
{
    Some(ExplainRequest {
        run: request_of(found)?,
        line: large_of(found, "K")?,
    })
}

/// What `words` ask for, the program's own name first. An error is clap's: a mistake in the words,
/// a call for help or the version, or memory that ran out. Where clap takes the words although they
/// ask for nothing, it is told why: `Memory` goes before `Kind`; of a bare run it is always `Bare`.
pub fn wish_of<'a>(alloc: Global, words: &'a [String]) -> Result<Result<Wish<'a>, Untaken>, Error>
    ensures refused { FailsBy (fault_of dsmon_app (map string_bytes words.entry.now)) result }
    ensures named { IfOk result (λ wish. (wish ≡ Ok Wish.Demo)
        ↔ (command_named (map string_bytes words.entry.now) ≡ Some (codes "demo"))) }
    ensures run { IfOk result (λ wish. (request : RunRequest) → wish ≡ Ok (Wish.Run request)
        → AsksForRun (map string_bytes words.entry.now) request) }
    ensures list { IfOk result (λ wish. (request : ListRequest) → wish ≡ Ok (Wish.List request)
        → AsksForList (map string_bytes words.entry.now) request) }
    ensures check { IfOk result (λ wish. (request : CheckRequest)
        → wish ≡ Ok (Wish.Check request)
        → AsksForCheck (map string_bytes words.entry.now) request) }
    ensures bare { IfOk result (λ wish. (request : BareRequest)
        → wish ≡ Ok (Wish.Bare request)
        → AsksForBare (map string_bytes words.entry.now) request) }
    ensures trace { IfOk result (λ wish. (request : TraceRequest) → wish ≡ Ok (Wish.Trace request)
        → AsksForTrace (map string_bytes words.entry.now) request) }
    ensures debug { IfOk result (λ wish. (request : Request) → wish ≡ Ok (Wish.Debug request)
        → AsksForDebug (map string_bytes words.entry.now) request) }
    ensures explain { IfOk result (λ wish. (request : ExplainRequest)
        → wish ≡ Ok (Wish.Explain request)
        → AsksForExplain (map string_bytes words.entry.now) request) }
    ensures none { IfOk result (λ wish. (cause : Untaken) → wish ≡ Err cause
        → ¬ AsksForSomething (map string_bytes words.entry.now)) }
    ensures memory { IfOk result (λ wish. wish ≡ Err Untaken.Memory
        → MisnamesMemory (map string_bytes words.entry.now)) }
    ensures kind { IfOk result (λ wish. wish ≡ Err Untaken.Kind
        → ¬ MisnamesMemory (map string_bytes words.entry.now)) }
    ensures machine { IfOk result (λ wish. (cause : Untaken) → wish ≡ Err cause
        → (cause ≡ Untaken.Bare)
        ↔ (command_named (map string_bytes words.entry.now) ≡ Some (codes "bare"))) }
{
    let matches = read_words(alloc, words)?;
    match matches.subcommand() {
        Some(("demo", _)) => Ok(Ok(Wish::Demo)),
        Some(("run", found)) => Ok(asked_run(found).map(Wish::Run)),
        Some(("trace", found)) => Ok(asked_trace(found).map(Wish::Trace)),
        Some(("check", found)) => Ok(
            check_request_of(found)
                .map(Wish::Check)
                .ok_or(Untaken::Kind),
        ),
        Some(("list", found)) => Ok(list_request_of(found).map(Wish::List).ok_or(Untaken::Kind)),
        Some(("debug", found)) => Ok(request_of(found).map(Wish::Debug).ok_or(Untaken::Kind)),
        Some(("explain", found)) => Ok(
            explain_request_of(found)
                .map(Wish::Explain)
                .ok_or(Untaken::Kind),
        ),
        Some(("bare", found)) => Ok(bare_request_of(found).map(Wish::Bare).ok_or(Untaken::Bare)),
        _ => Ok(Err(Untaken::Kind)),
    }
}
