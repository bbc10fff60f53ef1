//! The program over files and streams in memory, where no row of a table can make them.
use crate::runs::{A, POLICY, PUT_A};
use ds_asm::SourceFault;
use ds_drive::{Failure, FileFault, Files, MOST_BYTES, SystemFiles, drive, refuse_words, tell};
use ds_policy::Text;
use ds_station::Fault;
use ds_text::Output;
use std::alloc::{AllocError, Global};
use std::io::Write;
use std::os::unix::fs::symlink;
use std::test::Fail;
use std::{fs, io};

/// Files in memory: names with their bytes.
#[derive(Drop)]
struct Held<'a> {
    files: &'a [(&'a str, &'a [u8])],
    /// The names that were asked for, each followed by a line feed.
    asked: String,
}

impl<'a> Files for Held<'a> {
    fn read(&mut self, alloc: Global, name: &str) -> Result<Vec<u8>, FileFault> {
        if self.asked.push_str(name).is_err() || self.asked.push('\n').is_err() {
            return Err(FileFault::Memory);
        }
        for (held, bytes) in self.files {
            if *held == name && bytes.len() as u64 <= MOST_BYTES {
                return match bytes.to_vec(alloc) {
                    Ok(bytes) => Ok(bytes),
                    Err(_) => Err(FileFault::Memory),
                };
            }
        }
        Err(FileFault::Unreadable)
    }
}

/// A place where memory runs out at the file that is asked for after so many others.
#[derive(Drop)]
struct Exhausted {
    before: u32,
}

impl Files for Exhausted {
    fn read(&mut self, alloc: Global, _name: &str) -> Result<Vec<u8>, FileFault> {
        if self.before == 0 {
            return Err(FileFault::Memory);
        }
        self.before -= 1;
        match POLICY.as_bytes().to_vec(alloc) {
            Ok(bytes) if bytes.len() as u64 <= MOST_BYTES => Ok(bytes),
            _ => Err(FileFault::Memory),
        }
    }
}

/// A writer that takes nothing.
#[derive(Drop)]
struct Closed;

impl Write for Closed {
    fn write(&mut self, _bytes: &[u8]) -> io::Result<usize> {
        Err(io::Error::from(io::ErrorKind::BrokenPipe))
    }

    fn flush(&mut self) -> io::Result<()> {
        Ok(())
    }
}

const RUN: &str = "dsmon run p.toml in.txt 100";

const DEMO: &str = "dsmon demo";

const LIST: &str = "dsmon list one.s";

const LIST_WORDS: &str = "dsmon list --words one.bin";

const CHECK: &str = "dsmon check p.toml in.txt";

const CHECK_POLICY: &str = "dsmon check p.toml";

/// One character, and one command.
const INPUT: &str = "3 key 0 41\n5 stop 1\n";

/// A source whose second line is no instruction.
const BAD_SOURCE: &str = "nop\nwalk\n";

/// The files that the commands name.
fn files_with<'a>(input: &'a str, source: &'a str) -> [(&'a str, &'a [u8]); 4] {
    [
        ("p.toml", POLICY.as_bytes()),
        ("in.txt", input.as_bytes()),
        ("one.s", source.as_bytes()),
        ("one.bin", PUT_A.as_bytes()),
    ]
}

/// The words of a line, with one space between; an empty line has none.
fn words_of(alloc: Global, line: &str) -> Result<Vec<String>, AllocError> {
    let mut words = Vec::new(alloc);
    if line.is_empty() {
        return Ok(words);
    }
    for word in line.split(' ') {
        words.push(String::from_str(alloc, word)?)?;
    }
    Ok(words)
}

/// What the program answers over files: the status, what it wrote, and the names of the files that
/// it asked for.
#[derive(Drop)]
struct Answer {
    status: u8,
    out: Vec<u8>,
    err: Vec<u8>,
    asked: String,
}

/// The status of the program for these words. Nothing is known of it here, so that each test is
/// proved without the contract of `drive`.
fn status_of<F: Files, W: Write, E: Output>(
    alloc: Global,
    words: &[String],
    files: &mut F,
    out: &mut W,
    err: &mut E,
) -> u8 {
    drive(alloc, words, files, out, err)
}

fn answer_to(alloc: Global, line: &str, files: &[(&str, &[u8])]) -> Result<Answer, AllocError> {
    let words = words_of(alloc, line)?;
    answer_to_words(alloc, words.as_slice(), files)
}

fn answer_to_words(
    alloc: Global,
    words: &[String],
    files: &[(&str, &[u8])],
) -> Result<Answer, AllocError> {
    let mut held = Held {
        files,
        asked: String::new(alloc),
    };
    let mut out = Vec::new(alloc);
    let mut err = Vec::new(alloc);
    let status = status_of(alloc, words, &mut held, &mut out, &mut err);
    Ok(Answer {
        status,
        out,
        err,
        asked: held.asked,
    })
}

/// Whether a command of which all goes well writes what a run of `PUT_A` does, and asks for these
/// files.
fn is_run(alloc: Global, line: &str, asked: &str) -> Result<bool, AllocError> {
    let answer = answer_to(alloc, line, &files_with("", PUT_A))?;
    let is_well = answer.status == 0 && answer.err.is_empty();
    let is_written = answer.out.as_slice() == A.as_bytes();
    Ok(is_well && is_written && answer.asked.as_str() == asked)
}

/// The demonstration asks for no file; a run asks for the policy, the input and the sources in this
/// order.
#[test]
fn a_run_asks_for_its_files_and_writes_its_text(rt: HostRuntime) -> Result<(), AllocError> {
    let demo = is_run(rt.alloc(), DEMO, "")?;
    let run = is_run(rt.alloc(), RUN, "p.toml\nin.txt\none.s\n")?;
    assert!(rt; demo && run);
    Ok(())
}

#[test]
fn a_file_that_can_not_be_read_is_told_by_its_name(rt: HostRuntime) -> Result<(), AllocError> {
    let mut words = words_of(rt.alloc(), "dsmon run policy.toml in.txt 9")?;
    if let Some(word) = words.get_mut(2) {
        *word = String::from_str(rt.alloc(), "no such policy.toml")?;
    }
    let answer = answer_to_words(rt.alloc(), words.as_slice(), &[])?;
    let told = b"dsmon: 26 Unreadable no such policy.toml\n".as_slice();
    assert!(rt; answer.status == 2 && answer.err.as_slice() == told);
    Ok(())
}

/// Whether words that could not be had are told so, with a status.
fn are_refused(alloc: Global, kind: io::ErrorKind, status: u8, told: &[u8]) -> bool {
    let mut err: Vec<u8> = Vec::new(alloc);
    refuse_words(&mut err, kind) == status && err.as_slice() == told
}

#[test]
fn words_that_could_not_be_had_are_told(rt: HostRuntime) {
    let no_text = b"dsmon: the words are no text\n".as_slice();
    let exhausted = are_refused(rt.alloc(), io::ErrorKind::OutOfMemory, 3, NO_MEMORY);
    let garbled = are_refused(rt.alloc(), io::ErrorKind::InvalidData, 1, no_text);
    assert!(rt; exhausted && garbled);
}

#[test]
fn a_file_of_the_system_is_read_whole_and_one_that_is_not_there_is_not(
    rt: HostRuntime,
) -> Result<(), Fail> {
    let name = format!(in rt.alloc(); "/tmp/dsmon-test-{}", std::process::id(rt.process()))?;
    let mut files = SystemFiles::new(&rt);
    let none = files.read(rt.alloc(), name.as_str()).is_err();
    fs::write(&rt, name.as_str(), b"frames = 16\n")?;
    let whole = match files.read(rt.alloc(), name.as_str()) {
        Ok(bytes) => bytes.as_slice() == b"frames = 16\n".as_slice(),
        Err(_) => false,
    };
    fs::remove_file(&rt, name.as_str())?;
    assert!(rt; none && whole);
    Ok(())
}

/// Whether a source of this name is found, where it has to be inside its folder or may be anywhere.
fn is_found<R: std::rt::Files>(rt: &R, alloc: Global, name: &str, inside: bool) -> bool {
    SystemFiles::new(rt)
        .read_source(alloc, name, inside)
        .is_ok()
}

/// A folder with a source, a link to it, and a link to the folder itself.
fn make_links(rt: &HostRuntime, folder: &str) -> Result<(), Fail> {
    fs::create_dir(rt, folder)?;
    let text = format!(in rt.alloc(); "{folder}/one.s")?;
    fs::write(rt, text.as_str(), b"nop\n")?;
    let link = format!(in rt.alloc(); "{folder}/two.s")?;
    symlink(rt, "one.s", link.as_str())?;
    let there = format!(in rt.alloc(); "{folder}/there")?;
    symlink(rt, ".", there.as_str())?;
    Ok(())
}

#[test]
fn a_source_is_a_file_and_inside_its_folder_no_link_leads_to_it(
    rt: HostRuntime,
) -> Result<(), Fail> {
    let alloc = rt.alloc();
    let folder = format!(in alloc; "/tmp/dsmon-links-{}", std::process::id(rt.process()))?;
    make_links(&rt, folder.as_str())?;
    let text = format!(in alloc; "{folder}/one.s")?;
    let link = format!(in alloc; "{folder}/two.s")?;
    let through = format!(in alloc; "{folder}/there/one.s")?;
    let file = is_found(&rt, alloc, text.as_str(), true)
        && is_found(&rt, alloc, text.as_str(), false);
    let linked = is_found(&rt, alloc, link.as_str(), false)
        && is_found(&rt, alloc, through.as_str(), false);
    let inside = is_found(&rt, alloc, link.as_str(), true)
        || is_found(&rt, alloc, through.as_str(), true);
    let other = is_found(&rt, alloc, folder.as_str(), true)
        || is_found(&rt, alloc, folder.as_str(), false);
    fs::remove_dir_all(&rt, folder.as_str())?;
    assert!(rt; file && linked && !inside && !other);
    Ok(())
}

/// The beginning of what is told of an output that is closed, and of want of memory.
const WRITE_FAULT: &[u8] = b"dsmon: 23 WriteFault\n";

const NO_MEMORY: &[u8] = b"dsmon: 25 Memory\n";

/// Whether a command whose output is closed tells so, and no more where that is all.
fn is_write_fault(alloc: Global, line: &str, is_all: bool) -> Result<bool, AllocError> {
    let words = words_of(alloc, line)?;
    let files = files_with(INPUT, PUT_A);
    let mut held = Held {
        files: &files,
        asked: String::new(alloc),
    };
    let mut err: Vec<u8> = Vec::new(alloc);
    let status = status_of(alloc, words.as_slice(), &mut held, &mut Closed, &mut err);
    Ok(status == 3 && is_line(&err, WRITE_FAULT, is_all))
}

/// Whether a text begins with a line, or is the line.
fn is_line(text: &[u8], line: &[u8], is_all: bool) -> bool {
    text.starts_with(line) && (!is_all || text.len() == line.len())
}

/// A command, and whether the line of its fault is all that is told.
#[test]
fn an_output_that_is_closed_is_a_write_fault(rt: HostRuntime) -> Result<(), AllocError> {
    let mut right = true;
    for (line, is_all) in [
        (RUN, true),
        (DEMO, true),
        (LIST, false),
        (LIST_WORDS, false),
        (CHECK, false),
        (CHECK_POLICY, false),
    ] {
        right = is_write_fault(rt.alloc(), line, is_all)? && right;
    }
    assert!(rt; right);
    Ok(())
}

/// Whether a command whose error stream is closed has this status, and writes something where that
/// is 0.
fn is_untold(alloc: Global, line: &str, source: &str, wanted: u8) -> Result<bool, AllocError> {
    let words = words_of(alloc, line)?;
    let files = files_with(INPUT, source);
    let mut held = Held {
        files: &files,
        asked: String::new(alloc),
    };
    let mut out: Vec<u8> = Vec::new(alloc);
    let status = status_of(alloc, words.as_slice(), &mut held, &mut out, &mut Closed);
    Ok(status == wanted && out.is_empty() == (wanted != 0))
}

#[test]
fn a_closed_error_stream_changes_no_answer(rt: HostRuntime) -> Result<(), AllocError> {
    let mut right = true;
    for (line, source, wanted) in [
        (LIST, BAD_SOURCE, 2),
        (CHECK, BAD_SOURCE, 2),
        ("dsmon list none.s", PUT_A, 2),
        ("dsmon check in.txt", PUT_A, 2),
        ("dsmon run none.toml in.txt 100", PUT_A, 2),
        ("dsmon demon", PUT_A, 1),
        (LIST, PUT_A, 0),
        (CHECK, PUT_A, 0),
    ] {
        right = is_untold(rt.alloc(), line, source, wanted)? && right;
    }
    assert!(rt; right);
    Ok(())
}

#[test]
fn a_demonstration_whose_streams_are_closed_is_a_write_fault(
    rt: HostRuntime,
) -> Result<(), AllocError> {
    let words = words_of(rt.alloc(), DEMO)?;
    let mut files = Exhausted { before: 0 };
    let status = status_of(
        rt.alloc(),
        words.as_slice(),
        &mut files,
        &mut Closed,
        &mut Closed,
    );
    assert!(rt; status == 3);
    Ok(())
}

/// Whether a command writes nothing where there is no memory after so many files, and tells so, and
/// no more where that is all.
fn is_exhausted(alloc: Global, line: &str, before: u32, is_all: bool) -> Result<bool, AllocError> {
    let words = words_of(alloc, line)?;
    let mut files = Exhausted { before };
    let mut out: Vec<u8> = Vec::new(alloc);
    let mut err: Vec<u8> = Vec::new(alloc);
    let status = status_of(alloc, words.as_slice(), &mut files, &mut out, &mut err);
    Ok(status == 3 && out.is_empty() && is_line(&err, NO_MEMORY, is_all))
}

/// A command, after how many files there is no memory, and whether the line of its fault is all
/// that is told.
#[test]
fn want_of_memory_for_a_file_is_status_3(rt: HostRuntime) -> Result<(), AllocError> {
    let mut right = true;
    for (line, before, is_all) in [
        (RUN, 0, true),
        (RUN, 1, true),
        (RUN, 2, true),
        (LIST, 0, false),
        (LIST_WORDS, 0, false),
        (CHECK_POLICY, 0, false),
        (CHECK, 1, false),
        (CHECK, 2, false),
    ] {
        right = is_exhausted(rt.alloc(), line, before, is_all)? && right;
    }
    assert!(rt; right);
    Ok(())
}

/// Whether a fault is told in a line, with a status.
fn is_told_as(alloc: Global, fault: Fault, status: u8, line: &str) -> bool {
    let mut err: Vec<u8> = Vec::new(alloc);
    tell(&mut err, &Failure::Fault(fault)) == status && err.as_slice() == line.as_bytes()
}

#[test]
fn a_fault_that_no_run_of_files_reaches_is_told_in_its_line(rt: HostRuntime) {
    let alloc = rt.alloc();
    let source = Fault::NoSource(Text::of("one.s"));
    let stuck = is_told_as(alloc, Fault::Stuck, 3, "dsmon: 21 Stuck\n");
    let failed = is_told_as(alloc, Fault::Failed, 3, "dsmon: 22 Failed\n");
    let no_source = is_told_as(alloc, source, 2, "dsmon: 24 NoSource one.s\n");
    assert!(rt; stuck && failed && no_source);
}

/// Whether what is told of a failure is its text.
fn is_told_by_its_text<'a>(alloc: Global, failure: Failure<'a>) -> Result<bool, AllocError> {
    let mut err: Vec<u8> = Vec::new(alloc);
    let _ = tell(&mut err, &failure);
    let line = format!(in alloc; "dsmon: {failure}\n")?;
    Ok(err.as_slice() == line.as_bytes())
}

/// Whether what is told of a fault is its text.
fn is_fault_told(alloc: Global, fault: Fault) -> Result<bool, AllocError> {
    is_told_by_its_text(alloc, Failure::Fault(fault))
}

#[test]
fn the_text_of_a_failure_is_what_is_told_of_it(rt: HostRuntime) -> Result<(), AllocError> {
    let mut right = true;
    for failure in [
        Failure::UnreadableFile("a file.toml"),
        Failure::UnreadableSource(Text::of("one.s")),
        Failure::NoProcess(7),
    ] {
        right = is_told_by_its_text(rt.alloc(), failure)? && right;
    }
    for fault in [
        Fault::BadRandom,
        Fault::BadToml,
        Fault::BadRule(999),
        Fault::Limit("frames"),
        Fault::InputFault(12),
        Fault::Stuck,
        Fault::Failed,
        Fault::WriteFault,
        Fault::NoSource(Text::of("two.s")),
        Fault::Memory,
    ] {
        right = is_fault_told(rt.alloc(), fault)? && right;
    }
    assert!(rt; right);
    Ok(())
}

/// Whether what is told of a source's fault is its text.
fn is_source_told(alloc: Global, name: Text<64>, fault: SourceFault) -> Result<bool, AllocError> {
    is_fault_told(alloc, Fault::InSource { name, fault })
}

#[test]
fn the_text_of_a_sources_fault_is_what_is_told_of_it(rt: HostRuntime) -> Result<(), AllocError> {
    let named = is_source_told(rt.alloc(), Text::of("one.s"), SourceFault::Syntax(7))?;
    let fault = SourceFault::UnknownLabel(16_777_217);
    let nameless = is_source_told(rt.alloc(), Text::of(""), fault)?;
    assert!(rt; named && nameless);
    Ok(())
}

/// Whether an answer is a text, or want of memory with nothing written.
fn is_text_or_memory(answer: &Answer) -> bool {
    match answer.status {
        0 => !answer.out.is_empty(),
        3 => answer.out.is_empty(),
        _ => false,
    }
}

/// Whether the command is answered twice by one text, or once by the text and once by want of
/// memory with nothing written. The harness itself may be what lacks memory.
fn is_whole_or_memory(alloc: Global, line: &str) -> Result<bool, AllocError> {
    let files = files_with(INPUT, PUT_A);
    let first = answer_to(alloc, line, &files)?;
    let second = answer_to(alloc, line, &files)?;
    let is_alike = match (first.status, second.status) {
        (0, 3) | (3, 0) => true,
        (0, 0) => first.out.as_slice() == second.out.as_slice(),
        _ => false,
    };
    Ok(is_alike && is_text_or_memory(&first) && is_text_or_memory(&second))
}

/// This passes whichever growth is refused: `rt try --test --fail-alloc N`.
#[test]
fn for_want_of_memory_nothing_is_listed_or_explained(rt: HostRuntime) {
    let mut right = true;
    for line in [LIST, LIST_WORDS, CHECK] {
        if let Ok(is_so) = is_whole_or_memory(rt.alloc(), line) {
            right = right && is_so;
        }
    }
    assert!(rt; right);
}
