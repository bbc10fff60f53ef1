//! Packets, read by their names and forms.
ghost use Rattle.std.specs.Prelude.{◌≡◌, ◌<◌, ◌≤◌, IfSome};
ghost use Rattle.ds_packets.specs.Words.{pair_at};
ghost use Rattle.ds_packets.specs.Packets.{action_for, action_of, after_comma, after_semicolon, alive, alone, back_of, breakpoint, chosen, described, digit_at, forward, has_long_name, is_feature, is_multiple, is_signal, lettered, looked, with_digit, named_packet, names_process, packet_of, report_of, thread_info, resumed, seen, step_of, stop_asked, table_asked, entries_asked, stopped_at, number_from, number_written, packet_read, watchpoint, with_arguments};

use crate::packet::{Action, Packet, Refusal, Report, Who};
use crate::scan::pair_of;
use crate::words::{cut_at, hex_number, pair_at, part_at, who_of};
use ds_word::digit_of;

/// The most ticks of a run.
const MOST_TICKS: u64 = 1_000_000_000;

/// A packet, where its words were read.
fn packet_read(packet: Option<Packet>) -> Result<Packet, Refusal>
    ensures { result ≡ packet_read packet }
{
    packet.ok_or(Refusal::Malformed)
}

/// A packet that has nothing after its name.
fn alone(rest: &[u8], packet: Packet) -> Result<Packet, Refusal>
    ensures { result ≡ alone rest.now packet }
{
    if rest.is_empty() {
        Ok(packet)
    } else {
        Err(Refusal::Malformed)
    }
}

/// A part of the description of the registers.
fn described(rest: &[u8]) -> Result<Packet, Refusal>
    ensures { result ≡ described rest.now }
{
    let (object, rest) = cut_at(rest, b':');
    let (deed, rest) = cut_at(rest, b':');
    let (annex, range) = cut_at(rest, b':');
    if object != b"features".as_slice() {
        Err(Refusal::Unknown)
    } else if deed == b"read".as_slice() && annex == b"target.xml".as_slice() {
        match pair_at(range) {
            Some((offset, length)) => Ok(Packet::Description { offset, length }),
            None => Err(Refusal::Malformed),
        }
    } else {
        Err(Refusal::Malformed)
    }
}

/// Whose registers and memory are looked at, or which processes go.
fn looked(rest: &[u8]) -> Option<Packet>
    ensures { result ≡ looked rest.now }
{
    match rest {
        [purpose, word @ ..] => {
            let who = who_of(word)?;
            match *purpose {
                b'g' => Some(Packet::Look(who)),
                b'c' => Some(Packet::Go(who)),
                _ => None,
            }
        }
        [] => None,
    }
}

/// A breakpoint that is set or taken away.
fn breakpoint(set: bool, range: &[u8]) -> Result<Packet, Refusal>
    ensures { result ≡ breakpoint set (pair_at range.now) }
{
    match pair_at(range) {
        Some((address, _)) => Ok(if set {
            Packet::Break(address)
        } else {
            Packet::Unbreak(address)
        }),
        None => Err(Refusal::Malformed),
    }
}

/// A watch that is set or taken away.
fn watchpoint(set: bool, range: &[u8]) -> Result<Packet, Refusal>
    ensures { result ≡ watchpoint set (pair_at range.now) }
{
    match pair_at(range) {
        Some((address, length)) => Ok(if set {
            Packet::Watch { address, length }
        } else {
            Packet::Unwatch { address, length }
        }),
        None => Err(Refusal::Malformed),
    }
}

/// A breakpoint, of either kind, or a watch that is set or taken away.
fn stopped_at(set: bool, rest: &[u8]) -> Result<Packet, Refusal>
    ensures { result ≡ stopped_at set rest.now }
{
    let (kind, range) = cut_at(rest, b',');
    if kind == b"0".as_slice() || kind == b"1".as_slice() {
        breakpoint(set, range)
    } else if kind == b"2".as_slice() {
        watchpoint(set, range)
    } else {
        Err(Refusal::Unknown)
    }
}

/// Backward, as far as something stops, or one unit.
fn back_of(rest: &[u8]) -> Result<Packet, Refusal>
    ensures { result ≡ back_of rest.now }
{
    if rest == b"c".as_slice() {
        Ok(Packet::Backward(Action::Continue))
    } else if rest == b"s".as_slice() {
        Ok(Packet::Backward(Action::Step))
    } else {
        Err(Refusal::Unknown)
    }
}

/// Whether a word is a signal's number.
fn is_signal(word: &[u8]) -> bool
    ensures { result ≡ is_signal word.now }
{
    match word {
        [high, low] => pair_of(*high, *low).is_some(),
        _ => false,
    }
}

/// How far an action goes; a signal that comes with it is dropped.
fn action_of(word: &[u8]) -> Option<Action>
    ensures { result ≡ action_of word.now }
{
    match word {
        [letter, rest @ ..] => match *letter {
            b'c' if rest.is_empty() => Some(Action::Continue),
            b's' if rest.is_empty() => Some(Action::Step),
            b'C' if is_signal(rest) => Some(Action::Continue),
            b'S' if is_signal(rest) => Some(Action::Step),
            b'r' => {
                let (from, to) = pair_at(rest)?;
                Some(Action::Range { from, to })
            }
            _ => None,
        },
        [] => None,
    }
}

/// An action with the processes that it is for; where none are named, all.
fn step_of(word: &[u8]) -> Option<(Action, Who)>
    ensures { result ≡ step_of word.now }
{
    let (deed, thread) = cut_at(word, b':');
    let action = action_of(deed)?;
    if thread.is_empty() {
        Some((action, Who::All))
    } else {
        Some((action, who_of(thread)?))
    }
}

/// Whether a process is among those that are named.
pub fn names_process(who: Who, process: u32) -> bool
    ensures { result ≡ names_process who process }
{
    match who {
        Who::Any | Who::All => true,
        Who::Process(number) => number == process,
    }
}

/// The actions of `vCont`, each after a semicolon.
#[tactic(auto, using(crate::proofs::Lists::steps_go_on, crate::proofs::Lists::steps_end))]
fn resumed(rest: &[u8]) -> Result<Packet, Refusal>
    ensures { result ≡ resumed rest.now }
{
    let mut left = Some(rest);
    while let Some(words) = left {
        let (word, more) = part_at(words);
        if step_of(word).is_none() {
            return Err(Refusal::Malformed);
        }
        left = more;
    }
    Ok(Packet::Resume)
}

/// The action of a word, if it is for the process.
fn chosen(process: u32, word: &[u8]) -> Option<Action>
    ensures { result ≡ chosen process word.now }
{
    let (action, who) = step_of(word)?;
    if names_process(who, process) {
        Some(action)
    } else {
        None
    }
}

/// The action that a `vCont` has for a process: the first that names it.
#[tactic(auto, using(crate::proofs::Lists::choice_goes_on, crate::proofs::Lists::choice_ends))]
pub fn action_for(text: &[u8], process: u32) -> Option<Action>
    ensures { result ≡ action_for text.now process }
{
    let (_, rest) = cut_at(text, b';');
    let mut left = Some(rest);
    while let Some(words) = left {
        let (word, more) = part_at(words);
        if let Some(action) = chosen(process, word) {
            return Some(action);
        }
        left = more;
    }
    None
}

/// A packet of several letters, which ends at a colon, a semicolon or nowhere.
fn named_packet(text: &[u8]) -> Result<Packet, Refusal>
    ensures { result ≡ named_packet text.now }
{
    if text == b"qfThreadInfo".as_slice() {
        Ok(Packet::FirstThreads)
    } else if text == b"qsThreadInfo".as_slice() {
        Ok(Packet::MoreThreads)
    } else if text == b"qC".as_slice() {
        Ok(Packet::Current)
    } else if text == b"QStartNoAckMode".as_slice() {
        Ok(Packet::NoAcknowledgements)
    } else if text == b"vCont?".as_slice() {
        Ok(Packet::Actions)
    } else {
        with_arguments(text)
    }
}

/// Whether a feature is that of several processes.
fn is_feature(word: &[u8]) -> bool
    ensures { result ≡ is_feature word.now }
{
    word == b"multiprocess+".as_slice()
}

/// Whether gdb has several processes, as its list of features tells.
#[tactic(auto, using(crate::proofs::Lists::feature_goes_on, crate::proofs::Lists::feature_ends))]
fn is_multiple(features: &[u8]) -> bool
    ensures { result ≡ is_multiple features.now }
{
    let mut left = Some(features);
    while let Some(words) = left {
        let (word, more) = part_at(words);
        if is_feature(word) {
            return true;
        }
        left = more;
    }
    false
}

/// A packet of several letters with arguments.
fn with_arguments(text: &[u8]) -> Result<Packet, Refusal>
    ensures { result ≡ with_arguments text.now }
{
    let (name, rest) = cut_at(text, b':');
    if name == b"qSupported".as_slice() {
        let multiprocess = is_multiple(rest);
        Ok(Packet::Supported { multiprocess })
    } else if name == b"qXfer".as_slice() {
        described(rest)
    } else if name == b"qAttached".as_slice() {
        Ok(Packet::Attached)
    } else {
        after_semicolon(text)
    }
}

/// What `monitor` asks for, by its words in lower-case hexadecimal digits.
fn report_of(words: &[u8]) -> Option<Report>
    ensures { result ≡ report_of words.now }
{
    if words == b"74696d65".as_slice() {
        Some(Report::Time)
    } else if words == b"70726f636573736573".as_slice() {
        Some(Report::Processes)
    } else if words == b"6c6f67".as_slice() {
        Some(Report::Log)
    } else if words == b"636f6e736f6c652030".as_slice() {
        Some(Report::Console(0))
    } else if words == b"636f6e736f6c652031".as_slice() {
        Some(Report::Console(1))
    } else if words == b"636f6e736f6c652032".as_slice() {
        Some(Report::Console(2))
    } else if words == b"636f6e736f6c652033".as_slice() {
        Some(Report::Console(3))
    } else if words == b"7461626c65".as_slice() {
        Some(Report::Table)
    } else {
        None
    }
}

/// The decimal digit that two hexadecimal digits write.
fn digit_at(high: u8, low: u8) -> Option<u64>
    ensures value { result ≡ digit_at high low }
    ensures small { IfSome result (λ d. d < 16) }
{
    digit_of(10, pair_of(high, low)?)
}

/// A number with one digit more, up to the most ticks of a run.
fn with_digit(number: u64, digit: Option<u64>) -> Option<u64>
    requires few { number ≤ 1000000000 }
    requires small { IfSome digit (λ d. d < 16) }
    ensures value { result ≡ with_digit number digit }
    ensures few { IfSome result (λ t. t ≤ 1000000000) }
{
    match digit {
        Some(digit) => {
            let more = 10 * number + digit;
            if more <= MOST_TICKS { Some(more) } else { None }
        }
        None => None,
    }
}

/// A number in decimal digits, two hexadecimal digits each.
#[tactic(auto, unfolding(crate::specs::Packets::number_from))]
fn number_from(digits: &[u8]) -> Option<u64>
    ensures { result ≡ number_from 0 digits.now }
{
    let mut number = 0;
    let mut left = digits;
    while let [high, low, rest @ ..] = left {
        match with_digit(number, digit_at(*high, *low)) {
            Some(more) => number = more,
            None => return None,
        }
        left = rest;
    }
    if left.is_empty() { Some(number) } else { None }
}

/// That of one digit at least.
fn number_written(digits: &[u8]) -> Option<u64>
    ensures { result ≡ number_written digits.now }
{
    match digits {
        [] => None,
        _ => number_from(digits),
    }
}

/// A time at which a run is to stop, or the entries of a process.
fn stop_asked(digits: &[u8]) -> Result<Packet, Refusal>
    ensures { result ≡ stop_asked digits.now }
{
    if digits.len() < 10 {
        Err(Refusal::Unknown)
    } else if &digits[..10] == b"73746f7020".as_slice() {
        match number_written(&digits[10..]) {
            Some(ticks) => Ok(Packet::StopAt(ticks)),
            None => Err(Refusal::Malformed),
        }
    } else {
        table_asked(digits)
    }
}

/// The entries of the process of a number.
fn entries_asked(digits: &[u8]) -> Option<Packet>
    ensures { result ≡ entries_asked digits.now }
{
    Some(Packet::Monitor(Report::TableOf(number_written(digits)?)))
}

/// The entries of a process, by its number.
fn table_asked(digits: &[u8]) -> Result<Packet, Refusal>
    ensures { result ≡ table_asked digits.now }
{
    if digits.len() < 12 {
        Err(Refusal::Unknown)
    } else if &digits[..12] == b"7461626c6520".as_slice() {
        packet_read(entries_asked(&digits[12..]))
    } else {
        Err(Refusal::Unknown)
    }
}

/// A process of which is asked what it is in words.
fn thread_info(thread: &[u8]) -> Option<Packet>
    ensures { result ≡ thread_info thread.now }
{
    Some(Packet::ThreadInfo(who_of(thread)?))
}

/// A packet of several letters with arguments after a comma.
fn after_comma(text: &[u8]) -> Result<Packet, Refusal>
    ensures { result ≡ after_comma text.now }
{
    let (name, rest) = cut_at(text, b',');
    if name == b"qThreadExtraInfo".as_slice() {
        packet_read(thread_info(rest))
    } else if name == b"qRcmd".as_slice() {
        match report_of(rest) {
            Some(report) => Ok(Packet::Monitor(report)),
            None => stop_asked(rest),
        }
    } else {
        Err(Refusal::Unknown)
    }
}

/// A packet of several letters with arguments after a semicolon.
fn after_semicolon(text: &[u8]) -> Result<Packet, Refusal>
    ensures { result ≡ after_semicolon text.now }
{
    let (name, rest) = cut_at(text, b';');
    if name == b"vCont".as_slice() {
        resumed(rest)
    } else if name == b"vKill".as_slice() {
        Ok(Packet::Leave)
    } else {
        after_comma(text)
    }
}

/// A step or more of all processes.
fn forward(letter: u8, rest: &[u8]) -> Result<Packet, Refusal>
    ensures { result ≡ forward letter rest.now }
{
    let plain = rest.is_empty();
    let signalled = is_signal(rest);
    match letter {
        b'c' if plain => Ok(Packet::Forward(Action::Continue)),
        b's' if plain => Ok(Packet::Forward(Action::Step)),
        b'C' if signalled => Ok(Packet::Forward(Action::Continue)),
        b'S' if signalled => Ok(Packet::Forward(Action::Step)),
        _ => Err(Refusal::Malformed),
    }
}

/// A register, or memory from an address on.
fn seen(letter: u8, rest: &[u8]) -> Option<Packet>
    ensures { result ≡ seen letter rest.now }
{
    if letter == b'p' {
        Some(Packet::Register(hex_number(rest)?))
    } else {
        let (address, length) = pair_at(rest)?;
        Some(Packet::Memory { address, length })
    }
}

/// A thread of which is asked whether it is there.
fn alive(rest: &[u8]) -> Option<Packet>
    ensures { result ≡ alive rest.now }
{
    Some(Packet::Alive(who_of(rest)?))
}

/// A packet of one letter, with what comes after it.
fn lettered(letter: u8, rest: &[u8]) -> Result<Packet, Refusal>
    ensures { result ≡ lettered letter rest.now }
{
    match letter {
        b'?' => alone(rest, Packet::Why),
        b'g' => alone(rest, Packet::Registers),
        b'k' => alone(rest, Packet::End),
        b'D' => Ok(Packet::Leave),
        b'G' | b'M' | b'P' | b'X' => Ok(Packet::Write),
        b'H' => packet_read(looked(rest)),
        b'T' => packet_read(alive(rest)),
        b'p' | b'm' => packet_read(seen(letter, rest)),
        b'Z' => stopped_at(true, rest),
        b'z' => stopped_at(false, rest),
        b'c' | b's' | b'C' | b'S' => forward(letter, rest),
        b'b' => back_of(rest),
        _ => Err(Refusal::Unknown),
    }
}

/// Whether a packet that begins with this letter has a name of several letters.
fn has_long_name(letter: u8) -> bool
    ensures { result ≡ has_long_name letter }
{
    matches!(letter, b'q' | b'Q' | b'v')
}

impl Packet {
    /// What the data of a packet say.
    pub fn of(text: &[u8]) -> Result<Packet, Refusal>
        ensures { result ≡ packet_of text.now }
    {
        match text {
            [letter, rest @ ..] => {
                if has_long_name(*letter) {
                    named_packet(text)
                } else {
                    lettered(*letter, rest)
                }
            }
            [] => Err(Refusal::Unknown),
        }
    }
}
