//! What steps answer.
ghost use Rattle.std.specs.Prelude.{◌≡◌};

use crate::parts::grants::frames::FIRST_FRAME;
use crate::parts::grants::page_words::{fits_after, fits_at, standing};
use crate::parts::grants::replay::Replay;
use crate::parts::grants::verbs::{Call, Step};
use crate::parts::machine::memory::{fill, filled};
use crate::parts::numbers::Numbers;
use crate::parts::told::{Answer, Token, number_or};
use ds_grants::GrantFault;
use ds_isa::{Kind, Size};
use ds_policy::{Access, Entry, EntryPlace, Grant, Right, Rule, Verdict};
use ds_tlb::Lookaside;
use std::alloc::Global;

/// The kinds of accesses, each at its number.
static KINDS: [Kind; 3] = [Kind::Fetch, Kind::Load, Kind::Store];

/// The sizes of accesses, each at its number.
static SIZES: [Size; 4] = [Size::Byte, Size::Half, Size::Word, Size::Part];

/// Goes on with new grants, if there are any.
pub fn begun<L: Lookaside>(replay: &mut Replay<L>, begun: Option<Replay<L>>) -> Option<Answer> {
    *replay = begun?;
    Some(Answer::said("ok"))
}

/// What a step answers that is no call; none where it can't be done.
pub fn answer<L: Lookaside>(replay: &mut Replay<L>, step: Step, numbers: &Numbers) -> Option<Answer>
    requires slots { L.SLOTS ≡ 64 }
    requires wired { L.WIRED ≡ 8 }
{
    let (a, b) = (numbers.all[0], numbers.all[1]);
    match step {
        Step::Write => written(replay, a, b),
        Step::Enter => entered(replay, a, b),
        Step::Fill => {
            let is_filled = replay.fill(a, b);
            Some(Answer::said(if is_filled { "filled" } else { "nothing" }))
        }
        Step::Translation => Some(translation(replay, a, b)),
        Step::Entry => Some(told_entry(replay.entry(a, b))),
        Step::Decide => decided(replay, numbers),
        _ => shown(replay, step, a, b),
    }
}

/// What a question answers that is asked of the grants and the memory as they are.
fn shown<L: Lookaside>(replay: &Replay<L>, step: Step, a: u32, b: u32) -> Option<Answer> {
    let table = replay.grants.table();
    let is_within = replay.is_within(a);
    let token = match step {
        Step::Addresses if is_within => return Some(addresses(replay.entries(a))),
        Step::Due if is_within => match table.first_expired(a, u64::from(b)) {
            Some(entry) => Token::Hex(entry.address),
            None => Token::Word("none"),
        },
        Step::Byte => Token::Number(filled(&replay.memory, replay.lying.frame(a)?)?),
        Step::Frame => Token::Number(replay.frame(a)?),
        Step::Space => number_or(replay.spaces.of(a).map(u32::from), "none"),
        Step::Next => number_or(table.next_end(), "none"),
        _ => return None,
    };
    Some(Answer::of(&[token]))
}

/// What the table decides about an access.
fn decided<L: Lookaside>(replay: &Replay<L>, numbers: &Numbers) -> Option<Answer> {
    let [process, kind, size, address, ..] = numbers.all;
    let kind = *KINDS.get(kind as usize)?;
    let size = *SIZES.get(size as usize)?;
    if !replay.is_within(process) {
        return None;
    }
    let table = replay.grants.table();
    Some(told_verdict(table.decide(process, Access { kind, size }, address)))
}

/// A verdict: the page and the offset, or the rule and the code of the denial.
fn told_verdict(verdict: Verdict) -> Answer {
    let (rule, code) = match verdict {
        Verdict::Allowed { page, offset } => {
            return Answer::of(&[Token::Number(page), Token::Number(offset)]);
        }
        Verdict::Denied { rule, code } => (rule, code),
    };
    let rule = match rule {
        Rule::Number(number) => Token::Number(number),
        Rule::A => Token::Word("A"),
        Rule::K => Token::Word("K"),
        Rule::I => Token::Word("I"),
    };
    Answer::of(&[Token::Word("denied"), rule, Token::Number(code)])
}

/// What comes of a call.
pub fn called<L: Lookaside>(
    alloc: Global,
    replay: &mut Replay<L>,
    call: Call,
    numbers: &Numbers,
) -> Option<Answer> {
    let all = &numbers.all;
    let operands = [all[0], all[1], all[2], all[3], all[4], all[5]];
    let stood = standing(alloc, replay, call)?;
    outcome_of(replay, call, operands, stood.as_slice())
}

/// The outcome of a call, or that other page-table words lie in memory after it than are granted. Given is
/// also where entries stood before it.
fn outcome_of<L: Lookaside>(
    replay: &mut Replay<L>,
    call: Call,
    operands: [u32; 6],
    stood: &[EntryPlace],
) -> Option<Answer> {
    let outcome = replay.call(call, operands)?;
    if fits_after(replay, call, operands) && fits_at(replay, stood) {
        Some(told_outcome(outcome))
    } else {
        Some(Answer::said("other words"))
    }
}

/// The outcome of a call: `ok`, or the number of its refusal.
fn told_outcome(outcome: Result<(), GrantFault>) -> Answer {
    match outcome {
        Ok(()) => Answer::said("ok"),
        Err(refusal) => Answer::of(&[Token::Number(refusal.number())]),
    }
}

/// Fills the frame in which a page lies.
fn written<L: Lookaside>(replay: &mut Replay<L>, page: u32, byte: u32) -> Option<Answer> {
    let frame = replay.lying.frame(page)?;
    fill(&mut replay.memory, frame, byte)?;
    Some(Answer::said("ok"))
}

/// A right in a word.
fn word_of(right: Right) -> &'static str {
    match right {
        Right::Nothing => "nothing",
        Right::Read => "read",
        Right::Write => "write",
    }
}

/// An entry in words.
fn told_entry(grant: Option<Grant>) -> Answer {
    let Some(grant) = grant else {
        return Answer::said("none");
    };
    let mut answer = Answer::of(&[
        Token::Word(word_of(grant.right)),
        number_or(grant.page, "-"),
        Token::Number(grant.rule),
        Token::Word(if grant.give { "give" } else { "keep" }),
        Token::Number(grant.giver),
    ]);
    push_parent(&mut answer, grant.parent);
    push_end(&mut answer, grant.until);
    answer
}

/// Adds where an entry was shared from, if it was.
fn push_parent(answer: &mut Answer, parent: Option<EntryPlace>) {
    if let Some(EntryPlace { process, address }) = parent {
        answer.push(&[
            Token::Word("from"),
            Token::Number(process),
            Token::Hex(address),
        ]);
    }
}

/// Adds when a right ends, if it does by itself.
fn push_end(answer: &mut Answer, until: Option<u32>) {
    if let Some(until) = until {
        answer.push(&[Token::Word("until"), Token::Number(until)]);
    }
}

/// The addresses of entries, one after the other.
fn addresses(entries: &[Entry]) -> Answer {
    if entries.is_empty() {
        return Answer::said("none");
    }
    let mut answer = Answer::of(&[]);
    for entry in entries {
        answer.push(&[Token::Hex(entry.address)]);
    }
    answer
}

/// Lets processes come on the processor, one after the other.
fn entered<L: Lookaside>(replay: &mut Replay<L>, first: u32, last: u32) -> Option<Answer> {
    if first > last {
        return None;
    }
    for process in first..=last {
        replay.enter(process)?;
    }
    Some(Answer::said("ok"))
}

/// The number among the frames of pages of that to which the buffer leads an access of this kind in
/// an address space, if to one.
fn frame_of<L: Lookaside>(buffer: &mut L, kind: Kind, address: u32, asid: u8) -> Option<u32> {
    let place = match buffer.place(kind, Size::Byte, address, asid) {
        Some(place) => place,
        None => buffer.base(kind, address >> 12, asid)?,
    };
    (place / 4096).checked_sub(FIRST_FRAME)
}

/// What the buffer answers to a process: the frame that it may read, or also write. A process that
/// has no address space is answered nothing.
fn translation<L: Lookaside>(replay: &mut Replay<L>, process: u32, address: u32) -> Answer {
    let Some(asid) = replay.spaces.of(process) else {
        return Answer::said("none");
    };
    let buffer = &mut replay.buffer;
    let fetched = frame_of(buffer, Kind::Fetch, address, asid);
    let loaded = frame_of(buffer, Kind::Load, address, asid);
    let stored = frame_of(buffer, Kind::Store, address, asid);
    told_lookup(fetched, loaded, stored)
}

/// The frame to which accesses of the three kinds lead, and what may be done with it.
fn told_lookup(fetched: Option<u32>, loaded: Option<u32>, stored: Option<u32>) -> Answer {
    match (fetched, loaded, stored) {
        (None, None, None) => Answer::said("none"),
        (Some(a), Some(b), None) if a == b => told_right("read", a),
        (Some(a), Some(b), Some(c)) if a == b && b == c => told_right("write", a),
        _ => Answer::said("mixed"),
    }
}

/// A right to a frame.
fn told_right(right: &'static str, frame: u32) -> Answer {
    Answer::of(&[Token::Word(right), Token::Number(frame)])
}
