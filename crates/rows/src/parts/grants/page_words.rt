//! The page-table words that go with what is granted, by a plain rule: after each call they are
//! compared with those that lie in memory.

use crate::parts::grants::replay::{COPY, PROCESSES, Replay};
use crate::parts::grants::verbs::Call;
use ds_policy::EntryPlace;
use ds_tlb::Lookaside;
use std::alloc::{AllocError, Global};

/// The pages of a region.
const PAGES: usize = 1024;

/// The regions of a user.
const REGIONS: u32 = 512;

/// The words of a process's pages of a region.
fn words_of<L: Lookaside>(replay: &Replay<L>, process: u32, region: u32) -> [u32; PAGES] {
    let mut words = [0; PAGES];
    for entry in replay.entries(process) {
        if entry.address >> 22 == region {
            words[(entry.address >> 12) as usize % PAGES] = replay.lying.word_of(entry.grant);
        }
    }
    words
}

/// Whether the words of a process's pages of a region lie in memory.
fn fits<L: Lookaside>(replay: &Replay<L>, process: u32, region: u32) -> bool {
    let mut address = region << 22;
    for word in words_of(replay, process, region) {
        if replay.tables.entry(&replay.memory, process, address) != word {
            return false;
        }
        address = address.wrapping_add(4096);
    }
    true
}

/// Whether the words of all of a process's pages lie in memory.
fn fits_all<L: Lookaside>(replay: &Replay<L>, process: u32) -> bool {
    for region in 0..REGIONS {
        if !fits(replay, process, region) {
            return false;
        }
    }
    true
}

/// Whether the words of all of a process's entries lie in memory.
fn fits_entries<L: Lookaside>(replay: &Replay<L>, process: u32) -> bool {
    for entry in replay.entries(process) {
        let word = replay.tables.entry(&replay.memory, process, entry.address);
        if word != replay.lying.word_of(entry.grant) {
            return false;
        }
    }
    true
}

/// Whether the words of all entries of all processes lie in memory.
fn fits_everywhere<L: Lookaside>(replay: &Replay<L>) -> bool {
    for process in 1..=PROCESSES {
        if !fits_entries(replay, process) {
            return false;
        }
    }
    true
}

/// Where entries stand before a call that takes some away, and nothing before another; none where there
/// is no memory for it.
pub fn standing<L: Lookaside>(
    alloc: Global,
    replay: &Replay<L>,
    call: Call,
) -> Option<Vec<EntryPlace>> {
    let mut places = Vec::new(alloc);
    if matches!(
        call,
        Call::Take | Call::Drop | Call::Revoke | Call::End | Call::Expire
    ) {
        push_places(&mut places, replay).ok()?;
    }
    Some(places)
}

/// Adds where entries stand.
fn push_places<L: Lookaside>(
    places: &mut Vec<EntryPlace>,
    replay: &Replay<L>,
) -> Result<(), AllocError> {
    for process in 1..=PROCESSES {
        for entry in replay.entries(process) {
            let address = entry.address;
            places.push(EntryPlace { process, address })?;
        }
    }
    Ok(())
}

/// Whether the words of what is granted at these places lie in memory, 0 where nothing is.
pub fn fits_at<L: Lookaside>(replay: &Replay<L>, places: &[EntryPlace]) -> bool {
    for place in places {
        let wanted = match replay.entry(place.process, place.address) {
            Some(grant) => replay.lying.word_of(grant),
            None => 0,
        };
        let word = replay
            .tables
            .entry(&replay.memory, place.process, place.address);
        if word != wanted {
            return false;
        }
    }
    true
}

/// Whether the words that a call may have changed lie in memory: those of a region of one process,
/// all of its words where it has ended, and those of whoever holds a page where it was copied or
/// has a frame of its own now. What else goes with an entry is at places where entries stood.
pub fn fits_after<L: Lookaside>(replay: &Replay<L>, call: Call, operands: [u32; 6]) -> bool {
    let [a, b, c, d, e, _] = operands;
    match call {
        Call::Give if e == COPY => fits(replay, c, d >> 22) && fits_everywhere(replay),
        Call::Split => fits(replay, a, b >> 22) && fits_everywhere(replay),
        Call::Give => fits(replay, c, d >> 22),
        Call::Take => fits(replay, b, c >> 22),
        Call::End => fits_all(replay, a),
        Call::Expire => fits_everywhere(replay),
        _ => fits(replay, a, b >> 22),
    }
}
