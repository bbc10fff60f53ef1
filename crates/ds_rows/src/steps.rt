//! Stations that are stepped and run by hand, over either buffer.
ghost use Rattle.std.specs.Prelude.{◌≡◌};

use ds_asm::{Image, assemble};
use ds_drive::{Files, Request, Wish, wish_of};
use ds_policy::{Events, Policy};
use ds_station::{MOST_TICKS, Station, Step, deliver};
use ds_tlb::{Indexed, Lookaside, Tlb};
use std::alloc::Global;

/// The most steps that a station is stepped.
pub const MOST_STEPS: u32 = 1_000_000;

/// Whether stations that are made as the words ask for it write this text: over either buffer, at
/// once and by steps. Where the words ask for no run of files, there is none to compare, nor where
/// they want memory after its text.
pub fn stations_write<F: Files + Drop>(
    alloc: Global,
    words: &[String],
    files: F,
    wanted: &[u8],
) -> bool {
    match wish_of(alloc, words) {
        Ok(Ok(Wish::Run(request))) if !request.extras.memory.as_slice().is_empty() => true,
        Ok(Ok(Wish::Run(request))) => {
            request_writes(alloc, &request.run, files, wanted) == Some(true)
        }
        Ok(Ok(_)) => true,
        _ => false,
    }
}

/// As `stations_write`, of a run of files; nothing where a station can't be made or stops.
fn request_writes<'a, F: Files + Drop>(
    alloc: Global,
    request: &Request<'a>,
    files: F,
    wanted: &[u8],
) -> Option<bool> {
    let mut files = files;
    let parts = Parts::read(alloc, request, &mut files)?;
    let searched = parts.write_over::<Tlb<64, 8>>(alloc, request, wanted)?;
    let indexed = parts.write_over::<Indexed<64, 8>>(alloc, request, wanted)?;
    Some(searched && indexed)
}

/// What a station is made of.
#[derive(Drop)]
pub struct Parts {
    policy: Policy,
    images: Vec<Image>,
    input: Vec<u8>,
}

impl Parts {
    /// The parts that the files of a request hold.
    pub fn read<'a, F: Files>(
        alloc: Global,
        request: &Request<'a>,
        files: &mut F,
    ) -> Option<Parts> {
        let text = files.read(alloc, request.policy).ok()?;
        let policy = Policy::read(alloc, text.as_slice()).ok()?;
        let input = files.read(alloc, request.input).ok()?;
        let images = images_of(alloc, &policy, files)?;
        Some(Parts {
            policy,
            images,
            input,
        })
    }

    /// A station at the beginning of a run.
    pub fn station<L: Lookaside>(&self, alloc: Global, random: u8) -> Option<Station<L>>
        requires slots { L.SLOTS ≡ 64 }
        requires wired { L.WIRED ≡ 8 }
    {
        let events = Events::read(alloc, self.input.as_slice(), &self.policy).ok()?;
        if self.images.len() != self.policy.sources().len() {
            return None;
        }
        Station::new(
            alloc,
            &self.policy,
            self.images.as_slice(),
            events,
            random as usize,
        )
        .ok()
    }

    /// Whether a station over this buffer writes the text, in one run and by steps.
    fn write_over<'a, L: Lookaside>(
        &self,
        alloc: Global,
        request: &Request<'a>,
        wanted: &[u8],
    ) -> Option<bool>
        requires slots { L.SLOTS ≡ 64 }
        requires wired { L.WIRED ≡ 8 }
    {
        let mut at_once = self.station::<L>(alloc, request.random)?;
        at_once.run(request.most_time.min(MOST_TICKS)).ok()?;
        let mut by_steps = self.station::<L>(alloc, request.random)?;
        step_to_end(&mut by_steps, request.most_time)?;
        Some(writes(alloc, &at_once, wanted) && writes(alloc, &by_steps, wanted))
    }
}

/// The images of a policy's sources.
fn images_of<F: Files>(alloc: Global, policy: &Policy, files: &mut F) -> Option<Vec<Image>> {
    let mut images = Vec::new(alloc);
    for name in policy.sources() {
        let source = files.read(alloc, name.as_str()).ok()?;
        images.push(assemble(alloc, source.as_slice()).ok()?).ok()?;
    }
    Some(images)
}

/// Steps a station to the end of a run for n.
fn step_to_end<L: Lookaside>(station: &mut Station<L>, n: u64) -> Option<()> {
    let mut owed = false;
    for _ in 0..MOST_STEPS {
        let time = station.time();
        if time >= MOST_TICKS || time >= n && !owed {
            return Some(());
        }
        match station.step().ok()? {
            Step::Inside | Step::Boundary => owed = false,
            Step::Unit => owed = true,
            Step::Over => return Some(()),
        }
    }
    None
}

/// Whether this is the text of a station's state.
fn writes<L: Lookaside>(alloc: Global, station: &Station<L>, wanted: &[u8]) -> bool {
    let mut text: Vec<u8> = Vec::new(alloc);
    deliver(station, &mut text).is_ok() && text.as_slice() == wanted
}
