//! What is counted of a run.
ghost use Rattle.std.specs.Prelude.{◌≡◌, ◌<◌};
ghost use Rattle.ds_cp0.specs.Codes.{code_number};
ghost use Rattle.ds_bare.specs.Counts.{came_counted, interrupts_at, none_counted, plus, plus_if, raised_counted, step_counted, writes_slot};

use crate::ending::Processor;
use crate::registers::cause;
use ds_core::Event;
use ds_cp0::{ExceptionCode, REFILL_VECTOR, register};
use ds_dev::Bus;

/// How many codes of exceptions there are.
const CODES: usize = 13;

/// `tlbwi`.
const WRITE_INDEXED: u32 = 0x4200_0002;

/// `tlbwr`.
const WRITE_RANDOM: u32 = 0x4200_0006;

/// What is counted of a run.
#[derive(Clone, Copy)]
pub(crate) struct Counts {
    /// Exceptions at the refill vector.
    pub refills: u64,
    /// Writes of a slot of the buffer.
    pub writes: u64,
    /// Interrupts for which the serial lines asked.
    pub lines: u64,
    /// Interrupts for which the clock asked.
    pub clock: u64,
    /// Characters that came in.
    pub came: u64,
    /// Exceptions of each code.
    pub exceptions: [u64; CODES],
}

/// A count with so many more. It stops at the greatest number.
fn plus(count: u64, more: u64) -> u64
    ensures { result ≡ plus count more }
{
    count.saturating_add(more)
}

/// One more, where it is so.
fn plus_if(so: bool, count: u64) -> u64
    ensures { result ≡ plus_if so count }
{
    if so { plus(count, 1) } else { count }
}

/// Whether a word is `tlbwi` or `tlbwr`.
fn writes_slot(word: Option<u32>) -> bool
    ensures { result ≡ writes_slot word }
{
    match word {
        Some(word) => word == WRITE_INDEXED || word == WRITE_RANDOM,
        None => false,
    }
}

/// Whether what asks at a bit of Cause is let through by the mask of Status.
fn interrupts_at(at: u32, core: &Processor, bus: &Bus) -> bool
    requires { at < 32 }
    ensures { result ≡ interrupts_at at core.now bus.now }
{
    ((cause(core, bus) & core.cp0.read(register::STATUS)) >> at) & 1 == 1
}

/// The number of a code, as a place among the counts.
fn code_place(code: ExceptionCode) -> usize
    ensures number { result ≡ code_number code }
    ensures few { result < 13 }
{
    match code {
        ExceptionCode::Interrupt => 0,
        ExceptionCode::Modification => 1,
        ExceptionCode::LoadMiss => 2,
        ExceptionCode::StoreMiss => 3,
        ExceptionCode::LoadAddress => 4,
        ExceptionCode::StoreAddress => 5,
        ExceptionCode::FetchBus => 6,
        ExceptionCode::DataBus => 7,
        ExceptionCode::SystemCall => 8,
        ExceptionCode::Breakpoint => 9,
        ExceptionCode::ReservedInstruction => 10,
        ExceptionCode::CoprocessorUnusable => 11,
        ExceptionCode::Overflow => 12,
    }
}

impl Counts {
    /// Nothing yet.
    pub fn none() -> Counts
        ensures { result ≡ none_counted }
    {
        Counts {
            refills: 0,
            writes: 0,
            lines: 0,
            clock: 0,
            came: 0,
            exceptions: [0; CODES],
        }
    }

    /// With characters that came in.
    pub fn with_characters(self, more: usize) -> Counts
        ensures { result ≡ came_counted self more }
    {
        let mut counts = self;
        counts.came = plus(counts.came, more as u64);
        counts
    }

    /// With an exception that led to this processor.
    #[tactic(auto, unfolding(crate::specs::Counts::raised_counted))]
    fn with_exception(self, code: ExceptionCode, core: &Processor, bus: &Bus) -> Counts
        ensures { result ≡ raised_counted self code core.now bus.now }
    {
        let mut counts = self;
        let place = code_place(code);
        counts.refills = plus_if(core.pc == REFILL_VECTOR, counts.refills);
        counts.lines = plus_if(place == 0 && interrupts_at(10, core, bus), counts.lines);
        counts.clock = plus_if(place == 0 && interrupts_at(11, core, bus), counts.clock);
        counts.exceptions[place] = plus(counts.exceptions[place], 1);
        counts
    }

    /// With a step of the instruction with this word.
    pub fn with_step(self, word: Option<u32>, event: Event, core: &Processor, bus: &Bus) -> Counts
        ensures { result ≡ step_counted self word event core.now bus.now }
    {
        match event {
            Event::Retired => {
                let mut counts = self;
                counts.writes = plus_if(writes_slot(word), counts.writes);
                counts
            }
            Event::Branched => self,
            Event::Raised(code) => self.with_exception(code, core, bus),
        }
    }
}
