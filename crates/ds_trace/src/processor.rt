//! What the processor did in a run, which depends on Random.
ghost use Rattle.std.specs.Prelude.{◌≡◌, ◌<◌, ◌^◌, ◌++◌, OnOk, codes};
ghost use Rattle.std.specs.String.{string_bytes};
ghost use Rattle.ds_trace.specs.Processors.{buffer_lines_text, valid_entry_text, named_text, none_processed, processor_line, processor_text, dirty_text, stage_after};
ghost use Rattle.ds_trace.specs.Inner.Processors.{total};

use crate::lines::push_newline;
use ds_station::{Stage, Station};
use ds_text::string::{push_decimal, push_hex};
use ds_text::words;
use ds_tlb::{Entry, Lookaside};
use std::alloc::AllocError;

/// What the processor did in steps of a station.
#[derive(Clone, Copy)]
pub(crate) struct ProcessorCounts {
    /// Machine instructions, with the words of the refill handler.
    pub instructions: u64,
    /// Refills that were begun: the handler's first words among the instructions.
    pub refills: u64,
    /// Misses of page tables' own pages in the refill handler.
    pub double_misses: u64,
    /// Services of the monitor, with those of double misses.
    pub services: u64,
}

impl ProcessorCounts {
    /// Nothing is counted.
    pub(crate) fn new() -> ProcessorCounts
        ensures { result ≡ none_processed }
    {
        ProcessorCounts {
            instructions: 0,
            refills: 0,
            double_misses: 0,
            services: 0,
        }
    }

    /// Counts a step by what it was to the processor.
    pub(crate) fn count(&mut self, stage: Stage)
        requires { total self.old < 2 ^ 62 }
        ensures { self.new ≡ stage_after self.old stage }
    {
        match stage {
            Stage::Rest => {}
            Stage::Instruction => self.instructions += 1,
            Stage::Refill => {
                self.instructions += 1;
                self.refills += 1;
            }
            Stage::Service => self.services += 1,
            Stage::DoubleMiss => {
                self.double_misses += 1;
                self.services += 1;
            }
        }
    }
}

/// Adds a count after its name.
fn push_named(line: &mut String, name: &str, count: u64) -> Result<(), AllocError>
    ensures { OnOk result
        (string_bytes line.new ≡ string_bytes line.old ++ named_text name.now count) }
{
    line.push_str(name)?;
    push_decimal(line, count)
}

/// Ends a line of what depends on Random.
pub(crate) fn push_cause(line: &mut String) -> Result<(), AllocError>
    ensures { OnOk result
        (string_bytes line.new ≡ string_bytes line.old ++ codes ", as Random fell\n") }
{
    line.push_str(", as Random fell\n")
}

/// Adds the line of the counts.
fn push_counts(line: &mut String, counts: &ProcessorCounts) -> Result<(), AllocError>
    ensures { OnOk result
        (string_bytes line.new ≡ string_bytes line.old ++ processor_line counts.now) }
{
    push_named(line, "processor instructions ", counts.instructions)?;
    push_named(line, " refills ", counts.refills)?;
    push_named(line, " double ", counts.double_misses)?;
    push_named(line, " services ", counts.services)?;
    push_cause(line)
}

/// Adds what may be done with a page.
fn push_right(line: &mut String, dirty: bool) -> Result<(), AllocError>
    ensures { OnOk result (string_bytes line.new ≡ string_bytes line.old ++ dirty_text dirty) }
{
    if dirty {
        line.push_str(words::WRITE)
    } else {
        line.push_str(words::READ)
    }
}

/// Adds the line of an entry, if that is valid.
fn push_entry(line: &mut String, slot: usize, entry: Entry) -> Result<(), AllocError>
    ensures { OnOk result
        (string_bytes line.new ≡ string_bytes line.old ++ valid_entry_text slot entry) }
{
    if !entry.v {
        return Ok(());
    }
    line.push_str("entry ")?;
    push_decimal(line, slot as u64)?;
    line.push_str(" ")?;
    push_hex(line, entry.vpn % 0x10_0000 * 0x1000)?;
    line.push_str(" ")?;
    push_decimal(line, u64::from(entry.asid))?;
    line.push_str(" ")?;
    push_hex(line, entry.pfn % 0x10_0000 * 0x1000)?;
    line.push_str(" ")?;
    push_right(line, entry.d)?;
    push_newline(line)
}

/// Adds the lines of all valid entries.
pub(crate) fn push_entries<L: Lookaside>(
    line: &mut String,
    station: &Station<L>,
) -> Result<(), AllocError>
    ensures { OnOk result (string_bytes line.new
        ≡ string_bytes line.old ++ buffer_lines_text 0 station.now.held.core.entries) }
{
    for slot in 0..station.slots() {
        push_entry(line, slot, station.entry(slot))?;
    }
    Ok(())
}

/// Adds what the processor did, and what its buffer holds.
pub(crate) fn push_processor<L: Lookaside>(
    line: &mut String,
    counts: &ProcessorCounts,
    station: &Station<L>,
) -> Result<(), AllocError>
    ensures { OnOk result (string_bytes line.new
        ≡ string_bytes line.old ++ processor_text counts.now station.now.held.core.entries) }
{
    push_counts(line, counts)?;
    push_entries(line, station)
}
