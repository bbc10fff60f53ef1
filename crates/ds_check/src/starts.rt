//! Where the processes of a policy start, as text.
ghost use Rattle.std.specs.Prelude.{◌≡◌, ◌≤◌, ◌<◌, ◌^◌, ◌++◌, ◌*◌, ◌+◌, OnOk, IfOk, IfSome, length, map, position, bytes_eq, option_map, slice_get};
ghost use Rattle.ds_check.specs.Inner.Spots.{seen};
ghost use Rattle.ds_check.specs.Starts.{entries_count_text, granted_source, start_head_text, label_text, part_place_text, place_text, spot_in, start_text, start_texts, starts_text};
ghost use Rattle.ds_check.specs.Inner.Starts.{assembled};

use crate::spots::{Spot, spot_of};
use ds_asm::Image;
use ds_policy::{Grant, OutOfMemory, Policy, PolicyPage, PolicyProcess, Source, Table};
use ds_text::sheet::{push_decimal, push_hex};
use std::alloc::{AllocError, Global};

/// Sources by their names and texts, and the image of each, in the same order.
#[derive(Clone, Copy)]
pub struct AssembledSources<'a> {
    pub sources: &'a [(&'a str, &'a [u8])],
    pub images: &'a [Image],
}

/// Where each process starts: its start; the line of a source that stands there, if there is one,
/// and the first label there; and how many entries the process has.
pub fn starts_text<'a>(
    alloc: Global,
    policy: &Policy,
    sources: AssembledSources<'a>,
) -> Result<Vec<u8>, OutOfMemory>
    ensures { IfOk result (λ v. v.items ≡ starts_text (assembled sources.entry) policy.now) }
{
    let mut sheet = Vec::new(alloc);
    let table = Table::new(alloc, policy)?;
    push_starts(
        &mut sheet,
        sources,
        policy.pages(),
        &table,
        policy.processes(),
    )?;
    Ok(sheet)
}

/// Adds where each process starts.
fn push_starts<'a>(
    sheet: &mut Vec<u8>,
    sources: AssembledSources<'a>,
    pages: &[PolicyPage],
    table: &Table,
    processes: &[PolicyProcess],
) -> Result<(), AllocError>
    requires few { length processes.now ≤ 100 }
    requires each { length table.now ≡ length processes.now }
    ensures { OnOk result (sheet.new.items ≡ sheet.old.items
        ++ start_texts (assembled sources.entry) pages.now table.now 1 processes.now) }
{
    for (index, process) in processes.iter().enumerate() {
        push_start(
            sheet,
            sources,
            pages,
            table,
            index as u32 + 1,
            process.start,
        )?;
    }
    Ok(())
}

/// Adds where a process starts.
fn push_start<'a>(
    sheet: &mut Vec<u8>,
    sources: AssembledSources<'a>,
    pages: &[PolicyPage],
    table: &Table,
    process: u32,
    start: u32,
) -> Result<(), AllocError>
    requires low { 0 < process }
    requires high { process ≤ length table.now }
    ensures { OnOk result (sheet.new.items ≡ sheet.old.items
        ++ start_text (assembled sources.entry) pages.now table.now process start) }
{
    let within = start % 4096;
    let source = granted_source(pages, table.entry(process, start - within));
    push_head(sheet, process, start)?;
    push_part(sheet, sources, within, source)?;
    push_count(sheet, table.entries(process).len())
}

fn push_head(sheet: &mut Vec<u8>, process: u32, start: u32) -> Result<(), AllocError>
    ensures { OnOk result (sheet.new.items ≡ sheet.old.items ++ start_head_text process start) }
{
    sheet.extend_from_slice(b"process ")?;
    push_decimal(sheet, u64::from(process))?;
    sheet.extend_from_slice(b": start ")?;
    push_hex(sheet, start)
}

fn push_count(sheet: &mut Vec<u8>, entries: usize) -> Result<(), AllocError>
    ensures { OnOk result (sheet.new.items ≡ sheet.old.items ++ entries_count_text entries) }
{
    sheet.extend_from_slice(b", entries ")?;
    push_decimal(sheet, entries as u64)?;
    sheet.extend_from_slice(b"\n")
}

/// The source whose part lies where this is granted.
fn granted_source(pages: &[PolicyPage], grant: Option<Grant>) -> Option<&Source>
    ensures { option_map (λ s. s.now) result ≡ granted_source pages.entry.now grant }
{
    let page = grant?.page?;
    match pages.get(page as usize) {
        Some(page) => page.source.as_ref(),
        None => None,
    }
}

/// Adds the place of a byte of a part, where there is one.
fn push_part<'a>(
    sheet: &mut Vec<u8>,
    sources: AssembledSources<'a>,
    byte: u32,
    source: Option<&Source>,
) -> Result<(), AllocError>
    requires { byte < 4096 }
    ensures { OnOk result (sheet.new.items ≡ sheet.old.items
        ++ part_place_text (assembled sources.entry) byte (option_map (λ s. s.now) source.entry)) }
{
    match source {
        Some(source) => {
            let name = source.name.as_str();
            let byte = 4096 * u32::from(source.part) + byte;
            push_place(sheet, name, spot_in(sources, name, byte))
        }
        None => Ok(()),
    }
}

/// Adds a place of the source of this name, if there is one.
fn push_place<'a>(sheet: &mut Vec<u8>, name: &str, spot: Option<Spot<'a>>) -> Result<(), AllocError>
    ensures { OnOk result (sheet.new.items
        ≡ sheet.old.items ++ place_text name.now (option_map seen spot.entry)) }
{
    let Some(spot) = spot else {
        return Ok(());
    };
    sheet.extend_from_slice(b", line ")?;
    push_decimal(sheet, spot.line)?;
    sheet.extend_from_slice(b" of ")?;
    sheet.extend_from_slice(name.as_bytes())?;
    push_label(sheet, spot.label)
}

fn push_label(sheet: &mut Vec<u8>, label: Option<&[u8]>) -> Result<(), AllocError>
    ensures { OnOk result (sheet.new.items
        ≡ sheet.old.items ++ label_text (option_map (λ t. t.now) label.entry)) }
{
    match label {
        Some(name) => {
            sheet.extend_from_slice(b", label ")?;
            sheet.extend_from_slice(name)
        }
        None => Ok(()),
    }
}

/// Where a byte of the image of the source of this name stands.
fn spot_in<'a>(sources: AssembledSources<'a>, name: &str, byte: u32) -> Option<Spot<'a>>
    ensures { option_map seen result ≡ spot_in (assembled sources.entry) name.now byte }
{
    let index = place_of_name(sources.sources, name)?;
    let text = text_at(sources.sources, index)?;
    let image = image_at(sources.images, index)?;
    spot_of(text, image, byte)
}

fn text_at<'a>(sources: &[(&str, &'a [u8])], index: usize) -> Option<&'a [u8]>
    ensures { option_map (λ t. t.now) result
        ≡ option_map (λ s. s.1.now) (slice_get sources.now index) }
{
    match sources.get(index) {
        Some((_, text)) => Some(text),
        None => None,
    }
}

fn image_at(images: &[Image], index: usize) -> Option<&Image>
    ensures { option_map (λ i. i.now) result ≡ slice_get images.now index }
{
    images.get(index)
}

fn place_of_name(sources: &[(&str, &[u8])], name: &str) -> Option<usize>
    ensures { result ≡ position (λ s. bytes_eq s.0.now name.now) sources.now }
{
    sources.iter().position(|source| source.0 == name)
}
