//! The lines of the sources whose parts the pages of a policy have.
ghost use Rattle.std.specs.Prelude.{◌≡◌, IfOk, Some, map, option_map};
ghost use Rattle.ds_asm.specs.Assembly.{assembled};
ghost use Rattle.ds_listing.specs.Pages.{plain_page, plain_pages};
ghost use Rattle.ds_listing.specs.Places.{plain_line_place};
ghost use Rattle.ds_pagemap.specs.Inputs.{text_named};
ghost use Rattle.ds_station.specs.Headline.{sources_seen};
ghost use Rattle.ds_trace.specs.Sources.{lines_with_image, lines_named, page_with, pages_with};

use ds_asm::{AsmFault, assemble};
use ds_listing::{LinePlace, PageLines, line_places};
use ds_policy::{PolicyPage, Source};
use std::alloc::{AllocError, Global};

/// The text of the source of this name; of two of one name the first counts.
fn text_named<'a>(sources: &[(&str, &'a [u8])], name: &str) -> Option<&'a [u8]>
    ensures { option_map (λ t. t.now) result ≡ text_named (sources_seen sources.now) name.now }
{
    for (source, text) in sources {
        if *source == name {
            return Some(text);
        }
    }
    None
}

/// The lines of a text, where it has an image.
fn lines_of<'a>(alloc: Global, text: &'a [u8]) -> Result<Option<Vec<LinePlace<'a>>>, AllocError>
    ensures { IfOk result (λ lines. option_map (λ v. map plain_line_place v.items) lines
        ≡ lines_with_image text.entry.now (assembled text.entry.now)) }
{
    match assemble(alloc, text) {
        Ok(image) => {
            let lines = line_places(alloc, text, &image)?;
            Ok(Some(lines))
        }
        Err(AsmFault::Source(_)) => Ok(None),
        Err(AsmFault::Memory) => Err(AllocError),
    }
}

/// The lines of the source of this name, where there is one, and it has an image.
fn lines_named<'a>(
    alloc: Global,
    sources: &[(&str, &'a [u8])],
    name: &str,
) -> Result<Option<Vec<LinePlace<'a>>>, AllocError>
    ensures { IfOk result (λ lines. option_map (λ v. map plain_line_place v.items) lines
        ≡ lines_named (sources_seen sources.now) name.now) }
{
    match text_named(sources, name) {
        Some(text) => lines_of(alloc, text),
        None => Ok(None),
    }
}

/// A part of a source, with the lines of that.
fn part_with<'a>(
    alloc: Global,
    sources: &[(&str, &'a [u8])],
    source: &'a Source,
) -> Result<Option<PageLines<'a>>, AllocError>
    ensures { IfOk result (λ page. option_map plain_page page
        ≡ page_with (sources_seen sources.now) (Some source.entry.now)) }
{
    let name = source.name.as_str();
    match lines_named(alloc, sources, name)? {
        Some(lines) => Ok(Some(PageLines {
            source: name,
            part: source.part,
            lines,
        })),
        None => Ok(None),
    }
}

/// A page, with the lines of its source, where it has one.
fn page_with<'a>(
    alloc: Global,
    sources: &[(&str, &'a [u8])],
    page: &'a PolicyPage,
) -> Result<Option<PageLines<'a>>, AllocError>
    ensures { IfOk result (λ placed. option_map plain_page placed
        ≡ page_with (sources_seen sources.now) page.entry.now.source) }
{
    match &page.source {
        Some(source) => part_with(alloc, sources, source),
        None => Ok(None),
    }
}

/// The pages of a policy with the lines of their sources: which line of which source stands at each
/// byte of a page, and the last label there. A page without a source has none, and so has one whose
/// source is not among these or has a fault.
pub fn pages_with<'a>(
    alloc: Global,
    sources: &[(&str, &'a [u8])],
    pages: &'a [PolicyPage],
) -> Result<Vec<Option<PageLines<'a>>>, AllocError>
    ensures { IfOk result (λ placed. plain_pages placed.items
        ≡ pages_with (sources_seen sources.now) pages.entry.now) }
{
    let mut placed = Vec::new(alloc);
    for page in pages {
        let lines = page_with(alloc, sources, page)?;
        placed.push(lines)?;
    }
    Ok(placed)
}
