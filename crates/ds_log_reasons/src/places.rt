//! The pages of a policy, with the lines of the sources whose parts they have.
ghost use Rattle.std.specs.Prelude.{◌≡◌, IfOk, Some, bytes_eq, map, option_map, position, slice_get};
ghost use Rattle.ds_check.specs.Inner.Starts.{assembled};
ghost use Rattle.ds_listing.specs.Listing.{rows_of};
ghost use Rattle.ds_listing.specs.Pages.{plain_page, plain_pages};
ghost use Rattle.ds_listing.specs.Places.{plain_line_place, line_places_of};
ghost use Rattle.ds_log_reasons.specs.Places.{lines_between, lines_in, page_with, pages_with};

use ds_asm::Image;
use ds_check::AssembledSources;
use ds_listing::{LinePlace, PageLines, line_places};
use ds_policy::{PolicyPage, Source};
use std::alloc::{AllocError, Global};

fn place_of_name(sources: &[(&str, &[u8])], name: &str) -> Option<usize>
    ensures { result ≡ position (λ s. bytes_eq s.0.now name.now) sources.now }
{
    sources.iter().position(|source| source.0 == name)
}

fn text_at<'a>(sources: &[(&str, &'a [u8])], index: usize) -> Option<&'a [u8]>
    ensures { option_map (λ t. t.now) result
        ≡ option_map (λ s. s.1.now) (slice_get sources.now index) }
{
    match sources.get(index) {
        Some((_, text)) => Some(text),
        None => None,
    }
}

fn image_at(images: &[Image], index: usize) -> Option<&Image>
    ensures { option_map (λ i. i.now) result ≡ slice_get images.now index }
{
    images.get(index)
}

/// The lines of a text with an image, where both are there.
fn lines_between<'a>(
    alloc: Global,
    text: Option<&'a [u8]>,
    image: Option<&Image>,
) -> Result<Option<Vec<LinePlace<'a>>>, AllocError>
    ensures { IfOk result (λ lines. option_map (λ v. map plain_line_place v.items) lines
        ≡ lines_between (option_map (λ t. t.now) text.entry)
        (option_map (λ i. i.now) image.entry)) }
{
    match text {
        Some(text) => match image {
            Some(image) => Ok(Some(line_places(alloc, text, image)?)),
            None => Ok(None),
        },
        None => Ok(None),
    }
}

/// The lines of the source of this name, where there is one.
#[tactic(auto, using(crate::proofs::Sources::no_name, crate::proofs::Sources::at_index))]
fn lines_in<'a>(
    alloc: Global,
    sources: AssembledSources<'a>,
    name: &str,
) -> Result<Option<Vec<LinePlace<'a>>>, AllocError>
    ensures { IfOk result (λ lines. option_map (λ v. map plain_line_place v.items) lines
        ≡ lines_in (assembled sources.entry) name.now) }
{
    match place_of_name(sources.sources, name) {
        Some(index) => lines_between(
            alloc,
            text_at(sources.sources, index),
            image_at(sources.images, index),
        ),
        None => Ok(None),
    }
}

/// A part of a source, with the lines of that.
fn part_with<'a>(
    alloc: Global,
    sources: AssembledSources<'a>,
    source: &'a Source,
) -> Result<Option<PageLines<'a>>, AllocError>
    ensures { IfOk result (λ page. option_map plain_page page
        ≡ page_with (assembled sources.entry) (Some source.entry.now)) }
{
    let name = source.name.as_str();
    match lines_in(alloc, sources, name)? {
        Some(lines) => Ok(Some(PageLines {
            source: name,
            part: source.part,
            lines,
        })),
        None => Ok(None),
    }
}

/// A page, with the lines of its source, where it has one.
fn page_with<'a>(
    alloc: Global,
    sources: AssembledSources<'a>,
    page: &'a PolicyPage,
) -> Result<Option<PageLines<'a>>, AllocError>
    ensures { IfOk result (λ placed. option_map plain_page placed
        ≡ page_with (assembled sources.entry) page.entry.now.source) }
{
    match &page.source {
        Some(source) => part_with(alloc, sources, source),
        None => Ok(None),
    }
}

/// The pages of a policy with the lines of their sources. A page without a source has none, and so has
/// one whose source is not among these.
pub fn pages_with<'a>(
    alloc: Global,
    sources: AssembledSources<'a>,
    pages: &'a [PolicyPage],
) -> Result<Vec<Option<PageLines<'a>>>, AllocError>
    ensures { IfOk result (λ placed. plain_pages placed.items
        ≡ pages_with (assembled sources.entry) pages.entry.now) }
{
    let mut placed = Vec::new(alloc);
    for page in pages {
        let lines = page_with(alloc, sources, page)?;
        placed.push(lines)?;
    }
    Ok(placed)
}
