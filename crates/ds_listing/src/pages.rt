//! Pages, with where their bytes stand in sources.
ghost use Rattle.std.specs.Prelude.{◌≡◌, ◌++◌, OnOk, option_map};
ghost use Rattle.ds_listing.specs.Pages.{byte_in, page_at, address_place, place_of_address, plain_page, plain_pages};

use crate::places::{LinePlace, line_of_byte, push_place};
use std::alloc::AllocError;

/// A page that has a part of an image, with the lines of its source.
#[derive(Drop)]
pub struct PageLines<'a> {
    /// The name of the source.
    pub source: &'a str,
    /// Which part of the image it has, from 0.
    pub part: u8,
    /// The lines of the source.
    pub lines: Vec<LinePlace<'a>>,
}

impl<'a> PageLines<'a> {
    /// The byte of the image at an address within this page.
    fn byte(&self, address: u32) -> u32
        ensures { result ≡ byte_in (plain_page self.now) address }
    {
        4096 * u32::from(self.part) + address % 4096
    }

    /// Adds where an address within this page stands in its source.
    fn push_place(&self, text: &mut Vec<u8>, address: u32) -> Result<(), AllocError>
        ensures { OnOk result
            (text.new.items ≡ text.old.items ++ address_place (plain_page self.now) address) }
    {
        let byte = self.byte(address);
        let line = line_of_byte(self.lines.as_slice(), byte);
        push_place(text, self.source, byte, line)
    }
}

/// The page of this number that has a part of an image.
#[tactic(auto, using(crate::proofs::PlacedPages::page_some, crate::proofs::PlacedPages::page_none))]
fn page_at<'a, 'b>(
    pages: &'b [Option<PageLines<'a>>],
    number: Option<u32>,
) -> Option<&'b PageLines<'a>>
    ensures { option_map (λ page. plain_page page.now) result
        ≡ page_at (plain_pages pages.entry.now) number }
{
    let number = number?;
    match pages.get(number as usize) {
        Some(page) => page.as_ref(),
        None => None,
    }
}

/// Adds where an address within the page of this number stands in its source: the name of the source
/// with the number of the line, and the last label with how far the address lies past it. Where there is
/// no such page, or it has no part of an image, nothing.
pub fn push_address_place(
    text: &mut Vec<u8>,
    pages: &[Option<PageLines<'_>>],
    number: Option<u32>,
    address: u32,
) -> Result<(), AllocError>
    ensures { OnOk result (text.new.items
        ≡ text.old.items ++ place_of_address (plain_pages pages.now) number address) }
{
    match page_at(pages, number) {
        Some(page) => page.push_place(text, address),
        None => Ok(()),
    }
}
