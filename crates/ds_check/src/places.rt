//! Places in a text, and where one is no TOML document.
ghost use Rattle.std.specs.Prelude.{ℕ, ◌≡◌, ◌≤◌, length, not, is_some, IfOk, IfSome};
ghost use Rattle.std.specs.List.{fold};
ghost use Rattle.ds_policy.specs.Document.{document};
ghost use Rattle.ds_check.specs.Places.{place_at, next_place, is_continuation};

use ds_policy::OutOfMemory;
use std::alloc::Global;

/// A place in a text: a line and a column in characters, both from 1.
#[derive(Clone, Copy, Debug, PartialEq, Eq)]
pub struct Place {
    pub line: u64,
    pub column: u64,
}

/// Where a text is no TOML document: where the fault begins that the library tells. A document has
/// no such place.
pub fn toml_place(alloc: Global, text: &[u8]) -> Result<Option<Place>, OutOfMemory>
    requires { length text.now ≤ 16777216 }
    ensures refused { IfOk result (λ o. is_some o ≡ not (is_some (document text.now))) }
    ensures place { IfOk result (λ o. IfSome o
        (λ p. (n : ℕ) × (n ≤ length text.now) × (p ≡ place_at text.now n))) }
{
    match toml::table_from_slice(alloc, text) {
        Ok(_) => Ok(None),
        Err(fault) => match fault.span() {
            Some(span) => Ok(Some(place_after(&text[..span.start]))),
            None => Err(OutOfMemory),
        },
    }
}

/// The place after a text.
fn place_after(before: &[u8]) -> Place
    requires { length before.now ≤ 16777216 }
    ensures { result ≡ fold next_place (record { line = 1; column = 1 }) before.now }
{
    let mut place = Place { line: 1, column: 1 };
    for byte in before {
        place = next_place(place, *byte);
    }
    place
}

/// The place after a byte.
pub(crate) fn next_place(place: Place, byte: u8) -> Place
    requires line { place.line ≤ 16777216 }
    requires column { place.column ≤ 16777216 }
    ensures { result ≡ next_place place byte }
{
    if byte == b'\n' {
        Place {
            line: place.line + 1,
            column: 1,
        }
    } else if is_continuation(byte) {
        place
    } else {
        Place {
            line: place.line,
            column: place.column + 1,
        }
    }
}

/// Whether a byte goes on with a character of UTF-8.
pub(crate) fn is_continuation(byte: u8) -> bool
    ensures { result ≡ is_continuation byte }
{
    byte >= 0x80 && byte <= 0xBF
}
