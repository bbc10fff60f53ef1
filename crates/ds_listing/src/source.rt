//! The source of words.
ghost use Rattle.std.specs.Prelude.{◌≡◌, ◌≤◌, IfOk, Ok, length};
ghost use Rattle.std.specs.String.{string_bytes};
ghost use Rattle.ds_word.specs.Inner.Bytes.{bytes_of_words};
ghost use Rattle.ds_asm.specs.Assembly.{assembled};
ghost use Rattle.ds_listing.specs.Inner.Texts.{source_of};

use crate::line::push_word;
use std::alloc::{AllocError, Global};

/// The source of words: the text of each, as `push_word` adds it, on a line of its own. Where they
/// are no more than the 16,384 of an image, the source assembles to their bytes.
pub fn source_of_words(alloc: Global, words: &[u32]) -> Result<String, AllocError>
    ensures text { IfOk result (λ t. string_bytes t ≡ source_of words.now) }
    ensures back { length words.now ≤ 16384 → IfOk result (λ t.
        assembled (string_bytes t) ≡ Ok (bytes_of_words words.now)) }
{
    let mut text = String::new(alloc);
    for word in words {
        push_word(&mut text, *word)?;
        text.push('\n')?;
    }
    Ok(text)
}
