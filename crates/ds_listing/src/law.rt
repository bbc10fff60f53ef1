//! That texts of words say the words.
ghost use Rattle.ds_listing.specs.Inner.Laws.{IsLineOf};
ghost use Rattle.ds_listing.specs.Texts.{text_of};

use ds_isa::round_trip;

/// The law that the text of a word is one line, which has no label and says the bytes of the word
/// wherever a word may stand in a source.
pub fn a_word_is_read_back(word: u32)
    ensures { IsLineOf (text_of word) word }
{
    round_trip(word);
}
