//! Signs and signed order of words.
ghost use Rattle.std.specs.Prelude.{◌≡◌};
ghost use Rattle.ds_word.specs.Word.{is_negative, signed_lt};

/// Whether the word's sign, its top bit, is set.
#[inline(always)]
pub fn is_negative(word: u32) -> bool
    ensures { result ≡ is_negative word }
{
    word >= 0x8000_0000
}

/// Whether one word is less than another, both signed: the unsigned order with the top bits
/// flipped.
#[inline(always)]
pub fn signed_less(a: u32, b: u32) -> bool
    ensures { result ≡ signed_lt a b }
{
    a.wrapping_add(0x8000_0000) < b.wrapping_add(0x8000_0000)
}
