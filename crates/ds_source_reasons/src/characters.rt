//! Characters of a text.
ghost use Rattle.std.specs.Prelude.{◌≡◌, ◌≤◌, ◌==◌, length, count_by};
ghost use Rattle.ds_asm.specs.Forms.{begins_with};
ghost use Rattle.ds_source_reasons.specs.Reasons.{has_byte};

/// Whether a text begins with this byte.
pub(crate) fn begins_with(c: u8, text: &[u8]) -> bool
    ensures { result ≡ begins_with c text.now }
{
    match text {
        [] => false,
        [first, ..] => *first == c,
    }
}

/// Whether a text has this byte.
pub(crate) fn has_byte(c: u8, text: &[u8]) -> bool
    ensures { result ≡ has_byte c text.now }
{
    text.iter().any(|b| *b == c)
}

/// How many commas a text has.
pub(crate) fn count_commas(text: &[u8]) -> usize
    ensures exact { result ≡ count_by (λ b. b == 44) text.now }
    ensures within { result ≤ length text.now }
{
    text.iter().filter(|b| **b == b',').count()
}
