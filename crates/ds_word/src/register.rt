//! The bits of a register's word.
ghost use Rattle.std.specs.Prelude.{◌≡◌, ◌<◌};
ghost use Rattle.ds_word.specs.Word.{bit};

/// The bit at a place, from 0 for the lowest, where it is set, else 0.
#[inline(always)]
#[tactic(auto, using(std::proofs::lemmas::Nat::one_shl))]
pub fn bit(at: u32, set: bool) -> u32
    requires { at < 32 }
    ensures { result ≡ bit at set }
{
    if set { 1 << at } else { 0 }
}
