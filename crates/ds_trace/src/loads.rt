//! The address from which a load loads.
ghost use Rattle.std.specs.Prelude.{◌≡◌};
ghost use Rattle.ds_trace.specs.Loads.{is_linked, load_reach, loaded_at, slot_loaded_at, unlinked};

use crate::stores::{Reach, stored_at};
use ds_isa::{Instr, decode, links};

/// The base and the offset of an instruction that loads.
fn load_reach(instr: &Instr) -> Option<Reach>
    ensures { result ≡ load_reach instr.now }
{
    match *instr {
        Instr::Lb { rs, immediate, .. }
        | Instr::Lh { rs, immediate, .. }
        | Instr::Lwl { rs, immediate, .. }
        | Instr::Lw { rs, immediate, .. }
        | Instr::Lbu { rs, immediate, .. }
        | Instr::Lhu { rs, immediate, .. }
        | Instr::Lwr { rs, immediate, .. } => Some(Reach {
            base: rs,
            offset: immediate,
        }),
        _ => None,
    }
}

/// The address of the word from which an instruction loads, by what the registers hold before it;
/// none where a touch may change its base.
pub(crate) fn loaded_at(general: &[u32; 32], word: Option<u32>) -> Option<u32>
    ensures { result ≡ loaded_at general.now word }
{
    match word {
        Some(word) => stored_at(general, load_reach(&decode(word))),
        None => None,
    }
}

/// Whether a branch links this register.
fn is_linked(link: Option<u8>, register: u8) -> bool
    ensures { result ≡ is_linked link register }
{
    match link {
        Some(link) => link == register,
        None => false,
    }
}

/// A base that a branch before it does not link.
fn unlinked(link: Option<u8>, reach: Option<Reach>) -> Option<Reach>
    ensures { result ≡ unlinked link reach }
{
    match reach {
        Some(reach) => {
            if is_linked(link, reach.base) {
                None
            } else {
                Some(reach)
            }
        }
        None => None,
    }
}

/// The same of the instruction in a slot, by what the registers hold before its branch; none where the
/// branch links its base.
pub(crate) fn slot_loaded_at(
    general: &[u32; 32],
    word: Option<u32>,
    slot: Option<u32>,
) -> Option<u32>
    ensures { result ≡ slot_loaded_at general.now word slot }
{
    match word {
        Some(word) => match slot {
            Some(slot) => {
                let reach = unlinked(links(&decode(word)), load_reach(&decode(slot)));
                stored_at(general, reach)
            }
            None => None,
        },
        None => None,
    }
}
