//! Mnemonics of other processors, and what is said of them.
ghost use Rattle.std.specs.Prelude.{◌≡◌};
ghost use Rattle.ds_source_reasons.specs.Texts.{has_float_end, mnemonic_instead};

use crate::macros::{OTHERS, OTHERS_INSTEAD, instead_of, is_among};
use crate::texts::{
    AFTER_NO_MNEMONIC, OF_COPROCESSOR, OF_FLOATING_POINT, OF_MIPS_32, OF_MIPS_II, OF_MIPS_III,
    OF_MIPS_IV,
};

/// The instructions that came with MIPS II.
static MIPS_II: [&str; 23] = [
    "beql", "bgezall", "bgezl", "bgtzl", "blezl", "bltzall", "bltzl", "bnel", "ll", "sc", "sync",
    "teq", "teqi", "tge", "tgei", "tgeiu", "tgeu", "tlt", "tlti", "tltiu", "tltu", "tne", "tnei",
];

/// The instructions that came with MIPS III.
static MIPS_III: [&str; 31] = [
    "cache", "dadd", "daddi", "daddiu", "daddu", "ddiv", "ddivu", "dmfc0", "dmtc0", "dmult",
    "dmultu", "dsll", "dsll32", "dsllv", "dsra", "dsra32", "dsrav", "dsrl", "dsrl32", "dsrlv",
    "dsub", "dsubu", "ld", "ldl", "ldr", "lld", "lwu", "scd", "sd", "sdl", "sdr",
];

/// The instructions that came with MIPS IV.
static MIPS_IV: [&str; 6] = ["movf", "movn", "movt", "movz", "pref", "prefx"];

/// The instructions that came with MIPS32.
static MIPS_32: [&str; 23] = [
    "clo", "clz", "deret", "di", "ehb", "ei", "ext", "ins", "madd", "maddu", "msub", "msubu",
    "rdhwr", "rdpgpr", "rotr", "rotrv", "seb", "seh", "ssnop", "synci", "wait", "wrpgpr", "wsbh",
];

/// The instructions of the floating-point unit whose names don't tell it by their end.
static FLOATING_POINT: [&str; 18] = [
    "bc1f", "bc1fl", "bc1t", "bc1tl", "cfc1", "ctc1", "dmfc1", "dmtc1", "ldc1", "ldxc1", "lwc1",
    "lwxc1", "mfc1", "mtc1", "sdc1", "sdxc1", "swc1", "swxc1",
];

/// The instructions of coprocessors 2 and 3.
static COPROCESSORS: [&str; 18] = [
    "bc2f", "bc2t", "bc3f", "bc3t", "cfc2", "cfc3", "cop2", "cop3", "ctc2", "ctc3", "ldc2", "lwc2",
    "lwc3", "mfc2", "mtc2", "sdc2", "swc2", "swc3",
];

/// What is said after a word that is no mnemonic: which processors have it, or what is written in
/// its place.
#[tactic(auto, unfolding(crate::specs::Texts::mnemonic_instead))]
pub(crate) fn mnemonic_instead(name: &[u8]) -> &'static str
    ensures { result.now ≡ mnemonic_instead name.now }
{
    if is_among(MIPS_II.as_slice(), name) {
        OF_MIPS_II
    } else if is_among(MIPS_III.as_slice(), name) {
        OF_MIPS_III
    } else if is_among(MIPS_IV.as_slice(), name) {
        OF_MIPS_IV
    } else if is_among(MIPS_32.as_slice(), name) {
        OF_MIPS_32
    } else if is_among(FLOATING_POINT.as_slice(), name) || has_float_end(name) {
        OF_FLOATING_POINT
    } else if is_among(COPROCESSORS.as_slice(), name) {
        OF_COPROCESSOR
    } else {
        instead_of(
            OTHERS.as_slice(),
            OTHERS_INSTEAD.as_slice(),
            AFTER_NO_MNEMONIC,
            name,
        )
    }
}

/// Whether a word ends as the instructions do that compute with single, double or fixed numbers of
/// a floating-point unit.
fn has_float_end(name: &[u8]) -> bool
    ensures { result ≡ has_float_end name.now }
{
    name.ends_with(b".s") || name.ends_with(b".d") || name.ends_with(b".w")
}
