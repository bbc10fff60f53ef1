//! Names by their places in a list, those of registers among them.
ghost use Rattle.std.specs.Prelude.{◌≡◌, ◌<◌, bytes_eq, IfSome, length, map, position, slice_get, unwrap_or};
ghost use Rattle.ds_text.specs.Names.{register_name, register_named};

/// The names of the registers 0 to 31.
static NAMES: [&str; 32] = [
    "zero", "at", "v0", "v1", "a0", "a1", "a2", "a3", "t0", "t1", "t2", "t3", "t4", "t5", "t6",
    "t7", "s0", "s1", "s2", "s3", "s4", "s5", "s6", "s7", "t8", "t9", "k0", "k1", "gp", "sp", "fp",
    "ra",
];

/// The place of a name among names, from 0 on.
pub fn place_among(names: &[&str], name: &[u8]) -> Option<usize>
    ensures exact { result ≡ position (λ n. bytes_eq n.now name.now) names.now }
    ensures below { IfSome result (λ place. place < length names.now) }
{
    names.iter().position(|n| n.as_bytes() == name)
}

/// The text at a place, or another where there is none.
#[tactic(auto, using(crate::proofs::LentTexts::text_some, crate::proofs::LentTexts::text_none))]
pub fn text_at(texts: &[&'static str], place: usize, other: &'static str) -> &'static str
    ensures { result.now ≡ unwrap_or (slice_get (map (λ t. t.now) texts.now) place) other.now }
{
    match texts.get(place) {
        Some(text) => text,
        None => other,
    }
}

/// The common name of a register; an empty one past 31.
pub fn register_name(number: usize) -> &'static str
    ensures { result.now ≡ register_name number }
{
    text_at(NAMES.as_slice(), number, "")
}

/// The number of the register that has this name.
pub fn register_named(name: &[u8]) -> Option<u32>
    ensures exact { result ≡ register_named name.now }
    ensures below { IfSome result (λ n. n < 32) }
{
    let place = place_among(NAMES.as_slice(), name)?;
    Some(place as u32)
}
