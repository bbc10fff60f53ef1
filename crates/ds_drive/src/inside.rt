//! Which names of sources lead out of the folder in which they are looked up.
ghost use Rattle.std.specs.Prelude.{◌≡◌};
ghost use Rattle.ds_drive.specs.Inside.{begins_up, goes_up, is_rooted, leads_out, outside_of};

use ds_policy::Text;

/// Whether the first part of a name is `..`.
fn begins_up(name: &[u8]) -> bool
    ensures { result ≡ begins_up name.now }
{
    match name {
        [a, b] => *a == b'.' && *b == b'.',
        [a, b, c, ..] => *a == b'.' && *b == b'.' && *c == b'/',
        _ => false,
    }
}

/// Whether a part of a name after its first is `..`.
fn goes_up(name: &[u8]) -> bool
    ensures { result ≡ goes_up name.now }
{
    let mut left = name;
    while let [first, rest @ ..] = left {
        if *first == b'/' && begins_up(rest) {
            return true;
        }
        left = rest;
    }
    false
}

/// Whether a name begins with `/`.
fn is_rooted(name: &[u8]) -> bool
    ensures { result ≡ is_rooted name.now }
{
    match name {
        [first, ..] => *first == b'/',
        [] => false,
    }
}

/// Whether a name begins with `/`, or has a part that is `..`.
fn leads_out(name: &str) -> bool
    ensures { result ≡ leads_out name.now }
{
    let name = name.as_bytes();
    is_rooted(name) || begins_up(name) || goes_up(name)
}

/// Of these sources, where all have to be inside the folder, the first whose name leads out of it.
pub(crate) fn outside_of(names: &[Text<64>], inside: bool) -> Option<Text<64>>
    ensures { result ≡ outside_of inside names.now }
{
    let mut left = names;
    while let [first, rest @ ..] = left {
        if inside && leads_out(first.as_str()) {
            return Some(Text::of(first.as_str()));
        }
        left = rest;
    }
    None
}
