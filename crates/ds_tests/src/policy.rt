//! What the words of an input say, where no row shows it.
use ds_policy::address_of;

/// Words, each with the address that it is, in decimal digits, or with nothing after the equals
/// sign.
const ADDRESSES: &str = "00000000=0
0041000a=4259850
89ABCDEF=2309737967
ffffFFFF=4294967295
=
0041000=
00041000a=
0041000g=
0041000/=
0x410000=
 0041000=
";

/// Whether the word of a line is the address that stands behind it.
fn is_address(line: &str) -> bool {
    match line.split_once('=') {
        Some((word, address)) => address_of(word.as_bytes()) == address.parse::<u32>().ok(),
        None => false,
    }
}

/// Whether each word is the address that stands behind it.
fn are_addresses() -> bool {
    let mut right = true;
    for line in ADDRESSES.lines() {
        right = is_address(line) && right;
    }
    right
}

#[test]
fn an_address_is_eight_hexadecimal_digits(rt: HostRuntime) {
    assert!(rt; are_addresses());
}
