//! Numbers that are written in digits, in base 10 or 16.
ghost use Rattle.std.specs.Prelude.{◌≡◌, ◌<◌, ◌≤◌, ◌^◌, IfSome};
ghost use Rattle.ds_word.specs.Digits.{digit_of, digits_from};

/// The number that digits write, the highest first, where it is not above the limit. Letters are of
/// either case. No digit at all writes 0. `None` where a character is no digit, or the number is above
/// the limit.
pub fn number_of_digits(base: u64, limit: u64, digits: &[u8]) -> Option<u64>
    requires base { base ≤ 16 }
    requires limit { limit < 2 ^ 59 }
    ensures value { result ≡ digits_from base limit 0 digits.now }
    ensures within { IfSome result (λ n. n ≤ limit) }
{
    let mut n = 0;
    for c in digits {
        match digit_of(base, *c) {
            Some(digit) => {
                let next = n * base + digit;
                if next > limit {
                    return None;
                }
                n = next;
            }
            None => return None,
        }
    }
    Some(n)
}

/// What a digit stands for: a decimal digit in either base, a letter up to F, of either case, in base
/// 16 alone.
pub fn digit_of(base: u64, c: u8) -> Option<u64>
    ensures exact { result ≡ digit_of base c }
    ensures below { IfSome result (λ d. d < 16) }
{
    match c {
        b'0'..=b'9' => Some(u64::from(c) - 48),
        b'A'..=b'F' if base == 16 => Some(u64::from(c) - 55),
        b'a'..=b'f' if base == 16 => Some(u64::from(c) - 87),
        _ => None,
    }
}
