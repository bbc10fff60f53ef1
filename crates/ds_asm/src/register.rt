//! Registers of a source.
ghost use Rattle.std.specs.Prelude.{◌≡◌, ◌<◌, IfSome};
ghost use Rattle.ds_asm.specs.Registers.{register_numbered, register_of, system_register_of};

use crate::characters::is_digit;
use ds_text::register_named;

/// The number of a general register: `$` and a number from 0 to 31, or a name.
pub fn register_of(text: &[u8]) -> Option<u32>
    ensures exact { result ≡ register_of text.now }
    ensures below { IfSome result (λ n. n < 32) }
{
    match text {
        [b'$', name @ ..] => match register_numbered(name) {
            Some(number) => Some(number),
            None => register_named(name),
        },
        _ => None,
    }
}

/// The number of a register of the system coprocessor: `$` and a number from 0 to 31.
pub(crate) fn system_register_of(text: &[u8]) -> Option<u32>
    ensures exact { result ≡ system_register_of text.now }
    ensures below { IfSome result (λ n. n < 32) }
{
    match text {
        [b'$', number @ ..] => register_numbered(number),
        _ => None,
    }
}

/// 0 to 31 without leading zeros.
fn register_numbered(text: &[u8]) -> Option<u32>
    ensures exact { result ≡ register_numbered text.now }
    ensures below { IfSome result (λ n. n < 32) }
{
    match text {
        [c] if is_digit(*c) => Some(u32::from(*c) - 48),
        [c, d] if is_digit(*c) && is_digit(*d) && *c != b'0' => {
            let number = (u32::from(*c) - 48) * 10 + (u32::from(*d) - 48);
            if number < 32 { Some(number) } else { None }
        }
        _ => None,
    }
}
