//! Packets that go out.
ghost use Rattle.std.specs.Prelude.{◌≡◌, ◌<◌, ◌+◌, ◌%◌, ◌^◌, ◌++◌, ◌∷◌, [], sum, OnOk, IfOk};
ghost use Rattle.ds_packets.specs.Framing.{escape, frame, hex_text};

use ds_text::lower_hex_digit;
use std::alloc::AllocError;

/// Adds bytes in hexadecimal digits, two each.
pub fn push_hex(out: &mut Vec<u8>, bytes: &[u8]) -> Result<(), AllocError>
    ensures { OnOk result (out.new.items ≡ out.old.items ++ hex_text bytes.now) }
{
    for byte in bytes {
        out.push(lower_hex_digit(*byte / 16))?;
        out.push(lower_hex_digit(*byte % 16))?;
    }
    Ok(())
}

/// Adds a byte of a text, and answers the sum with it.
fn push_summed(out: &mut Vec<u8>, total: u8, byte: u8) -> Result<u8, AllocError>
    ensures pushed { OnOk result (out.new.items ≡ out.old.items ++ byte ∷ []) }
    ensures sum { IfOk result (λ s. s ≡ (total + byte) % 2 ^ 8) }
{
    out.push(byte)?;
    Ok(total.wrapping_add(byte))
}

/// Adds a byte of data, escaped where that has to be, and answers the sum with it.
fn push_escaped(out: &mut Vec<u8>, total: u8, byte: u8) -> Result<u8, AllocError>
    ensures pushed { OnOk result (out.new.items ≡ out.old.items ++ escape byte) }
    ensures sum { IfOk result (λ s. s ≡ (total + sum (escape byte)) % 2 ^ 8) }
{
    if matches!(byte, b'#' | b'$' | b'*' | b'}') {
        let begun = push_summed(out, total, b'}')?;
        push_summed(out, begun, byte ^ 0x20)
    } else {
        push_summed(out, total, byte)
    }
}

/// Adds the packet of some data.
pub fn push_frame(out: &mut Vec<u8>, bytes: &[u8]) -> Result<(), AllocError>
    ensures { OnOk result (out.new.items ≡ out.old.items ++ frame bytes.now) }
{
    out.push(b'$')?;
    let mut total = 0;
    for byte in bytes {
        total = push_escaped(out, total, *byte)?;
    }
    out.push(b'#')?;
    out.push(lower_hex_digit(total / 16))?;
    out.push(lower_hex_digit(total % 16))?;
    Ok(())
}
