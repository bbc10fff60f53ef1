//! A file's name as it is shown, in one line and without control characters.
ghost use Rattle.std.specs.Prelude.{OnErr, OnOk, is_err};
ghost use Rattle.std.specs.Io.KnownBytes.{Appends};
ghost use Rattle.ds_drive.specs.Names.{shown_byte, shown_name};
ghost use Rattle.ds_text.specs.Sent.{AppendsPart, IsAskedOnce};

use ds_text::{Output, WriteFailed, lower_hex_digit, send};

/// Hands a byte of a name to the writer, or what is shown of it where it is a control character.
fn send_byte<O: Output>(out: &mut O, byte: u8) -> Result<(), WriteFailed>
    ensures ok { OnOk result
        (Appends (O.contents out.old) (O.contents out.new) (shown_byte byte)) }
    ensures err { OnErr result
        (AppendsPart (O.contents out.old) (O.contents out.new) (shown_byte byte)) }
    ensures once { IsAskedOnce (O.answers out.old) (O.answers out.new) (is_err result) }
{
    if byte == b'\n' {
        return send(out, b"\\n");
    }
    if byte < 32 || byte == 127 {
        return send(
            out,
            &[
                b'\\',
                b'x',
                lower_hex_digit(byte / 16),
                lower_hex_digit(byte % 16),
            ],
        );
    }
    send(out, &[byte])
}

/// Hands a name to the writer as it is shown.
#[tactic(auto, unfolding(crate::specs::Names::shown_name), using(ds_text::proofs::Sends::asked_both, ds_bare::proofs::CutBetween::asked_none))]
pub(crate) fn send_name<O: Output>(out: &mut O, name: &[u8]) -> Result<(), WriteFailed>
    ensures ok { OnOk result
        (Appends (O.contents out.old) (O.contents out.new) (shown_name name.now)) }
    ensures err { OnErr result
        (AppendsPart (O.contents out.old) (O.contents out.new) (shown_name name.now)) }
    ensures once { IsAskedOnce (O.answers out.old) (O.answers out.new) (is_err result) }
{
    for byte in name {
        send_byte(out, *byte)?;
    }
    Ok(())
}
