//! Answers that are the same, whatever gdb debugs.
ghost use Rattle.std.specs.Prelude.{◌≡◌, ◌++◌, OnOk};
ghost use Rattle.ds_packets.specs.Framing.{frame};
ghost use Rattle.ds_gdb.specs.Replies as replies;
ghost use Rattle.ds_gdb.specs.Replies.{basic_features, bytes_text, features_text, packet_error_text, time_words};

use ds_packets::{Refusal, push_frame, push_hex};
use ds_text::sheet::push_decimal;
use std::alloc::AllocError;

/// The most bytes of memory that are told at once.
const MOST_BYTES: u32 = 2048;

/// Adds what can be asked in any case.
#[tactic(auto, unfolding(crate::specs::Replies::basic_features))]
fn push_basic(text: &mut Vec<u8>) -> Result<(), AllocError>
    ensures { OnOk result (text.new.items ≡ text.old.items ++ basic_features) }
{
    text.extend_from_slice(
        b"PacketSize=1000;ReverseStep+;ReverseContinue+;vContSupported+;QStartNoAckMode+;swbreak+;qXfer:features:read+",
    )
}

/// Adds what can be asked, where gdb has several processes or only one.
pub fn push_features(text: &mut Vec<u8>, multiple: bool) -> Result<(), AllocError>
    ensures { OnOk result (text.new.items ≡ text.old.items ++ features_text multiple) }
{
    push_basic(text)?;
    if multiple {
        text.extend_from_slice(b";multiprocess+")
    } else {
        Ok(())
    }
}

/// Adds the error of a packet that is not known, which is empty, or malformed.
pub fn push_refusal(out: &mut Vec<u8>, refusal: Refusal) -> Result<(), AllocError>
    ensures { OnOk result (out.new.items ≡ out.old.items ++ frame (packet_error_text refusal)) }
{
    match refusal {
        Refusal::Unknown => push_frame(out, &[]),
        Refusal::Malformed => push_frame(out, b"E16"),
    }
}

/// So many bytes as are told at once.
pub fn few(count: u32) -> u32
    ensures { result ≡ replies.few count }
{
    if count < MOST_BYTES {
        count
    } else {
        MOST_BYTES
    }
}

/// Adds bytes of memory, or the error where there is none.
pub fn push_bytes(text: &mut Vec<u8>, bytes: &[u8]) -> Result<(), AllocError>
    ensures { OnOk result (text.new.items ≡ text.old.items ++ bytes_text bytes.now) }
{
    match bytes {
        [] => text.extend_from_slice(b"E14"),
        _ => push_hex(text, bytes),
    }
}

/// Adds how far a run for `n` has come, and whether it goes on.
pub fn push_time_words(text: &mut Vec<u8>, time: u64, n: u64, going: bool) -> Result<(), AllocError>
    ensures { OnOk result (text.new.items ≡ text.old.items ++ time_words time n going) }
{
    text.extend_from_slice(b"time ")?;
    push_decimal(text, time)?;
    text.extend_from_slice(b" of ")?;
    push_decimal(text, n)?;
    let end: &[u8] = if going {
        b", goes on\n"
    } else {
        b", is over\n"
    };
    text.extend_from_slice(end)
}
