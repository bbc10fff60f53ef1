//! Texts that gdb shows its user.
ghost use Rattle.std.specs.Prelude.{◌≡◌, ◌<◌, ◌+◌, ◌*◌, ◌/◌, ◌++◌, OnOk, length, take};
ghost use Rattle.ds_gdb.specs.Outputs.{output_frame, outputs_text, piece_of};

use ds_packets::{push_frame, push_hex};
use std::alloc::{AllocError, Global};

/// The most bytes of a piece.
const PIECE: usize = 1000;

/// The first piece of what is left.
fn first_piece(left: &[u8]) -> &[u8]
    ensures { result.now ≡ take 1000 left.now }
{
    if left.len() <= PIECE {
        left
    } else {
        &left[..PIECE]
    }
}

/// A piece of a text, after so many others.
fn piece_of(text: &[u8], index: usize) -> &[u8]
    requires { 1000 * index < length text.now }
    ensures { result.now ≡ piece_of text.now index }
{
    first_piece(&text[PIECE * index..])
}

/// Adds the packet of a piece.
fn push_output(alloc: Global, out: &mut Vec<u8>, piece: &[u8]) -> Result<(), AllocError>
    ensures { OnOk result (out.new.items ≡ out.old.items ++ output_frame piece.now) }
{
    let mut bytes = Vec::new(alloc);
    bytes.push(b'O')?;
    push_hex(&mut bytes, piece)?;
    push_frame(out, bytes.as_slice())
}

/// Adds the packets of a text.
pub fn push_outputs(alloc: Global, out: &mut Vec<u8>, text: &[u8]) -> Result<(), AllocError>
    ensures { OnOk result (out.new.items ≡ out.old.items ++ outputs_text text.now) }
{
    for index in 0..(text.len() + 999) / PIECE {
        push_output(alloc, out, piece_of(text, index))?;
    }
    Ok(())
}
