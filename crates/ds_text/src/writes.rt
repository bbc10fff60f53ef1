//! Bytes on their way to a writer: all of them, or a prefix of them and a failure.
ghost use Rattle.std.specs.Prelude.{ℕ, List, Option, None, OnOk, OnErr, flat_map, is_err};
ghost use Rattle.std.specs.Io.{WritesAtMost};
ghost use Rattle.std.specs.Io.KnownBytes.{Appends, WriteAppends};
ghost use Rattle.ds_text.specs.Sent.{WriterAnswers, AppendsPart, HasAnswered, IsAskedOnce, takes_nothing};

use std::io;
use std::io::Write;
use thiserror::Error;

/// A write failed, or took nothing: the text did not go out whole.
#[derive(Debug, Clone, Copy, PartialEq, Eq, Error)]
#[error("the text could not be written")]
pub struct WriteFailed;

/// A place that bytes go to. Each writer is one. A type of another kind may count its answers too, and
/// of it a contract says that it is not asked again once it took nothing.
pub trait Output {
    /// The bytes that it holds, where they are known.
    ghost contents: { Self → Option (List ℕ) } = { λ _. None };

    /// What it has answered so far, where its answers are counted.
    ghost answers: { Self → Option WriterAnswers } = { λ _. None };

    /// Takes some of these bytes, from the first on, and answers how many.
    fn take(&mut self, bytes: &[u8]) -> io::Result<usize>
        ensures bound { WritesAtMost result bytes.now }
        ensures bytes { WriteAppends (contents self.old) (contents self.new) result bytes.now }
        ensures counted { HasAnswered (answers self.old) (answers self.new) (takes_nothing result) };
}

impl<W: Write> Output for W {
    ghost contents = { λ w. W.contents w };

    fn take(&mut self, bytes: &[u8]) -> io::Result<usize> {
        Write::write(self, bytes)
    }
}

/// Hands bytes to a place, in as many turns as it takes. Where it answers by an error, or takes nothing,
/// it is `WriteFailed`: the place has taken a prefix of them, and was not asked again.
pub fn send<O: Output>(out: &mut O, text: &[u8]) -> Result<(), WriteFailed>
    ensures ok { OnOk result (Appends (O.contents out.old) (O.contents out.new) text.now) }
    ensures err { OnErr result (AppendsPart (O.contents out.old) (O.contents out.new) text.now) }
    ensures once { IsAskedOnce (O.answers out.old) (O.answers out.new) (is_err result) }
{
    let mut sent = 0;
    while sent < text.len() {
        match out.take(&text[sent..]) {
            Ok(0) => return Err(WriteFailed),
            Ok(n) => sent += n,
            Err(_) => return Err(WriteFailed),
        }
    }
    Ok(())
}

/// Hands the pieces of a text to a place, one after another, as `send` hands the whole.
#[tactic(auto, using(crate::proofs::Sends::asked_both))]
pub fn send_all<O: Output>(out: &mut O, pieces: &[&[u8]]) -> Result<(), WriteFailed>
    ensures ok { OnOk result
        (Appends (O.contents out.old) (O.contents out.new) (flat_map (λ p. p.now) pieces.now)) }
    ensures err { OnErr result
        (AppendsPart (O.contents out.old) (O.contents out.new) (flat_map (λ p. p.now) pieces.now)) }
    ensures once { IsAskedOnce (O.answers out.old) (O.answers out.new) (is_err result) }
{
    for piece in pieces {
        send(out, piece)?;
    }
    Ok(())
}
