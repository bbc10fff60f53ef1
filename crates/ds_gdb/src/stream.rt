//! gdb's stream of bytes: what is written while they come.
ghost use Rattle.std.specs.Prelude.{◌≡◌, OnOk, Ok};
ghost use Rattle.ds_gdb.specs.Serving.{stream_of};
ghost use Rattle.ds_gdb.specs.Streams.{AnswersWords, acknowledges_after, ends_session};

use crate::target::Target;
use ds_packets::{Packet, Scanner};
use std::alloc::{AllocError, Global};
use std::marker::Model;

/// Whether packets are acknowledged after this one.
fn acknowledges_after(packet: Packet, before: bool) -> bool
    ensures { result ≡ acknowledges_after packet before }
{
    match packet {
        Packet::NoAcknowledgements => false,
        _ => before,
    }
}

/// Whether gdb ends the session by a packet.
fn ends_session(packet: Packet) -> bool
    ensures { result ≡ ends_session packet }
{
    match packet {
        Packet::End => true,
        _ => false,
    }
}

/// What answers gdb, packet by packet.
#[derive(Drop)]
pub(crate) struct Exchange<T: Target> {
    pub(crate) session: T,
    /// Whether packets are acknowledged.
    pub(crate) acknowledges: bool,
    /// Whether gdb has ended the session.
    pub(crate) ended: bool,
}

impl<T: Target> Model for Exchange<T> {
    ghost use Rattle.ds_gdb.specs.Streams.{ExchangeState};

    ghost Value = { ExchangeState T };

    ghost view = { λ e. record {
      session = e.session;
      acknowledges = e.acknowledges;
      ended = e.ended;
    } };
}

impl<T: Target> Exchange<T> {
    /// Answers a packet of these words.
    pub(crate) fn answer_words(
        &mut self,
        alloc: Global,
        words: &[u8],
        out: &mut Vec<u8>,
    ) -> Result<(), AllocError>
        ensures { OnOk result (AnswersWords T.answers words.now self.old self.new
            out.old.items out.new.items) }
    {
        self.session.reply(alloc, words, out)?;
        match Packet::of(words) {
            Ok(packet) => {
                self.acknowledges = acknowledges_after(packet, self.acknowledges);
                self.ended = ends_session(packet);
                Ok(())
            }
            Err(_) => Ok(()),
        }
    }
}

/// gdb's stream of bytes, with what answers it.
#[derive(Drop)]
pub struct Stream<T: Target> {
    pub(crate) scanner: Scanner,
    pub(crate) exchange: Exchange<T>,
}

impl<T: Target> Model for Stream<T> {
    ghost use Rattle.ds_gdb.specs.Streams.{StreamState};

    ghost Value = { StreamState T };

    ghost view = { λ s. record { scan = s.scanner; exchange = s.exchange } };
}

impl<T: Target> Stream<T> {
    /// The beginning of a stream. Packets are acknowledged, as long as gdb does not ask for silence.
    pub fn new(session: T) -> Stream<T>
        ensures { result ≡ stream_of session }
    {
        Stream {
            scanner: Scanner::new(),
            exchange: Exchange {
                session,
                acknowledges: true,
                ended: false,
            },
        }
    }

    /// Whether gdb has ended the session.
    pub fn is_ended(&self) -> bool
        ensures { result ≡ self.now.exchange.ended }
    {
        self.exchange.ended
    }
}
