//! A session with gdb over a reader and a writer.
ghost use Rattle.std.specs.Prelude.{◌∷◌, [], IfOk, IfSome, OnErr, OnOk};
ghost use Rattle.std.specs.Io.KnownBytes.{Appends};
ghost use Rattle.ds_text.specs.Sent.{AppendsPart};
ghost use Rattle.ds_packets.specs.Streams.{as_list};
ghost use Rattle.ds_gdb.specs.Serving.{EndsSo, ServedPart, Serves, ServesPart, WritesSo, pipes};
ghost use Rattle.ds_gdb.specs.Inner.Serving.{IsCutAt, IsCutIn};
ghost use Rattle.ds_gdb.specs.Streams.{Hears, HearsAll, HearsWords, mark_text};

use crate::stream::{Exchange, Stream};
use crate::target::Target;
use ds_packets::{Data, PacketFault};
use ds_text::send;
use std::alloc::Global;
use std::io::{ErrorKind, Read, Write};

/// How a session ended that was not cut short.
#[derive(Clone, Copy, Debug, PartialEq, Eq)]
pub enum Ending {
    /// gdb has ended it, or nothing is left to be read.
    Over,
    /// A read failed.
    Unread,
}

/// Why a session was cut short.
#[derive(Clone, Copy, Debug, PartialEq, Eq)]
pub enum Cut {
    /// A write failed, or took nothing.
    WriteFault,
    /// Memory ran out.
    Memory,
}

/// The most bytes that are read at once.
const CHUNK: usize = 1024;

/// Writes a text, and sees to it that it goes out now.
fn send_now<W: Write>(out: &mut W, text: &[u8]) -> Result<(), Cut>
    ensures ok { OnOk result (Appends (W.contents out.old) (W.contents out.new) text.now) }
    ensures err { OnErr result
        (AppendsPart (W.contents out.old) (W.contents out.new) text.now) }
{
    match send(out, text) {
        Ok(()) => {}
        Err(_) => return Err(Cut::WriteFault),
    }
    match out.flush() {
        Ok(()) => Ok(()),
        Err(_) => Err(Cut::WriteFault),
    }
}

/// Writes the mark by which a packet is acknowledged, or refused, where that is asked.
fn send_mark<W: Write>(out: &mut W, acknowledges: bool, mark: u8) -> Result<(), Cut>
    ensures ok { OnOk result
        (Appends (W.contents out.old) (W.contents out.new) (mark_text acknowledges mark)) }
    ensures err { OnErr result
        (AppendsPart (W.contents out.old) (W.contents out.new) (mark_text acknowledges mark)) }
{
    if acknowledges {
        send_now(out, &[mark])
    } else {
        Ok(())
    }
}

impl<T: Target> Exchange<T> {
    /// Acknowledges a packet of these words, and then answers it.
    fn serve_words<W: Write>(&mut self, alloc: Global, words: &[u8], out: &mut W) -> Result<(), Cut>
        ensures ok { OnOk result (WritesSo (HearsWords T.answers words.now self.old self.new [])
            (W.contents out.old) (W.contents out.new)) }
        ensures err { OnErr result (IsCutAt T.answers words.now self.old
            (W.contents out.old) (W.contents out.new)) }
    {
        match send_mark(out, self.acknowledges, b'+') {
            Ok(()) => {}
            Err(cut) => return Err(cut),
        }
        let mut text = Vec::new(alloc);
        match self.answer_words(alloc, words, &mut text) {
            Ok(()) => {}
            Err(_) => return Err(Cut::Memory),
        }
        send_now(out, &text)
    }

    /// Answers a packet that came, or refuses what came and is none. Where the session has ended
    /// nothing is heard.
    fn serve_item<W: Write>(
        &mut self,
        alloc: Global,
        item: Result<Data, PacketFault>,
        out: &mut W,
    ) -> Result<(), Cut>
        ensures ok { OnOk result (WritesSo (HearsAll T.answers (item ∷ []) self.old self.new [])
            (W.contents out.old) (W.contents out.new)) }
        ensures err { OnErr result (IsCutIn T.answers (item ∷ []) self.old
            (W.contents out.old) (W.contents out.new)) }
    {
        if self.ended {
            return Ok(());
        }
        match item {
            Ok(words) => self.serve_words(alloc, words.as_slice(), out),
            Err(_) => send_mark(out, self.acknowledges, b'-'),
        }
    }

    /// Answers what came with a byte, if something did.
    fn serve_came<W: Write>(
        &mut self,
        alloc: Global,
        came: Option<Result<Data, PacketFault>>,
        out: &mut W,
    ) -> Result<(), Cut>
        ensures ok { OnOk result (WritesSo (HearsAll T.answers (as_list came) self.old self.new [])
            (W.contents out.old) (W.contents out.new)) }
        ensures err { OnErr result (IsCutIn T.answers (as_list came) self.old
            (W.contents out.old) (W.contents out.new)) }
    {
        match came {
            Some(item) => self.serve_item(alloc, item, out),
            None => Ok(()),
        }
    }
}

impl<T: Target> Stream<T> {
    /// Takes the next bytes of the stream, however it is cut, and writes what is to be written while they come: each packet
    /// is acknowledged and answered, what is none is refused by `-`, other bytes are passed over, and of
    /// a packet that is not whole nothing is said yet. The acknowledgement of a packet goes out before the packet is answered, which may take long.
    pub fn serve<W: Write>(&mut self, alloc: Global, bytes: &[u8], out: &mut W) -> Result<(), Cut>
        ensures ok { OnOk result (WritesSo (Hears T.answers bytes.now self.old self.new [])
            (W.contents out.old) (W.contents out.new)) }
        ensures err { OnErr result (ServedPart T.answers bytes.now self.old
            (W.contents out.old) (W.contents out.new)) }
    {
        for byte in bytes {
            let came = self.scanner.take(*byte);
            match self.exchange.serve_came(alloc, came, out) {
                Ok(()) => {}
                Err(cut) => return Err(cut),
            }
        }
        Ok(())
    }

    /// Reads some bytes and answers them. It answers how the session ends, where it does.
    fn serve_some<R: Read, W: Write>(
        &mut self,
        alloc: Global,
        reader: &mut R,
        out: &mut W,
    ) -> Result<Option<Ending>, Cut>
        ensures ok { OnOk result (Serves T.answers self.old self.new (pipes
            (R.remaining reader.old) (R.remaining reader.new) (W.contents out.old)
            (W.contents out.new))) }
        ensures ending { IfOk result (λ ending. IfSome ending (λ e. EndsSo e self.new
            (pipes (R.remaining reader.old) (R.remaining reader.new) (W.contents out.old)
            (W.contents out.new)))) }
        ensures err { OnErr result (ServesPart T.answers self.old (pipes (R.remaining reader.old)
            (R.remaining reader.new) (W.contents out.old) (W.contents out.new))) }
    {
        let mut chunk = [0u8; CHUNK];
        match reader.read(&mut chunk) {
            Ok(0) => Ok(Some(Ending::Over)),
            Ok(count) => match self.serve(alloc, &chunk[..count], out) {
                Ok(()) => Ok(None),
                Err(cut) => Err(cut),
            },
            Err(error) if error.kind() == ErrorKind::Interrupted => Ok(None),
            Err(_) => Ok(Some(Ending::Unread)),
        }
    }

    /// Reads and answers, until gdb has ended the session or nothing more comes.
    pub fn serve_all<R: Read, W: Write>(
        &mut self,
        alloc: Global,
        reader: &mut R,
        out: &mut W,
    ) -> Result<Ending, Cut>
        ensures ok { OnOk result (Serves T.answers self.old self.new (pipes
            (R.remaining reader.old) (R.remaining reader.new) (W.contents out.old)
            (W.contents out.new))) }
        ensures ending { IfOk result (λ ending. EndsSo ending self.new
            (pipes (R.remaining reader.old) (R.remaining reader.new) (W.contents out.old)
            (W.contents out.new))) }
        ensures err { OnErr result (ServesPart T.answers self.old (pipes (R.remaining reader.old)
            (R.remaining reader.new) (W.contents out.old) (W.contents out.new))) }
    {
        for _ in 0..u64::MAX {
            if self.is_ended() {
                return Ok(Ending::Over);
            }
            match self.serve_some(alloc, reader, out) {
                Ok(Some(ending)) => return Ok(ending),
                Ok(None) => {}
                Err(cut) => return Err(cut),
            }
        }
        Ok(Ending::Unread)
    }
}
