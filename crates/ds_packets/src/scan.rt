//! A stream of bytes, of which packets are found byte by byte.
ghost use Rattle.std.specs.Prelude.{◌≡◌, ◌≤◌, ◌^◌, ◌%◌, ◌*◌, length, sum, IfSome};
ghost use Rattle.ds_packets.specs.Scanning.{came, scanned, data_of, start};
ghost use Rattle.ds_packets.specs.Inner.Scans.{IsWithin};
ghost use Rattle.ds_packets.specs.Framing.{pair_of};

use crate::data::{Data, MOST_DATA, unescaped};
use ds_word::digit_of;
use std::marker::Model;

/// Why what came is no packet.
#[derive(Clone, Copy, Debug, PartialEq, Eq)]
pub enum PacketFault {
    /// The two digits after `#` are not the sum of the text.
    Sum,
    /// The text ends with a `}`, which escapes nothing.
    Escape,
    /// The text has more than 4,096 bytes.
    Long,
}

/// Where a stream stands between two bytes.
#[derive(Clone, Copy, Debug, PartialEq, Eq)]
pub(crate) enum Place {
    /// Between packets.
    Between,
    /// After `$`, in the text.
    Text,
    /// After `#`.
    Ended,
    /// After the first digit of the sum, which is this byte.
    Half(u8),
}

/// What is kept of a stream of bytes between two of them: where it stands, and the text of the packet that has begun.
#[derive(Drop)]
pub struct Scanner {
    place: Place,
    text: Data,
}

impl Model for Scanner {
    ghost use Rattle.ds_packets.specs.Scans.{Scan};
    ghost use Rattle.ds_packets.specs.Inner.Scans.{scan_of};

    ghost Value = { Scan };

    ghost view = { λ s. scan_of s.place s.text };
}

/// The sum of bytes, in 8 bits.
fn sum_of(text: &[u8]) -> u8
    ensures { result ≡ sum text.now % 2 ^ 8 }
{
    let mut total = 0u8;
    for byte in text {
        total = total.wrapping_add(*byte);
    }
    total
}

/// The byte that two hexadecimal digits write.
pub(crate) fn pair_of(high: u8, low: u8) -> Option<u8>
    ensures { result ≡ pair_of high low }
{
    let high = digit_of(16, high)?;
    let low = digit_of(16, low)?;
    Some((high * 16 + low) as u8)
}

/// The data of a text whose sum two digits tell.
fn data_of(text: &[u8], high: u8, low: u8) -> Result<Data, PacketFault>
    requires { length text.now ≤ MOST_DATA }
    ensures { result ≡ data_of text.now high low }
{
    if pair_of(high, low) != Some(sum_of(text)) {
        return Err(PacketFault::Sum);
    }
    match unescaped(text) {
        Some(data) => Ok(data),
        None => Err(PacketFault::Escape),
    }
}

impl Scanner {
    /// At the beginning of a stream.
    pub fn new() -> Scanner
        ensures { result ≡ start }
    {
        Scanner {
            place: Place::Between,
            text: Data::new(),
        }
    }

    /// Takes a byte of a packet's text, or its `#`.
    fn take_text(&mut self, byte: u8) -> Option<Result<Data, PacketFault>>
        requires { IsWithin self.old }
        ensures came { result ≡ came self.old byte }
        ensures place { self.new ≡ scanned self.old byte }
    {
        if byte == b'#' {
            self.place = Place::Ended;
            None
        } else if self.text.as_slice().len() < MOST_DATA {
            self.text.push(byte);
            None
        } else {
            self.place = Place::Between;
            Some(Err(PacketFault::Long))
        }
    }

    /// Takes the next byte of the stream. It answers the packet that ends with this byte, or why it is none.
    pub fn take(&mut self, byte: u8) -> Option<Result<Data, PacketFault>>
        ensures came { result ≡ came self.old byte }
        ensures place { self.new ≡ scanned self.old byte }
    {
        match self.place {
            Place::Between => {
                if byte == b'$' {
                    self.text.clear();
                    self.place = Place::Text;
                }
                None
            }
            Place::Text => self.take_text(byte),
            Place::Ended => {
                self.place = Place::Half(byte);
                None
            }
            Place::Half(high) => {
                self.place = Place::Between;
                Some(data_of(self.text.as_slice(), high, byte))
            }
        }
    }
}
