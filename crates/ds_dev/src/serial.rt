//! The serial lines, in the manner of DEC's DZ: four lines that share a silo, which keeps 64
//! received characters.
//!
//! | Address | Register | Bits |
//! |---|---|---|
//! | 1FE00000 | control | 15 a character can be sent, 9 and 8 the line that it goes to, 7 one was received, 6 a received one asks for an interrupt, 5 the lines are scanned; 6 and 5 can be written |
//! | 1FE00008, read | received character | 15 there is one, 14 one was lost before it, 9 and 8 its line, 7 to 0 its byte |
//! | 1FE00008, written | line parameters | none |
//! | 1FE00010 | enables | 3 to 0, one a line |
//! | 1FE00018, written | character to send | 7 to 0; reads 0 |
ghost use Rattle.std.specs.Prelude.{◌≡◌};
ghost use Rattle.ds_word.specs.Word.{bits};
ghost use Rattle.ds_dev.specs.Serial.{serial_at_start, lowest_line, can_send, has_received, serial_requests, control_word, with_control, with_enables, read_silo, received, transmitted, sent};

use arrayvec::ArrayVec;
use ds_word::bit;
use std::marker::Model;

/// The control register's address.
pub(crate) const CONTROL: u32 = 0x1fe0_0000;

/// That of the received character, and of the line parameters.
pub(crate) const RECEIVED: u32 = 0x1fe0_0008;

/// That of the enables.
pub(crate) const ENABLES: u32 = 0x1fe0_0010;

/// That of the character to send.
pub(crate) const TRANSMIT: u32 = 0x1fe0_0018;

/// A character with its line, 0 to 3.
#[derive(Clone, Copy, Debug, Default, Drop, PartialEq, Eq)]
pub struct Character {
    pub line: u8,
    pub byte: u8,
}

/// The four lines.
#[derive(Clone, Debug, Drop)]
pub(crate) struct SerialLines {
    receiver_interrupts: bool,
    master_scan: bool,
    enables: u8,
    silo: ArrayVec<Character, 64>,
    overrun: bool,
    waiting: Option<Character>,
}

impl Model for SerialLines {
    ghost use Rattle.ds_dev.specs.Serial.{SerialState};

    ghost Value = { SerialState };

    ghost view = { λ d. record {
      receiver_interrupts = d.receiver_interrupts;
      master_scan = d.master_scan;
      enables = d.enables;
      silo = d.silo.items;
      overrun = d.overrun;
      waiting = d.waiting;
    } };
}

impl SerialLines {
    /// All registers and flags zero, and no character.
    pub(crate) fn new() -> SerialLines
        ensures { result ≡ serial_at_start }
    {
        SerialLines {
            receiver_interrupts: false,
            master_scan: false,
            enables: 0,
            silo: ArrayVec::new(),
            overrun: false,
            waiting: None,
        }
    }

    /// Whether they ask for an interrupt.
    #[inline(always)]
    pub(crate) fn request(&self) -> bool
        ensures { result ≡ serial_requests self.now }
    {
        !self.silo.is_empty() && self.receiver_interrupts
    }

    /// What the control register reads.
    pub(crate) fn control(&self) -> u32
        ensures { result ≡ control_word self.now }
    {
        bit(15, self.can_send())
            + self.line() * 0x100
            + bit(7, !self.silo.is_empty())
            + bit(6, self.receiver_interrupts)
            + bit(5, self.master_scan)
    }

    /// The enabled lines, one bit each.
    pub(crate) fn enables(&self) -> u32
        ensures { result ≡ self.now.enables }
    {
        u32::from(self.enables)
    }

    /// Writes the control register.
    pub(crate) fn set_control(&mut self, v: u32)
        ensures { self.new ≡ with_control self.old v }
    {
        self.receiver_interrupts = (v >> 6) & 1 == 1;
        self.master_scan = (v >> 5) & 1 == 1;
    }

    /// Writes the enables.
    #[inline(always)]
    pub(crate) fn set_enables(&mut self, v: u32)
        ensures { self.new ≡ with_enables self.old v }
    {
        self.enables = (v % 16) as u8;
    }

    /// Takes the oldest character out of the silo, as the word that is read.
    pub(crate) fn read_silo(&mut self) -> u32
        ensures value { result ≡ (read_silo self.old).0 }
        ensures state { self.new ≡ (read_silo self.old).1 }
    {
        match self.silo.pop_at(0) {
            Some(character) => {
                let lost = self.overrun;
                self.overrun = false;
                0x8000
                    + bit(14, lost)
                    + u32::from(character.line) * 0x100
                    + u32::from(character.byte)
            }
            None => 0,
        }
    }

    /// Takes a character that comes in, or loses it. Of the line's number two bits count.
    pub(crate) fn receive(&mut self, line: u8, byte: u8) -> bool
        ensures value { result ≡ (received self.old line byte).0 }
        ensures state { self.new ≡ (received self.old line byte).1 }
    {
        if !self.master_scan {
            return false;
        }
        if self.silo.is_full() {
            self.overrun = true;
            return false;
        }
        self.silo.push(Character {
            line: line % 4,
            byte,
        });
        true
    }

    /// Sends a byte on the lowest enabled line, if there is one and lines are scanned.
    #[inline(always)]
    pub(crate) fn transmit(&mut self, v: u32)
        ensures { self.new ≡ transmitted self.old (bits v 0 8) }
    {
        if self.can_send() {
            self.waiting = Some(Character {
                line: self.line() as u8,
                byte: (v % 256) as u8,
            });
        }
    }

    /// Hands out the character that waits to leave.
    #[inline(always)]
    pub(crate) fn sent(&mut self) -> Option<(u8, u8)>
        ensures value { result ≡ (sent self.old).0 }
        ensures state { self.new ≡ (sent self.old).1 }
    {
        let waiting = self.waiting;
        self.waiting = None;
        match waiting {
            Some(character) => Some((character.line, character.byte)),
            None => None,
        }
    }

    /// Whether a character can be sent.
    #[inline(always)]
    fn can_send(&self) -> bool
        ensures { result ≡ can_send self.now }
    {
        self.master_scan && self.enables != 0
    }

    /// The line that a character is sent on: the lowest that is enabled.
    #[inline(always)]
    fn line(&self) -> u32
        ensures value { result ≡ lowest_line self.now.enables }
    {
        if self.enables & 1 == 1 {
            0
        } else if (self.enables >> 1) & 1 == 1 {
            1
        } else if (self.enables >> 2) & 1 == 1 {
            2
        } else if (self.enables >> 3) & 1 == 1 {
            3
        } else {
            0
        }
    }
}
