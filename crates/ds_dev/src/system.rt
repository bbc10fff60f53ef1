//! The system register, which lets the serial lines' request through to the processor.
//!
//! | Address | Bits |
//! |---|---|
//! | 1FF00000 | 7 to 0 requests, read only, of which 7 is that of the serial lines; 23 to 16 their enables |
ghost use Rattle.std.specs.Prelude.{◌≡◌, ◌+◌, ◌*◌, ◌^◌, ◌&&◌};
ghost use Rattle.ds_word.specs.Word.{bits, bit};
ghost use Rattle.ds_dev.specs.Bus.{is_enabled};

use ds_word::bit;

/// Its address.
pub(crate) const ENABLES: u32 = 0x1ff0_0000;

/// The register: its enables, one bit a request.
#[derive(Clone, Debug, Drop)]
pub(crate) struct SystemRegister {
    pub(crate) enables: u8,
}

impl SystemRegister {
    /// Nothing enabled.
    pub(crate) fn new() -> SystemRegister
        ensures { result.enables ≡ 0 }
    {
        SystemRegister { enables: 0 }
    }

    /// What it reads, while the serial lines ask for an interrupt or not.
    pub(crate) fn word(&self, request: bool) -> u32
        ensures { result ≡ bit 7 request + self.now.enables * 2 ^ 16 }
    {
        bit(7, request) + u32::from(self.enables) * 0x1_0000
    }

    /// Writes the enables.
    pub(crate) fn set_enables(&mut self, v: u32)
        ensures { self.new.enables ≡ bits v 16 8 }
    {
        self.enables = ((v >> 16) & 0xff) as u8;
    }

    /// Whether the serial lines' request reaches the processor.
    #[inline(always)]
    pub(crate) fn passes(&self, request: bool) -> bool
        ensures { result ≡ (request && is_enabled self.now.enables) }
    {
        request && (self.enables >> 7) & 1 == 1
    }
}
