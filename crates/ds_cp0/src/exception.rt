//! What an exception is.
ghost use Rattle.std.specs.Prelude.{◌≡◌};
ghost use Rattle.ds_cp0.specs.Codes.{code_number, is_translation};

/// The cause of an exception, numbered as Cause shows it (Kane and Heinrich, chapter 5).
#[derive(Clone, Copy, Debug, PartialEq, Eq)]
pub enum ExceptionCode {
    /// Int: an interrupt.
    Interrupt = 0,
    /// Mod: a store to a page that may not be written.
    Modification = 1,
    /// TLBL: a fetch or load with no valid translation.
    LoadMiss = 2,
    /// TLBS: a store with no valid translation.
    StoreMiss = 3,
    /// AdEL: a fetch or load at an address that it may not have.
    LoadAddress = 4,
    /// AdES: a store at an address that it may not have.
    StoreAddress = 5,
    /// IBE: a bus error on a fetch.
    FetchBus = 6,
    /// DBE: a bus error on a load or store.
    DataBus = 7,
    /// Sys: SYSCALL.
    SystemCall = 8,
    /// Bp: BREAK.
    Breakpoint = 9,
    /// RI: a reserved instruction.
    ReservedInstruction = 10,
    /// CpU: a coprocessor that can't be used.
    CoprocessorUnusable = 11,
    /// Ov: signed overflow.
    Overflow = 12,
}

impl ExceptionCode {
    /// The number that Cause shows, 0 to 12.
    #[inline(always)]
    pub fn number(self) -> u8
        ensures { result ≡ code_number self }
    {
        self as u8
    }

    /// Whether the translation buffer refused the access.
    #[inline(always)]
    pub(crate) fn is_translation(self) -> bool
        ensures { result ≡ is_translation self }
    {
        matches!(
            self,
            ExceptionCode::Modification | ExceptionCode::LoadMiss | ExceptionCode::StoreMiss
        )
    }
}

/// An exception, as it is entered.
#[derive(Clone, Copy, Debug, PartialEq, Eq)]
pub struct Exception {
    /// Its cause.
    pub code: ExceptionCode,
    /// The instruction's own address.
    pub pc: u32,
    /// Whether the instruction stands in the slot of a branch or jump.
    pub slot: bool,
    /// The coprocessor that can't be used, by its low two bits; read for that cause alone.
    pub unit: u8,
    /// The address that was refused, if the cause has one.
    pub addr: Option<u32>,
    /// Whether no entry of the buffer matched.
    pub miss: bool,
}
