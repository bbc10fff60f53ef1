//! The registers' numbers, as `mfc0` and `mtc0` name them.

/// The slot that `tlbr` and `tlbwi` name, in bits 13 to 8; bit 31 is set where a probe missed.
pub const INDEX: u8 = 0;

/// The slot that `tlbwr` names.
pub const RANDOM: u8 = 1;

/// The lower half of an entry: PFN 31 to 12, N 11, D 10, V 9, G 8.
pub const ENTRY_LO: u8 = 2;

/// PTEBase 31 to 21, the missing page's number 20 to 2.
pub const CONTEXT: u8 = 4;

/// The address that was refused.
pub const BAD_VADDR: u8 = 8;

/// The upper half of an entry: VPN 31 to 12, ASID 11 to 6.
pub const ENTRY_HI: u8 = 10;

/// Three pairs of mode and interrupt bits 5 to 0, interrupt mask 15 to 8, IsC and SwC 17 and 16,
/// usable coprocessors 31 to 28.
pub const STATUS: u8 = 12;

/// BD 31, CE 29 and 28, requests 15 to 8, the exception's code from bit 2 up.
pub const CAUSE: u8 = 13;

/// Where the program goes on after an exception.
pub const EPC: u8 = 14;

/// The processor's revision.
pub const PRID: u8 = 15;
