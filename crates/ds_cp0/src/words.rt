//! What exceptions and writes make of a register's word.
ghost use Rattle.std.specs.Prelude.{◌≡◌, ◌+◌, ◌^◌, ◌<◌};
ghost use Rattle.ds_word.specs.Word.{bits, bit};
ghost use Rattle.ds_cp0.specs.System.{pushed, popped, with_field, cause_after, epc_of, vector, writable_index, writable_status};

use crate::exception::{Exception, ExceptionCode};

/// Where a miss on an address of the user's half goes on.
pub const REFILL_VECTOR: u32 = 0x8000_0000;

/// Where every other exception goes on.
pub const GENERAL_VECTOR: u32 = 0x8000_0080;

/// The first address above the user's half.
const KUSEG_END: u32 = 0x8000_0000;

/// Status with kernel mode and interrupts off pushed on its three pairs.
#[inline(always)]
pub(crate) fn pushed(status: u32) -> u32
    ensures { result ≡ pushed status }
{
    ((status >> 6) << 6) | ((status & 0xf) << 2)
}

/// Status with its three pairs popped, the oldest staying.
pub(crate) fn popped(status: u32) -> u32
    ensures { result ≡ popped status }
{
    ((status >> 4) << 4) | ((status >> 2) & 0xf)
}

/// The bits of Status that can be written.
#[inline(always)]
pub(crate) fn writable_status(v: u32) -> u32
    ensures { result ≡ writable_status v }
{
    ((v >> 28) << 28) | ((((v >> 16) & 3) << 16) | ((((v >> 8) & 0xff) << 8) | (v & 0x3f)))
}

/// The bits of Index that can be written.
pub(crate) fn writable_index(v: u32) -> u32
    ensures { result ≡ writable_index v }
{
    ((v >> 31) << 31) | (((v >> 8) & 0x3f) << 8)
}

/// Context with another PTEBase.
pub(crate) fn with_base(context: u32, v: u32) -> u32
    ensures { result ≡ with_field context 21 11 (bits v 21 11) }
{
    ((v >> 21) << 21) | (context & 0x1f_ffff)
}

/// Context with the missing page's number in bits 20 to 2.
pub(crate) fn with_page(context: u32, addr: u32) -> u32
    ensures { result ≡ with_field context 2 19 (bits addr 12 19) }
{
    ((context >> 21) << 21) | ((((addr >> 12) & 0x7_ffff) << 2) | (context & 3))
}

/// EntryHi with the missing page's number in bits 31 to 12.
pub(crate) fn with_vpn(entry_hi: u32, addr: u32) -> u32
    ensures { result ≡ with_field entry_hi 12 20 (bits addr 12 20) }
{
    ((addr >> 12) << 12) | (entry_hi & 0xfff)
}

/// Cause with the software's requests in bits 9 and 8.
pub(crate) fn with_requests(cause: u32, v: u32) -> u32
    ensures { result ≡ with_field cause 8 2 (bits v 8 2) }
{
    ((cause >> 10) << 10) | ((((v >> 8) & 3) << 8) | (cause & 0xff))
}

/// Cause after an exception.
#[inline(always)]
pub(crate) fn cause_after(cause: u32, exception: &Exception) -> u32
    ensures { result ≡ cause_after cause exception.now }
{
    let unit = match exception.code {
        ExceptionCode::CoprocessorUnusable => u32::from(exception.unit % 4),
        _ => (cause >> 28) & 3,
    };
    let code = u32::from(exception.code.number());
    delayed(
        exception.slot,
        (unit << 28) | ((((cause >> 8) & 3) << 8) | (code << 2)),
    )
}

/// Cause with BD above its other bits.
#[inline(always)]
fn delayed(slot: bool, rest: u32) -> u32
    requires { rest < 2 ^ 31 }
    ensures { result ≡ bit 31 slot + rest }
{
    if slot { 0x8000_0000 | rest } else { rest }
}

/// Where the program goes on later: in a slot its branch.
#[inline(always)]
pub(crate) fn epc_of(exception: &Exception) -> u32
    ensures { result ≡ epc_of exception.now }
{
    if exception.slot {
        exception.pc.wrapping_sub(4)
    } else {
        exception.pc
    }
}

/// The address of the exception's handler.
#[inline(always)]
pub(crate) fn vector(exception: &Exception) -> u32
    ensures { result ≡ vector exception.now }
{
    let kuseg = match exception.addr {
        Some(addr) => addr < KUSEG_END,
        None => false,
    };
    if exception.miss && kuseg {
        REFILL_VECTOR
    } else {
        GENERAL_VECTOR
    }
}
