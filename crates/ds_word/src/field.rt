//! The fields of an instruction's word. Each is answered as the number that it is, from its lowest
//! bit up.
ghost use Rattle.std.specs.Prelude.{◌≡◌};
ghost use Rattle.ds_word.specs.Word.{bits};

/// The operation, bits 31 to 26.
#[inline(always)]
pub fn op(word: u32) -> u8
    ensures { result ≡ bits word 26 6 }
{
    ((word >> 26) & 0x3f) as u8
}

/// The source register, bits 25 to 21.
#[inline(always)]
pub fn rs(word: u32) -> u8
    ensures { result ≡ bits word 21 5 }
{
    ((word >> 21) & 0x1f) as u8
}

/// The target register, which is a source or a destination, bits 20 to 16.
#[inline(always)]
pub fn rt(word: u32) -> u8
    ensures { result ≡ bits word 16 5 }
{
    ((word >> 16) & 0x1f) as u8
}

/// The destination register, bits 15 to 11.
#[inline(always)]
pub fn rd(word: u32) -> u8
    ensures { result ≡ bits word 11 5 }
{
    ((word >> 11) & 0x1f) as u8
}

/// The shift amount, bits 10 to 6.
#[inline(always)]
pub fn shamt(word: u32) -> u8
    ensures { result ≡ bits word 6 5 }
{
    ((word >> 6) & 0x1f) as u8
}

/// The function of an instruction of operation 0, bits 5 to 0.
#[inline(always)]
pub fn funct(word: u32) -> u8
    ensures { result ≡ bits word 0 6 }
{
    (word & 0x3f) as u8
}

/// The immediate, bits 15 to 0.
#[inline(always)]
pub fn imm(word: u32) -> u16
    ensures { result ≡ bits word 0 16 }
{
    (word & 0xffff) as u16
}

/// The target of a jump, bits 25 to 0.
#[inline(always)]
pub fn target(word: u32) -> u32
    ensures { result ≡ bits word 0 26 }
{
    word & 0x3ff_ffff
}

/// The code of a system call or a breakpoint, bits 25 to 6.
#[inline(always)]
pub fn code(word: u32) -> u32
    ensures { result ≡ bits word 6 20 }
{
    (word >> 6) & 0xf_ffff
}
