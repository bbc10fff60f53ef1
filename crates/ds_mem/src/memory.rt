//! Memory as one list of bytes.

ghost use Rattle.std.specs.Prelude.{◌≡◌, ◌+◌, ◌*◌, ◌/◌, ◌%◌, ◌<◌, ◌^◌, length, vec_len, slice_index, slice_set, IfOk};
ghost use Rattle.std.specs.Borrow.{sem};
ghost use Rattle.ds_word.specs.Word.{bits};
ghost use Rattle.ds_word.specs.Merge.{with_bits};
ghost use Rattle.ds_word.specs.Bytes.{word_at, with_word};
ghost use Rattle.ds_mem.specs.Memory.{zeros, frame_of, with_frame};
ghost use Rattle.ds_mem.specs.Inner.Memory.{AreBytes};
ghost use Rattle.ds_mem.specs.Inner.Lending.{LendsFrame};

use crate::fault::OutOfMemory;
use byteorder::{ByteOrder, LittleEndian};
use ds_word::PAGE_SIZE;
use std::alloc::Global;
use std::marker::Model;

/// The bytes of memory: physical addresses are 0 to 007FFFFF (hexadecimal).
pub const SIZE: usize = 8_388_608;

/// The bytes of a frame.
pub const FRAME_SIZE: usize = PAGE_SIZE;

/// The frames of memory, numbered from 0.
pub const FRAMES: usize = 2048;

/// The memory, which contracts see as the list of its bytes.
#[derive(Clone, Drop)]
pub struct Memory {
    bytes: Vec<u8>,
}

impl Model for Memory {
    ghost use Rattle.std.specs.Prelude.{◌≡◌, List, ℕ, vec_len};

    ghost Value = { List ℕ };

    ghost view = { λ a. a.bytes.items };

    ghost invariant = { λ a. vec_len a.bytes ≡ 8388608 };
}

impl Memory {
    /// A memory of zeros. Refused only where the host has no room for it.
    pub fn new(alloc: Global) -> Result<Memory, OutOfMemory>
        ensures { IfOk result (λ memory. memory ≡ zeros SIZE) }
    {
        Ok(Memory {
            bytes: zeros(alloc, SIZE)?,
        })
    }

    /// The word at a physical address.
    #[inline(always)]
    pub fn word(&self, physical: u32) -> u32
        requires aligned { physical % 4 ≡ 0 }
        requires in_range { physical < SIZE }
        ensures value { result ≡ word_at self.now physical }
        ensures size { length self.now ≡ SIZE }
    {
        let place = physical as usize;
        LittleEndian::read_u32(&self.bytes[place..place + 4])
    }

    /// Replaces the word at a physical address.
    #[inline(always)]
    pub fn put_word(&mut self, physical: u32, word: u32)
        requires aligned { physical % 4 ≡ 0 }
        requires in_range { physical < SIZE }
        ensures value { self.new ≡ with_word self.old physical word }
        ensures size { length self.new ≡ SIZE }
    {
        let place = physical as usize;
        LittleEndian::write_u32(&mut self.bytes[place..place + 4], word);
    }

    /// The byte at a physical address.
    #[inline(always)]
    #[tactic(auto, using(crate::proofs::Parts::byte_of_word))]
    pub fn byte(&self, physical: u32) -> u8
        requires { physical < SIZE }
        ensures value { result ≡ slice_index self.now physical }
        ensures part { result ≡ bits (word_at self.now physical) (8 * (physical % 4)) 8 }
    {
        let bytes = self.bytes.as_slice();
        bytes[physical as usize]
    }

    /// Replaces the byte at a physical address by the lowest of a value.
    #[inline(always)]
    pub fn put_byte(&mut self, physical: u32, value: u32)
        requires { physical < SIZE }
        ensures value { self.new ≡ slice_set self.old physical (value % 2 ^ 8) }
        ensures part { self.new ≡ with_word self.old physical
            (with_bits (word_at self.old physical) (8 * (physical % 4)) 8 value) }
    {
        are_bytes(&self.bytes);
        self.bytes[physical as usize] = (value % 256) as u8;
    }

    /// The half at a physical address.
    #[inline(always)]
    #[tactic(auto, using(crate::proofs::Parts::half_of_word))]
    pub fn half(&self, physical: u32) -> u16
        requires aligned { physical % 2 ≡ 0 }
        requires in_range { physical < SIZE }
        ensures value { result
            ≡ slice_index self.now physical + 2 ^ 8 * slice_index self.now (physical + 1) }
        ensures part { result ≡ bits (word_at self.now physical) (8 * (physical % 4)) 16 }
    {
        let place = physical as usize;
        let bytes = self.bytes.as_slice();
        u16::from(bytes[place]) + 256 * u16::from(bytes[place + 1])
    }

    /// Replaces the half at a physical address by the lower one of a value.
    #[inline(always)]
    pub fn put_half(&mut self, physical: u32, value: u32)
        requires aligned { physical % 2 ≡ 0 }
        requires in_range { physical < SIZE }
        ensures value { self.new ≡ slice_set (slice_set self.old physical (value % 2 ^ 8))
            (physical + 1) (value / 2 ^ 8 % 2 ^ 8) }
        ensures part { self.new ≡ with_word self.old physical
            (with_bits (word_at self.old physical) (8 * (physical % 4)) 16 value) }
    {
        are_bytes(&self.bytes);
        let place = physical as usize;
        self.bytes[place] = (value % 256) as u8;
        self.bytes[place + 1] = (value / 256 % 256) as u8;
    }

    /// The bytes of a frame.
    pub fn frame(&self, f: u32) -> &[u8]
        requires { f < FRAMES }
        ensures value { result.now ≡ frame_of self.now f }
        ensures size { length result.now ≡ FRAME_SIZE }
    {
        let start = f as usize * FRAME_SIZE;
        &self.bytes[start..start + FRAME_SIZE]
    }

    /// The bytes of a frame, for writing.
    pub fn frame_mut(&mut self, f: u32) -> &mut [u8]
        requires { f < FRAMES }
        ensures* writes_back { sem 𝓛 (LendsFrame self.entry f result) }
        ensures value { result.now ≡ frame_of self.old f }
        ensures size { length result.now ≡ FRAME_SIZE }
    {
        let start = f as usize * FRAME_SIZE;
        self.bytes.slice_mut(start..start + FRAME_SIZE)
    }

    /// Copies the bytes of the one frame into the other.
    pub fn copy_frame(&mut self, from: u32, to: u32)
        requires source { from < FRAMES }
        requires destination { to < FRAMES }
        ensures value { self.new ≡ with_frame self.old to (frame_of self.old from) }
        ensures size { length self.new ≡ SIZE }
    {
        let start = from as usize * FRAME_SIZE;
        self.bytes
            .copy_within(start..start + FRAME_SIZE, to as usize * FRAME_SIZE);
    }
}

/// Each byte is below 256. It does nothing: what it is called for is known behind it.
#[inline(always)]
fn are_bytes(bytes: &[u8])
    ensures { AreBytes bytes.now }
{}

/// So many zeros.
fn zeros(alloc: Global, count: usize) -> Result<Vec<u8>, OutOfMemory>
    ensures zero { IfOk result (λ bytes. bytes.items ≡ zeros count) }
    ensures size { IfOk result (λ bytes. vec_len bytes ≡ count) }
{
    match vec![in alloc; 0u8; count] {
        Ok(bytes) => Ok(bytes),
        Err(_) => Err(OutOfMemory),
    }
}
