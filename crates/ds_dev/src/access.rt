//! Accesses of memory by their size.
ghost use Rattle.std.specs.Prelude.{◌≡◌, ◌%◌, ◌<◌};
ghost use Rattle.ds_dev.specs.Bus.{memory_load, memory_store};
ghost use Rattle.ds_dev.specs.Inner.Bus.{alignment};

use ds_isa::Size;
use ds_mem::{Memory, SIZE};

/// The byte, half or word at a place; the word that holds a part of it.
#[inline(always)]
pub(crate) fn load(memory: &Memory, physical: u32, size: Size) -> u32
    requires in_range { physical < SIZE }
    requires aligned { physical % alignment size ≡ 0 }
    ensures { result ≡ memory_load memory.now physical size }
{
    match size {
        Size::Byte => u32::from(memory.byte(physical)),
        Size::Half => u32::from(memory.half(physical)),
        Size::Word => memory.word(physical),
        Size::Part => memory.word(physical - physical % 4),
    }
}

/// Replaces the byte, half or word at a place, or the word that holds a part of it.
#[inline(always)]
pub(crate) fn store(memory: &mut Memory, physical: u32, size: Size, value: u32)
    requires in_range { physical < SIZE }
    requires aligned { physical % alignment size ≡ 0 }
    ensures { memory.new ≡ memory_store memory.old physical size value }
{
    match size {
        Size::Byte => memory.put_byte(physical, value),
        Size::Half => memory.put_half(physical, value),
        Size::Word => memory.put_word(physical, value),
        Size::Part => memory.put_word(physical - physical % 4, value),
    }
}
