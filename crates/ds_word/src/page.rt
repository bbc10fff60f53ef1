//! Pages of addresses.

/// The bytes of a page, and of a frame of memory, which holds one.
pub const PAGE_SIZE: usize = 4096;
