//! What the next step of a station is to the processor.

/// What the next step of a station is to the processor.
#[derive(Clone, Copy, Debug, PartialEq, Eq)]
pub enum Stage {
    /// No step of a unit: a boundary is owed, or nobody is ready.
    Rest,
    /// An instruction of the unit, or a word of the refill handler other than its first.
    Instruction,
    /// The first word of the refill handler, which begins a refill.
    Refill,
    /// A service of an exception that came from user mode.
    Service,
    /// A service of a double miss: the refill handler missed the page table's own page.
    DoubleMiss,
}
