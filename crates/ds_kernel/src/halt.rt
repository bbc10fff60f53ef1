//! Why a station does not do a step.

/// Why a step was not done. A run asks for it in each step, so it is one byte, where a fault of a
/// run has room for a source's name.
#[derive(Clone, Copy, Debug, PartialEq, Eq)]
pub enum Halt {
    /// Memory ran out.
    Memory,
    /// An earlier failure stands.
    Failed,
}
