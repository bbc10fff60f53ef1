//! What a step of a station was.

/// What a step of a station was.
#[derive(Clone, Copy, Debug, PartialEq, Eq)]
pub enum Step {
    /// A part of a unit.
    Inside,
    /// The end of a unit; its boundary is owed.
    Unit,
    /// A boundary, or an idle turn with its boundary.
    Boundary,
    /// Nothing: all processes have ended.
    Over,
}
