//! The type `Mark`, apart from the function `mark`: no module has two names that differ in a capital alone.

/// What symmetry says of a reflection.
#[derive(Clone, Copy, PartialEq, Eq, Debug, Drop)]
pub enum Mark {
    /// Systematically absent.
    Absent,
    /// Present, with any phase.
    Free,
    /// Present, with the phase of so many times 180 / `UNIT` degrees, or the opposite one, 180 degrees further.
    Phase(u8),
}
