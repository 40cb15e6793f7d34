//! The type `Kind`, apart from the function `kind`: no module has two names that differ in a capital alone.

/// A rotation of this order, or such a rotation with the inversion. International Tables A: n where it is proper, and -n
/// where it is not; -2 is a reflection, m.
#[derive(Clone, Copy, PartialEq, Eq, Debug, Drop)]
pub struct Kind {
    /// The order of the proper part.
    pub order: u16,
    /// Whether the handedness is +1.
    pub proper: bool,
}
