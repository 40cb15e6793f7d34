use phase_rules::Index;
use phase_rules::parts::Mark;

/// A line of a class list.
#[derive(Clone, Copy, PartialEq, Eq, Debug, Drop)]
pub struct ClassLine {
    /// The first index of the class in the box.
    pub index: Index,
    /// How many indices are equivalent to it, itself and those out of the box too.
    pub size: u16,
    /// How many members (W, t) have h W = h.
    pub fixers: u16,
    pub mark: Mark,
}
