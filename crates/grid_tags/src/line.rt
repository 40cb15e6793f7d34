/// A line of a grid list.
#[derive(Clone, Copy, PartialEq, Eq, Debug, Drop)]
pub struct GridLine {
    /// The first point (i/a, j/b, k/c) of the orbit in the cell, as i, j, k.
    pub at: [u16; 3],
    /// How many grid points of the cell are in its orbit.
    pub size: u16,
}
