ghost use Rattle.std.specs.Prelude.{◌≡◌, ◌↔◌, IsTrue, IsSome, IfSome};
ghost use Rattle.lattice_algebra.specs.Matrix.{matrix_of, IsUnimodular};
ghost use Rattle.exact_ops.specs.Raw.{numbers_of, IsInRange};

use crate::MAX_ENTRY;
use crate::matrix::{Rotation, Vector};

/// What a triplet says: the matrix row by row, each entry at most `MAX_ENTRY` in size, and the
/// translation in parts of a cell, each from 0 to `UNIT - 1`. It need not be an operator.
#[derive(Clone, Copy, PartialEq, Eq, Debug, Drop)]
pub struct Raw {
    pub w: [i32; 9],
    pub t: [i32; 3],
    pub ghost in_range: { IsInRange (numbers_of w t) },
}

impl Raw {
    /// None exactly where a number is out of range.
    pub fn of(w: [i32; 9], t: [i32; 3]) -> Option<Raw>
        ensures some { IsSome result ↔ IsInRange (numbers_of w t) }
        ensures value { IfSome result (λ raw. (raw.w ≡ w) × (raw.t ≡ t)) }
    {
        let rotation = Rotation::of(&w);
        if !rotation.is_within(MAX_ENTRY) {
            return None;
        }
        let translation = Vector::of(&t);
        if !translation.is_in_cell() {
            return None;
        }
        Some(Raw { w, t })
    }

    /// Whether the matrix has a whole inverse: International Tables A, a change of basis that keeps the lattice.
    pub fn unimodular(&self) -> bool
        ensures { IsTrue result ↔ IsUnimodular (matrix_of self.now.w) }
    {
        Rotation::of(&self.w).is_unimodular()
    }
}
