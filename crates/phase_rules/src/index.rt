ghost use Rattle.std.specs.Prelude.{◌≡◌, ◌-◌, ◌↔◌, IsSome, IfSome, IsTrue};
ghost use Rattle.lattice_algebra.specs.Matrix.{sum_of_products, matrix_of, column_of};
ghost use Rattle.lattice_algebra.specs.Operator.{AreWithin, HasEntriesWithin, AreParts};
ghost use Rattle.exact_ops.specs.declared.TheConstants.{UNIT as PARTS};
ghost use Rattle.phase_rules.specs.declared.TheConstants.{MAX_INDEX};
ghost use Rattle.phase_rules.specs.Rows.{row_of, ◌·ʳ◌, ◌·ʳᶜ◌};

use crate::MAX_INDEX;
use std::marker::Model;

/// The index of a reflection: three numbers, each at most `MAX_INDEX` in size. It is seen as a row.
#[derive(Clone, Copy, PartialEq, Eq, Debug, Drop)]
pub struct Index {
    pub h: i32,
    pub k: i32,
    pub l: i32,
}

impl Model for Index {
    ghost use Rattle.phase_rules.specs.Rows.{Row};

    ghost Value = { Row };

    ghost use Rattle.lattice_algebra.specs.Operator.{AreWithin};
    ghost use Rattle.phase_rules.specs.declared.TheConstants.{MAX_INDEX};

    ghost view = { λ a. record { h = a.h; k = a.k; l = a.l } };

    ghost invariant = { λ a. AreWithin MAX_INDEX a.h a.k a.l };

    ghost inverse = { λ r. record { h = r.h; k = r.k; l = r.l } };
}

impl Index {
    /// The index with these numbers. None exactly where one of them is beyond `MAX_INDEX` in size.
    pub fn of(h: i32, k: i32, l: i32) -> Option<Index>
        ensures some { IsSome result ↔ AreWithin MAX_INDEX h k l }
        ensures value { IfSome result (λ index. index ≡ record { h = h; k = k; l = l }) }
    {
        if are_within(h, k, l) {
            return Some(Index { h, k, l });
        }
        None
    }

    /// The row h W, which can leave the range of an index.
    pub fn times(&self, w: &[i32; 9]) -> [i32; 3]
        requires { HasEntriesWithin 2 (matrix_of w.now) }
        ensures { row_of result ≡ self.now ·ʳ matrix_of w.now }
    {
        let [xx, xy, xz, yx, yy, yz, zx, zy, zz] = *w;
        [
            dot(self.h, self.k, self.l, xx, yx, zx),
            dot(self.h, self.k, self.l, xy, yy, zy),
            dot(self.h, self.k, self.l, xz, yz, zz),
        ]
    }

    /// The first number of the row h W.
    pub fn first_times(&self, w: &[i32; 9]) -> i32
        requires { HasEntriesWithin 2 (matrix_of w.now) }
        ensures { result ≡ (self.now ·ʳ matrix_of w.now).h }
    {
        dot(self.h, self.k, self.l, w[0], w[3], w[6])
    }

    /// The number h.t.
    pub fn along(&self, t: &[i32; 3]) -> i32
        requires { AreParts PARTS (column_of t.now) }
        ensures { result ≡ self.now ·ʳᶜ column_of t.now }
    {
        dot(self.h, self.k, self.l, t[0], t[1], t[2])
    }
}

fn are_within(h: i32, k: i32, l: i32) -> bool
    ensures { IsTrue result ↔ AreWithin MAX_INDEX h k l }
{
    h.unsigned_abs() <= MAX_INDEX && k.unsigned_abs() <= MAX_INDEX && l.unsigned_abs() <= MAX_INDEX
}

/// A row times a column.
fn dot(a: i32, b: i32, c: i32, x: i32, y: i32, z: i32) -> i32
    requires left { AreWithin MAX_INDEX a b c }
    requires right { AreWithin (PARTS - 1) x y z }
    ensures { result ≡ sum_of_products a b c x y z }
{
    a * x + b * y + c * z
}
