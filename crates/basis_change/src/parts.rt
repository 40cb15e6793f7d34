ghost use Rattle.std.specs.Prelude.{◌≡◌, ◌≤◌, ◌↔◌, ℤ, pos, unsigned_abs, IsSome, IfSome};
ghost use Rattle.lattice_algebra.specs.Matrix.{matrix_of, column_of, IsUnimodular};
ghost use Rattle.lattice_algebra.specs.Operator.{AreWithin, HasEntriesWithin};
ghost use Rattle.lattice_algebra.specs.Point.{◌≈◌, HasCoordinatesWithin};
ghost use Rattle.exact_ops.specs.declared.TheConstants.{UNIT, MAX_COORDINATE};
ghost use Rattle.exact_ops.specs.Numbers.{point_in};
ghost use Rattle.space_groups.specs.Bases.{IsBasisChange, changed_point};
ghost use Rattle.phase_rules.specs.declared.TheConstants.{MAX_INDEX as INDEX_LIMIT};
ghost use Rattle.phase_rules.specs.Rows.{◌·ʳ◌};
ghost use Rattle.basis_change.specs.Wide.{wide_matrix, row_in, WIDE};
ghost use Rattle.basis_change.specs.Frames.{IsFrame, change_in};
ghost use Rattle.basis_change.specs.Laws.{changed_row};

use crate::frame::Frame;
use crate::points::{are_coordinates, image_of};
use crate::wide::{WideMatrix, WideVector, dot};
use exact_ops::{Point, Raw, Rotation, Vector};
use phase_rules::{Index, MAX_INDEX};
use std::marker::Model;

/// The change `x' = Q x + q / UNIT` of the basis and of the origin, which keeps the lattice: a matrix Q with a whole inverse P.
#[derive(Clone, Copy, Debug, Drop)]
pub struct Change {
    q: Rotation,
    origin: Vector,
    p: WideMatrix,
}

impl Model for Change {
    ghost use Rattle.std.specs.Prelude.{pos};
    ghost use Rattle.std.proofs.Common.{sym};
    ghost use Rattle.lattice_algebra.specs.Matrix.{inverse_matrix};
    ghost use Rattle.space_groups.specs.Bases.{CoordinateChange};

    ghost Value = { CoordinateChange };

    ghost use Rattle.exact_ops.specs.Fields.{matrix_in, column_in, stored_matrix, stored_column};
    ghost use Rattle.basis_change.specs.Wide.{wide_matrix, stored_wide};
    ghost use Rattle.basis_change.specs.Changes.{IsStoredChange};

    ghost view = { λ a. record { w = matrix_in a.q; t = column_in a.origin; d = pos 1 } };

    ghost invariant = { λ a. IsStoredChange (matrix_in a.q) (column_in a.origin) (wide_matrix a.p) };

    ghost inverse = { λ c. record {
      q = stored_matrix c.w;
      origin = stored_column c.t;
      p = stored_wide (inverse_matrix c.w);
    } };

    ghost inverse_ok = { λ a h. λ i.
        record { q = a.q; origin = a.origin; p = stored_wide (sym h.inverse i) } };
}

impl Change {
    /// The change with the numbers of a Raw. None exactly where its matrix has no whole inverse.
    pub fn of(raw: &Raw) -> Option<Change>
        ensures some { IsSome result ↔ IsUnimodular (matrix_of raw.now.w) }
        ensures value { IfSome result (λ c. c
            ≡ record { w = matrix_of raw.now.w; t = column_of raw.now.t; d = pos 1 }) }
    {
        if !raw.unimodular() {
            return None;
        }
        let q = Rotation::of(&raw.w);
        let sign = i64::from(q.sign());
        Some(Change {
            q,
            origin: Vector::of(&raw.t),
            p: WideMatrix::of(&q).scaled_adjugate(sign),
        })
    }

    /// The index h P. None exactly where one of its numbers is beyond `MAX_INDEX` in size.
    pub fn index(&self, x: &Index) -> Option<Index>
        ensures some { IsSome result ↔ AreWithin INDEX_LIMIT (changed_row self.now x.now).h
            (changed_row self.now x.now).k (changed_row self.now x.now).l }
        ensures value { IfSome result (λ y. y ≡ changed_row self.now x.now) }
    {
        let row = row_of(x, &self.p);
        Some(Index {
            h: number(row.x)?,
            k: number(row.y)?,
            l: number(row.z)?,
        })
    }

    /// The point c x, over the same denominator. None exactly where one of its coordinates is beyond `MAX_COORDINATE` in
    /// size.
    pub fn point(&self, x: &Point) -> Option<Point>
        ensures some { IsSome result ↔ HasCoordinatesWithin MAX_COORDINATE
            (changed_point UNIT self.now (point_in x.now)) }
        ensures denominator { IfSome result (λ y. y.d ≡ x.now.d) }
        ensures value { IfSome result (λ y. point_in y
            ≈ changed_point UNIT self.now (point_in x.now)) }
    {
        let n = image_of(&self.q, &self.origin, x);
        if !are_coordinates(&n, x.d) {
            return None;
        }
        Some(Point { n, d: x.d })
    }

    /// The change with its inverse.
    pub(crate) fn frame(&self) -> Frame
        ensures frame { IsFrame result }
        ensures value { change_in result ≡ self.now }
        // What is true of every change.
        ensures change { IsBasisChange self.now }
    {
        Frame::of(&self.q, &self.origin, 1)
    }
}

/// The row h P.
fn row_of(x: &Index, p: &WideMatrix) -> WideVector
    requires { HasEntriesWithin WIDE (wide_matrix p.now) }
    ensures { row_in result ≡ x.now ·ʳ wide_matrix p.now }
{
    let h = i64::from(x.h);
    let k = i64::from(x.k);
    let l = i64::from(x.l);
    WideVector {
        x: dot(h, k, l, p.xx, p.yx, p.zx),
        y: dot(h, k, l, p.xy, p.yy, p.zy),
        z: dot(h, k, l, p.xz, p.yz, p.zz),
    }
}

/// A number of an index. None exactly where it is beyond `MAX_INDEX` in size.
fn number(n: i64) -> Option<i32>
    ensures some { IsSome result ↔ (unsigned_abs n ≤ INDEX_LIMIT) }
    ensures value { IfSome result (λ m. m ≡ n) }
{
    if n.unsigned_abs() > u64::from(MAX_INDEX) {
        return None;
    }
    Some(n as i32)
}
