ghost use Rattle.std.specs.Prelude.{◌≡◌, ◌+◌, ◌*◌, ◌↔◌, IsSome, IfSome, IsOk, IfOk, IsErrOf};
ghost use Rattle.lattice_algebra.specs.Matrix.{entries, coordinates, matrix_of, column_of, IsUnimodular, ◌·◌};
ghost use Rattle.lattice_algebra.specs.Operator.{Operator, identity_operator, product, IsInverse, AreWithin, HasEntriesWithin};
ghost use Rattle.lattice_algebra.specs.Map.{map_of, ◌∘◌, IsShift};
ghost use Rattle.lattice_algebra.specs.Point.{◌≈◌, image, HasCoordinatesWithin};
ghost use Rattle.exact_ops.specs.declared.TheConstants.{UNIT as PARTS, MAX_COORDINATE, MAX_SHIFT};
ghost use Rattle.exact_ops.specs.Narrow.{IsNarrow};
ghost use Rattle.exact_ops.specs.Raw.{numbers_of};
ghost use Rattle.exact_ops.specs.Points.{point_with};
ghost use Rattle.exact_ops.specs.Numbers.{point_in};
ghost use Rattle.exact_ops.specs.Moves.{map_with, IsShiftInRange};

use crate::UNIT;
use crate::image::{image_coordinate, shift_coordinate};
use crate::matrix::{Rotation, Vector};
use crate::point::Point;
use crate::raw::Raw;
use std::marker::Model;

/// A symmetry operator modulo the translations of the lattice: a matrix W with a whole inverse and entries from -2 to 2,
/// and a translation t in parts of a cell, each from 0 to `UNIT - 1`.
#[derive(Clone, Copy, PartialEq, Eq, Debug, Drop)]
pub struct Op {
    w: Rotation,
    t: Vector,
}

impl Model for Op {
    ghost use Rattle.lattice_algebra.specs.Operator.{Operator};
    ghost use Rattle.exact_ops.specs.Narrow.{IsNarrow};

    ghost Value = { Operator };

    ghost use Rattle.exact_ops.specs.Fields.{operator_in, stored_matrix, stored_column};

    ghost view = { λ a. operator_in a.w a.t };

    ghost invariant = { λ a. IsNarrow (operator_in a.w a.t) };

    ghost inverse = { λ f. record { w = stored_matrix f.w; t = stored_column f.t } };
}

/// Why a Raw is no operator.
#[derive(Clone, Copy, PartialEq, Eq, Debug, Drop)]
pub enum OpFault {
    /// The matrix has no whole inverse.
    NotUnimodular,
    /// It has one, but an entry lies outside -2..=2.
    Wide,
}

impl Op {
    /// The identity matrix and no translation.
    pub fn identity() -> Op
        ensures { result ≡ identity_operator }
    {
        Op {
            w: Rotation::IDENTITY,
            t: Vector::ZERO,
        }
    }

    /// The operator with the numbers of a Raw.
    pub fn of(raw: &Raw) -> Result<Op, OpFault>
        ensures value { IfOk result (λ op. op ≡ numbers_of raw.now.w raw.now.t) }
        ensures ok { IsOk result
            ↔ (IsUnimodular (matrix_of raw.now.w) × HasEntriesWithin 2 (matrix_of raw.now.w)) }
        ensures not_unimodular { IsErrOf result OpFault.NotUnimodular
            ↔ (¬ IsUnimodular (matrix_of raw.now.w)) }
    {
        let w = Rotation::of(&raw.w);
        if !raw.unimodular() {
            return Err(OpFault::NotUnimodular);
        }
        if !w.is_within(2) {
            return Err(OpFault::Wide);
        }
        let t = Vector::of(&raw.t);
        Ok(Op { w, t })
    }

    /// The matrix, row by row.
    pub fn w(&self) -> [i32; 9]
        ensures value { result ≡ entries self.now.w }
        // What is true of every operator.
        ensures narrow { IsNarrow self.now }
    {
        self.w.rows()
    }

    /// The translation, in parts of a cell.
    pub fn t(&self) -> [i32; 3]
        ensures value { result ≡ coordinates self.now.t }
        ensures narrow { IsNarrow self.now }
    {
        self.t.numbers()
    }

    /// The numerators of the image of a point, over the denominator of the point. They are exact and not reduced, and can
    /// leave the range of a Point.
    pub fn image_of(&self, point: &Point) -> [i128; 3]
        ensures value { point_with result point.now.d
            ≈ image PARTS (map_of self.now) (point_in point.now) }
        ensures within { HasCoordinatesWithin (6 * MAX_COORDINATE + 1)
            (point_with result point.now.d) }
    {
        let w = &self.w;
        let t = &self.t;
        let [x, y, z] = point.n;
        let part = point.d / i128::from(UNIT);
        [
            image_coordinate(w.xx, w.xy, w.xz, t.x, x, y, z, part),
            image_coordinate(w.yx, w.yy, w.yz, t.y, x, y, z, part),
            image_coordinate(w.zx, w.zy, w.zz, t.z, x, y, z, part),
        ]
    }

    /// The whole shift of the product self after first, where first is shifted by these whole cells: what its
    /// translation has beside that of `compose`.
    pub fn shift_after(&self, first: &Op, shift: &[i64; 3]) -> [i64; 3]
        requires { IsShiftInRange (column_of shift.now) }
        ensures value { IsShift PARTS (map_of self.now ∘ map_with first.now shift.now)
            (column_of result) }
        ensures within { AreWithin (7 * MAX_SHIFT) (column_of result).x
            (column_of result).y (column_of result).z }
    {
        let w = &self.w;
        let carry = first.t.carried(w, &self.t);
        let [x, y, z] = *shift;
        [
            shift_coordinate(w.xx, w.xy, w.xz, carry.x, x, y, z),
            shift_coordinate(w.yx, w.yy, w.yz, carry.y, x, y, z),
            shift_coordinate(w.zx, w.zy, w.zz, carry.z, x, y, z),
        ]
    }
}

/// The operator a after b, its translation modulo the cell. None exactly where an entry of the product of the matrices
/// lies outside -2..=2.
pub fn compose(a: &Op, b: &Op) -> Option<Op>
    ensures some { IsSome result ↔ HasEntriesWithin 2 (a.now.w · b.now.w) }
    ensures value { IfSome result (λ op. op ≡ product UNIT a.now b.now) }
{
    let w = a.w.after(&b.w);
    if !w.is_within(2) {
        return None;
    }
    let t = b.t.moved(&a.w, &a.t);
    Some(Op { w, t })
}

/// The inverse of an operator, its translation modulo the cell. None exactly where an entry of the inverse matrix lies
/// outside -2..=2.
pub fn inverse(a: &Op) -> Option<Op>
    ensures some { (g : Operator) → IsInverse UNIT a.now g
        → (IsSome result ↔ HasEntriesWithin 2 g.w) }
    ensures value { IfSome result (λ op. IsInverse UNIT a.now op) }
{
    let sign = a.w.sign();
    let w = a.w.scaled_adjugate(sign);
    if !w.is_within(2) {
        return None;
    }
    let t = a.t.negated().moved(&w, &Vector::ZERO);
    Some(Op { w, t })
}
