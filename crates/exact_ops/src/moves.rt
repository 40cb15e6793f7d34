ghost use Rattle.std.specs.Prelude.{◌≡◌, ◌≤◌, ◌+◌, ◌*◌, ◌^◌, ◌↔◌, ◌+ℤ◌, ◌*ℤ◌, unsigned_abs, IsTrue, IsSome, IfSome};
ghost use Rattle.lattice_algebra.specs.Matrix.{Column, column_of, ◌·◌};
ghost use Rattle.lattice_algebra.specs.Operator.{AreWithin, HasEntriesWithin};
ghost use Rattle.lattice_algebra.specs.Map.{◌∘◌, IsShift};
ghost use Rattle.lattice_algebra.specs.Point.{◌≈◌, image, HasCoordinatesWithin};
ghost use Rattle.exact_ops.specs.declared.TheConstants.{UNIT, MAX_COORDINATE as COORDINATE_LIMIT, MAX_DENOMINATOR, MAX_SHIFT as SHIFT_LIMIT};
ghost use Rattle.exact_ops.specs.Points.{point_with};
ghost use Rattle.exact_ops.specs.Numbers.{point_in};
ghost use Rattle.exact_ops.specs.Moves.{map_with, IsShiftInRange};

use crate::op::{Op, compose};
use crate::point::Point;
use crate::{MAX_COORDINATE, MAX_SHIFT};

/// An element of the space group: the map `x -> W x + t / UNIT + shift`. Each whole shift is at most `MAX_SHIFT` in size.
#[derive(Clone, Copy, PartialEq, Eq, Debug, Drop)]
pub struct Move {
    pub op: Op,
    pub shift: [i64; 3],
    pub ghost in_range: { IsShiftInRange (column_of shift) },
}

impl Move {
    /// The image of a point, over the same denominator. None exactly where a coordinate of the image is beyond
    /// `MAX_COORDINATE` in size.
    pub fn apply(&self, point: &Point) -> Option<Point>
        ensures some { IsSome result ↔ HasCoordinatesWithin COORDINATE_LIMIT
            (image UNIT (map_with self.now.op self.now.shift) (point_in point.now)) }
        ensures denominator { IfSome result (λ q. q.d ≡ point.now.d) }
        ensures value { IfSome result (λ q. point_in q
            ≈ image UNIT (map_with self.now.op self.now.shift) (point_in point.now)) }
    {
        let n = self.image_of(point);
        if !are_coordinates(&n, point.d) {
            return None;
        }
        Some(Point { n, d: point.d })
    }

    /// Next after self. None exactly where an entry of the product of the matrices lies outside -2..=2, or a whole shift
    /// of the product is beyond `MAX_SHIFT` in size.
    pub fn then(&self, next: &Move) -> Option<Move>
        ensures some { (k : Column) → IsShift UNIT
            (map_with next.now.op next.now.shift ∘ map_with self.now.op self.now.shift) k
            → (IsSome result
            ↔ (HasEntriesWithin 2 (next.now.op.w · self.now.op.w) × IsShiftInRange k)) }
        ensures value { IfSome result (λ m. map_with m.op m.shift
            ≡ map_with next.now.op next.now.shift ∘ map_with self.now.op self.now.shift) }
    {
        let op = compose(&next.op, &self.op)?;
        let [x, y, z] = next.op.shift_after(&self.op, &self.shift);
        let x = x + next.shift[0];
        let y = y + next.shift[1];
        let z = z + next.shift[2];
        if !are_shifts(x, y, z) {
            return None;
        }
        Some(Move {
            op,
            shift: [x, y, z],
        })
    }

    /// The numerators of the image of a point, over the denominator of the point.
    fn image_of(&self, point: &Point) -> [i128; 3]
        ensures { point_with result point.now.d
            ≈ image UNIT (map_with self.now.op self.now.shift) (point_in point.now) }
    {
        let [x, y, z] = self.op.image_of(point);
        [
            shifted(x, self.shift[0], point.d),
            shifted(y, self.shift[1], point.d),
            shifted(z, self.shift[2], point.d),
        ]
    }
}

/// A numerator over d, shifted by whole cells.
fn shifted(n: i128, shift: i64, d: i128) -> i128
    requires numerator { unsigned_abs n
        ≤ (6 * COORDINATE_LIMIT + 1) * (UNIT * MAX_DENOMINATOR ^ 3) }
    requires shift { unsigned_abs shift ≤ SHIFT_LIMIT }
    requires denominator { unsigned_abs d ≤ UNIT * MAX_DENOMINATOR ^ 3 }
    ensures value { result ≡ n +ℤ shift *ℤ d }
    ensures size { unsigned_abs result
        ≤ (6 * COORDINATE_LIMIT + 1 + SHIFT_LIMIT) * (UNIT * MAX_DENOMINATOR ^ 3) }
{
    n + i128::from(shift) * d
}

/// Whether each n / d is at most `MAX_COORDINATE` in size.
fn are_coordinates(n: &[i128; 3], d: i128) -> bool
    requires { unsigned_abs d ≤ UNIT * MAX_DENOMINATOR ^ 3 }
    ensures { IsTrue result ↔ HasCoordinatesWithin COORDINATE_LIMIT (point_with n.now d) }
{
    let limit = u128::from(MAX_COORDINATE) * d.unsigned_abs();
    let [x, y, z] = *n;
    x.unsigned_abs() <= limit && y.unsigned_abs() <= limit && z.unsigned_abs() <= limit
}

fn are_shifts(x: i64, y: i64, z: i64) -> bool
    ensures { IsTrue result ↔ AreWithin SHIFT_LIMIT x y z }
{
    x.unsigned_abs() <= MAX_SHIFT && y.unsigned_abs() <= MAX_SHIFT && z.unsigned_abs() <= MAX_SHIFT
}
