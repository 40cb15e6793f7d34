ghost use Rattle.std.specs.Prelude.{◌≡◌, ◌≤◌, ◌+◌, ◌*◌, ◌-◌, ◌^◌, ◌↔◌, ◌+ℤ◌, ◌*ℤ◌, unsigned_abs, IsTrue};
ghost use Rattle.lattice_algebra.specs.Matrix.{sum_of_products};
ghost use Rattle.lattice_algebra.specs.Operator.{AreParts, AreWithin, HasEntriesWithin};
ghost use Rattle.lattice_algebra.specs.Map.{map_of};
ghost use Rattle.lattice_algebra.specs.Point.{◌≈◌, image, HasCoordinatesWithin};
ghost use Rattle.exact_ops.specs.declared.TheConstants.{UNIT as PARTS, MAX_ENTRY, MAX_COORDINATE as LIMIT, MAX_DENOMINATOR};
ghost use Rattle.exact_ops.specs.Fields.{matrix_in, column_in, operator_in};
ghost use Rattle.exact_ops.specs.Points.{point_with};
ghost use Rattle.exact_ops.specs.Numbers.{point_in};

use exact_ops::{MAX_COORDINATE, Point, Rotation, UNIT, Vector};

/// The numerators of the image W x + t / UNIT of a point, over the denominator of the point.
pub fn image_of(w: &Rotation, t: &Vector, point: &Point) -> [i128; 3]
    requires within { HasEntriesWithin MAX_ENTRY (matrix_in w.now) }
    requires in_cell { AreParts PARTS (column_in t.now) }
    ensures { point_with result point.now.d
        ≈ image PARTS (map_of (operator_in w.now t.now)) (point_in point.now) }
{
    let [x, y, z] = point.n;
    let part = point.d / i128::from(UNIT);
    [
        coordinate(w.xx, w.xy, w.xz, t.x, x, y, z, part),
        coordinate(w.yx, w.yy, w.yz, t.y, x, y, z, part),
        coordinate(w.zx, w.zy, w.zz, t.z, x, y, z, part),
    ]
}

/// A row of a matrix times a column, and t times `part` more: a numerator of the image of a point, where `part` is the
/// numerator of one part of a cell.
fn coordinate(a: i32, b: i32, c: i32, t: i32, x: i128, y: i128, z: i128, part: i128) -> i128
    requires row { AreWithin MAX_ENTRY a b c }
    requires translation { unsigned_abs t ≤ PARTS - 1 }
    requires point { AreWithin (LIMIT * (PARTS * MAX_DENOMINATOR ^ 3)) x y z }
    requires part { unsigned_abs part ≤ MAX_DENOMINATOR ^ 3 }
    ensures value { result ≡ sum_of_products a b c x y z +ℤ t *ℤ part }
    ensures size { unsigned_abs result
        ≤ (3 * MAX_ENTRY * LIMIT * PARTS + PARTS - 1) * MAX_DENOMINATOR ^ 3 }
{
    let a = i128::from(a);
    let b = i128::from(b);
    let c = i128::from(c);
    let t = i128::from(t);
    a * x + b * y + c * z + t * part
}

/// Whether each n / d is at most `MAX_COORDINATE` in size.
pub fn are_coordinates(n: &[i128; 3], d: i128) -> bool
    requires { unsigned_abs d ≤ PARTS * MAX_DENOMINATOR ^ 3 }
    ensures { IsTrue result ↔ HasCoordinatesWithin LIMIT (point_with n.now d) }
{
    let limit = u128::from(MAX_COORDINATE) * d.unsigned_abs();
    let [x, y, z] = *n;
    x.unsigned_abs() <= limit && y.unsigned_abs() <= limit && z.unsigned_abs() <= limit
}
