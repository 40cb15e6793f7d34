ghost use Rattle.std.specs.Prelude.{◌≡◌, ◌≤◌, ◌*◌, ◌-◌, ◌^◌, ◌+ℤ◌, ◌*ℤ◌, unsigned_abs};
ghost use Rattle.lattice_algebra.specs.Matrix.{sum_of_products};
ghost use Rattle.lattice_algebra.specs.Operator.{AreWithin};
ghost use Rattle.exact_ops.specs.declared.TheConstants.{UNIT as PARTS, MAX_COORDINATE, MAX_DENOMINATOR, MAX_SHIFT};

/// A row of a matrix times a column, and t times `part` more: a numerator of the image of a point, where `part` is the
/// numerator of one part of a cell.
pub fn image_coordinate(
    a: i32,
    b: i32,
    c: i32,
    t: i32,
    x: i128,
    y: i128,
    z: i128,
    part: i128,
) -> i128
    requires row { AreWithin 2 a b c }
    requires translation { unsigned_abs t ≤ PARTS - 1 }
    requires point { AreWithin (MAX_COORDINATE * (PARTS * MAX_DENOMINATOR ^ 3)) x y z }
    requires part { unsigned_abs part ≤ MAX_DENOMINATOR ^ 3 }
    ensures { result ≡ sum_of_products a b c x y z +ℤ t *ℤ part }
{
    let a = i128::from(a);
    let b = i128::from(b);
    let c = i128::from(c);
    let t = i128::from(t);
    a * x + b * y + c * z + t * part
}

/// A row of a matrix times whole shifts, and `carry` more.
pub fn shift_coordinate(a: i32, b: i32, c: i32, carry: i32, x: i64, y: i64, z: i64) -> i64
    requires row { AreWithin 2 a b c }
    requires carry { unsigned_abs carry ≤ 7 }
    requires shift { AreWithin MAX_SHIFT x y z }
    ensures value { result ≡ sum_of_products a b c x y z +ℤ carry }
    ensures size { unsigned_abs result ≤ 7 * MAX_SHIFT }
{
    let a = i64::from(a);
    let b = i64::from(b);
    let c = i64::from(c);
    a * x + b * y + c * z + i64::from(carry)
}
