ghost use Rattle.std.specs.Prelude.{◌≡◌, ◌≤◌, ◌↔◌, ◌⊎◌, IsTrue, unsigned_abs, ◌-ℤ◌, ◌*ℤ◌};
ghost use Rattle.lattice_algebra.specs.Matrix.{origin};
ghost use Rattle.lattice_algebra.specs.Operator.{AreWithin};
ghost use Rattle.exact_ops.specs.Fields.{column_in};
ghost use Rattle.parameter_forms.specs.declared.TheConstants.{MAX_MATRIX, MAX_MINOR};
ghost use Rattle.parameter_forms.specs.Finding.{cross_product, IsSomeOther};

use exact_ops::Vector;

/// The cross product of two columns of a matrix.
pub(crate) fn cross(a: &Vector, b: &Vector) -> Vector
    requires left { AreWithin MAX_MATRIX a.now.x a.now.y a.now.z }
    requires right { AreWithin MAX_MATRIX b.now.x b.now.y b.now.z }
    ensures value { column_in result ≡ cross_product (column_in a.now) (column_in b.now) }
    ensures size { AreWithin MAX_MINOR result.x result.y result.z }
{
    Vector {
        x: minor(a.y, b.z, a.z, b.y),
        y: minor(a.z, b.x, a.x, b.z),
        z: minor(a.x, b.y, a.y, b.x),
    }
}

fn minor(a: i32, b: i32, c: i32, d: i32) -> i32
    requires left { (unsigned_abs a ≤ MAX_MATRIX) × (unsigned_abs b ≤ MAX_MATRIX) }
    requires right { (unsigned_abs c ≤ MAX_MATRIX) × (unsigned_abs d ≤ MAX_MATRIX) }
    ensures value { result ≡ a *ℤ b -ℤ c *ℤ d }
    ensures size { unsigned_abs result ≤ MAX_MINOR }
{
    a * b - c * d
}

/// Whether all its numbers are 0.
pub(crate) fn is_nothing(v: &Vector) -> bool
    ensures { IsTrue result ↔ (column_in v.now ≡ origin) }
{
    v.x == 0 && v.y == 0 && v.z == 0
}

/// One of three vectors, the first that is not zero; zero where all are.
pub(crate) fn first_other(a: &Vector, b: &Vector, c: &Vector) -> Vector
    ensures { IsSomeOther (column_in a.now) (column_in b.now) (column_in c.now)
        (column_in result) }
{
    if !is_nothing(a) {
        return *a;
    }
    if !is_nothing(b) {
        return *b;
    }
    *c
}
