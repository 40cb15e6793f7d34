ghost use Rattle.std.specs.Prelude.{◌≡◌, ◌≢◌, ◌≤◌, ◌↔◌, ◌*◌, ℤ, pos, ◌<ℤ◌, ◌*ℤ◌, unsigned_abs, IsTrue};
ghost use Rattle.std.specs.Int.{◌∣◌};
ghost use Rattle.lattice_algebra.specs.Matrix.{Column, times, origin};
ghost use Rattle.lattice_algebra.specs.Operator.{AreWithin};
ghost use Rattle.exact_ops.specs.Fields.{column_in};
ghost use Rattle.group_closure.specs.declared.TheConstants.{MAX_OPERATORS};
ghost use Rattle.op_types.specs.Axis.{IsDirected, HasNoDivisor};
ghost use Rattle.op_types.specs.Vector.{AreParallel, Divides};

use exact_ops::{Vector, greatest_common_divisor};

pub fn is_origin(v: &Vector) -> bool
    ensures { IsTrue result ↔ (column_in v.now ≡ origin) }
{
    v.x == 0 && v.y == 0 && v.z == 0
}

/// Whether both are on one line through the origin.
pub fn are_parallel(v: &Vector, other: &Vector) -> bool
    requires left { AreWithin (2 * MAX_OPERATORS) v.now.x v.now.y v.now.z }
    requires right { AreWithin (2 * MAX_OPERATORS) other.now.x other.now.y other.now.z }
    ensures { IsTrue result ↔ AreParallel (column_in v.now) (column_in other.now) }
{
    if !have_one_product(v.x, other.y, v.y, other.x) {
        return false;
    }
    if !have_one_product(v.y, other.z, v.z, other.y) {
        return false;
    }
    have_one_product(v.z, other.x, v.x, other.z)
}

/// The vector of the same line without common divisor whose first entry other than 0 is positive.
pub fn reduced(v: &Vector) -> Vector
    requires some { column_in v.now ≢ origin }
    requires within { AreWithin (2 * MAX_OPERATORS) v.now.x v.now.y v.now.z }
    ensures same { (k : ℤ) × (k ≢ pos 0) × (column_in v.now ≡ times k (column_in result)) }
    ensures no_divisor { HasNoDivisor (column_in result) }
    ensures directed { IsDirected (column_in result) }
{
    let divisor = signed_divisor(v);
    Vector {
        x: quotient(v.x, divisor),
        y: quotient(v.y, divisor),
        z: quotient(v.z, divisor),
    }
}

/// Whether the first entry other than 0 is positive.
fn is_directed(v: &Vector) -> bool
    ensures { IsTrue result ↔ IsDirected (column_in v.now) }
{
    if v.x != 0 {
        return v.x > 0;
    }
    if v.y != 0 {
        return v.y > 0;
    }
    v.z > 0
}

/// The greatest common divisor of the entries with the sign of the first entry other than 0.
fn signed_divisor(v: &Vector) -> i32
    requires some { column_in v.now ≢ origin }
    requires within { AreWithin (2 * MAX_OPERATORS) v.now.x v.now.y v.now.z }
    ensures some { result ≢ pos 0 }
    ensures small { unsigned_abs result ≤ 2 * MAX_OPERATORS }
    ensures divides { Divides result (column_in v.now) }
    ensures greatest { (d : ℤ) → Divides d (column_in v.now)
        → unsigned_abs d ∣ unsigned_abs result }
    ensures directed { (b : Column) → column_in v.now ≡ times result b → IsDirected b }
{
    if is_directed(v) {
        return common_divisor(v);
    }
    -common_divisor(v)
}

/// The greatest common divisor of the entries.
fn common_divisor(v: &Vector) -> i32
    requires some { column_in v.now ≢ origin }
    requires within { AreWithin (2 * MAX_OPERATORS) v.now.x v.now.y v.now.z }
    ensures positive { pos 0 <ℤ result }
    ensures small { unsigned_abs result ≤ 2 * MAX_OPERATORS }
    ensures divides { Divides result (column_in v.now) }
    ensures greatest { (d : ℤ) → Divides d (column_in v.now)
        → unsigned_abs d ∣ unsigned_abs result }
{
    let rest = greatest_common_divisor(size(v.y), size(v.z));
    greatest_common_divisor(size(v.x), rest) as i32
}

/// Whether a b is c d.
fn have_one_product(a: i32, b: i32, c: i32, d: i32) -> bool
    requires left { (unsigned_abs a ≤ 2 * MAX_OPERATORS) × (unsigned_abs b ≤ 2 * MAX_OPERATORS) }
    requires right { (unsigned_abs c ≤ 2 * MAX_OPERATORS) × (unsigned_abs d ≤ 2 * MAX_OPERATORS) }
    ensures { IsTrue result ↔ (a *ℤ b ≡ c *ℤ d) }
{
    a * b == c * d
}

/// The quotient of a number by a divisor of it.
fn quotient(n: i32, divisor: i32) -> i32
    requires some { divisor ≢ pos 0 }
    requires small { (unsigned_abs n ≤ 2 * MAX_OPERATORS)
        × (unsigned_abs divisor ≤ 2 * MAX_OPERATORS) }
    requires divides { (q : ℤ) × (n ≡ divisor *ℤ q) }
    ensures { n ≡ divisor *ℤ result }
{
    n / divisor
}

fn size(n: i32) -> u128
    ensures { result ≡ unsigned_abs n }
{
    u128::from(n.unsigned_abs())
}
