ghost use Rattle.std.specs.Prelude.{◌≡◌, ◌↔◌, ◌≤◌, ◌*◌, ◌^◌, ℤ, pos, ◌*ℤ◌, ◌<ℤ◌, unsigned_abs, IsTrue};
ghost use Rattle.std.specs.Int.{w128, int_wrapping_mul};
ghost use Rattle.lattice_algebra.specs.Point.{◌≈◌};
ghost use Rattle.exact_ops.specs.declared.TheConstants.{UNIT as PARTS, MAX_DENOMINATOR};
ghost use Rattle.exact_ops.specs.Numbers.{point_in};
ghost use Rattle.space_groups.specs.Space.{IsInCell};

use exact_ops::{Point, UNIT};

/// Whether two points in the cell are one, however they are written.
pub fn is_same_point(p: &Point, q: &Point) -> bool
    requires first { IsInCell (point_in p.now) }
    requires second { IsInCell (point_in q.now) }
    ensures { IsTrue result ↔ (point_in p.now ≈ point_in q.now) }
{
    if is_surely_other(p, q) {
        return false;
    }
    let [x, y, z] = p.n;
    let [u, v, w] = q.n;
    let d = over_unit(p);
    let e = over_unit(q);
    if !is_same_ratio(x, d, u, e) {
        return false;
    }
    if !is_same_ratio(y, d, v, e) {
        return false;
    }
    is_same_ratio(z, d, w, e)
}

/// Whether the first coordinates differ, as they do for most points: over one denominator as they are, else by their cross products
/// in the bits that the machine keeps.
fn is_surely_other(p: &Point, q: &Point) -> bool
    ensures { IsTrue result → point_in p.now ≈ point_in q.now → ⊥ }
{
    let [x, _, _] = p.n;
    let [u, _, _] = q.n;
    if p.d == q.d {
        return x != u;
    }
    kept_product(q.d, x) != kept_product(p.d, u)
}

/// The product in the bits that the machine keeps.
fn kept_product(a: i128, b: i128) -> i128
    ensures { result ≡ int_wrapping_mul w128 a b }
{
    a.wrapping_mul(b)
}

/// The denominator of the point over `UNIT`, which divides it.
fn over_unit(point: &Point) -> i128
    ensures exact { pos PARTS *ℤ result ≡ point.now.d }
    ensures positive { pos 0 <ℤ result }
    ensures small { unsigned_abs result ≤ MAX_DENOMINATOR ^ 3 }
{
    point.d.div_euclid(i128::from(UNIT))
}

/// Whether a / d and b / e are one number, by the cross products.
fn is_same_ratio(a: i128, d: i128, b: i128, e: i128) -> bool
    requires first { unsigned_abs a ≤ PARTS * MAX_DENOMINATOR ^ 3 }
    requires under { unsigned_abs d ≤ MAX_DENOMINATOR ^ 3 }
    requires second { unsigned_abs b ≤ PARTS * MAX_DENOMINATOR ^ 3 }
    requires over { unsigned_abs e ≤ MAX_DENOMINATOR ^ 3 }
    ensures { IsTrue result ↔ (a *ℤ e ≡ b *ℤ d) }
{
    a * e == b * d
}
