ghost use Rattle.std.specs.Prelude.{◌≡◌, ◌≤◌, ◌<◌, ◌+◌, ◌*◌, ◌^◌, ℤ, pos, ◌+ℤ◌, ◌-ℤ◌, ◌*ℤ◌, ◌<ℤ◌, unsigned_abs, List, IfOk, IsSome, IfSome, IsTrue, length, ◌↔◌};
ghost use Rattle.lattice_algebra.specs.Map.{Map, operator_of};
ghost use Rattle.exact_ops.specs.Elements.{map_in};
ghost use Rattle.group_closure.specs.GroupList.{IsGroup};
ghost use Rattle.group_closure.specs.declared.TheConstants.{MAX_OPERATORS};
ghost use Rattle.lattice_algebra.specs.Operator.{AreWithin};
ghost use Rattle.lattice_algebra.specs.Point.{◌≈◌};
ghost use Rattle.exact_ops.specs.Numbers.{point_in};
ghost use Rattle.exact_ops.specs.declared.TheConstants.{UNIT as PARTS};
ghost use Rattle.space_groups.specs.Space.{IsInCell, ScaledPoint, point_of};
ghost use Rattle.space_groups.specs.Averages.{IsInImage};
ghost use Rattle.space_groups.specs.Rows.{IsSpecial};
ghost use Rattle.space_groups.specs.Search.{IsFull};
ghost use Rattle.affine_sets.specs.declared.TheConstants.{MAX_GROWN_SHIFT, MAX_TRANSLATION};
ghost use Rattle.affine_sets.specs.Subs.{AreElements};
ghost use Rattle.affine_sets.specs.Conditions.{IsAverage, IsNearAverage, LeavesAlone, numerator_limit};

use crate::numbers::{cell_over, image, offset_difference, product};
use crate::special::{Special, Sum};
use crate::sub::Sub;
use exact_ops::{Move, NoMemory, Op, Point, Rotation, UNIT};
use group_closure::Group;
use site_symmetry::fixes;
use std::alloc::Global;

/// The elements of the space group that fix every point of the image of an average.
pub fn full(alloc: Global, g: &Group, s: &Special) -> Result<Sub, NoMemory>
    requires { IsAverage g.now s.now }
    ensures full { IfOk result (λ sub. IsFull PARTS g.now s.now sub) }
    ensures elements { IfOk result (AreElements g.now) }
{
    let Ok(mut moves) = Vec::with_capacity(alloc, usize::from(g.len())) else {
        return Err(NoMemory);
    };
    for i in 0..g.len() {
        if let Some(element) = fixes_image(&g.op(i as u8), s) {
            moves.push_reserved(element);
        }
    }
    Ok(Sub { moves })
}

/// The element of the operator that fixes every point of the image of s. None where there is none.
fn fixes_image(op: &Op, s: &Special) -> Option<Move>
    requires { IsNearAverage s.now }
    ensures some { (e : Map) → operator_of PARTS e ≡ op.now → LeavesAlone s.now e → IsSome result }
    ensures operator { IfSome result (λ m. op.now ≡ m.op) }
    ensures value { IfSome result (λ m. LeavesAlone s.now (map_in m)) }
{
    let w = Rotation::of(&op.w());
    if product(&w, &s.m) != s.m {
        return None;
    }
    let rest = offset_difference(&s.t, &image(&w, &s.t));
    let [x, y, z] = op.t();
    let x = whole_shift(rest.x, x, s.over)?;
    let y = whole_shift(rest.y, y, s.over)?;
    let z = whole_shift(rest.z, z, s.over)?;
    Some(Move {
        op: *op,
        shift: [x, y, z],
    })
}

/// The whole number of cells that n / over is beyond t, both in parts of a cell.
fn whole_shift(n: i64, t: i32, over: u16) -> Option<i64>
    requires some { 0 < over }
    requires within { over ≤ MAX_OPERATORS }
    requires part { unsigned_abs t ≤ PARTS }
    requires near { unsigned_abs n ≤ 7 * (over * (PARTS * (MAX_GROWN_SHIFT + 1))) }
    ensures some { (k : ℤ) → n ≡ pos over *ℤ (t +ℤ pos PARTS *ℤ k) → IsSome result }
    ensures value { IfSome result (λ k. n ≡ pos over *ℤ (t +ℤ pos PARTS *ℤ k)) }
    ensures size { IfSome result (λ k. unsigned_abs k ≤ 8 * MAX_GROWN_SHIFT) }
{
    exact_quotient(without(n, t, over), cell_over(over))
}

/// n without over times t.
fn without(n: i64, t: i32, over: u16) -> i64
    requires within { over ≤ MAX_OPERATORS }
    requires part { unsigned_abs t ≤ PARTS }
    requires near { unsigned_abs n ≤ MAX_TRANSLATION }
    ensures value { result ≡ n -ℤ pos over *ℤ t }
    ensures size { unsigned_abs result ≤ MAX_TRANSLATION + 10 ^ 12 }
{
    let over = i64::from(over);
    let t = i64::from(t);
    n - over * t
}

/// n / d, where it is whole.
pub fn exact_quotient(n: i64, d: i64) -> Option<i64>
    requires { pos 0 <ℤ d }
    ensures some { IsSome result ↔ ((k : ℤ) × (n ≡ k *ℤ d)) }
    ensures value { IfSome result (λ k. n ≡ k *ℤ d) }
{
    if n % d != 0 {
        return None;
    }
    Some(n / d)
}

/// Whether the point itself lies in the image of s.
pub fn holds(g: &Group, s: &Special, p: &Point) -> bool
    requires { s.now.n ≡ pos (length g.now) }
    ensures { (y : ScaledPoint) → point_in p.now ≈ point_of PARTS y
        → (IsTrue result ↔ IsInImage s.now y) }
{
    let m = &s.m;
    let t = &s.t;
    let [x, y, z] = p.n;
    let part = p.d / i128::from(UNIT);
    if !is_left(m.xx, m.xy, m.xz, t.x, x, y, z, x, part, s.over) {
        return false;
    }
    if !is_left(m.yx, m.yy, m.yz, t.y, x, y, z, y, part, s.over) {
        return false;
    }
    is_left(m.zx, m.zy, m.zz, t.z, x, y, z, z, part, s.over)
}

/// Whether a row of the map leaves the number n as it is, over the denominator of x, y and z.
fn is_left(
    a: i32,
    b: i32,
    c: i32,
    t: i64,
    x: i128,
    y: i128,
    z: i128,
    n: i128,
    part: i128,
    over: u16,
) -> bool
    requires row { AreWithin 384 a b c }
    requires translation { unsigned_abs t ≤ MAX_TRANSLATION }
    requires point { AreWithin numerator_limit x y z }
    requires number { unsigned_abs n ≤ numerator_limit }
    requires part { unsigned_abs part ≤ 10 ^ 18 }
    requires over { over ≤ MAX_OPERATORS }
    ensures { IsTrue result ↔ (a *ℤ x +ℤ b *ℤ y +ℤ c *ℤ z +ℤ t *ℤ part ≡ pos over *ℤ n) }
{
    let a = i128::from(a);
    let b = i128::from(b);
    let c = i128::from(c);
    let t = i128::from(t);
    let over = i128::from(over);
    a * x + b * y + c * z + t * part == over * n
}

/// The average over the site-symmetry group of a point: its special-position operator.
pub fn average_at(g: &Group, p: &Point) -> Special
    ensures special { IsSpecial PARTS g.now (point_in p.now) result }
    ensures over { result.n ≡ pos (length g.now) }
    // Of a point of the cell it may be asked for its full group and its key.
    ensures average { IsInCell (point_in p.now) → IsAverage g.now result }
    // What is true of every group.
    ensures group { IsGroup g.now }
{
    let mut sum = Sum::none();
    for i in 0..g.len() {
        if let Some(element) = fixes(g, i as u8, p) {
            sum.add(&element);
        }
    }
    sum.average(g)
}
