//! The whole shifts that an element of an operator can have which fixes a point of the first cell of an image: an interval for
//! each coordinate. The coordinates of the first cell stay below 1, so an end of an interval that only 1 would reach is left out.

ghost use Rattle.std.specs.Prelude.{◌≡◌, ◌<◌, ◌≤◌, ◌+◌, ◌*◌, ◌^◌, ◌↔◌, ◌*ℤ◌, ◌≤ℤ◌, ◌<ℤ◌, ℤ, pos, unsigned_abs, Some, length, slice_get};
ghost use Rattle.lattice_algebra.specs.Matrix.{Column};
ghost use Rattle.lattice_algebra.specs.Operator.{Operator, AreWithin, HasEntriesWithin};
ghost use Rattle.exact_ops.specs.declared.TheConstants.{UNIT as PARTS};
ghost use Rattle.exact_ops.specs.Fields.{matrix_in};
ghost use Rattle.group_closure.specs.declared.TheConstants.{MAX_OPERATORS};
ghost use Rattle.space_groups.specs.Intervals.{differences, base_shift, sum_below, sum_above, open_end, IsBetweenEnds, AreBetweenEnds};
ghost use Rattle.affine_sets.specs.declared.TheConstants.{MAX_GROWN_SHIFT, MAX_NEAR_SHIFT};
ghost use Rattle.affine_sets.specs.Fields.{offset_in};
ghost use Rattle.wyckoff_rows.specs.Steps.{IsEntry, IsIn, AreIn, AreRanges};

use crate::entry::Entry;
use crate::spans::whole_columns;
use affine_sets::Special;
use affine_sets::numbers::{
    Offset, cell_over, cells_in, image, multiple, offset_difference, offset_multiple, offset_sum,
    product, sum,
};
use exact_ops::{Op, Rotation};
use group_closure::Group;

/// Whole numbers from low to below end.
#[derive(Clone, Copy, Drop)]
pub struct Range {
    pub low: i64,
    pub end: i64,
}

/// A range for each coordinate of a whole shift.
#[derive(Clone, Copy, Drop)]
pub struct Ranges {
    pub xs: Range,
    pub ys: Range,
    pub zs: Range,
}

/// The whole shifts that an element of the operator at place i can have which fixes a point of the first cell of the image.
pub fn shift_ranges(g: &Group, entry: &Entry, i: u8) -> Ranges
    requires place { i < length g.now }
    requires entry { IsEntry g.now entry.now }
    ensures enough { (f : Operator) → slice_get g.now i ≡ Some f
        → AreRanges g.now entry.now.set f result }
    ensures small { (k : Column) → AreIn result k → AreWithin MAX_GROWN_SHIFT k.x k.y k.z }
{
    let f = g.op(i);
    let r = whole_columns(&entry.average);
    let base = base_of(&entry.average, &f);
    ranges_between(&base, &differences(&f, &r), entry.average.over())
}

/// (I - W) r, where W is the matrix of f.
fn differences(f: &Op, r: &Rotation) -> Rotation
    requires { HasEntriesWithin (2 * MAX_OPERATORS) (matrix_in r.now) }
    ensures value { matrix_in result ≡ differences f.now.w (matrix_in r.now) }
    ensures size { HasEntriesWithin (14 * MAX_OPERATORS) (matrix_in result) }
{
    let w = Rotation::of(&f.w());
    sum(r, &multiple(-1, &product(&w, r)))
}

/// t - (W t + n w), where t is the translation of the average over n, and f is W, w.
fn base_of(s: &Special, f: &Op) -> Offset
    requires { (let n = MAX_OPERATORS * (PARTS * (MAX_NEAR_SHIFT + 1)) in
        AreWithin n s.now.t.x s.now.t.y s.now.t.z) }
    ensures value { offset_in result ≡ base_shift s.now f.now }
    ensures size { AreWithin (10 ^ 8) result.x result.y result.z }
{
    let t = translation_of(s);
    let turned = image(&Rotation::of(&f.w()), &t);
    let parts = offset_multiple(i64::from(s.over()), &Offset::of(&f.t()));
    offset_difference(&t, &offset_sum(&turned, &parts))
}

/// The translation of an average.
fn translation_of(s: &Special) -> Offset
    ensures { offset_in result ≡ s.now.t }
{
    let [x, y, z] = s.t();
    Offset { x, y, z }
}

/// The whole shifts between the ends of intervals.
fn ranges_between(base: &Offset, d: &Rotation, over: u16) -> Ranges
    requires some { 0 < over }
    requires few { over ≤ MAX_OPERATORS }
    requires base { AreWithin (10 ^ 8) base.now.x base.now.y base.now.z }
    requires size { HasEntriesWithin (14 * MAX_OPERATORS) (matrix_in d.now) }
    ensures { (k : Column) → AreIn result k
        ↔ AreBetweenEnds (pos PARTS *ℤ pos over) (offset_in base.now) (matrix_in d.now) k }
{
    Ranges {
        xs: range_of(base.x, d.xx, d.xy, d.xz, over),
        ys: range_of(base.y, d.yx, d.yy, d.yz, over),
        zs: range_of(base.z, d.zx, d.zy, d.zz, over),
    }
}

/// The whole numbers of which so many times as a cell has parts over `over` lie between the base and that often the sum of
/// those of the three numbers that are below 0, or above.
fn range_of(base: i64, a: i32, b: i32, c: i32, over: u16) -> Range
    requires some { 0 < over }
    requires few { over ≤ MAX_OPERATORS }
    requires base { unsigned_abs base ≤ 10 ^ 8 }
    requires size { AreWithin (14 * MAX_OPERATORS) a b c }
    ensures { (k : ℤ) → IsIn result k ↔ IsBetweenEnds (pos PARTS *ℤ pos over) base a b c k }
{
    let cell = cell_over(over);
    let low = end_of(base, cell, least(a, b, c));
    let high = end_of(base, cell, greatest(a, b, c));
    range_between(low, high, over)
}

/// The base, if the sum is 0, else the whole number before base + cell * sum on the way there.
fn end_of(base: i64, cell: i64, sum: i64) -> i64
    requires base { unsigned_abs base ≤ 10 ^ 8 }
    requires cell { unsigned_abs cell ≤ PARTS * MAX_OPERATORS }
    requires sum { unsigned_abs sum ≤ 42 * MAX_OPERATORS }
    ensures value { result ≡ open_end cell base sum }
    ensures size { unsigned_abs result ≤ 10 ^ 12 }
{
    base + cell * sum - sum.signum()
}

/// The whole numbers of which so many times as a cell has parts over `over` lie between two ends.
fn range_between(low: i64, high: i64, over: u16) -> Range
    requires some { 0 < over }
    requires few { over ≤ MAX_OPERATORS }
    requires low { unsigned_abs low ≤ 10 ^ 12 }
    requires high { unsigned_abs high ≤ 10 ^ 12 }
    ensures { let u = pos PARTS *ℤ pos over in
        (k : ℤ) → IsIn result k ↔ ((low ≤ℤ (u *ℤ k)) × ((u *ℤ k) ≤ℤ high)) }
{
    Range {
        low: -cells_in(-low, over),
        end: cells_in(high, over) + 1,
    }
}

/// The sum of those of three numbers that are below 0.
fn least(a: i32, b: i32, c: i32) -> i64
    requires { AreWithin (14 * MAX_OPERATORS) a b c }
    ensures value { result ≡ sum_below a b c }
    ensures size { unsigned_abs result ≤ 42 * MAX_OPERATORS }
{
    let a = i64::from(a.min(0));
    let b = i64::from(b.min(0));
    let c = i64::from(c.min(0));
    a + b + c
}

/// The sum of those of three numbers that are above 0.
fn greatest(a: i32, b: i32, c: i32) -> i64
    requires { AreWithin (14 * MAX_OPERATORS) a b c }
    ensures value { result ≡ sum_above a b c }
    ensures size { unsigned_abs result ≤ 42 * MAX_OPERATORS }
{
    let a = i64::from(a.max(0));
    let b = i64::from(b.max(0));
    let c = i64::from(c.max(0));
    a + b + c
}
