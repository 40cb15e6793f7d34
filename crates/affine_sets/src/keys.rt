//! The key of an average: the first of its conjugates. The greatest matrix is found first, each matrix asked once for the
//! members that have it; whole shifts are tried for that matrix alone, below the least numbers that make its columns whole, and
//! none along a column that is an earlier one or its opposite, but for whole cells.
ghost use Rattle.std.specs.Prelude.{◌≡◌, ◌⊎◌, ◌<◌, ◌≤◌, ◌+◌, ◌*◌, ◌↔◌, ℕ, ℤ, pos, ◌*ℤ◌, unsigned_abs, List, Some, IsTrue, length, slice_get};
ghost use Rattle.exact_ops.specs.declared.TheConstants.{UNIT as PARTS};
ghost use Rattle.group_closure.specs.declared.TheConstants.{MAX_OPERATORS};
ghost use Rattle.lattice_algebra.specs.Matrix.{Column, times, entries, coordinates};
ghost use Rattle.lattice_algebra.specs.Operator.{Operator, AreWithin, HasEntriesWithin};
ghost use Rattle.exact_ops.specs.Fields.{matrix_in, column_in};
ghost use Rattle.space_groups.specs.Keys.{IsBelow, IsKey, ComesBefore, Key as AnyKey};
ghost use Rattle.affine_sets.specs.Fields.{offset_in};
ghost use Rattle.affine_sets.specs.Averages.{IsKeyInCell};
ghost use Rattle.affine_sets.specs.Conditions.{IsAverage};
ghost use Rattle.affine_sets.specs.Conjugates.{IsLeftOf, turned_matrix, carried_key, moved_key, IsGreatestBefore, AreListed, IsWithRun, AreSizes, AreWholeFor, AreEnoughFor, IsMultiple, IsSameOrOpposite, shift_number, IsCandidate, IsNoLater, AreNotBefore};

use crate::numbers::{Offset, image, offset_difference, offset_multiple, offset_sum, product};
use crate::parts::Key;
use crate::special::{Special, in_cell};
use exact_ops::{Op, Rotation, UNIT, Vector, greatest_common_divisor};
use group_closure::{Group, MAX_OPERATORS};
use std::cmp::Ordering;

/// The key of an average: of all its conjugates by elements of the space group, the translations taken modulo the cell, the
/// first by the matrix, descending, and then by the translation, ascending.
pub fn key(g: &Group, s: &Special) -> Key
    requires { IsAverage g.now s.now }
    ensures key { IsKey PARTS g.now (length g.now) s.now result.key }
    ensures over { result.over ≡ length g.now }
{
    let left = s.in_cell();
    let mut starts = [0; MAX_OPERATORS];
    let greatest = greatest_matrix(g, &left, &mut starts);
    let sizes = shift_sizes(&greatest.m, left.over);
    let mut best = carried(&g.op(starts[0]), &left, &greatest.m);
    for i in 0..greatest.count {
        let at = starts[usize::from(i)];
        best = first_of_run(g, at, g.run_end(at), &left, &greatest.m, &sizes, &best);
    }
    best
}

/// A matrix, and how many runs of members turn that of an average to it.
#[derive(Clone, Copy, Drop)]
struct Greatest {
    m: Rotation,
    count: u8,
}

/// The greatest of the matrices W M W^-1. Each matrix W is asked once, and where its run starts is listed if it gives the
/// greatest.
fn greatest_matrix(g: &Group, s: &Key, starts: &mut [u8; MAX_OPERATORS]) -> Greatest
    requires { IsLeftOf g.now s.now }
    ensures listed { AreListed g.now s.now.key.m (matrix_in result.m)
        starts.new result.count (length g.now) }
    ensures within { HasEntriesWithin (2 * s.now.over) (matrix_in result.m) }
    ensures greatest { IsGreatestBefore g.now s.now.key.m (matrix_in result.m) (length g.now) }
{
    let order = g.len() as u8;
    starts[0] = 0;
    let mut best = Greatest {
        m: turned(g, 0, s),
        count: 1,
    };
    let mut at = g.run_end(0);
    while at < order {
        best = with_run(&best, at, &turned(g, at, s), starts);
        at = g.run_end(at);
    }
    best
}

/// The greater of the matrix so far and m, which the run from a place on gives. Where m is not the less, the place is listed.
fn with_run(best: &Greatest, at: u8, m: &Rotation, starts: &mut [u8; MAX_OPERATORS]) -> Greatest
    requires few { best.now.count ≤ at }
    requires within { at < MAX_OPERATORS }
    ensures { IsWithRun best.now starts.old at (matrix_in m.now) result starts.new }
{
    if is_below(&best.m.rows(), &m.rows()) {
        starts[0] = at;
        return Greatest { m: *m, count: 1 };
    }
    if best.m == *m {
        starts[usize::from(best.count)] = at;
        return Greatest {
            m: *m,
            count: best.count + 1,
        };
    }
    *best
}

/// The matrix W M W^-1, where W is that of the member at a place.
fn turned(g: &Group, i: u8, s: &Key) -> Rotation
    requires place { i < length g.now }
    requires left { IsLeftOf g.now s.now }
    ensures value { (f : Operator) → slice_get g.now i ≡ Some f
        → matrix_in result ≡ turned_matrix f s.now.key.m }
    ensures within { HasEntriesWithin (2 * s.now.over) (matrix_in result) }
{
    let w = Rotation::of(&g.op(i).w());
    let back = Rotation::of(&g.op(g.inverse_of(i)).w());
    let half = product(&w, &s.m);
    product(&half, &back)
}

/// Whether the one list comes before the other, number by number.
fn is_below(a: &[i32], b: &[i32]) -> bool
    ensures { IsTrue result ↔ IsBelow a.now b.now }
{
    match a.cmp(b) {
        Ordering::Less => true,
        _ => false,
    }
}

/// The first of the best key so far and those of the conjugates by elements of the members at these places, which all turn the
/// matrix to m.
fn first_of_run(
    g: &Group,
    start: u8,
    end: u8,
    s: &Key,
    m: &Rotation,
    sizes: &Sizes,
    best: &Key,
) -> Key
    requires end { end ≤ length g.now }
    requires some { 0 < s.now.over }
    requires turned { (k : ℕ) (f : Operator) → start ≤ k → k < end → slice_get g.now k ≡ Some f
        → turned_matrix f s.now.key.m ≡ matrix_in m.now }
    requires within { HasEntriesWithin (2 * s.now.over) (matrix_in m.now) }
    requires sizes { AreSizes sizes.now }
    requires enough { AreEnoughFor sizes.now (matrix_in m.now) s.now.over }
    requires best { IsCandidate g.now s.now (matrix_in m.now) best.now }
    ensures candidate { IsCandidate g.now s.now (matrix_in m.now) result }
    ensures earlier { IsNoLater result best.now }
    ensures first { AreNotBefore g.now s.now result start end }
{
    let mut first = *best;
    for i in start..end {
        first = first_of(&carried(&g.op(i), s, m), sizes, &first);
    }
    first
}

/// The first of the best key so far and those of the conjugates of another by whole shifts below the sizes.
fn first_of(base: &Key, sizes: &Sizes, best: &Key) -> Key
    requires sizes { AreSizes sizes.now }
    requires over { best.now.over ≡ base.now.over }
    requires matrix { best.now.key.m ≡ base.now.key.m }
    ensures over { result.over ≡ base.now.over }
    ensures matrix { result.key.m ≡ base.now.key.m }
    ensures from { (result.key ≡ best.now.key)
        ⊎ ((k : Column) × (moved_key base.now k ≡ result.key)) }
    ensures earlier { IsNoLater result best.now }
    ensures first { (i : ℕ) → i < sizes.now.x * sizes.now.y * sizes.now.z
        → ComesBefore (moved_key base.now (shift_number sizes.now i)) result.key → ⊥ }
{
    let mut first = earlier_of(base, best);
    for i in 1..sizes.x * sizes.y * sizes.z {
        let next = moved(base, &nth_shift(sizes, i));
        if is_below(&next.t(), &first.t()) {
            first = next;
        }
    }
    first
}

/// The one of two keys with one matrix whose translation comes first; the other one where both are the same.
fn earlier_of(one: &Key, other: &Key) -> Key
    ensures value { ((result ≡ one.now)
        × IsBelow (coordinates one.now.key.t) (coordinates other.now.key.t))
        ⊎ ((result ≡ other.now)
        × (IsBelow (coordinates one.now.key.t) (coordinates other.now.key.t) → ⊥)) }
    // What is true of every key.
    ensures in_cell { IsKeyInCell one.now }
{
    if is_below(&one.t(), &other.t()) {
        return *one;
    }
    *other
}

/// The whole shift with this number.
fn nth_shift(sizes: &Sizes, i: u32) -> Offset
    requires sizes { AreSizes sizes.now }
    requires within { i < sizes.now.x * sizes.now.y * sizes.now.z }
    ensures value { offset_in result ≡ shift_number sizes.now i }
    ensures size { AreWithin MAX_OPERATORS result.x result.y result.z }
{
    let rest = i / sizes.z;
    Offset {
        x: i64::from(rest / sizes.y),
        y: i64::from(rest % sizes.y),
        z: i64::from(i % sizes.z),
    }
}

/// The conjugate by the operator itself, whose matrix is m.
fn carried(op: &Op, s: &Key, m: &Rotation) -> Key
    requires matrix { matrix_in m.now ≡ turned_matrix op.now s.now.key.m }
    requires within { HasEntriesWithin (2 * s.now.over) (matrix_in m.now) }
    ensures key { result.key ≡ carried_key op.now s.now }
    ensures over { result.over ≡ s.now.over }
{
    let by = Offset::of(&op.t());
    let there = image(&Rotation::of(&op.w()), &Offset::of(&s.t()));
    let by_all = offset_multiple(i64::from(s.over), &by);
    let t = offset_difference(&offset_sum(&there, &by_all), &image(m, &by));
    in_cell(m, &t, s.over)
}

/// The conjugate of a key by the whole shift -k.
fn moved(base: &Key, k: &Offset) -> Key
    requires { AreWithin MAX_OPERATORS k.now.x k.now.y k.now.z }
    ensures key { result.key ≡ moved_key base.now (offset_in k.now) }
    ensures over { result.over ≡ base.now.over }
{
    let along = offset_multiple(i64::from(UNIT), &image(&base.m, k));
    let t = offset_sum(&Offset::of(&base.t()), &along);
    in_cell(&base.m, &t, base.over)
}

/// Numbers that make the columns of a matrix whole.
#[derive(Clone, Copy, Drop)]
pub struct Sizes {
    pub x: u32,
    pub y: u32,
    pub z: u32,
}

/// Numbers below which whole shifts are enough for a matrix over `over`. Shifts along a column that is an earlier one or its
/// opposite, but for whole cells, give nothing new.
fn shift_sizes(m: &Rotation, over: u16) -> Sizes
    requires some { 0 < over }
    requires few { over ≤ MAX_OPERATORS }
    requires within { HasEntriesWithin (2 * over) (matrix_in m.now) }
    ensures sizes { AreSizes result }
    ensures enough { AreEnoughFor result (matrix_in m.now) over }
{
    let whole = column_sizes(m, over);
    let x = Vector {
        x: m.xx,
        y: m.yx,
        z: m.zx,
    };
    let y = Vector {
        x: m.xy,
        y: m.yy,
        z: m.zy,
    };
    let z = Vector {
        x: m.xz,
        y: m.yz,
        z: m.zz,
    };
    let z_beside_x = size_beside(&x, &z, whole.z, over);
    Sizes {
        x: whole.x,
        y: size_beside(&x, &y, whole.y, over),
        z: size_beside(&y, &z, z_beside_x, over),
    }
}

/// 1 for a column that is another one or its opposite, but for whole cells, else the number that is known.
fn size_beside(other: &Vector, column: &Vector, known: u32, over: u16) -> u32
    requires some { 0 < over }
    requires other { AreWithin 384 other.now.x other.now.y other.now.z }
    requires column { AreWithin 384 column.now.x column.now.y column.now.z }
    ensures value { (result ≡ known)
        ⊎ ((result ≡ 1) × IsMultiple (column_in other.now) (column_in column.now) over) }
    ensures one { IsSameOrOpposite (column_in other.now) (column_in column.now) over
        → result ≡ 1 }
{
    if are_whole(
        column.x - other.x,
        column.y - other.y,
        column.z - other.z,
        over,
    ) {
        return 1;
    }
    if are_whole(
        column.x + other.x,
        column.y + other.y,
        column.z + other.z,
        over,
    ) {
        return 1;
    }
    known
}

/// Whether the three numbers are multiples of `over`.
fn are_whole(x: i32, y: i32, z: i32, over: u16) -> bool
    requires some { 0 < over }
    ensures { IsTrue result
        ↔ ((c : Column) × (record { x = x; y = y; z = z } ≡ times (pos over) c)) }
{
    if !is_whole(x, over) {
        return false;
    }
    if !is_whole(y, over) {
        return false;
    }
    is_whole(z, over)
}

/// Whether the number is a multiple of `over`.
fn is_whole(a: i32, over: u16) -> bool
    requires some { 0 < over }
    ensures { IsTrue result ↔ ((k : ℤ) × (a ≡ pos over *ℤ k)) }
{
    a.unsigned_abs() % u32::from(over) == 0
}

/// A number for each column of a matrix over `over` that makes it whole: the least one, though no clause says so.
pub fn column_sizes(m: &Rotation, over: u16) -> Sizes
    requires some { 0 < over }
    requires few { over ≤ MAX_OPERATORS }
    requires within { HasEntriesWithin (2 * over) (matrix_in m.now) }
    ensures sizes { AreSizes result }
    ensures whole { AreWholeFor result (matrix_in m.now) over }
{
    Sizes {
        x: denominator(m.xx, m.yx, m.zx, over),
        y: denominator(m.xy, m.yy, m.zy, over),
        z: denominator(m.xz, m.yz, m.zz, over),
    }
}

/// A number of which a, b and c times it are multiples of `over`: the least one, though no clause says so.
fn denominator(a: i32, b: i32, c: i32, over: u16) -> u32
    requires some { 0 < over }
    requires within { over ≤ MAX_OPERATORS }
    ensures some { 0 < result }
    ensures within { result ≤ MAX_OPERATORS }
    ensures first { (k : ℤ) × (a *ℤ pos result ≡ pos over *ℤ k) }
    ensures second { (k : ℤ) × (b *ℤ pos result ≡ pos over *ℤ k) }
    ensures third { (k : ℤ) × (c *ℤ pos result ≡ pos over *ℤ k) }
{
    let over = u128::from(over);
    let d = greatest_common_divisor(u128::from(a.unsigned_abs()), over);
    let d = greatest_common_divisor(u128::from(b.unsigned_abs()), d);
    let d = greatest_common_divisor(u128::from(c.unsigned_abs()), d);
    (over / d) as u32
}
