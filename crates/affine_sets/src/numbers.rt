ghost use Rattle.std.specs.Prelude.{◌≡◌, Some, length, slice_get, ◌≤◌, ◌+◌, ◌*◌, ◌^◌, pos, ◌+ℤ◌, ◌*ℤ◌, neg_ℤ, ◌<◌, unsigned_abs};
ghost use Rattle.std.specs.Int.{int_div_euclid, int_rem_euclid};
ghost use Rattle.group_closure.specs.declared.TheConstants.{MAX_OPERATORS};
ghost use Rattle.lattice_algebra.specs.Matrix.{column_of, ◌·◌, ◌·ᶜ◌, ◌+ᵐ◌, ◌+ᶜ◌, neg_column, scaled, times as column_times};
ghost use Rattle.lattice_algebra.specs.Operator.{AreWithin, HasEntriesWithin};
ghost use Rattle.lattice_algebra.specs.Map.{operator_of};
ghost use Rattle.space_groups.specs.Space.{IsElement};
ghost use Rattle.exact_ops.specs.Fields.{matrix_in};
ghost use Rattle.exact_ops.specs.Elements.{map_in};
ghost use Rattle.exact_ops.specs.declared.TheConstants.{UNIT as PARTS, MAX_SHIFT};
ghost use Rattle.affine_sets.specs.declared.TheConstants.{MAX_TRANSLATION};
ghost use Rattle.affine_sets.specs.Fields.{offset_in};

use exact_ops::{Move, Rotation, UNIT};
use group_closure::Group;

/// Three whole numbers.
#[derive(Clone, Copy, PartialEq, Eq, Debug, Drop)]
pub struct Offset {
    pub x: i64,
    pub y: i64,
    pub z: i64,
}

impl Offset {
    /// Three numbers: x, y, z.
    pub fn of(numbers: &[i32; 3]) -> Offset
        ensures { offset_in result ≡ column_of numbers.now }
    {
        Offset {
            x: i64::from(numbers[0]),
            y: i64::from(numbers[1]),
            z: i64::from(numbers[2]),
        }
    }
}

/// The product of two matrices.
pub fn product(a: &Rotation, b: &Rotation) -> Rotation
    requires left { HasEntriesWithin 2304 (matrix_in a.now) }
    requires right { HasEntriesWithin 2304 (matrix_in b.now) }
    ensures { matrix_in result ≡ matrix_in a.now · matrix_in b.now }
{
    Rotation {
        xx: dot(a.xx, a.xy, a.xz, b.xx, b.yx, b.zx),
        xy: dot(a.xx, a.xy, a.xz, b.xy, b.yy, b.zy),
        xz: dot(a.xx, a.xy, a.xz, b.xz, b.yz, b.zz),
        yx: dot(a.yx, a.yy, a.yz, b.xx, b.yx, b.zx),
        yy: dot(a.yx, a.yy, a.yz, b.xy, b.yy, b.zy),
        yz: dot(a.yx, a.yy, a.yz, b.xz, b.yz, b.zz),
        zx: dot(a.zx, a.zy, a.zz, b.xx, b.yx, b.zx),
        zy: dot(a.zx, a.zy, a.zz, b.xy, b.yy, b.zy),
        zz: dot(a.zx, a.zy, a.zz, b.xz, b.yz, b.zz),
    }
}

fn dot(a: i32, b: i32, c: i32, x: i32, y: i32, z: i32) -> i32
    requires left { AreWithin 2304 a b c }
    requires right { AreWithin 2304 x y z }
    ensures { result ≡ a *ℤ x +ℤ b *ℤ y +ℤ c *ℤ z }
{
    a * x + b * y + c * z
}

/// What a matrix makes of three numbers.
pub fn image(a: &Rotation, t: &Offset) -> Offset
    requires left { HasEntriesWithin 2304 (matrix_in a.now) }
    requires right { AreWithin MAX_TRANSLATION t.now.x t.now.y t.now.z }
    ensures { offset_in result ≡ matrix_in a.now ·ᶜ offset_in t.now }
{
    Offset {
        x: wide_dot(a.xx, a.xy, a.xz, t.x, t.y, t.z),
        y: wide_dot(a.yx, a.yy, a.yz, t.x, t.y, t.z),
        z: wide_dot(a.zx, a.zy, a.zz, t.x, t.y, t.z),
    }
}

fn wide_dot(a: i32, b: i32, c: i32, x: i64, y: i64, z: i64) -> i64
    requires left { AreWithin 2304 a b c }
    requires right { AreWithin MAX_TRANSLATION x y z }
    ensures { result ≡ a *ℤ x +ℤ b *ℤ y +ℤ c *ℤ z }
{
    let a = i64::from(a);
    let b = i64::from(b);
    let c = i64::from(c);
    a * x + b * y + c * z
}

/// The sum of two matrices.
pub fn sum(a: &Rotation, b: &Rotation) -> Rotation
    requires left { HasEntriesWithin 2304 (matrix_in a.now) }
    requires right { HasEntriesWithin 2304 (matrix_in b.now) }
    ensures { matrix_in result ≡ matrix_in a.now +ᵐ matrix_in b.now }
{
    Rotation {
        xx: plus(a.xx, b.xx),
        xy: plus(a.xy, b.xy),
        xz: plus(a.xz, b.xz),
        yx: plus(a.yx, b.yx),
        yy: plus(a.yy, b.yy),
        yz: plus(a.yz, b.yz),
        zx: plus(a.zx, b.zx),
        zy: plus(a.zy, b.zy),
        zz: plus(a.zz, b.zz),
    }
}

fn plus(a: i32, b: i32) -> i32
    requires left { unsigned_abs a ≤ 2304 }
    requires right { unsigned_abs b ≤ 2304 }
    ensures { result ≡ a +ℤ b }
{
    a + b
}

/// k times a matrix.
pub fn multiple(k: i32, a: &Rotation) -> Rotation
    requires number { unsigned_abs k ≤ 2304 }
    requires matrix { HasEntriesWithin 2304 (matrix_in a.now) }
    ensures { matrix_in result ≡ scaled k (matrix_in a.now) }
{
    Rotation {
        xx: times(k, a.xx),
        xy: times(k, a.xy),
        xz: times(k, a.xz),
        yx: times(k, a.yx),
        yy: times(k, a.yy),
        yz: times(k, a.yz),
        zx: times(k, a.zx),
        zy: times(k, a.zy),
        zz: times(k, a.zz),
    }
}

fn times(k: i32, a: i32) -> i32
    requires left { unsigned_abs k ≤ 2304 }
    requires right { unsigned_abs a ≤ 2304 }
    ensures { result ≡ k *ℤ a }
{
    k * a
}

/// The sum of two columns.
pub fn offset_sum(a: &Offset, b: &Offset) -> Offset
    requires left { AreWithin MAX_TRANSLATION a.now.x a.now.y a.now.z }
    requires right { AreWithin MAX_TRANSLATION b.now.x b.now.y b.now.z }
    ensures { offset_in result ≡ offset_in a.now +ᶜ offset_in b.now }
{
    Offset {
        x: wide_plus(a.x, b.x),
        y: wide_plus(a.y, b.y),
        z: wide_plus(a.z, b.z),
    }
}

fn wide_plus(a: i64, b: i64) -> i64
    requires left { unsigned_abs a ≤ MAX_TRANSLATION }
    requires right { unsigned_abs b ≤ MAX_TRANSLATION }
    ensures { result ≡ a +ℤ b }
{
    a + b
}

/// The difference of two columns.
pub fn offset_difference(a: &Offset, b: &Offset) -> Offset
    requires left { AreWithin MAX_TRANSLATION a.now.x a.now.y a.now.z }
    requires right { AreWithin MAX_TRANSLATION b.now.x b.now.y b.now.z }
    ensures { offset_in result ≡ offset_in a.now +ᶜ neg_column (offset_in b.now) }
{
    Offset {
        x: wide_minus(a.x, b.x),
        y: wide_minus(a.y, b.y),
        z: wide_minus(a.z, b.z),
    }
}

fn wide_minus(a: i64, b: i64) -> i64
    requires left { unsigned_abs a ≤ MAX_TRANSLATION }
    requires right { unsigned_abs b ≤ MAX_TRANSLATION }
    ensures { result ≡ a +ℤ neg_ℤ b }
{
    a - b
}

/// k times a column.
pub fn offset_multiple(k: i64, a: &Offset) -> Offset
    requires number { unsigned_abs k ≤ 2304 }
    requires column { AreWithin MAX_TRANSLATION a.now.x a.now.y a.now.z }
    ensures { offset_in result ≡ column_times k (offset_in a.now) }
{
    Offset {
        x: wide_times(k, a.x),
        y: wide_times(k, a.y),
        z: wide_times(k, a.z),
    }
}

fn wide_times(k: i64, a: i64) -> i64
    requires left { unsigned_abs k ≤ 2304 }
    requires right { unsigned_abs a ≤ MAX_TRANSLATION }
    ensures { result ≡ k *ℤ a }
{
    k * a
}

/// The translation of an element, in parts of a cell.
pub fn translation(e: &Move) -> Offset
    ensures value { offset_in result ≡ (map_in e.now).s }
    ensures size { AreWithin (PARTS * (MAX_SHIFT + 1)) result.x result.y result.z }
{
    let [x, y, z] = e.op.t();
    Offset {
        x: with_cells(x, e.shift[0]),
        y: with_cells(y, e.shift[1]),
        z: with_cells(z, e.shift[2]),
    }
}

/// The place of the operator of an element: of the element modulo the translations of the lattice.
pub fn place_of(g: &Group, e: &Move) -> u8
    requires { IsElement PARTS g.now (map_in e.now) }
    ensures within { result < length g.now }
    ensures value { slice_get g.now result ≡ Some (operator_of PARTS (map_in e.now)) }
    ensures operator { operator_of PARTS (map_in e.now) ≡ e.now.op }
{
    let op = e.op;
    // By this call it is known that the translation lies in one cell, so that the member is the operator itself.
    let _ = op.t();
    g.find(&op).unwrap()
}

/// t and some whole cells, in parts of a cell.
fn with_cells(t: i32, cells: i64) -> i64
    requires parts { unsigned_abs t ≤ PARTS }
    requires cells { unsigned_abs cells ≤ MAX_SHIFT }
    ensures value { result ≡ t +ℤ pos PARTS *ℤ cells }
    ensures size { unsigned_abs result ≤ PARTS * (MAX_SHIFT + 1) }
{
    i64::from(t) + i64::from(UNIT) * cells
}

/// How many parts a cell has over `over`.
pub fn cell_over(over: u16) -> i64
    requires { over ≤ MAX_OPERATORS }
    ensures { result ≡ pos (PARTS * over) }
{
    i64::from(UNIT) * i64::from(over)
}

/// What is left of n when whole cells are taken off, from 0 on.
pub fn in_one_cell(n: i64, over: u16) -> i32
    requires some { 0 < over }
    requires within { over ≤ MAX_OPERATORS }
    ensures { result ≡ int_rem_euclid n (pos (PARTS * over)) }
{
    n.rem_euclid(cell_over(over)) as i32
}

/// How many whole cells n has, rounded down.
pub fn cells_in(n: i64, over: u16) -> i64
    requires some { 0 < over }
    requires within { over ≤ MAX_OPERATORS }
    ensures { result ≡ int_div_euclid n (pos (PARTS * over)) }
{
    n.div_euclid(cell_over(over))
}
