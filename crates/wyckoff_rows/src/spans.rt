//! Whole shifts along the image of an average that span it: multiples of columns of its matrix. A column that is a combination
//! of the others is left out, since fewer shifts are tried then.

ghost use Rattle.std.specs.Prelude.{◌≡◌, ◌<◌, ◌≤◌, ◌*◌, ◌^◌, ◌*ℤ◌, ℤ, pos, unsigned_abs, cond};
ghost use Rattle.std.specs.Int.{from_bool};
ghost use Rattle.lattice_algebra.specs.Matrix.{◌·◌, scaled};
ghost use Rattle.lattice_algebra.specs.Operator.{HasEntriesWithin};
ghost use Rattle.exact_ops.specs.Fields.{matrix_in};
ghost use Rattle.group_closure.specs.declared.TheConstants.{MAX_OPERATORS};
ghost use Rattle.space_groups.specs.Regions.{SpansImage, diagonal};
ghost use Rattle.affine_sets.specs.Conjugates.{AreWholeFor};
ghost use Rattle.wyckoff_rows.specs.Spanning.{AreFew, AreEnough, rest_of, with_units};

use affine_sets::numbers::{multiple, product, sum};
use affine_sets::{Sizes, Special, column_sizes, exact_quotient};
use exact_ops::Rotation;

/// Which columns of a matrix are taken.
#[derive(Clone, Copy, Drop)]
struct Taken {
    x: bool,
    y: bool,
    z: bool,
}

/// One column, or two.
const CHOICES: [Taken; 6] = [
    Taken {
        x: true,
        y: false,
        z: false,
    },
    Taken {
        x: false,
        y: true,
        z: false,
    },
    Taken {
        x: false,
        y: false,
        z: true,
    },
    Taken {
        x: true,
        y: true,
        z: false,
    },
    Taken {
        x: true,
        y: false,
        z: true,
    },
    Taken {
        x: false,
        y: true,
        z: true,
    },
];

/// Columns that are whole shifts along the image of an average, and span it: of each column of its matrix that is taken the
/// least multiple that is whole, and 0 for the others, though no clause says which.
pub fn whole_columns(s: &Special) -> Rotation
    ensures spans { SpansImage s.now (matrix_in result) }
    ensures size { HasEntriesWithin (2 * MAX_OPERATORS) (matrix_in result) }
{
    let m = Rotation::of(&s.m());
    let over = s.over();
    let q = spanning_sizes(&m, over);
    Rotation {
        xx: whole_entry(m.xx, q.x, over),
        xy: whole_entry(m.xy, q.y, over),
        xz: whole_entry(m.xz, q.z, over),
        yx: whole_entry(m.yx, q.x, over),
        yy: whole_entry(m.yy, q.y, over),
        yz: whole_entry(m.yz, q.z, over),
        zx: whole_entry(m.zx, q.x, over),
        zy: whole_entry(m.zy, q.y, over),
        zz: whole_entry(m.zz, q.z, over),
    }
}

/// Numbers that make the columns of an idempotent matrix whole, which are enough then: the least ones, and 0 for those that are
/// combinations of the others, though no clause says so.
fn spanning_sizes(m: &Rotation, over: u16) -> Sizes
    requires some { 0 < over }
    requires few { over ≤ MAX_OPERATORS }
    requires within { HasEntriesWithin (2 * over) (matrix_in m.now) }
    requires idempotent { matrix_in m.now · matrix_in m.now
        ≡ scaled (pos over) (matrix_in m.now) }
    ensures few { AreFew result }
    ensures whole { AreWholeFor result (matrix_in m.now) over }
    ensures enough { AreEnough (matrix_in m.now) result }
{
    let q = column_sizes(m, over);
    let rest = rest_of(m, over);
    for taken in CHOICES {
        if with_units(&rest, &taken).determinant() != 0 {
            return taken_sizes(&q, &taken);
        }
    }
    q
}

/// over I - M, whose columns say how those of M depend on one another.
fn rest_of(m: &Rotation, over: u16) -> Rotation
    requires few { over ≤ MAX_OPERATORS }
    requires within { HasEntriesWithin (2 * MAX_OPERATORS) (matrix_in m.now) }
    ensures value { matrix_in result ≡ rest_of (pos over) (matrix_in m.now) }
    ensures size { HasEntriesWithin (3 * MAX_OPERATORS) (matrix_in result) }
{
    let n = i32::from(over);
    sum(&diagonal(n, n, n), &multiple(-1, m))
}

/// The matrix with unit columns in place of those that are taken.
fn with_units(rest: &Rotation, taken: &Taken) -> Rotation
    requires { HasEntriesWithin (3 * MAX_OPERATORS) (matrix_in rest.now) }
    ensures value { matrix_in result ≡ with_units (matrix_in rest.now) taken.now }
    ensures size { HasEntriesWithin (3 * MAX_OPERATORS) (matrix_in result) }
{
    Rotation {
        xx: if_left(taken.x, rest.xx, 1),
        xy: if_left(taken.y, rest.xy, 0),
        xz: if_left(taken.z, rest.xz, 0),
        yx: if_left(taken.x, rest.yx, 0),
        yy: if_left(taken.y, rest.yy, 1),
        yz: if_left(taken.z, rest.yz, 0),
        zx: if_left(taken.x, rest.zx, 0),
        zy: if_left(taken.y, rest.zy, 0),
        zz: if_left(taken.z, rest.zz, 1),
    }
}

/// The entry of a column that is left, and that of a unit column in place of one that is taken.
fn if_left(taken: bool, entry: i32, unit: i32) -> i32
    requires entry { unsigned_abs entry ≤ 3 * MAX_OPERATORS }
    requires unit { unsigned_abs unit ≤ 1 }
    ensures value { result ≡ cond taken unit entry }
    ensures size { unsigned_abs result ≤ 3 * MAX_OPERATORS }
{
    if taken { unit } else { entry }
}

fn diagonal(x: i32, y: i32, z: i32) -> Rotation
    ensures { matrix_in result ≡ diagonal (record { x = x; y = y; z = z }) }
{
    Rotation {
        xx: x,
        xy: 0,
        xz: 0,
        yx: 0,
        yy: y,
        yz: 0,
        zx: 0,
        zy: 0,
        zz: z,
    }
}

/// The sizes of the columns that are taken, and 0 for the others.
fn taken_sizes(q: &Sizes, taken: &Taken) -> Sizes
    ensures x { result.x ≡ q.now.x * from_bool taken.now.x }
    ensures y { result.y ≡ q.now.y * from_bool taken.now.y }
    ensures z { result.z ≡ q.now.z * from_bool taken.now.z }
{
    Sizes {
        x: if_taken(q.x, taken.x),
        y: if_taken(q.y, taken.y),
        z: if_taken(q.z, taken.z),
    }
}

fn if_taken(size: u32, taken: bool) -> u32
    ensures { result ≡ size * from_bool taken }
{
    if taken { size } else { 0 }
}

/// q times a, over `over`, where it is whole.
fn whole_entry(a: i32, q: u32, over: u16) -> i32
    requires some { 0 < over }
    requires few { over ≤ MAX_OPERATORS }
    requires entry { unsigned_abs a ≤ 2 * over }
    requires number { q ≤ MAX_OPERATORS }
    requires whole { (k : ℤ) × (a *ℤ pos q ≡ pos over *ℤ k) }
    ensures value { a *ℤ pos q ≡ pos over *ℤ result }
    ensures size { unsigned_abs result ≤ 2 * MAX_OPERATORS }
{
    let n = product_of(a, q);
    let d = i64::from(over);
    exact_quotient(n, d).unwrap() as i32
}

/// a times q.
fn product_of(a: i32, q: u32) -> i64
    requires entry { unsigned_abs a ≤ 2 * MAX_OPERATORS }
    requires number { q ≤ MAX_OPERATORS }
    ensures value { result ≡ a *ℤ pos q }
    ensures size { unsigned_abs result ≤ 10 ^ 6 }
{
    let a = i64::from(a);
    let q = i64::from(q);
    a * q
}
