ghost use Rattle.std.specs.Prelude.{◌≡◌, ◌≤◌, ◌<◌, ◌*◌, ◌↔◌, ◌*ℤ◌, ◌+ℤ◌, neg_ℤ, ◌<ℤ◌, ℕ, pos, unsigned_abs};
ghost use Rattle.std.specs.Int.{int_rem_euclid};
ghost use Rattle.lattice_algebra.specs.Matrix.{sum_of_products, times, neg_column, ◌·ᶜ◌, ◌+ᶜ◌};
ghost use Rattle.lattice_algebra.specs.Operator.{AreParts, AreWithin, modulo, HasEntriesWithin};
ghost use Rattle.lattice_algebra.specs.Point.{Point};
ghost use Rattle.space_groups.specs.Rows.{Lies};
ghost use Rattle.exact_ops.specs.declared.TheConstants.{UNIT as PARTS};
ghost use Rattle.exact_ops.specs.Fields.{matrix_in, column_in};
ghost use Rattle.parameter_forms.specs.declared.TheConstants.{MAX_NUMBER, MAX_MATRIX, MAX_MINOR, MAX_OVER};
ghost use Rattle.parameter_forms.specs.Forms.{IsParameterForm, pair_of};
ghost use Rattle.parameter_forms.specs.Finding.{pair_in, IsSmall};

use crate::coefficients::{Coefficients, coefficients_of};
use crate::param::Param;
use exact_ops::{Rotation, UNIT, Vector};

/// The parameter form of the matrix m over `over` and the translation t in parts of a cell over it.
pub fn form_of(m: &Rotation, t: &Vector, over: u16) -> Param
    requires some { 0 < over }
    requires few { over ≤ MAX_NUMBER }
    requires matrix { HasEntriesWithin MAX_MATRIX (matrix_in m.now) }
    requires in_cell { AreParts (PARTS * over) (column_in t.now) }
    ensures form { IsParameterForm PARTS over (pair_in m.now t.now) result }
    ensures same_points { (y : Point) → Lies PARTS over (pair_in m.now t.now) y
        ↔ Lies PARTS result.over (pair_of result) y }
{
    let found = coefficients_of(m).over_positive();
    let all = found.times(i32::from(over));
    Param {
        b: all.b,
        s: shift(&found, t, over),
        over: all.over.unsigned_abs(),
    }
}

/// t - B t, in parts of a cell over `over` and the number over which B stands, each number taken modulo the cell.
fn shift(c: &Coefficients, t: &Vector, over: u16) -> Vector
    requires some { 0 < over }
    requires few { over ≤ MAX_NUMBER }
    requires small { IsSmall c.now.b c.now.over }
    requires positive { pos 0 <ℤ c.now.over }
    requires in_cell { AreParts (PARTS * over) (column_in t.now) }
    ensures { column_in result ≡ modulo (PARTS * over * unsigned_abs c.now.over)
        (times c.now.over (column_in t.now)
        +ᶜ neg_column (matrix_in c.now.b ·ᶜ column_in t.now)) }
{
    let b = &c.b;
    let cell = cell_over(over, c.over);
    Vector {
        x: remainder(difference(c.over, t.x, b.xx, b.xy, b.xz, t), cell),
        y: remainder(difference(c.over, t.y, b.yx, b.yy, b.yz, t), cell),
        z: remainder(difference(c.over, t.z, b.zx, b.zy, b.zz, t), cell),
    }
}

/// How many parts a cell has over `over` times d.
fn cell_over(over: u16, d: i32) -> i64
    requires some { 0 < over }
    requires few { over ≤ MAX_NUMBER }
    requires positive { pos 0 <ℤ d }
    requires small { unsigned_abs d ≤ MAX_MINOR }
    ensures value { result ≡ pos (PARTS * over * unsigned_abs d) }
    ensures positive { pos 0 <ℤ result }
    ensures small { unsigned_abs result ≤ PARTS * MAX_OVER }
{
    i64::from(UNIT) * i64::from(over) * i64::from(d)
}

/// What is left of n when whole cells are taken off, from 0 on.
fn remainder(n: i64, cell: i64) -> i32
    requires positive { pos 0 <ℤ cell }
    requires small { unsigned_abs cell ≤ PARTS * MAX_OVER }
    ensures { result ≡ int_rem_euclid n cell }
{
    n.rem_euclid(cell) as i32
}

/// So many times a number, less the product of a row and a column.
fn difference(over: i32, own: i32, x: i32, y: i32, z: i32, t: &Vector) -> i64
    requires over { unsigned_abs over ≤ MAX_MINOR }
    requires own { unsigned_abs own ≤ PARTS * MAX_NUMBER }
    requires row { AreWithin MAX_MINOR x y z }
    requires column { AreWithin (PARTS * MAX_NUMBER) t.now.x t.now.y t.now.z }
    ensures { result ≡ over *ℤ own +ℤ neg_ℤ (sum_of_products x y z t.now.x t.now.y t.now.z) }
{
    let over = i64::from(over);
    let own = i64::from(own);
    let along = dot(x, y, z, t.x, t.y, t.z);
    over * own - along
}

/// The product of a row and a column.
fn dot(a: i32, b: i32, c: i32, x: i32, y: i32, z: i32) -> i64
    requires row { AreWithin MAX_MINOR a b c }
    requires column { AreWithin (PARTS * MAX_NUMBER) x y z }
    ensures value { result ≡ sum_of_products a b c x y z }
    ensures size { unsigned_abs result ≤ 3 * (MAX_MINOR * (PARTS * MAX_NUMBER)) }
{
    let a = i64::from(a);
    let b = i64::from(b);
    let c = i64::from(c);
    let x = i64::from(x);
    let y = i64::from(y);
    let z = i64::from(z);
    a * x + b * y + c * z
}
