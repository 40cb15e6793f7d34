//! What the rotation part of an operator makes of a grid point of the cell, once for all members that have it.
ghost use Rattle.std.specs.Prelude.{◌≡◌, ◌≤◌, ◌<◌, ◌*◌, pos, ◌+ℤ◌, ◌*ℤ◌, unsigned_abs};
ghost use Rattle.lattice_algebra.specs.Matrix.{matrix_of};
ghost use Rattle.lattice_algebra.specs.Operator.{AreWithin, HasEntriesWithin};
ghost use Rattle.grid_tags.specs.declared.TheConstants.{MAX_SIDE};
ghost use Rattle.grid_tags.specs.Grids.{IsInGrid, IsSide, triple_of};
ghost use Rattle.grid_tags.specs.Steps.{ratios_of, turned, turned_coordinate};

use crate::grid_size::GridSize;
use crate::ratios::Ratios;
use crate::reduced::reduced;

/// What a rotation part makes of a grid point, brought into the cell.
pub fn turned(size: &GridSize, ratios: &Ratios, w: &[i32; 9], at: &[u16; 3]) -> [u16; 3]
    requires ratios { ratios.now ≡ ratios_of size.now }
    requires narrow { HasEntriesWithin 2 (matrix_of w.now) }
    requires within { IsInGrid size.now (triple_of at.now) }
    ensures value { triple_of result ≡ turned size.now (matrix_of w.now) (triple_of at.now) }
    ensures within { IsInGrid size.now (triple_of result) }
{
    let [xx, xy, xz, yx, yy, yz, zx, zy, zz] = *w;
    let [i, j, k] = *at;
    [
        turned_coordinate(xx, xy, xz, size.a, ratios.ab, ratios.ac, i, j, k),
        turned_coordinate(yy, yx, yz, size.b, ratios.ba, ratios.bc, j, i, k),
        turned_coordinate(zz, zx, zy, size.c, ratios.ca, ratios.cb, k, i, j),
    ]
}

/// The coordinate that a row (w, u, v) of a rotation part gives, along an axis with n points. `second` and `third` are the ratios
/// for the other two axes.
fn turned_coordinate(
    w: i32,
    u: i32,
    v: i32,
    n: u16,
    second: u16,
    third: u16,
    i: u16,
    j: u16,
    k: u16,
) -> u16
    requires row { AreWithin 2 w u v }
    requires side { IsSide n }
    requires ratios { (second ≤ 2 * MAX_SIDE) × (third ≤ 2 * MAX_SIDE) }
    requires at { (i < MAX_SIDE) × (j < MAX_SIDE) × (k < MAX_SIDE) }
    ensures value { result ≡ turned_coordinate w u v n second third i j k }
    ensures within { result < n }
{
    let sum = sum(w, u, v, times(2, i), times(second, j), times(third, k));
    reduced(sum / 2, n)
}

fn times(ratio: u16, i: u16) -> i32
    requires ratio { ratio ≤ 2 * MAX_SIDE }
    requires coordinate { i < MAX_SIDE }
    ensures value { result ≡ pos (ratio * i) }
    ensures size { unsigned_abs result ≤ 2 * MAX_SIDE * MAX_SIDE }
{
    i32::from(ratio) * i32::from(i)
}

fn sum(w: i32, u: i32, v: i32, x: i32, y: i32, z: i32) -> i32
    requires row { AreWithin 2 w u v }
    requires numbers { AreWithin (2 * MAX_SIDE * MAX_SIDE) x y z }
    ensures value { result ≡ w *ℤ x +ℤ u *ℤ y +ℤ v *ℤ z }
    ensures size { unsigned_abs result ≤ 12 * MAX_SIDE * MAX_SIDE }
{
    w * x + u * y + v * z
}
