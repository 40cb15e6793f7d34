ghost use Rattle.std.specs.Prelude.{◌↔◌, ◌≤◌, ◌-◌, IsTrue, unsigned_abs};
ghost use Rattle.exact_ops.specs.declared.TheConstants.{UNIT as PARTS};
ghost use Rattle.grid_tags.specs.Grids.{IsKept, IsKeptBy, IsSide};
ghost use Rattle.grid_tags.specs.Steps.{IsWhole, IsAxisKept};

use crate::grid_size::GridSize;
use exact_ops::{Op, UNIT};
use group_closure::Group;

/// Whether the group keeps the grid: every member maps every point (i/a, j/b, k/c), i, j and k whole, to such a point.
pub fn accepts(group: &Group, size: &GridSize) -> bool
    ensures { IsTrue result ↔ IsKept group.now size.now }
{
    for i in 0..group.len() {
        if !is_kept_by(&group.op(i as u8), size) {
            return false;
        }
    }
    true
}

fn is_kept_by(op: &Op, size: &GridSize) -> bool
    ensures { IsTrue result ↔ IsKeptBy size.now op.now }
{
    let [_, xy, xz, yx, _, yz, zx, zy, _] = op.w();
    let [x, y, z] = op.t();
    if !is_axis_kept(xy, xz, x, size.a, size.b, size.c) {
        return false;
    }
    if !is_axis_kept(yx, yz, y, size.b, size.a, size.c) {
        return false;
    }
    is_axis_kept(zx, zy, z, size.c, size.a, size.b)
}

/// Whether the grid is kept along an axis with n points, beside axes with m and l points.
fn is_axis_kept(u: i32, v: i32, t: i32, n: u16, m: u16, l: u16) -> bool
    requires entries { (unsigned_abs u ≤ PARTS - 1) × (unsigned_abs v ≤ PARTS - 1) }
    requires shift { unsigned_abs t ≤ PARTS - 1 }
    requires sides { IsSide n × IsSide m × IsSide l }
    ensures { IsTrue result ↔ IsAxisKept u v t n m l }
{
    if !is_whole(u, n, m) {
        return false;
    }
    if !is_whole(v, n, l) {
        return false;
    }
    is_whole(t, n, UNIT as u16)
}

/// Whether w n is a multiple of m.
fn is_whole(w: i32, n: u16, m: u16) -> bool
    requires size { unsigned_abs w ≤ PARTS - 1 }
    requires sides { IsSide n × IsSide m }
    ensures { IsTrue result ↔ IsWhole w n m }
{
    (w * i32::from(n)) % i32::from(m) == 0
}
