ghost use Rattle.std.specs.Prelude.{◌≡◌, ◌<◌, ◌≤◌, Some, length, map, slice_get, unsigned_abs};
ghost use Rattle.lattice_algebra.specs.Matrix.{times};
ghost use Rattle.lattice_algebra.specs.Operator.{AreWithin, HasEntriesWithin};
ghost use Rattle.exact_ops.specs.declared.TheConstants.{UNIT as PARTS};
ghost use Rattle.exact_ops.specs.Fields.{matrix_in};
ghost use Rattle.group_closure.specs.GroupList.{IsGroup};
ghost use Rattle.space_groups.specs.Regions.{shift_by};
ghost use Rattle.basis_change.specs.Wide.{wide_column};
ghost use Rattle.basis_change.specs.Frames.{generators, cells, map_in};

use crate::wide::WideVector;
use exact_ops::{Rotation, UNIT, Vector};
use group_closure::Group;

/// An element of the space group: the map `x -> W x + s / UNIT`.
#[derive(Clone, Copy, PartialEq, Eq, Debug, Drop)]
pub struct Generator {
    pub w: Rotation,
    pub s: WideVector,
}

/// How many generators the space group has: the members of the group, and one cell along each axis.
pub fn generator_count(group: &Group) -> u16
    ensures count { result ≡ length (generators group.now) }
    // What is true of every group.
    ensures group { IsGroup group.now }
{
    group.len() + 3
}

/// One of the generators: the members, and behind them the cells.
pub fn generator_at(group: &Group, i: u16) -> Generator
    requires { i < length (generators group.now) }
    ensures value { slice_get (generators group.now) i ≡ Some (map_in result) }
    ensures narrow { HasEntriesWithin 2 (matrix_in result.w) }
    ensures within { AreWithin PARTS result.s.x result.s.y result.s.z }
{
    let count = group.len();
    if i < count {
        return member(group, i as u8);
    }
    cell(i - count)
}

/// The member at place i.
fn member(group: &Group, i: u8) -> Generator
    requires { i < length group.now }
    ensures value { slice_get (generators group.now) i ≡ Some (map_in result) }
    ensures narrow { HasEntriesWithin 2 (matrix_in result.w) }
    ensures within { AreWithin PARTS result.s.x result.s.y result.s.z }
{
    let op = group.op(i);
    Generator {
        w: Rotation::of(&op.w()),
        s: WideVector::of(&Vector::of(&op.t())),
    }
}

/// One cell along an axis.
fn cell(axis: u16) -> Generator
    requires { axis < 3 }
    ensures value { slice_get (map (shift_by PARTS) cells) axis ≡ Some (map_in result) }
    ensures narrow { HasEntriesWithin 2 (matrix_in result.w) }
    ensures within { AreWithin PARTS result.s.x result.s.y result.s.z }
{
    Generator {
        w: Rotation::IDENTITY,
        s: along(axis, i64::from(UNIT)),
    }
}

/// The column that has this number at an axis, and 0 elsewhere.
pub fn along(axis: u16, n: i64) -> WideVector
    requires { axis < 3 }
    ensures value { slice_get (map (times n) cells) axis ≡ Some (wide_column result) }
    ensures within { AreWithin (unsigned_abs n) result.x result.y result.z }
{
    if axis == 0 {
        return WideVector { x: n, y: 0, z: 0 };
    }
    if axis == 1 {
        return WideVector { x: 0, y: n, z: 0 };
    }
    WideVector { x: 0, y: 0, z: n }
}
