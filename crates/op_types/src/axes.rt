ghost use Rattle.std.specs.Prelude.{◌≡◌, ◌<◌, ◌↔◌, ◌*◌, IsTrue, Some, IsSome, IfSome, length, slice_get};
ghost use Rattle.lattice_algebra.specs.Matrix.{Matrix, Column, column_of, ◌·ᶜ◌, origin, no_matrix};
ghost use Rattle.lattice_algebra.specs.Operator.{Operator, AreWithin, HasEntriesWithin};
ghost use Rattle.exact_ops.specs.Fields.{matrix_in, column_in};
ghost use Rattle.group_closure.specs.declared.TheConstants.{MAX_OPERATORS};
ghost use Rattle.op_types.specs.ProperPart.{IsProperPart};
ghost use Rattle.op_types.specs.Axis.{IsLine, IsAxis};
ghost use Rattle.op_types.specs.Vector.{AreParallel, IsImage, x_column_of, y_column_of, z_column_of};

use crate::cycle::cycle_of;
use crate::direction::{are_parallel, is_origin, reduced};
use crate::proper_part::proper_part;
use exact_ops::{Rotation, Vector};
use group_closure::Group;

/// The axis of the operator at place i, counted from 0, in whole multiples of the basis: what its proper part fixes. None
/// exactly where that is not one line. For a mirror or glide plane it is the line across the plane. The numbers have no
/// common divisor, and the first that is not 0 is positive.
pub fn axis(group: &Group, i: u8) -> Option<[i32; 3]>
    requires { i < length group.now }
    ensures some { (f : Operator) → slice_get group.now i ≡ Some f → (p : Matrix)
        → IsProperPart f.w p → (IsSome result ↔ IsLine p) }
    ensures value { (f : Operator) → slice_get group.now i ≡ Some f → (p : Matrix)
        → IsProperPart f.w p → IfSome result (λ a. IsAxis p (column_of a)) }
{
    let w = Rotation::of(&group.op(i).w());
    let turn = cycle_of(&proper_part(&w));
    let along = some_column(&turn.sum);
    if is_origin(&along) {
        return None;
    }
    if !has_columns_along(&turn.sum, &along) {
        return None;
    }
    Some(reduced(&along).numbers())
}

/// A column of the matrix, the origin only where all of them are.
fn some_column(m: &Rotation) -> Vector
    requires { HasEntriesWithin (2 * MAX_OPERATORS) (matrix_in m.now) }
    ensures image { IsImage (matrix_in m.now) (column_in result) }
    ensures origin { column_in result ≡ origin → matrix_in m.now ≡ no_matrix }
    ensures size { AreWithin (2 * MAX_OPERATORS) result.x result.y result.z }
{
    let first = x_column(m);
    if !is_origin(&first) {
        return first;
    }
    let second = y_column(m);
    if !is_origin(&second) {
        return second;
    }
    z_column(m)
}

/// Whether each column of the matrix is on one line with the vector.
fn has_columns_along(m: &Rotation, along: &Vector) -> bool
    requires left { HasEntriesWithin (2 * MAX_OPERATORS) (matrix_in m.now) }
    requires right { AreWithin (2 * MAX_OPERATORS) along.now.x along.now.y along.now.z }
    ensures { IsTrue result
        ↔ ((e : Column) → AreParallel (column_in along.now) (matrix_in m.now ·ᶜ e)) }
{
    if !are_parallel(along, &x_column(m)) {
        return false;
    }
    if !are_parallel(along, &y_column(m)) {
        return false;
    }
    are_parallel(along, &z_column(m))
}

fn x_column(m: &Rotation) -> Vector
    ensures { column_in result ≡ x_column_of (matrix_in m.now) }
{
    Vector {
        x: m.xx,
        y: m.yx,
        z: m.zx,
    }
}

fn y_column(m: &Rotation) -> Vector
    ensures { column_in result ≡ y_column_of (matrix_in m.now) }
{
    Vector {
        x: m.xy,
        y: m.yy,
        z: m.zy,
    }
}

fn z_column(m: &Rotation) -> Vector
    ensures { column_in result ≡ z_column_of (matrix_in m.now) }
{
    Vector {
        x: m.xz,
        y: m.yz,
        z: m.zz,
    }
}
