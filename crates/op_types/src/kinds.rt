ghost use Rattle.std.specs.Prelude.{◌≡◌, ◌<◌, ◌↔◌, IsTrue, Some, length, slice_get};
ghost use Rattle.lattice_algebra.specs.Matrix.{Matrix};
ghost use Rattle.lattice_algebra.specs.Operator.{Operator};
ghost use Rattle.lattice_algebra.specs.Powers.{IsOrder};
ghost use Rattle.op_types.specs.ProperPart.{IsProper, IsProperPart};

use crate::cycle::cycle_of;
use crate::parts::Kind;
use crate::proper_part::{is_proper, proper_part};
use exact_ops::Rotation;
use group_closure::Group;

/// The kind of the operator at place i, counted from 0: whether its determinant is positive, and the order of its proper part.
pub fn kind(group: &Group, i: u8) -> Kind
    requires { i < length group.now }
    ensures handedness { (f : Operator) → slice_get group.now i ≡ Some f
        → IsTrue result.proper ↔ IsProper f.w }
    ensures order { (f : Operator) → slice_get group.now i ≡ Some f → (p : Matrix)
        → IsProperPart f.w p → IsOrder p result.order }
{
    let w = Rotation::of(&group.op(i).w());
    Kind {
        order: cycle_of(&proper_part(&w)).order,
        proper: is_proper(&w),
    }
}
