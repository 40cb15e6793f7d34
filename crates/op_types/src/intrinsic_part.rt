ghost use Rattle.std.specs.Prelude.{◌≡◌, ◌<◌, pos, ◌<ℤ◌, Some, length, slice_get};
ghost use Rattle.lattice_algebra.specs.Matrix.{column_of};
ghost use Rattle.lattice_algebra.specs.Operator.{Operator};
ghost use Rattle.op_types.specs.IntrinsicPart.{IsIntrinsicPart};

use crate::cycle::cycle_of;
use exact_ops::{Rotation, UNIT, Vector};
use group_closure::Group;

/// The three fractions n\[0\] / d, n\[1\] / d and n\[2\] / d, in fractions of the basis vectors. The denominator need not be
/// the least.
#[derive(Clone, Copy, PartialEq, Eq, Debug, Drop)]
pub struct Frac3 {
    pub n: [i32; 3],
    pub d: i32,
    pub ghost positive: { pos 0 <ℤ d },
}

/// The intrinsic part of the operator at place i, counted from 0: the screw part of a screw axis, the glide vector of a glide
/// plane. Its translation is taken in the cell. It is not reduced modulo 1 and can be negative. The order is that of the
/// matrix itself, also where it is not proper.
pub fn intrinsic(group: &Group, i: u8) -> Frac3
    requires { i < length group.now }
    ensures { (f : Operator) → slice_get group.now i ≡ Some f
        → IsIntrinsicPart f (column_of result.n) result.d }
{
    let op = group.op(i);
    let turn = cycle_of(&Rotation::of(&op.w()));
    Frac3 {
        n: turn.sum.image(&Vector::of(&op.t())).numbers(),
        d: UNIT as i32 * i32::from(turn.order),
    }
}
