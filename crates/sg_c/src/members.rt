//! What C is told of all members of a group, one after the other.
ghost use Rattle.std.specs.Prelude.{◌≡◌, ◌≢◌, ◌<◌, ◌↔◌, Some, None, List, length, slice_get, IfSome};
ghost use Rattle.lattice_algebra.specs.Matrix.{Matrix, column_of, origin};
ghost use Rattle.lattice_algebra.specs.Operator as lattice;
ghost use Rattle.op_types.specs.ProperPart.{IsProperPart};
ghost use Rattle.op_types.specs.Axis.{IsLine, IsAxis};
ghost use Rattle.sg_c.specs.Arrays.{AreAnswers, IsEachTold};
ghost use Rattle.sg_c.specs.Members.{IsOperatorOf, IsTypeAs};

use crate::group::Operator;
use crate::handle::Handle;
use crate::{EMPTY, WRONG_COUNT};
use group_closure::Group;
use op_types::{axis, intrinsic, kind};
use std::alloc::Global;

/// The type of an operator: the order of its proper part, whether it is proper, the numerators and the denominator of its
/// intrinsic part, and its axis, which is 0 0 0 where it has none.
#[repr(C)]
#[derive(Clone, Copy)]
pub struct OperatorType {
    pub intrinsic: [i32; 3],
    pub denominator: i32,
    pub axis: [i32; 3],
    pub order: u16,
    pub proper: bool,
}

/// What is told of a member.
trait Told: Copy {
    /// It is so of the member.
    ghost is: { lattice.Operator → Self → Type 0 };

    /// What is told of the member at this place.
    fn at(group: &Group, place: u8) -> Self
        requires { place < length group.now }
        ensures { (f : lattice.Operator) → slice_get group.now place ≡ Some f → is f result };
}

impl Told for Operator {
    ghost is = { IsOperatorOf };

    fn at(group: &Group, place: u8) -> Operator {
        Operator::of(&group.op(place))
    }
}

impl Told for OperatorType {
    ghost is = { IsTypeAs };

    fn at(group: &Group, place: u8) -> OperatorType {
        let kind = kind(group, place);
        let part = intrinsic(group, place);
        let numerators = part.n;
        let axis = axis_or_zeros(group, place);
        OperatorType {
            intrinsic: numerators,
            denominator: part.d,
            axis,
            order: kind.order,
            proper: kind.proper,
        }
    }
}

/// The axis of the member at this place, or 0 0 0 where it has none.
fn axis_or_zeros(group: &Group, place: u8) -> [i32; 3]
    requires { place < length group.now }
    ensures axis { (f : lattice.Operator) → slice_get group.now place ≡ Some f → (p : Matrix)
        → IsProperPart f.w p → IsLine p → IsAxis p (column_of result) }
    ensures none { (f : lattice.Operator) → slice_get group.now place ≡ Some f → (p : Matrix)
        → IsProperPart f.w p → (IsLine p → ⊥) → column_of result ≡ origin }
{
    match axis(group, place) {
        Some(numbers) => numbers,
        None => [0, 0, 0],
    }
}

/// Writes what is told of each member at its place.
fn write_each<T: Told>(group: &Group, told: &mut [T])
    requires { length told.old ≡ length group.now }
    ensures { AreAnswers T.is group.now told.new }
{
    for i in 0..group.len() {
        told[usize::from(i)] = T::at(group, i as u8);
    }
}

/// Writes what is told of each member of the group that the handle holds at its place.
fn tell_each<T: Told>(alloc: Global, group: &mut Handle, told: &mut [T]) -> u8
    ensures told { IsEachTold T.is group.old.group told.old told.new result }
    ensures same { group.new.group ≡ group.old.group }
{
    let Some(held) = group.take(alloc) else {
        return EMPTY;
    };
    if told.len() != usize::from(held.group().len()) {
        group.put(held);
        return WRONG_COUNT;
    }
    write_each(held.group(), told);
    group.put(held);
    0
}

/// Writes all operators of the group.
#[unsafe(no_mangle)]
pub extern "C" fn sg_group_operators(alloc: Global, group: &mut Handle, ops: &mut [Operator]) -> u8
    ensures told { IsEachTold IsOperatorOf group.old.group ops.old ops.new result }
    ensures same { group.new.group ≡ group.old.group }
{
    tell_each(alloc, group, ops)
}

/// Writes the types of all operators of the group.
#[unsafe(no_mangle)]
pub extern "C" fn sg_group_types(
    alloc: Global,
    group: &mut Handle,
    types: &mut [OperatorType],
) -> u8
    ensures told { IsEachTold IsTypeAs group.old.group types.old types.new result }
    ensures same { group.new.group ≡ group.old.group }
{
    tell_each(alloc, group, types)
}
