ghost use Rattle.std.specs.Prelude.{◌≡◌, ◌<◌, ◌↔◌, ◌*ℤ◌, pos, IsTrue, IsSome, IfSome, IfOk, Some, slice_get};
ghost use Rattle.lattice_algebra.specs.Matrix.{Column, times, identity, ◌·ᶜ◌};
ghost use Rattle.lattice_algebra.specs.Map.{operator_of};
ghost use Rattle.exact_ops.specs.declared.TheConstants.{UNIT as PARTS};
ghost use Rattle.space_groups.specs.Regions.{shift_by};
ghost use Rattle.space_groups.specs.Bases.{IsCell, AreWhole, AreNarrow, AreInParts, IsInChanged};
ghost use Rattle.basis_change.specs.Wide.{wide_matrix, wide_column};
ghost use Rattle.basis_change.specs.Frames.{IsFrame, change_in, cells, generators, AreChanged};

use crate::frame::Frame;
use crate::generator::{along, generator_at, generator_count};
use crate::quotient::part;
use crate::wide::WideVector;
use exact_ops::{NoMemory, Op, OpList, Raw, Rotation, UNIT};
use group_closure::Group;
use std::alloc::Global;

/// Whether the translation by one cell along each axis is a changed element.
pub fn is_cell(group: &Group, frame: &Frame) -> bool
    requires { IsFrame frame.now }
    ensures { IsTrue result ↔ IsCell PARTS group.now (change_in frame.now) }
{
    if !has_cell(group, frame, 0) {
        return false;
    }
    if !has_cell(group, frame, 1) {
        return false;
    }
    has_cell(group, frame, 2)
}

/// Whether the translation by one cell along an axis is a changed element.
fn has_cell(group: &Group, frame: &Frame, axis: u16) -> bool
    requires frame { IsFrame frame.now }
    requires axis { axis < 3 }
    ensures { (e : Column) → slice_get cells axis ≡ Some e
        → (IsTrue result ↔ IsInChanged PARTS group.now (change_in frame.now) (shift_by PARTS e)) }
{
    let _count = group.len();
    let Some(s) = cell_before(frame, axis) else {
        return false;
    };
    let Some(op) = translation_by(&s) else {
        return false;
    };
    group.find(&op).is_some()
}

/// The column s of which one cell along an axis is the changed one. None exactly where it is not whole in parts of a cell.
fn cell_before(frame: &Frame, axis: u16) -> Option<WideVector>
    requires frame { IsFrame frame.now }
    requires axis { axis < 3 }
    ensures some { (e : Column) → slice_get cells axis ≡ Some e
        → (IsSome result ↔ ((s : Column) × (times frame.now.k s
        ≡ times (frame.now.d *ℤ pos PARTS) (wide_matrix frame.now.v ·ᶜ e)))) }
    ensures value { (e : Column) → slice_get cells axis ≡ Some e
        → IfSome result (λ s. times frame.now.k (wide_column s)
        ≡ times (frame.now.d *ℤ pos PARTS) (wide_matrix frame.now.v ·ᶜ e)) }
{
    let over = frame.d * i64::from(UNIT);
    frame.v.on(&along(axis, over)).divided(frame.k)
}

/// The operator of the translation by s, modulo the cell.
fn translation_by(s: &WideVector) -> Option<Op>
    ensures some { IsSome result }
    ensures value { IfSome result (λ op.
        op ≡ operator_of PARTS (record { w = identity; s = wide_column s.now })) }
{
    let raw = Raw {
        w: Rotation::IDENTITY.rows(),
        t: [part(s.x), part(s.y), part(s.z)],
    };
    match Op::of(&raw) {
        Ok(op) => Some(op),
        Err(_) => None,
    }
}

/// Whether the changed matrix of each element is whole.
pub fn are_whole(group: &Group, frame: &Frame) -> bool
    requires { IsFrame frame.now }
    ensures { IsTrue result ↔ AreWhole PARTS group.now (change_in frame.now) }
{
    for i in 0..generator_count(group) {
        let g = generator_at(group, i);
        if frame.rotation(&g.w).is_none() {
            return false;
        }
    }
    true
}

/// Whether no changed matrix has an entry beyond 2.
pub fn are_narrow(group: &Group, frame: &Frame) -> bool
    requires { IsFrame frame.now }
    ensures { IsTrue result ↔ AreNarrow PARTS group.now (change_in frame.now) }
{
    for i in 0..generator_count(group) {
        let g = generator_at(group, i);
        if !frame.stays_narrow(&g.w) {
            return false;
        }
    }
    true
}

/// Whether each element has a changed map that is whole, its translation in parts of a cell.
pub fn are_in_parts(group: &Group, frame: &Frame) -> bool
    requires frame { IsFrame frame.now }
    requires narrow { AreNarrow PARTS group.now (change_in frame.now) }
    ensures { IsTrue result ↔ AreInParts PARTS group.now (change_in frame.now) }
{
    for i in 0..generator_count(group) {
        let g = generator_at(group, i);
        if frame.changed(&g).is_none() {
            return false;
        }
    }
    true
}

/// The changed operators of the generators.
pub fn changed_list(alloc: Global, group: &Group, frame: &Frame) -> Result<OpList, NoMemory>
    requires frame { IsFrame frame.now }
    requires narrow { AreNarrow PARTS group.now (change_in frame.now) }
    requires parts { AreInParts PARTS group.now (change_in frame.now) }
    ensures { IfOk result (AreChanged group.now (change_in frame.now) (generators group.now)) }
{
    let mut list = OpList::new(alloc);
    for i in 0..generator_count(group) {
        let g = generator_at(group, i);
        let raw = frame.changed(&g).unwrap();
        let Ok(()) = list.push(&raw) else {
            return Err(NoMemory);
        };
    }
    Ok(list)
}
