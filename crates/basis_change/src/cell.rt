ghost use Rattle.std.specs.Prelude.{◌≡◌, ◌≢◌, ◌≤◌, ◌↔◌, pos, IsSome, IfSome, IfOk, IfErr, IsErrOf, OnOk};
ghost use Rattle.lattice_algebra.specs.Matrix.{matrix_of, column_of};
ghost use Rattle.lattice_algebra.specs.Operator.{HasEntriesWithin};
ghost use Rattle.exact_ops.specs.declared.TheConstants.{UNIT as PARTS};
ghost use Rattle.group_closure.specs.declared.TheConstants.{MAX_OPERATORS};
ghost use Rattle.group_closure.specs.GroupList.{IsGroup};
ghost use Rattle.space_groups.specs.Bases.{IsInvertible, IsChange, IsCell, AreNarrow, AreInParts, IsMoreThan, IsChangedGroup};
ghost use Rattle.basis_change.specs.declared.TheConstants.{MAX_CELL};
ghost use Rattle.basis_change.specs.Changes.{MayClose, IsRefusedAs, IsRecelled};
ghost use Rattle.basis_change.specs.Frames.{IsFrame, change_in};
ghost use Rattle.basis_change.specs.Laws.{MovesSites, KeepsConjugates};

use crate::MAX_CELL;
use crate::elements::{are_in_parts, are_narrow, are_whole, changed_list, is_cell};
use crate::frame::Frame;
use exact_ops::{Raw, Rotation, Vector};
use group_closure::{CloseFault, Group};
use std::alloc::Global;
use std::marker::Model;

/// The change `x' = (W x) / D + t / UNIT`, which may alter the volume of the cell: a matrix W with an inverse over the
/// rationals, each entry at most `MAX_CELL` in size, and a denominator D from 1 to `MAX_CELL`.
#[derive(Clone, Copy, Debug, Drop)]
pub struct CellChange {
    w: Rotation,
    origin: Vector,
    d: u8,
}

impl Model for CellChange {
    ghost use Rattle.std.specs.Prelude.{pos, unsigned_abs};
    ghost use Rattle.space_groups.specs.Bases.{CoordinateChange};

    ghost Value = { CoordinateChange };

    ghost use Rattle.exact_ops.specs.Fields.{matrix_in, column_in, stored_matrix, stored_column};
    ghost use Rattle.basis_change.specs.Changes.{IsStoredCellChange};

    ghost view = { λ a. record { w = matrix_in a.w; t = column_in a.origin; d = pos a.d } };

    ghost invariant = { λ a. IsStoredCellChange (matrix_in a.w) (column_in a.origin) a.d };

    ghost inverse = { λ c.
        record { w = stored_matrix c.w; origin = stored_column c.t; d = unsigned_abs c.d } };
}

/// Why a group has none in the other cell: of the first five the first that holds.
#[derive(Clone, Copy, PartialEq, Eq, Debug, Drop)]
pub enum RecellFault {
    /// The translation by one cell along some axis is no changed element.
    NotCell,
    /// A changed matrix has an entry that is not whole.
    NotWhole,
    /// A changed matrix has an entry outside -2..=2.
    Wide,
    /// A changed translation is not whole in parts of a cell.
    Fine,
    /// The changed group has more than `MAX_OPERATORS` members modulo the cell.
    Many,
    /// Want of memory, which may come where none of the first four holds.
    NoMemory,
}

impl CellChange {
    /// The change with the numbers of a Raw, over d. None exactly where d is not from 1 to `MAX_CELL`, an entry of the
    /// matrix is beyond `MAX_CELL` in size, or the matrix has no inverse over the rationals.
    pub fn of(raw: &Raw, d: u8) -> Option<CellChange>
        ensures some { IsSome result ↔ ((1 ≤ d) × (d ≤ MAX_CELL)
            × HasEntriesWithin MAX_CELL (matrix_of raw.now.w)
            × IsInvertible (matrix_of raw.now.w)) }
        ensures value { IfSome result (λ c. c
            ≡ record { w = matrix_of raw.now.w; t = column_of raw.now.t; d = pos d }) }
    {
        if d == 0 {
            return None;
        }
        if u32::from(d) > MAX_CELL {
            return None;
        }
        let w = Rotation::of(&raw.w);
        if !w.is_within(MAX_CELL) {
            return None;
        }
        if w.determinant() == 0 {
            return None;
        }
        Some(CellChange {
            w,
            origin: Vector::of(&raw.t),
            d,
        })
    }

    /// The change with its inverse.
    fn frame(&self) -> Frame
        ensures frame { IsFrame result }
        ensures value { change_in result ≡ self.now }
    {
        Frame::of(&self.w, &self.origin, self.d)
    }
}

/// The group in the other cell: its space group is the set of all c g c^-1. All but `Many` is tested before memory is taken.
pub fn recell(alloc: Global, group: &Group, change: &CellChange) -> Result<Group, RecellFault>
    ensures members { IfOk result IsGroup }
    ensures group { IfOk result (IsChangedGroup PARTS group.now change.now) }
    ensures sites { IfOk result (MovesSites group.now change.now) }
    ensures conjugates { IfOk result (KeepsConjugates group.now change.now) }
    ensures ok { OnOk result (MayClose group.now change.now) }
    ensures few { OnOk result (¬ IsMoreThan MAX_OPERATORS PARTS group.now change.now) }
    ensures refused { IfErr result (IsRefusedAs group.now change.now) }
{
    recell_by(alloc, group, &change.frame())
}

/// The group after the change of a frame.
fn recell_by(alloc: Global, group: &Group, frame: &Frame) -> Result<Group, RecellFault>
    requires { IsFrame frame.now }
    ensures ok { IfOk result (IsRecelled group.now (change_in frame.now)) }
    ensures refused { IfErr result (IsRefusedAs group.now (change_in frame.now)) }
    // What is true of every group.
    ensures group { IsGroup group.now }
{
    let _count = group.len();
    if !is_cell(group, frame) {
        return Err(RecellFault::NotCell);
    }
    if !are_whole(group, frame) {
        return Err(RecellFault::NotWhole);
    }
    if !are_narrow(group, frame) {
        return Err(RecellFault::Wide);
    }
    if !are_in_parts(group, frame) {
        return Err(RecellFault::Fine);
    }
    match close_changed(alloc, group, frame) {
        Ok(changed) => Ok(changed),
        Err(CloseFault::Unclosed) => Err(RecellFault::Many),
        Err(CloseFault::NoMemory) => Err(RecellFault::NoMemory),
    }
}

/// The group that the changed operators of the generators generate.
pub(crate) fn close_changed(
    alloc: Global,
    group: &Group,
    frame: &Frame,
) -> Result<Group, CloseFault>
    requires frame { IsFrame frame.now }
    requires cell { IsCell PARTS group.now (change_in frame.now) }
    requires narrow { AreNarrow PARTS group.now (change_in frame.now) }
    requires parts { AreInParts PARTS group.now (change_in frame.now) }
    ensures group { IfOk result IsGroup }
    ensures changed { IfOk result (IsChangedGroup PARTS group.now (change_in frame.now)) }
    ensures few { OnOk result (¬ IsMoreThan MAX_OPERATORS PARTS group.now (change_in frame.now)) }
    ensures many { IsErrOf result CloseFault.Unclosed
        → IsMoreThan MAX_OPERATORS PARTS group.now (change_in frame.now) }
{
    let _count = group.len();
    let Ok(list) = changed_list(alloc, group, frame) else {
        return Err(CloseFault::NoMemory);
    };
    Group::close(alloc, &list)
}
