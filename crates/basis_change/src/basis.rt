ghost use Rattle.std.specs.Prelude.{◌≡◌, ◌↔◌, IfOk, IsErrOf, OnOk};
ghost use Rattle.exact_ops.specs.declared.TheConstants.{UNIT};
ghost use Rattle.group_closure.specs.GroupList.{IsGroup};
ghost use Rattle.space_groups.specs.Bases.{IsBasisChange, IsChangedGroup, AreNarrow};
ghost use Rattle.basis_change.specs.Frames.{IsFrame, change_in};
ghost use Rattle.basis_change.specs.Laws.{KeepsAbsences, KeepsClassSizes, MovesSites, KeepsConjugates, KeepsOrbitSizes};

use crate::cell::close_changed;
use crate::elements::are_narrow;
use crate::frame::Frame;
use crate::parts::Change;
use group_closure::{CloseFault, Group};
use std::alloc::Global;

/// Why a group has none in another basis.
#[derive(Clone, Copy, PartialEq, Eq, Debug, Drop)]
pub enum ChangeFault {
    /// A changed operator has an entry outside -2..=2.
    Wide,
    /// Want of memory, which may come for any group that is not `Wide`.
    NoMemory,
}

/// The group in another basis: its space group is the set of all c g c^-1. `Wide` comes exactly where a changed operator has an
/// entry outside -2..=2, before memory is taken.
pub fn change(alloc: Global, group: &Group, c: &Change) -> Result<Group, ChangeFault>
    ensures members { IfOk result IsGroup }
    ensures group { IfOk result (IsChangedGroup UNIT group.now c.now) }
    ensures narrow { OnOk result (AreNarrow UNIT group.now c.now) }
    ensures wide { IsErrOf result ChangeFault.Wide ↔ (¬ AreNarrow UNIT group.now c.now) }
    ensures absences { IfOk result (KeepsAbsences group.now c.now) }
    ensures classes { IfOk result (KeepsClassSizes group.now c.now) }
    ensures sites { IfOk result (MovesSites group.now c.now) }
    ensures conjugates { IfOk result (KeepsConjugates group.now c.now) }
    ensures orbits { IfOk result (KeepsOrbitSizes group.now c.now) }
{
    change_by(alloc, group, &c.frame())
}

/// The group after the change of a frame.
fn change_by(alloc: Global, group: &Group, frame: &Frame) -> Result<Group, ChangeFault>
    requires frame { IsFrame frame.now }
    requires change { IsBasisChange (change_in frame.now) }
    ensures members { IfOk result IsGroup }
    ensures changed { IfOk result (IsChangedGroup UNIT group.now (change_in frame.now)) }
    ensures narrow { OnOk result (AreNarrow UNIT group.now (change_in frame.now)) }
    ensures wide { IsErrOf result ChangeFault.Wide
        ↔ (¬ AreNarrow UNIT group.now (change_in frame.now)) }
    // What is true of every group.
    ensures group { IsGroup group.now }
{
    let _count = group.len();
    if !are_narrow(group, frame) {
        return Err(ChangeFault::Wide);
    }
    match close_changed(alloc, group, frame) {
        Ok(changed) => Ok(changed),
        Err(CloseFault::NoMemory) => Err(ChangeFault::NoMemory),
        // There are as many operators as before.
        Err(CloseFault::Unclosed) => unreachable!(),
    }
}
