//! A group in other coordinates, which another handle then holds.
ghost use Rattle.std.specs.Prelude.{◌≡◌, ◌≢◌, ◌⊎◌, ◌↔◌, Some, None, IsSome, IfSome};
ghost use Rattle.exact_ops.specs.declared.TheConstants.{UNIT};
ghost use Rattle.space_groups.specs.Bases.{AreNarrow};
ghost use Rattle.sg_c.specs.Changes.{change_of, IsBasis, IsCellChange, HoldsChanged, IsNotRecelled};
ghost use Rattle.sg_c.specs.declared.TheConstants.{OUT_OF_RANGE, NOT_KEPT, NO_MEMORY, EMPTY};

use crate::group::Operator;
use crate::handle::Handle;
use crate::kept::Kept;
use crate::{EMPTY, NO_MEMORY, NOT_KEPT, OUT_OF_RANGE};
use basis_change::basis::ChangeFault;
use basis_change::cell::{CellChange, RecellFault};
use basis_change::parts::Change;
use basis_change::{change, recell};
use exact_ops::Raw;
use group_closure::Group;
use std::alloc::Global;

/// The change of the basis with these numbers. None exactly where they are out of range, or the matrix has no whole inverse.
fn basis_of(numbers: &Operator) -> Option<Change>
    ensures some { IsSome result ↔ IsBasis numbers.now }
    ensures value { IfSome result (λ c. c ≡ change_of numbers.now 1) }
{
    let Operator { w, t } = *numbers;
    let raw = Raw::of(w, t)?;
    Change::of(&raw)
}

/// The change of the cell with these numbers. None exactly where they are out of range, or the change cannot be undone.
fn cell_of(numbers: &Operator, over: u8) -> Option<CellChange>
    ensures some { IsSome result ↔ IsCellChange numbers.now over }
    ensures value { IfSome result (λ c. c ≡ change_of numbers.now over) }
{
    let Operator { w, t } = *numbers;
    let raw = Raw::of(w, t)?;
    CellChange::of(&raw, over)
}

/// Holds the group, unless memory is wanted.
fn hold(alloc: Global, handle: &mut Handle, group: Group) -> u8
    requires { handle.old.group ≡ None }
    ensures held { result ≡ 0 → handle.new.group ≡ Some group }
    ensures none { result ≢ 0 → (result ≡ NO_MEMORY) × (handle.new.group ≡ None) }
{
    match Box::new(alloc, Kept::new(group)) {
        Ok(group) => {
            handle.put(group);
            0
        }
        Err(_) => NO_MEMORY,
    }
}

fn status_of_change(fault: ChangeFault) -> u8
    ensures not_kept { result ≡ NOT_KEPT → fault ≡ ChangeFault.Wide }
    ensures no_other { (result ≡ NOT_KEPT) ⊎ (result ≡ NO_MEMORY) }
{
    match fault {
        ChangeFault::Wide => NOT_KEPT,
        ChangeFault::NoMemory => NO_MEMORY,
    }
}

fn status_of_recell(fault: RecellFault) -> u8
    ensures not_kept { result ≡ NOT_KEPT → fault ≢ RecellFault.NoMemory }
    ensures no_other { (result ≡ NOT_KEPT) ⊎ (result ≡ NO_MEMORY) }
{
    match fault {
        RecellFault::NoMemory => NO_MEMORY,
        _ => NOT_KEPT,
    }
}

/// Takes the group of a handle to another basis and origin, by x -> W x + t. Another handle then holds it. A group that this one
/// held before is freed, in any case.
#[unsafe(no_mangle)]
pub extern "C" fn sg_group_basis(
    alloc: Global,
    group: &mut Handle,
    numbers: &Operator,
    changed: &mut Handle,
) -> u8
    ensures range { (result ≡ OUT_OF_RANGE) ↔ (IsBasis numbers.now → ⊥) }
    ensures empty { result ≡ EMPTY → group.old.group ≡ None }
    ensures held { group.old.group ≡ None → result ≢ 0 }
    ensures changed { result ≡ 0 → IfSome group.old.group
        (λ members. HoldsChanged members (change_of numbers.now 1) changed.new.group) }
    ensures not_kept { result ≡ NOT_KEPT → IfSome group.old.group
        (λ members. ¬ AreNarrow UNIT members (change_of numbers.now 1)) }
    ensures none { result ≢ 0 → changed.new.group ≡ None }
    ensures no_other { (result ≡ 0) ⊎ ((result ≡ OUT_OF_RANGE) ⊎ ((result ≡ EMPTY)
        ⊎ ((result ≡ NOT_KEPT) ⊎ (result ≡ NO_MEMORY)))) }
    ensures same { group.new.group ≡ group.old.group }
{
    drop(changed.take(alloc));
    let Some(basis) = basis_of(numbers) else {
        return OUT_OF_RANGE;
    };
    let Some(held) = group.take(alloc) else {
        return EMPTY;
    };
    let made = change(alloc, held.group(), &basis);
    group.put(held);
    match made {
        Ok(made) => hold(alloc, changed, made),
        Err(fault) => status_of_change(fault),
    }
}

/// Takes the group of a handle to another cell, by x -> W x / over + t. Another handle then holds it. A group that this one held
/// before is freed, in any case.
#[unsafe(no_mangle)]
pub extern "C" fn sg_group_recell(
    alloc: Global,
    group: &mut Handle,
    numbers: &Operator,
    over: u8,
    changed: &mut Handle,
) -> u8
    ensures range { (result ≡ OUT_OF_RANGE) ↔ (IsCellChange numbers.now over → ⊥) }
    ensures empty { result ≡ EMPTY → group.old.group ≡ None }
    ensures held { group.old.group ≡ None → result ≢ 0 }
    ensures changed { result ≡ 0 → IfSome group.old.group
        (λ members. HoldsChanged members (change_of numbers.now over) changed.new.group) }
    ensures not_kept { result ≡ NOT_KEPT → IfSome group.old.group
        (λ members. IsNotRecelled members (change_of numbers.now over)) }
    ensures none { result ≢ 0 → changed.new.group ≡ None }
    ensures no_other { (result ≡ 0) ⊎ ((result ≡ OUT_OF_RANGE) ⊎ ((result ≡ EMPTY)
        ⊎ ((result ≡ NOT_KEPT) ⊎ (result ≡ NO_MEMORY)))) }
    ensures same { group.new.group ≡ group.old.group }
{
    drop(changed.take(alloc));
    let Some(cell) = cell_of(numbers, over) else {
        return OUT_OF_RANGE;
    };
    let Some(held) = group.take(alloc) else {
        return EMPTY;
    };
    let made = recell(alloc, held.group(), &cell);
    group.put(held);
    match made {
        Ok(made) => hold(alloc, changed, made),
        Err(fault) => status_of_recell(fault),
    }
}
