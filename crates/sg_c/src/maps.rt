//! Maps: a value for each grid point of a cell, summed over the orbits.
ghost use Rattle.std.specs.Prelude.{◌≡◌, ◌≢◌, ◌⊎◌, ◌↔◌, None, IfSome, IfOk, IfErr, length};
ghost use Rattle.grid_tags.specs.Grids.{IsGridInRange, IsKept, points};
ghost use Rattle.map_sym.specs.SummedMaps.{AreAllPoints, IsSummedMap};
ghost use Rattle.sg_c.specs.Maps.{grid_of, values_on, AreSums};
ghost use Rattle.sg_c.specs.declared.TheConstants.{OUT_OF_RANGE, NOT_KEPT, NO_MEMORY, WRONG_COUNT, EMPTY};

use crate::handle::Handle;
use crate::{EMPTY, NO_MEMORY, NOT_KEPT, OUT_OF_RANGE, WRONG_COUNT};
use grid_tags::{GridSize, accepts};
use group_closure::Group;
use map_sym::{SymMap, Values, symmetrize};
use std::alloc::Global;

/// The summed map of the values, or the status that says why there is none.
fn summed(alloc: Global, group: &Group, size: &GridSize, values: &[i32]) -> Result<SymMap, u8>
    requires { length values.now ≡ points size.now }
    ensures map { IfOk result (IsSummedMap group.now (values_on size.now values.now)) }
    ensures not_kept { IfErr result (λ status. status ≡ NOT_KEPT → ¬ IsKept group.now size.now) }
    ensures no_other { IfErr result (λ status. (status ≡ NOT_KEPT) ⊎ (status ≡ NO_MEMORY)) }
{
    if !accepts(group, size) {
        return Err(NOT_KEPT);
    }
    let Ok(own) = Vec::from_slice(alloc, values) else {
        return Err(NO_MEMORY);
    };
    match symmetrize(alloc, group, size, &Values::of(size, own)) {
        Ok(map) => Ok(map),
        Err(_) => Err(NO_MEMORY),
    }
}

/// Writes the sum at each point at its place.
fn write_sums(map: &SymMap, size: &GridSize, sums: &mut [i64])
    requires count { length sums.old ≡ points size.now }
    requires size { map.now.sums.size ≡ size.now }
    requires all { AreAllPoints map.now.sums }
    ensures { sums.new ≡ map.now.sums.values }
{
    for place in 0..sums.len() {
        sums[place] = map.value(size.point_at(place));
    }
}

/// Writes the sums of the values over the orbits of the group, and the sum of all values. Values and sums stand by the places of
/// their grid points.
#[unsafe(no_mangle)]
pub extern "C" fn sg_symmetrize(
    alloc: Global,
    group: &mut Handle,
    a: u16,
    b: u16,
    c: u16,
    values: &[i32],
    sums: &mut [i64],
    total: &mut i64,
) -> u8
    ensures range { (result ≡ OUT_OF_RANGE) ↔ (IsGridInRange (grid_of a b c) → ⊥) }
    ensures wrong_count { result ≡ WRONG_COUNT → (length values.now ≡ points (grid_of a b c))
        → length sums.old ≢ points (grid_of a b c) }
    ensures empty { result ≡ EMPTY → group.old.group ≡ None }
    ensures held { group.old.group ≡ None → result ≢ 0 }
    ensures summed { result ≡ 0 → IfSome group.old.group
        (λ members. AreSums members (grid_of a b c) values.now sums.new total.new) }
    ensures not_kept { result ≡ NOT_KEPT
        → IfSome group.old.group (λ members. ¬ IsKept members (grid_of a b c)) }
    ensures unwritten { result ≢ 0 → (sums.new ≡ sums.old) × (total.new ≡ total.old) }
    ensures no_other { (result ≡ 0) ⊎ ((result ≡ OUT_OF_RANGE) ⊎ ((result ≡ WRONG_COUNT)
        ⊎ ((result ≡ EMPTY) ⊎ ((result ≡ NOT_KEPT) ⊎ (result ≡ NO_MEMORY))))) }
    ensures same { group.new.group ≡ group.old.group }
{
    let Some(size) = GridSize::of(a, b, c) else {
        return OUT_OF_RANGE;
    };
    if values.len() != size.points() {
        return WRONG_COUNT;
    }
    if sums.len() != size.points() {
        return WRONG_COUNT;
    }
    let Some(held) = group.take(alloc) else {
        return EMPTY;
    };
    let made = summed(alloc, held.group(), &size, values);
    group.put(held);
    match made {
        Ok(map) => {
            write_sums(&map, &size, sums);
            *total = map.total();
            0
        }
        Err(status) => status,
    }
}
