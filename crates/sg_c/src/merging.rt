//! Measured reflections, merged by classes of equivalent indices.
ghost use Rattle.std.specs.Prelude.{◌≡◌, ◌≢◌, ◌⊎◌, ◌<◌, ◌^◌, ◌++◌, None, Some, List, IfSome, IfOk, length, drop, slice_get};
ghost use Rattle.std.specs.List.{All};
ghost use Rattle.refl_merge.specs.declared.merged.MergedLine.{MergedLine};
ghost use Rattle.sg_c.specs.Arrays.{AreAnswers, IsFirstBad};
ghost use Rattle.sg_c.specs.Merging.{AreMeasured, IsClassAs, IsMergeOf, AreMerged, IsMoreThanRoom};
ghost use Rattle.sg_c.specs.Questions.{IsIndexInRange, pairs_of};
ghost use Rattle.sg_c.specs.declared.merging.MergedClass.{MergedClass};
ghost use Rattle.sg_c.specs.declared.TheConstants.{OUT_OF_RANGE, NO_MEMORY, WRONG_COUNT, EMPTY};

use crate::arrays::refusal;
use crate::handle::Handle;
use crate::questions::{AskKey, IndexNumbers, pairs_of};
use crate::{EMPTY, NO_MEMORY, WRONG_COUNT};
use exact_ops::NoMemory;
use group_closure::Group;
use phase_rules::{Index, Pairs};
use refl_merge::{Measured, MeasuredList, Merged, merge};
use std::alloc::Global;

/// The most lines that are merged.
const MAX_LINES: usize = u32::MAX as usize;

/// What was measured of one class: its greatest index, how many indices are of the class, the sum of their values, whether it is
/// systematically absent, and whether it is and one of the values is not 0.
#[repr(C)]
#[derive(Clone, Copy)]
pub struct MergedClass {
    pub sum: i64,
    pub key: IndexNumbers,
    pub count: u32,
    pub absent: bool,
    pub observed: bool,
}

fn class_at(merged: &Merged, place: u32) -> MergedClass
    requires { place < length merged.now }
    ensures { (line : MergedLine) → slice_get merged.now place ≡ Some line → IsClassAs line result }
{
    let line = merged.get(place);
    let [h, k, l] = line.key;
    MergedClass {
        sum: line.sum,
        key: IndexNumbers { h, k, l },
        count: line.count,
        absent: line.absent,
        observed: line.observed,
    }
}

/// The measured lines with these indices and values.
fn measured(
    alloc: Global,
    indices: &[IndexNumbers],
    values: &[i32],
) -> Result<MeasuredList, NoMemory>
    requires counts { length values.now ≡ length indices.now }
    requires few { length indices.now < 2 ^ 32 }
    requires in_range { All IsIndexInRange indices.now }
    ensures { IfOk result (AreMeasured indices.now values.now) }
{
    let mut list = MeasuredList::new(alloc);
    for i in 0..indices.len() {
        let IndexNumbers { h, k, l } = indices[i];
        let index = Index { h, k, l };
        list.push(&Measured {
            index,
            value: values[i],
        })?;
    }
    Ok(list)
}

/// Writes each class at its place.
fn write_classes(merged: &Merged, classes: &mut [MergedClass])
    requires { length classes.old ≡ length merged.now }
    ensures { AreAnswers IsClassAs merged.now classes.new }
{
    for i in 0..merged.len() {
        classes[i as usize] = class_at(merged, i);
    }
}

/// The merged list of these values.
fn merged_list(
    alloc: Global,
    group: &Group,
    pairs: Pairs,
    indices: &[IndexNumbers],
    values: &[i32],
) -> Result<Merged, NoMemory>
    requires counts { length values.now ≡ length indices.now }
    requires few { length indices.now < 2 ^ 32 }
    requires in_range { All IsIndexInRange indices.now }
    ensures { IfOk result (IsMergeOf pairs group.now indices.now values.now) }
{
    let list = measured(alloc, indices, values)?;
    merge(alloc, group, &list, pairs)
}

/// Merges values by the classes of their indices: writes how many classes there are, and them, by their greatest indices in descending
/// order.
#[unsafe(no_mangle)]
pub extern "C" fn sg_merge(
    alloc: Global,
    group: &mut Handle,
    friedel: bool,
    indices: &[IndexNumbers],
    values: &[i32],
    classes: &mut [MergedClass],
    count: &mut usize,
    bad: &mut usize,
) -> u8
    ensures bad { result ≡ OUT_OF_RANGE → IsFirstBad IsIndexInRange indices.now bad.new }
    ensures in_range { result ≢ OUT_OF_RANGE → result ≢ WRONG_COUNT → All IsIndexInRange indices.now }
    ensures no_bad { result ≢ OUT_OF_RANGE → bad.new ≡ bad.old }
    ensures empty { result ≡ EMPTY → group.old.group ≡ None }
    ensures held { group.old.group ≡ None → result ≢ 0 }
    ensures merged { result ≡ 0 → IfSome group.old.group (λ members.
        AreMerged (pairs_of friedel) members indices.now values.now classes.old classes.new count.new) }
    ensures wrong_count { result ≡ WRONG_COUNT → (length values.now ≢ length indices.now)
        ⊎ ((MAX_LINES < length indices.now) ⊎ IfSome group.old.group (λ members.
        IsMoreThanRoom (pairs_of friedel) members indices.now values.now (length classes.old))) }
    ensures unwritten { result ≢ 0 → (classes.new ≡ classes.old) × (count.new ≡ count.old) }
    ensures no_other { (result ≡ 0) ⊎ ((result ≡ OUT_OF_RANGE) ⊎ ((result ≡ WRONG_COUNT)
        ⊎ ((result ≡ EMPTY) ⊎ (result ≡ NO_MEMORY)))) }
    ensures same { group.new.group ≡ group.old.group }
{
    if indices.len() > MAX_LINES {
        return WRONG_COUNT;
    }
    if let Some(status) = refusal::<AskKey>(indices, values.len(), bad) {
        return status;
    }
    let Some(held) = group.take(alloc) else {
        return EMPTY;
    };
    let made = merged_list(alloc, held.group(), pairs_of(friedel), indices, values);
    group.put(held);
    match made {
        Ok(merged) => write_merged(&merged, classes, count),
        Err(NoMemory) => NO_MEMORY,
    }
}

/// Writes the number of classes, and them, where there is room.
fn write_merged(merged: &Merged, classes: &mut [MergedClass], count: &mut usize) -> u8
    ensures more { result ≡ WRONG_COUNT → length classes.old < length merged.now }
    ensures count { result ≡ 0 → count.new ≡ length merged.now }
    ensures classes { result ≡ 0 → (front : List MergedClass) × AreAnswers IsClassAs merged.now front
        × (classes.new ≡ front ++ drop (length merged.now) classes.old) }
    ensures unwritten { result ≢ 0 → (classes.new ≡ classes.old) × (count.new ≡ count.old) }
    ensures no_other { (result ≡ 0) ⊎ (result ≡ WRONG_COUNT) }
{
    let wanted = merged.len() as usize;
    if wanted > classes.len() {
        return WRONG_COUNT;
    }
    write_classes(merged, &mut classes[..wanted]);
    *count = wanted;
    0
}
