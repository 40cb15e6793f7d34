ghost use Rattle.std.specs.Prelude.{◌≡◌, ◌<◌, ◌⊎◌, ℕ, ℤ, List, Some, IfOk, OnOk, length, map, slice_get, true};
ghost use Rattle.std.specs.List.{All, Contains};
ghost use Rattle.lattice_algebra.specs.Operator.{Operator, AreWithin};
ghost use Rattle.lattice_algebra.specs.Map.{Map};
ghost use Rattle.group_closure.specs.GroupList.{IsGroup};
ghost use Rattle.exact_ops.specs.declared.TheConstants.{MAX_SHIFT};
ghost use Rattle.affine_sets.specs.Subs.{AreElements};
ghost use Rattle.exact_ops.specs.Elements.{map_in};
ghost use Rattle.wyckoff_rows.specs.Steps.{IsEntry, AreEnough, IsCovered, IsAlike, IsInCoset, IsPlaceIn, IsCandidate, IsIn, IsPushed};

use crate::entry::Entry;
use crate::ranges::{Range, shift_ranges};
use affine_sets::Sub;
use affine_sets::numbers::place_of;
use exact_ops::{Move, NoMemory, Op};
use group_closure::{Group, MAX_OPERATORS};
use std::alloc::Global;

/// Elements by which it suffices to grow a kept group: any other that fixes one of its fixed points fixes as many of them as
/// one of these, up to an element of the space group. Of the operators only one of each double coset of the group is taken,
/// and none whose inverse was, though no clause says so.
pub fn candidates(alloc: Global, g: &Group, entry: &Entry) -> Result<Vec<Move>, NoMemory>
    requires { IsEntry g.now entry.now }
    ensures enough { IfOk result (λ list. AreEnough g.now entry.now.set (map map_in list.items)) }
    ensures candidates { IfOk result (λ list. All (IsCandidate g.now) (map map_in list.items)) }
{
    let places = places_of(alloc, g, &entry.set)?;
    let mut list = Vec::new(alloc);
    let mut tried = none_tried();
    for i in 0..g.len() {
        if !tried[usize::from(i)] {
            mark(g, &places, i as u8, &mut tried);
            push_shifts(g, entry, i as u8, &mut list)?;
        }
    }
    Ok(list)
}

/// No operator is marked.
fn none_tried() -> [bool; MAX_OPERATORS]
    ensures { (j : ℕ) → slice_get result j ≡ Some true → ⊥ }
{
    [false; MAX_OPERATORS]
}

/// Places of operators of elements of a group: of each, though no clause says so.
fn places_of(alloc: Global, g: &Group, set: &Sub) -> Result<Vec<u8>, NoMemory>
    requires { AreElements g.now set.now }
    ensures { IfOk result (λ places. All (IsPlaceIn g.now set.now) places.items) }
{
    let mut places = Vec::new(alloc);
    for k in 0..set.len() {
        let Ok(()) = places.push(place_of(g, &set.get(k))) else {
            return Err(NoMemory);
        };
    }
    Ok(places)
}

/// Marks no operator but those of the double coset of a group, whose operators are at these places, to which the one at place i
/// belongs, and their inverses: all of these, though no clause says so.
fn mark(g: &Group, places: &[u8], i: u8, tried: &mut [bool; MAX_OPERATORS])
    requires group { IsGroup g.now }
    requires place { i < length g.now }
    requires places { All (λ p. p < length g.now) places.now }
    ensures { (set : List Map) → All (IsPlaceIn g.now set) places.now
        → (j : ℕ) (f h : Operator) → slice_get tried.new j ≡ Some true
        → slice_get g.now i ≡ Some f → slice_get g.now j ≡ Some h
        → (slice_get tried.old j ≡ Some true) ⊎ IsAlike set f h }
{
    for place in places {
        mark_coset(g, places, g.product(i, *place), tried);
    }
}

/// Marks no operator but those that are made by the operators at these places after the one at place j, and their inverses: all
/// of these, though no clause says so.
fn mark_coset(g: &Group, places: &[u8], j: u8, tried: &mut [bool; MAX_OPERATORS])
    requires group { IsGroup g.now }
    requires place { j < length g.now }
    requires places { All (λ p. p < length g.now) places.now }
    ensures { (set : List Map) → All (IsPlaceIn g.now set) places.now
        → (n : ℕ) (f h : Operator) → slice_get tried.new n ≡ Some true
        → slice_get g.now j ≡ Some f → slice_get g.now n ≡ Some h
        → (slice_get tried.old n ≡ Some true) ⊎ IsInCoset set f h }
{
    for place in places {
        let n = g.product(*place, j);
        tried[usize::from(n)] = true;
        tried[usize::from(g.inverse_of(n))] = true;
    }
}

/// Adds the elements of the operator at place i with each whole shift of its ranges.
fn push_shifts(g: &Group, entry: &Entry, i: u8, list: &mut Vec<Move>) -> Result<(), NoMemory>
    requires place { i < length g.now }
    requires entry { IsEntry g.now entry.now }
    requires candidates { All (IsCandidate g.now) (map map_in list.old.items) }
    ensures extends { OnOk result ((c : Map) → Contains (map map_in list.old.items) c
        → Contains (map map_in list.new.items) c) }
    ensures covered { OnOk result ((f : Operator) → slice_get g.now i ≡ Some f
        → IsCovered g.now entry.now.set (map map_in list.new.items) f) }
    ensures candidates { OnOk result (All (IsCandidate g.now) (map map_in list.new.items)) }
{
    let op = g.op(i);
    let ranges = shift_ranges(g, entry, i);
    push_box(&op, ranges.xs, ranges.ys, ranges.zs, list)?;
    Ok(())
}

/// Adds the elements of an operator whose whole shifts are in three ranges.
fn push_box(op: &Op, xs: Range, ys: Range, zs: Range, list: &mut Vec<Move>) -> Result<(), NoMemory>
    requires { (i j k : ℤ) → IsIn xs i → IsIn ys j → IsIn zs k → AreWithin MAX_SHIFT i j k }
    ensures { OnOk result (IsPushed (λ k. IsIn xs k.x × IsIn ys k.y × IsIn zs k.z) op.now
        (map map_in list.old.items) (map map_in list.new.items)) }
{
    for x in xs.low..xs.end {
        push_plane(op, x, ys, zs, list)?;
    }
    Ok(())
}

/// Adds those with one first shift.
fn push_plane(op: &Op, x: i64, ys: Range, zs: Range, list: &mut Vec<Move>) -> Result<(), NoMemory>
    requires { (j k : ℤ) → IsIn ys j → IsIn zs k → AreWithin MAX_SHIFT x j k }
    ensures { OnOk result (IsPushed (λ k. (k.x ≡ x) × IsIn ys k.y × IsIn zs k.z) op.now
        (map map_in list.old.items) (map map_in list.new.items)) }
{
    for y in ys.low..ys.end {
        push_line(op, x, y, zs, list)?;
    }
    Ok(())
}

/// Adds those with one first and one second shift.
fn push_line(op: &Op, x: i64, y: i64, zs: Range, list: &mut Vec<Move>) -> Result<(), NoMemory>
    requires { (k : ℤ) → IsIn zs k → AreWithin MAX_SHIFT x y k }
    ensures { OnOk result (IsPushed (λ k. (k.x ≡ x) × (k.y ≡ y) × IsIn zs k.z) op.now
        (map map_in list.old.items) (map map_in list.new.items)) }
{
    for z in zs.low..zs.end {
        let Ok(()) = list.push(Move {
            op: *op,
            shift: [x, y, z],
        }) else {
            return Err(NoMemory);
        };
    }
    Ok(())
}
