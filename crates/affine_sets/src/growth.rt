//! How a finite group grows by one more element. The elements that are found stand in blocks, each of them the old group after its
//! first; a block leads to others by its first after the new element and after each old one. So whole shifts stay small.
ghost use Rattle.std.specs.Prelude.{◌≡◌, ◌≢◌, ◌⊎◌, ◌<◌, ◌≤◌, ◌+◌, ◌*◌, ◌↔◌, [], ◌∷◌, ℕ, pos, true, false, List, None, Some, IsNone, IfOk, OnOk, OnErr, IfSome, IfNone, length, map, take, slice_get, slice_index_or, vec_len, vec_capacity};
ghost use Rattle.std.specs.List.{All, Contains};
ghost use Rattle.lattice_algebra.specs.Matrix.{column_of};
ghost use Rattle.lattice_algebra.specs.Operator.{Operator, AreWithin};
ghost use Rattle.lattice_algebra.specs.Map.{Map, ◌∘◌};
ghost use Rattle.exact_ops.specs.declared.TheConstants.{UNIT, MAX_SHIFT};
ghost use Rattle.exact_ops.specs.Elements.{map_in};
ghost use Rattle.group_closure.specs.declared.TheConstants.{MAX_OPERATORS as PLACES};
ghost use Rattle.group_closure.specs.GroupList.{IsGroup};
ghost use Rattle.space_groups.specs.Space.{IsElement, ScaledPoint};
ghost use Rattle.space_groups.specs.Search.{FixAll};
ghost use Rattle.affine_sets.specs.declared.TheConstants.{MAX_GROWN_SHIFT};
ghost use Rattle.affine_sets.specs.Fields.{offset_in};
ghost use Rattle.affine_sets.specs.Subs.{AreElements, AreShiftsWithin};
ghost use Rattle.affine_sets.specs.Growth.{placed_map, Holds, Puts, HoldsMap, IsApart, AreOld, IsInBlock, IsGrowing, Extends, given_maps, AreProducts, IsTorn, IsGeneratedBy, AreHeld, AreListed};

use crate::holding::Held;
use crate::numbers::{Offset, place_of};
use crate::sub::Sub;
use exact_ops::{Move, NoMemory, Rotation};
use group_closure::Group;
use std::alloc::Global;

/// An element by the place of its operator.
#[derive(Clone, Copy, PartialEq, Eq, Debug, Drop)]
pub struct Placed {
    pub place: u8,
    pub shift: Offset,
}

/// Why a group does not grow: two elements with one rotation part, so that no point is fixed by all.
#[derive(Clone, Copy, Drop)]
struct Apart;

/// The group that the elements of a group and e generate. None exactly where no rational point is fixed by all.
pub fn grow(alloc: Global, s: &Sub, g: &Group, e: &Move) -> Result<Option<Sub>, NoMemory>
    requires elements { AreElements g.now s.now }
    requires element { IsElement UNIT g.now (map_in e.now) }
    requires shifts { AreShiftsWithin MAX_GROWN_SHIFT (map_in e.now ∷ s.now) }
    ensures some { IfOk result (λ grown. IfSome grown
        (IsGeneratedBy (map_in e.now ∷ s.now))) }
    ensures none { IfOk result (λ grown. IfNone grown
        ((z : ScaledPoint) → FixAll (map_in e.now ∷ s.now) z → ⊥)) }
    ensures elements { IfOk result (λ grown. IfSome grown (AreElements g.now)) }
{
    let Ok(mut old) = Vec::with_capacity(alloc, s.moves.len()) else {
        return Err(NoMemory);
    };
    let Ok(mut firsts) = Vec::with_capacity(alloc, usize::from(g.len())) else {
        return Err(NoMemory);
    };
    let Ok(mut moves) = Vec::with_capacity(alloc, usize::from(g.len())) else {
        return Err(NoMemory);
    };
    let mut held = Held::new(alloc)?;
    hold_elements(g, s, &mut held, &mut old);
    firsts.push_reserved(old[0]);
    let e = with_place(g, e);
    let Ok(()) = put_all(g, &mut held, &mut firsts, &old, &e) else {
        return Ok(None);
    };
    list_held(g, &held, &mut moves);
    Ok(Some(Sub { moves }))
}

/// Holds the elements of s, and lists them by their places.
fn hold_elements(g: &Group, s: &Sub, held: &mut Held, old: &mut Vec<Placed>)
    requires group { IsGroup g.now }
    requires elements { AreElements g.now s.now }
    requires room { length s.now ≤ vec_capacity old.old }
    requires empty { old.old.items ≡ [] }
    requires none { (p : ℕ) (k : Offset) → Holds held.old p k → ⊥ }
    ensures maps { map (placed_map g.now) old.new.items ≡ s.now }
    ensures within { All (λ (x : Placed). x.place < length g.now) old.new.items }
    ensures held { AreHeld old.new.items held.new }
{
    for element in &s.moves {
        let x = with_place(g, element);
        held.hold(&x);
        old.push_reserved(x);
    }
}

/// Adds blocks until none leads to another. Then all products by the given elements are held.
fn put_all(
    g: &Group,
    held: &mut Held,
    firsts: &mut Vec<Placed>,
    old: &[Placed],
    e: &Placed,
) -> Result<(), Apart>
    requires group { IsGroup g.now }
    requires old { AreOld g.now old.now }
    requires growing { IsGrowing g.now old.now held.old firsts.old.items }
    requires products { AreProducts g.now (given_maps g.now old.now e.now) held.old }
    requires room { length g.now ≤ vec_capacity firsts.old }
    requires element { e.now.place < length g.now }
    requires size { AreWithin MAX_GROWN_SHIFT e.now.shift.x e.now.shift.y e.now.shift.z }
    ensures growing { OnOk result (IsGrowing g.now old.now held.new firsts.new.items) }
    ensures products { OnOk result (AreProducts g.now (given_maps g.now old.now e.now) held.new) }
    ensures closed { OnOk result ((y b : Map) → HoldsMap g.now held.new y
        → Contains (given_maps g.now old.now e.now) b → HoldsMap g.now held.new (y ∘ b)) }
    ensures torn { OnErr result (IsTorn (given_maps g.now old.now e.now)) }
{
    let mut done = 0;
    while done < firsts.len() {
        let r = firsts[done];
        put_next(g, held, firsts, old, e, &r)?;
        done += 1;
    }
    Ok(())
}

/// Lists what is held, in the order of the members.
fn list_held(g: &Group, held: &Held, moves: &mut Vec<Move>)
    requires room { length g.now ≤ vec_capacity moves.old }
    requires empty { moves.old.items ≡ [] }
    requires small { (p : ℕ) (k : Offset) → Holds held.now p k → AreWithin MAX_SHIFT k.x k.y k.z }
    ensures listed { AreListed g.now held.now (map map_in moves.new.items) }
    ensures short { length moves.new.items ≤ length g.now }
{
    for i in 0..g.len() {
        if let Some(shift) = held.shift_at(i as u8) {
            moves.push_reserved(Move {
                op: g.op(i as u8),
                shift: [shift.x, shift.y, shift.z],
            });
        }
    }
}

/// Adds the blocks to which the block of r leads.
fn put_next(
    g: &Group,
    held: &mut Held,
    firsts: &mut Vec<Placed>,
    old: &[Placed],
    e: &Placed,
    r: &Placed,
) -> Result<(), Apart>
    requires group { IsGroup g.now }
    requires old { AreOld g.now old.now }
    requires growing { IsGrowing g.now old.now held.old firsts.old.items }
    requires products { AreProducts g.now (given_maps g.now old.now e.now) held.old }
    requires room { length g.now ≤ vec_capacity firsts.old }
    requires element { e.now.place < length g.now }
    requires size { AreWithin MAX_GROWN_SHIFT e.now.shift.x e.now.shift.y e.now.shift.z }
    requires first { (j : ℕ) × (slice_get firsts.old.items j ≡ Some r.now) }
    ensures growing { OnOk result (IsGrowing g.now old.now held.new firsts.new.items) }
    ensures products { OnOk result (AreProducts g.now (given_maps g.now old.now e.now) held.new) }
    ensures capacity { vec_capacity firsts.new ≡ vec_capacity firsts.old }
    ensures extends { OnOk result (Extends firsts.old.items firsts.new.items) }
    ensures keeps { OnOk result ((y : Map)
        → HoldsMap g.now held.old y → HoldsMap g.now held.new y) }
    ensures times { OnOk result ((b : Map) → Contains (given_maps g.now old.now e.now) b
        → HoldsMap g.now held.new (placed_map g.now r.now ∘ b)) }
    ensures torn { OnErr result (IsTorn (given_maps g.now old.now e.now)) }
{
    put_block(g, held, firsts, old, &after(g, r, e))?;
    for h in old {
        put_block(g, held, firsts, old, &after(g, r, h))?;
    }
    Ok(())
}

/// Adds the block of x: the old elements after x.
fn put_block(
    g: &Group,
    held: &mut Held,
    firsts: &mut Vec<Placed>,
    old: &[Placed],
    x: &Placed,
) -> Result<(), Apart>
    requires group { IsGroup g.now }
    requires old { AreOld g.now old.now }
    requires growing { IsGrowing g.now old.now held.old firsts.old.items }
    requires room { length g.now ≤ vec_capacity firsts.old }
    requires place { x.now.place < length g.now }
    requires size { (let n = (vec_len firsts.old + 1) * 7000000 in
        AreWithin n x.now.shift.x x.now.shift.y x.now.shift.z) }
    ensures growing { OnOk result (IsGrowing g.now old.now held.new firsts.new.items) }
    ensures capacity { vec_capacity firsts.new ≡ vec_capacity firsts.old }
    ensures extends { OnOk result (Extends firsts.old.items firsts.new.items) }
    ensures keeps { OnOk result ((y : Map)
        → HoldsMap g.now held.old y → HoldsMap g.now held.new y) }
    ensures has { OnOk result (HoldsMap g.now held.new (placed_map g.now x.now)) }
    ensures adds { OnOk result ((y : Map) → HoldsMap g.now held.new y
        → HoldsMap g.now held.old y ⊎ IsInBlock g.now old.now x.now y) }
    ensures apart { OnErr result ((y z : Map)
        × (HoldsMap g.now held.old y ⊎ IsInBlock g.now old.now x.now y)
        × IsInBlock g.now old.now x.now z × (y.w ≡ z.w) × (y ≢ z)) }
{
    if !put(g, held, x)? {
        return Ok(());
    }
    firsts.push_reserved(*x);
    for h in old {
        put(g, held, &after(g, h, x))?;
    }
    Ok(())
}

/// Holds x too, and says whether it was not held before.
fn put(g: &Group, held: &mut Held, x: &Placed) -> Result<bool, Apart>
    requires place { x.now.place < length g.now }
    requires room { x.now.place < PLACES }
    requires zero { Holds held.old 0 (record { x = pos 0; y = pos 0; z = pos 0 }) }
    ensures puts { OnOk result (Puts held.old held.new x.now) }
    ensures fresh { IfOk result (λ is_new. is_new ≡ true
        → slice_index_or held.old x.now.place None ≡ None) }
    ensures same { IfOk result (λ is_new. is_new ≡ false → held.new ≡ held.old) }
    ensures apart { OnErr result (IsApart g.now held.old x.now) }
{
    if let Some(shift) = held.shift_at(x.place) {
        if shift == x.shift {
            return Ok(false);
        }
        return Err(Apart);
    }
    if Rotation::of(&g.op(x.place).w()) == Rotation::IDENTITY {
        return Err(Apart);
    }
    held.hold(x);
    Ok(true)
}

/// The product a after b.
fn after(g: &Group, a: &Placed, b: &Placed) -> Placed
    requires left { a.now.place < length g.now }
    requires right { b.now.place < length g.now }
    requires left_size { AreWithin MAX_SHIFT a.now.shift.x a.now.shift.y a.now.shift.z }
    requires right_size { AreWithin MAX_SHIFT b.now.shift.x b.now.shift.y b.now.shift.z }
    ensures within { result.place < length g.now }
    ensures value { placed_map g.now result ≡ placed_map g.now a.now ∘ placed_map g.now b.now }
    ensures size { (m n : ℕ) → AreWithin m a.now.shift.x a.now.shift.y a.now.shift.z
        → AreWithin n b.now.shift.x b.now.shift.y b.now.shift.z
        → AreWithin (m + 6 * n + 8) result.shift.x result.shift.y result.shift.z }
{
    let place = g.product(a.place, b.place);
    let by = [b.shift.x, b.shift.y, b.shift.z];
    let [x, y, z] = g.op(a.place).shift_after(&g.op(b.place), &by);
    Placed {
        place,
        shift: Offset {
            x: x + a.shift.x,
            y: y + a.shift.y,
            z: z + a.shift.z,
        },
    }
}

/// An element of the space group, by the place of its operator.
fn with_place(g: &Group, e: &Move) -> Placed
    requires { IsElement UNIT g.now (map_in e.now) }
    ensures within { result.place < length g.now }
    ensures value { placed_map g.now result ≡ map_in e.now }
    ensures shift { offset_in result.shift ≡ column_of e.now.shift }
{
    let [x, y, z] = e.shift;
    Placed {
        place: place_of(g, e),
        shift: Offset { x, y, z },
    }
}
