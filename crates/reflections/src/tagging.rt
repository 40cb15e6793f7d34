ghost use Rattle.std.specs.Prelude.{◌≡◌, ◌↔◌, ◌⊎◌, length, negsuc};
ghost use Rattle.lattice_algebra.specs.Matrix.{identity, scaled};
ghost use Rattle.group_closure.specs.GroupList.{IsGroup};
ghost use Rattle.group_closure.specs.Runs.{IsFirstWith};
ghost use Rattle.phase_rules.specs.declared.pairs.Pairs.{Pairs};
ghost use Rattle.phase_rules.specs.Rows.{Row, row_of, ◌·ʳ◌};
ghost use Rattle.phase_rules.specs.Equivalent.{IsSameReflection, AreEquivalent};
ghost use Rattle.phase_rules.specs.Tallies.{IsTurn, IsTally};
ghost use Rattle.reflections.specs.Boxes.{IsInBox, places};
ghost use Rattle.reflections.specs.Walks.{IsTagged};

use crate::box_size::BoxSize;
use exact_ops::Op;
use group_closure::Group;
use phase_rules::halves::stands_first;
use phase_rules::tallies::{Tally, Turn};
use phase_rules::{Index, Pairs};

/// Tags the rows of the box that are equivalent to the index, and counts what the members do to it.
pub fn tag_class(
    tags: &mut [bool],
    size: &BoxSize,
    group: &Group,
    index: &Index,
    pairs: Pairs,
) -> Tally
    requires { length tags.old ≡ places size.now }
    ensures tally { IsTally group.now index.now result }
    ensures tags { (h : Row) → IsInBox size.now h → (IsTagged size.now tags.new h
        ↔ (IsTagged size.now tags.old h ⊎ AreEquivalent pairs group.now index.now h)) }
{
    // Every group says that it is one where its length is asked.
    let _ = group.len();
    match group.opposite_run(0) {
        Some(inversion) => tag_with_opposites(tags, size, group, index, inversion),
        None => tag_by_runs(tags, size, group, index, pairs),
    }
}

/// The same for any group. A rotation part is asked once for its run.
fn tag_by_runs(
    tags: &mut [bool],
    size: &BoxSize,
    group: &Group,
    index: &Index,
    pairs: Pairs,
) -> Tally
    requires { length tags.old ≡ places size.now }
    ensures tally { IsTally group.now index.now result }
    ensures tags { (h : Row) → IsInBox size.now h → (IsTagged size.now tags.new h
        ↔ (IsTagged size.now tags.old h ⊎ AreEquivalent pairs group.now index.now h)) }
{
    let order = group.len() as u8;
    let mut tally = Tally::none();
    let mut i = 0;
    while i < order {
        let turn = tag_images(tags, size, index, &group.op(i), pairs);
        let end = group.run_end(i);
        // Most runs do neither, and cost no call.
        if turn.fixes || turn.reverses {
            tally.add_run(group, index, i, end, turn);
        }
        i = end;
    }
    tally
}

/// The same for a group with the matrix -1, that of the member at `inversion`. There h and -h are equivalent for both pairs, and
/// one of two opposite rotation parts is asked.
fn tag_with_opposites(
    tags: &mut [bool],
    size: &BoxSize,
    group: &Group,
    index: &Index,
    inversion: u8,
) -> Tally
    requires len { length tags.old ≡ places size.now }
    requires group { IsGroup group.now }
    requires inversion { IsFirstWith group.now (scaled (negsuc 0) identity) inversion }
    ensures tally { IsTally group.now index.now result }
    ensures tags { (pairs : Pairs) (h : Row) → IsInBox size.now h → (IsTagged size.now tags.new h
        ↔ (IsTagged size.now tags.old h ⊎ AreEquivalent pairs group.now index.now h)) }
{
    let mut tally = Tally::none();
    let mut i = 0;
    'runs: while stands_first(group, i) {
        let turn = tag_images(tags, size, index, &group.op(i), Pairs::Friedel);
        let end = group.run_end(i);
        // Most runs do neither, and cost no call.
        if turn.fixes || turn.reverses {
            tally.add_run(group, index, i, end, turn);
        }
        i = end;
    }
    tally.with_opposites(group, index, inversion)
}

/// Tags the rows of the box that the rotation part of an operator makes of the index, and says what it does to it.
fn tag_images(tags: &mut [bool], size: &BoxSize, index: &Index, op: &Op, pairs: Pairs) -> Turn
    requires { length tags.old ≡ places size.now }
    ensures turn { IsTurn index.now (index.now ·ʳ op.now.w) result }
    ensures tags { (h : Row) → IsInBox size.now h → (IsTagged size.now tags.new h
        ↔ (IsTagged size.now tags.old h ⊎ IsSameReflection pairs (index.now ·ʳ op.now.w) h)) }
{
    let image = index.times(&op.w());
    if size.holds(&image) {
        tag(tags, size, &image, pairs);
    }
    Turn::of(index, &image)
}

/// Tags a row of the box, and with Friedel's law its opposite.
fn tag(tags: &mut [bool], size: &BoxSize, row: &[i32; 3], pairs: Pairs)
    requires len { length tags.old ≡ places size.now }
    requires within { IsInBox size.now (row_of row.now) }
    ensures { (h : Row) → IsInBox size.now h → (IsTagged size.now tags.new h
        ↔ (IsTagged size.now tags.old h ⊎ IsSameReflection pairs (row_of row.now) h)) }
{
    let at = size.place(row);
    tags[at] = true;
    match pairs {
        // Its opposite stands as far from the end.
        Pairs::Friedel => {
            let back = tags.len() - 1 - at;
            tags[back] = true;
        }
        Pairs::Apart => {}
    }
}
