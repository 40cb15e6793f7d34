ghost use Rattle.std.specs.Prelude.{◌≡◌, ◌*◌, negsuc};
ghost use Rattle.lattice_algebra.specs.Matrix.{identity, scaled};
ghost use Rattle.lattice_algebra.specs.Operator.{AreWithin};
ghost use Rattle.group_closure.specs.GroupList.{IsGroup};
ghost use Rattle.group_closure.specs.Runs.{IsFirstWith};
ghost use Rattle.phase_rules.specs.declared.TheConstants.{MAX_INDEX};
ghost use Rattle.phase_rules.specs.declared.pairs.Pairs.{Pairs};
ghost use Rattle.phase_rules.specs.Rows.{row_of, ◌·ʳ◌, neg_row};
ghost use Rattle.refl_merge.specs.Keys.{IsClassKey};
ghost use Rattle.refl_merge.specs.Steps.{IsGreatestImage, IsKeyWith};

use crate::rows::greater;
use exact_ops::Op;
use group_closure::Group;
use phase_rules::halves::stands_first;
use phase_rules::{Index, Pairs};

/// The greatest index that is equivalent to the index. It can be beyond the range of an `Index`.
pub fn class_key(group: &Group, index: &Index, pairs: Pairs) -> [i32; 3]
    ensures { IsClassKey pairs group.now index.now (row_of result) }
{
    // Every group says that it is one where its length is asked.
    let _ = group.len();
    match group.opposite_run(0) {
        Some(inversion) => key_with_opposites(group, index, inversion),
        None => key_by_runs(group, index, pairs),
    }
}

/// The same for any group. A rotation part is asked once for its run.
fn key_by_runs(group: &Group, index: &Index, pairs: Pairs) -> [i32; 3]
    ensures { IsClassKey pairs group.now index.now (row_of result) }
{
    let order = group.len() as u8;
    let mut key = greatest_image(index, &group.op(0), pairs);
    let mut i = group.run_end(0);
    while i < order {
        let greatest = key_with(&key, index, &group.op(i), pairs);
        key = greatest;
        i = group.run_end(i);
    }
    key
}

/// The same for a group with the matrix -1, that of the member at `inversion`. There h and -h are equivalent for both pairs, and
/// one of two opposite rotation parts is asked.
fn key_with_opposites(group: &Group, index: &Index, inversion: u8) -> [i32; 3]
    requires group { IsGroup group.now }
    requires inversion { IsFirstWith group.now (scaled (negsuc 0) identity) inversion }
    ensures { (pairs : Pairs) → IsClassKey pairs group.now index.now (row_of result) }
{
    let mut key = greatest_image(index, &group.op(0), Pairs::Friedel);
    let mut i = group.run_end(0);
    'runs: while stands_first(group, i) {
        let greatest = key_with(&key, index, &group.op(i), Pairs::Friedel);
        key = greatest;
        i = group.run_end(i);
    }
    key
}

/// The greater of the key and the greatest image. Most images have a first number that is less in size, which is asked alone.
fn key_with(key: &[i32; 3], index: &Index, op: &Op, pairs: Pairs) -> [i32; 3]
    ensures { IsKeyWith pairs (index.now ·ʳ op.now.w) (row_of key.now) (row_of result) }
{
    // An index is known to be in range where one of its numbers is read.
    let _h = index.h;
    let first = index.first_times(&op.w());
    if first.abs() < key[0] {
        return *key;
    }
    greater(key, &greatest_image(index, op, pairs))
}

/// The image h W of the index, or with Friedel's law the greater of it and -h W.
fn greatest_image(index: &Index, op: &Op, pairs: Pairs) -> [i32; 3]
    ensures { IsGreatestImage pairs (index.now ·ʳ op.now.w) (row_of result) }
{
    // An index is known to be in range where one of its numbers is read.
    let _h = index.h;
    let image = index.times(&op.w());
    match pairs {
        Pairs::Friedel => greater(&image, &opposite(&image)),
        Pairs::Apart => image,
    }
}

fn opposite(row: &[i32; 3]) -> [i32; 3]
    requires { let r = row_of row.now in AreWithin (6 * MAX_INDEX) r.h r.k r.l }
    ensures { row_of result ≡ neg_row (row_of row.now) }
{
    let [h, k, l] = *row;
    [-h, -k, -l]
}
