ghost use Rattle.std.specs.Prelude.{◌≡◌, ◌≤◌, ◌<◌, ◌*◌, ℕ, pos, ◌<ℤ◌, length, ◌↔◌};
ghost use Rattle.lattice_algebra.specs.Matrix.{entries, coordinates};
ghost use Rattle.exact_ops.specs.declared.TheConstants.{UNIT as PARTS};
ghost use Rattle.space_groups.specs.Space.{ScaledPoint};
ghost use Rattle.space_groups.specs.Averages.{Block, IsMean, IsInImage, no_block, block_of, block_plus, block_scaled};
ghost use Rattle.group_closure.specs.declared.TheConstants.{MAX_OPERATORS};
ghost use Rattle.group_closure.specs.GroupList.{IsGroup};
ghost use Rattle.exact_ops.specs.Elements.{map_in};
ghost use Rattle.affine_sets.specs.Conditions.{IsAverage, IsSumOfGroup};
ghost use Rattle.space_groups.specs.Keys.{key_of};
ghost use Rattle.space_groups.specs.Search.{FixAll};
ghost use Rattle.affine_sets.specs.Subs.{AreElements, AreShiftsWithin};
ghost use Rattle.affine_sets.specs.Averages.{IsSpecialBlock, whole_part};
ghost use Rattle.affine_sets.specs.Fields.{offset_in, block_in};
ghost use Rattle.affine_sets.specs.declared.TheConstants.{MAX_GROWN_SHIFT, MAX_TRANSLATION};
ghost use Rattle.lattice_algebra.specs.Operator.{AreWithin, HasEntriesWithin};
ghost use Rattle.exact_ops.specs.Fields.{matrix_in};

use crate::numbers::{
    Offset, cells_in, in_one_cell, multiple, offset_multiple, offset_sum, sum, translation,
};
use crate::parts::Key;
use crate::sub::Sub;
use exact_ops::{Move, Rotation, Vector};
use group_closure::Group;
use std::marker::Model;

/// The average of a finite group of elements: the map `x -> (M x + t / UNIT) / over`, over the number of members of the space
/// group's list. It is idempotent, and its image is the set of points that all of them fix.
#[derive(Clone, Copy, Drop)]
pub struct Special {
    pub(crate) m: Rotation,
    pub(crate) t: Offset,
    pub(crate) over: u16,
}

impl Model for Special {
    ghost use Rattle.space_groups.specs.Averages.{Block};
    ghost use Rattle.affine_sets.specs.Averages.{IsSpecialBlock};

    ghost Value = { Block };

    ghost use Rattle.exact_ops.specs.Fields.{stored_matrix};
    ghost use Rattle.affine_sets.specs.Fields.{block_in, stored_offset, stored_number};

    ghost view = { λ a. block_in a.m a.t a.over };

    ghost invariant = { λ a. IsSpecialBlock (block_in a.m a.t a.over) };

    ghost inverse = { λ b.
        record { m = stored_matrix b.m; t = stored_offset b.t; over = stored_number b.n } };
}

impl Special {
    /// The matrix, row by row, over `over`.
    pub fn m(&self) -> [i32; 9]
        ensures value { result ≡ entries self.now.m }
        // What is true of every average.
        ensures special { IsSpecialBlock self.now }
    {
        self.m.rows()
    }

    /// The translation in parts of a cell, over `over`.
    pub fn t(&self) -> [i64; 3]
        ensures value { result ≡ coordinates self.now.t }
        ensures special { IsSpecialBlock self.now }
    {
        [self.t.x, self.t.y, self.t.z]
    }

    /// The number of members of the group for which it was made.
    pub fn over(&self) -> u16
        ensures value { pos result ≡ self.now.n }
        ensures special { IsSpecialBlock self.now }
    {
        self.over
    }

    /// The matrix, and the translation modulo the cell.
    pub fn in_cell(&self) -> Key
        ensures key { result.key ≡ key_of PARTS result.over self.now }
        ensures over { pos result.over ≡ self.now.n }
    {
        in_cell(&self.m, &self.t, self.over)
    }

    /// The translation in cells, each number rounded down.
    pub(crate) fn whole_cells(&self) -> Offset
        ensures value { offset_in result ≡ whole_part self.now }
        ensures special { IsSpecialBlock self.now }
    {
        Offset {
            x: cells_in(self.t.x, self.over),
            y: cells_in(self.t.y, self.over),
            z: cells_in(self.t.z, self.over),
        }
    }
}

/// A matrix over `over` and a translation, which is taken modulo the cell.
pub(crate) fn in_cell(m: &Rotation, t: &Offset, over: u16) -> Key
    requires some { 0 < over }
    requires few { over ≤ MAX_OPERATORS }
    requires matrix { HasEntriesWithin (2 * over) (matrix_in m.now) }
    requires translation { AreWithin MAX_TRANSLATION t.now.x t.now.y t.now.z }
    ensures key { result.key ≡ key_of PARTS over (block_in m.now t.now over) }
    ensures over { result.over ≡ over }
{
    Key {
        m: *m,
        t: Vector {
            x: in_one_cell(t.x, over),
            y: in_one_cell(t.y, over),
            z: in_one_cell(t.z, over),
        },
        over,
    }
}

/// The average of a finite group of elements: the sum of their maps, by their number, over the number of members of the space
/// group's list. Its image is exactly the set of points that all of them fix.
pub fn mean(g: &Group, s: &Sub) -> Special
    requires { AreElements g.now s.now }
    ensures mean { IsMean (length g.now) s.now result }
    ensures over { result.n ≡ pos (length g.now) }
    ensures image { (z : ScaledPoint) → IsInImage result z ↔ FixAll s.now z }
    // Where the whole shifts are not too large, it may be asked for its full group and its key.
    ensures average { (size : ℕ) → size ≤ MAX_GROWN_SHIFT → AreShiftsWithin size s.now
        → IsAverage g.now result }
    // What is true of every group.
    ensures group { IsGroup g.now }
{
    let mut sum = Sum::none();
    for element in &s.moves {
        sum.add(element);
    }
    sum.average(g)
}

/// The sum of some elements, and how many they are.
#[derive(Drop)]
pub(crate) struct Sum {
    m: Rotation,
    t: Offset,
    count: u16,
}

impl Model for Sum {
    ghost use Rattle.space_groups.specs.Averages.{Block};
    ghost use Rattle.affine_sets.specs.Averages.{IsSum};

    ghost Value = { Block };

    ghost use Rattle.exact_ops.specs.Fields.{stored_matrix};
    ghost use Rattle.affine_sets.specs.Fields.{block_in, stored_offset, stored_number};

    ghost view = { λ a. block_in a.m a.t a.count };

    ghost invariant = { λ a. IsSum (block_in a.m a.t a.count) };

    ghost inverse = { λ b.
        record { m = stored_matrix b.m; t = stored_offset b.t; count = stored_number b.n } };
}

impl Sum {
    pub(crate) fn none() -> Sum
        ensures { result ≡ no_block }
    {
        Sum {
            m: Rotation {
                xx: 0,
                xy: 0,
                xz: 0,
                yx: 0,
                yy: 0,
                yz: 0,
                zx: 0,
                zy: 0,
                zz: 0,
            },
            t: Offset { x: 0, y: 0, z: 0 },
            count: 0,
        }
    }

    pub(crate) fn add(&mut self, e: &Move)
        requires { self.old.n <ℤ pos MAX_OPERATORS }
        ensures { self.new ≡ block_plus self.old (block_of (map_in e.now)) }
    {
        self.m = sum(&self.m, &Rotation::of(&e.op.w()));
        self.t = offset_sum(&self.t, &translation(e));
        self.count += 1;
    }

    /// The sum of a group, by its number, over the number of members of the space group's list.
    pub(crate) fn average(&self, g: &Group) -> Special
        requires { IsSumOfGroup g.now self.now }
        // What is true of every group.
        ensures group { IsGroup g.now }
        ensures value { block_scaled self.now.n result
            ≡ block_scaled (pos (length g.now)) self.now }
        ensures over { result.n ≡ pos (length g.now) }
    {
        let times = g.len() / self.count;
        Special {
            m: multiple(i32::from(times), &self.m),
            t: offset_multiple(i64::from(times), &self.t),
            over: g.len(),
        }
    }
}
