ghost use Rattle.std.specs.Prelude.{◌≡◌, ◌<◌, IfSome, IfNone, ◌*◌, ◌^◌, [], ◌∷◌, List, IfOk, Some, length, slice_get};
ghost use Rattle.lattice_algebra.specs.Map.{identity_map};
ghost use Rattle.exact_ops.specs.Elements.{map_in};
ghost use Rattle.exact_ops.specs.Narrow.{IsNarrow};
ghost use Rattle.exact_ops.specs.declared.TheConstants.{UNIT};
ghost use Rattle.space_groups.specs.Averages.{Block, IsMean};
ghost use Rattle.affine_sets.specs.Subs.{IsSubList, AreElements, AreShiftsWithin, IsShifted, conjugate_by, IsNearShift};
ghost use Rattle.lattice_algebra.specs.Matrix.{column_of, neg_column};
ghost use Rattle.lattice_algebra.specs.Operator.{Operator, AreWithin};
ghost use Rattle.group_closure.specs.GroupList.{IsGroup};
ghost use Rattle.space_groups.specs.Regions.{shift_by};
ghost use Rattle.space_groups.specs.Space.{IsElement, ScaledPoint};
ghost use Rattle.space_groups.specs.Search.{FixAll};
ghost use Rattle.affine_sets.specs.Growth.{IsGeneratedBy};
ghost use Rattle.affine_sets.specs.Fields.{offset_in};

use crate::growth::grow;
use crate::numbers::{Offset, image, offset_difference, offset_sum};
use crate::special::mean;
use crate::{MAX_GROWN_SHIFT, MAX_NEAR_SHIFT};
use exact_ops::{Move, NoMemory, Op, Rotation};
use group_closure::Group;
use std::alloc::Global;
use std::marker::Model;

/// A finite group of elements of the space group: the identity first, then the others in the order of their operators. No two
/// have one rotation part, and some rational point is fixed by all. It is seen as the list of their maps.
#[derive(Drop)]
pub struct Sub {
    pub(crate) moves: Vec<Move>,
}

impl Model for Sub {
    ghost use Rattle.std.specs.Prelude.{List, map};
    ghost use Rattle.lattice_algebra.specs.Map.{Map};
    ghost use Rattle.exact_ops.specs.Elements.{map_in};
    ghost use Rattle.affine_sets.specs.Subs.{IsSubList};

    ghost Value = { List Map };

    ghost view = { λ a. map map_in a.moves.items };

    ghost invariant = { λ a. IsSubList (map map_in a.moves.items) };
}

impl Sub {
    /// The identity alone.
    pub fn trivial(alloc: Global) -> Result<Sub, NoMemory>
        ensures value { IfOk result (λ sub. sub ≡ identity_map ∷ []) }
        ensures elements { IfOk result (λ sub. (members : List Operator) → IsGroup members
            → AreElements members sub) }
        ensures shifts { IfOk result (AreShiftsWithin 0) }
    {
        let Ok(mut moves) = Vec::with_capacity(alloc, 1) else {
            return Err(NoMemory);
        };
        moves.push_reserved(Move {
            op: Op::identity(),
            shift: [0; 3],
        });
        Ok(Sub { moves })
    }

    /// How many elements it has.
    pub fn len(&self) -> u16
        ensures value { result ≡ length self.now }
        // What is true of every Sub.
        ensures group { IsSubList self.now }
    {
        self.moves.len() as u16
    }

    /// The element at place k, counted from 0.
    pub fn get(&self, k: u16) -> Move
        requires { k < length self.now }
        ensures { slice_get self.now k ≡ Some (map_in result) }
    {
        self.moves[usize::from(k)]
    }

    /// The group that the elements of this one and e generate. None exactly where no rational point is fixed by all.
    pub fn grow(&self, alloc: Global, g: &Group, e: &Move) -> Result<Option<Sub>, NoMemory>
        requires elements { AreElements g.now self.now }
        requires element { IsElement UNIT g.now (map_in e.now) }
        requires shifts { AreShiftsWithin MAX_GROWN_SHIFT (map_in e.now ∷ self.now) }
        ensures some { IfOk result (λ grown. IfSome grown
            (IsGeneratedBy (map_in e.now ∷ self.now))) }
        ensures none { IfOk result (λ grown. IfNone grown
            ((z : ScaledPoint) → FixAll (map_in e.now ∷ self.now) z → ⊥)) }
        ensures elements { IfOk result (λ grown. IfSome grown (AreElements g.now)) }
    {
        grow(alloc, self, g, e)
    }

    /// The group moved near the origin: its conjugates by the whole shift -f, where f is the translation of its average with
    /// each number rounded down. Each whole shift is then at most `MAX_NEAR_SHIFT` in size.
    pub fn near(&self, alloc: Global, g: &Group) -> Result<Sub, NoMemory>
        requires { AreElements g.now self.now }
        ensures shifted { IfOk result (λ sub. (a : Block) → IsMean (length g.now) self.now a
            → IsShifted a self.now sub) }
        ensures near { IfOk result (AreShiftsWithin MAX_NEAR_SHIFT) }
        ensures elements { IfOk result (AreElements g.now) }
    {
        let Ok(mut moves) = Vec::with_capacity(alloc, self.moves.len()) else {
            return Err(NoMemory);
        };
        let f = mean(g, self).whole_cells();
        for element in &self.moves {
            moves.push_reserved(shifted(element, &f));
        }
        Ok(Sub { moves })
    }
}

/// The element v s v^-1, where v is the shift by -f.
fn shifted(s: &Move, f: &Offset) -> Move
    requires cells { AreWithin (4 * 10 ^ 12) f.now.x f.now.y f.now.z }
    requires near { IsNarrow s.now.op
        → IsNearShift s.now.op.w (column_of s.now.shift) (offset_in f.now) }
    ensures { map_in result
        ≡ conjugate_by (shift_by UNIT (neg_column (offset_in f.now))) (map_in s.now) }
{
    let w = Rotation::of(&s.op.w());
    let [x, y, z] = s.shift;
    let k = offset_difference(&offset_sum(&Offset { x, y, z }, &image(&w, f)), f);
    Move {
        op: s.op,
        shift: [k.x, k.y, k.z],
    }
}
